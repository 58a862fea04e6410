//! Makes a file that isn't a recording's, and says how a file that was written ended.
ghost use Rattle.std.specs.Prelude.{◌≡◌, ◌&&◌, not, is_some, is_ok, IfOk, IfErr};
ghost use Rattle.ls_frame.specs.View.Devices.{wrapped};

use crate::console::Console;
use crate::output::FAILED;
use crate::reader::Cause;
use crate::shown::Shown;
use ls_files::{Keeper, Makes, Opens, Target};
use ls_frame::{Counted, Failed, Outlet};
use std::alloc::Global;
use std::fmt::Display;
use std::io;

/// A file that was made by itself, as a report is: its path, the file to write to, and its keeper.
#[derive(Drop)]
pub struct MadeFile<'a, O: Makes> {
    pub path: &'a str,
    pub target: Target<'a, O>,
    pub keeper: Keeper<O>,
}

/// Makes the file at `path`, whose place was claimed by `keeper`, and says what was renamed for it. On failure says
/// why and returns the status.
pub fn make_file<'a, O, E>(
    alloc: Global,
    path: &'a str,
    mut keeper: Keeper<O>,
    console: &mut Console<E>,
) -> Result<MadeFile<'a, O>, u8>
where
    O: Makes + Copy + Drop,
    E: Outlet,
    ensures path { IfOk result (λ made. (made.path.now ≡ path.now) × (made.target.path.now ≡ path.now)) }
    ensures status { IfErr result (λ status. status ≡ FAILED) }
{
    match keeper.make(alloc, path, None, None) {
        Ok(targets) => {
            if let Some(renamed) = keeper.renamed() {
                console.mention(path, renamed);
            }
            Ok(MadeFile {
                path,
                target: targets.recording,
                keeper,
            })
        }
        Err(unmade) => Err(say_unmade(path, unmade.fault, console)),
    }
}

/// An index whose recording has ended: whether it is whole, and its file.
#[derive(Drop)]
pub struct EndedIndex<'a, O: Opens> {
    pub is_whole: bool,
    pub target: Target<'a, O>,
}

/// Says why an index isn't whole, if it isn't: because of the fault `broken`, with its cause, or because it couldn't
/// be synced.
pub fn say_index_end<'a, O, X, E>(
    path: &str,
    index: Counted<Target<'a, O>>,
    synced: Result<(), Failed>,
    broken: Option<(X, Cause)>,
    console: &mut Console<E>,
) -> EndedIndex<'a, O>
where
    O: Opens,
    X: Display + Drop,
    E: Outlet,
    ensures whole { result.is_whole ≡ (not (is_some broken) && is_ok synced) }
    ensures target { result.target ≡ wrapped index.entry }
{
    let written = index.last_failure();
    let target = index.into_inner();
    let is_whole = match (broken, synced) {
        (None, Ok(())) => true,
        (None, Err(failure)) => {
            say_unsynced(path, &target, failure, console);
            false
        }
        (Some((fault, cause)), _) => {
            let shown = Shown(path);
            console.say(format_args!("{shown}: {fault}"));
            if matches!(cause, Cause::Writing) {
                console.blame(path, written);
            }
            false
        }
    };
    EndedIndex { is_whole, target }
}

/// Says that a file couldn't be synced to disk.
pub fn say_unsynced<O, E>(
    path: &str,
    target: &Target<'_, O>,
    failure: Failed,
    console: &mut Console<E>,
)
where
    O: Opens,
    E: Outlet,
{
    let bytes = target.written();
    let shown = Shown(path);
    console.say(format_args!("{shown}: output failed after {bytes} bytes"));
    console.blame(path, Some(failure));
}

/// Says why a file can't be made, and returns the status.
pub fn say_unmade<E: Outlet>(path: &str, fault: io::Error, console: &mut Console<E>) -> u8
    ensures { result ≡ FAILED }
{
    if fault.kind() == io::ErrorKind::WouldBlock {
        let shown = Shown(path);
        console.say(format_args!("{shown}: another program is recording it"));
    } else {
        console.say_unopened(path, &fault);
    }
    FAILED
}
