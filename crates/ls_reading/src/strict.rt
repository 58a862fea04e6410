//! Whether the codestreams of a recording are strict, for `check` and `verify`.
ghost use Rattle.std.specs.Prelude.{◌≡◌, IfOk, IfErr, IfSome, IfNone};
ghost use Rattle.ls_archive.specs.View.Strict.{IsStrict, IsLoose, StopsStrict};
ghost use Rattle.ls_reading.specs.View.Commands.{HasStrictCodestreams};
ghost use Rattle.ls_reading.specs.View.Statuses.{DoneOrFailed};

use crate::cause::conclude;
use ls_archive::{Strict, read_strict};
use ls_console::{Console, DONE, FAILED, Reader, Shown, open_film};
use ls_files::Opens;
use ls_film::{MOST_FRAMES, PlayFault};
use ls_frame::{Feed, Outlet};
use std::alloc::Global;

/// Looks whether each codestream of a recording is strict, says which aren't, and returns the status.
pub fn look_strict<O, E>(alloc: Global, opener: O, file: &str, console: &mut Console<E>) -> u8
where
    O: Opens + Copy + Drop,
    E: Outlet,
    ensures status { DoneOrFailed result }
    ensures strict { result ≡ DONE → HasStrictCodestreams O.holds opener file.now }
{
    let mut recording = match open_film(alloc, opener, file, console) {
        Ok(recording) => recording,
        Err(status) => return status,
    };
    match strict_from(alloc, &mut recording) {
        Ok(found) => match found.loose {
            Some(component) => say_loose(
                alloc,
                file,
                recording,
                (found.frames, component),
                console,
            ),
            None => DONE,
        },
        Err(fault) => conclude(file, Err(fault), &recording, None, console),
    }
}

/// Reads the strict codestreams of a recording up to the first that isn't, over any reader.
fn strict_from<R: Feed>(alloc: Global, recording: &mut R) -> Result<Strict, PlayFault>
    ensures strict { IfOk result (λ found. IfNone found.loose (IsStrict (R.remaining recording.old) (R.remaining recording.new) found.frames)) }
    ensures loose { IfOk result (λ found. IfSome found.loose (IsLoose (R.remaining recording.old) (R.remaining recording.new) found.frames)) }
    ensures stops { IfErr result (StopsStrict (R.remaining recording.old) (R.remaining recording.new)) }
{
    read_strict(alloc, recording)
}

/// Says which codestreams of a recording aren't strict: first the one of this number, by the scan of this component, and
/// then those that are read after it. Returns the status `FAILED`.
fn say_loose<O, E>(
    alloc: Global,
    file: &str,
    mut recording: Reader<'_, O>,
    first: (u64, u8),
    console: &mut Console<E>,
) -> u8
where
    O: Opens + Drop,
    E: Outlet,
    ensures { result ≡ FAILED }
{
    let shown = Shown(file);
    let (mut number, mut component) = first;
    for _next in 0..MOST_FRAMES {
        console.say(format_args!(
            "{shown}: frame {number}: not strict: the scan of component {component}"
        ));
        number = number.saturating_add(1);
        let found = match strict_from(alloc, &mut recording) {
            Ok(found) => found,
            Err(fault) => {
                return conclude(file, Err(later(fault, number)), &recording, None, console);
            }
        };
        let Some(next) = found.loose else {
            break;
        };
        number = number.saturating_add(found.frames);
        component = next;
    }
    FAILED
}

/// The same fault, with the codestreams counted from the beginning of the recording, of which `before` were read before.
fn later(fault: PlayFault, before: u64) -> PlayFault {
    match fault {
        PlayFault::Stream(number, fault) => PlayFault::Stream(before.saturating_add(number), fault),
        other => other,
    }
}
