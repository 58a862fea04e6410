//! The command `play --into`: plays recordings into a folder, each to a film of its own.
ghost use Rattle.std.specs.Prelude.{◌≡◌, ◌⊎◌, All, IfErr};
ghost use Rattle.ls_reading.specs.View.Each.{IsPlayed};
ghost use Rattle.ls_reading.specs.View.Statuses.{DoneOrFailed, DoneFailedOrUsage};

use crate::draft::Draft;
use crate::each::worse;
use crate::indexing::say_twice;
use crate::playing::show;
use ls_console::{Console, DONE, FAILED, Host, MadeFile, Program, USAGE, no_memory};
use ls_files::Makes;
use ls_files::identity::last_part;
use ls_film::Part;
use ls_frame::{Counted, Outlet};
use std::alloc::{AllocError, Global};
use std::io::Write;
use std::thread::Threads;

/// Plays each of these recordings with this number of workers, or the part of it that is asked for, to a new film in
/// the folder `into`. If that can't be done for one, says so and goes on with the others. If two films would have one
/// name, nothing is played.
pub fn show_into<R, O, W, E>(
    program: Program<'_, R, O, W, E>,
    files: &[&str],
    into: &str,
    part: Option<Part>,
    workers: u8,
) -> u8
where
    R: Host + Threads + Sync,
    O: Makes + Copy + Drop,
    W: Write,
    E: Outlet,
    ensures status { DoneFailedOrUsage result }
    ensures each { result ≡ DONE → All (λ file. IsPlayed O.holds O.File.contents program.entry.opener part file.now) files.now }
{
    let Program {
        rt,
        opener,
        console,
        ..
    } = program;
    if let Err(status) = refuse_twice(rt.alloc(), files, into, console) {
        return status;
    }
    let mut status = DONE;
    for file in files {
        let own = show_one(rt, opener, file, into, part, workers, console);
        status = worse(status, own);
    }
    status
}

/// Plays a recording, or a part of it, to a new film in the folder `into`.
fn show_one<R, O, E>(
    rt: &R,
    opener: O,
    file: &str,
    into: &str,
    part: Option<Part>,
    workers: u8,
    console: &mut Console<E>,
) -> u8
where
    R: Host + Threads + Sync,
    O: Makes + Copy + Drop,
    E: Outlet,
    ensures status { DoneOrFailed result }
    ensures played { result ≡ DONE → IsPlayed O.holds O.File.contents opener part file.now }
{
    let Ok(path) = film_name(rt.alloc(), file, into) else {
        return no_memory(console);
    };
    let Ok(draft) = Draft::new(rt.alloc(), path) else {
        return no_memory(console);
    };
    let made = match draft.make(rt, opener, console) {
        Ok(made) => made,
        Err(status) => return status,
    };
    let MadeFile { target, keeper, .. } = made;
    let mut output = Counted::new(target);
    let program = Program {
        rt,
        opener,
        output: &mut output,
        console: &mut *console,
    };
    let status = show(program, file, part, workers);
    draft.end(status, output.get_ref(), opener, &keeper, console)
}

/// Refuses films of which two would have one name: says so, and returns the status.
fn refuse_twice<E: Outlet>(
    alloc: Global,
    files: &[&str],
    into: &str,
    console: &mut Console<E>,
) -> Result<(), u8>
    ensures { IfErr result (λ status. (status ≡ FAILED) ⊎ (status ≡ USAGE)) }
{
    let Ok(names) = film_names(alloc, files, into) else {
        return Err(no_memory(console));
    };
    match named_twice(&names) {
        Some(name) => Err(say_twice(name, console)),
        None => Ok(()),
    }
}

/// The names of the films of recordings in a folder, in alphabetical order.
fn film_names(alloc: Global, files: &[&str], into: &str) -> Result<Vec<String>, AllocError> {
    let mut names = Vec::new(alloc);
    for file in files {
        names.push(film_name(alloc, file, into)?)?;
    }
    names.sort()?;
    Ok(names)
}

/// The first name that stands twice in a list in alphabetical order.
fn named_twice(names: &[String]) -> Option<&str> {
    let mut last: Option<&str> = None;
    for name in names {
        let name = name.as_str();
        if last == Some(name) {
            return last;
        }
        last = Some(name);
    }
    None
}

/// The name of a recording's film in a folder: the recording's without `.jls`, or with `.pnm` if it hasn't that ending.
fn film_name(alloc: Global, file: &str, into: &str) -> Result<String, AllocError> {
    let folder = into.strip_suffix("/").unwrap_or(into);
    let name = last_part(file);
    match name.strip_suffix(".jls") {
        Some(stem) if !stem.is_empty() => format!(in alloc; "{folder}/{stem}"),
        _ => format!(in alloc; "{folder}/{name}.pnm"),
    }
}
