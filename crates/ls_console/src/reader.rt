//! Reads films and recordings from files, and says why one can't be read.
ghost use Rattle.std.specs.Prelude.{◌≡◌, IfOk, IfErr};
ghost use Rattle.ls_files.specs.View.Files.{left_in_source};
ghost use Rattle.ls_files.specs.View.Opened.{HoldsFrom};
ghost use Rattle.ls_console.specs.View.Readers.{unread};

use crate::console::Console;
use crate::output::FAILED;
use crate::shown::Shown;
use ls_files::{Opens, Source, likeness_of};
use ls_frame::{Buffered, Counted, Failed, NetpbmFault, Outlet};
use std::alloc::Global;

/// The reader of a film or a recording.
pub type Reader<'a, O> = Buffered<Counted<Source<'a, O>>>;

/// The cause of a fault.
#[derive(Clone, Copy)]
pub enum Cause {
    /// A read failed.
    Reading,
    /// A write failed.
    Writing,
    /// The file is of another kind, as its first bytes show.
    Format,
    Other,
}

/// Opens a film or a recording; if it is a named pipe, waits until something writes to it. On failure says why and
/// returns the status.
pub fn open_film<'a, O, E>(
    alloc: Global,
    opener: O,
    file: &'a str,
    console: &mut Console<E>,
) -> Result<Reader<'a, O>, u8>
where
    O: Opens + Drop,
    E: Outlet,
    ensures film { IfOk result (λ reader. O.holds opener file.now (unread O.File.remaining reader)) }
    ensures status { IfErr result (λ status. status ≡ FAILED) }
{
    match Source::open(opener, file) {
        Ok(source) => buffered(alloc, file, source, console),
        Err(fault) => {
            console.say_unopened(file, &fault);
            Err(FAILED)
        }
    }
}

/// Opens a recording or an index to read it from a place on. On failure says why and returns the status.
pub fn open_from<'a, O, E>(
    alloc: Global,
    opener: O,
    file: &'a str,
    place: u64,
    console: &mut Console<E>,
) -> Result<Reader<'a, O>, u8>
where
    O: Opens + Drop,
    E: Outlet,
    ensures from { IfOk result (λ reader. HoldsFrom (O.holds opener file.now) place (unread O.File.remaining reader)) }
    ensures status { IfErr result (λ status. status ≡ FAILED) }
{
    match Source::open_from(opener, file, place) {
        Ok(source) => buffered(alloc, file, source, console),
        Err(fault) => {
            console.say_unopened(file, &fault);
            Err(FAILED)
        }
    }
}

/// Wraps a source in a buffer. If there is no memory for one, says so and returns the status.
pub fn buffered<'a, O, E>(
    alloc: Global,
    file: &str,
    source: Source<'a, O>,
    console: &mut Console<E>,
) -> Result<Reader<'a, O>, u8>
where
    O: Opens + Drop,
    E: Outlet,
    ensures unread { IfOk result (λ reader. unread O.File.remaining reader ≡ left_in_source O.File.remaining source.entry) }
    ensures status { IfErr result (λ status. status ≡ FAILED) }
{
    match Buffered::new(alloc, Counted::new(source)) {
        Ok(reader) => Ok(reader),
        Err(_) => {
            let file = Shown(file);
            console.say(format_args!("{file}: no memory"));
            Err(FAILED)
        }
    }
}

/// The cause of a fault in reading the frame of this number from a film.
pub fn cause_of_input(number: u64, fault: NetpbmFault) -> Cause {
    match fault {
        NetpbmFault::Io => Cause::Reading,
        NetpbmFault::BadMagic if number == 0 => Cause::Format,
        _ => Cause::Other,
    }
}

/// Says more about a fault's cause, if reasons are on: the system's reason, or what the file seems to be.
pub fn explain<O, E>(
    file: &str,
    cause: Cause,
    reader: &Reader<'_, O>,
    written: Option<Failed>,
    console: &mut Console<E>,
)
where
    O: Opens,
    E: Outlet,
{
    let read = reader.get_ref();
    match cause {
        Cause::Reading => console.blame(file, read.last_failure()),
        Cause::Writing => console.blame(file, written),
        Cause::Format => console.liken(file, likeness_of(read.get_ref().front())),
        Cause::Other => {}
    }
}
