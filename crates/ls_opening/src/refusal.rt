//! Why no film is recorded.
ghost use Rattle.std.specs.Prelude.{◌≡◌, ◌⊎◌};

use ls_console::{Console, FAILED, Shown, USAGE, no_memory, say_unmade};
use ls_frame::Outlet;
use std::alloc::{AllocError, AllocFailed};
use std::io;

/// Why no film is recorded, found before the first frame is read.
#[derive(Clone, Copy)]
pub enum Refusal<'a> {
    /// An allocation failed.
    NoMemory,
    /// A film, the file of a recording or the report is a duplicate.
    Twice(&'a str),
    /// A recording is to be cut into pieces, and would be written into a pipe, a device or an open file.
    Uncut(&'a str),
    /// A film can't be opened.
    Unopened(&'a str, io::Error),
    /// A file can't be made. `WouldBlock` means that another program is making it.
    Unmade(&'a str, io::Error),
    /// The reason was said already.
    Said,
}

impl From<AllocError> for Refusal<'_> {
    fn from(_refused: AllocError) -> Self {
        Refusal::NoMemory
    }
}

impl<T: Drop> From<AllocFailed<T>> for Refusal<'_> {
    fn from(_refused: AllocFailed<T>) -> Self {
        Refusal::NoMemory
    }
}

impl Refusal<'_> {
    /// Says the reason, unless that was done, and returns the status.
    pub fn say<E: Outlet>(self, console: &mut Console<E>) -> u8
        ensures { (result ≡ FAILED) ⊎ (result ≡ USAGE) }
    {
        match self {
            Refusal::NoMemory => no_memory(console),
            Refusal::Twice(name) => {
                let name = Shown(name);
                console.say(format_args!("{name}: given twice"));
                USAGE
            }
            Refusal::Uncut(name) => {
                let name = Shown(name);
                console.say(format_args!("{name}: isn't a file that pieces can follow"));
                USAGE
            }
            Refusal::Unopened(file, fault) => {
                console.say_unopened(file, &fault);
                FAILED
            }
            Refusal::Unmade(path, fault) => say_unmade(path, fault, console),
            Refusal::Said => FAILED,
        }
    }
}
