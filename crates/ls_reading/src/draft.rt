//! A file that gets its name once it is whole and on the disk.
ghost use Rattle.std.specs.Prelude.{◌≡◌, ◌⊎◌, IfErr};

use ls_console::{Console, DONE, FAILED, MadeFile, Shown, make_file, say_unmade, say_unsynced};
use ls_files::{Keeper, Makes, Place, Target};
use ls_frame::{Failed, Outlet};
use std::alloc::{AllocError, Global};
use std::io;
use std::rt::Files;

/// The ending that a file's name has until the file is whole.
const PART: &str = ".part";

/// The names of a file that is to be made: its own, and the one that it has until it is whole.
#[derive(Drop)]
pub struct Draft {
    path: String,
    part: String,
}

impl Draft {
    /// The names of the file at this path.
    pub fn new(alloc: Global, path: String) -> Result<Draft, AllocError> {
        let part = format!(in alloc; "{path}{PART}")?;
        Ok(Draft { path, part })
    }

    /// Makes the file, under its name until it is whole. Fails if anything has one of its names. On failure says why and
    /// returns the status.
    pub fn make<'d, R, O, E>(
        &'d self,
        rt: &R,
        opener: O,
        console: &mut Console<E>,
    ) -> Result<MadeFile<'d, O>, u8>
    where
        R: AllocGlobal + Files,
        O: Makes + Copy + Drop,
        E: Outlet,
        ensures { IfErr result (λ status. status ≡ FAILED) }
    {
        let (path, part) = (self.path.as_str(), self.part.as_str());
        if !(is_free(&opener, path, console) && is_free(&opener, part, console)) {
            return Err(FAILED);
        }
        let place = Place::of(rt, part);
        match Keeper::claim(rt.alloc(), opener, &place, None, None, false) {
            Ok(keeper) => make_file(rt.alloc(), part, keeper, console),
            Err(unmade) => Err(say_unmade(part, unmade.fault, console)),
        }
    }

    /// Gives the file its name, if it was written with the status `DONE` and can be brought onto the disk; else removes
    /// it, and says why, unless that was said. Returns the status.
    pub fn end<O, E>(
        &self,
        status: u8,
        target: &Target<'_, O>,
        opener: O,
        keeper: &Keeper<O>,
        console: &mut Console<E>,
    ) -> u8
    where
        O: Makes + Copy + Drop,
        E: Outlet,
        ensures done { result ≡ DONE → status ≡ DONE }
        ensures status { (status ≡ DONE) ⊎ (status ≡ FAILED) → (result ≡ DONE) ⊎ (result ≡ FAILED) }
    {
        if status != DONE {
            let _refused = opener.remove(&self.part);
            return status;
        }
        if let Err(fault) = keeper.sync() {
            say_unsynced(&self.path, target, Failed::from(fault), console);
            let _refused = opener.remove(&self.part);
            return FAILED;
        }
        if let Err(fault) = self.rename(opener) {
            say_unnamed(&self.path, &fault, console);
            let _refused = opener.remove(&self.part);
            return FAILED;
        }
        // Its folder has to be brought onto the disk once more, with the new name.
        if let Err(fault) = keeper.sync() {
            say_unsynced(&self.path, target, Failed::from(fault), console);
            let _refused = opener.remove(&self.path);
            return FAILED;
        }
        DONE
    }

    /// Gives the file its name. An empty file takes the name first, so that no file which has come meanwhile is
    /// replaced: then fails with `AlreadyExists`.
    fn rename<O: Makes + Drop>(&self, opener: O) -> io::Result<()> {
        let _taken = opener.create_new(&self.path)?;
        match opener.rename(&self.part, &self.path) {
            Ok(()) => Ok(()),
            Err(fault) => {
                let _left = opener.remove(&self.path);
                Err(fault)
            }
        }
    }
}

/// Whether nothing is at a path. If something is, or that can't be seen, says so.
fn is_free<O: Makes, E: Outlet>(opener: &O, path: &str, console: &mut Console<E>) -> bool {
    let fault = match opener.look(path) {
        Ok(_) => io::Error::from(io::ErrorKind::AlreadyExists),
        Err(fault) if fault.kind() == io::ErrorKind::NotFound => return true,
        Err(fault) => fault,
    };
    say_unnamed(path, &fault, console);
    false
}

/// Says why a file can't have its name.
fn say_unnamed<E: Outlet>(path: &str, fault: &io::Error, console: &mut Console<E>) {
    if fault.kind() == io::ErrorKind::AlreadyExists {
        let shown = Shown(path);
        console.say(format_args!("{shown}: already exists"));
    } else {
        console.say_unopened(path, fault);
    }
}
