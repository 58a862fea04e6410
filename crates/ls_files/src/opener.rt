//! Opens files in any thread.
ghost use Rattle.std.specs.Prelude.{◌≡◌, ℕ, List, [], Option, None, IfOk};
ghost use Rattle.std.specs.Io.KnownBytes.{Keeps, prepend_known};
ghost use Rattle.ls_files.specs.View.Opened.{HoldsFrom};

use crate::stop::Stop;
use std::alloc::{AllocError, Global};
use std::fs::{File, Files, Metadata, OpenFile, OpenOptions, TryLockError};
use std::io::{Read, Seek, SeekFrom, Write};
use std::os::unix::fs::FileTypeExt;
use std::time::{Clock, SystemTime, UNIX_EPOCH};
use std::{fs, io};

/// Opens files, and writes a line on standard error. A lane opens its pipe with it, in its own thread, into which the
/// runtime's whole file system can't be taken.
pub trait Opens {
    type File: Read + Write + OpenFile + Drop;

    /// What a file system says of the file at a path: that these are the bytes to be read from it, or that they aren't
    /// known (`None`). Of a disk nothing is said.
    ghost holds: { Self → List ℕ → Option (List ℕ) → Type 0 };

    /// Opens a file to read it.
    fn open(&self, path: &str) -> io::Result<Self::File>
        ensures { IfOk result (λ file. holds self.now path.now (Self.File.remaining file)) };

    /// Opens a file to read it from a place on, which is this number of bytes after its beginning.
    fn open_from(&self, path: &str, place: u64) -> io::Result<Self::File>
        ensures { IfOk result (λ file. HoldsFrom (holds self.now path.now) place (Self.File.remaining file)) };

    /// Opens a named pipe for reading and writing, which never waits. While it is open, the pipe has a writer.
    fn open_kept(&self, path: &str) -> io::Result<Self::File>;

    /// Opens an existing file to write to it.
    fn open_to_write(&self, path: &str) -> io::Result<Self::File>;

    /// Writes a line on standard error. A failure is ignored.
    fn say(&self, line: &str);

    /// Whether the program was asked to stop: then no film is read any further.
    fn is_stopping(&self) -> bool;

    /// Asks the program to stop, as a signal does.
    fn stop(&self);

    /// The nanoseconds since 1970-01-01T00:00:00Z by the system's clock; 0 if it can't be read.
    fn now(&self) -> u64;

    /// Opens a named pipe for reading and writing, which never waits, and closes it again: so whoever waits for its
    /// other side goes on. Does nothing with any other file. A failure is ignored.
    fn wake(&self, path: &str);
}

/// Makes, locks, renames and removes files, in any thread.
pub trait Makes: Opens {
    /// What is kept of files that were closed once they were finished, so that their bytes stay known if they were.
    type Finished: Drop;

    /// The bytes of these files, one file after the other.
    ghost kept: { Self.Finished → List ℕ };

    /// Before the first file is finished.
    fn none_finished(&self, alloc: Global) -> Self::Finished
        ensures { kept result ≡ [] };

    /// Closes a file that is finished, and goes on with the next, which is new. The bytes known of the finished files
    /// and of the file are the same before and afterwards. If memory runs out, it goes on with the file.
    fn succeed(
        &self,
        finished: &mut Self::Finished,
        file: &mut Self::File,
        next: Self::File,
    ) -> Result<(), AllocError>
        ensures { Keeps (prepend_known (kept finished.old) (Self.File.contents file.old)) (prepend_known (kept finished.new) (Self.File.contents file.new)) };

    /// Makes a file to write to. Fails with `AlreadyExists` if anything has that name.
    fn create_new(&self, path: &str) -> io::Result<Self::File>;

    /// Opens an existing file to write to it at its end.
    fn open_to_append(&self, path: &str) -> io::Result<Self::File>;

    /// Locks a file until it is closed; `false` if another program has the lock.
    fn try_lock(&self, file: &Self::File) -> io::Result<bool>;

    /// The metadata of a file; of a link, its own.
    fn look(&self, path: &str) -> io::Result<Metadata>;

    /// The path with all links resolved.
    fn follow(&self, alloc: Global, path: &str) -> io::Result<String>;

    /// Renames a file, over any file that has the new name.
    fn rename(&self, from: &str, to: &str) -> io::Result<()>;

    fn remove(&self, path: &str) -> io::Result<()>;
}

/// A file on a disk, which can be locked until it is closed.
pub trait Locks: Write {
    /// Takes the lock; `false` if another program has it.
    fn take_lock(&self) -> io::Result<bool>;

    /// Nothing is known of its bytes. Does nothing.
    fn tells_nothing(&self)
        ensures { Self.contents self.now ≡ None };
}

impl Locks for File {
    fn take_lock(&self) -> io::Result<bool> {
        match self.try_lock() {
            Ok(()) => Ok(true),
            Err(TryLockError::WouldBlock) => Ok(false),
            Err(TryLockError::Error(fault)) => Err(fault),
        }
    }

    fn tells_nothing(&self) {}
}

/// Opens the files of a runtime.
pub struct Opener<'a, R: Files> {
    rt: &'a R,
    /// How the program is asked to stop, if it can be.
    stop: Option<&'a Stop<R::File>>,
}

impl<'a, R: Files> Opener<'a, R> {
    /// An opener for the files of this runtime.
    pub fn new(rt: &'a R) -> Opener<'a, R> {
        Opener { rt, stop: None }
    }

    /// The same for a program that can be asked to stop.
    pub fn stopped_by(self, stop: &'a Stop<R::File>) -> Opener<'a, R> {
        Opener {
            rt: self.rt,
            stop: Some(stop),
        }
    }
}

impl<'a, R: Files> Clone for Opener<'a, R> {
    fn clone(&self) -> Result<Opener<'a, R>, AllocError> {
        Ok(*self)
    }
}

impl<'a, R: Files> Copy for Opener<'a, R> {}

impl<'a, R: Files + Eprint + Clock> Opens for Opener<'a, R> {
    type File = R::File;

    ghost holds = { λ _ _ _. Unit {0} };

    fn open(&self, path: &str) -> io::Result<R::File> {
        File::open(self.rt, path)
    }

    fn open_from(&self, path: &str, place: u64) -> io::Result<R::File> {
        let mut file = File::open(self.rt, path)?;
        file.seek(SeekFrom::Start(place))?;
        Ok(file)
    }

    fn open_kept(&self, path: &str) -> io::Result<R::File> {
        OpenOptions::new()
            .read(true)
            .write(true)
            .open(self.rt, path)
    }

    fn open_to_write(&self, path: &str) -> io::Result<R::File> {
        OpenOptions::new().write(true).open(self.rt, path)
    }

    fn say(&self, line: &str) {
        let _refused = self.rt.eprintln(line);
    }

    fn is_stopping(&self) -> bool {
        match self.stop {
            Some(stop) => stop.is_asked(),
            None => false,
        }
    }

    fn stop(&self) {
        if let Some(stop) = self.stop {
            stop.ask();
        }
    }

    fn now(&self) -> u64 {
        let Ok(now) = SystemTime::now(self.rt) else {
            return 0;
        };
        match now.duration_since(UNIX_EPOCH) {
            Ok(time) => u64::try_from(time.as_nanos()).unwrap_or(u64::MAX),
            Err(_) => 0,
        }
    }

    fn wake(&self, path: &str) {
        if fs::metadata(self.rt, path).is_ok_and(|file| file.file_type().is_fifo()) {
            let _pipe = self.open_kept(path);
        }
    }
}

impl<'a, R: Files + Eprint + Clock> Makes for Opener<'a, R>
where
    R::File: Locks,
{
    type Finished = ();

    ghost kept = { λ _. [] };

    fn none_finished(&self, _alloc: Global) {}

    fn succeed(
        &self,
        _finished: &mut (),
        file: &mut R::File,
        next: R::File,
    ) -> Result<(), AllocError> {
        file.tells_nothing();
        *file = next;
        Ok(())
    }

    fn create_new(&self, path: &str) -> io::Result<R::File> {
        OpenOptions::new()
            .write(true)
            .create_new(true)
            .open(self.rt, path)
    }

    fn open_to_append(&self, path: &str) -> io::Result<R::File> {
        OpenOptions::new().append(true).open(self.rt, path)
    }

    fn try_lock(&self, file: &R::File) -> io::Result<bool> {
        file.take_lock()
    }

    fn look(&self, path: &str) -> io::Result<Metadata> {
        fs::symlink_metadata(self.rt, path)
    }

    fn follow(&self, alloc: Global, path: &str) -> io::Result<String> {
        Ok(self.rt.canonicalize(alloc, path)?.into_string())
    }

    fn rename(&self, from: &str, to: &str) -> io::Result<()> {
        fs::rename(self.rt, from, to)
    }

    fn remove(&self, path: &str) -> io::Result<()> {
        fs::remove_file(self.rt, path)
    }
}
