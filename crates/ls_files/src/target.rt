//! A file that is written.
ghost use Rattle.std.specs.Prelude.{◌≡◌, Some, None};
ghost use Rattle.std.specs.Io.KnownBytes.{Keeps};
ghost use Rattle.ls_files.specs.View.Files.{joined_in};

use crate::opener::{Makes, Opens};
use crate::patient::write_again;
use std::alloc::AllocError;
use std::io;
use std::io::Write;

/// A file to write to. A named pipe is opened at the first write, which waits until something reads from it. Any
/// other file is already open. A write that a signal interrupts is tried again.
#[derive(Drop)]
pub struct Target<'a, O: Opens> {
    opener: O,
    path: &'a str,
    file: Option<O::File>,
    /// Whether it couldn't be opened.
    is_refused: bool,
    written: u64,
}

impl<'a, O: Opens> Target<'a, O> {
    /// A file or a device that is already open.
    pub fn opened(opener: O, path: &'a str, file: O::File) -> Target<'a, O>
        ensures path { result.path.now ≡ path.now }
        ensures file { result.file ≡ Some file }
    {
        Target {
            opener,
            path,
            file: Some(file),
            is_refused: false,
            written: 0,
        }
    }

    /// A named pipe, which is not yet open.
    pub fn pipe(opener: O, path: &'a str) -> Target<'a, O>
        ensures path { result.path.now ≡ path.now }
        ensures file { result.file ≡ None }
    {
        Target {
            opener,
            path,
            file: None,
            is_refused: false,
            written: 0,
        }
    }

    /// The number of bytes that were written to it.
    pub fn written(&self) -> u64 {
        self.written
    }

    /// Closes the file, which is finished, and goes on with the next, which is new; a pipe that isn't open isn't
    /// opened. The number of bytes goes on. The bytes known of the finished files and of the file are the same before
    /// and afterwards. If memory runs out, it goes on with the file.
    pub fn succeed(&mut self, finished: &mut O::Finished, next: O::File) -> Result<(), AllocError>
    where
        O: Makes,
        ensures { Keeps (joined_in O.kept O.File.contents finished.old self.old) (joined_in O.kept O.File.contents finished.new self.new) }
    {
        match &mut self.file {
            Some(file) => self.opener.succeed(finished, file, next),
            None => {
                self.file = Some(next);
                Ok(())
            }
        }
    }

    /// Opens a pipe that was never opened, so that its reader sees the end; waits until something reads from it.
    pub fn release(mut self)
    where
        O: Drop,
    {
        if !self.is_refused {
            let _refused = self.open();
        }
    }

    fn open(&mut self) -> io::Result<()>
        ensures kept { (file : O.File) → self.old.file ≡ Some file → self.new.file ≡ Some file }
    {
        if self.file.is_none() {
            self.is_refused = true;
            self.file = Some(self.opener.open_to_write(self.path)?);
            self.is_refused = false;
        }
        Ok(())
    }
}

impl<'a, O: Opens> Write for Target<'a, O> {
    ghost use Rattle.ls_files.specs.View.Opened.{known_of};

    ghost contents = { λ target. known_of O.File.contents target.file };

    fn write(&mut self, buf: &[u8]) -> io::Result<usize> {
        self.open()?;
        let taken = match &mut self.file {
            Some(file) => write_again(file, buf)?,
            None => 0,
        };
        self.written = self.written.saturating_add(taken as u64);
        Ok(taken)
    }

    fn flush(&mut self) -> io::Result<()> {
        Ok(())
    }
}
