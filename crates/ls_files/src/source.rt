//! A file that is read.
ghost use Rattle.std.specs.Prelude.{◌≡◌, Some, IfOk};
ghost use Rattle.ls_files.specs.View.Files.{left_in_source, ReadsFileAt};
ghost use Rattle.ls_files.specs.View.Opened.{HoldsFrom};

use crate::front::Front;
use crate::identity::Identity;
use crate::opener::Opens;
use std::fs::{Files, Metadata, OpenFile};
use std::io::Read;
use std::os::unix::fs::{FileTypeExt, MetadataExt};
use std::sync::atomic::{AtomicU64, Ordering};
use std::{fs, io};

/// EACCES, the system's error number for a file that may not be read.
const PERMISSION_DENIED: i32 = 13;

/// A film or a recording to read. A named pipe made by `of` is opened at the first read, which waits until something
/// writes to it: so only its reader waits. Any other file is already open. A pipe that is kept open doesn't end when
/// nothing writes to it any more.
///
/// A read that a signal interrupts is tried again. Once the program was asked to stop, reads fail with `Interrupted`, and
/// nothing else does.
#[derive(Drop)]
pub struct Source<'a, O: Opens> {
    opener: O,
    path: &'a str,
    file: Option<O::File>,
    identity: Option<Identity>,
    /// A line for standard error once a pipe is open.
    notice: Option<&'a str>,
    /// Whether it is opened for writing too if it is a pipe that isn't open yet.
    is_kept: bool,
    /// Whether a read was refused since the program was asked to stop.
    is_stopped: bool,
    /// Where to put the time at which bytes came, if that is wanted.
    arrival: Option<&'a AtomicU64>,
    /// The first bytes that were read.
    front: Front,
}

impl<'a, O: Opens + Drop> Source<'a, O> {
    /// Opens a file; a named pipe only at its first read. If it is to be kept open, that is for writing too, so that the
    /// pipe doesn't end although nothing writes to it: it then ends only by a stop. Fails with EACCES if the permissions of
    /// the pipe don't let this process open it so.
    pub fn of<R: Files>(
        rt: &R,
        opener: O,
        path: &'a str,
        is_kept: bool,
    ) -> io::Result<Source<'a, O>>
        ensures { IfOk result (ReadsFileAt O.holds O.File.remaining opener path.now) }
    {
        let pipe = match fs::metadata(rt, path) {
            Ok(metadata) if metadata.file_type().is_fifo() => Some(metadata),
            _ => None,
        };
        match pipe {
            Some(metadata) if may_be_opened(rt, &metadata, is_kept) => {
                let identity = Some(Identity::of(&metadata));
                let mut source = Source::new(opener, path, None, identity);
                source.is_kept = is_kept;
                Ok(source)
            }
            Some(_) => Err(io::Error::from_raw_os_error(PERMISSION_DENIED)),
            None => Source::open(opener, path),
        }
    }

    /// Opens a file; if it is a named pipe, waits until something writes to it.
    pub fn open(opener: O, path: &'a str) -> io::Result<Source<'a, O>>
        ensures { IfOk result (λ source. O.holds opener path.now (left_in_source O.File.remaining source)) }
    {
        let file = opener.open(path)?;
        let identity = match file.metadata() {
            Ok(metadata) => Some(Identity::of(&metadata)),
            Err(_) => None,
        };
        Ok(Source::new(opener, path, Some(file), identity))
    }

    /// Opens a file to read it from a place on, which is this number of bytes after its beginning.
    pub fn open_from(opener: O, path: &'a str, place: u64) -> io::Result<Source<'a, O>>
        ensures { IfOk result (λ source. HoldsFrom (O.holds opener path.now) place (left_in_source O.File.remaining source)) }
    {
        let file = opener.open_from(path, place)?;
        Ok(Source::new(opener, path, Some(file), None))
    }
}

impl<'a, O: Opens> Source<'a, O> {
    fn new(
        opener: O,
        path: &'a str,
        file: Option<O::File>,
        identity: Option<Identity>,
    ) -> Source<'a, O>
        ensures { result.file ≡ file }
    {
        Source {
            opener,
            path,
            file,
            identity,
            notice: None,
            is_kept: false,
            is_stopped: false,
            arrival: None,
            front: Front::new(),
        }
    }

    /// The path that it was given.
    pub fn path(&self) -> &str
        ensures { result.now ≡ self.now.path.now }
    {
        self.path
    }

    /// Whether it has yet to be opened.
    pub fn is_awaited(&self) -> bool {
        self.file.is_none()
    }

    /// Whether a read was refused since the program was asked to stop.
    pub fn is_stopped(&self) -> bool
        ensures { result ≡ self.now.is_stopped }
    {
        self.is_stopped
    }

    /// Sets the line to write on standard error once an awaited pipe is open.
    pub fn announce(&mut self, notice: &'a str)
        ensures { self.new.file ≡ self.old.file }
    {
        self.notice = Some(notice);
    }

    /// Has each read that gives bytes put the time at which they came there, in nanoseconds since 1970-01-01T00:00:00Z.
    pub fn time_into(&mut self, arrival: &'a AtomicU64)
        ensures { self.new.file ≡ self.old.file }
    {
        self.arrival = Some(arrival);
    }

    /// Notes that bytes came, if that is wanted.
    fn note_arrival(&self) {
        if let Some(arrival) = self.arrival {
            arrival.store(self.opener.now(), Ordering::SeqCst);
        }
    }

    /// The file's identity, if the system gives it.
    pub fn identity(&self) -> Option<Identity> {
        self.identity
    }

    /// The first bytes that were read, at most 136.
    pub fn front(&self) -> &[u8] {
        self.front.bytes()
    }

    fn open_late(&mut self) -> io::Result<()>
        ensures kept { (file : O.File) → self.old.file ≡ Some file → self.new.file ≡ Some file }
    {
        if self.file.is_none() {
            let file = if self.is_kept {
                self.opener.open_kept(self.path)?
            } else {
                self.opener.open(self.path)?
            };
            self.file = Some(file);
            match self.notice {
                Some(notice) if !self.opener.is_stopping() => self.opener.say(notice),
                _ => {}
            }
        }
        Ok(())
    }

    /// Fails with `Interrupted` if the program was asked to stop.
    fn refuse_stopped(&mut self) -> io::Result<()>
        ensures file { self.new.file ≡ self.old.file }
    {
        if self.opener.is_stopping() {
            self.is_stopped = true;
            return Err(io::Error::from(io::ErrorKind::Interrupted));
        }
        Ok(())
    }
}

impl<'a, O: Opens> Read for Source<'a, O> {
    ghost use Rattle.ls_files.specs.View.Opened.{known_of};

    ghost remaining = { λ source. known_of O.File.remaining source.file };

    fn read(&mut self, buf: &mut [u8]) -> io::Result<usize> {
        self.refuse_stopped()?;
        self.open_late()?;
        for _try in 0..u64::MAX {
            self.refuse_stopped()?;
            let given = match &mut self.file {
                Some(file) => file.read(buf),
                None => Ok(0),
            };
            match given {
                // A signal that comes to the camera too may end it first.
                Ok(0) if self.opener.is_stopping() => {}
                Ok(given) => {
                    if given > 0 {
                        self.note_arrival();
                    }
                    self.front.keep(&buf[..given]);
                    return Ok(given);
                }
                Err(fault) if fault.kind() == io::ErrorKind::Interrupted => {}
                Err(fault) => return Err(fault),
            }
        }
        Err(io::Error::from(io::ErrorKind::Interrupted))
    }
}

/// Whether the permissions of a file let this process read it, and write to it if it is to be kept open: `false` only if
/// they surely forbid it. The owner of /proc/self is this process's user.
fn may_be_opened<R: Files>(rt: &R, metadata: &Metadata, is_kept: bool) -> bool {
    let Ok(process) = fs::metadata(rt, "/proc/self") else {
        return true;
    };
    let is_own = process.uid() == metadata.uid();
    let (readable, writable) = if is_own {
        (0o400, 0o200)
    } else {
        (0o044, 0o022)
    };
    let mode = metadata.mode();
    process.uid() == 0 || (mode & readable != 0 && (!is_kept || mode & writable != 0))
}
