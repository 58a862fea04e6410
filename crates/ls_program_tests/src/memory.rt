//! A file system in memory, whose files say their bytes.
ghost use Rattle.std.specs.Prelude.{◌≡◌, [], true, Some, None, IfSome, IfNone};
ghost use Rattle.ls_program_tests.specs.View.Files.{bytes_at, contents_of};

use ls_files::{Makes, Opens};
use std::alloc::{AllocError, Global};
use std::fs::{Metadata, OpenFile};
use std::io;
use std::io::{ErrorKind, Read, Seek, SeekFrom, Write};
use std::sync::Mutex;
use std::sync::atomic::{AtomicBool, AtomicU64, Ordering};

/// A file to be read: its path and its bytes.
pub type Named<'a> = (&'a str, &'a [u8]);

/// A file that can be made, once.
#[derive(Drop)]
pub struct Blank<'v> {
    path: &'v str,
    /// The bytes that it will have, until it is made.
    bytes: Mutex<Option<&'v mut Vec<u8>>>,
    is_made: AtomicBool,
    /// Whether it was removed or got another name, after it was made.
    is_gone: AtomicBool,
    /// The number of bytes that were written to it.
    length: AtomicU64,
}

impl<'v> Blank<'v> {
    /// A file that can be made at `path`. What is written to it is appended to `bytes`.
    pub fn new(path: &'v str, bytes: &'v mut Vec<u8>) -> Blank<'v> {
        Blank {
            path,
            bytes: Mutex::new(Some(bytes)),
            is_made: AtomicBool::new(false),
            is_gone: AtomicBool::new(false),
            length: AtomicU64::new(0),
        }
    }

    /// Whether it was made and is still there.
    fn stands(&self) -> bool {
        self.is_made.load(Ordering::SeqCst) && !self.is_gone.load(Ordering::SeqCst)
    }

    /// Makes the file. Fails with `AlreadyExists` if it was made.
    fn make<'m>(&'m self) -> io::Result<MemoryFile<'m, 'v>> {
        if self.is_made.swap(true, Ordering::SeqCst) {
            return Err(io::Error::from(ErrorKind::AlreadyExists));
        }
        match self.bytes.try_lock() {
            Some(mut bytes) => match bytes.take() {
                Some(written) => Ok(MemoryFile {
                    rest: &[],
                    written: Some(written),
                    length: Some(&self.length),
                }),
                None => Err(io::Error::from(ErrorKind::AlreadyExists)),
            },
            None => Err(io::Error::from(ErrorKind::WouldBlock)),
        }
    }
}

/// A file system in memory: files that can be read, and files that can be made.
#[derive(Clone, Copy)]
pub struct Memory<'m, 'v> {
    pub files: &'m [Named<'m>],
    pub blanks: &'m [Blank<'v>],
}

impl<'m, 'v> Memory<'m, 'v> {
    /// The bytes of the first file to be read that has this path.
    fn find(&self, path: &str) -> Option<&'m [u8]>
        ensures found { IfSome result (λ bytes. bytes_at self.now.files.now path.now ≡ Some bytes.now) }
        ensures none { IfNone result (bytes_at self.now.files.now path.now ≡ None) }
    {
        for file in self.files {
            let (name, bytes) = *file;
            if name == path {
                return Some(bytes);
            }
        }
        None
    }

    /// The file that can be made at a path.
    fn find_blank(&self, path: &str) -> Option<&'m Blank<'v>> {
        for blank in self.blanks {
            if blank.path == path {
                return Some(blank);
            }
        }
        None
    }
}

impl<'m, 'v> Opens for Memory<'m, 'v> {
    ghost use Rattle.ls_program_tests.specs.View.Files.{HoldsFile};

    type File = MemoryFile<'m, 'v>;

    ghost holds = { λ memory path bytes. HoldsFile memory.files.now path bytes };

    fn open(&self, path: &str) -> io::Result<MemoryFile<'m, 'v>> {
        match self.find(path) {
            Some(rest) => Ok(MemoryFile {
                rest,
                written: None,
                length: None,
            }),
            None => Err(io::Error::from(ErrorKind::NotFound)),
        }
    }

    fn open_from(&self, path: &str, place: u64) -> io::Result<MemoryFile<'m, 'v>> {
        match self.find(path) {
            Some(bytes) => Ok(MemoryFile {
                rest: &bytes[bytes.len().min(place as usize)..],
                written: None,
                length: None,
            }),
            None => Err(io::Error::from(ErrorKind::NotFound)),
        }
    }

    fn open_kept(&self, _path: &str) -> io::Result<MemoryFile<'m, 'v>> {
        Err(io::Error::from(ErrorKind::Unsupported))
    }

    fn open_to_write(&self, _path: &str) -> io::Result<MemoryFile<'m, 'v>> {
        Err(io::Error::from(ErrorKind::Unsupported))
    }

    fn say(&self, _line: &str) {}

    fn is_stopping(&self) -> bool {
        false
    }

    fn stop(&self) {}

    fn now(&self) -> u64 {
        0
    }

    fn wake(&self, _path: &str) {}
}

impl<'m, 'v> Makes for Memory<'m, 'v> {
    ghost use Rattle.ls_program_tests.specs.View.Files.{bytes_of_all};

    type Finished = Vec<&'v mut Vec<u8>>;

    ghost kept = { λ finished. bytes_of_all finished.items };

    fn none_finished(&self, alloc: Global) -> Vec<&'v mut Vec<u8>> {
        Vec::new(alloc)
    }

    /// Goes on with the file too if the next isn't empty.
    fn succeed(
        &self,
        finished: &mut Vec<&'v mut Vec<u8>>,
        file: &mut MemoryFile<'m, 'v>,
        next: MemoryFile<'m, 'v>,
    ) -> Result<(), AllocError> {
        if !next.is_new() {
            return Err(AllocError);
        }
        match file.written.take() {
            Some(written) => match finished.push(written) {
                Ok(()) => {}
                Err(refused) => {
                    file.written = Some(refused.value);
                    return Err(AllocError);
                }
            },
            None => {}
        }
        *file = next;
        Ok(())
    }

    fn create_new(&self, path: &str) -> io::Result<MemoryFile<'m, 'v>> {
        match (self.find(path), self.find_blank(path)) {
            (Some(_), _) => Err(io::Error::from(ErrorKind::AlreadyExists)),
            (None, Some(blank)) => blank.make(),
            (None, None) => Err(io::Error::from(ErrorKind::NotFound)),
        }
    }

    fn open_to_append(&self, _path: &str) -> io::Result<MemoryFile<'m, 'v>> {
        Err(io::Error::from(ErrorKind::Unsupported))
    }

    fn try_lock(&self, _file: &MemoryFile<'m, 'v>) -> io::Result<bool> {
        Ok(true)
    }

    fn look(&self, path: &str) -> io::Result<Metadata> {
        if let Some(bytes) = self.find(path) {
            return Ok(Metadata::of_file(bytes.len() as u64));
        }
        match self.find_blank(path) {
            Some(blank) if blank.stands() => {
                Ok(Metadata::of_file(blank.length.load(Ordering::SeqCst)))
            }
            _ => Err(io::Error::from(ErrorKind::NotFound)),
        }
    }

    fn follow(&self, _alloc: Global, _path: &str) -> io::Result<String> {
        Err(io::Error::from(ErrorKind::Unsupported))
    }

    /// Renames a file that was made to the path of another. Its bytes stay where they were written.
    fn rename(&self, from: &str, to: &str) -> io::Result<()> {
        match (self.find_blank(from), self.find_blank(to)) {
            (Some(from), Some(to)) if from.stands() => {
                let length = from.length.load(Ordering::SeqCst);
                to.length.store(length, Ordering::SeqCst);
                to.is_made.store(true, Ordering::SeqCst);
                from.is_gone.store(true, Ordering::SeqCst);
                Ok(())
            }
            _ => Err(io::Error::from(ErrorKind::NotFound)),
        }
    }

    /// Removes a file that was made. It can't be made again.
    fn remove(&self, path: &str) -> io::Result<()> {
        match self.find_blank(path) {
            Some(blank) if blank.stands() => {
                blank.is_gone.store(true, Ordering::SeqCst);
                Ok(())
            }
            _ => Err(io::Error::from(ErrorKind::NotFound)),
        }
    }
}

/// A file that is open: one that is read, or one that was made.
#[derive(Drop)]
pub struct MemoryFile<'m, 'v> {
    /// The bytes that are left to be read.
    rest: &'m [u8],
    /// The bytes of a file that was made.
    written: Option<&'v mut Vec<u8>>,
    /// The number of these, if it was made.
    length: Option<&'m AtomicU64>,
}

impl<'m, 'v> MemoryFile<'m, 'v> {
    /// Whether it was made and has no bytes yet.
    fn is_new(&self) -> bool
        ensures { result ≡ true → contents_of self.now ≡ Some [] }
    {
        match &self.written {
            Some(written) => written.is_empty(),
            None => false,
        }
    }
}

impl<'m, 'v> Read for MemoryFile<'m, 'v> {
    ghost use Rattle.std.specs.Prelude.{Some};

    ghost remaining = { λ file. Some file.rest.now };

    fn read(&mut self, buf: &mut [u8]) -> io::Result<usize> {
        self.rest.read(buf)
    }
}

impl<'m, 'v> Write for MemoryFile<'m, 'v> {
    ghost use Rattle.ls_program_tests.specs.View.Files.{contents_of};

    ghost contents = { contents_of };

    fn write(&mut self, buf: &[u8]) -> io::Result<usize> {
        let Some(written) = &mut self.written else {
            return Err(io::Error::from(ErrorKind::Unsupported));
        };
        let taken = written.write(buf)?;
        if let Some(length) = self.length {
            length.fetch_add(taken as u64, Ordering::SeqCst);
        }
        Ok(taken)
    }

    fn flush(&mut self) -> io::Result<()> {
        Ok(())
    }
}

impl<'m, 'v> Seek for MemoryFile<'m, 'v> {
    fn seek(&mut self, _to: SeekFrom) -> io::Result<u64> {
        Err(io::Error::from(ErrorKind::Unsupported))
    }
}

impl<'m, 'v> OpenFile for MemoryFile<'m, 'v> {
    /// The number of bytes of a file that was made.
    fn metadata(&self) -> io::Result<Metadata> {
        match self.length {
            Some(length) => Ok(Metadata::of_file(length.load(Ordering::SeqCst))),
            None => Err(io::Error::from(ErrorKind::Unsupported)),
        }
    }

    fn set_len(&self, _size: u64) -> io::Result<()> {
        Err(io::Error::from(ErrorKind::Unsupported))
    }

    fn sync_all(&self) -> io::Result<()> {
        Ok(())
    }

    fn sync_data(&self) -> io::Result<()> {
        Ok(())
    }

    /// A handle to the same file that can't be written to.
    fn try_clone(&self) -> io::Result<MemoryFile<'m, 'v>> {
        Ok(MemoryFile {
            rest: self.rest,
            written: None,
            length: self.length,
        })
    }
}
