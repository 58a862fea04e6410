//! A file that is made for a recording, and the earlier file in its place.
ghost use Rattle.std.specs.Prelude.{◌≡◌, IfOk};

use crate::identity::{Identity, folder_of};
use crate::opener::Makes;
use crate::place::{Place, Standing};
use crate::target::Target;
use std::alloc::Global;
use std::fs::OpenFile;
use std::io;

/// A file that is made, or is to be, and the earlier file in its place.
///
/// The earlier file is locked first, then renamed; then the new file is made, and locked while it is open. So if two
/// programs would make the same file, one is refused before it has changed anything.
#[derive(Drop)]
pub struct Held<F> {
    path: String,
    /// The ending of the earlier file's new name, after the number.
    ending: &'static str,
    standing: Standing,
    /// The earlier file, locked.
    earlier: Option<F>,
    /// The earlier file's new name.
    renamed: Option<String>,
    /// The file that was made: a clone of the handle that is written to.
    made: Option<F>,
    /// The folder in which it was made, if that can be synced. It is open from then on: later there may be no
    /// descriptor left, or the folder may have another name.
    folder: Option<F>,
}

/// The error for a file that another program has locked, or has just made or renamed.
fn busy() -> io::Error {
    io::Error::from(io::ErrorKind::WouldBlock)
}

impl<F: OpenFile + Drop> Held<F> {
    /// Locks the existing file at a place, if there is one, and changes nothing. Fails with `WouldBlock` if another
    /// program has the lock.
    ///
    /// With `replace`, a link to a file is followed: the new file is made where the link leads.
    pub fn claim<O: Makes<File = F>>(
        alloc: Global,
        opener: &O,
        place: &Place<'_>,
        ending: &'static str,
        replace: bool,
    ) -> io::Result<Held<F>> {
        let earlier = match place.standing() {
            Standing::File(identity) | Standing::Link(identity) => {
                Some(locked(opener, place.path(), identity)?)
            }
            _ => None,
        };
        let (path, standing) = match place.standing() {
            Standing::Link(identity) if replace => {
                (
                    opener.follow(alloc, place.path())?,
                    Standing::File(identity),
                )
            }
            standing => (place.path().to_string(alloc)?, standing),
        };
        Ok(Held {
            path,
            ending,
            standing,
            earlier,
            renamed: None,
            made: None,
            folder: None,
        })
    }

    /// Whether an existing file or link still has to be renamed.
    pub fn is_in_the_way(&self) -> bool {
        self.standing.is_kept() && self.renamed.is_none()
    }

    /// Whether the earlier file may be removed if it is to be replaced: not if it is a link that leads nowhere.
    pub fn is_replaceable(&self) -> bool {
        !matches!(self.standing, Standing::Astray)
    }

    /// Whether an earlier file was renamed, still has its new name, and may be removed.
    pub fn is_removable<O: Makes<File = F>>(&self, opener: &O) -> bool {
        match &self.renamed {
            Some(name) => self.is_replaceable() && self.is_still(opener, name),
            None => false,
        }
    }

    /// The earlier file's new name, if it was renamed.
    pub fn renamed(&self) -> Option<&str> {
        match &self.renamed {
            Some(name) => Some(name.as_str()),
            None => None,
        }
    }

    /// The existing file's new name by this number; `None` if something has that name.
    pub fn free_name<O: Makes<File = F>>(
        &self,
        alloc: Global,
        opener: &O,
        number: u32,
    ) -> io::Result<Option<String>> {
        let ending = self.ending;
        let stem = self.path.strip_suffix(ending).unwrap_or(self.path.as_str());
        let name = format!(in alloc; "{stem}.{number}{ending}")?;
        match opener.look(&name) {
            Ok(_) => Ok(None),
            Err(fault) if fault.kind() == io::ErrorKind::NotFound => Ok(Some(name)),
            Err(fault) => Err(fault),
        }
    }

    /// Renames the existing file; `false` if something has the new name by now.
    pub fn rename<O: Makes<File = F>>(&mut self, opener: &O, name: String) -> io::Result<bool> {
        if !rename_new(opener, &self.path, &name)? {
            return Ok(false);
        }
        self.renamed = Some(name);
        Ok(true)
    }

    /// Makes the file. An existing device or open file is opened to be written into instead, and a pipe at its first
    /// write. Fails with `WouldBlock` if another program has made the file meanwhile.
    pub fn make<'a, O: Makes<File = F> + Drop>(
        &mut self,
        opener: O,
        path: &'a str,
    ) -> io::Result<Target<'a, O>>
        ensures { IfOk result (λ target. target.path.now ≡ path.now) }
    {
        match self.standing {
            Standing::Pipe(_) => Ok(Target::pipe(opener, path)),
            Standing::Other(_) => {
                let file = opener.open_to_write(path)?;
                Ok(Target::opened(opener, path, file))
            }
            Standing::Open(_) => {
                let file = opener.open_to_append(path)?;
                Ok(Target::opened(opener, path, file))
            }
            _ => {
                let file = self.make_file(&opener)?;
                Ok(Target::opened(opener, path, file))
            }
        }
    }

    /// Makes a new file and locks it. Fails with `WouldBlock` if another program has made it meanwhile.
    pub fn make_file<O: Makes<File = F>>(&mut self, opener: &O) -> io::Result<F> {
        self.folder = open_folder(opener, folder_of(&self.path))?;
        let file = make_new(opener, &self.path)?;
        self.made = Some(file.try_clone()?);
        Ok(file)
    }

    /// Whether there is no new file, since what is at the path is written into: a pipe, a device or an open file.
    pub fn is_written_into(&self) -> bool {
        self.standing.is_written_into()
    }

    /// Syncs the file to disk, and its folder too if that can be synced at all. Does nothing for a pipe or a device.
    pub fn sync(&self) -> io::Result<()> {
        if let Some(made) = &self.made {
            made.sync_all()?;
        }
        match &self.folder {
            Some(folder) => sync_folder(folder),
            None => Ok(()),
        }
    }

    /// Whether a file was made and has bytes. If its size can't be read, it counts as having some.
    pub fn has_bytes(&self) -> bool {
        match &self.made {
            Some(made) => match made.metadata() {
                Ok(metadata) => metadata.len() > 0,
                Err(_) => true,
            },
            None => false,
        }
    }

    /// Removes the earlier file, under its new name. A failure to remove it is ignored.
    pub fn remove_earlier<O: Makes<File = F>>(&mut self, opener: &O) {
        if self.is_replaceable() {
            if let Some(name) = self.renamed.take() {
                if self.is_still(opener, &name) {
                    let _refused = opener.remove(&name);
                }
            }
        }
        self.earlier = None;
    }

    /// Whether the file that was made is still at its path.
    pub fn stands<O: Makes<File = F>>(&self, opener: &O) -> bool {
        match &self.made {
            Some(made) => stands_at(opener, &self.path, made),
            None => false,
        }
    }

    /// Whether nothing is at the path.
    fn is_free<O: Makes<File = F>>(&self, opener: &O) -> bool {
        match opener.look(&self.path) {
            Ok(_) => false,
            Err(fault) => fault.kind() == io::ErrorKind::NotFound,
        }
    }

    /// Whether the earlier file still has the name that it was given. (A link isn't checked.)
    fn is_still<O: Makes<File = F>>(&self, opener: &O, name: &str) -> bool {
        match (&self.earlier, self.standing) {
            (Some(earlier), Standing::File(_)) => stands_at(opener, name, earlier),
            _ => true,
        }
    }

    /// If the new file is empty, removes it and gives the earlier file its name back. Returns whether that worked,
    /// or, if nothing was renamed, whether the path is free. Files that others have put there or moved meanwhile are
    /// left alone.
    pub fn give_back<O: Makes<File = F>>(&mut self, opener: &O) -> bool {
        if self.has_bytes() {
            return false;
        }
        let is_back = match self.renamed.take() {
            Some(name) => self.rename_back(opener, name),
            None if self.stands(opener) => opener.remove(&self.path).is_ok(),
            None => self.is_free(opener),
        };
        self.earlier = None;
        is_back
    }

    /// Renames the earlier file back, from this name; whether that worked.
    fn rename_back<O: Makes<File = F>>(&mut self, opener: &O, name: String) -> bool {
        let stands = self.stands(opener);
        if !self.is_still(opener, &name) {
            if stands {
                let _refused = opener.remove(&self.path);
            }
            return false;
        }
        let is_back = if stands {
            // Over the empty file, which is this program's own.
            opener.rename(&name, &self.path).is_ok()
        } else {
            rename_new(opener, &name, &self.path).unwrap_or(false)
        };
        if !is_back {
            self.renamed = Some(name);
        }
        is_back
    }
}

/// Opens a folder to sync it; `None` if that can't be done at all.
fn open_folder<O: Makes>(opener: &O, path: &str) -> io::Result<Option<O::File>> {
    match opener.open(path) {
        Ok(folder) => Ok(Some(folder)),
        Err(fault) if is_never_synced(fault.kind()) => Ok(None),
        Err(fault) => Err(fault),
    }
}

/// Syncs a folder to disk, unless that can't be done at all.
fn sync_folder<F: OpenFile>(folder: &F) -> io::Result<()> {
    match folder.sync_all() {
        Err(fault) if !is_never_synced(fault.kind()) => Err(fault),
        _ => Ok(()),
    }
}

/// Whether a folder that fails so can't be synced at all: EINVAL, EROFS, ENOSYS or EOPNOTSUPP, since its file system
/// doesn't sync folders; EACCES; or no folder at its path.
fn is_never_synced(kind: io::ErrorKind) -> bool {
    matches!(
        kind,
        io::ErrorKind::InvalidInput
            | io::ErrorKind::ReadOnlyFilesystem
            | io::ErrorKind::Unsupported
            | io::ErrorKind::PermissionDenied
            | io::ErrorKind::NotFound
    )
}

/// Opens an existing file and locks it, if the file system has locks.
fn locked<O: Makes>(opener: &O, path: &str, identity: Identity) -> io::Result<O::File> {
    let file = match open_existing(opener, path) {
        Ok(file) => file,
        // Another program has just renamed it.
        Err(fault) if fault.kind() == io::ErrorKind::NotFound => return Err(busy()),
        Err(fault) => return Err(fault),
    };
    if Identity::of(&file.metadata()?) != identity {
        return Err(busy());
    }
    take_lock(opener, file)
}

/// Opens an existing file to lock it: to be written to, if it can't be read.
pub fn open_existing<O: Makes>(opener: &O, path: &str) -> io::Result<O::File> {
    match opener.open(path) {
        Ok(file) => Ok(file),
        Err(fault) if fault.kind() == io::ErrorKind::PermissionDenied => {
            opener.open_to_write(path)
        }
        Err(fault) => Err(fault),
    }
}

/// Locks an open file, if the file system has locks. Fails with `WouldBlock` if another program has the lock.
pub fn take_lock<O: Makes>(opener: &O, file: O::File) -> io::Result<O::File> {
    if opener.try_lock(&file).unwrap_or(true) {
        Ok(file)
    } else {
        Err(busy())
    }
}

/// Makes a new file and locks it, if the file system has locks.
fn make_new<O: Makes>(opener: &O, path: &str) -> io::Result<O::File> {
    let file = match opener.create_new(path) {
        Ok(file) => file,
        Err(fault) if fault.kind() == io::ErrorKind::AlreadyExists => return Err(busy()),
        Err(fault) => return Err(fault),
    };
    let is_locked = opener.try_lock(&file).unwrap_or(true);
    // Between the two calls another program may have locked it, and renamed it.
    if is_locked && stands_at(opener, path, &file) {
        Ok(file)
    } else {
        Err(busy())
    }
}

/// Whether this file is at a path.
fn stands_at<O: Makes>(opener: &O, path: &str, file: &O::File) -> bool {
    match (opener.look(path), file.metadata()) {
        (Ok(there), Ok(own)) => Identity::of(&there) == Identity::of(&own),
        _ => false,
    }
}

/// Renames a file, unless something has the new name: then `false`. The name is reserved first by a new, empty file,
/// so an existing file is never replaced.
pub fn rename_new<O: Makes>(opener: &O, from: &str, to: &str) -> io::Result<bool> {
    match opener.create_new(to) {
        Ok(_taken) => {}
        Err(fault) if fault.kind() == io::ErrorKind::AlreadyExists => return Ok(false),
        Err(fault) => return Err(fault),
    }
    match opener.rename(from, to) {
        Ok(()) => Ok(true),
        Err(fault) => {
            let _left = opener.remove(to);
            Err(fault)
        }
    }
}
