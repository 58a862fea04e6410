//! Locks the folders in which files are made.
use crate::identity::{Identity, folder_of};
use crate::opener::Makes;
use std::alloc::{AllocError, Global};
use std::fs::OpenFile;

/// Locked folders. Programs that lock a folder before they make files in it do so one after the other, and each finds
/// what the one before has left there.
#[derive(Drop)]
pub struct Folders<F> {
    locked: Vec<(Identity, F)>,
}

impl<F: OpenFile + Drop> Folders<F> {
    pub fn new(alloc: Global) -> Folders<F> {
        Folders {
            locked: Vec::new(alloc),
        }
    }

    /// Locks the folder of `path`, unless it is locked here already; `false` if another program has the lock. A
    /// folder that can't be opened or locked is skipped: if a file can't be made there, making it says why.
    pub fn lock<O: Makes<File = F>>(&mut self, opener: &O, path: &str) -> Result<bool, AllocError> {
        let Ok(folder) = opener.open(folder_of(path)) else {
            return Ok(true);
        };
        let Ok(metadata) = folder.metadata() else {
            return Ok(true);
        };
        let identity = Identity::of(&metadata);
        if self
            .locked
            .iter()
            .any(|(locked, _folder)| *locked == identity)
        {
            return Ok(true);
        }
        if !opener.try_lock(&folder).unwrap_or(true) {
            return Ok(false);
        }
        match self.locked.push((identity, folder)) {
            Ok(()) => Ok(true),
            Err(_) => Err(AllocError),
        }
    }
}
