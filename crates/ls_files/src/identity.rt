//! Identifies files, whatever they are called.
use crate::row::is_piece_name;
use std::fs;
use std::fs::{Files, Metadata};
use std::os::unix::fs::MetadataExt;

/// A file, identified by its device and its inode.
#[derive(Clone, Copy, PartialEq, Eq)]
pub struct Identity {
    device: u64,
    inode: u64,
}

impl Identity {
    /// The identity of the file with this metadata.
    pub fn of(metadata: &Metadata) -> Identity {
        Identity {
            device: metadata.dev(),
            inode: metadata.ino(),
        }
    }
}

/// A name in a folder, however the folder is spelled.
#[derive(Clone, Copy, PartialEq, Eq)]
pub struct Spot<'a> {
    folder: Identity,
    name: &'a str,
}

impl<'a> Spot<'a> {
    /// The folder and the last part of a path; `None` if the folder can't be looked at.
    pub fn of<R: Files>(rt: &R, path: &'a str) -> Option<Spot<'a>> {
        match fs::metadata(rt, folder_of(path)) {
            Ok(metadata) => Some(Spot {
                folder: Identity::of(&metadata),
                name: last_part(path),
            }),
            Err(_) => None,
        }
    }

    /// Whether a file here could be a piece of the recording there, or its index or times.
    pub fn is_piece_of(&self, recording: Spot<'_>) -> bool {
        self.folder == recording.folder && is_piece_name(self.name, recording.name)
    }
}

/// The folder of a path's last part.
pub fn folder_of(path: &str) -> &str {
    match path.rsplit_once('/') {
        None => ".",
        Some(("", _)) => "/",
        Some((folder, _)) => folder,
    }
}

/// The last part of a path.
pub fn last_part(path: &str) -> &str {
    match path.rsplit_once('/') {
        None => path,
        Some((_, last)) => last,
    }
}
