//! The place of a file that is to be made, and what is there already.
use crate::identity::{Identity, Spot, folder_of};
use crate::opener::Makes;
use std::fs;
use std::fs::Files;
use std::os::unix::fs::{FileTypeExt, MetadataExt};

/// The existing file, link, pipe or device where a file is to be made, if any.
#[derive(Clone, Copy)]
pub enum Standing {
    /// Nothing, as far as can be seen.
    Nothing,
    /// A regular file.
    File(Identity),
    /// A link to a regular file; the identity is that of the file.
    Link(Identity),
    /// A regular file that is already open, under a name that the system has for it, such as /dev/stdout.
    Open(Identity),
    /// A link that leads nowhere.
    Astray,
    /// A named pipe, or a link to one.
    Pipe(Identity),
    /// Anything else, such as a device, or a link to it.
    Other(Identity),
}

/// The place of a file that is to be made.
#[derive(Clone, Copy)]
pub struct Place<'a> {
    path: &'a str,
    spot: Option<Spot<'a>>,
    standing: Standing,
}

impl<'a> Place<'a> {
    /// Looks at what is at a path.
    pub fn of<R: Files + AllocGlobal>(rt: &R, path: &'a str) -> Place<'a> {
        Place {
            path,
            spot: Spot::of(rt, path),
            standing: standing_at(rt, path),
        }
    }

    /// Looks at what is at the path of a piece, in any thread. Whatever is there is renamed: also a link, a pipe or a
    /// device.
    pub fn of_piece<O: Makes>(opener: &O, path: &'a str) -> Place<'a> {
        let standing = match opener.look(path) {
            Ok(own) if own.is_file() => Standing::File(Identity::of(&own)),
            Ok(_) => Standing::Astray,
            Err(_) => Standing::Nothing,
        };
        Place {
            path,
            spot: None,
            standing,
        }
    }

    /// The path.
    pub fn path(&self) -> &'a str {
        self.path
    }

    /// The name in its folder; `None` if the folder can't be looked at.
    pub fn spot(&self) -> Option<Spot<'a>> {
        self.spot
    }

    /// The existing file there, if any.
    pub fn standing(&self) -> Standing {
        self.standing
    }

    /// Whether output goes into the existing file there: a pipe, a device or a file that is already open.
    pub fn is_written_into(&self) -> bool {
        self.standing.is_written_into()
    }

    /// Whether files at both places would be the same: one name in one folder, or one existing file.
    pub fn is_one_with(&self, other: &Place<'_>) -> bool {
        (self.spot.is_some() && self.spot == other.spot)
            || (self.identity().is_some() && self.identity() == other.identity())
    }

    /// Whether a file here could be a piece of the recording at another place, or its index or times.
    pub fn is_piece_of(&self, recording: &Place<'_>) -> bool {
        match (self.spot, recording.spot) {
            (Some(own), Some(recording)) => own.is_piece_of(recording),
            _ => false,
        }
    }

    /// Whether output here would go into this very file, or replace it for good: always for a pipe, a device or an
    /// open file; for a regular file only if existing files are replaced.
    pub fn would_write_into(&self, file: Identity, replace: bool) -> bool {
        match self.standing {
            Standing::Pipe(identity) | Standing::Other(identity) | Standing::Open(identity) => {
                identity == file
            }
            Standing::File(identity) | Standing::Link(identity) => replace && identity == file,
            Standing::Nothing | Standing::Astray => false,
        }
    }

    /// The identity of the existing file, if any; of a link, that of the file to which it leads.
    pub fn identity(&self) -> Option<Identity> {
        match self.standing {
            Standing::Nothing | Standing::Astray => None,
            Standing::File(identity)
            | Standing::Link(identity)
            | Standing::Pipe(identity)
            | Standing::Open(identity)
            | Standing::Other(identity) => Some(identity),
        }
    }
}

impl Standing {
    /// Whether output goes into it: into a pipe, a device or a file that is already open.
    pub fn is_written_into(&self) -> bool {
        matches!(
            self,
            Standing::Pipe(_) | Standing::Other(_) | Standing::Open(_)
        )
    }

    /// Whether it is renamed before a file is made in its place.
    pub fn is_kept(&self) -> bool {
        matches!(
            self,
            Standing::File(_) | Standing::Link(_) | Standing::Astray
        )
    }
}

/// Looks at what is at a path.
fn standing_at<R: Files + AllocGlobal>(rt: &R, path: &str) -> Standing {
    let Ok(own) = fs::symlink_metadata(rt, path) else {
        return Standing::Nothing;
    };
    if own.is_file() {
        return Standing::File(Identity::of(&own));
    }
    let Ok(metadata) = fs::metadata(rt, path) else {
        return Standing::Astray;
    };
    let identity = Identity::of(&metadata);
    if metadata.is_file() && is_of_process(rt, path) {
        Standing::Open(identity)
    } else if metadata.is_file() {
        Standing::Link(identity)
    } else if metadata.file_type().is_fifo() {
        Standing::Pipe(identity)
    } else {
        Standing::Other(identity)
    }
}

/// Whether a link is one of the system's names for open files, or leads to one, as /dev/stdout does.
fn is_of_process<R: Files + AllocGlobal>(rt: &R, path: &str) -> bool {
    if is_in_proc(rt, folder_of(path)) {
        return true;
    }
    match rt.read_link(rt.alloc(), path) {
        Ok(link) => is_in_proc(rt, folder_of(link.as_str())),
        Err(_) => false,
    }
}

/// Whether a folder is on the file system of /proc.
fn is_in_proc<R: Files>(rt: &R, folder: &str) -> bool {
    match (fs::metadata(rt, folder), fs::metadata(rt, "/proc/self")) {
        (Ok(folder), Ok(process)) => folder.dev() == process.dev(),
        _ => false,
    }
}
