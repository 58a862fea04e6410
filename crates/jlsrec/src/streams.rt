//! Takes the place of standard streams that are closed when the program begins.
use std::fs::File;
use std::os::fd::AsRawFd;
use std::rt::Files;

/// The folder in a closed stream's place: it can be neither read nor written, also by the names of the streams in
/// /dev.
const FOLDER: &str = "/";

/// The number of standard streams: their descriptors are those below.
const STREAMS: usize = 3;

/// Opens a folder in the place of each standard stream that is closed, so that no other file gets its descriptor
/// while the result is kept. If the folder can't be opened, nothing is done.
pub fn take_closed<R: Files<File = File>>(rt: &R) -> [Option<File>; STREAMS] {
    let mut taken = [None, None, None];
    for place in &mut taken {
        *place = take_one(rt);
        if place.is_none() {
            break;
        }
    }
    taken
}

/// Opens the folder in the place of the first stream that is closed, if there is one: a file gets the lowest free
/// descriptor.
fn take_one<R: Files<File = File>>(rt: &R) -> Option<File> {
    let folder = File::open(rt, FOLDER).ok()?;
    if usize::try_from(folder.as_raw_fd()).is_ok_and(|descriptor| descriptor < STREAMS) {
        Some(folder)
    } else {
        None
    }
}
