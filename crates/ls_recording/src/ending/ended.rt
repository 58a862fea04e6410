//! How a film ended, for the report.
use crate::watching::seen::{Doing, Seen};
use ls_files::Makes;
use ls_opening::Film;
use ls_recorder::LaneFault;

/// What is said of a recording that couldn't be brought onto the disk.
pub const UNSYNCED: &str = "not on the disk";

/// How a film ended.
#[derive(Clone, Copy)]
pub enum Ended {
    /// It was recorded to its end, or as many frames of it as were asked for, and is on the disk.
    Whole,
    /// It was recorded as far as it was read when the program was asked to stop, and is on the disk.
    Stopped,
    /// Its recording stopped for this fault.
    Failed(LaneFault),
    /// Its recording couldn't be brought onto the disk, or no recording began.
    Unsynced,
}

impl Ended {
    /// How a film ended whose files are settled, by the counts at its end.
    pub fn of<O: Makes + Copy + Drop>(film: &Film<'_, O>, seen: &Seen) -> Ended {
        match seen.doing {
            Doing::Ended(Err(fault)) if !film.is_stopped => Ended::Failed(fault),
            _ if !film.is_on_disk() => Ended::Unsynced,
            _ if film.is_stopped => Ended::Stopped,
            _ => Ended::Whole,
        }
    }
}
