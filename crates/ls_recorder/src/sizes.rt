//! The sizes of a recording: how many workers, and how many frames wait at once.
ghost use Rattle.std.specs.Prelude.{◌≡◌};
ghost use Rattle.ls_recorder.specs.Sizes.{record_fault};

use crate::faults::RecordFault;
use ls_pieces::MOST_WINDOW;
use ls_queue::{MOST_CAPACITY, MOST_SOURCES, MOST_WORKERS};

/// The number of workers; the number of frames that may wait for a worker (`capacity`); and the number of frames of
/// each film that may be read and not yet written (`window`).
#[derive(Clone, Copy)]
pub struct Sizes {
    pub workers: usize,
    pub capacity: usize,
    pub window: usize,
}

impl Sizes {
    /// The first fault of a recording of `sources` films with these sizes, or `None` if it can be made.
    pub fn fault(self, sources: usize) -> Option<RecordFault>
        ensures { result ≡ record_fault sources self.workers self.capacity self.window }
    {
        if sources == 0 || sources > MOST_SOURCES as usize {
            return Some(RecordFault::Sources);
        }
        if self.workers == 0 || self.workers > MOST_WORKERS {
            return Some(RecordFault::Workers);
        }
        if self.capacity == 0 || self.capacity > MOST_CAPACITY {
            return Some(RecordFault::Capacity);
        }
        if self.window == 0 || self.window > MOST_WINDOW {
            return Some(RecordFault::Window);
        }
        None
    }
}
