//! The text that is written of the frames of a recording.
ghost use Rattle.std.specs.Prelude.{[], refl};

use ls_film::engine::Text;
pub use ls_film::playing::ImageText;
use ls_frame::Frame;
use std::alloc::{AllocError, Global};

/// A text with nothing in it, for callers that only look for damage.
pub struct NoText;

impl Text<Frame> for NoText {
    ghost text = { λ _. [] };

    fn chunk(alloc: Global, _number: u64, _frame: Frame) -> Result<Vec<u8>, AllocError> {
        Ok(Vec::new(alloc))
    }

    ghost empty = { refl };
}
