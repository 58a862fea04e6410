//! Line buffers, which encoding and decoding need besides the frame. Decoding needs `Regions` too.
ghost use Rattle.std.specs.Prelude.{◌≡◌, IfOk};

use std::alloc::{AllocError, Global};
use std::marker::Model;

/// Buffers for two lines of a plane: the one being coded or decoded, and the one above it. One value serves any number
/// of frames up to its width.
///
/// In contracts a value stands for its width, in samples.
#[derive(Drop)]
pub struct Lines {
    width: u16,
    /// The line above the one being coded or decoded, with one place of padding on each side.
    pub(crate) above: Vec<u16>,
    /// The line being coded or decoded, padded likewise.
    pub(crate) line: Vec<u16>,
}

impl Model for Lines {
    ghost use Rattle.std.specs.Prelude.{◌≡◌, ◌+◌, ℕ, vec_len};

    ghost Value = { ℕ };

    ghost view = { λ l. l.width };

    ghost invariant = { λ l. (vec_len l.above ≡ l.width + 2) × (vec_len l.line ≡ l.width + 2) };
}

impl Lines {
    /// Buffers for lines of up to `width` samples, 0 to 65535. Its only error is `AllocError`.
    pub fn new(alloc: Global, width: u16) -> Result<Lines, AllocError>
        ensures { IfOk result (λ lines. lines ≡ width) }
    {
        let places = usize::from(width) + 2;
        let above = vec![in alloc; 0u16; places]?;
        let line = vec![in alloc; 0u16; places]?;
        Ok(Lines { width, above, line })
    }

    /// The most samples that a line may have.
    pub fn width(&self) -> u16
        ensures { result ≡ self.now }
    {
        self.width
    }
}
