//! The first bytes of a file.
ghost use Rattle.std.specs.Prelude.{◌≤◌};
ghost use Rattle.ls_files.specs.declared.front.TheConstants.{FRONT};

/// The number of first bytes that are kept.
pub const FRONT: usize = 136;

/// The first bytes that were read of a file, at most 136.
#[derive(Drop)]
pub struct Front {
    front: [u8; FRONT],
    kept: usize,
    ghost kept_inside: { kept ≤ FRONT },
}

impl Front {
    /// Before the first byte.
    pub fn new() -> Front {
        Front {
            front: [0; FRONT],
            kept: 0,
        }
    }

    /// Adds bytes until it is full.
    pub fn keep(&mut self, bytes: &[u8]) {
        let start = self.kept;
        let count = bytes.len().min(FRONT - start);
        self.front[start..start + count].copy_from_slice(&bytes[..count]);
        self.kept = start + count;
    }

    pub fn bytes(&self) -> &[u8] {
        &self.front[..self.kept]
    }
}
