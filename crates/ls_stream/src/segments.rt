//! Marker segments (T.87 Annex C; T.81 B.1.1.4).
ghost use Rattle.std.specs.Prelude.{◌≡◌, ◌<◌, ◌≤◌};
ghost use Rattle.ls_stream.specs.Grammar.{greatest_maxval};

pub mod read;
pub mod write;

/// The most bytes that a codestream may have.
pub const MOST_BYTES: usize = 4_294_967_295;

/// The sampling factors of a component, both 1, in one byte.
const SAMPLED_ONE_BY_ONE: u8 = 0x11;

/// The greatest MAXVAL for a precision of 2 to 16 bits.
pub fn greatest_maxval(precision: u32) -> u16
    requires low { 2 ≤ precision }
    requires high { precision ≤ 16 }
    ensures value { result ≡ greatest_maxval precision }
    ensures some { 0 < result }
{
    ((1u32 << precision) - 1) as u16
}
