//! A buffer of un-stuffed bits, eight to a byte.
ghost use Rattle.std.specs.Prelude.{◌≡◌, ◌+◌, ◌-◌, ◌/◌, ◌≤◌, length, take, drop};
ghost use Rattle.ls_bits.specs.Bits.{bits_of};
ghost use Rattle.ls_bits.specs.View.Plain.{plain_bits, with_bytes};
ghost use Rattle.std.specs.Int.{to_be_bytes};
ghost use mir.Syntax.{w32, w64};

/// The bits from bit `place` on, from the top bit of the result down. Only the first 57 are right. Requires eight bytes
/// from the one with that bit on.
#[inline(always)]
pub fn front_of(bytes: &[u8], place: usize) -> u64
    requires { place / 8 + 8 ≤ length bytes.now }
    ensures { take 57 (bits_of 64 result) ≡ take 57 (drop place (plain_bits bytes.now)) }
{
    let at = place / 8;
    let word = u64::from_be_bytes([
        bytes[at],
        bytes[at + 1],
        bytes[at + 2],
        bytes[at + 3],
        bytes[at + 4],
        bytes[at + 5],
        bytes[at + 6],
        bytes[at + 7],
    ]);
    word << (place % 8)
}

/// Moves the bytes from `from` up to `end` to the front.
pub fn move_to_front(bytes: &mut [u8], from: usize, end: usize)
    requires order { from ≤ end }
    requires within { end ≤ length bytes.old }
    ensures moved { take (end - from) bytes.new ≡ take (end - from) (drop from bytes.old) }
    ensures len { length bytes.new ≡ length bytes.old }
{
    for place in from..end {
        bytes[place - from] = bytes[place];
    }
}

/// Writes a number into the eight bytes from `at` on, the most significant byte first.
#[inline(always)]
pub fn put_eight(bytes: &mut [u8], at: usize, number: u64)
    requires { at + 8 ≤ length bytes.old }
    ensures { bytes.new ≡ with_bytes bytes.old at (to_be_bytes w64 number) }
{
    bytes[at..at + 8].copy_from_slice(&number.to_be_bytes());
}

/// Writes a number into the four bytes from `at` on, the most significant byte first.
#[inline(always)]
pub fn put_four(bytes: &mut [u8], at: usize, number: u32)
    requires { at + 4 ≤ length bytes.old }
    ensures { bytes.new ≡ with_bytes bytes.old at (to_be_bytes w32 number) }
{
    bytes[at..at + 4].copy_from_slice(&number.to_be_bytes());
}
