//! The data at the front of bytes: a scan's stuffed bits, up to the marker that ends them.
ghost use Rattle.std.specs.Prelude.{◌≡◌, ◌+◌, ◌<◌, ◌≤◌, ℕ, IsTrue, length, drop, slice_index};
ghost use Rattle.ls_bits.specs.Data.{DataAtFront, stop_at};

use memchr::memchr;

/// Why the data ends.
#[derive(Clone, Copy, Debug, Drop, PartialEq, Eq)]
pub enum Stop {
    /// A marker follows: FF and a byte of 0x80 or more, which may be a fill byte FF.
    Marker,
    /// The bytes end, or their last one is a lone FF.
    End,
}

/// The data at the front of bytes (T.87 C.1).
#[derive(Clone, Copy, Debug, Drop, PartialEq, Eq)]
pub struct Data {
    /// Its length in bytes.
    pub len: usize,
    pub stop: Stop,
}

/// The longest prefix of `bytes` in which no FF is followed by a byte of 0x80 or more and whose last byte isn't FF
/// (T.87 C.1). Takes any bytes, allocates nothing and cannot fail.
pub fn data_of(bytes: &[u8]) -> Data
    ensures len { DataAtFront bytes.now result.len }
    ensures stop { result.stop ≡ stop_at (drop result.len bytes.now) }
{
    let mut len = 0;
    while let Some(place) = memchr(0xff, &bytes[len..]) {
        len += place;
        if len + 1 == bytes.len() {
            return Data {
                len,
                stop: Stop::End,
            };
        }
        if bytes[len + 1] >= 0x80 {
            return Data {
                len,
                stop: Stop::Marker,
            };
        }
        len += 2;
    }
    Data {
        len: bytes.len(),
        stop: Stop::End,
    }
}
