//! The role of a codestream's next byte, given the markers before it.
ghost use Rattle.std.specs.Prelude.{◌≡◌, ◌<◌, ◌≤◌, ◌⊎◌, IfSome, IfNone};
ghost use Rattle.ls_stream.specs.View.Places.{GoesOn, Ends, follows_of, place_of};

use crate::marker::Marker;

/// The role of a codestream's next byte.
#[derive(Clone, Copy)]
pub enum Awaited {
    /// The 0xFF of SOI.
    Start,
    /// The code of SOI.
    StartCode,
    /// The 0xFF of a marker.
    Marker,
    /// The code of a marker, or one more 0xFF before it.
    Code,
    /// The upper byte of a segment's length.
    Length(Follows),
    /// The lower byte of a segment's length, after this upper one.
    LengthLow(Follows, u8),
    /// A byte of a segment's contents, with this number of them after it.
    Contents(Follows, u16),
    /// A byte of a scan's data, or the 0xFF of the marker after it.
    Data,
    /// The byte after a 0xFF in or after a scan's data.
    DataCode,
}

/// The part after a segment.
#[derive(Clone, Copy)]
pub enum Follows {
    Marker,
    /// The data of the scan whose header the segment is.
    Data,
}

impl Awaited {
    /// The number of bytes, from 1 to `most`, that may be taken at once: `most` in a scan's data, up to a 0xFF, else
    /// one.
    pub fn most_at_once(self, most: usize) -> usize
        requires { 0 < most }
        ensures some { 0 < result }
        ensures most { result ≤ most }
        ensures one { (self ≡ Awaited.Data) ⊎ (result ≡ 1) }
    {
        match self {
            Awaited::Data => most,
            _ => 1,
        }
    }

    /// The role of the byte after this one. `None` if the codestream ends with this byte, or if the byte shows a fault
    /// of the markers.
    #[tactic(auto, using(crate::proofs::PlaceLemmas::place_lemmas))]
    pub fn after(self, byte: u8) -> Option<Awaited>
        ensures goes_on { IfSome result (λ next. GoesOn self byte next) }
        ensures ends { IfNone result (Ends self byte) }
    {
        match self {
            Awaited::Start => {
                if byte == 0xFF {
                    Some(Awaited::StartCode)
                } else {
                    None
                }
            }
            Awaited::StartCode => {
                if byte == 0xD8 {
                    Some(Awaited::Marker)
                } else {
                    None
                }
            }
            Awaited::Marker => {
                if byte == 0xFF {
                    Some(Awaited::Code)
                } else {
                    None
                }
            }
            Awaited::Code => after_code(byte),
            Awaited::Length(follows) => Some(Awaited::LengthLow(follows, byte)),
            Awaited::LengthLow(follows, high) => after_length(follows, high, byte),
            Awaited::Contents(follows, more) => {
                if more == 0 {
                    Some(follows.place())
                } else {
                    Some(Awaited::Contents(follows, more - 1))
                }
            }
            Awaited::Data => {
                if byte == 0xFF {
                    Some(Awaited::DataCode)
                } else {
                    Some(Awaited::Data)
                }
            }
            Awaited::DataCode => {
                if byte < 0x80 {
                    Some(Awaited::Data)
                } else {
                    after_code(byte)
                }
            }
        }
    }
}

/// The role of the byte after a marker's code, or after one more 0xFF before it.
#[tactic(auto, using(crate::proofs::PlaceLemmas::code_lemmas))]
fn after_code(byte: u8) -> Option<Awaited>
    ensures goes_on { IfSome result (λ next. GoesOn Awaited.Code byte next) }
    ensures ends { IfNone result (Ends Awaited.Code byte) }
{
    if byte == 0xFF {
        return Some(Awaited::Code);
    }
    if byte == 0 {
        return None;
    }
    match follows_of(Marker::of_code(byte)) {
        Some(follows) => Some(Awaited::Length(follows)),
        None => None,
    }
}

/// The role of the byte after a segment's length. A length of 2, which counts only itself, has no contents after it.
#[tactic(auto, using(crate::proofs::PlaceLemmas::length_lemmas))]
fn after_length(follows: Follows, high: u8, low: u8) -> Option<Awaited>
    ensures goes_on { IfSome result (λ next. GoesOn (Awaited.LengthLow follows high) low next) }
    ensures ends { IfNone result (Ends (Awaited.LengthLow follows high) low) }
{
    let length = 256 * u16::from(high) + u16::from(low);
    if length < 2 {
        return None;
    }
    if length == 2 {
        return Some(follows.place());
    }
    Some(Awaited::Contents(follows, length - 3))
}

/// The part after a marker's segment. `None` if the marker has no segment, or isn't supported.
fn follows_of(marker: Marker) -> Option<Follows>
    ensures { result ≡ follows_of marker }
{
    match marker {
        Marker::StartOfScan => Some(Follows::Data),
        Marker::StartOfFrame => Some(Follows::Marker),
        Marker::PresetParameters => Some(Follows::Marker),
        Marker::Application(_) => Some(Follows::Marker),
        Marker::Comment => Some(Follows::Marker),
        Marker::EndOfImage => None,
        Marker::StartOfImage => None,
        Marker::Other(_) => None,
    }
}

impl Follows {
    fn place(self) -> Awaited
        ensures { result ≡ place_of self }
    {
        match self {
            Follows::Marker => Awaited::Marker,
            Follows::Data => Awaited::Data,
        }
    }
}
