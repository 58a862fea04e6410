//! Whether the data of a codestream's scans are exactly those that encoding gives.
ghost use Rattle.std.specs.Prelude.{◌≡◌, ◌≢◌, ◌⊎◌, ◌<◌, ◌≤◌, ◌++◌, ℕ, List, [], take, length, drop, slice_index_or, IfOk, IfErr, IfSome, IfNone, MatchOption, MatchResult};
ghost use Rattle.ls_frame.specs.Picture.{Picture};
ghost use Rattle.ls_stream.specs.Faults.{BeginsWithOpening};
ghost use Rattle.ls_stream.specs.Grammar.{Spells, most_bytes};
ghost use Rattle.ls_stream.specs.View.Outlines.{data_at, IsFirstFault};
ghost use Rattle.ls_inspect.specs.Scans.{HaveData, IsAfterHeader};
ghost use Rattle.ls_inspect.specs.Strict.{SpellsLoosely, SpellsStrictly};

use crate::markers::{Part, after_data, read_part};
use ls_bits::data_of;
use ls_frame::laws::parameters_are_legal_or_at_fault;
use ls_stream::{Opening, StreamFault, decode_frame, encode_with};
use std::alloc::Global;

/// What is known of a codestream whose frame was decoded.
#[derive(Clone, Copy, Debug, Drop, PartialEq, Eq)]
pub struct Inspected {
    /// The number of bytes of the codestream.
    pub used: usize,
    /// The first component, from 0, whose scan has other data than those that encoding gives. `None` if all have these:
    /// then the codestream is strict.
    pub loose: Option<u8>,
}

/// Decodes the codestream at the front of bytes, encodes its frame with the same parameters, and compares the data of
/// the scans. Segments and fill bytes aren't compared: they may be others than encoding writes.
///
/// After the bits of a component's samples `decode_frame` accepts fewer than 16 further bits of any value. Encoding
/// adds none, and fills the last byte with 0.
///
/// Fails as `decode_frame` does, and with NoMemory also if the codestream that is compared can't be allocated.
pub fn inspect(alloc: Global, bytes: &[u8]) -> Result<Inspected, StreamFault>
    ensures within { IfOk result (λ found. found.used ≤ length bytes.now) }
    ensures strict { IfOk result (λ found. IfNone found.loose ((f : Picture) × SpellsStrictly (take found.used bytes.now) f)) }
    ensures loose { IfOk result (λ found. IfSome found.loose (λ component. (f : Picture) × SpellsLoosely (take found.used bytes.now) f component)) }
    ensures never { IfOk result (λ found. IfSome found.loose (λ component. (f : Picture) → SpellsStrictly (take found.used bytes.now) f → ⊥)) }
    ensures complete { (front rest : List ℕ) (f : Picture) → bytes.now ≡ front ++ rest → Spells front f
        → MatchResult result (λ found. found.used ≡ length front) (λ fault. fault ≡ StreamFault.NoMemory) }
    ensures fault { IfErr result (λ fault. (fault ≡ StreamFault.NoMemory)
        ⊎ ((front rest : List ℕ) (f : Picture) → bytes.now ≡ front ++ rest → Spells front f → ⊥)) }
    ensures first { IfErr result (λ fault. (fault ≡ StreamFault.NoMemory) ⊎ IsFirstFault bytes.now fault) }
    ensures memory { IfErr result (λ fault. fault ≡ StreamFault.NoMemory → BeginsWithOpening (take most_bytes bytes.now)) }
{
    parameters_are_legal_or_at_fault();
    let opening = match Opening::read(bytes) {
        Ok(opening) => opening,
        Err(fault) => return Err(fault),
    };
    let decoded = match decode_frame(alloc, bytes) {
        Ok(decoded) => decoded,
        Err(fault) => return Err(fault),
    };
    let presets = *opening.presets();
    prove!(presets.maxval() > 0);
    let Ok(encoded) = encode_with(alloc, &decoded.frame, &presets) else {
        return Err(StreamFault::NoMemory);
    };
    let used = decoded.used;
    let count = decoded.frame.kind().components();
    let loose = first_other(count, after_start(&bytes[..used]), after_start(&encoded));
    Ok(Inspected { used, loose })
}

/// The bytes after SOI.
fn after_start(bytes: &[u8]) -> &[u8]
    ensures { result.now ≡ drop 2 bytes.now }
{
    if bytes.len() < 2 {
        return &[];
    }
    &bytes[2..]
}

/// Returns the first of `count` scans whose data differ between two codestreams, from the bytes after SOI on; `None` if
/// there is none. Both must have so many scans.
fn first_other(count: u8, given: &[u8], wanted: &[u8]) -> Option<u8>
    ensures { (one other : List (List ℕ)) → HaveData given.now one → HaveData wanted.now other → length one ≡ count → length other ≡ count
        → MatchOption result (one ≡ other) (λ place. (place < count) × (take place one ≡ take place other)
        × (slice_index_or one place [] ≢ slice_index_or other place [])) }
{
    let mut given = given;
    let mut wanted = wanted;
    for component in 0..count {
        let Ok(one) = after_header(given) else {
            return None;
        };
        let Ok(other) = after_header(wanted) else {
            return None;
        };
        if data_at(one) != data_at(other) {
            return Some(component);
        }
        given = after_data(one);
        wanted = after_data(other);
    }
    None
}

/// Skips segments and the header of the next scan. Returns the bytes after them.
#[tactic(auto, using(crate::proofs::ScanLemmas::header_lemmas))]
fn after_header(bytes: &[u8]) -> Result<&[u8], StreamFault>
    ensures { (rest : List ℕ) → IsAfterHeader rest bytes.now → MatchResult result (λ found. found.now ≡ rest) (λ fault. ⊥) }
{
    let mut rest = bytes;
    loop {
        let (part, left) = read_part(rest)?;
        match part {
            Part::Segment => rest = left,
            Part::Scan => return Ok(left),
            Part::End => return Err(StreamFault::BadSegment),
        }
    }
}

/// The scan data at the front of bytes.
fn data_at(bytes: &[u8]) -> &[u8]
    ensures { result.now ≡ data_at bytes.now }
{
    &bytes[..data_of(bytes).len]
}
