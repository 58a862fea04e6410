//! Laws, each the contract of a function. All but the first two are about the definitions alone, and their functions do
//! nothing.
ghost use Rattle.std.specs.Prelude.{◌≡◌, ◌-◌, ◌^◌, ◌<◌, ◌≤◌, ◌+◌, ◌++◌, ℕ, Bool, List, [], ◌∷◌, length, map, flat_map, IfOk, IfSome, IfNone, MatchResult};
ghost use Rattle.std.specs.List.{range_with_len};
ghost use Rattle.ls_frame.specs.Picture.{Picture, IsFrame};
ghost use Rattle.ls_frame.specs.declared.frame.Kind.TheVariants.{Gray, Color};
ghost use Rattle.ls_frame.specs.Parameters.{Parameters, IsLegal};
ghost use Rattle.ls_stream.specs.Markers.{code_of, marker_of};
ghost use Rattle.ls_stream.specs.Planes.{Plane, IsSamplePlane, left, run_length, IsLongest, row_spans, span_columns, plane_bits};
ghost use Rattle.ls_stream.specs.Grammar.{Spells, Says, IsCoded, IsHeaderOf, presets, skipped};
ghost use Rattle.ls_bits.specs.Stuffing.{unstuff};
ghost use Rattle.ls_stream.specs.Layout.{codestream, bound};
ghost use Rattle.ls_stream.specs.Examples.{scan, default_scan, annex_h_picture, annex_h_scan, lone, lone_codestream, lone_head, lone_scan, last_marker, lone_zero, soi, comment_a, empty_app8, lone_header, lone_reset, lone_grammar, lone_data, three_header};
ghost use Rattle.ls_stream.specs.View.Extents.{SpellingsHaveExtents, OutlinesHaveExtents, TooFewForBoth, OneIsNext, NextHasTheFirstFault, IsDecoding, IsDecodingOfNext, AreAlike};
ghost use Rattle.ls_stream.specs.View.Outlines.{BoundedOutlinesSpell, SpellingsHaveBoundedOutlines, BoundedFaultsBreak, OneFirstFault};

use crate::decode::{Decoded, decode_frame};
use crate::encode::encode_with;
use crate::faults::StreamFault;
use crate::marker::Marker;
use crate::next::{NextFault, next_stream};
use ls_frame::laws::parameters_are_legal_or_at_fault;
use ls_frame::{Frame, Presets};
use std::alloc::Global;

/// Decoding an encoded frame gives the frame back, and its codestream's length; or the result is `NoMemory`.
///
/// It requires parameters of the frame's maxval.
pub fn decoding_gives_what_was_encoded(
    alloc: Global,
    frame: &Frame,
    presets: &Presets,
) -> Result<Decoded, StreamFault>
    requires maxval { presets.now.maxval ≡ frame.now.maxval }
    ensures { MatchResult result
        (λ decoded. (decoded.frame ≡ frame.now) × (decoded.used ≡ length (codestream frame.now presets.now)))
        (λ fault. fault ≡ StreamFault.NoMemory) }
{
    prove!(presets.maxval() == frame.maxval());
    parameters_are_legal_or_at_fault();
    let bytes = encode_with(alloc, frame, presets)?;
    decode_frame(alloc, &bytes)
}

/// The results of decoding the codestream that `next_stream` takes from bytes in memory, and of decoding all these
/// bytes.
#[derive(Drop)]
pub struct DecodedTwice {
    pub taken: Result<Decoded, StreamFault>,
    pub all: Result<Decoded, StreamFault>,
}

/// Decoding the codestream that `next_stream` takes from bytes gives what decoding all of them gives: the same frame
/// and the same length of its codestream, or the same fault; unless one of the two results is `NoMemory`. `None` if
/// there are no bytes.
pub fn what_is_taken_is_decoded_alike(
    alloc: Global,
    bytes: &[u8],
) -> Result<Option<DecodedTwice>, NextFault>
    ensures alike { IfOk result (λ next. IfSome next (λ both. AreAlike both.taken both.all)) }
    ensures taken { IfOk result (λ next. IfSome next (λ both. IsDecodingOfNext bytes.now both.taken)) }
    ensures all { IfOk result (λ next. IfSome next (λ both. IsDecoding bytes.now both.all)) }
    ensures nothing { IfOk result (λ next. IfNone next (bytes.now ≡ [])) }
{
    parameters_are_legal_or_at_fault();
    let mut rest = bytes;
    match next_stream(alloc, &mut rest)? {
        Some(codestream) => Ok(Some(DecodedTwice {
            taken: decode_frame(alloc, &codestream),
            all: decode_frame(alloc, bytes),
        })),
        None => Ok(None),
    }
}

/// The picture of T.87's Annex H.3 has the scan that is given there.
pub fn annex_h_has_its_scan()
    ensures { default_scan 255 4 annex_h_picture ≡ annex_h_scan }
{}

/// The spans of a row are the row: they have each of its columns once, from left to right.
pub fn spans_are_their_row()
    ensures { (plane : Plane) (i : ℕ) → flat_map span_columns (row_spans plane i) ≡ range_with_len 0 plane.width }
{}

/// A run has all samples that equal its Ra, up to the first that doesn't or the end of the line (A.7.1).
pub fn runs_are_longest()
    ensures { (plane : Plane) (i j : ℕ) → IsLongest plane i (left plane i j) (plane.width - j) j (run_length plane i j) }
{}

/// Markers have these codes (T.87 Table C.1; T.81 Table B.1), and these codes have these markers.
pub fn markers_have_these_codes()
    ensures codes { map code_of (Marker.StartOfImage ∷ Marker.EndOfImage ∷ Marker.StartOfScan ∷ Marker.StartOfFrame ∷ Marker.PresetParameters
        ∷ Marker.Application 224 ∷ Marker.Application 239 ∷ Marker.Comment ∷ Marker.Other 221 ∷ Marker.Other 192 ∷ [])
        ≡ 216 ∷ 217 ∷ 218 ∷ 247 ∷ 248 ∷ 224 ∷ 239 ∷ 254 ∷ 221 ∷ 192 ∷ [] }
    ensures markers { map marker_of (216 ∷ 217 ∷ 218 ∷ 247 ∷ 248 ∷ 224 ∷ 239 ∷ 254 ∷ 221 ∷ 192 ∷ [])
        ≡ Marker.StartOfImage ∷ Marker.EndOfImage ∷ Marker.StartOfScan ∷ Marker.StartOfFrame ∷ Marker.PresetParameters
        ∷ Marker.Application 224 ∷ Marker.Application 239 ∷ Marker.Comment ∷ Marker.Other 221 ∷ Marker.Other 192 ∷ [] }
{}

/// Small planes, and their scans with the default parameters.
pub fn small_planes_have_these_scans()
    ensures lone_zero { default_scan 255 1 (0 ∷ []) ≡ 128 ∷ [] }
    ensures lone_greatest { default_scan 255 1 (255 ∷ []) ≡ 64 ∷ [] }
    ensures run_of_twelve { default_scan 255 12 (0 ∷ 0 ∷ 0 ∷ 0 ∷ 0 ∷ 0 ∷ 0 ∷ 0 ∷ 0 ∷ 0 ∷ 0 ∷ 0 ∷ []) ≡ 255 ∷ 0 ∷ [] }
    ensures run_of_thirteen { default_scan 255 13 (0 ∷ 0 ∷ 0 ∷ 0 ∷ 0 ∷ 0 ∷ 0 ∷ 0 ∷ 0 ∷ 0 ∷ 0 ∷ 0 ∷ 0 ∷ []) ≡ 255 ∷ 64 ∷ [] }
    ensures run_of_sixteen { default_scan 255 16 (0 ∷ 0 ∷ 0 ∷ 0 ∷ 0 ∷ 0 ∷ 0 ∷ 0 ∷ 0 ∷ 0 ∷ 0 ∷ 0 ∷ 0 ∷ 0 ∷ 0 ∷ 0 ∷ []) ≡ 255 ∷ 64 ∷ [] }
    ensures two_values { default_scan 1 1 (1 ∷ []) ≡ 64 ∷ [] }
    ensures sixteen_bits { default_scan 65535 1 (65535 ∷ []) ≡ 64 ∷ 0 ∷ [] }
    ensures runs_of_two_lines { default_scan 255 4 (0 ∷ 0 ∷ 0 ∷ 9 ∷ 0 ∷ 0 ∷ 0 ∷ 9 ∷ []) ≡ 224 ∷ 187 ∷ 0 ∷ [] }
    ensures escape_after_a_run { default_scan 255 5 (0 ∷ 0 ∷ 0 ∷ 0 ∷ 100 ∷ []) ≡ 240 ∷ 0 ∷ 0 ∷ 28 ∷ 96 ∷ [] }
    ensures second_sample_regular { default_scan 255 2 (5 ∷ 5 ∷ []) ≡ 22 ∷ 0 ∷ [] }
    ensures one_column { default_scan 255 1 (5 ∷ 5 ∷ 6 ∷ []) ≡ 22 ∷ 36 ∷ [] }
{}

/// A scan with RESET 3: counters are halved after each third error.
pub fn an_early_reset_has_this_scan()
    ensures { scan (record { maxval = 255; t1 = 3; t2 = 7; t3 = 21; reset = 3 }) (record { width = 7; samples = 3 ∷ 3 ∷ 3 ∷ 3 ∷ 4 ∷ 6 ∷ 6 ∷ [] })
        ≡ 44 ∷ 164 ∷ 72 ∷ [] }
{}

/// Frames of one pixel, and their codestreams: with the default parameters, and the last with RESET 32.
pub fn small_frames_have_these_codestreams()
    ensures gray { lone_codestream Gray 255 (0 ∷ []) ≡ lone_head ++ lone_scan 1 128 ++ last_marker }
    ensures two_values { lone_codestream Gray 1 (1 ∷ [])
        ≡ 255 ∷ 216 ∷ 255 ∷ 247 ∷ 0 ∷ 11 ∷ 2 ∷ 0 ∷ 1 ∷ 0 ∷ 1 ∷ 1 ∷ 1 ∷ 17 ∷ 0 ∷ 255 ∷ 248 ∷ 0 ∷ 13 ∷ 1 ∷ 0 ∷ 1 ∷ 0 ∷ 1 ∷ 0 ∷ 1
        ∷ 0 ∷ 1 ∷ 0 ∷ 64 ∷ 255 ∷ 218 ∷ 0 ∷ 8 ∷ 1 ∷ 1 ∷ 0 ∷ 0 ∷ 0 ∷ 0 ∷ 64 ∷ 255 ∷ 217 ∷ [] }
    ensures sixteen_bits { lone_codestream Gray 65535 (65535 ∷ [])
        ≡ 255 ∷ 216 ∷ 255 ∷ 247 ∷ 0 ∷ 11 ∷ 16 ∷ 0 ∷ 1 ∷ 0 ∷ 1 ∷ 1 ∷ 1 ∷ 17 ∷ 0 ∷ 255 ∷ 218 ∷ 0 ∷ 8 ∷ 1 ∷ 1 ∷ 0 ∷ 0 ∷ 0 ∷ 0
        ∷ 64 ∷ 0 ∷ 255 ∷ 217 ∷ [] }
    ensures colour { lone_codestream Color 255 (0 ∷ 0 ∷ 0 ∷ [])
        ≡ (255 ∷ 216 ∷ 255 ∷ 247 ∷ 0 ∷ 17 ∷ 8 ∷ 0 ∷ 1 ∷ 0 ∷ 1 ∷ 3 ∷ 1 ∷ 17 ∷ 0 ∷ 2 ∷ 17 ∷ 0 ∷ 3 ∷ 17 ∷ 0 ∷ [])
        ++ lone_scan 1 128 ++ lone_scan 2 128 ++ lone_scan 3 128 ++ last_marker }
    ensures written { let p : Parameters = record { maxval = 255; t1 = 3; t2 = 7; t3 = 21; reset = 32 } in codestream (lone Gray 255 (0 ∷ [])) p
        ≡ lone_head ++ (255 ∷ 248 ∷ 0 ∷ 13 ∷ 1 ∷ 0 ∷ 255 ∷ 0 ∷ 3 ∷ 0 ∷ 7 ∷ 0 ∷ 21 ∷ 0 ∷ 32 ∷ []) ++ lone_scan 1 128 ++ last_marker }
{}

/// A codestream has no more bytes than its bound, which is below 2^32.
pub fn codestreams_are_short()
    ensures bound { (f : Picture) (p : Parameters) → IsFrame f → IsLegal p → p.maxval ≡ f.maxval
        → length (codestream f p) ≤ bound f p }
    ensures small { (f : Picture) (p : Parameters) → IsFrame f → IsLegal p → bound f p < 2 ^ 32 }
{}

/// The codestream that is written for a frame is a codestream of it by the grammar.
pub fn codestreams_spell_their_frames()
    ensures { (f : Picture) (p : Parameters) → IsFrame f → IsLegal p → p.maxval ≡ f.maxval → Spells (codestream f p) f }
{
    parameters_are_legal_or_at_fault();
}

/// Outlines agree with the grammar: if an outline is read, the bytes begin with a codestream of each frame that it
/// fits; a codestream of a frame has an outline, whatever follows it; and if none is read, the bytes break the grammar
/// with the fault that is returned.
pub fn outlines_follow_the_grammar()
    ensures spell { BoundedOutlinesSpell }
    ensures are_read { SpellingsHaveBoundedOutlines }
    ensures faults { BoundedFaultsBreak }
{}

/// Bytes have one first fault, so the fault that decoding returns depends on the bytes alone, unless it is `NoMemory`.
/// The next codestream at their front has the same first fault.
pub fn bytes_have_one_first_fault()
    ensures one { OneFirstFault }
    ensures next { NextHasTheFirstFault }
{
    parameters_are_legal_or_at_fault();
}

/// The extent of a codestream, found by its markers alone, is the one that the grammar gives it, wherever an outline is
/// read; and only one front of bytes is the next codestream.
pub fn extents_follow_the_grammar()
    ensures spelled { SpellingsHaveExtents }
    ensures outlined { OutlinesHaveExtents }
    ensures too_few { TooFewForBoth }
    ensures one { OneIsNext }
{}

/// Codestreams as other programs may write them: skipped segments before the frame header; two LSE segments, of which
/// the last counts, with 0 for a default; 15 bits after those of the plane; fill bytes; another identifier and
/// quantization table.
pub fn others_spell_frames_too()
    ensures skipped { Spells (soi ++ comment_a ++ empty_app8 ++ lone_header 1 0 ++ lone_scan 1 128 ++ last_marker) lone_zero }
    ensures tables { Spells (soi ++ lone_reset 32 ++ lone_header 1 0 ++ lone_reset 0 ++ lone_scan 1 128 ++ last_marker) lone_zero }
    ensures more_bits { Spells (soi ++ lone_header 1 0 ++ lone_scan 1 128 ++ (0 ∷ []) ++ last_marker) lone_zero }
    ensures fill { Spells (soi ++ lone_header 1 0 ++ lone_scan 1 128 ++ (255 ∷ []) ++ last_marker) lone_zero }
    ensures identifier { Spells (soi ++ lone_header 7 5 ++ lone_scan 7 128 ++ last_marker) lone_zero }
{}

/// Not codestreams by the grammar: with 16 bits or more after those of a plane; with an LSE segment after a scan; with
/// two components of one identifier; with a skipped segment that is neither APPn nor COM, such as DRI (0xDD).
pub fn these_say_no_frame()
    ensures more_bits { (p : Parameters) (plane : Plane) (bytes : List ℕ)
        → length (plane_bits p plane) + 16 ≤ length (unstuff bytes) → IsCoded p plane bytes → ⊥ }
    ensures late_tables { (p q : Parameters) (f : Picture) → Says (lone_grammar [] 1 0 [] (lone_data (128 ∷ []) (presets 0 q ∷ [])) 0) p f → ⊥ }
    ensures identifiers { (f : Picture) (one two : ℕ) → IsHeaderOf f (three_header one two one) → ⊥ }
    ensures restarts { (p : Parameters) (f : Picture) (contents : List ℕ)
        → Says (lone_grammar (skipped 0 (Marker.Other 221) contents ∷ []) 1 0 [] (lone_data (128 ∷ []) []) 0) p f → ⊥ }
{}

/// A plane's bits identify it: bits that begin with them begin with those of no other plane of its width and height,
/// whatever follows.
pub fn planes_are_told_apart()
    ensures { (p : Parameters) (plane other : Plane) (width height : ℕ) (bits rest others : List Bool) → IsLegal p → 1 ≤ width
        → IsSamplePlane p.maxval width height plane → IsSamplePlane p.maxval width height other
        → bits ≡ plane_bits p plane ++ rest → bits ≡ plane_bits p other ++ others → (plane ≡ other) × (rest ≡ others) }
{}

/// A codestream is that of one frame and no other.
pub fn one_frame_each()
    ensures { (bytes : List ℕ) (f g : Picture) → Spells bytes f → Spells bytes g → f ≡ g }
{
    parameters_are_legal_or_at_fault();
}

/// No codestream is a proper front of another.
pub fn no_codestream_begins_another()
    ensures { (one other rest : List ℕ) (f g : Picture) → Spells one f → Spells other g → other ≡ one ++ rest → rest ≡ [] }
{}
