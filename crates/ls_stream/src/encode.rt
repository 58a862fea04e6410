//! Encoding frames as codestreams (T.87 Annex C).
pub mod beside;
mod coder;
mod row;
mod scan;

ghost use Rattle.std.specs.Prelude.{◌≡◌, ◌+◌, ◌-◌, ◌*◌, ◌/◌, ◌^◌, ◌<◌, ◌≤◌, ◌++◌, true, false, List, length, take, drop, map, flat_map, IfOk, IfSome, IfNone, MatchOption, vec_len, vec_capacity, if◌then◌else◌};
ghost use Rattle.std.specs.List.{range_with_len};
ghost use Rattle.ls_frame.specs.Picture.{IsFormed, IsFrame, components};
ghost use Rattle.ls_frame.specs.Parameters.{limit_of, default_parameters};
ghost use Rattle.ls_stream.specs.Layout.{codestream, scans_up_to, headers_length, scan_bound, bound};

use crate::arranged::{ArrangedView, Arrangement};
use crate::buffers::Lines;
use crate::marker::Marker;
use crate::segments::write::{
    presets_length, put_frame_header, put_marker, put_presets_if_needed, put_scan_header,
};
use ls_bits::{Room, SliceRoom};
use ls_frame::{Frame, Presets};
use scan::put_scan;
use std::alloc::{AllocError, Global};

/// The codestream of a frame, coded with the default parameters of its maxval (T.87 C.2.4.1.1). It has fewer than 2^32
/// bytes.
///
/// Its only error is `AllocError`. Before it codes, it allocates two lines and `code_bound` bytes, which are the
/// capacity of the returned vector.
pub fn encode_frame(alloc: Global, frame: &Frame) -> Result<Vec<u8>, AllocError>
    ensures bytes { let f = frame.now in IfOk result (λ bytes. bytes.items ≡ codestream f (default_parameters f.maxval)) }
    ensures short { IfOk result (λ bytes. length bytes.items < 2 ^ 32) }
    ensures capacity { let f = frame.now in IfOk result (λ bytes. vec_capacity bytes ≡ bound f (default_parameters f.maxval)) }
{
    encode_with(alloc, frame, &Presets::default_of(frame.maxval()))
}

/// The codestream of a frame, coded with these parameters, whose maxval must be the frame's. It has fewer than 2^32
/// bytes, and an LSE segment only if the parameters aren't the defaults of the greatest MAXVAL of the precision.
///
/// Its only error is `AllocError`. Before it codes, it allocates two lines and `code_bound` bytes, which are the
/// capacity of the returned vector.
pub fn encode_with(alloc: Global, frame: &Frame, presets: &Presets) -> Result<Vec<u8>, AllocError>
    requires maxval { presets.now.maxval ≡ frame.now.maxval }
    ensures bytes { IfOk result (λ bytes. bytes.items ≡ codestream frame.now presets.now) }
    ensures short { IfOk result (λ bytes. length bytes.items < 2 ^ 32) }
    ensures capacity { IfOk result (λ bytes. vec_capacity bytes ≡ bound frame.now presets.now) }
{
    match encode_picture(alloc, &view_of(frame), presets)? {
        Some(bytes) => Ok(bytes),
        None => unreachable!(),
    }
}

/// As `encode_with`, for a picture in the caller's memory that may not be a frame: `None` exactly if a sample is over
/// maxval. Each row is checked when it is coded, so that the samples are fetched from memory once.
pub fn encode_picture(
    alloc: Global,
    picture: &ArrangedView,
    presets: &Presets,
) -> Result<Option<Vec<u8>>, AllocError>
    requires maxval { presets.now.maxval ≡ picture.now.maxval }
    ensures exactly { IfOk result (λ coded. MatchOption coded (IsFormed picture.now × (IsFrame picture.now → ⊥))
        (λ bytes. IsFrame picture.now × (bytes.items ≡ codestream picture.now presets.now))) }
    ensures short { IfOk result (λ coded. IfSome coded (λ bytes. length bytes.items < 2 ^ 32)) }
    ensures capacity { IfOk result (λ coded. IfSome coded (λ bytes. vec_capacity bytes ≡ bound picture.now presets.now)) }
{
    let capacity = picture_bound(picture, presets) as usize;
    let mut bytes = Vec::with_capacity(alloc, capacity)?;
    let mut lines = Lines::new(alloc, picture.form().width)?;
    if put_codestream(picture, presets, &mut lines, &mut bytes) {
        Ok(Some(bytes))
    } else {
        Ok(None)
    }
}

/// Appends the codestream of a frame to a vector and returns the vector, whose capacity stays the same.
///
/// It requires parameters of the frame's maxval, lines at least as wide as the frame, and capacity in the vector for
/// `code_bound` more bytes. It allocates nothing and cannot fail.
pub fn encode_within(frame: &Frame, presets: &Presets, lines: &mut Lines, bytes: Vec<u8>) -> Vec<u8>
    requires maxval { presets.now.maxval ≡ frame.now.maxval }
    requires width { frame.now.width ≤ lines.old }
    requires room { vec_len bytes + bound frame.now presets.now ≤ vec_capacity bytes }
    ensures bytes { result.items ≡ bytes.items ++ codestream frame.now presets.now }
    ensures capacity { vec_capacity result ≡ vec_capacity bytes }
    ensures lines { lines.new ≡ lines.old }
{
    let mut bytes = bytes;
    let _frame = put_codestream(&view_of(frame), presets, lines, &mut bytes);
    bytes
}

/// Writes the codestream of a picture to the front of a slice and returns its number of bytes. The bytes after it don't
/// change. `None` exactly if a sample is over maxval: all are checked first, and no byte changes then.
///
/// It requires parameters of the picture's maxval, lines at least as wide as the picture, and a slice of at least
/// `picture_bound` bytes. It allocates nothing.
pub fn encode_into(
    picture: &ArrangedView,
    presets: &Presets,
    lines: &mut Lines,
    bytes: &mut [u8],
) -> Option<usize>
    requires maxval { presets.now.maxval ≡ picture.now.maxval }
    requires width { picture.now.width ≤ lines.old }
    requires room { bound picture.now presets.now ≤ length bytes.old }
    ensures exactly { MatchOption result (IsFormed picture.now × (IsFrame picture.now → ⊥)) (λ count. IsFrame picture.now) }
    ensures bytes { IfSome result (λ count. take count bytes.new ≡ codestream picture.now presets.now) }
    ensures count { IfSome result (λ count. count ≡ length (codestream picture.now presets.now)) }
    ensures rest { IfSome result (λ count. drop count bytes.new ≡ drop count bytes.old) }
    ensures kept { IfNone result (bytes.new ≡ bytes.old) }
    ensures lines { lines.new ≡ lines.old }
{
    if !picture.is_frame() {
        return None;
    }
    let mut room = SliceRoom::new(bytes);
    let _frame = put_codestream(picture, presets, lines, &mut room);
    Some(room.len())
}

/// A frame as a picture to be encoded.
fn view_of(frame: &Frame) -> ArrangedView<'_>
    ensures value { result ≡ frame.now }
    ensures lawful { IsFrame frame.now }
{
    ArrangedView::new(frame.view().picture(), Arrangement::Pixels)
}

/// Appends the codestream of a picture to a `Room`, if the picture is a frame. If a sample is over maxval, returns
/// false, and the appended bytes are of no use.
fn put_codestream<R: Room>(
    picture: &ArrangedView,
    presets: &Presets,
    lines: &mut Lines,
    bytes: &mut R,
) -> bool
    requires maxval { presets.now.maxval ≡ picture.now.maxval }
    requires width { picture.now.width ≤ lines.old }
    requires room { length (R.items bytes.old) + bound picture.now presets.now ≤ R.capacity bytes.old }
    ensures within { result ≡ true → IsFrame picture.now }
    ensures over { result ≡ false → IsFrame picture.now → ⊥ }
    ensures bytes { result ≡ true → R.items bytes.new ≡ R.items bytes.old ++ codestream picture.now presets.now }
    ensures capacity { R.capacity bytes.new ≡ R.capacity bytes.old }
    ensures grown { R.Grown bytes.old bytes.new }
    ensures lines { lines.new ≡ lines.old }
{
    put_marker(bytes, Marker::StartOfImage);
    put_frame_header(bytes, picture);
    put_presets_if_needed(bytes, presets);
    let frame = put_scans(picture, presets, lines, bytes);
    put_marker(bytes, Marker::EndOfImage);
    frame
}

/// An upper bound on the bytes of a frame's codestream, below 2^32: all headers and, for each component, LIMIT bits per
/// sample, seven to a byte, and one byte more.
///
/// It requires parameters of the frame's maxval.
pub fn code_bound(frame: &Frame, presets: &Presets) -> u64
    requires maxval { presets.now.maxval ≡ frame.now.maxval }
    ensures value { result ≡ bound frame.now presets.now }
    ensures enough { length (codestream frame.now presets.now) ≤ result }
    ensures small { result < 2 ^ 32 }
{
    picture_bound(&view_of(frame), presets)
}

/// As `code_bound`, for a picture in the caller's memory: the bound on the bytes of its codestream if it is a frame.
pub fn picture_bound(picture: &ArrangedView, presets: &Presets) -> u64
    requires maxval { presets.now.maxval ≡ picture.now.maxval }
    ensures value { result ≡ bound picture.now presets.now }
    ensures enough { IsFrame picture.now → length (codestream picture.now presets.now) ≤ result }
    ensures small { result < 2 ^ 32 }
{
    prove!(presets.maxval() == picture.form().maxval);
    let count = u64::from(picture.form().kind.components());
    headers_length(picture, presets) + count * scan_bound(picture, presets)
}

/// The bytes of a codestream that aren't scan data: SOI, the frame header, preset parameters if they are written, a
/// scan header for each component, EOI.
#[tactic(auto, unfolding(crate::specs::Layout::headers_length))]
fn headers_length(picture: &ArrangedView, presets: &Presets) -> u64
    ensures value { result ≡ headers_length picture.now presets.now }
    ensures small { result ≤ 68 }
{
    let count = u64::from(picture.form().kind.components());
    2 + (10 + 3 * count) + presets_length(presets) + 10 * count + 2
}

/// An upper bound on the bytes of a scan's data.
fn scan_bound(picture: &ArrangedView, presets: &Presets) -> u64
    requires maxval { presets.now.maxval ≡ picture.now.maxval }
    ensures value { result ≡ scan_bound picture.now presets.now }
    ensures small { result ≤ 2 ^ 42 }
{
    let form = picture.form();
    let samples = u64::from(form.width) * u64::from(form.height);
    u64::from(presets.limit()) * samples / 7 + 1
}

/// Appends a scan header and its data for each component. Stops and returns false at the first one that has a sample
/// over maxval.
fn put_scans<R: Room>(
    picture: &ArrangedView,
    presets: &Presets,
    lines: &mut Lines,
    bytes: &mut R,
) -> bool
    requires maxval { presets.now.maxval ≡ picture.now.maxval }
    requires width { picture.now.width ≤ lines.old }
    requires room { length (R.items bytes.old) + components picture.now.kind * (10 + scan_bound picture.now presets.now) + 2
        ≤ R.capacity bytes.old }
    ensures within { result ≡ true → IsFrame picture.now }
    ensures over { result ≡ false → IsFrame picture.now → ⊥ }
    ensures bytes { result ≡ true
        → R.items bytes.new ≡ R.items bytes.old ++ scans_up_to picture.now presets.now (components picture.now.kind) }
    ensures room { length (R.items bytes.new) + 2 ≤ R.capacity bytes.new }
    ensures capacity { R.capacity bytes.new ≡ R.capacity bytes.old }
    ensures grown { R.Grown bytes.old bytes.new }
    ensures lines { lines.new ≡ lines.old }
{
    for component in 0..picture.form().kind.components() {
        put_scan_header(bytes, component + 1);
        if !put_scan(picture, presets, lines, bytes, usize::from(component)) {
            return false;
        }
    }
    true
}
