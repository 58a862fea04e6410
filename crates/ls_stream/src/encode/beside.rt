//! Encoding the scans of a frame side by side.
ghost use Rattle.std.specs.Prelude.{◌≡◌, ◌^◌, ◌<◌, IfOk, length};
ghost use Rattle.ls_frame.specs.declared.frame.Kind.TheVariants as kind;
ghost use Rattle.ls_frame.specs.Picture.{IsFrame, components};
ghost use Rattle.ls_stream.specs.Layout.{codestream, scan_of};

use crate::arranged::ArrangedView;
use crate::buffers::Lines;
use crate::encode::scan::put_scan;
use crate::encode::{encode_with, picture_bound, scan_bound, view_of};
use crate::marker::Marker;
use crate::segments::write::{
    put_frame_header, put_marker, put_presets_if_needed, put_scan_header,
};
use ls_frame::{Frame, Kind, Presets};
use std::alloc::{AllocError, Global};
use std::thread;
use std::thread::Threads;

/// The fewest samples of a frame whose scans are coded side by side: of fewer, a thread takes longer to start than a
/// scan to code.
const FEWEST_SAMPLES: usize = 49_152;

/// As `encode_with`, but the three scans of a colour frame are coded side by side: two by threads of their own, or by the
/// caller's if no thread can be started. Those of a frame of fewer than 128 by 128 samples are coded one after the other.
///
/// Its only error is `AllocError`. Where scans are coded side by side it allocates for each the bound of its data and two
/// lines, and in the end `code_bound` bytes.
pub fn encode_side_by_side<R: Threads>(
    rt: &R,
    alloc: Global,
    frame: &Frame,
    presets: &Presets,
) -> Result<Vec<u8>, AllocError>
    requires maxval { presets.now.maxval ≡ frame.now.maxval }
    ensures bytes { IfOk result (λ bytes. bytes.items ≡ codestream frame.now presets.now) }
    ensures short { IfOk result (λ bytes. length bytes.items < 2 ^ 32) }
{
    match frame.kind() {
        Kind::Color if frame.samples().len() >= FEWEST_SAMPLES => {
            encode_color(rt, alloc, frame, presets)
        }
        _ => encode_with(alloc, frame, presets),
    }
}

/// Codes the scans of a colour frame side by side.
fn encode_color<R: Threads>(
    rt: &R,
    alloc: Global,
    frame: &Frame,
    presets: &Presets,
) -> Result<Vec<u8>, AllocError>
    requires maxval { presets.now.maxval ≡ frame.now.maxval }
    requires color { frame.now.kind ≡ kind.Color }
    ensures bytes { IfOk result (λ bytes. bytes.items ≡ codestream frame.now presets.now) }
    ensures short { IfOk result (λ bytes. length bytes.items < 2 ^ 32) }
{
    let (first, (second, third)) = thread::join(
        rt,
        move || code_scan(alloc, frame, presets, 0),
        move || code_last_scans(rt, alloc, frame, presets),
    );
    joined(alloc, &view_of(frame), presets, &first?, &second?, &third?)
}

/// The codestream of a colour frame with these scans.
fn joined(
    alloc: Global,
    picture: &ArrangedView,
    presets: &Presets,
    first: &[u8],
    second: &[u8],
    third: &[u8],
) -> Result<Vec<u8>, AllocError>
    requires maxval { presets.now.maxval ≡ picture.now.maxval }
    requires frame { IsFrame picture.now }
    requires color { picture.now.kind ≡ kind.Color }
    requires first { first.now ≡ scan_of picture.now presets.now 0 }
    requires second { second.now ≡ scan_of picture.now presets.now 1 }
    requires third { third.now ≡ scan_of picture.now presets.now 2 }
    ensures bytes { IfOk result (λ bytes. bytes.items ≡ codestream picture.now presets.now) }
    ensures short { IfOk result (λ bytes. length bytes.items < 2 ^ 32) }
{
    let capacity = picture_bound(picture, presets) as usize;
    let mut bytes = Vec::with_capacity(alloc, capacity)?;
    put_marker(&mut bytes, Marker::StartOfImage);
    put_frame_header(&mut bytes, picture);
    put_presets_if_needed(&mut bytes, presets);
    bytes.extend_from_slice(first)?;
    bytes.extend_from_slice(second)?;
    bytes.extend_from_slice(third)?;
    bytes.extend_from_slice(&[0xFF, 0xD9])?;
    Ok(bytes)
}

/// The second and the third scan of a colour frame, coded side by side.
fn code_last_scans<R: Threads>(
    rt: &R,
    alloc: Global,
    frame: &Frame,
    presets: &Presets,
) -> (Result<Vec<u8>, AllocError>, Result<Vec<u8>, AllocError>)
    requires maxval { presets.now.maxval ≡ frame.now.maxval }
    requires color { frame.now.kind ≡ kind.Color }
    ensures second { IfOk result.0 (λ scan. scan.items ≡ scan_of frame.now presets.now 1) }
    ensures third { IfOk result.1 (λ scan. scan.items ≡ scan_of frame.now presets.now 2) }
{
    thread::join(
        rt,
        move || code_scan(alloc, frame, presets, 1),
        move || code_scan(alloc, frame, presets, 2),
    )
}

/// A component's scan: its header and its data.
fn code_scan(
    alloc: Global,
    frame: &Frame,
    presets: &Presets,
    component: u8,
) -> Result<Vec<u8>, AllocError>
    requires maxval { presets.now.maxval ≡ frame.now.maxval }
    requires component { component < components frame.now.kind }
    ensures { IfOk result (λ scan. scan.items ≡ scan_of frame.now presets.now component) }
{
    let view = view_of(frame);
    let picture = &view;
    let capacity = 10 + scan_bound(picture, presets) as usize;
    let mut bytes = Vec::with_capacity(alloc, capacity)?;
    let mut lines = Lines::new(alloc, picture.form().width)?;
    put_scan_header(&mut bytes, component + 1);
    let place = usize::from(component);
    let _frame = put_scan(picture, presets, &mut lines, &mut bytes, place);
    Ok(bytes)
}
