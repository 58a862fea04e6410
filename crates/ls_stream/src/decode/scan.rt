//! The scan of one component: the rows of its plane, decoded from its data (T.87 Annex A).
ghost use Rattle.std.specs.Prelude.{◌≡◌, ◌≢◌, ◌↔◌, ◌+◌, ◌*◌, ◌^◌, ◌<◌, ◌≤◌, ◌++◌, ℕ, false, Bool, List, length, slice_index, vec_len, [], IfOk, IfErr};
ghost use Rattle.ls_bits.specs.Stuffing.{unstuff};
ghost use Rattle.ls_bits.specs.Data.{IsData};
ghost use Rattle.ls_coding.specs.View.States.{state_of};
ghost use Rattle.ls_stream.specs.Planes.{Plane, IsSamplePlane, spans, plane_bits};
ghost use Rattle.ls_stream.specs.Components.{component_plane};
ghost use Rattle.ls_stream.specs.Grammar.{IsCoded};
ghost use Rattle.ls_stream.specs.View.BitFaults.{BreaksSpans, BreaksPlane};
ghost use Rattle.ls_stream.specs.View.Decoding.{RowsMayBeRead, ScanBreaks};

use crate::buffers::Lines;
use crate::decode::decoder::Decoder;
use crate::decode::row::decode_row;
use crate::lines::clear;
use crate::shape::Shape;
use ls_bits::{BitSource, CodeFault};
use ls_coding::{Regions, State, SureZeros};
use ls_frame::{Presets, Sample};

/// Why a scan's data isn't that of a plane.
#[derive(Clone, Copy)]
pub enum ScanFault {
    /// The bits end too early, or go on as those of no plane do.
    Code(CodeFault),
    /// 16 bits or more follow those of the plane.
    LeftoverBits,
}

/// Decodes the plane of a component from a scan's data, into the component's places among the samples.
pub fn decode_scan<S: Sample>(
    presets: &Presets,
    regions: &Regions,
    bytes: &[u8],
    lines: &mut Lines,
    samples: &mut [S],
    shape: Shape,
    component: usize,
) -> Result<(), ScanFault>
    requires is_data { IsData bytes.now }
    requires regions { regions.now ≡ presets.now }
    requires width { shape.width ≤ lines.old }
    requires some { 1 ≤ shape.width }
    requires narrow { shape.width ≤ 65535 }
    requires fits { presets.now.maxval ≤ S.most }
    requires samples { length (S.numbers samples.old) ≡ shape.height * shape.width * shape.components }
    requires few { shape.height * shape.width * shape.components < 2 ^ 32 }
    requires small { (k : ℕ) → slice_index (S.numbers samples.old) k ≤ presets.now.maxval }
    requires component { component < shape.components }
    ensures coded { IfOk result (λ _. IsCoded presets.now (component_plane shape.width shape.components component (S.numbers samples.new)) bytes.now) }
    ensures only { IfOk result (λ _. (plane : Plane) → IsSamplePlane presets.now.maxval shape.width shape.height plane
        → IsCoded presets.now plane bytes.now → plane ≡ component_plane shape.width shape.components component (S.numbers samples.new)) }
    ensures none { IfErr result (λ _. (plane : Plane) → IsSamplePlane presets.now.maxval shape.width shape.height plane
        → IsCoded presets.now plane bytes.now → ⊥) }
    ensures fault { IfErr result (λ fault. ScanBreaks presets.now shape.width shape.height (unstuff bytes.now) fault) }
    ensures others { (k other : ℕ) → other < shape.components → other ≢ component
        → slice_index (S.numbers samples.new) (k * shape.components + other) ≡ slice_index (S.numbers samples.old) (k * shape.components + other) }
    ensures small { (k : ℕ) → slice_index (S.numbers samples.new) k ≤ presets.now.maxval }
    ensures len { length (S.numbers samples.new) ≡ length (S.numbers samples.old) }
    ensures lines { lines.new ≡ lines.old }
{
    let mut state = State::new(presets);
    let sure = SureZeros::new(presets);
    let mut source = BitSource::new(bytes);
    let mut decoder = Decoder::new(presets, regions, &sure, &mut state, &mut source);
    let read = decode_plane(
        &mut decoder,
        &mut lines.above,
        &mut lines.line,
        samples,
        shape,
        component,
    );
    if let Err(fault) = read {
        return Err(ScanFault::Code(fault));
    }
    if decoder.left() >= 16 {
        return Err(ScanFault::LeftoverBits);
    }
    Ok(())
}

/// Decodes a component's plane from a scan's start. `above` and `line` are buffers, at least two places longer than a
/// row.
fn decode_plane<S: Sample>(
    decoder: &mut Decoder,
    above: &mut Vec<u16>,
    line: &mut Vec<u16>,
    samples: &mut [S],
    shape: Shape,
    component: usize,
) -> Result<(), CodeFault>
    requires above { shape.width + 2 ≤ vec_len above.old }
    requires line { shape.width + 2 ≤ vec_len line.old }
    requires some { 1 ≤ shape.width }
    requires narrow { shape.width ≤ 65535 }
    requires fits { decoder.old.state.parameters.maxval ≤ S.most }
    requires samples { length (S.numbers samples.old) ≡ shape.height * shape.width * shape.components }
    requires few { shape.height * shape.width * shape.components < 2 ^ 32 }
    requires small { (k : ℕ) → slice_index (S.numbers samples.old) k ≤ decoder.old.state.parameters.maxval }
    requires component { component < shape.components }
    requires state { decoder.old.state ≡ state_of decoder.old.state.parameters [] }
    ensures plane { IfOk result (λ _. decoder.old.bits
        ≡ plane_bits decoder.old.state.parameters (component_plane shape.width shape.components component (S.numbers samples.new)) ++ decoder.new.bits) }
    ensures only { IfOk result (λ _. (plane : Plane) → IsSamplePlane decoder.old.state.parameters.maxval shape.width shape.height plane → (rest : List Bool)
        → decoder.old.bits ≡ plane_bits decoder.old.state.parameters plane ++ rest
        → (plane ≡ component_plane shape.width shape.components component (S.numbers samples.new)) × (rest ≡ decoder.new.bits)) }
    ensures none { IfErr result (λ _. (plane : Plane) → IsSamplePlane decoder.old.state.parameters.maxval shape.width shape.height plane → (rest : List Bool)
        → decoder.old.bits ≡ plane_bits decoder.old.state.parameters plane ++ rest → ⊥) }
    ensures breaks { IfErr result (λ fault. BreaksPlane decoder.old.state.parameters shape.width shape.height decoder.old.bits fault) }
    ensures others { (k other : ℕ) → other < shape.components → other ≢ component
        → slice_index (S.numbers samples.new) (k * shape.components + other) ≡ slice_index (S.numbers samples.old) (k * shape.components + other) }
    ensures small { (k : ℕ) → slice_index (S.numbers samples.new) k ≤ decoder.old.state.parameters.maxval }
    ensures len { length (S.numbers samples.new) ≡ length (S.numbers samples.old) }
    ensures above { vec_len above.new ≡ vec_len above.old }
    ensures line { vec_len line.new ≡ vec_len line.old }
{
    let places = shape.width + 2;
    decode_rows(
        decoder,
        &mut above[..places],
        &mut line[..places],
        samples,
        shape,
        component,
    )
}

/// Decodes the rows of one component, with `above` and `line` as line buffers.
fn decode_rows<S: Sample>(
    decoder: &mut Decoder,
    above: &mut [u16],
    line: &mut [u16],
    samples: &mut [S],
    shape: Shape,
    component: usize,
) -> Result<(), CodeFault>
    requires above { length above.old ≡ shape.width + 2 }
    requires line { length line.old ≡ shape.width + 2 }
    requires some { 1 ≤ shape.width }
    requires narrow { shape.width ≤ 65535 }
    requires fits { decoder.old.state.parameters.maxval ≤ S.most }
    requires samples { length (S.numbers samples.old) ≡ shape.height * shape.width * shape.components }
    requires few { shape.height * shape.width * shape.components < 2 ^ 32 }
    requires small { (k : ℕ) → slice_index (S.numbers samples.old) k ≤ decoder.old.state.parameters.maxval }
    requires component { component < shape.components }
    requires uninterrupted { decoder.old.state.interrupted ≡ false }
    ensures rows { IfOk result (λ _. (plane : Plane) → IsSamplePlane decoder.old.state.parameters.maxval shape.width shape.height plane → (rest : List Bool)
        → RowsMayBeRead plane shape.height 0 shape.components component (S.numbers samples.old) decoder.old.state decoder.old.bits rest
        ↔ RowsMayBeRead plane shape.height shape.height shape.components component (S.numbers samples.new) decoder.new.state decoder.new.bits rest) }
    ensures none { IfErr result (λ _. (plane : Plane) → IsSamplePlane decoder.old.state.parameters.maxval shape.width shape.height plane → (rest : List Bool)
        → RowsMayBeRead plane shape.height 0 shape.components component (S.numbers samples.old) decoder.old.state decoder.old.bits rest → ⊥) }
    ensures breaks { IfErr result (λ fault. (plane : Plane) × IsSamplePlane decoder.old.state.parameters.maxval shape.width shape.height plane
        × BreaksSpans plane (spans plane) decoder.old.state decoder.old.bits fault) }
    ensures others { (k other : ℕ) → other < shape.components → other ≢ component
        → slice_index (S.numbers samples.new) (k * shape.components + other) ≡ slice_index (S.numbers samples.old) (k * shape.components + other) }
    ensures small { (k : ℕ) → slice_index (S.numbers samples.new) k ≤ decoder.old.state.parameters.maxval }
    ensures len { length (S.numbers samples.new) ≡ length (S.numbers samples.old) }
{
    clear(above);
    clear(line);
    for row in 0..shape.height {
        line[0] = above[1];
        decode_row(decoder, above, line, shape.width)?;
        line[shape.width + 1] = line[shape.width];
        store_row(samples, line, row, shape, component);
        above.copy_from_slice(line);
    }
    Ok(())
}

/// Stores a row, which is in a line from its second place on, into its places among the samples of all components.
fn store_row<S: Sample>(samples: &mut [S], line: &[u16], row: usize, shape: Shape, component: usize)
    requires line { length line.now ≡ shape.width + 2 }
    requires fits { (k : ℕ) → slice_index line.now k ≤ S.most }
    requires samples { length (S.numbers samples.old) ≡ shape.height * shape.width * shape.components }
    requires few { shape.height * shape.width * shape.components < 2 ^ 32 }
    requires row { row < shape.height }
    requires component { component < shape.components }
    ensures stored { (j : ℕ) → j < shape.width
        → slice_index (S.numbers samples.new) ((row * shape.width + j) * shape.components + component) ≡ slice_index line.now (j + 1) }
    ensures kept { (k : ℕ) → ((j : ℕ) → j < shape.width → k ≢ (row * shape.width + j) * shape.components + component)
        → slice_index (S.numbers samples.new) k ≡ slice_index (S.numbers samples.old) k }
    ensures len { length (S.numbers samples.new) ≡ length (S.numbers samples.old) }
{
    if shape.components == 1 {
        put_side_by_side(samples, line, row * shape.width, shape.width);
        return;
    }
    for column in 0..shape.width {
        let place = (row * shape.width + column) * shape.components + component;
        S::put(samples, place, line[column + 1]);
    }
}

/// Stores `count` samples, which are in a line from its second place on, into the places from `start` on, several at
/// once.
fn put_side_by_side<S: Sample>(samples: &mut [S], line: &[u16], start: usize, count: usize)
    requires line { count < length line.now }
    requires fits { (k : ℕ) → slice_index line.now k ≤ S.most }
    requires samples { start + count ≤ length (S.numbers samples.old) }
    requires few { start + count < 2 ^ 32 }
    ensures stored { (j : ℕ) → j < count → slice_index (S.numbers samples.new) (start + j) ≡ slice_index line.now (j + 1) }
    ensures kept { (k : ℕ) → ((j : ℕ) → j < count → k ≢ start + j) → slice_index (S.numbers samples.new) k ≡ slice_index (S.numbers samples.old) k }
    ensures len { length (S.numbers samples.new) ≡ length (S.numbers samples.old) }
{
    for column in 0..count {
        S::put(samples, start + column, line[column + 1]);
    }
}
