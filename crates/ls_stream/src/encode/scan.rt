//! The scan of one component: the rows of its plane, coded and stuffed (T.87 Annex A).
ghost use Rattle.std.specs.Prelude.{◌≡◌, ◌+◌, ◌*◌, ◌/◌, ◌^◌, ◌<◌, ◌≤◌, ◌++◌, ℕ, true, false, [], List, length, slice_index, vec_len};
ghost use Rattle.ls_frame.specs.Picture.{IsFrame, components};
ghost use Rattle.ls_frame.specs.Parameters.{limit_of};
ghost use Rattle.ls_frame.specs.View.Numbers.{numbers};
ghost use Rattle.ls_bits.specs.View.Room.{Fits};
ghost use Rattle.ls_bits.specs.Stuffing.{stuff};
ghost use Rattle.ls_coding.specs.View.States.{state_of};
ghost use Rattle.ls_stream.specs.Planes.{Span, rows_from, plane_bits};
ghost use Rattle.ls_stream.specs.Components.{component_plane, plane_of};
ghost use Rattle.ls_stream.specs.View.Coded.{all_from};
ghost use Rattle.ls_stream.specs.Layout.{scan_bound};

use crate::arranged::ArrangedView;
use crate::buffers::Lines;
use crate::encode::coder::Coder;
use crate::encode::row::code_row;
use crate::lines::{clear, fill_line};
use crate::shape::Shape;
use ls_bits::{Room, take_room};
use ls_coding::State;
use ls_frame::{Presets, Samples};

/// Appends the data of a component's scan to a `Room` that has capacity left for it. Stops and returns false at a row
/// of the component with a sample over maxval.
pub fn put_scan<R: Room>(
    picture: &ArrangedView,
    presets: &Presets,
    lines: &mut Lines,
    bytes: &mut R,
    component: usize,
) -> bool
    requires maxval { presets.now.maxval ≡ picture.now.maxval }
    requires width { picture.now.width ≤ lines.old }
    requires component { component < components picture.now.kind }
    requires room { length (R.items bytes.old) + scan_bound picture.now presets.now ≤ R.capacity bytes.old }
    ensures within { result ≡ true → (k : ℕ) → slice_index (plane_of picture.now component).samples k ≤ picture.now.maxval }
    ensures over { result ≡ false → IsFrame picture.now → ⊥ }
    ensures bytes { result ≡ true → R.items bytes.new ≡ R.items bytes.old ++ stuff (plane_bits presets.now (plane_of picture.now component)) }
    ensures short { length (R.items bytes.new) ≤ length (R.items bytes.old) + scan_bound picture.now presets.now }
    ensures capacity { R.capacity bytes.new ≡ R.capacity bytes.old }
    ensures grown { R.Grown bytes.old bytes.new }
    ensures lines { lines.new ≡ lines.old }
{
    let mut state = State::new(presets);
    let mut coder = Coder::new(presets, &mut state, take_room(bytes));
    let within = code_plane(
        &mut coder,
        picture,
        &mut lines.above,
        &mut lines.line,
        component,
    );
    *bytes = coder.finish();
    within
}

/// Codes a component's plane from a scan's start. Stops and returns false at a row with a sample over maxval. `above`
/// and `line` are buffers, at least two places longer than a row.
fn code_plane<R: Room>(
    coder: &mut Coder<R>,
    picture: &ArrangedView,
    above: &mut Vec<u16>,
    line: &mut Vec<u16>,
    component: usize,
) -> bool
    requires maxval { coder.old.state.parameters.maxval ≡ picture.now.maxval }
    requires above { picture.now.width + 2 ≤ vec_len above.old }
    requires line { picture.now.width + 2 ≤ vec_len line.old }
    requires component { component < components picture.now.kind }
    requires state { coder.old.state ≡ state_of coder.old.state.parameters [] }
    requires empty { coder.old.bits ≡ [] }
    requires room { Fits (limit_of coder.old.state.parameters.maxval * (picture.now.width * picture.now.height)) coder.old.capacity_left }
    ensures within { result ≡ true → (k : ℕ) → slice_index (plane_of picture.now component).samples k ≤ picture.now.maxval }
    ensures over { result ≡ false → IsFrame picture.now → ⊥ }
    ensures bits { result ≡ true → coder.new.bits ≡ plane_bits coder.old.state.parameters (plane_of picture.now component) }
    ensures cost { length coder.new.bits ≤ limit_of coder.old.state.parameters.maxval * (picture.now.width * picture.now.height) }
    ensures front { coder.new.front ≡ coder.old.front }
    ensures room { coder.new.capacity_left ≡ coder.old.capacity_left }
    ensures grown { R.Grown coder.old.room coder.new.room }
    ensures above { vec_len above.new ≡ vec_len above.old }
    ensures line { vec_len line.new ≡ vec_len line.old }
{
    let view = picture.component(component);
    let places = view.shape.width + 2;
    code_rows(
        coder,
        &mut above[..places],
        &mut line[..places],
        view.samples,
        view.shape,
        view.component,
    )
}

/// Codes the rows of one component, with `above` and `line` as line buffers. Stops and returns false before a row with
/// a sample over maxval. A row is checked just before it is coded, when it is in the cache.
fn code_rows<R: Room>(
    coder: &mut Coder<R>,
    above: &mut [u16],
    line: &mut [u16],
    samples: Samples,
    shape: Shape,
    component: usize,
) -> bool
    requires above { length above.old ≡ shape.width + 2 }
    requires line { length line.old ≡ shape.width + 2 }
    requires some { 1 ≤ shape.width }
    requires narrow { shape.width ≤ 65535 }
    requires samples { length (numbers samples) ≡ shape.height * (shape.width * shape.components) }
    requires component { component < shape.components }
    requires few { shape.width * shape.components < 2 ^ 32 }
    requires uninterrupted { coder.old.state.interrupted ≡ false }
    requires room { Fits (length coder.old.bits + limit_of coder.old.state.parameters.maxval * (shape.width * shape.height)) coder.old.capacity_left }
    ensures within { result ≡ true → (k : ℕ)
        → slice_index (component_plane shape.width shape.components component (numbers samples.entry)).samples k ≤ coder.old.state.parameters.maxval }
    ensures over { result ≡ false → ((k : ℕ) → slice_index (numbers samples.entry) k ≤ coder.old.state.parameters.maxval) → ⊥ }
    ensures rows { let plane = component_plane shape.width shape.components component (numbers samples.entry) in result ≡ true → (more : List Span)
        → all_from plane coder.new.bits coder.new.state more
        ≡ all_from plane coder.old.bits coder.old.state (rows_from plane shape.height 0 ++ more) }
    ensures cost { length coder.new.bits ≤ length coder.old.bits + limit_of coder.old.state.parameters.maxval * (shape.width * shape.height) }
    ensures front { coder.new.front ≡ coder.old.front }
    ensures room { coder.new.capacity_left ≡ coder.old.capacity_left }
    ensures grown { R.Grown coder.old.room coder.new.room }
{
    let maxval = coder.presets().maxval();
    clear(above);
    for row in 0..shape.height {
        let pixels = row_of(samples, row, shape.height, shape.width * shape.components);
        fill_line(
            line,
            above,
            pixels,
            shape.width,
            shape.components,
            component,
        );
        if Samples::Words(line).first_above(maxval).is_some() {
            return false;
        }
        code_row(coder, above, line, shape.width);
        above.copy_from_slice(line);
    }
    true
}

/// One of `height` rows of samples, of `stride` samples each.
fn row_of(samples: Samples<'_>, row: usize, height: usize, stride: usize) -> Samples<'_>
    requires samples { length (numbers samples) ≡ height * stride }
    requires row { row < height }
    ensures len { length (numbers result) ≡ stride }
    ensures samples { (k : ℕ) → k < stride → slice_index (numbers result) k ≡ slice_index (numbers samples.entry) (row * stride + k) }
{
    samples.part(row * stride, stride)
}
