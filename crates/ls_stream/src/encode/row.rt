//! A row of a plane, from left to right (T.87 Annex A).
ghost use Rattle.std.specs.Prelude.{◌≡◌, ◌+◌, ◌-◌, ◌*◌, ◌==◌, ◌<◌, ◌≤◌, ◌++◌, ℕ, false, IsTrue, List, length, slice_index};
ghost use Rattle.ls_frame.specs.Parameters.{limit_of};
ghost use Rattle.ls_bits.specs.View.Room.{Fits};
ghost use Rattle.ls_coding.specs.Contexts.{is_run};
ghost use Rattle.ls_coding.specs.View.Mirrors.{IsMirrored};
ghost use Rattle.ls_stream.specs.Planes.{Plane, Span, row_from};
ghost use Rattle.ls_stream.specs.View.Coded.{all_from};
ghost use Rattle.ls_stream.specs.View.LineBuffers.{neighbours_in, AreLines, ArePadded, IsRunEnd};
ghost use Rattle.ls_stream.specs.View.Blocks.{mirrored_at, AreMirrored};

use crate::encode::coder::Coder;
use crate::lines::neighbours_in;
use ls_bits::Room;
use ls_coding::{Mirrored, mirror};
use ls_frame::Presets;

/// The number of samples whose contexts and predictions are computed ahead. For those inside a run that is in vain.
const BLOCK: usize = 64;

/// That number after a run that passed the end of its block, since another run is likely to follow.
const SHORT_BLOCK: usize = 16;

/// What `mirror` returns for the samples of a block, in one array per field, so that several can be computed at once.
#[derive(Drop)]
pub struct Block {
    pub contexts: [u16; BLOCK],
    pub predictions: [u16; BLOCK],
    pub samples: [u16; BLOCK],
}

/// Codes a row, given its line and the line above, each padded by one place on the left and on the right.
pub fn code_row<R: Room>(coder: &mut Coder<R>, above: &[u16], line: &[u16], width: usize)
    requires lines { ArePadded coder.old.state.parameters.maxval width above.now line.now }
    requires narrow { width ≤ 65535 }
    requires uninterrupted { coder.old.state.interrupted ≡ false }
    requires room { Fits (length coder.old.bits + limit_of coder.old.state.parameters.maxval * width) coder.old.capacity_left }
    ensures row { (plane : Plane) (i : ℕ) → plane.width ≡ width → AreLines plane i above.now line.now → (more : List Span)
        → all_from plane coder.new.bits coder.new.state more
        ≡ all_from plane coder.old.bits coder.old.state (row_from plane i 0 ++ more) }
    ensures cost { length coder.new.bits ≤ length coder.old.bits + limit_of coder.old.state.parameters.maxval * width }
    ensures uninterrupted { coder.new.state.interrupted ≡ false }
    ensures parameters { coder.new.state.parameters ≡ coder.old.state.parameters }
    ensures front { coder.new.front ≡ coder.old.front }
    ensures room { coder.new.capacity_left ≡ coder.old.capacity_left }
    ensures grown { R.Grown coder.old.room coder.new.room }
{
    let mut block = Block {
        contexts: [0; BLOCK],
        predictions: [0; BLOCK],
        samples: [0; BLOCK],
    };
    let mut column = 0;
    let mut size = BLOCK;
    'columns: while column < width {
        let end = (column + size).min(width);
        look_ahead(coder.presets(), above, line, &mut block, column, end);
        column = code_block(coder, above, line, &block, width, column, end);
        size = if column > end { SHORT_BLOCK } else { BLOCK };
    }
}

/// Codes the spans that begin in the columns from `start` up to `end`, whose block this is. Returns the column where
/// the next span begins; if the last one reaches the line's end, the width or one more.
fn code_block<R: Room>(
    coder: &mut Coder<R>,
    above: &[u16],
    line: &[u16],
    block: &Block,
    width: usize,
    start: usize,
    end: usize,
) -> usize
    requires lines { ArePadded coder.old.state.parameters.maxval width above.now line.now }
    requires block { AreMirrored coder.old.state.parameters start end above.now line.now block.now }
    requires short { end ≤ start + 64 }
    requires some { start < end }
    requires inside { end ≤ width }
    requires narrow { width ≤ 65535 }
    requires uninterrupted { coder.old.state.interrupted ≡ false }
    requires room { Fits (length coder.old.bits + limit_of coder.old.state.parameters.maxval * (width - start)) coder.old.capacity_left }
    ensures block { (plane : Plane) (i : ℕ) → plane.width ≡ width → AreLines plane i above.now line.now → (more : List Span)
        → all_from plane coder.new.bits coder.new.state (row_from plane i result ++ more)
        ≡ all_from plane coder.old.bits coder.old.state (row_from plane i start ++ more) }
    ensures next { start < result }
    ensures cost { length coder.new.bits + limit_of coder.old.state.parameters.maxval * (width - result)
        ≤ length coder.old.bits + limit_of coder.old.state.parameters.maxval * (width - start) }
    ensures uninterrupted { coder.new.state.interrupted ≡ false }
    ensures parameters { coder.new.state.parameters ≡ coder.old.state.parameters }
    ensures front { coder.new.front ≡ coder.old.front }
    ensures room { coder.new.capacity_left ≡ coder.old.capacity_left }
    ensures grown { R.Grown coder.old.room coder.new.room }
{
    let mut column = start;
    'spans: while column < end {
        let mirrored = mirrored_at(block, column - start);
        column = code_span(coder, mirrored, above, line, width, column);
    }
    column
}

/// Codes a sample in regular mode, or a run and the sample that interrupts it. Returns the column after it; after a run
/// up to the line's end one more than the width.
fn code_span<R: Room>(
    coder: &mut Coder<R>,
    mirrored: Mirrored,
    above: &[u16],
    line: &[u16],
    width: usize,
    column: usize,
) -> usize
    requires mirrored { IsMirrored coder.old.state.parameters (neighbours_in above.now line.now column)
        (slice_index line.now (column + 1)) mirrored }
    requires mode { (mirrored.context == 0) ≡ is_run (neighbours_in above.now line.now column) }
    requires lines { ArePadded coder.old.state.parameters.maxval width above.now line.now }
    requires inside { column < width }
    requires narrow { width ≤ 65535 }
    requires uninterrupted { coder.old.state.interrupted ≡ false }
    requires room { Fits (length coder.old.bits + limit_of coder.old.state.parameters.maxval * (width - column)) coder.old.capacity_left }
    ensures span { (plane : Plane) (i : ℕ) → plane.width ≡ width → AreLines plane i above.now line.now → (more : List Span)
        → all_from plane coder.new.bits coder.new.state (row_from plane i result ++ more)
        ≡ all_from plane coder.old.bits coder.old.state (row_from plane i column ++ more) }
    ensures next { column < result }
    ensures cost { length coder.new.bits + limit_of coder.old.state.parameters.maxval * (width - result)
        ≤ length coder.old.bits + limit_of coder.old.state.parameters.maxval * (width - column) }
    ensures uninterrupted { coder.new.state.interrupted ≡ false }
    ensures parameters { coder.new.state.parameters ≡ coder.old.state.parameters }
    ensures front { coder.new.front ≡ coder.old.front }
    ensures room { coder.new.capacity_left ≡ coder.old.capacity_left }
    ensures grown { R.Grown coder.old.room coder.new.room }
{
    if mirrored.context != 0 {
        coder.code_sample(mirrored);
        return column + 1;
    }
    let end = run_end(line, width, column);
    let count = (end - column) as u32;
    if end == width {
        coder.code_run_to_end(count);
        return end + 1;
    }
    let around = neighbours_in(above, line, end);
    coder.code_interrupted_run(count, &around, line[end + 1]);
    end + 1
}

/// Fills a block for the samples from column `start` up to `end`.
fn look_ahead(
    presets: &Presets,
    above: &[u16],
    line: &[u16],
    block: &mut Block,
    start: usize,
    end: usize,
)
    requires above { end + 2 ≤ length above.now }
    requires line { end < length line.now }
    requires above_small { (k : ℕ) → slice_index above.now k ≤ presets.now.maxval }
    requires line_small { (k : ℕ) → slice_index line.now k ≤ presets.now.maxval }
    requires short { end ≤ start + 64 }
    ensures { AreMirrored presets.now start end above.now line.now block.new }
{
    for column in start..end {
        let neighbours = neighbours_in(above, line, column);
        let mirrored = mirror(presets, &neighbours, line[column + 1]);
        block.contexts[column - start] = mirrored.context;
        block.predictions[column - start] = mirrored.prediction;
        block.samples[column - start] = mirrored.sample;
    }
}

/// The entry of a block at a place.
fn mirrored_at(block: &Block, place: usize) -> Mirrored
    requires { place < 64 }
    ensures { result ≡ mirrored_at block.now place }
{
    Mirrored {
        context: block.contexts[place],
        prediction: block.predictions[place],
        sample: block.samples[place],
    }
}

/// The end of a run that begins at `column`: the first column from there on whose sample differs from the one to the
/// left of `column`, or the width.
fn run_end(line: &[u16], width: usize, column: usize) -> usize
    requires line { length line.now ≡ width + 2 }
    requires inside { column < width }
    ensures { IsRunEnd line.now width column result }
{
    let value = line[column];
    let mut end = column;
    'blocks: while end + 8 <= width && are_eight(line, end + 1, value) {
        end += 8;
    }
    'samples: while end < width && line[end + 1] == value {
        end += 1;
    }
    end
}

/// Whether the eight samples from a place on all have this value.
fn are_eight(line: &[u16], place: usize, value: u16) -> bool
    requires { place + 8 ≤ length line.now }
    ensures { IsTrue result → (k : ℕ) → k < 8 → slice_index line.now (place + k) ≡ value }
{
    let mut same = true;
    for k in 0..8 {
        same &= line[place + k] == value;
    }
    same
}
