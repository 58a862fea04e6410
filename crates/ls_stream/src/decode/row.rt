//! A row of a plane, decoded from left to right (T.87 Annex A).
ghost use Rattle.std.specs.Prelude.{◌≡◌, ◌+◌, ◌-◌, ◌<◌, ◌≤◌, ℕ, true, false, length, slice_index, IfOk, IfErr};
ghost use Rattle.ls_bits.specs.View.Plain.{bits_at, IsAt};
ghost use Rattle.ls_coding.specs.Contexts.{is_run};
ghost use Rattle.ls_stream.specs.View.LineBuffers.{neighbours_in, ArePadded};
ghost use Rattle.ls_stream.specs.View.Decoding.{place, ReadsOn, ReadsNoFurther, AreRepeated, AreAbove, from_above, IsAbove};

use crate::decode::decoder::Decoder;
use crate::lines::{neighbours_in, neighbours_of};
use ls_bits::{BitPlace, CodeFault};
use ls_coding::{half_context, median_by};
use ls_frame::Presets;

/// The number of samples for which the line above is evaluated ahead. For those inside a run that is in vain.
const BLOCK: usize = 64;

/// That number after a run that passed the end of its block, since another run is likely to follow.
const SHORT_BLOCK: usize = 16;

/// What the line above decides of the samples of a block, in one array per field, so that several can be computed at
/// once.
#[derive(Drop)]
pub struct Above {
    /// The half of each context that the line above decides.
    pub halves: [i16; BLOCK],
    /// Rb - Rc, or 0 if that is negative.
    pub rises: [u16; BLOCK],
    /// Rc - Rb, or 0 if that is negative.
    pub falls: [u16; BLOCK],
}

/// The entry of `Above` for one sample.
#[derive(Clone, Copy)]
pub struct FromAbove {
    pub half: i16,
    pub rise: u16,
    pub fall: u16,
}

/// How far a row is decoded: the next column, the sample to the left of it, and the place of the next bit. These stay
/// in registers from sample to sample.
#[derive(Clone, Copy)]
struct Reached {
    column: usize,
    left: u16,
    bits: BitPlace,
}

/// Decodes a row into its line, whose padding on the left is filled before. `above` is the line above it.
pub fn decode_row(
    decoder: &mut Decoder,
    above: &[u16],
    line: &mut [u16],
    width: usize,
) -> Result<(), CodeFault>
    requires lines { ArePadded decoder.old.state.parameters.maxval width above.now line.old }
    requires narrow { width ≤ 65535 }
    requires uninterrupted { decoder.old.state.interrupted ≡ false }
    ensures on { IfOk result (λ _. ReadsOn width above.now
        (place 0 line.old decoder.old.state decoder.old.bits) (place width line.new decoder.new.state decoder.new.bits)) }
    ensures stops { IfErr result (λ fault. ReadsNoFurther width above.now (place 0 line.old decoder.old.state decoder.old.bits) fault) }
{
    let mut block = Above {
        halves: [0; BLOCK],
        rises: [0; BLOCK],
        falls: [0; BLOCK],
    };
    let mut column = 0;
    let mut size = BLOCK;
    'columns: while column < width {
        let end = (column + size).min(width);
        look_above(decoder.presets(), above, &mut block, column, end);
        column = decode_block(decoder, above, line, &block, width, column, end)?;
        size = if column > end { SHORT_BLOCK } else { BLOCK };
    }
    Ok(())
}

/// Fills a block for the samples from column `start` up to `end`.
fn look_above(presets: &Presets, above: &[u16], block: &mut Above, start: usize, end: usize)
    requires above { end + 2 ≤ length above.now }
    requires short { end ≤ start + 64 }
    ensures { AreAbove presets.now start end above.now block.new }
{
    for column in start..end {
        let b = above[column + 1];
        let c = above[column];
        block.halves[column - start] = half_context(presets, b, c, above[column + 2]);
        block.rises[column - start] = b.saturating_sub(c);
        block.falls[column - start] = c.saturating_sub(b);
    }
}

/// The entry of a block at a place.
fn from_above(block: &Above, place: usize) -> FromAbove
    requires { place < 64 }
    ensures { result ≡ from_above block.now place }
{
    FromAbove {
        half: block.halves[place],
        rise: block.rises[place],
        fall: block.falls[place],
    }
}

/// Decodes the spans that begin in the columns from `start` up to `end`, whose block this is. Returns the column after
/// them.
fn decode_block(
    decoder: &mut Decoder,
    above: &[u16],
    line: &mut [u16],
    block: &Above,
    width: usize,
    start: usize,
    end: usize,
) -> Result<usize, CodeFault>
    requires lines { ArePadded decoder.old.state.parameters.maxval width above.now line.old }
    requires block { AreAbove decoder.old.state.parameters start end above.now block.now }
    requires short { end ≤ start + 64 }
    requires some { start < end }
    requires inside { end ≤ width }
    requires narrow { width ≤ 65535 }
    requires uninterrupted { decoder.old.state.interrupted ≡ false }
    ensures next { IfOk result (λ next. (start < next) × (next ≤ width)) }
    ensures on { IfOk result (λ next. ReadsOn width above.now
        (place start line.old decoder.old.state decoder.old.bits) (place next line.new decoder.new.state decoder.new.bits)) }
    ensures stops { IfErr result (λ fault. ReadsNoFurther width above.now (place start line.old decoder.old.state decoder.old.bits) fault) }
{
    let mut reached = Reached {
        column: start,
        left: line[start],
        bits: decoder.place(),
    };
    'spans: while reached.column < end {
        let from = from_above(block, reached.column - start);
        reached = decode_span(decoder, reached, from, above, line, width)?;
    }
    decoder.go_to(reached.bits);
    Ok(reached.column)
}

/// Decodes the span at the column that was reached. Returns how far the row is decoded then. `from` is the block's
/// entry for the column. Bits are read at the place in `reached`; the decoder's own place has no meaning before and
/// after.
#[inline(always)]
fn decode_span(
    decoder: &mut Decoder,
    reached: Reached,
    from: FromAbove,
    above: &[u16],
    line: &mut [u16],
    width: usize,
) -> Result<Reached, CodeFault>
    requires bits { IsAt decoder.old.source reached.bits }
    requires left { reached.left ≡ slice_index line.old reached.column }
    requires from { IsAbove decoder.old.state.parameters above.now reached.column from }
    requires lines { ArePadded decoder.old.state.parameters.maxval width above.now line.old }
    requires inside { reached.column < width }
    requires narrow { width ≤ 65535 }
    requires uninterrupted { decoder.old.state.interrupted ≡ false }
    ensures bits { IfOk result (λ next. IsAt decoder.new.source next.bits) }
    ensures left { IfOk result (λ next. next.left ≡ slice_index line.new next.column) }
    ensures next { IfOk result (λ next. (reached.column < next.column) × (next.column ≤ width)) }
    ensures on { IfOk result (λ next. ReadsOn width above.now
        (place reached.column line.old decoder.old.state (bits_at decoder.old.source reached.bits))
        (place next.column line.new decoder.new.state (bits_at decoder.new.source next.bits))) }
    ensures stops { IfErr result (λ fault. ReadsNoFurther width above.now
        (place reached.column line.old decoder.old.state (bits_at decoder.old.source reached.bits)) fault) }
{
    let column = reached.column;
    let mut bits = reached.bits;
    let neighbours = neighbours_of(reached.left, above, column);
    let context = decoder.context_of(from.half, &neighbours);
    if context != 0 {
        let middle = median_by(neighbours.a, neighbours.b, from.rise, from.fall);
        let sample = decoder.decode_sample(&mut bits, context, middle, &neighbours)?;
        line[column + 1] = sample;
        return Ok(Reached {
            column: column + 1,
            left: sample,
            bits,
        });
    }
    decoder.go_to(bits);
    let next = decode_run_span(decoder, above, line, width, column)?;
    Ok(Reached {
        column: next,
        left: line[next],
        bits: decoder.place(),
    })
}

/// Decodes a run that begins at a column, and the sample that interrupts it if there is one. Returns the column after
/// them.
fn decode_run_span(
    decoder: &mut Decoder,
    above: &[u16],
    line: &mut [u16],
    width: usize,
    column: usize,
) -> Result<usize, CodeFault>
    requires run { is_run (neighbours_in above.now line.old column) ≡ true }
    requires lines { ArePadded decoder.old.state.parameters.maxval width above.now line.old }
    requires inside { column < width }
    requires narrow { width ≤ 65535 }
    requires uninterrupted { decoder.old.state.interrupted ≡ false }
    ensures next { IfOk result (λ next. (column < next) × (next ≤ width)) }
    ensures on { IfOk result (λ next. ReadsOn width above.now
        (place column line.old decoder.old.state decoder.old.bits) (place next line.new decoder.new.state decoder.new.bits)) }
    ensures stops { IfErr result (λ fault. ReadsNoFurther width above.now (place column line.old decoder.old.state decoder.old.bits) fault) }
{
    let run = decoder.decode_run((width - column) as u32)?;
    let end = column + run.count as usize;
    repeat_left(line, column, end);
    if !run.interrupted {
        return Ok(end);
    }
    let around = neighbours_in(above, line, end);
    line[end + 1] = decoder.decode_interruption(&around)?;
    Ok(end + 1)
}

/// Copies the sample to the left of a column into each column from it up to `end`: sixteen at once, and so past `end`
/// too, if the line is long enough.
fn repeat_left(line: &mut [u16], column: usize, end: usize)
    requires order { column ≤ end }
    requires inside { end < length line.old }
    ensures { AreRepeated line.old column end line.new }
{
    let value = line[column];
    if end + 16 > line.len() {
        for place in column + 1..end + 1 {
            line[place] = value;
        }
        return;
    }
    let mut place = column + 1;
    'sixteens: while place <= end {
        put_sixteen(line, place, value);
        place += 16;
    }
}

/// Writes a sample into sixteen places from `start` on.
fn put_sixteen(line: &mut [u16], start: usize, value: u16)
    requires { start + 16 ≤ length line.old }
    ensures whole { length line.new ≡ length line.old }
    ensures inside { (k : ℕ) → start ≤ k → k < start + 16 → slice_index line.new k ≡ value }
    ensures before { (k : ℕ) → k < start → slice_index line.new k ≡ slice_index line.old k }
    ensures after { (k : ℕ) → start + 16 ≤ k → slice_index line.new k ≡ slice_index line.old k }
{
    line[start..start + 16].copy_from_slice(&[value; 16]);
}
