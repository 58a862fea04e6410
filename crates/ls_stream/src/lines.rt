//! Lines of a plane as a coder keeps them: padded by one place on the left and one on the right, so that every sample
//! has its neighbours (T.87 A.2.1) in its own line and in the line above.
ghost use Rattle.std.specs.Prelude.{◌≡◌, ◌+◌, ◌*◌, ◌<◌, ◌≤◌, ℕ, List, length, slice_index};
ghost use Rattle.ls_frame.specs.View.Numbers.{numbers};
ghost use Rattle.ls_stream.specs.View.LineBuffers.{neighbours_in};

use ls_coding::Neighbours;
use ls_frame::Samples;

/// The neighbours of the sample in a column (Ra, Rb, Rc and Rd), from two padded lines.
pub fn neighbours_in(above: &[u16], line: &[u16], column: usize) -> Neighbours
    requires above { column + 2 < length above.now }
    requires line { column < length line.now }
    ensures { result ≡ neighbours_in above.now line.now column }
{
    neighbours_of(line[column], above, column)
}

/// As `neighbours_in`, given the sample to the left (Ra).
#[inline(always)]
pub fn neighbours_of(left: u16, above: &[u16], column: usize) -> Neighbours
    requires { column + 2 < length above.now }
    ensures { (line : List ℕ) → left ≡ slice_index line column → result ≡ neighbours_in above.now line column }
{
    Neighbours {
        a: left,
        b: above[column + 1],
        c: above[column],
        d: above[column + 2],
    }
}

/// Fills `line` for the row below `above`: on the left the sample above the row's first one, then the row's samples of
/// one of `count` components, and on the right the last of them once more.
pub fn fill_line(
    line: &mut [u16],
    above: &[u16],
    row: Samples,
    width: usize,
    count: usize,
    component: usize,
)
    requires width { 1 ≤ width }
    requires line { length line.old ≡ width + 2 }
    requires above { length above.now ≡ width + 2 }
    requires row { length (numbers row) ≡ width * count }
    requires component { component < count }
    ensures left { slice_index line.new 0 ≡ slice_index above.now 1 }
    ensures samples { (k : ℕ) → k < width → slice_index line.new (k + 1) ≡ slice_index (numbers row.entry) (k * count + component) }
    ensures right { slice_index line.new (width + 1) ≡ slice_index line.new width }
{
    copy_component(line, row, width, count, component);
    line[0] = above[1];
    line[width + 1] = line[width];
}

/// Copies the samples of one of `count` components, from a row that is pixel by pixel, into a line from its second
/// place on.
fn copy_component(line: &mut [u16], row: Samples, width: usize, count: usize, component: usize)
    requires line { length line.old ≡ width + 2 }
    requires row { length (numbers row) ≡ width * count }
    requires component { component < count }
    ensures { (k : ℕ) → k < width → slice_index line.new (k + 1) ≡ slice_index (numbers row.entry) (k * count + component) }
{
    match row {
        Samples::Bytes(bytes) => copy_bytes(line, bytes, width, count, component),
        Samples::Words(words) => copy_words(line, words, width, count, component),
    }
}

/// `copy_component` for samples of 8 bits.
fn copy_bytes(line: &mut [u16], row: &[u8], width: usize, count: usize, component: usize)
    requires line { length line.old ≡ width + 2 }
    requires row { length row.now ≡ width * count }
    requires component { component < count }
    ensures { (k : ℕ) → k < width → slice_index line.new (k + 1) ≡ slice_index row.now (k * count + component) }
{
    for column in 0..width {
        line[column + 1] = u16::from(row[column * count + component]);
    }
}

/// `copy_component` for samples of 16 bits.
fn copy_words(line: &mut [u16], row: &[u16], width: usize, count: usize, component: usize)
    requires line { length line.old ≡ width + 2 }
    requires row { length row.now ≡ width * count }
    requires component { component < count }
    ensures { (k : ℕ) → k < width → slice_index line.new (k + 1) ≡ slice_index row.now (k * count + component) }
{
    if count == 1 {
        line[1..width + 1].copy_from_slice(row);
        return;
    }
    for column in 0..width {
        line[column + 1] = row[column * count + component];
    }
}

/// Sets each place to 0.
pub fn clear(line: &mut [u16])
    ensures { (k : ℕ) → k < length line.new → slice_index line.new k ≡ 0 }
{
    for place in line.iter_mut() {
        *place = 0;
    }
}
