//! A request to encode: a form, its coding parameters, and the layout of its rows.
ghost use Rattle.std.specs.Prelude.{◌≡◌, ◌≢◌, ◌*◌, ◌^◌, ◌<◌, ◌≤◌, true, false, None, Some, IfOk, MatchOption, MatchResult, take, drop};
ghost use Rattle.ls_frame.specs.Picture.{components, sample_count, most_samples};
ghost use Rattle.ls_frame.specs.Parameters.{preset_fault, IsLegal};
ghost use Rattle.ls_frame.specs.Tuning.{or_default};
ghost use Rattle.ls_frame.specs.View.Numbers.{numbers};
ghost use Rattle.ls_c.specs.Forms.{kind_of, is_sixteen_bits, form_refusal, request_refusal, rows_refusal, parameters, narrowed, row_of, height_of, stride_by, rows_of, reach_of};
ghost use Rattle.ls_c.specs.Requests.{IsRequest};

use crate::form::JlsrecForm;
use crate::refusal::Refusal;
use ls_frame::frame::MOST_SAMPLES;
use ls_frame::{Form, Kind, PresetFault, Presets, Samples};
use ls_stream::Arrangement;
use std::alloc::{AllocError, Global};

/// How a caller's samples are laid out.
#[derive(Clone, Copy)]
pub struct Layout {
    pub arrangement: Arrangement,
    /// The number of samples from the start of a row to that of the next, 0 for rows without gaps; `None` if a stride
    /// in bytes splits a sample. In planes each row is of one component, and the planes follow one another as their
    /// rows do.
    pub stride: Option<usize>,
}

impl Layout {
    ghost use Rattle.ls_c.specs.Forms.{by_pixels, by_planes};

    /// Samples in the order of pixels, with a stride in samples.
    pub fn by_pixels(stride: usize) -> Layout
        ensures { result ≡ by_pixels stride }
    {
        Layout {
            arrangement: Arrangement::Pixels,
            stride: Some(stride),
        }
    }

    /// Planes of samples of `size` bytes, with a stride in bytes.
    pub fn by_planes(size: usize, stride: usize) -> Layout
        requires { 0 < size }
        ensures { result ≡ by_planes size stride }
    {
        let whole = stride.is_multiple_of(size);
        Layout {
            arrangement: Arrangement::Planes,
            stride: if whole { Some(stride / size) } else { None },
        }
    }
}

/// The rows of a picture among a caller's samples.
#[derive(Clone, Copy)]
pub struct Rows {
    /// The number of samples in a row.
    pub row: usize,
    /// The number of samples from the start of a row to that of the next.
    pub stride: usize,
    pub height: usize,
}

/// What is to be encoded, without the samples.
#[derive(Clone, Copy)]
pub struct Request {
    pub form: Form,
    pub presets: Presets,
    pub rows: Rows,
}

/// Returns the form of the pictures that a `JlsrecForm` asks for. Fails with the first of `Components`, `Side`,
/// `TooManySamples` and `Maxval` that applies.
pub fn picture_form(form: &JlsrecForm) -> Result<Form, Refusal>
    ensures exactly { MatchResult result (λ _. form_refusal form.now ≡ None) (λ refused. form_refusal form.now ≡ Some refused) }
    ensures kind { IfOk result (λ asked. asked.kind ≡ kind_of form.now.components) }
    ensures width { IfOk result (λ asked. asked.width ≡ form.now.width) }
    ensures height { IfOk result (λ asked. asked.height ≡ form.now.height) }
    ensures maxval { IfOk result (λ asked. asked.maxval ≡ form.now.maxval) }
    ensures some_width { IfOk result (λ asked. 0 < asked.width) }
    ensures some_height { IfOk result (λ asked. 0 < asked.height) }
    ensures some_maxval { IfOk result (λ asked. 0 < asked.maxval) }
    ensures few { IfOk result (λ asked. sample_count asked.kind asked.width asked.height ≤ most_samples) }
{
    let kind = match form.components {
        1 => Kind::Gray,
        3 => Kind::Color,
        _ => return Err(Refusal::Components),
    };
    let Some(width) = sixteen_bits(form.width) else {
        return Err(Refusal::Side);
    };
    let Some(height) = sixteen_bits(form.height) else {
        return Err(Refusal::Side);
    };
    let mut asked = Form {
        kind,
        width,
        height,
        maxval: 0,
    };
    if asked.sample_count() > MOST_SAMPLES {
        return Err(Refusal::TooManySamples);
    }
    asked.maxval = match sixteen_bits(form.maxval) {
        Some(maxval) => maxval,
        None => return Err(Refusal::Maxval),
    };
    Ok(asked)
}

/// Returns the number if it is 1 to 65535.
fn sixteen_bits(number: u32) -> Option<u16>
    ensures { MatchOption result (is_sixteen_bits number ≡ false) (λ same. (same ≡ number) × (is_sixteen_bits number ≡ true)) }
{
    match u16::try_from(number) {
        Ok(0) => None,
        Ok(same) => Some(same),
        Err(_) => None,
    }
}

/// Returns the request to encode `count` samples of at most `most`, laid out so. Fails as `picture_form` does, else with the first
/// of `NotEightBits`, `Preset`, `Stride` and `TooFewSamples` that applies.
pub fn request_of(
    most: u32,
    form: &JlsrecForm,
    layout: Layout,
    count: usize,
) -> Result<Request, Refusal>
    ensures exactly { MatchResult result (λ _. request_refusal most form.now layout count ≡ None)
        (λ refused. request_refusal most form.now layout count ≡ Some refused) }
    ensures asked { IfOk result (λ request. IsRequest request form.now layout count) }
{
    let asked = picture_form(form)?;
    if u32::from(asked.maxval) > most {
        return Err(Refusal::NotEightBits);
    }
    let presets = match presets_of(form, asked.maxval) {
        Ok(presets) => presets,
        Err(fault) => return Err(Refusal::Preset(fault)),
    };
    let rows = rows_of(asked, layout, count, Refusal::TooFewSamples)?;
    Ok(Request {
        form: asked,
        presets,
        rows,
    })
}

/// Returns the rows of a picture of this form, laid out so among `count` samples. Fails with `Stride` if the stride is
/// less than a row or splits a sample, else with `short` if the samples are too few.
pub fn rows_of(form: Form, layout: Layout, count: usize, short: Refusal) -> Result<Rows, Refusal>
    requires some_height { 0 < form.height }
    ensures exactly { let count_of = components form.kind in let row = row_of layout.arrangement count_of form.width in let height = height_of layout.arrangement count_of form.height in
        MatchResult result (λ _. rows_refusal short row layout.stride height count ≡ None) (λ refused. rows_refusal short row layout.stride height count ≡ Some refused) }
    ensures row { IfOk result (λ rows. rows.row ≡ row_of layout.arrangement (components form.kind) form.width) }
    ensures stride { IfOk result (λ rows. rows.stride ≡ stride_by (row_of layout.arrangement (components form.kind) form.width) layout.stride) }
    ensures height { IfOk result (λ rows. rows.height ≡ height_of layout.arrangement (components form.kind) form.height) }
    ensures wide { IfOk result (λ rows. rows.row ≤ rows.stride) }
    ensures enough { IfOk result (λ rows. reach_of rows.row rows.stride rows.height ≤ count) }
{
    let width = usize::from(form.width);
    let height = usize::from(form.height);
    let components = usize::from(form.kind.components());
    match layout.arrangement {
        Arrangement::Pixels => lines_of(width * components, layout.stride, height, count, short),
        Arrangement::Planes => lines_of(width, layout.stride, height * components, count, short),
    }
}

/// Returns `height` rows of `row` samples each among `count` samples. Fails as `rows_of` does.
fn lines_of(
    row: usize,
    stride: Option<usize>,
    height: usize,
    count: usize,
    short: Refusal,
) -> Result<Rows, Refusal>
    requires some_height { 0 < height }
    requires few { height < 2 ^ 32 }
    requires narrow { row < 2 ^ 32 }
    ensures exactly { MatchResult result (λ _. rows_refusal short row stride height count ≡ None)
        (λ refused. rows_refusal short row stride height count ≡ Some refused) }
    ensures row { IfOk result (λ rows. rows.row ≡ row) }
    ensures stride { IfOk result (λ rows. rows.stride ≡ stride_by row stride) }
    ensures height { IfOk result (λ rows. rows.height ≡ height) }
    ensures wide { IfOk result (λ rows. rows.row ≤ rows.stride) }
    ensures enough { IfOk result (λ rows. reach_of rows.row rows.stride rows.height ≤ count) }
{
    let Some(stride) = stride else {
        return Err(Refusal::Stride);
    };
    let stride = if stride == 0 { row } else { stride };
    if stride < row {
        return Err(Refusal::Stride);
    }
    if (count as u128) < (height - 1) as u128 * stride as u128 + row as u128 {
        return Err(short);
    }
    Ok(Rows {
        row,
        stride,
        height,
    })
}

/// Returns the coding parameters that a form asks for. Fails with the first that is out of its range.
fn presets_of(form: &JlsrecForm, maxval: u16) -> Result<Presets, PresetFault>
    requires some { 0 < maxval }
    requires same { form.now.maxval ≡ maxval }
    ensures exactly { MatchResult result (λ presets. (preset_fault (parameters form.now) ≡ None) × (presets ≡ parameters form.now))
        (λ fault. preset_fault (parameters form.now) ≡ Some fault) }
    ensures legal { IfOk result (λ presets. IsLegal presets) }
    ensures maxval { IfOk result (λ presets. presets.maxval ≡ maxval) }
{
    let defaults = Presets::default_of(maxval);
    Presets::explicit(
        maxval,
        narrowed(or_default(form.t1, defaults.t1())),
        narrowed(or_default(form.t2, defaults.t2())),
        narrowed(or_default(form.t3, defaults.t3())),
        narrowed(or_default(form.reset, defaults.reset())),
    )
}

/// Returns the chosen value, or the default if that is 0.
fn or_default(chosen: u32, default: u16) -> u32
    ensures { result ≡ or_default chosen default }
{
    if chosen == 0 {
        u32::from(default)
    } else {
        chosen
    }
}

/// Returns the number, or 0 if it is over 65535: both are out of each parameter's range.
fn narrowed(number: u32) -> u16
    ensures { result ≡ narrowed number }
{
    u16::try_from(number).unwrap_or(0)
}

/// Returns the rows of a picture, copied into one vector without gaps.
pub fn joined<T: Copy>(alloc: Global, rows: &Rows, samples: &[T]) -> Result<Vec<T>, AllocError>
    ensures { IfOk result (λ joined. joined.items ≡ rows_of rows.now.row rows.now.stride rows.now.height samples.now) }
{
    let mut joined = Vec::new(alloc);
    let mut rest = samples;
    for number in 0..rows.height {
        joined.extend_from_slice(front(rest, rows.row))?;
        rest = after(rest, rows.stride);
    }
    Ok(joined)
}

/// Returns the samples of a picture whose rows have no gaps; `None` if they have.
pub fn adjacent<'a>(request: &Request, samples: Samples<'a>) -> Option<Samples<'a>>
    ensures { MatchOption result (request.now.rows.stride ≢ request.now.rows.row) (λ front. (request.now.rows.stride ≡ request.now.rows.row)
        × (numbers front ≡ take (sample_count request.now.form.kind request.now.form.width request.now.form.height) (numbers samples.entry))) }
{
    if request.rows.stride != request.rows.row {
        return None;
    }
    let count = request.form.sample_count() as usize;
    Some(samples.part(0, count.min(samples.len())))
}

/// Returns the first `count` items, or all if there are fewer.
fn front<T>(items: &[T], count: usize) -> &[T]
    ensures { result.now ≡ take count items.now }
{
    if count < items.len() {
        &items[..count]
    } else {
        items
    }
}

/// Returns the items after the first `count`, if there are any.
pub fn after<T>(items: &[T], count: usize) -> &[T]
    ensures { result.now ≡ drop count items.now }
{
    if count < items.len() {
        &items[count..]
    } else {
        &[]
    }
}
