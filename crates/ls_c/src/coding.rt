//! Encoding into a caller's memory, and decoding into it.
ghost use Rattle.std.specs.Prelude.{◌≡◌, ◌≢◌, ◌⊎◌, ◌+◌, ◌*◌, ◌<◌, ◌≤◌, ◌++◌, Some, OnOk, OnErr, IfOk, IfErr, Ok, Err, None, nat_le, length, take, drop, ℕ, List, MatchResult, slice_index};
ghost use Rattle.std.specs.List.{AllByRecursion};
ghost use Rattle.ls_frame.specs.Picture.{Picture, IsFrame, picture_of, components, sample_count, most_samples};
ghost use Rattle.ls_frame.specs.Parameters.{IsLegal};
ghost use Rattle.ls_frame.specs.View.Numbers.{numbers, most_of};
ghost use Rattle.ls_stream.specs.Components.{arranged};
ghost use Rattle.ls_stream.specs.Grammar.{Spells};
ghost use Rattle.ls_stream.specs.Layout.{codestream};
ghost use Rattle.ls_stream.specs.View.Outlines.{IsFirstFault};
ghost use Rattle.ls_stream.specs.View.Openings.{opened_form};
ghost use Rattle.ls_c.specs.Forms.{coding_refusal, no_form, rows_of, reach_of, KeepsGaps};
ghost use Rattle.ls_c.specs.Refusals.{status_by, status_of, details_of, no_details};
ghost use Rattle.ls_c.specs.Calls.{IsEncoding, IsDecoding, IsLaidOut, IsUnopened, HaveForm, SaysForm, form_by, laid};

use crate::form::{JlsrecFault, JlsrecForm, details_of, form_by, no_details, no_form};
use crate::refusal::Refusal;
use crate::request::{Layout, Request, Rows, adjacent, joined, request_of, rows_of};
use ls_frame::{PictureView, Presets, Sample, Samples};
use ls_stream::laws::codestreams_spell_their_frames;
use ls_stream::{
    ArrangedView, Arrangement, Lines, Opening, Regions, StreamFault, encode_into, encode_picture,
    picture_bound,
};
use std::alloc::Global;

/// The largest block, in bytes, that malloc reuses once it is freed. A larger one comes from the system page by page
/// each time (with glibc), which takes longer than to check all samples before they are coded.
const MOST_HANDED_OUT_AGAIN: u64 = 1 << 25;

/// Encodes samples that are laid out so to the front of `bytes`. `written` is the number of bytes of the codestream, also if they don't fit in `bytes` (`NoRoom`);
/// after any other refusal it is 0. A form with a maxval that such samples can't have is refused as `NotEightBits`. A
/// refusal leaves `bytes` unchanged.
pub fn encode(
    alloc: Global,
    form: &JlsrecForm,
    samples: Samples,
    layout: Layout,
    bytes: &mut [u8],
    written: &mut usize,
) -> Result<(), Refusal>
    ensures { IsEncoding (most_of samples.entry) form.now layout (numbers samples.entry) bytes.old bytes.new written.new (status_of result) }
{
    *written = 0;
    let most = u32::from(samples.most());
    let request = match request_of(most, form, layout, samples.len()) {
        Ok(request) => request,
        Err(refused) => return Err(refused),
    };
    let arrangement = layout.arrangement;
    if let Some(samples) = adjacent(&request, samples) {
        return encode_joined(alloc, request, samples, arrangement, bytes, written);
    }
    match samples {
        Samples::Bytes(apart) => {
            let joined = joined(alloc, &request.rows, apart)?;
            encode_joined(
                alloc,
                request,
                Samples::Bytes(&joined),
                arrangement,
                bytes,
                written,
            )
        }
        Samples::Words(apart) => {
            let joined = joined(alloc, &request.rows, apart)?;
            encode_joined(
                alloc,
                request,
                Samples::Words(&joined),
                arrangement,
                bytes,
                written,
            )
        }
    }
}

/// Encodes the samples of a picture, whose rows have no gaps, to the front of `bytes`, and sets `written` to the number
/// of bytes of its codestream.
fn encode_joined(
    alloc: Global,
    request: Request,
    samples: Samples,
    arrangement: Arrangement,
    bytes: &mut [u8],
    written: &mut usize,
) -> Result<(), Refusal>
    requires some_width { 0 < request.form.width }
    requires some_height { 0 < request.form.height }
    requires some_maxval { 0 < request.form.maxval }
    requires maxval { request.presets.maxval ≡ request.form.maxval }
    requires legal { IsLegal request.presets }
    requires few { sample_count request.form.kind request.form.width request.form.height ≤ most_samples }
    requires count { length (numbers samples) ≡ sample_count request.form.kind request.form.width request.form.height }
    requires nothing { written.old ≡ 0 }
    ensures exactly { (result ≡ Err (Refusal.Stream StreamFault.NoMemory))
        ⊎ (status_of result ≡ status_by (coding_refusal (picture_of request.form (arranged arrangement (components request.form.kind) (numbers samples.entry))) request.presets (length bytes.old))) }
    ensures frame { OnOk result (IsFrame (picture_of request.form (arranged arrangement (components request.form.kind) (numbers samples.entry)))) }
    ensures done { OnOk result (bytes.new ≡ codestream (picture_of request.form (arranged arrangement (components request.form.kind) (numbers samples.entry))) request.presets ++ drop written.new bytes.old) }
    ensures spells { OnOk result (Spells (codestream (picture_of request.form (arranged arrangement (components request.form.kind) (numbers samples.entry))) request.presets) (picture_of request.form (arranged arrangement (components request.form.kind) (numbers samples.entry)))) }
    ensures written { OnOk result (written.new ≡ length (codestream (picture_of request.form (arranged arrangement (components request.form.kind) (numbers samples.entry))) request.presets)) }
    ensures kept { OnErr result (bytes.new ≡ bytes.old) }
    ensures need { result ≡ Err Refusal.NoRoom
        → (written.new ≡ length (codestream (picture_of request.form (arranged arrangement (components request.form.kind) (numbers samples.entry))) request.presets)) × (length bytes.old < written.new) }
    ensures none { IfErr result (λ refused. (refused ≡ Refusal.NoRoom) ⊎ (written.new ≡ 0)) }
{
    codestreams_spell_their_frames();
    let presets = &request.presets;
    let picture = PictureView::from_parts(request.form, samples);
    let picture = ArrangedView::new(&picture, arrangement);
    let bound = picture_bound(&picture, presets);
    // In a buffer of their own samples are checked while they are coded; in the caller's all are checked before.
    if bound <= MOST_HANDED_OUT_AGAIN || bound > bytes.len() as u64 {
        return encode_apart(alloc, &picture, presets, bytes, written);
    }
    let mut lines = Lines::new(alloc, request.form.width)?;
    let Some(length) = encode_into(&picture, presets, &mut lines, bytes) else {
        return Err(Refusal::SampleTooLarge);
    };
    *written = length;
    Ok(())
}

/// Encodes a picture into a buffer of its own, and copies the codestream to the front of `bytes` once all samples are
/// known to be at most maxval.
fn encode_apart(
    alloc: Global,
    picture: &ArrangedView,
    presets: &Presets,
    bytes: &mut [u8],
    written: &mut usize,
) -> Result<(), Refusal>
    requires maxval { presets.now.maxval ≡ picture.now.maxval }
    requires nothing { written.old ≡ 0 }
    ensures exactly { (result ≡ Err (Refusal.Stream StreamFault.NoMemory))
        ⊎ (status_of result ≡ status_by (coding_refusal picture.now presets.now (length bytes.old))) }
    ensures frame { OnOk result (IsFrame picture.now) }
    ensures done { OnOk result (bytes.new ≡ codestream picture.now presets.now ++ drop written.new bytes.old) }
    ensures written { OnOk result (written.new ≡ length (codestream picture.now presets.now)) }
    ensures kept { OnErr result (bytes.new ≡ bytes.old) }
    ensures need { result ≡ Err Refusal.NoRoom
        → (written.new ≡ length (codestream picture.now presets.now)) × (length bytes.old < written.new) }
    ensures none { IfErr result (λ refused. (refused ≡ Refusal.NoRoom) ⊎ (written.new ≡ 0)) }
{
    let Some(codestream) = encode_picture(alloc, picture, presets)? else {
        return Err(Refusal::SampleTooLarge);
    };
    let count = codestream.len();
    *written = count;
    if count > bytes.len() {
        return Err(Refusal::NoRoom);
    }
    bytes[..count].copy_from_slice(&codestream);
    Ok(())
}

/// Decodes the codestream at the front of `bytes` to the front of `samples`; sets `form`, and `used` to the number of
/// bytes of the codestream. If `samples` is too small (`NoRoom`) or can't hold maxval (`NotEightBits`), `form` is set
/// all the same. If the bytes can't be decoded, `fault` has the details, and the samples of the frame may have been
/// overwritten. After any other refusal, `samples` is unchanged. `NoMemory` comes only if all before the data of the
/// first scan is legal and its frame fits.
pub fn decode<S: Sample>(
    alloc: Global,
    bytes: &[u8],
    samples: &mut [S],
    form: &mut JlsrecForm,
    used: &mut usize,
    fault: &mut JlsrecFault,
) -> Result<(), Refusal>
    ensures { IsDecoding S.most bytes.now (S.numbers samples.old) (S.numbers samples.new) form.new used.new fault.new (status_of result) }
{
    *used = 0;
    let opening = match open(bytes, S::greatest(), samples.len(), form, fault) {
        Ok(opening) => opening,
        Err(refused) => return Err(refused),
    };
    let count = opening.sample_count();
    match decode_at(alloc, &opening, Arrangement::Pixels, &mut samples[..count]) {
        Ok(taken) => {
            *used = taken;
            Ok(())
        }
        Err(first) => {
            *form = no_form();
            *fault = details_of(first);
            Err(Refusal::Stream(first))
        }
    }
}

/// As `decode`, into samples that are laid out so; those in no row are unchanged. If the picture fits, but not if it is
/// laid out so, `form` is set all the same: `Stride` if the stride is less than a row or splits a sample, else `NoRoom`.
pub fn decode_laid_out<S: Sample>(
    alloc: Global,
    bytes: &[u8],
    layout: Layout,
    samples: &mut [S],
    form: &mut JlsrecForm,
    used: &mut usize,
    fault: &mut JlsrecFault,
) -> Result<(), Refusal>
    ensures { IsLaidOut S.most bytes.now layout (S.numbers samples.old) (S.numbers samples.new) form.new used.new fault.new (status_of result) }
{
    *used = 0;
    let room = samples.len();
    let opening = match open(bytes, S::greatest(), room, form, fault) {
        Ok(opening) => opening,
        Err(refused) => return Err(refused),
    };
    let rows = match rows_of(opening.form(), layout, room, Refusal::NoRoom) {
        Ok(rows) => rows,
        Err(refused) => return Err(refused),
    };
    match decode_rows(alloc, &opening, layout.arrangement, &rows, samples) {
        Ok(taken) => {
            *used = taken;
            Ok(())
        }
        Err(first) => {
            *form = no_form();
            *fault = details_of(first);
            Err(Refusal::Stream(first))
        }
    }
}

/// Opens the codestream at the front of `bytes`, if its frame fits in `room` samples of at most `most`. Sets `form` to
/// the one that its opening gives, or sets `fault` to the details of the first fault.
fn open<'a>(
    bytes: &'a [u8],
    most: u16,
    room: usize,
    form: &mut JlsrecForm,
    fault: &mut JlsrecFault,
) -> Result<Opening<'a>, Refusal>
    ensures bytes { IfOk result (λ opening. opening.bytes ≡ bytes.now) }
    ensures fits { IfOk result (λ opening. (opening.parameters.maxval ≤ most) × (sample_count opening.kind opening.width opening.height ≤ room)) }
    ensures form { IfOk result (λ opening. HaveForm bytes.now form.new × (form.new ≡ form_by opening)) }
    ensures spelled { IfOk result (λ opening. SaysForm bytes.now form.new) }
    ensures faultless { OnOk result (fault.new ≡ no_details) }
    ensures refused { IfErr result (λ refused. IsUnopened most room bytes.now form.new fault.new refused) }
{
    *form = no_form();
    *fault = no_details();
    let opening = match Opening::read(bytes) {
        Ok(opening) => opening,
        Err(first) => {
            *fault = details_of(first);
            return Err(Refusal::Stream(first));
        }
    };
    *form = form_by(&opening);
    if opening.presets().maxval() > most {
        return Err(Refusal::NotEightBits);
    }
    if opening.sample_count() > room {
        return Err(Refusal::NoRoom);
    }
    Ok(opening)
}

/// Decodes the frame of an opening into rows of samples that are arranged so, and returns the number of bytes of its
/// codestream. Without gaps between the rows it is decoded in its place, else into memory of its own first. After
/// `NoMemory` no sample has changed; after another fault, none but as many as the frame has, at the front.
fn decode_rows<S: Sample>(
    alloc: Global,
    opening: &Opening,
    arrangement: Arrangement,
    rows: &Rows,
    samples: &mut [S],
) -> Result<usize, StreamFault>
    requires fits { opening.now.parameters.maxval ≤ S.most }
    requires sixteen_bits { opening.now.parameters.maxval ≤ 65535 }
    requires count { rows.now.height * rows.now.row ≡ sample_count opening.now.kind opening.now.width opening.now.height }
    requires some { 0 < rows.now.height }
    requires wide { rows.now.row ≤ rows.now.stride }
    requires enough { reach_of rows.now.row rows.now.stride rows.now.height ≤ length (S.numbers samples.old) }
    ensures ok { IfOk result (λ used. (used ≤ length opening.now.bytes) × Spells (take used opening.now.bytes)
        (picture_of (opened_form opening.now) (arranged arrangement (components opening.now.kind) (rows_of rows.now.row rows.now.stride rows.now.height (S.numbers samples.new))))) }
    ensures complete { (front rest : List ℕ) (f : Picture) → opening.now.bytes ≡ front ++ rest → Spells front f
        → MatchResult result (λ used. (picture_of (opened_form opening.now) (arranged arrangement (components opening.now.kind) (rows_of rows.now.row rows.now.stride rows.now.height (S.numbers samples.new))) ≡ f) × (used ≡ length front))
        (λ fault. fault ≡ StreamFault.NoMemory) }
    ensures first { IfErr result (λ fault. (fault ≡ StreamFault.NoMemory) ⊎ IsFirstFault opening.now.bytes fault) }
    ensures gaps { OnOk result (KeepsGaps rows.now.row rows.now.stride rows.now.height (S.numbers samples.old) (S.numbers samples.new)) }
    ensures kept { IfErr result (λ fault. fault ≡ StreamFault.NoMemory → S.numbers samples.new ≡ S.numbers samples.old) }
    ensures beyond { OnErr result (drop (rows.now.height * rows.now.row) (S.numbers samples.new) ≡ drop (rows.now.height * rows.now.row) (S.numbers samples.old)) }
    ensures len { length (S.numbers samples.new) ≡ length (S.numbers samples.old) }
{
    let count = opening.sample_count();
    if rows.stride == rows.row {
        return match decode_at(alloc, opening, arrangement, &mut samples[..count]) {
            Ok(used) => Ok(used),
            Err(fault) => Err(fault),
        };
    }
    let mut apart = vec![in alloc; 0u16; count]?;
    match decode_at(alloc, opening, arrangement, &mut apart) {
        Ok(used) => {
            spread(&apart, rows, samples);
            Ok(used)
        }
        Err(fault) => Err(fault),
    }
}

/// Copies rows without gaps to their places.
fn spread<S: Sample>(apart: &[u16], rows: &Rows, samples: &mut [S])
    requires fits { (k : ℕ) → slice_index apart.now k ≤ S.most }
    requires count { length apart.now ≡ rows.now.height * rows.now.row }
    requires some { 0 < rows.now.height }
    requires wide { rows.now.row ≤ rows.now.stride }
    requires enough { reach_of rows.now.row rows.now.stride rows.now.height ≤ length (S.numbers samples.old) }
    ensures stored { (i j : ℕ) → i < rows.now.height → j < rows.now.row
        → slice_index (S.numbers samples.new) (i * rows.now.stride + j) ≡ slice_index apart.now (i * rows.now.row + j) }
    ensures gaps { KeepsGaps rows.now.row rows.now.stride rows.now.height (S.numbers samples.old) (S.numbers samples.new) }
    ensures len { length (S.numbers samples.new) ≡ length (S.numbers samples.old) }
{
    for number in 0..rows.height {
        let start = number * rows.row;
        copy_row(
            &apart[start..start + rows.row],
            number * rows.stride,
            samples,
        );
    }
}

/// Copies a row to its place, which begins at `start`.
fn copy_row<S: Sample>(row: &[u16], start: usize, samples: &mut [S])
    requires fits { (k : ℕ) → slice_index row.now k ≤ S.most }
    requires inside { start + length row.now ≤ length (S.numbers samples.old) }
    ensures stored { (j : ℕ) → j < length row.now → slice_index (S.numbers samples.new) (start + j) ≡ slice_index row.now j }
    ensures kept { (k : ℕ) → ((j : ℕ) → j < length row.now → k ≢ start + j) → slice_index (S.numbers samples.new) k ≡ slice_index (S.numbers samples.old) k }
    ensures len { length (S.numbers samples.new) ≡ length (S.numbers samples.old) }
{
    for column in 0..row.len() {
        S::put(samples, start + column, row[column]);
    }
}

/// Decodes the frame of an opening into `places` that are arranged so, which must be as many as its samples and able to
/// store numbers up to its maxval, and returns the number of bytes of its codestream. After `NoMemory` they are unchanged.
fn decode_at<S: Sample>(
    alloc: Global,
    opening: &Opening,
    arrangement: Arrangement,
    places: &mut [S],
) -> Result<usize, StreamFault>
    requires fits { opening.now.parameters.maxval ≤ S.most }
    requires samples { length (S.numbers places.old) ≡ sample_count opening.now.kind opening.now.width opening.now.height }
    ensures ok { IfOk result (λ used. (used ≤ length opening.now.bytes)
        × Spells (take used opening.now.bytes) (picture_of (opened_form opening.now) (arranged arrangement (components opening.now.kind) (S.numbers places.new)))) }
    ensures complete { (front rest : List ℕ) (f : Picture) → opening.now.bytes ≡ front ++ rest → Spells front f
        → MatchResult result (λ used. (picture_of (opened_form opening.now) (arranged arrangement (components opening.now.kind) (S.numbers places.new)) ≡ f) × (used ≡ length front)) (λ fault. fault ≡ StreamFault.NoMemory) }
    ensures first { IfErr result (λ fault. (fault ≡ StreamFault.NoMemory) ⊎ IsFirstFault opening.now.bytes fault) }
    ensures kept { IfErr result (λ fault. fault ≡ StreamFault.NoMemory → S.numbers places.new ≡ S.numbers places.old) }
{
    let mut lines = Lines::new(alloc, opening.form().width)?;
    let regions = Regions::new(alloc, opening.presets())?;
    S::clear(places);
    match opening.decode_arranged(arrangement, &mut lines, &regions, places) {
        Ok(used) => Ok(used),
        Err(fault) => Err(fault),
    }
}
