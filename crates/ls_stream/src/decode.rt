//! Decoding codestreams as frames (T.87 Annex C).
mod decoder;
mod markers;
mod row;
mod scan;

ghost use Rattle.std.specs.Prelude.{◌≡◌, ◌≢◌, ◌⊎◌, ◌+◌, ◌-◌, ◌*◌, ◌^◌, ◌<◌, ◌≤◌, ◌++◌, ℕ, List, [], length, take, drop, slice_index, Result, Ok, IfOk, IfErr, MatchResult};
ghost use Rattle.ls_bits.specs.Data.{stop_at};
ghost use Rattle.ls_frame.specs.Picture.{Picture, IsFrame, picture_of, components, sample_count, most_samples};
ghost use Rattle.ls_stream.specs.Planes.{Plane, IsSamplePlane};
ghost use Rattle.ls_stream.specs.Components.{component_plane, arranged};
ghost use Rattle.ls_stream.specs.Grammar.{IsCoded, Spells, most_bytes};
ghost use Rattle.ls_stream.specs.Faults.{BeginsWithOpening};
ghost use Rattle.ls_stream.specs.View.FirstFaults.{BreaksData};
ghost use Rattle.ls_stream.specs.View.Reading.{opening_at, Gives};
ghost use Rattle.ls_stream.specs.View.Outlines.{Outline, IsOutlineOf, ids_in, scans_at, rest_of, outline_at, data_at, after_data, ScansStop, DecodingStops, outline_of, IsFirstFault};
ghost use Rattle.ls_stream.specs.View.Decoding.{AreScansOf, NoScans, fault_in, picture};

use crate::arranged::{Arrangement, area_of};
use crate::buffers::Lines;
use crate::decode::markers::{fault_of, find_end, find_next_scan, first_bytes, read_opening};
use crate::decode::scan::{ScanFault, decode_scan};
use crate::faults::StreamFault;
use crate::segments::read::FrameHeader;
use crate::shape::{Shape, shape_of};
use ls_bits::{CodeFault, Stop, data_of};
use ls_coding::Regions;
use ls_frame::{Form, Frame, Presets, Sample};
use std::alloc::Global;
use std::marker::Model;

/// A decoded frame.
#[derive(Drop)]
pub struct Decoded {
    pub frame: Frame,
    /// The number of bytes of its codestream.
    pub used: usize,
}

/// Decodes the codestream at the front of bytes. What follows it is ignored.
///
/// If any front of the bytes is a codestream of a frame (`specs/Grammar.antt`), returns that frame and the front's
/// length, or NoMemory. Any other fault means that no front is one; it is the first fault from the left
/// (`specs/View/FirstFaults.antt`), of a marker, of a segment or of a scan's data. In a scan's data, LeftoverBits means
/// that 16 bits or more follow those of a plane; BadCode, that a word, run or sample is one that no encoder writes for
/// any plane, or that a marker comes before the plane's end; and Truncated, that the input ends before it. If there are
/// more bytes than a codestream may have, TooLarge replaces Truncated.
///
/// NoMemory comes only for bytes that begin with a complete legal opening: SOI, the frame header, the segments before
/// the first scan and its header, with legal coding parameters. It allocates two lines, a table of 2 * MAXVAL + 1
/// bytes, and the samples, and decodes only then: whether an allocation failed, no clause can see, so none says that a
/// fault after the opening isn't replaced by NoMemory.
pub fn decode_frame(alloc: Global, bytes: &[u8]) -> Result<Decoded, StreamFault>
    ensures ok { IfOk result (λ decoded. (decoded.used ≤ length bytes.now) × Spells (take decoded.used bytes.now) decoded.frame) }
    ensures fault { IfErr result (λ fault. (fault ≡ StreamFault.NoMemory)
        ⊎ ((front rest : List ℕ) (f : Picture) → bytes.now ≡ front ++ rest → Spells front f → ⊥)) }
    ensures first { IfErr result (λ fault. (fault ≡ StreamFault.NoMemory)
        ⊎ IsFirstFault bytes.now fault) }
    ensures complete { (front rest : List ℕ) (f : Picture) → bytes.now ≡ front ++ rest → Spells front f
        → MatchResult result (λ decoded. (decoded.frame ≡ f) × (decoded.used ≡ length front)) (λ fault. fault ≡ StreamFault.NoMemory) }
    ensures memory { IfErr result (λ fault. fault ≡ StreamFault.NoMemory → BeginsWithOpening (take most_bytes bytes.now)) }
{
    let opening = match Opening::read(bytes) {
        Ok(opening) => opening,
        Err(fault) => return Err(fault),
    };
    let (Ok(mut lines), Ok(regions), Ok(samples)) = (
        Lines::new(alloc, opening.form().width),
        Regions::new(alloc, opening.presets()),
        vec![in alloc; 0u16; opening.sample_count()],
    ) else {
        return Err(StreamFault::NoMemory);
    };
    decode_into(&opening, &mut lines, &regions, samples)
}

/// Decodes the frame of an opening, once all that it needs is allocated: so its fault is never NoMemory. It requires
/// what `Opening::decode` does.
fn decode_into(
    opening: &Opening,
    lines: &mut Lines,
    regions: &Regions,
    mut samples: Vec<u16>,
) -> Result<Decoded, StreamFault>
    requires regions { regions.now ≡ opening.now.parameters }
    requires width { opening.now.width ≤ lines.old }
    requires fits { opening.now.parameters.maxval ≤ 65535 }
    requires samples { length samples.items ≡ sample_count opening.now.kind opening.now.width opening.now.height }
    requires small { (k : ℕ) → slice_index samples.items k ≤ opening.now.parameters.maxval }
    ensures ok { IfOk result (λ decoded. (decoded.used ≤ length opening.now.bytes) × Spells (take decoded.used opening.now.bytes) decoded.frame) }
    ensures complete { (front rest : List ℕ) (f : Picture) → opening.now.bytes ≡ front ++ rest → Spells front f
        → MatchResult result (λ decoded. (decoded.frame ≡ f) × (decoded.used ≡ length front)) (λ fault. ⊥) }
    ensures none { IfErr result (λ fault. (front rest : List ℕ) (f : Picture) → opening.now.bytes ≡ front ++ rest → Spells front f → ⊥) }
    ensures first { IfErr result (λ fault. IsFirstFault opening.now.bytes fault) }
    ensures memory { IfErr result (λ fault. fault ≢ StreamFault.NoMemory) }
{
    match opening.decode(lines, regions, &mut samples) {
        Ok(used) => Ok(Decoded {
            frame: opening.frame_of(samples),
            used,
        }),
        Err(fault) => Err(fault),
    }
}

/// The part of a codestream before the data of its first scan: SOI, the frame header, the coding parameters and the
/// header of the first component's scan, with the miscellaneous segments between them (T.87 Annex C). It gives the form
/// of the frame.
#[derive(Drop)]
pub struct Opening<'a> {
    header: FrameHeader,
    presets: Presets,
    /// The bytes from which it was read, with all that follow it.
    bytes: &'a [u8],
    /// The bytes after it, up to the most that a codestream may have in all.
    rest: &'a [u8],
}

impl<'a> Model for Opening<'a> {
    ghost use Rattle.ls_stream.specs.View.Openings.{Opened, IsOpening};

    ghost Value = { Opened };

    ghost view = { λ o. record { bytes = o.bytes.now; precision = o.header.precision; kind = o.header.kind; width = o.header.width; height = o.header.height; parameters = o.presets } };

    ghost invariant = { λ o. IsOpening o.bytes.now o.header o.presets o.rest.now };
}

impl<'a> Opening<'a> {
    ghost use Rattle.ls_stream.specs.View.Openings.{SaysSo, IsOfForm, IsOutlineFrom, opened_form};

    /// Reads the opening at the front of bytes. It decodes no sample, and allocates nothing.
    ///
    /// A complete legal opening is read, whatever follows it. If any front of the bytes is a codestream of a frame, the
    /// opening has the form of that frame. If this fails, the bytes begin with no complete legal opening, no front is a
    /// codestream, and the fault is the first from the left, as for `decode_frame`, and never NoMemory.
    pub fn read(bytes: &'a [u8]) -> Result<Opening<'a>, StreamFault>
        ensures bytes { IfOk result (λ opening. opening.bytes ≡ bytes.now) }
        ensures begins { IfOk result (λ opening. BeginsWithOpening (take most_bytes bytes.now)) }
        ensures says { IfOk result (λ opening. SaysSo opening) }
        ensures form { IfOk result (λ opening. (front rest : List ℕ) (f : Picture) → bytes.now ≡ front ++ rest → Spells front f
            → IsOfForm opening f) }
        ensures none { IfErr result (λ fault. (front rest : List ℕ) (f : Picture) → bytes.now ≡ front ++ rest → Spells front f → ⊥) }
        ensures first { IfErr result (λ fault. IsFirstFault bytes.now fault) }
        ensures unopened { IfErr result (λ fault. BeginsWithOpening (take most_bytes bytes.now) → ⊥) }
        ensures outline { IfErr result (λ fault. outline_of bytes.now ≡ Err fault) }
        ensures memory { IfErr result (λ fault. fault ≢ StreamFault.NoMemory) }
    {
        match read_opening(first_bytes(bytes)) {
            Ok(opening) => Ok(Opening {
                header: opening.0,
                presets: opening.1,
                bytes,
                rest: opening.2,
            }),
            Err(fault) => Err(fault_of(bytes, fault)),
        }
    }

    /// Bits per sample (P), 2 to 16.
    pub fn precision(&self) -> u8
        ensures { result ≡ self.now.precision }
    {
        self.header.precision
    }

    /// The form of the frame: each number is 1 to 65535.
    pub fn form(&self) -> Form
        ensures value { result ≡ opened_form self.now }
        ensures some_width { 0 < result.width }
        ensures some_height { 0 < result.height }
        ensures few { sample_count result.kind result.width result.height ≤ most_samples }
    {
        Form {
            kind: self.header.kind,
            width: self.header.width,
            height: self.header.height,
            maxval: self.presets.maxval(),
        }
    }

    /// The parameters with which the frame is coded. Their maxval is the frame's.
    pub fn presets(&self) -> &Presets
        ensures { result.now ≡ self.now.parameters }
    {
        &self.presets
    }

    /// The number of samples of the frame, in all components together, 1 to 2^28.
    pub fn sample_count(&self) -> usize
        ensures value { result ≡ sample_count self.now.kind self.now.width self.now.height }
        ensures few { result ≤ most_samples }
    {
        self.form().sample_count() as usize
    }

    /// Decodes the frame into `samples`: row by row from the top, pixel by pixel, component by component. Returns the
    /// number of bytes of the codestream. It allocates nothing.
    ///
    /// It requires as many `samples` as the frame has, of a type that can store numbers up to maxval, with none over
    /// maxval beforehand (zeros will do); lines at least as wide as the frame; and the regions of the opening's
    /// parameters. A fault is as for `decode_frame`, but never NoMemory; the samples are then unspecified. The width of
    /// the lines stays as it was.
    pub fn decode<S: Sample>(
        &self,
        lines: &mut Lines,
        regions: &Regions,
        samples: &mut [S],
    ) -> Result<usize, StreamFault>
        requires regions { regions.now ≡ self.now.parameters }
        requires width { self.now.width ≤ lines.old }
        requires fits { self.now.parameters.maxval ≤ S.most }
        requires samples { length (S.numbers samples.old) ≡ sample_count self.now.kind self.now.width self.now.height }
        requires small { (k : ℕ) → slice_index (S.numbers samples.old) k ≤ self.now.parameters.maxval }
        ensures ok { IfOk result (λ used. (used ≤ length self.now.bytes) × Spells (take used self.now.bytes) (picture_of (opened_form self.now) (S.numbers samples.new))) }
        ensures complete { (front rest : List ℕ) (f : Picture) → self.now.bytes ≡ front ++ rest → Spells front f
            → MatchResult result (λ used. (picture_of (opened_form self.now) (S.numbers samples.new) ≡ f) × (used ≡ length front)) (λ fault. ⊥) }
        ensures first { IfErr result (λ fault. IsFirstFault self.now.bytes fault) }
        ensures memory { IfErr result (λ fault. fault ≢ StreamFault.NoMemory) }
        ensures lines { lines.new ≡ lines.old }
    {
        self.decode_arranged(Arrangement::Pixels, lines, regions, samples)
    }

    /// As `decode`, into samples that are arranged so.
    pub fn decode_arranged<S: Sample>(
        &self,
        arrangement: Arrangement,
        lines: &mut Lines,
        regions: &Regions,
        samples: &mut [S],
    ) -> Result<usize, StreamFault>
        requires regions { regions.now ≡ self.now.parameters }
        requires width { self.now.width ≤ lines.old }
        requires fits { self.now.parameters.maxval ≤ S.most }
        requires samples { length (S.numbers samples.old) ≡ sample_count self.now.kind self.now.width self.now.height }
        requires small { (k : ℕ) → slice_index (S.numbers samples.old) k ≤ self.now.parameters.maxval }
        ensures ok { IfOk result (λ used. (used ≤ length self.now.bytes) × Spells (take used self.now.bytes) (picture_of (opened_form self.now) (arranged arrangement (components self.now.kind) (S.numbers samples.new)))) }
        ensures complete { (front rest : List ℕ) (f : Picture) → self.now.bytes ≡ front ++ rest → Spells front f
            → MatchResult result (λ used. (picture_of (opened_form self.now) (arranged arrangement (components self.now.kind) (S.numbers samples.new)) ≡ f) × (used ≡ length front)) (λ fault. ⊥) }
        ensures first { IfErr result (λ fault. IsFirstFault self.now.bytes fault) }
        ensures memory { IfErr result (λ fault. fault ≢ StreamFault.NoMemory) }
        ensures lines { lines.new ≡ lines.old }
    {
        let first = first_bytes(self.bytes);
        match decode_opened(
            first,
            arrangement,
            (self.header, self.presets, self.rest),
            lines,
            regions,
            samples,
        ) {
            Ok(used) => Ok(used),
            Err(fault) => Err(fault_of(self.bytes, fault)),
        }
    }

    /// Reads on to EOI by markers and headers, without decoding data. Returns the number of bytes of the codestream, or
    /// the first fault of its markers and headers, which is never NoMemory. It allocates nothing.
    pub fn skip(&self) -> Result<usize, StreamFault>
        ensures ok { IfOk result (λ used. (o : Outline) × (left : List ℕ) × (outline_of self.now.bytes ≡ Ok (o, left))
            × (used + length left ≡ length self.now.bytes) × IsOutlineFrom self.now o) }
        ensures fault { IfErr result (λ fault. outline_of self.now.bytes ≡ Err fault) }
    {
        match skip_scans(&self.header, self.rest) {
            Ok(left) => Ok(first_bytes(self.bytes).len() - left.len()),
            Err(cause) => Err(fault_of(self.bytes, cause)),
        }
    }

    /// Makes the frame of this form from its samples, which must be as many as the form has, and none over maxval. They
    /// aren't checked.
    pub fn frame_of(&self, samples: Vec<u16>) -> Frame
        requires { IsFrame (picture_of (opened_form self.now) samples.items) }
        ensures { result ≡ picture_of (opened_form self.now) samples.items }
    {
        Frame::from_parts(self.form(), samples)
    }
}

/// Decodes the scans after an opening that was read from these bytes, which are no more than a codestream may have.
/// Returns the number of bytes of the codestream.
fn decode_opened<S: Sample>(
    bytes: &[u8],
    arrangement: Arrangement,
    opening: (FrameHeader, Presets, &[u8]),
    lines: &mut Lines,
    regions: &Regions,
    samples: &mut [S],
) -> Result<usize, StreamFault>
    requires opening { opening_at bytes.now ≡ Ok (opening.0, opening.1, opening.2.now) }
    requires some_width { 0 < opening.0.width }
    requires some_height { 0 < opening.0.height }
    requires few { sample_count opening.0.kind opening.0.width opening.0.height ≤ most_samples }
    requires regions { regions.now ≡ opening.1 }
    requires width { opening.0.width ≤ lines.old }
    requires fits { opening.1.maxval ≤ S.most }
    requires samples { length (S.numbers samples.old) ≡ sample_count opening.0.kind opening.0.width opening.0.height }
    requires small { (k : ℕ) → slice_index (S.numbers samples.old) k ≤ opening.1.maxval }
    ensures ok { IfOk result (λ used. (o : Outline) × (left : List ℕ) × (outline_at bytes.now ≡ Ok (o, left))
        × IsFrame (picture opening.entry.0 opening.entry.1.maxval (arranged arrangement (components opening.entry.0.kind) (S.numbers samples.new))) × IsOutlineOf (picture opening.entry.0 opening.entry.1.maxval (arranged arrangement (components opening.entry.0.kind) (S.numbers samples.new))) o
        × (used + length left ≡ length bytes.now)) }
    ensures only { IfOk result (λ used. (o : Outline) (left : List ℕ) (f : Picture) → outline_at bytes.now ≡ Ok (o, left)
        → IsFrame f → IsOutlineOf f o → picture opening.entry.0 opening.entry.1.maxval (arranged arrangement (components opening.entry.0.kind) (S.numbers samples.new)) ≡ f) }
    ensures none { IfErr result (λ fault. (o : Outline) (left : List ℕ) (f : Picture) → outline_at bytes.now ≡ Ok (o, left)
        → IsFrame f → IsOutlineOf f o → ⊥) }
    ensures stops { IfErr result (λ fault. DecodingStops bytes.now fault) }
    ensures lines { lines.new ≡ lines.old }
{
    let (header, presets, rest) = opening;
    prove!(presets.maxval() > 0);
    match decode_scans(
        &presets,
        regions,
        &header,
        arrangement,
        lines,
        samples,
        rest,
    ) {
        Ok(left) => Ok(bytes.len() - left.len()),
        Err(fault) => Err(fault),
    }
}

/// Decodes the scans of all components into the samples. The first scan's header was read before. Returns the bytes
/// after EOI.
fn decode_scans<'a, S: Sample>(
    presets: &Presets,
    regions: &Regions,
    header: &FrameHeader,
    arrangement: Arrangement,
    lines: &mut Lines,
    samples: &mut [S],
    bytes: &'a [u8],
) -> Result<&'a [u8], StreamFault>
    requires regions { regions.now ≡ presets.now }
    requires width { header.now.width ≤ lines.old }
    requires some { 0 < header.now.width }
    requires ids { length (ids_in header.now) ≡ components header.now.kind }
    requires fits { presets.now.maxval ≤ S.most }
    requires samples { length (S.numbers samples.old) ≡ header.now.height * header.now.width * components header.now.kind }
    requires few { header.now.height * header.now.width * components header.now.kind < 2 ^ 32 }
    requires small { (k : ℕ) → slice_index (S.numbers samples.old) k ≤ presets.now.maxval }
    ensures scans { IfOk result (λ rest. (scans : List (List ℕ)) × (scans_at (drop 1 (ids_in header.now)) bytes.now ≡ Ok (scans, rest.now))
        × AreScansOf presets.now header.now.width header.now.height (components header.now.kind) (arranged arrangement (components header.now.kind) (S.numbers samples.new)) scans) }
    ensures none { IfErr result (λ fault. (scans : List (List ℕ)) (left : List ℕ) → scans_at (drop 1 (ids_in header.now)) bytes.now ≡ Ok (scans, left)
        → NoScans presets.now header.now.width header.now.height (components header.now.kind) scans) }
    ensures stops { IfErr result (λ fault. ScansStop presets.now header.now.width header.now.height 0 (drop 1 (ids_in header.now)) bytes.now fault) }
    ensures small { (k : ℕ) → slice_index (S.numbers samples.new) k ≤ presets.now.maxval }
    ensures len { length (S.numbers samples.new) ≡ length (S.numbers samples.old) }
    ensures lines { lines.new ≡ lines.old }
{
    let shape = shape_of(header.kind, header.width, header.height);
    let last = shape.components - 1;
    let mut rest = bytes;
    for component in 0..last {
        let after = decode_data(
            presets,
            regions,
            arrangement,
            lines,
            samples,
            shape,
            component,
            rest,
        )?;
        rest = find_next_scan(header.ids[component + 1], after)?;
    }
    let after = decode_data(
        presets,
        regions,
        arrangement,
        lines,
        samples,
        shape,
        last,
        rest,
    )?;
    find_end(after)
}

/// Skips the scans of all components. The first scan's header was read before. Returns the bytes after EOI.
fn skip_scans<'a>(header: &FrameHeader, bytes: &'a [u8]) -> Result<&'a [u8], StreamFault>
    requires ids { length (ids_in header.now) ≡ components header.now.kind }
    ensures { Gives (λ rest. rest.now) result (rest_of (scans_at (drop 1 (ids_in header.now)) bytes.now)) }
{
    let last = usize::from(header.kind.components()) - 1;
    let mut rest = bytes;
    for component in 0..last {
        rest = find_next_scan(header.ids[component + 1], after_data(rest))?;
    }
    find_end(after_data(rest))
}

/// The bytes after the scan data at the front.
fn after_data(bytes: &[u8]) -> &[u8]
    ensures { result.now ≡ after_data bytes.now }
{
    &bytes[data_of(bytes).len..]
}

/// Decodes the data of a component's scan, at the front of bytes, into the component's places among the samples.
/// Returns the bytes after it.
fn decode_data<'a, S: Sample>(
    presets: &Presets,
    regions: &Regions,
    arrangement: Arrangement,
    lines: &mut Lines,
    samples: &mut [S],
    shape: Shape,
    component: usize,
    bytes: &'a [u8],
) -> Result<&'a [u8], StreamFault>
    requires regions { regions.now ≡ presets.now }
    requires width { shape.width ≤ lines.old }
    requires some { 1 ≤ shape.width }
    requires narrow { shape.width ≤ 65535 }
    requires fits { presets.now.maxval ≤ S.most }
    requires samples { length (S.numbers samples.old) ≡ shape.height * shape.width * shape.components }
    requires few { shape.height * shape.width * shape.components < 2 ^ 32 }
    requires small { (k : ℕ) → slice_index (S.numbers samples.old) k ≤ presets.now.maxval }
    requires component { component < shape.components }
    requires components { shape.components ≤ 3 }
    ensures rest { IfOk result (λ rest. rest.now ≡ after_data bytes.now) }
    ensures coded { IfOk result (λ _. IsCoded presets.now (component_plane shape.width shape.components component (arranged arrangement shape.components (S.numbers samples.new))) (data_at bytes.now)) }
    ensures only { IfOk result (λ _. (plane : Plane) → IsSamplePlane presets.now.maxval shape.width shape.height plane
        → IsCoded presets.now plane (data_at bytes.now) → plane ≡ component_plane shape.width shape.components component (arranged arrangement shape.components (S.numbers samples.new))) }
    ensures none { IfErr result (λ _. (plane : Plane) → IsSamplePlane presets.now.maxval shape.width shape.height plane
        → IsCoded presets.now plane (data_at bytes.now) → ⊥) }
    ensures breaks { IfErr result (λ fault. BreaksData presets.now shape.width shape.height component
        (data_at bytes.now) (stop_at (after_data bytes.now)) fault) }
    ensures others { (k other : ℕ) → other < shape.components → other ≢ component
        → slice_index (arranged arrangement shape.components (S.numbers samples.new)) (k * shape.components + other)
        ≡ slice_index (arranged arrangement shape.components (S.numbers samples.old)) (k * shape.components + other) }
    ensures small { (k : ℕ) → slice_index (S.numbers samples.new) k ≤ presets.now.maxval }
    ensures len { length (S.numbers samples.new) ≡ length (S.numbers samples.old) }
    ensures lines { lines.new ≡ lines.old }
{
    let found = data_of(bytes);
    let area = area_of(arrangement, shape, component);
    let (_, rest) = samples.split_at_mut(area.start);
    let read = decode_scan(
        presets,
        regions,
        &bytes[..found.len],
        lines,
        &mut rest[..area.count],
        Shape {
            width: shape.width,
            height: shape.height,
            components: area.components,
        },
        area.component,
    );
    match read {
        Ok(()) => Ok(&bytes[found.len..]),
        Err(fault) => Err(fault_in(component as u8, found.stop, fault)),
    }
}

/// The fault to report for a fault of a component's scan whose data ends so: Truncated if the input ends before the
/// plane does.
fn fault_in(component: u8, stop: Stop, fault: ScanFault) -> StreamFault
    ensures { result ≡ fault_in component stop fault }
{
    match fault {
        ScanFault::Code(CodeFault::OutOfBits) if stop == Stop::End => StreamFault::Truncated,
        ScanFault::Code(_) => StreamFault::BadCode(component),
        ScanFault::LeftoverBits => StreamFault::LeftoverBits(component),
    }
}
