//! Writing marker segments (T.87 Annex C; T.81 B.1). Each function appends to a `Room`, which must have capacity left
//! for what is appended.
ghost use Rattle.std.specs.Prelude.{◌≡◌, ◌+◌, ◌-◌, ◌*◌, ◌<◌, ◌≤◌, ◌++◌, length, map, flat_map};
ghost use Rattle.std.specs.List.{range_with_len};
ghost use Rattle.ls_frame.specs.Picture.{components};
ghost use Rattle.ls_frame.specs.Parameters.{bpp_of};
ghost use Rattle.ls_bits.specs.Bits.{two_bytes};
ghost use Rattle.ls_stream.specs.Markers.{marker as marker_bytes};
ghost use Rattle.ls_stream.specs.Segments.{segment, component_bytes, header_contents, presets_contents, scan_contents};
ghost use Rattle.ls_stream.specs.Grammar.{greatest_maxval, miscellaneous_bytes};
ghost use Rattle.ls_stream.specs.Layout.{written_component, written_header, needs_presets, written_presets, presets_length};

use crate::arranged::ArrangedView;
use crate::marker::Marker;
use crate::segments::{SAMPLED_ONE_BY_ONE, greatest_maxval};
use byteorder::{BigEndian, ByteOrder};
use ls_bits::Room;
use ls_frame::Presets;

/// Appends a marker.
pub fn put_marker<R: Room>(bytes: &mut R, marker: Marker)
    requires room { length (R.items bytes.old) + 2 ≤ R.capacity bytes.old }
    ensures bytes { R.items bytes.new ≡ R.items bytes.old ++ marker_bytes marker }
    ensures len { length (R.items bytes.new) ≡ length (R.items bytes.old) + 2 }
    ensures capacity { R.capacity bytes.new ≡ R.capacity bytes.old }
    ensures grown { R.Grown bytes.old bytes.new }
{
    bytes.put_byte(0xFF);
    bytes.put_byte(marker.code());
}

/// Appends the frame header: bits per sample (P), lines (Y), samples per line (X), and the components, numbered from 1
/// (SOF55; T.87 C.2.2).
#[tactic(auto, unfolding(crate::specs::Segments::header_contents))]
pub fn put_frame_header<R: Room>(bytes: &mut R, picture: &ArrangedView)
    requires room { length (R.items bytes.old) + (10 + 3 * components picture.now.kind) ≤ R.capacity bytes.old }
    ensures bytes { R.items bytes.new
        ≡ R.items bytes.old ++ segment Marker.StartOfFrame (header_contents (written_header picture.now)) }
    ensures len { length (R.items bytes.new) ≡ length (R.items bytes.old) + (10 + 3 * components picture.now.kind) }
    ensures capacity { R.capacity bytes.new ≡ R.capacity bytes.old }
    ensures grown { R.Grown bytes.old bytes.new }
{
    let form = picture.form();
    let count = form.kind.components();
    put_marker(bytes, Marker::StartOfFrame);
    put_field(bytes, 8 + 3 * u16::from(count));
    bytes.put_byte(precision(form.maxval));
    put_field(bytes, form.height);
    put_field(bytes, form.width);
    bytes.put_byte(count);
    put_components(bytes, count);
}

/// Appends preset parameters, only if they have to be written (`needs_presets`).
pub fn put_presets_if_needed<R: Room>(bytes: &mut R, presets: &Presets)
    requires room { length (R.items bytes.old) + presets_length presets.now ≤ R.capacity bytes.old }
    ensures bytes { R.items bytes.new ≡ R.items bytes.old ++ miscellaneous_bytes (written_presets presets.now) }
    ensures len { length (R.items bytes.new) ≡ length (R.items bytes.old) + presets_length presets.now }
    ensures capacity { R.capacity bytes.new ≡ R.capacity bytes.old }
    ensures grown { R.Grown bytes.old bytes.new }
{
    if needs_presets(presets) {
        put_presets(bytes, presets);
    }
}

/// The number of bytes that `put_presets_if_needed` appends.
pub fn presets_length(presets: &Presets) -> u64
    ensures value { result ≡ presets_length presets.now }
    ensures small { result ≤ 15 }
{
    if needs_presets(presets) { 15 } else { 0 }
}

/// Appends the header of a scan of one component, the one with this identifier (SOS; T.87 C.2.3).
#[tactic(auto, unfolding(crate::specs::Segments::scan_contents))]
pub fn put_scan_header<R: Room>(bytes: &mut R, id: u8)
    requires room { length (R.items bytes.old) + 10 ≤ R.capacity bytes.old }
    ensures bytes { R.items bytes.new ≡ R.items bytes.old ++ segment Marker.StartOfScan (scan_contents id) }
    ensures len { length (R.items bytes.new) ≡ length (R.items bytes.old) + 10 }
    ensures capacity { R.capacity bytes.new ≡ R.capacity bytes.old }
    ensures grown { R.Grown bytes.old bytes.new }
{
    put_marker(bytes, Marker::StartOfScan);
    put_field(bytes, 8);
    bytes.put_byte(1);
    bytes.put_byte(id);
    put_field(bytes, 0);
    put_field(bytes, 0);
}

/// Appends a field of two bytes, the upper byte first.
fn put_field<R: Room>(bytes: &mut R, field: u16)
    requires room { length (R.items bytes.old) + 2 ≤ R.capacity bytes.old }
    ensures bytes { R.items bytes.new ≡ R.items bytes.old ++ two_bytes field }
    ensures len { length (R.items bytes.new) ≡ length (R.items bytes.old) + 2 }
    ensures capacity { R.capacity bytes.new ≡ R.capacity bytes.old }
    ensures grown { R.Grown bytes.old bytes.new }
{
    let mut two = [0u8; 2];
    BigEndian::write_u16(&mut two, field);
    bytes.put_byte(two[0]);
    bytes.put_byte(two[1]);
}

/// P: the bits per sample of a picture with this maxval.
fn precision(maxval: u16) -> u8
    requires { 0 < maxval }
    ensures { result ≡ bpp_of maxval }
{
    Presets::default_of(maxval).bpp() as u8
}

/// Appends the fields of this number of components: identifiers from 1 on, sampling factors 1, and quantization table
/// 0.
fn put_components<R: Room>(bytes: &mut R, count: u8)
    requires few { count ≤ 3 }
    requires room { length (R.items bytes.old) + 3 * count ≤ R.capacity bytes.old }
    ensures bytes { R.items bytes.new ≡ R.items bytes.old ++ flat_map component_bytes (map written_component (range_with_len 0 count)) }
    ensures len { length (R.items bytes.new) ≡ length (R.items bytes.old) + 3 * count }
    ensures capacity { R.capacity bytes.new ≡ R.capacity bytes.old }
    ensures grown { R.Grown bytes.old bytes.new }
{
    for component in 0..count {
        bytes.put_byte(component + 1);
        bytes.put_byte(SAMPLED_ONE_BY_ONE);
        bytes.put_byte(0);
    }
}

/// Whether a codestream has to contain its parameters: they aren't the defaults of the greatest MAXVAL of their
/// precision.
fn needs_presets(presets: &Presets) -> bool
    ensures { result ≡ needs_presets presets.now }
{
    *presets != Presets::default_of(greatest_maxval(presets.bpp()))
}

/// Appends preset parameters (LSE with ID 1; T.87 C.2.4.1.1).
#[tactic(auto, unfolding(crate::specs::Segments::presets_contents))]
fn put_presets<R: Room>(bytes: &mut R, presets: &Presets)
    requires room { length (R.items bytes.old) + 15 ≤ R.capacity bytes.old }
    ensures bytes { R.items bytes.new ≡ R.items bytes.old ++ segment Marker.PresetParameters (presets_contents presets.now) }
    ensures len { length (R.items bytes.new) ≡ length (R.items bytes.old) + 15 }
    ensures capacity { R.capacity bytes.new ≡ R.capacity bytes.old }
    ensures grown { R.Grown bytes.old bytes.new }
{
    put_marker(bytes, Marker::PresetParameters);
    put_field(bytes, 13);
    bytes.put_byte(1);
    put_parameters(bytes, presets);
}

/// Appends MAXVAL, the thresholds and RESET.
fn put_parameters<R: Room>(bytes: &mut R, presets: &Presets)
    requires room { length (R.items bytes.old) + 10 ≤ R.capacity bytes.old }
    ensures bytes { let p = presets.now in R.items bytes.new ≡ R.items bytes.old
        ++ (two_bytes p.maxval ++ two_bytes p.t1 ++ two_bytes p.t2 ++ two_bytes p.t3 ++ two_bytes p.reset) }
    ensures len { length (R.items bytes.new) ≡ length (R.items bytes.old) + 10 }
    ensures capacity { R.capacity bytes.new ≡ R.capacity bytes.old }
    ensures grown { R.Grown bytes.old bytes.new }
{
    put_field(bytes, presets.maxval());
    put_field(bytes, presets.t1());
    put_field(bytes, presets.t2());
    put_field(bytes, presets.t3());
    put_field(bytes, presets.reset());
}
