//! The C library: encoding and decoding in a caller's memory, by the calls of `ls_stream`.
//!
//! Its interface is the exported functions. `library/include/jlsrec.h` declares them for C and says what each returns
//! and leaves in memory; `specs/Calls.antt` says the same, call by call (`IsEncoding`, `IsDecoding`, `IsLaidOut`,
//! `IsReading`, `IsExtent`, `IsExtents`, `IsStrictness`), in terms of the forms, layouts and rows of
//! `specs/Forms.antt`, the statuses of `specs/Refusals.antt` and the texts of `specs/Texts.antt`, except that NO_MEMORY
//! is returned if an allocation fails, and only then. In C a slice is a pointer followed by a count, and `alloc` is no
//! parameter: it stands for the malloc, realloc and free of the process.
//!
//! In reading order: `form` (the structs shared with C), `refusal` (why a call refuses, and the statuses), `request`
//! (what is to be encoded, checked before anything is allocated), `coding` (encoding and decoding), `reading` (reading
//! a form alone), `extent` (the lengths of the next codestreams, and a bound on the length of one of a given form),
//! `strict` (whether data are exactly those that encoding gives), `text` (the text of a status).
#![tactic(auto)]

mod coding;
mod extent;
mod form;
mod reading;
mod refusal;
mod request;
mod strict;
mod text;

ghost use Rattle.std.specs.Prelude.{◌≡◌, ◌^◌, ◌<◌, ◌≤◌, length};
ghost use Rattle.std.specs.List.{AllByRecursion};
ghost use Rattle.ls_frame.specs.Picture.{Picture, IsFrame};
ghost use Rattle.ls_frame.specs.Parameters.{Parameters, IsLegal};
ghost use Rattle.ls_stream.specs.Layout.{codestream};
ghost use Rattle.ls_c.specs.Calls.{IsEncoding, IsDecoding, IsLaidOut, IsReading, IsExtent, IsExtents, IsStrictness, printed};
ghost use Rattle.ls_c.specs.Forms.{bound_of, plain_form, by_pixels, by_planes, IsOfForm};
ghost use Rattle.ls_c.specs.Texts.{text_of};

use coding::{decode, decode_laid_out, encode};
use extent::{bound, next_extent, next_extents};
use form::{JlsrecFault, JlsrecForm, plain_form};
use ls_frame::Samples;
use reading::read_form;
use refusal::status_of;
use request::Layout;
use std::alloc::Global;
use strict::check_strict;
use text::print;

/// Encodes samples of 16 bits into `bytes`. `written` is the number of bytes of the codestream, also if it doesn't fit
/// in `bytes`; after any other refusal it is 0. Returns the status.
#[unsafe(no_mangle)]
pub extern "C" fn jlsrec_encode_16(
    alloc: Global,
    form: &JlsrecForm,
    samples: &[u16],
    stride: usize,
    bytes: &mut [u8],
    written: &mut usize,
) -> u32
    ensures { IsEncoding 65535 form.now (by_pixels stride) samples.now bytes.old bytes.new written.new result }
{
    let layout = Layout::by_pixels(stride);
    status_of(encode(alloc, form, Samples::Words(samples), layout, bytes, written))
}

/// Encodes samples of 8 bits into `bytes`. `written` is the number of bytes of the codestream, also if it doesn't fit
/// in `bytes`; after any other refusal it is 0. Returns the status.
#[unsafe(no_mangle)]
pub extern "C" fn jlsrec_encode_8(
    alloc: Global,
    form: &JlsrecForm,
    samples: &[u8],
    stride: usize,
    bytes: &mut [u8],
    written: &mut usize,
) -> u32
    ensures { IsEncoding 255 form.now (by_pixels stride) samples.now bytes.old bytes.new written.new result }
{
    let layout = Layout::by_pixels(stride);
    status_of(encode(alloc, form, Samples::Bytes(samples), layout, bytes, written))
}

/// Encodes planes of samples of 16 bits, with a stride in bytes, into `bytes`. The rest is as for `jlsrec_encode_16`.
#[unsafe(no_mangle)]
pub extern "C" fn jlsrec_encode_planes_16(
    alloc: Global,
    form: &JlsrecForm,
    samples: &[u16],
    stride: usize,
    bytes: &mut [u8],
    written: &mut usize,
) -> u32
    ensures { IsEncoding 65535 form.now (by_planes 2 stride) samples.now bytes.old bytes.new written.new result }
{
    let layout = Layout::by_planes(2, stride);
    status_of(encode(alloc, form, Samples::Words(samples), layout, bytes, written))
}

/// Encodes planes of samples of 8 bits, with a stride in bytes, into `bytes`. The rest is as for `jlsrec_encode_8`.
#[unsafe(no_mangle)]
pub extern "C" fn jlsrec_encode_planes_8(
    alloc: Global,
    form: &JlsrecForm,
    samples: &[u8],
    stride: usize,
    bytes: &mut [u8],
    written: &mut usize,
) -> u32
    ensures { IsEncoding 255 form.now (by_planes 1 stride) samples.now bytes.old bytes.new written.new result }
{
    let layout = Layout::by_planes(1, stride);
    status_of(encode(alloc, form, Samples::Bytes(samples), layout, bytes, written))
}

/// Decodes the codestream at the front of `bytes` into samples of 16 bits; sets `form`, `used` (its number of bytes)
/// and `fault` (the details of its fault). Returns the status.
#[unsafe(no_mangle)]
pub extern "C" fn jlsrec_decode_16(
    alloc: Global,
    bytes: &[u8],
    samples: &mut [u16],
    form: &mut JlsrecForm,
    used: &mut usize,
    fault: &mut JlsrecFault,
) -> u32
    ensures { IsDecoding 65535 bytes.now samples.old samples.new form.new used.new fault.new result }
{
    status_of(decode(alloc, bytes, samples, form, used, fault))
}

/// Decodes the codestream at the front of `bytes` into samples of 8 bits; sets `form`, `used` (its number of bytes) and
/// `fault` (the details of its fault). Returns the status.
#[unsafe(no_mangle)]
pub extern "C" fn jlsrec_decode_8(
    alloc: Global,
    bytes: &[u8],
    samples: &mut [u8],
    form: &mut JlsrecForm,
    used: &mut usize,
    fault: &mut JlsrecFault,
) -> u32
    ensures { IsDecoding 255 bytes.now samples.old samples.new form.new used.new fault.new result }
{
    status_of(decode(alloc, bytes, samples, form, used, fault))
}

/// Decodes the codestream at the front of `bytes` into planes of samples of 16 bits, with a stride in bytes. The rest is
/// as for `jlsrec_decode_16`.
#[unsafe(no_mangle)]
pub extern "C" fn jlsrec_decode_planes_16(
    alloc: Global,
    bytes: &[u8],
    samples: &mut [u16],
    stride: usize,
    form: &mut JlsrecForm,
    used: &mut usize,
    fault: &mut JlsrecFault,
) -> u32
    ensures { IsLaidOut 65535 bytes.now (by_planes 2 stride) samples.old samples.new form.new used.new fault.new result }
{
    let layout = Layout::by_planes(2, stride);
    status_of(decode_laid_out(alloc, bytes, layout, samples, form, used, fault))
}

/// Decodes the codestream at the front of `bytes` into planes of samples of 8 bits, with a stride in bytes. The rest is
/// as for `jlsrec_decode_8`.
#[unsafe(no_mangle)]
pub extern "C" fn jlsrec_decode_planes_8(
    alloc: Global,
    bytes: &[u8],
    samples: &mut [u8],
    stride: usize,
    form: &mut JlsrecForm,
    used: &mut usize,
    fault: &mut JlsrecFault,
) -> u32
    ensures { IsLaidOut 255 bytes.now (by_planes 1 stride) samples.old samples.new form.new used.new fault.new result }
{
    let layout = Layout::by_planes(1, stride);
    status_of(decode_laid_out(alloc, bytes, layout, samples, form, used, fault))
}

/// Sets `form` to the one that the headers at the front of `bytes` give, or `fault` to the details of the first fault.
/// Returns the status.
#[unsafe(no_mangle)]
pub extern "C" fn jlsrec_read_form(
    bytes: &[u8],
    form: &mut JlsrecForm,
    fault: &mut JlsrecFault,
) -> u32
    ensures { IsReading bytes.now form.new fault.new result }
{
    status_of(read_form(bytes, form, fault))
}

/// Sets `extent` to the number of bytes of the next codestream, found by its markers alone. Returns the status.
#[unsafe(no_mangle)]
pub extern "C" fn jlsrec_extent(alloc: Global, bytes: &[u8], extent: &mut usize) -> u32
    ensures { IsExtent bytes.now extent.new result }
{
    status_of(next_extent(alloc, bytes, extent))
}

/// Sets the first `extents` to the numbers of bytes of the codestreams that stand one after the other at the front of
/// `bytes`, found by their markers alone; `found` to how many there are; and `fault` to the details of the fault at
/// which they end. Returns the status, which is 0 if no bytes are left.
#[unsafe(no_mangle)]
pub extern "C" fn jlsrec_extents(
    bytes: &[u8],
    extents: &mut [usize],
    found: &mut usize,
    fault: &mut JlsrecFault,
) -> u32
    ensures { IsExtents bytes.now extents.old extents.new found.new fault.new result }
{
    status_of(next_extents(bytes, extents, found, fault))
}

/// Decodes the codestream at the front of `bytes`, and compares the data of its scans with those that encoding gives.
/// Sets `used` to its number of bytes, and `fault` to the first component that has other data, or to the details of the
/// first fault. Returns the status, which is 0 if there is neither.
#[unsafe(no_mangle)]
pub extern "C" fn jlsrec_strict(
    alloc: Global,
    bytes: &[u8],
    used: &mut usize,
    fault: &mut JlsrecFault,
) -> u32
    ensures { IsStrictness bytes.now used.new fault.new result }
{
    check_strict(alloc, bytes, used, fault)
}

/// Returns an upper bound on the bytes of a codestream of a picture of this form, with any coding parameters, which is
/// less than 2^32; 0 if there is no such picture.
#[unsafe(no_mangle)]
pub extern "C" fn jlsrec_bound(components: u32, width: u32, height: u32, maxval: u32) -> u64
    ensures value { result ≡ bound_of (plain_form components width height maxval) }
    ensures small { result < 2 ^ 32 }
    ensures enough { (f : Picture) (p : Parameters) → IsFrame f → IsLegal p → p.maxval ≡ f.maxval
        → IsOfForm f (plain_form components width height maxval) → length (codestream f p) ≤ result }
{
    bound(&plain_form(components, width, height, maxval))
}

/// Writes the text of a status to `text`, cut to fit, with a 0 after it. Returns the length of the uncut text, which is
/// at most 64 and has no 0.
#[unsafe(no_mangle)]
pub extern "C" fn jlsrec_text(status: u32, fault: &JlsrecFault, text: &mut [u8]) -> usize
    ensures text { text.new ≡ printed (text_of status fault.now) text.old }
    ensures count { result ≡ length (text_of status fault.now) }
    ensures short { result ≤ 64 }
    ensures no_zero { AllByRecursion (λ byte. 0 < byte) (text_of status fault.now) }
{
    print(status, fault, text)
}

/// Returns the version: 10000 times its first number, plus 100 times the second, plus the third.
#[unsafe(no_mangle)]
pub extern "C" fn jlsrec_version() -> u32
    ensures { result ≡ 100 }
{
    100
}
