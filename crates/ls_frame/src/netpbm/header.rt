//! Reading the header of an image, byte by byte.
ghost use Rattle.std.specs.Prelude.{◌≡◌, ◌+◌, ◌<◌, ◌≤◌, ◌&&◌, true, false, MatchOption, OnOk, IfErr, IfOk, MatchResult, nat_lt, nat_le, Ok, Err, None, Some, if◌then◌else◌};
ghost use Rattle.ls_frame.specs.View.Devices.{count_after};
ghost use Rattle.ls_frame.specs.Picture.{sample_count, most_samples};
ghost use Rattle.ls_frame.specs.Netpbm.{is_white, is_line_end, is_digit, is_hash};
ghost use Rattle.ls_frame.specs.View.Known.{known};
ghost use Rattle.ls_frame.specs.View.Reading.{GivesStep, byte_at, digits_at, gap_at, number_at, in_range_at, magic_at, white_at, heading_at, with_digit};
ghost use Rattle.ls_frame.specs.Faults.{blames_device, failed_device};

use super::NetpbmFault;
use crate::device::Feed;
use crate::frame::{Form, Kind, MOST_SAMPLES};

/// The maximum length of a header, in bytes.
pub(super) const HEADER_BYTES: u32 = 65_536;

/// The value that all numbers over 65535 are read as.
const TOO_LARGE: u32 = 65536;

/// Whether a byte is a blank, TAB, CR or LF.
fn is_white(byte: u8) -> bool
    ensures { result ≡ is_white byte }
{
    byte == b' ' || byte == b'\t' || byte == b'\r' || byte == b'\n'
}

fn is_line_end(byte: u8) -> bool
    ensures { result ≡ is_line_end byte }
{
    byte == b'\r' || byte == b'\n'
}

fn is_digit(byte: u8) -> bool
    ensures { result ≡ is_digit byte }
{
    b'0' <= byte && byte <= b'9'
}

/// Reads the next byte of the header, which may have `allowed` more bytes. Fails with `HeaderTooLong` if that is 0,
/// with `Truncated` at the end of input, and with `Io` if the read fails.
fn next_byte<R: Feed>(reader: &mut R, allowed: &mut u32) -> Result<u8, NetpbmFault>
    ensures bytes { GivesStep (R.remaining reader.old) (R.remaining reader.new) allowed.new result
        (byte_at allowed.old (known (R.remaining reader.old))) }
    ensures spent { OnOk result (allowed.new + 1 ≡ allowed.old) }
    ensures failures { R.failed_reads reader.new ≡ count_after (failed_device result) (R.failed_reads reader.old) }
{
    if *allowed == 0 {
        return Err(NetpbmFault::HeaderTooLong);
    }
    let mut byte = [0u8; 1];
    match reader.feed(&mut byte) {
        Err(_) => Err(NetpbmFault::Io),
        Ok(0) => Err(NetpbmFault::Truncated),
        Ok(_) => {
            *allowed -= 1;
            Ok(byte[0])
        }
    }
}

/// Reads the other digits of a number whose digits so far have the value `number`, at most `TOO_LARGE`, and the white
/// space character after them. Returns the whole number's value, or `TOO_LARGE` if it is over 65535.
#[tactic(auto, using(crate::proofs::StepLemmas::digit_lemmas))]
fn read_digits<R: Feed>(
    reader: &mut R,
    allowed: &mut u32,
    mut number: u32,
) -> Result<u32, NetpbmFault>
    requires { number ≤ 65536 }
    ensures bytes { GivesStep (R.remaining reader.old) (R.remaining reader.new) allowed.new result
        (digits_at number allowed.old (known (R.remaining reader.old))) }
    ensures failures { R.failed_reads reader.new ≡ count_after (failed_device result) (R.failed_reads reader.old) }
{
    loop {
        let byte = next_byte(reader, allowed)?;
        if is_digit(byte) {
            number = with_digit(number, byte);
        } else if is_white(byte) {
            return Ok(number);
        } else {
            return Err(NetpbmFault::BadHeader);
        }
    }
}

/// Appends a decimal digit to `number`, and limits the result to `TOO_LARGE`, as `number` must be already. `digit` is
/// its character.
fn with_digit(number: u32, digit: u8) -> u32
    requires small { number ≤ 65536 }
    requires digit { 48 ≤ digit }
    ensures value { result ≡ with_digit number digit }
    ensures small { result ≤ 65536 }
{
    (10 * number + u32::from(digit - b'0')).min(TOO_LARGE)
}

/// Reads the rest of a gap (white space and comments), and returns the digit after it, which is read too.
#[tactic(auto, using(crate::proofs::StepLemmas::gap_lemmas))]
fn read_gap<R: Feed>(reader: &mut R, allowed: &mut u32) -> Result<u8, NetpbmFault>
    ensures bytes { GivesStep (R.remaining reader.old) (R.remaining reader.new) allowed.new result
        (gap_at false allowed.old (known (R.remaining reader.old))) }
    ensures digit { IfOk result (λ byte. is_digit byte ≡ true) }
    ensures failures { R.failed_reads reader.new ≡ count_after (failed_device result) (R.failed_reads reader.old) }
{
    let mut in_comment = false;
    loop {
        let byte = next_byte(reader, allowed)?;
        if in_comment {
            in_comment = !is_line_end(byte);
        } else if byte == b'#' {
            in_comment = true;
        } else if is_digit(byte) {
            return Ok(byte);
        } else if !is_white(byte) {
            return Err(NetpbmFault::BadHeader);
        }
    }
}

/// Reads the rest of a gap, a number and the white space character after it. Returns the number, or `TOO_LARGE` if it
/// is over 65535.
fn read_number<R: Feed>(reader: &mut R, allowed: &mut u32) -> Result<u32, NetpbmFault>
    ensures bytes { GivesStep (R.remaining reader.old) (R.remaining reader.new) allowed.new result
        (number_at allowed.old (known (R.remaining reader.old))) }
    ensures failures { R.failed_reads reader.new ≡ count_after (failed_device result) (R.failed_reads reader.old) }
{
    let digit = read_gap(reader, allowed)?;
    read_digits(reader, allowed, u32::from(digit - b'0'))
}

/// Reads the rest of a gap, a number and the white space character after it. Returns the number, or fails with `fault`
/// if it isn't 1 to 65535; `fault` must not be `Io`.
fn read_in_range<R: Feed>(
    reader: &mut R,
    allowed: &mut u32,
    fault: NetpbmFault,
) -> Result<u16, NetpbmFault>
    requires { blames_device fault ≡ false }
    ensures bytes { GivesStep (R.remaining reader.old) (R.remaining reader.new) allowed.new result
        (in_range_at fault allowed.old (known (R.remaining reader.old))) }
    ensures some { IfOk result (λ number. 0 < number) }
    ensures failures { R.failed_reads reader.new ≡ count_after (failed_device result) (R.failed_reads reader.old) }
{
    match u16::try_from(read_number(reader, allowed)?) {
        Ok(number) if number > 0 => Ok(number),
        _ => Err(fault),
    }
}

/// Reads the second byte of the magic, whose first byte is `first`, and returns the kind that the magic stands for.
fn read_magic<R: Feed>(reader: &mut R, allowed: &mut u32, first: u8) -> Result<Kind, NetpbmFault>
    ensures bytes { GivesStep (R.remaining reader.old) (R.remaining reader.new) allowed.new result
        (magic_at first allowed.old (known (R.remaining reader.old))) }
    ensures failures { R.failed_reads reader.new ≡ count_after (failed_device result) (R.failed_reads reader.old) }
{
    if first != b'P' {
        return Err(NetpbmFault::BadMagic);
    }
    match next_byte(reader, allowed)? {
        b'5' => Ok(Kind::Gray),
        b'6' => Ok(Kind::Color),
        _ => Err(NetpbmFault::BadMagic),
    }
}

/// Reads the white space character that a gap begins with.
fn read_white<R: Feed>(reader: &mut R, allowed: &mut u32) -> Result<(), NetpbmFault>
    ensures bytes { GivesStep (R.remaining reader.old) (R.remaining reader.new) allowed.new result
        (white_at allowed.old (known (R.remaining reader.old))) }
    ensures failures { R.failed_reads reader.new ≡ count_after (failed_device result) (R.failed_reads reader.old) }
{
    if is_white(next_byte(reader, allowed)?) {
        Ok(())
    } else {
        Err(NetpbmFault::BadHeader)
    }
}

/// Reads the header after its first byte, which is `first`, and returns the form that it says, with a size and a maxval
/// within their ranges. It may have `allowed` more bytes.
#[tactic(auto, unfolding(crate::specs::View::Reading::heading_at))]
pub(super) fn read_header<R: Feed>(
    reader: &mut R,
    allowed: &mut u32,
    first: u8,
) -> Result<Form, NetpbmFault>
    ensures bytes { GivesStep (R.remaining reader.old) (R.remaining reader.new) allowed.new result
        (heading_at first allowed.old (known (R.remaining reader.old))) }
    ensures width { IfOk result (λ form. 0 < form.width) }
    ensures height { IfOk result (λ form. 0 < form.height) }
    ensures maxval { IfOk result (λ form. 0 < form.maxval) }
    ensures few { IfOk result (λ form. sample_count form.kind form.width form.height ≤ most_samples) }
    ensures failures { R.failed_reads reader.new ≡ count_after (failed_device result) (R.failed_reads reader.old) }
{
    let kind = read_magic(reader, allowed, first)?;
    read_white(reader, allowed)?;
    let width = read_in_range(reader, allowed, NetpbmFault::SizeOutOfRange)?;
    let height = read_in_range(reader, allowed, NetpbmFault::SizeOutOfRange)?;
    let mut form = Form {
        kind,
        width,
        height,
        maxval: 0,
    };
    if form.sample_count() > MOST_SAMPLES {
        return Err(NetpbmFault::SizeOutOfRange);
    }
    form.maxval = read_in_range(reader, allowed, NetpbmFault::MaxvalOutOfRange)?;
    Ok(form)
}
