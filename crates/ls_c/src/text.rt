//! The text of a status. The words are the program's, in a table of their own: no contract says what a derived `Display`
//! writes.
ghost use Rattle.std.specs.Prelude.{◌≡◌, ◌<◌, ◌≤◌, ◌++◌, length, take, map, slice_index_or};
ghost use Rattle.std.specs.List.{AllByRecursion};
ghost use Rattle.ls_c.specs.Calls.{printed};
ghost use Rattle.ls_c.specs.Texts.{unknown, words_of, detail_of, detail_text, digit, hexadecimal, text_of};

use crate::form::JlsrecFault;
use itoa::Buffer;
use ls_frame::lay;

/// Room for the longest text, in bytes.
const MOST: usize = 64;

/// The text for a number that is no status, and for a detail that no fault has.
const UNKNOWN: &str = "unknown status";

/// The words of the statuses from 0 on, up to the detail that some of them give.
const WORDS: [&str; 42] = [
    "done",
    "no memory",
    "no room",
    "neither 1 nor 3 components",
    "a side isn't 1 to 65535",
    "over 2^28 samples",
    "maxval isn't 1 to 65535",
    "the stride is less than a row or splits a sample",
    "fewer samples than the form asks for",
    "a sample is over maxval",
    "bad presets: T1",
    "bad presets: T2",
    "bad presets: T3",
    "bad presets: RESET",
    "maxval is over 255",
    "not strict",
    "unknown status",
    "unknown status",
    "unknown status",
    "unknown status",
    "truncated",
    "no SOI",
    "bad segment",
    "unsupported: marker ",
    "unsupported: ",
    "unsupported: height 0",
    "unsupported: sampling",
    "unsupported: mapping table",
    "unsupported: near-lossless",
    "unsupported: interleave",
    "unsupported: point transform",
    "unsupported: LSE ",
    "unsupported: LSE after a scan",
    "unsupported: scan order",
    "bad presets: maxval",
    "bad presets: T1",
    "bad presets: T2",
    "bad presets: T3",
    "bad presets: RESET",
    "too large",
    "bad code in component ",
    "leftover bits in component ",
];

/// Writes the text of a status to `text`, cut to fit, with a 0 after it. Returns the length of the uncut text, which is
/// at most 64 and has no 0.
pub fn print(status: u32, fault: &JlsrecFault, text: &mut [u8]) -> usize
    ensures text { text.new ≡ printed (text_of status fault.now) text.old }
    ensures count { result ≡ length (text_of status fault.now) }
    ensures short { result ≤ 64 }
    ensures no_zero { AllByRecursion (λ byte. 0 < byte) (text_of status fault.now) }
{
    let mut line = [0u8; MOST];
    let count = put_text(&mut line, status, fault);
    lay_text(&line[..count], text);
    count
}

/// Writes the text of a status to the front of `line`, and returns its length.
fn put_text(line: &mut [u8; MOST], status: u32, fault: &JlsrecFault) -> usize
    ensures laid { take result line.new ≡ text_of status fault.now }
    ensures within { result ≤ 64 }
{
    let Ok(detail) = u8::try_from(detail_of(status, fault)) else {
        return lay(line, 0, UNKNOWN.as_bytes());
    };
    let end = lay(line, 0, words_of(status).as_bytes());
    put_detail(line, end, status, detail)
}

/// Returns the words of a status, up to the detail that its text gives.
#[tactic(auto, unfolding(crate::specs::Texts::words_of))]
fn words_of(status: u32) -> &'static str
    ensures { result.now ≡ words_of status }
{
    let rows: [&str; 42] = WORDS;
    row_at(rows.as_slice(), status as usize)
}

/// Returns the row of a table at this place, or `UNKNOWN` after its end.
fn row_at(rows: &[&'static str], place: usize) -> &'static str
    ensures { result.now ≡ slice_index_or (map (λ row. row.now) rows.now) place unknown }
{
    if place < rows.len() {
        rows[place]
    } else {
        UNKNOWN
    }
}

/// Returns the detail that the text of a status gives; 0 if it gives none.
fn detail_of(status: u32, fault: &JlsrecFault) -> u32
    ensures { result ≡ detail_of status fault.now }
{
    match status {
        23 => fault.marker,
        24 | 31 => fault.number,
        40 | 41 => fault.component,
        _ => 0,
    }
}

/// Writes what follows the words of a status after the first `end` bytes of `line`, and returns where it ends.
fn put_detail(line: &mut [u8; MOST], end: usize, status: u32, detail: u8) -> usize
    requires { end ≤ 48 }
    ensures laid { take result line.new ≡ take end line.old ++ detail_text status detail }
    ensures within { result ≤ 64 }
{
    let mut digits = Buffer::new();
    match status {
        23 => lay(line, end, &hexadecimal(detail)),
        24 => {
            let number = lay(line, end, digits.format(detail).as_bytes());
            lay(line, number, b" components")
        }
        31 | 40 | 41 => lay(line, end, digits.format(detail).as_bytes()),
        _ => end,
    }
}

/// Returns a byte as two hexadecimal digits.
fn hexadecimal(byte: u8) -> [u8; 2]
    ensures { result ≡ hexadecimal byte }
{
    [digit(byte / 16), digit(byte % 16)]
}

/// Returns a hexadecimal digit, in lower case.
fn digit(value: u8) -> u8
    requires { value < 16 }
    ensures { result ≡ digit value }
{
    if value < 10 {
        b'0' + value
    } else {
        b'a' - 10 + value
    }
}

/// Copies a text, cut to fit, with a 0 after it.
fn lay_text(said: &[u8], text: &mut [u8])
    ensures { text.new ≡ printed said.now text.old }
{
    if text.is_empty() {
        return;
    }
    let count = said.len().min(text.len() - 1);
    text[..count].copy_from_slice(&said[..count]);
    text[count] = 0;
}
