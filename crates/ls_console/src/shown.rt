//! Shows file names and other words on a terminal.
use std::fmt;

/// Shows a file name so that it stays on its line and moves nothing on a terminal: as it is, if all its characters
/// are printable, and else in the shell's form `$'..'`, which bash reads as the same name. An empty name is shown as
/// `''`.
#[derive(Clone, Copy)]
pub struct Shown<'a>(pub &'a str);

impl fmt::Display for Shown<'_> {
    fn fmt<W: fmt::Write>(&self, f: &mut fmt::Formatter<W>) -> fmt::Result {
        let name = self.0;
        if name.is_empty() {
            f.write_str("''")
        } else if is_shown_plain(name) {
            f.write_str(name)
        } else {
            let escaped = Escaped(name);
            write!(f, "$'{escaped}'")
        }
    }
}

/// Shows a text as [`Shown`] does between its quotes, even if it is printable.
#[derive(Clone, Copy)]
pub struct Escaped<'a>(pub &'a str);

impl fmt::Display for Escaped<'_> {
    fn fmt<W: fmt::Write>(&self, f: &mut fmt::Formatter<W>) -> fmt::Result {
        for character in self.0.chars() {
            write_escaped(character, f)?;
        }
        Ok(())
    }
}

/// Shows bytes that aren't text in the shell's form `$'..'`, those from 0x80 on in hexadecimal.
#[derive(Clone, Copy)]
pub struct ShownBytes<'a>(pub &'a [u8]);

impl fmt::Display for ShownBytes<'_> {
    fn fmt<W: fmt::Write>(&self, f: &mut fmt::Formatter<W>) -> fmt::Result {
        f.write_str("$'")?;
        for byte in self.0 {
            write_byte(*byte, f)?;
        }
        f.write_str("'")
    }
}

/// Whether all characters of a text are printable.
pub fn is_shown_plain(text: &str) -> bool {
    text.chars().all(is_printable)
}

/// Whether a character is shown as it is: not if it is a control character, ends a line, changes the direction of
/// what follows, or has no width and may begin a text (U+FEFF).
fn is_printable(character: char) -> bool {
    let code = u32::from(character);
    !(is_control(code) || is_directional(code) || code == 0xFEFF)
}

/// Whether this is the code of a control character, or of a line's or paragraph's end.
fn is_control(code: u32) -> bool {
    code < 0x20 || is_among(code, 0x7F, 0x9F) || is_among(code, 0x2028, 0x2029)
}

/// Whether this is the code of a character that changes the direction of what follows.
fn is_directional(code: u32) -> bool {
    code == 0x061C
        || is_among(code, 0x200E, 0x200F)
        || is_among(code, 0x202A, 0x202E)
        || is_among(code, 0x2066, 0x2069)
}

/// Whether a code is from `first` to `last`.
fn is_among(code: u32, first: u32, last: u32) -> bool {
    first <= code && code <= last
}

/// Writes a character as in the shell's `$'..'`.
fn write_escaped<W: fmt::Write>(character: char, f: &mut fmt::Formatter<W>) -> fmt::Result {
    match character {
        '\n' => f.write_str("\\n"),
        '\r' => f.write_str("\\r"),
        '\t' => f.write_str("\\t"),
        '\\' => f.write_str("\\\\"),
        '\'' => f.write_str("\\'"),
        _ if is_printable(character) => f.write_char(character),
        _ => write_code(u32::from(character), f),
    }
}

/// Writes a byte that may not be text.
fn write_byte<W: fmt::Write>(byte: u8, f: &mut fmt::Formatter<W>) -> fmt::Result {
    if byte < 0x80 {
        write_escaped(char::from(byte), f)
    } else {
        write!(f, "\\x{byte:02x}")
    }
}

/// Writes the code of a character that isn't printable.
fn write_code<W: fmt::Write>(code: u32, f: &mut fmt::Formatter<W>) -> fmt::Result {
    if code < 0x80 {
        write!(f, "\\x{code:02x}")
    } else {
        write!(f, "\\u{code:04x}")
    }
}
