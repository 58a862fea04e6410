//! JSON (RFC 8259): texts as strings, and lines of columns as objects.
use std::io::Write;
use std::{fmt, io};

/// Shows a text as a string of JSON, with its quotes.
#[derive(Clone, Copy)]
pub struct Quoted<'a>(pub &'a str);

impl fmt::Display for Quoted<'_> {
    fn fmt<W: fmt::Write>(&self, f: &mut fmt::Formatter<W>) -> fmt::Result {
        f.write_char('"')?;
        for character in self.0.chars() {
            write_quoted(character, f)?;
        }
        f.write_char('"')
    }
}

/// Writes a character as in a string of JSON.
fn write_quoted<W: fmt::Write>(character: char, f: &mut fmt::Formatter<W>) -> fmt::Result {
    match character {
        '"' => f.write_str("\\\""),
        '\\' => f.write_str("\\\\"),
        ' '.. => f.write_char(character),
        _ => {
            let code = u32::from(character);
            write!(f, "\\u{code:04x}")
        }
    }
}

/// A column of lines, with the name that it has in their objects.
#[derive(Clone, Copy)]
pub enum Column {
    /// A number in decimal digits.
    Number(&'static str),
    /// A word of letters and digits.
    Word(&'static str),
}

/// A writer that takes lines of columns, one blank between, and writes an object of JSON on a line of its own for each.
/// A line may lack its last columns, and its object then lacks their members.
///
/// It says of no byte that it is known, so no clause says what it writes: that is shown by the tests of the whole program.
/// After a failure it isn't to be written to.
#[derive(Drop)]
pub struct Objects<W> {
    writer: W,
    columns: &'static [Column],
    /// The number of the column that the next byte is in.
    number: usize,
    /// Whether that column has begun.
    is_begun: bool,
}

impl<W: Write> Objects<W> {
    /// Writes the objects of lines with these columns to `writer`.
    pub fn new(writer: W, columns: &'static [Column]) -> Objects<W> {
        Objects {
            writer,
            columns,
            number: 0,
            is_begun: false,
        }
    }

    /// Takes the next byte of a line.
    fn take(&mut self, byte: u8) -> io::Result<()> {
        match byte {
            b' ' => {
                self.end_value()?;
                self.number = self.number.saturating_add(1);
                Ok(())
            }
            b'\n' => {
                self.end_value()?;
                self.number = 0;
                self.writer.write_all(b"}\n")
            }
            _ => {
                self.begin_value()?;
                self.writer.write_all(&[byte])
            }
        }
    }

    /// Writes what is before a value, if the column hasn't begun.
    fn begin_value(&mut self) -> io::Result<()> {
        if self.is_begun {
            return Ok(());
        }
        self.is_begun = true;
        let (name, before) = match self.columns.get(self.number) {
            Some(Column::Number(name)) => (*name, "\": "),
            Some(Column::Word(name)) => (*name, "\": \""),
            None => ("more", "\": "),
        };
        let between = if self.number == 0 { "{\"" } else { ", \"" };
        self.writer.write_all(between.as_bytes())?;
        self.writer.write_all(name.as_bytes())?;
        self.writer.write_all(before.as_bytes())
    }

    /// Writes what is after a value.
    fn end_value(&mut self) -> io::Result<()> {
        self.is_begun = false;
        match self.columns.get(self.number) {
            Some(Column::Word(_)) => self.writer.write_all(b"\""),
            _ => Ok(()),
        }
    }
}

impl<W: Write> Write for Objects<W> {
    ghost use Rattle.std.specs.Prelude.{None};

    ghost contents = { λ _. None };

    fn write(&mut self, buf: &[u8]) -> io::Result<usize> {
        for byte in buf {
            self.take(*byte)?;
        }
        Ok(buf.len())
    }

    fn flush(&mut self) -> io::Result<()> {
        self.writer.flush()
    }
}
