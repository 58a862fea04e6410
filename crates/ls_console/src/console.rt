//! Standard error: the program's messages, and progress on a terminal.
use crate::shown::Shown;
use ls_frame::{Failed, Outlet, write_bytes};
use std::alloc::{AllocError, Global};
use std::fmt::{Display, Style};
use std::io;

/// The number of characters in a progress line at a terminal's usual width: one less than that, since some terminals
/// go to the next line after the last.
pub const COLUMNS: usize = 79;

/// The least number of a terminal's lines with which progress is shown in several, and how many of its lines are kept for
/// messages above them.
const LEAST_HEIGHT: usize = 24;

const KEPT: usize = 2;

/// The hint for a file `-` that can't be opened.
const STANDARD_INPUT: &str = "; - is a file's name, and standard input is /dev/stdin";

/// Standard error, and how detailed its messages are.
#[derive(Drop)]
pub struct Console<E> {
    alloc: Global,
    errors: E,
    /// Whether it is a terminal.
    is_terminal: bool,
    /// The number of characters in a progress line.
    columns: usize,
    /// The number of the terminal's lines; 0 if it isn't known.
    height: usize,
    /// Whether reasons are on: the program then says why a device failed, what a file seems to be, how one was
    /// renamed.
    reasons: bool,
    /// The progress that is shown.
    shown: Progress,
}

/// What is shown of progress.
#[derive(Clone, Copy)]
enum Progress {
    Nothing,
    /// A line, which the cursor is in.
    Line,
    /// Several lines, at whose beginning the cursor is.
    Lines,
}

impl<E: Outlet> Console<E> {
    /// A console on `errors`, which is a terminal or isn't; a progress line has `columns` characters there.
    pub fn new(alloc: Global, errors: E, is_terminal: bool, columns: usize) -> Console<E> {
        Console {
            alloc,
            errors,
            is_terminal,
            columns,
            height: 0,
            reasons: is_terminal,
            shown: Progress::Nothing,
        }
    }

    /// Takes the number of the terminal's lines.
    pub fn set_height(&mut self, height: usize) {
        self.height = height;
    }

    /// Turns reasons on, if `reasons`. On a terminal they are on in any case.
    pub fn tell_reasons(&mut self, reasons: bool) {
        self.reasons = self.reasons || reasons;
    }

    /// Returns what the messages were written to.
    pub fn into_errors(self) -> E {
        self.errors
    }

    pub fn is_terminal(&self) -> bool {
        self.is_terminal
    }

    pub fn reasons(&self) -> bool {
        self.reasons
    }

    /// The number of characters in a progress line.
    pub fn columns(&self) -> usize {
        self.columns
    }

    /// The number of characters in the progress line of this number of films; `None` if there is a line for each, since
    /// the terminal is high enough.
    pub fn columns_of_all(&self, films: usize) -> Option<usize> {
        let is_high = LEAST_HEIGHT <= self.height && films.saturating_add(KEPT) <= self.height;
        if films > 1 && is_high {
            None
        } else {
            Some(self.columns)
        }
    }

    /// Writes a line, or says that there is no memory for it.
    pub fn say<D: Display + Drop>(&mut self, text: D) {
        let line = format!(in self.alloc; "jlsrec: {text}\n");
        match &line {
            Ok(line) => self.write(line.as_bytes()),
            Err(_) => self.write(b"jlsrec: no memory\n"),
        }
    }

    /// Clears the progress that is shown, then writes a text as it is. A failure is ignored.
    pub fn write(&mut self, text: &[u8]) {
        self.clear();
        let _refused = write_bytes(&mut self.errors, text);
    }

    /// Shows a progress line over the one before, cut to the number of columns. For a terminal only.
    pub fn show(&mut self, line: &str) {
        let cut: Result<String, AllocError> = line.chars().take(self.columns).collect(self.alloc);
        if let Ok(cut) = cut {
            let filled = cut.as_str().left().width(self.columns);
            if let Ok(text) = format!(in self.alloc; "\r{filled}") {
                self.shown = Progress::Line;
                let _refused = write_bytes(&mut self.errors, text.as_bytes());
            }
        }
    }

    /// Shows progress in several lines, none longer than the number of columns, over those before. For a terminal only,
    /// which has more lines.
    pub fn show_lines(&mut self, lines: &[String]) {
        if let Ok(text) = drawn(self.alloc, lines) {
            self.shown = Progress::Lines;
            let _refused = write_bytes(&mut self.errors, text.as_bytes());
        }
    }

    /// Clears the progress that is shown, if any is.
    pub fn clear(&mut self) {
        let columns = match self.shown {
            Progress::Nothing => return,
            Progress::Line => Some(self.columns),
            Progress::Lines => None,
        };
        self.shown = Progress::Nothing;
        if let Ok(text) = cleared(self.alloc, columns) {
            let _refused = write_bytes(&mut self.errors, text.as_bytes());
        }
    }

    /// Says that memory ran out, and names no file.
    pub fn say_no_memory(&mut self) {
        self.write(b"jlsrec: no memory\n");
    }

    /// Says why a file can't be opened or made.
    pub fn say_unopened(&mut self, file: &str, fault: &io::Error) {
        let shown = Shown(file);
        if fault.kind() == io::ErrorKind::OutOfMemory {
            self.say(format_args!("{shown}: no memory"));
        } else {
            self.say(format_args!("{shown}: can't open"));
            let hint = if file == "-" { STANDARD_INPUT } else { "" };
            self.blame_with(file, Some(Failed::from(*fault)), hint);
        }
    }

    /// Says that the file at `path` was renamed to `kept`, if reasons are on.
    pub fn mention(&mut self, path: &str, kept: &str) {
        if self.reasons {
            let (path, kept) = (Shown(path), Shown(kept));
            self.say(format_args!("{path}: renamed to {kept}"));
        }
    }

    /// Says what a file seems to be, if that is known and reasons are on.
    pub fn liken(&mut self, file: &str, likeness: Option<&str>) {
        if let Some(likeness) = likeness {
            if self.reasons {
                let file = Shown(file);
                self.say(format_args!("{file}: ({likeness})"));
            }
        }
    }

    /// Says the system's reason for a failure, if there was one and reasons are on.
    pub fn blame(&mut self, file: &str, failure: Option<Failed>) {
        self.blame_with(file, failure, "");
    }

    /// Says why a recording couldn't be written, as `blame` does, and how many of its frames are whole, if that is
    /// known.
    pub fn blame_writing(&mut self, file: &str, failure: Option<Failed>, frames: Option<u64>) {
        match frames {
            Some(frames) => {
                self.blame_with(file, failure, format_args!("; {frames} frames are whole"));
            }
            None => self.blame(file, failure),
        }
    }

    /// Says the system's reason for a failure, followed by `more`, if there was one and reasons are on.
    fn blame_with<D: Display + Drop>(&mut self, file: &str, failure: Option<Failed>, more: D) {
        if let Some(failure) = failure {
            if self.reasons {
                let file = Shown(file);
                match text_of(self.alloc, failure) {
                    Ok(text) => {
                        let text = without_number(&text);
                        self.say(format_args!("{file}: ({text}{more})"));
                    }
                    Err(AllocError) => self.say_no_memory(),
                }
            }
        }
    }
}

/// Erases from the cursor to the end of a terminal (ED of ECMA-48).
const ERASE: &str = "\x1b[J";

/// The text that clears a progress line of this number of columns and goes back to its start; or, if there are several
/// lines, clears all from where the cursor is.
pub fn cleared(alloc: Global, columns: Option<usize>) -> Result<String, AllocError> {
    match columns {
        Some(columns) => {
            let blanks = "".left().width(columns);
            format!(in alloc; "\r{blanks}\r")
        }
        None => format!(in alloc; "\r{ERASE}"),
    }
}

/// The text that shows lines in the place of those at whose beginning the cursor is, and goes back there (CUU of ECMA-48).
/// So what another thread writes goes over the first line, and the next lines are shown below it.
fn drawn(alloc: Global, lines: &[String]) -> Result<String, AllocError> {
    let mut text = cleared(alloc, None)?;
    for (number, line) in lines.iter().enumerate() {
        if number > 0 {
            text.push_str("\r\n")?;
        }
        text.push_str(line)?;
    }
    let up = lines.len().saturating_sub(1);
    let back = format!(in alloc; "\r\x1b[{up}A")?;
    text.push_str(&back)?;
    Ok(text)
}

/// The system's text for a failure, with its number.
fn text_of(alloc: Global, failure: Failed) -> Result<String, AllocError> {
    let error = match failure.number {
        Some(number) => io::Error::from_raw_os_error(number),
        None => io::Error::from(failure.kind),
    };
    error.to_string(alloc)
}

/// The system's text without its number.
fn without_number(text: &str) -> &str {
    match text.split_once(" (os error ") {
        Some((text, _)) => text,
        None => text,
    }
}
