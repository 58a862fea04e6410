//! The progress of all films, in a line or in one for each.
use super::pace::Pace;
use ls_console::Shown;
use std::alloc::{AllocError, Global};

/// The number of lines that begin with the same film, if not all films fit into a line.
const LINES_A_FILM: usize = 4;

/// The least characters of a name that are shown, or all of a shorter one, however narrow the line.
const LEAST_NAME: usize = 8;

/// The code of the first character that takes two columns of a terminal (Unicode's East Asian Width).
const FIRST_WIDE: u32 = 0x1100;

/// The marks in a line: before the end of a name that is shortened, after each name, and between films.
const CUT: &str = "..";

const AFTER_NAME: &str = ": ";

const BETWEEN: &str = "; ";

/// The progress line of all films, of at most `columns` characters, after `lines` lines before.
///
/// If they don't fit, their names are shortened to their ends, no more than they have to be. If all would fit only
/// with less of a name than `LEAST_NAME`, the line has as many films as fit, and every `LINES_A_FILM` lines it begins
/// with the next one.
pub fn line_of(
    alloc: Global,
    files: &[&str],
    paces: &[Pace],
    lines: usize,
    columns: usize,
) -> Result<String, AllocError> {
    let names = names_of(alloc, files)?;
    let (longest, first) = match longest_within(alloc, &names, paces, columns)? {
        Some(longest) => (longest, 0),
        None => (
            LEAST_NAME,
            (lines / LINES_A_FILM).checked_rem(files.len()).unwrap_or(0),
        ),
    };
    let films = Films {
        names: &names,
        paces,
        longest,
        columns,
    };
    line_from(alloc, films, first)
}

/// A progress line for each film, of at most `columns` characters or columns of a terminal.
///
/// If a film doesn't fit, its name is shortened to its end, to `LEAST_NAME` columns at least; and if that doesn't suffice,
/// the line has as many parts of its progress as fit, or a part of the first.
pub fn lines_of(
    alloc: Global,
    files: &[&str],
    paces: &[Pace],
    columns: usize,
) -> Result<Vec<String>, AllocError> {
    let mut lines = Vec::new(alloc);
    for (file, pace) in files.iter().zip(paces.iter()) {
        lines.push(line_of_film(alloc, *file, pace.text(), columns)?)?;
    }
    Ok(lines)
}

/// The progress line of a film.
fn line_of_film(
    alloc: Global,
    file: &str,
    progress: &str,
    columns: usize,
) -> Result<String, AllocError> {
    let name = Shown(file).to_string(alloc)?;
    let others = AFTER_NAME.len().saturating_add(progress.len());
    let room = columns.saturating_sub(others).max(LEAST_NAME);
    let mut line = String::new(alloc);
    push_ending(&mut line, &name, room)?;
    line.push_str(AFTER_NAME)?;
    line.push_str(progress)?;
    cut(alloc, fitting(&line, columns), columns)
}

/// As much of a text as takes at most `columns` columns.
fn cut(alloc: Global, text: &str, columns: usize) -> Result<String, AllocError> {
    let mut cut = String::new(alloc);
    let mut left = columns;
    for character in text.chars() {
        match left.checked_sub(width(character)) {
            Some(rest) => left = rest,
            None => break,
        }
        cut.push(character)?;
    }
    Ok(cut)
}

/// Adds a name, or `..` and its end if it takes more than `room` columns.
fn push_ending(line: &mut String, name: &str, room: usize) -> Result<(), AllocError> {
    let mut over = width_of(name).saturating_sub(room);
    if over == 0 {
        return line.push_str(name);
    }
    line.push_str(CUT)?;
    over = over.saturating_add(CUT.len());
    for character in name.chars() {
        if over > 0 {
            over = over.saturating_sub(width(character));
        } else {
            line.push(character)?;
        }
    }
    Ok(())
}

/// The most columns of a terminal that a text takes.
fn width_of(text: &str) -> usize {
    let mut columns: usize = 0;
    for character in text.chars() {
        columns = columns.saturating_add(width(character));
    }
    columns
}

/// The most columns that a character takes: two, if it may be among those that are as wide as they are high. These all
/// have codes from that of the first one on.
fn width(character: char) -> usize {
    if u32::from(character) < FIRST_WIDE {
        1
    } else {
        2
    }
}

/// The films for a line of `columns` characters, with at most `longest` characters of each name.
#[derive(Clone, Copy)]
struct Films<'a> {
    names: &'a [String],
    paces: &'a [Pace],
    longest: usize,
    columns: usize,
}

/// The films' names as they are shown.
fn names_of(alloc: Global, files: &[&str]) -> Result<Vec<String>, AllocError> {
    let mut names = Vec::new(alloc);
    for file in files {
        names.push(Shown(*file).to_string(alloc)?)?;
    }
    Ok(names)
}

/// The most characters of each name with which all films fit into a line, if that is at least `LEAST_NAME`.
fn longest_within(
    alloc: Global,
    names: &[String],
    paces: &[Pace],
    columns: usize,
) -> Result<Option<usize>, AllocError> {
    let Some(room) = columns.checked_sub(length_without_names(paces)) else {
        return Ok(None);
    };
    let lengths = lengths_of(alloc, names)?;
    for shorter in 0..=columns.saturating_sub(LEAST_NAME) {
        let longest = columns.saturating_sub(shorter);
        if shortened_length(&lengths, longest) <= room {
            return Ok(Some(longest));
        }
    }
    Ok(None)
}

/// The number of characters in a line of all films, without their names.
fn length_without_names(paces: &[Pace]) -> usize {
    let mut length: usize = 0;
    for pace in paces {
        let before = if length == 0 { 0 } else { BETWEEN.len() };
        length = length
            .saturating_add(before)
            .saturating_add(AFTER_NAME.len())
            .saturating_add(pace.text().chars().count());
    }
    length
}

/// The number of characters in each name.
fn lengths_of(alloc: Global, names: &[String]) -> Result<Vec<usize>, AllocError> {
    let mut lengths = Vec::new(alloc);
    for name in names {
        lengths.push(name.chars().count())?;
    }
    Ok(lengths)
}

/// The number of characters in names of these lengths together, at most `longest` of each.
fn shortened_length(lengths: &[usize], longest: usize) -> usize {
    let mut together: usize = 0;
    for length in lengths {
        together = together.saturating_add((*length).min(longest));
    }
    together
}

/// A line of films, from the one of this number on and round to it, as far as they fit.
fn line_from(alloc: Global, films: Films<'_>, first: usize) -> Result<String, AllocError> {
    let mut line = String::new(alloc);
    if add_films(alloc, &mut line, films, first, usize::MAX)? {
        add_films(alloc, &mut line, films, 0, first)?;
    }
    Ok(line)
}

/// Adds `count` films to a line, or as many as there are, from the one of this number on; whether all fitted.
fn add_films(
    alloc: Global,
    line: &mut String,
    films: Films<'_>,
    first: usize,
    count: usize,
) -> Result<bool, AllocError> {
    let Films {
        names,
        paces,
        longest,
        columns,
    } = films;
    for (name, pace) in names.iter().zip(paces.iter()).skip(first).take(count) {
        let film = film_text(alloc, name, longest, pace)?;
        if !add_film(line, &film, columns)? {
            return Ok(false);
        }
    }
    Ok(true)
}

/// A film's name, in at most `longest` characters, and its progress.
fn film_text(alloc: Global, name: &str, longest: usize, pace: &Pace) -> Result<String, AllocError> {
    let mut text = String::new(alloc);
    push_shortened(&mut text, name, longest)?;
    text.push_str(AFTER_NAME)?;
    text.push_str(pace.text())?;
    Ok(text)
}

/// Adds a name, or `..` and its end if it has more than `longest` characters.
fn push_shortened(text: &mut String, name: &str, longest: usize) -> Result<(), AllocError> {
    let length = name.chars().count();
    if length <= longest {
        return text.push_str(name);
    }
    text.push_str(CUT)?;
    let kept = longest.saturating_sub(CUT.len());
    for character in name.chars().skip(length.saturating_sub(kept)) {
        text.push(character)?;
    }
    Ok(())
}

/// Adds a film to a line of at most `columns` characters, if it fits; whether it did. Of the first film as much is
/// added as fits, so that no number is cut.
fn add_film(line: &mut String, film: &str, columns: usize) -> Result<bool, AllocError> {
    if line.is_empty() {
        let fitting = fitting(film, columns);
        line.push_str(fitting)?;
        return Ok(fitting.len() == film.len());
    }
    let left = columns
        .saturating_sub(line.chars().count())
        .saturating_sub(BETWEEN.len());
    if film.chars().count() > left {
        return Ok(false);
    }
    line.push_str(BETWEEN)?;
    line.push_str(film)?;
    Ok(true)
}

/// The beginning of a film's text that fits into `columns` columns: as many of its parts, which are between
/// commas, as fit, and one at least.
fn fitting(film: &str, columns: usize) -> &str {
    let mut kept = film;
    for _part in 0..film.len() {
        if width_of(kept) <= columns {
            break;
        }
        match kept.rsplit_once(", ") {
            Some((before, _)) => kept = before,
            None => break,
        }
    }
    kept
}
