//! The names of a film and of the files of its recording, and which of them are duplicates.
ghost use Rattle.std.specs.Prelude.{◌≡◌, ◌<◌, IfOk, length, slice_index_or};
ghost use Rattle.std.specs.List.{AllZip};

use crate::refusal::Refusal;
use ls_command::RecordRequest;
use ls_console::{Shown, cleared};
use ls_files::identity::last_part;
use ls_files::{INDEX, TIMES};
use std::alloc::{AllocError, Global};

/// The names of a film, of its recording and of the files beside that, and the line for a terminal once the film's pipe
/// is open.
#[derive(Drop)]
pub struct Names<'a> {
    pub file: &'a str,
    pub recording: String,
    /// The name of the recording's index.
    pub index: String,
    /// Whether an index is made.
    pub is_indexed: bool,
    /// The name of the file with the times of its frames.
    pub times: String,
    /// Whether that is made.
    pub is_timed: bool,
    /// Whether the recording is cut into pieces.
    pub is_cut: bool,
    pub notice: String,
}

/// The names of the films and of the files made for them, for a terminal with progress lines of `columns` characters,
/// or with a line for each film. Refused if one is a duplicate.
pub fn names_once<'a>(
    alloc: Global,
    asked: &RecordRequest<'a>,
    columns: Option<usize>,
) -> Result<Vec<Names<'a>>, Refusal<'a>>
    ensures { IfOk result (λ names. AllZip (λ file film. film.file.now ≡ file.now) asked.now.files.items names.items) }
{
    let mut names = Vec::new(alloc);
    for place in 0..asked.files.len() {
        let file = file_at(&asked.files, place);
        names.push(film_names(alloc, file, asked, columns)?)?;
    }
    match named_twice(&names, asked.report) {
        Some(name) => Err(Refusal::Twice(name)),
        None => Ok(names),
    }
}

/// The film at this place among those that are asked for.
fn file_at<'a>(files: &[&'a str], place: usize) -> &'a str
    requires { place < length files.now }
    ensures { result.now ≡ (slice_index_or files.now place result).now }
{
    files[place]
}

/// The names of a film.
fn film_names<'a>(
    alloc: Global,
    file: &'a str,
    asked: &RecordRequest<'_>,
    columns: Option<usize>,
) -> Result<Names<'a>, AllocError>
    ensures { IfOk result (λ names. names.file.now ≡ file.now) }
{
    let recording = recording_name(alloc, file, asked.into)?;
    let index = format!(in alloc; "{recording}{INDEX}")?;
    let times = format!(in alloc; "{recording}{TIMES}")?;
    // It goes over the progress that may be shown by then.
    let (blanks, shown) = (cleared(alloc, columns)?, Shown(file));
    let notice = format!(in alloc; "{blanks}jlsrec: {shown}: opened")?;
    Ok(Names {
        file,
        recording,
        index,
        is_indexed: asked.index,
        times,
        is_timed: asked.times,
        is_cut: asked.pieces.is_some(),
        notice,
    })
}

/// The name of a film's recording.
fn recording_name(alloc: Global, file: &str, into: Option<&str>) -> Result<String, AllocError> {
    match into {
        None => format!(in alloc; "{file}.jls"),
        Some(folder) => {
            let folder = folder.strip_suffix("/").unwrap_or(folder);
            let name = last_part(file);
            format!(in alloc; "{folder}/{name}.jls")
        }
    }
}

/// The first duplicate name: of a film, or else of the report.
fn named_twice<'a>(names: &[Names<'a>], report: Option<&'a str>) -> Option<&'a str> {
    match film_named_twice(names) {
        Some(file) => Some(file),
        None => named_as_report(names, report),
    }
}

/// The first film whose name is that of another film, of another's recording or of a file beside a recording, or whose
/// recording has the name of another's.
fn film_named_twice<'a>(names: &[Names<'a>]) -> Option<&'a str> {
    for (place, film) in names.iter().enumerate() {
        for (other, one) in names.iter().enumerate() {
            if is_beside(film.file, one) || (place != other && are_named_alike(film, one)) {
                return Some(film.file);
            }
        }
    }
    None
}

/// Whether an index or a file of times that is to be made for a film has this name.
fn is_beside(name: &str, film: &Names<'_>) -> bool {
    (film.is_indexed && film.index.as_str() == name)
        || (film.is_timed && film.times.as_str() == name)
}

/// Whether a film has the name of another or of its recording, or their recordings have the same name.
fn are_named_alike(film: &Names<'_>, other: &Names<'_>) -> bool {
    film.file == other.file
        || film.file == other.recording.as_str()
        || film.recording == other.recording
}

/// The report's name, if it is that of a film, of a recording or of a file beside one.
fn named_as_report<'a>(names: &[Names<'_>], report: Option<&'a str>) -> Option<&'a str> {
    let report = report?;
    for film in names {
        if film.file == report || film.recording.as_str() == report || is_beside(report, film) {
            return Some(report);
        }
    }
    None
}
