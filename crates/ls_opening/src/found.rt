//! Where films and the places of their files are, and which of them are duplicates, whatever they are called.
ghost use Rattle.std.specs.Prelude.{◌≡◌};

use crate::names::Names;
use ls_files::{
    Beside, INDEX, Identity, Place, Row, Spot, TIMES, folder_of, last_part, piece_number,
    piece_path,
};
use std::alloc::AllocError;
use std::rt::Files;
use std::{fs, io};

/// A film that was found, before anything is locked.
#[derive(Clone, Copy)]
pub struct Found<'a> {
    pub names: &'a Names<'a>,
    /// The film's file, whether that is a pipe or a device, and the folder and name at which it is.
    identity: Option<Identity>,
    is_stream: bool,
    spot: Option<Spot<'a>>,
    /// The places of its recording, and of the index and the times of that.
    pub place: Place<'a>,
    pub index: Place<'a>,
    pub times: Place<'a>,
}

impl<'a> Found<'a> {
    /// The film of this identity: looks at where it is, and at the places of its recording and of the
    /// files beside that.
    pub fn look<R: Files + AllocGlobal>(
        rt: &R,
        names: &'a Names<'a>,
        identity: Option<Identity>,
    ) -> Found<'a>
        ensures { result.names.now ≡ names.now }
    {
        Found {
            names,
            identity,
            is_stream: fs::metadata(rt, names.file).is_ok_and(|file| !file.is_file()),
            spot: Spot::of(rt, names.file),
            place: Place::of(rt, names.recording.as_str()),
            index: Place::of(rt, names.index.as_str()),
            times: Place::of(rt, names.times.as_str()),
        }
    }
}

/// The first film whose recording, index or times would be the same file as another's or as one another, or that is
/// another's recording, an index or times, or into which one of these would be written, or that is another's pipe or
/// device, or that or whose recording could be a piece of another's.
pub fn written_twice<'a>(films: &[Found<'a>], replace: bool) -> Option<&'a str> {
    for (place, film) in films.iter().enumerate() {
        for (other, one) in films.iter().enumerate() {
            if is_overwritten(film, one, replace)
                || meets_beside(film, one, replace)
                || (place != other
                    && (are_one(film, one) || are_one_stream(film, one) || is_piece(film, one)))
                || (place == other && are_one_beside(film))
            {
                return Some(film.names.file);
            }
        }
    }
    None
}

/// The recording of the first film that is to be cut into pieces, and can't be: it is written into a pipe, a device or
/// an open file, or its name is too long for those of pieces.
pub fn uncut<'a, R: Files + AllocGlobal>(
    rt: &R,
    films: &[Found<'a>],
) -> Result<Option<&'a str>, AllocError> {
    for film in films {
        let is_cut = film.names.is_cut;
        if is_cut && (film.place.is_written_into() || is_too_long(rt, film.names)?) {
            return Ok(Some(film.names.recording.as_str()));
        }
    }
    Ok(None)
}

/// Whether a piece with a number of seven digits, or a file beside it that is to be made, would have a name that is too
/// long.
fn is_too_long<R: Files + AllocGlobal>(rt: &R, names: &Names<'_>) -> Result<bool, AllocError> {
    let path = piece_path(rt.alloc(), names.recording.as_str(), 9_999_999)?;
    let ending = if names.is_indexed || names.is_timed {
        INDEX
    } else {
        ""
    };
    let path = format!(in rt.alloc(); "{path}{ending}")?;
    match fs::symlink_metadata(rt, &path) {
        Ok(_) => Ok(false),
        Err(fault) => Ok(fault.kind() == io::ErrorKind::InvalidFilename),
    }
}

/// Whether this film or its recording could be a piece of another's recording.
fn is_piece(film: &Found<'_>, other: &Found<'_>) -> bool {
    other.names.is_cut
        && (film.place.is_piece_of(&other.place)
            || match (film.spot, other.place.spot()) {
                (Some(spot), Some(recording)) => spot.is_piece_of(recording),
                _ => false,
            })
}

/// Whether a file at this place could be a piece of a film's recording.
pub fn could_be_piece(film: &Found<'_>, place: &Place<'_>) -> bool {
    film.names.is_cut && place.is_piece_of(&film.place)
}

/// Whether the recording of `other` would be written into this film.
fn is_overwritten(film: &Found<'_>, other: &Found<'_>, replace: bool) -> bool {
    match film.identity {
        Some(identity) => other.place.would_write_into(identity, replace),
        None => false,
    }
}

/// Whether two films have the same recording or the same file beside one, or the first is where the other's recording
/// is to be made.
fn are_one(film: &Found<'_>, other: &Found<'_>) -> bool {
    film.place.is_one_with(&other.place)
        || (film.spot.is_some() && film.spot == other.place.spot())
        || (other.names.is_indexed && has_beside_at(film, &other.index))
        || (other.names.is_timed && has_beside_at(film, &other.times))
}

/// Whether two films are read from the same pipe or device: each would have what the other lacks.
fn are_one_stream(film: &Found<'_>, other: &Found<'_>) -> bool {
    film.is_stream && film.identity.is_some() && film.identity == other.identity
}

/// Whether a film's index and its times are both to be made, and would be the same file.
fn are_one_beside(film: &Found<'_>) -> bool {
    film.names.is_indexed && film.names.is_timed && film.index.is_one_with(&film.times)
}

/// Whether a film's index or its times are to be made at this place.
pub fn has_beside_at(film: &Found<'_>, place: &Place<'_>) -> bool {
    (film.names.is_indexed && film.index.is_one_with(place))
        || (film.names.is_timed && film.times.is_one_with(place))
}

/// Whether the index or the times of `other` would be the same file as this film's recording, are where the film is, or
/// would be written into the film.
fn meets_beside(film: &Found<'_>, other: &Found<'_>, replace: bool) -> bool {
    (other.names.is_indexed && is_met(film, &other.index, replace))
        || (other.names.is_timed && is_met(film, &other.times, replace))
}

/// Whether a report or a file beside a recording would be the same file as a film's recording, is where the film is, or
/// would be written into the film.
pub fn is_met(film: &Found<'_>, place: &Place<'_>, replace: bool) -> bool {
    film.place.is_one_with(place)
        || (film.spot.is_some() && film.spot == place.spot())
        || film
            .identity
            .is_some_and(|identity| place.would_write_into(identity, replace))
}

/// The place of a film's index or times, if it is claimed with the recording: if such a file is made; and if none is,
/// so that an existing one is renamed with the recording, unless the recording is written into a pipe, a device or an
/// open file, or the file is one of the films or the report.
pub fn beside_to_claim<'f, 'a>(
    film: &'f Found<'a>,
    beside: Beside,
    films: &[Found<'_>],
    report: Option<&Place<'_>>,
) -> Option<&'f Place<'a>> {
    let (place, is_made) = match beside {
        Beside::Index => (&film.index, film.names.is_indexed),
        Beside::Times => (&film.times, film.names.is_timed),
    };
    if is_made || is_moved(film, place, films, report) {
        Some(place)
    } else {
        None
    }
}

/// Whether an existing file at this place, beside a film's recording, is renamed with that although none is made there.
fn is_moved(
    film: &Found<'_>,
    place: &Place<'_>,
    films: &[Found<'_>],
    report: Option<&Place<'_>>,
) -> bool {
    !(film.place.is_written_into() || is_given(place, films, report))
}

/// Whether the file at a place is one of the films or the report.
fn is_given(place: &Place<'_>, films: &[Found<'_>], report: Option<&Place<'_>>) -> bool {
    films.iter().any(|film| is_at(film, place))
        || report.is_some_and(|report| report.is_one_with(place))
}

/// Whether a film is at a place.
fn is_at(film: &Found<'_>, place: &Place<'_>) -> bool {
    (film.spot.is_some() && film.spot == place.spot())
        || (film.identity.is_some() && film.identity == place.identity())
}

/// The pieces of earlier recordings that are renamed before a recording is made, but none that is one of the films,
/// another film's recording or the report, or has such a file or a film beside it: those with numbers from 1 on, as far
/// as they are there; and if the recording is to be cut into pieces, those after a gap, too. If it isn't, none whose name
/// is that of a film beside the film. Only the first ones may be removed with the earlier recording, up to such a film.
/// None if the recording is written into a pipe, a device or an open file; or if it isn't there, and isn't to be cut
/// into pieces.
pub fn pieces_to_claim<R: Files + AllocGlobal + Clone + Drop>(
    rt: &R,
    film: &Found<'_>,
    films: &[Found<'_>],
    report: Option<&Place<'_>>,
) -> Result<Option<Row>, AllocError> {
    let is_cut = film.names.is_cut;
    if film.place.is_written_into() || !(is_cut || film.place.standing().is_kept()) {
        return Ok(None);
    }
    let alloc = rt.alloc();
    let recording = film.names.recording.as_str();
    let mut numbers = Vec::new(alloc);
    let mut replaceable = 0;
    for number in 1..u32::MAX {
        let is_others = has_film(rt, film.names.file, number)?;
        if (is_others && !is_cut) || !has_piece(rt, film, number, films, report)? {
            break;
        }
        let before = numbers.len();
        numbers.push(number)?;
        if is_cut && !is_others && replaceable == before {
            replaceable = numbers.len();
        }
    }
    let first = numbers.len();
    if is_cut {
        for number in pieces_at(rt, recording)? {
            if number as usize > first && has_piece(rt, film, number, films, report)? {
                numbers.push(number)?;
            }
        }
    }
    if numbers.is_empty() {
        return Ok(None);
    }
    Ok(Some(Row::new(alloc, recording, numbers, replaceable)?))
}

/// The numbers of the pieces of this recording that its folder has by their names, in any order; none if the folder
/// can't be listed.
fn pieces_at<R: Files + AllocGlobal + Clone + Drop>(
    rt: &R,
    recording: &str,
) -> Result<Vec<u32>, AllocError> {
    let mut numbers = Vec::new(rt.alloc());
    let entries = match fs::read_dir(rt, folder_of(recording)) {
        Ok(entries) => entries,
        Err(fault) if fault.kind() == io::ErrorKind::OutOfMemory => return Err(AllocError),
        Err(_) => return Ok(numbers),
    };
    for entry in entries {
        if let Ok(entry) = entry {
            if let Some(number) = piece_number(entry.file_name(), last_part(recording)) {
                numbers.push(number)?;
            }
        }
    }
    Ok(numbers)
}

/// Whether the piece of this number of an earlier recording is there, and neither it nor a file beside it is one of the
/// films, another film's recording or the report, and no film stands beside it whose recording it could be.
fn has_piece<R: Files + AllocGlobal>(
    rt: &R,
    film: &Found<'_>,
    number: u32,
    films: &[Found<'_>],
    report: Option<&Place<'_>>,
) -> Result<bool, AllocError> {
    let alloc = rt.alloc();
    let path = piece_path(alloc, film.names.recording.as_str(), number)?;
    let place = Place::of(rt, &path);
    if !place.standing().is_kept() || is_spoken_for(&place, films, report) {
        return Ok(false);
    }
    let stem = film.names.recording.as_str();
    if has_film(rt, stem.strip_suffix(".jls").unwrap_or(stem), number)? {
        return Ok(false);
    }
    for ending in [INDEX, TIMES] {
        let path = format!(in alloc; "{path}{ending}")?;
        if is_spoken_for(&Place::of(rt, &path), films, report) {
            return Ok(false);
        }
    }
    Ok(true)
}

/// Whether there is a film whose name is that of a film and this number of a piece.
fn has_film<R: Files + AllocGlobal>(rt: &R, file: &str, number: u32) -> Result<bool, AllocError> {
    let film = format!(in rt.alloc(); "{file}.{number:05}")?;
    Ok(fs::metadata(rt, &film).is_ok())
}

/// Whether the file at a place is one of the films or the report, or a film's recording, or beside one.
fn is_spoken_for(place: &Place<'_>, films: &[Found<'_>], report: Option<&Place<'_>>) -> bool {
    is_given(place, films, report)
        || films.iter().any(|film| {
            film.place.is_one_with(place)
                || film.index.is_one_with(place)
                || film.times.is_one_with(place)
        })
}
