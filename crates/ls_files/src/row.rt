//! The names of a recording's pieces, and the pieces of earlier recordings, which are renamed before it is made.
use crate::held::{open_existing, rename_new, take_lock};
use crate::keeper::{INDEX, TIMES};
use crate::opener::Makes;
use std::alloc::{AllocError, Global};
use std::io;

/// The ending of a recording's name.
const RECORDING: &str = ".jls";

/// The least number of digits in the name of a piece; and the most by which one is found in a folder: a number of eight
/// may be a date.
const DIGITS: usize = 5;

const MOST_DIGITS: usize = 7;

/// The endings of the files of a piece: its own, its index's and its times'.
const ENDINGS: [&str; 3] = ["", INDEX, TIMES];

/// The path of the piece of this number, from 1, of the recording at a path: FILE.00001.jls of FILE.jls. The
/// recording's own file is the piece of number 0.
pub fn piece_path(alloc: Global, recording: &str, number: u32) -> Result<String, AllocError> {
    if number == 0 {
        return recording.to_string(alloc);
    }
    let stem = stem_of(recording);
    format!(in alloc; "{stem}.{number:05}.jls")
}

/// Whether a file of this name could be a piece of the recording of this name in the same folder, or its index or
/// times.
pub fn is_piece_name(name: &str, recording: &str) -> bool {
    let name = name
        .strip_suffix(INDEX)
        .unwrap_or(name.strip_suffix(TIMES).unwrap_or(name));
    piece_digits(name, recording).is_some()
}

/// The number of the piece that a file of this name is of the recording of this name in the same folder; `None` if it
/// is none, or its number has so many digits that it is a date rather.
pub fn piece_number(name: &str, recording: &str) -> Option<u32> {
    let digits = piece_digits(name, recording)?;
    if digits.len() > MOST_DIGITS || (digits.len() > DIGITS && digits.starts_with('0')) {
        return None;
    }
    match digits.parse::<u32>() {
        Ok(number) if number > 0 => Some(number),
        _ => None,
    }
}

/// The digits in the name of a piece of the recording of this name, if it is one.
fn piece_digits<'n>(name: &'n str, recording: &str) -> Option<&'n str> {
    let (own, digits) = name.strip_suffix(RECORDING)?.rsplit_once('.')?;
    let is_piece = own == recording.strip_suffix(RECORDING)?
        && digits.len() >= DIGITS
        && digits.bytes().all(|digit| digit.is_ascii_digit());
    if is_piece { Some(digits) } else { None }
}

/// A recording's path without its ending.
fn stem_of(recording: &str) -> &str {
    recording.strip_suffix(RECORDING).unwrap_or(recording)
}

/// The pieces of earlier recordings but the first, which is at the recording's own path: the files with these numbers,
/// each perhaps with an index and times beside it. Each is locked while it is renamed, since it may be a recording by
/// itself that another program writes: so many can't be open all the time.
#[derive(Drop)]
pub struct Row {
    alloc: Global,
    recording: String,
    numbers: Vec<u32>,
    /// How many of the numbers, of the first ones, are removed if the recording is to be replaced.
    replaceable: usize,
    /// The number in their new names, once they are renamed.
    renamed_by: Option<u32>,
}

impl Row {
    /// The pieces of these numbers of earlier recordings at this path, of which the first ones, so many, are removed with
    /// that recording if it is to be replaced.
    pub fn new(
        alloc: Global,
        recording: &str,
        numbers: Vec<u32>,
        replaceable: usize,
    ) -> Result<Row, AllocError> {
        Ok(Row {
            alloc,
            recording: recording.to_string(alloc)?,
            numbers,
            replaceable,
            renamed_by: None,
        })
    }

    /// Whether they still have to be renamed.
    pub fn is_in_the_way(&self) -> bool {
        !self.numbers.is_empty() && self.renamed_by.is_none()
    }

    /// Renames them by this number, if all names by it are free; whether that worked. If it didn't, all have their
    /// names as before. The last ones come first: if the program is killed meanwhile, those that are left have no gap.
    pub fn rename<O: Makes>(&mut self, opener: &O, by: u32) -> io::Result<bool> {
        if !self.are_free(opener, by)? {
            return Ok(false);
        }
        for (place, piece) in self.numbers.iter().enumerate().rev() {
            match self.move_piece(opener, *piece, by) {
                Ok(true) => {}
                Ok(false) => {
                    self.give_back_from(opener, place, by);
                    return Ok(false);
                }
                Err(fault) => {
                    self.give_back_from(opener, place, by);
                    return Err(fault);
                }
            }
        }
        self.renamed_by = Some(by);
        Ok(true)
    }

    /// Whether all names by this number are free.
    fn are_free<O: Makes>(&self, opener: &O, by: u32) -> io::Result<bool> {
        for piece in &self.numbers {
            for ending in ENDINGS {
                if is_there(opener, &self.moved(*piece, by, ending)?)? {
                    return Ok(false);
                }
            }
        }
        Ok(true)
    }

    /// Renames the files of a piece by this number, as far as they exist; `false` if something has one of the names by
    /// now. Fails with `WouldBlock` if another program has locked the piece.
    fn move_piece<O: Makes>(&self, opener: &O, piece: u32, by: u32) -> io::Result<bool> {
        let _locked = lock_at(opener, &self.own(piece, "")?)?;
        for ending in ENDINGS {
            let from = self.own(piece, ending)?;
            if is_there(opener, &from)?
                && !rename_new(opener, &from, &self.moved(piece, by, ending)?)?
            {
                return Ok(false);
            }
        }
        Ok(true)
    }

    /// Gives the pieces from this place on their names back, as far as nothing has these by now.
    fn give_back_from<O: Makes>(&self, opener: &O, place: usize, by: u32) {
        for piece in self.numbers.iter().skip(place) {
            for ending in ENDINGS {
                let _refused = self.move_back(opener, *piece, by, ending);
            }
        }
    }

    /// Gives a file of a piece its name back, unless something has that by now.
    fn move_back<O: Makes>(&self, opener: &O, piece: u32, by: u32, ending: &str) -> io::Result<()> {
        let moved = self.moved(piece, by, ending)?;
        if is_there(opener, &moved)? {
            let _is_back = rename_new(opener, &moved, &self.own(piece, ending)?)?;
        }
        Ok(())
    }

    /// Gives them their names back, if they were renamed.
    pub fn give_back<O: Makes>(&mut self, opener: &O) {
        if let Some(by) = self.renamed_by.take() {
            self.give_back_from(opener, 0, by);
        }
    }

    /// Removes those that may be removed, under their new names. The others keep these. A failure to remove one is
    /// ignored.
    pub fn remove<O: Makes>(&mut self, opener: &O) {
        if let Some(by) = self.renamed_by.take() {
            for piece in self.numbers.iter().take(self.replaceable) {
                for ending in ENDINGS {
                    let _refused = self.remove_one(opener, *piece, by, ending);
                }
            }
        }
        self.numbers.clear();
    }

    fn remove_one<O: Makes>(
        &self,
        opener: &O,
        piece: u32,
        by: u32,
        ending: &str,
    ) -> io::Result<()> {
        opener.remove(&self.moved(piece, by, ending)?)
    }

    /// The path of a piece's file.
    fn own(&self, piece: u32, ending: &str) -> Result<String, AllocError> {
        let path = piece_path(self.alloc, self.recording.as_str(), piece)?;
        format!(in self.alloc; "{path}{ending}")
    }

    /// Its new path by this number.
    fn moved(&self, piece: u32, by: u32, ending: &str) -> Result<String, AllocError> {
        let path = piece_path(self.alloc, self.recording.as_str(), piece)?;
        format!(in self.alloc; "{path}.{by}{ending}")
    }
}

/// Locks the file at a path, unless nothing is there or only a link that leads nowhere.
fn lock_at<O: Makes>(opener: &O, path: &str) -> io::Result<Option<O::File>> {
    match open_existing(opener, path) {
        Ok(file) => Ok(Some(take_lock(opener, file)?)),
        Err(fault) if fault.kind() == io::ErrorKind::NotFound => Ok(None),
        Err(fault) => Err(fault),
    }
}

/// Whether something is at a path.
fn is_there<O: Makes>(opener: &O, path: &str) -> io::Result<bool> {
    match opener.look(path) {
        Ok(_) => Ok(true),
        Err(fault) if fault.kind() == io::ErrorKind::NotFound => Ok(false),
        Err(fault) => Err(fault),
    }
}
