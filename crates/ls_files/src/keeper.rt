//! Makes, locks and syncs the files of a recording, and keeps earlier files until they may be removed.
ghost use Rattle.std.specs.Prelude.{◌≡◌, IfOk};

use crate::held::Held;
use crate::opener::{Makes, Opens};
use crate::place::Place;
use crate::row::{Row, piece_path};
use crate::target::Target;
use std::alloc::{AllocError, Global};
use std::io;

/// The endings that the names of an index and of a file of times add to their recording's.
pub const INDEX: &str = ".index";

pub const TIMES: &str = ".times";

/// A file beside a recording: its index, or the times of its frames.
#[derive(Clone, Copy, PartialEq, Eq)]
pub enum Beside {
    Index,
    Times,
}

impl Beside {
    /// What its name adds to the recording's.
    pub fn ending(self) -> &'static str {
        match self {
            Beside::Index => INDEX,
            Beside::Times => TIMES,
        }
    }
}

/// Holds the file of a recording and those beside it, or one other file.
#[derive(Drop)]
pub struct Keeper<O: Makes> {
    opener: O,
    recording: Held<O::File>,
    /// The files to make beside the recording, or existing ones.
    beside: Vec<(Beside, Held<O::File>)>,
    /// The pieces of earlier recordings, if there are any.
    row: Option<Row>,
    /// Whether earlier files are removed once the recording has a codestream.
    replaces: bool,
}

/// The files that were made, to be written to.
#[derive(Drop)]
pub struct Targets<'a, O: Opens> {
    pub recording: Target<'a, O>,
    pub index: Option<Target<'a, O>>,
    pub times: Option<Target<'a, O>>,
}

/// The files of a piece of a recording, to be written to.
#[derive(Drop)]
pub struct Piece<F> {
    pub recording: F,
    pub index: Option<F>,
    pub times: Option<F>,
}

/// The file that can't be made, and why. `WouldBlock` means that another program is making it.
#[derive(Clone, Copy)]
pub struct Unmade {
    /// Which file beside the recording it is, unless it is the recording.
    pub beside: Option<Beside>,
    pub fault: io::Error,
}

impl Unmade {
    fn recording(fault: io::Error) -> Unmade {
        Unmade {
            beside: None,
            fault,
        }
    }

    fn beside(beside: Beside, fault: io::Error) -> Unmade {
        Unmade {
            beside: Some(beside),
            fault,
        }
    }
}

impl<O: Makes + Copy + Drop> Keeper<O> {
    /// Locks existing files where a recording, its index and its times are to be made, and changes nothing. The places
    /// of the last two are given even if they aren't to be made: existing files there are then renamed with their
    /// recording.
    pub fn claim(
        alloc: Global,
        opener: O,
        recording: &Place<'_>,
        index: Option<&Place<'_>>,
        times: Option<&Place<'_>>,
        replace: bool,
    ) -> Result<Keeper<O>, Unmade> {
        let recording = match Held::claim(alloc, &opener, recording, "", replace) {
            Ok(held) => held,
            Err(fault) => return Err(Unmade::recording(fault)),
        };
        let mut keeper = Keeper {
            opener,
            recording,
            beside: Vec::new(alloc),
            row: None,
            replaces: replace,
        };
        keeper.claim_beside(alloc, Beside::Index, index)?;
        keeper.claim_beside(alloc, Beside::Times, times)?;
        Ok(keeper)
    }

    /// Locks an existing file where one is to be made beside the recording, if a place is given for it.
    fn claim_beside(
        &mut self,
        alloc: Global,
        beside: Beside,
        place: Option<&Place<'_>>,
    ) -> Result<(), Unmade> {
        let Some(place) = place else {
            return Ok(());
        };
        let ending = beside.ending();
        let held = match Held::claim(alloc, &self.opener, place, ending, self.replaces) {
            Ok(held) => held,
            Err(fault) => return Err(Unmade::beside(beside, fault)),
        };
        match self.beside.push((beside, held)) {
            Ok(()) => Ok(()),
            Err(_) => Err(Unmade::beside(beside, io::Error::from(AllocError))),
        }
    }

    /// Has the pieces of earlier recordings be renamed with the recording, and be removed with it as far as they may.
    pub fn claim_row(&mut self, row: Row) {
        self.row = Some(row);
    }

    /// Makes the files of the piece of this number, from 1, of the recording at a path, as `make` makes those of a
    /// recording: with an index and times, if they are wanted.
    pub fn make_piece(
        alloc: Global,
        opener: O,
        recording: &str,
        number: u32,
        is_indexed: bool,
        is_timed: bool,
    ) -> Result<(Keeper<O>, Piece<O::File>), Unmade> {
        let path = own_path(piece_path(alloc, recording, number))?;
        let index = own_path(format!(in alloc; "{path}{INDEX}"))?;
        let times = own_path(format!(in alloc; "{path}{TIMES}"))?;
        let place = Place::of_piece(&opener, &path);
        let index = Place::of_piece(&opener, &index);
        let times = Place::of_piece(&opener, &times);
        let mut keeper = Keeper::claim(alloc, opener, &place, Some(&index), Some(&times), false)?;
        match keeper.make_files(alloc, is_indexed, is_timed) {
            Ok(piece) => Ok((keeper, piece)),
            Err(unmade) => {
                keeper.give_back();
                Err(unmade)
            }
        }
    }

    /// Renames existing files, and makes those of a piece.
    fn make_files(
        &mut self,
        alloc: Global,
        is_indexed: bool,
        is_timed: bool,
    ) -> Result<Piece<O::File>, Unmade> {
        self.clear_places(alloc)?;
        let recording = match self.recording.make_file(&self.opener) {
            Ok(file) => file,
            Err(fault) => return Err(Unmade::recording(fault)),
        };
        let index = self.make_file_beside(Beside::Index, is_indexed)?;
        let times = self.make_file_beside(Beside::Times, is_timed)?;
        Ok(Piece {
            recording,
            index,
            times,
        })
    }

    /// Makes a file beside a piece, if it is wanted.
    fn make_file_beside(
        &mut self,
        beside: Beside,
        is_wanted: bool,
    ) -> Result<Option<O::File>, Unmade> {
        if !is_wanted {
            return Ok(None);
        }
        for (own, held) in self.beside.iter_mut() {
            if *own == beside {
                return match held.make_file(&self.opener) {
                    Ok(file) => Ok(Some(file)),
                    Err(fault) => Err(Unmade::beside(beside, fault)),
                };
            }
        }
        Ok(None)
    }

    /// Makes the file of the recording, and that of its index and that of its times if paths are given for them.
    ///
    /// Existing files are renamed first: to the first free name of `path`.1, `path`.2, .., and an index to
    /// `path`.1.index and times to `path`.1.times with it. A pipe or a device is written to as it is. If a file can't
    /// be made, earlier files get their names back.
    pub fn make<'a>(
        &mut self,
        alloc: Global,
        path: &'a str,
        index: Option<&'a str>,
        times: Option<&'a str>,
    ) -> Result<Targets<'a, O>, Unmade>
        ensures { IfOk result (λ targets. targets.recording.path.now ≡ path.now) }
    {
        match self.make_all(alloc, path, index, times) {
            Ok(targets) => Ok(targets),
            Err(unmade) => {
                self.give_back();
                Err(unmade)
            }
        }
    }

    fn make_all<'a>(
        &mut self,
        alloc: Global,
        path: &'a str,
        index: Option<&'a str>,
        times: Option<&'a str>,
    ) -> Result<Targets<'a, O>, Unmade>
        ensures { IfOk result (λ targets. targets.recording.path.now ≡ path.now) }
    {
        self.clear_places(alloc)?;
        let recording = match self.recording.make(self.opener, path) {
            Ok(target) => target,
            Err(fault) => return Err(Unmade::recording(fault)),
        };
        let index = self.make_beside(Beside::Index, index)?;
        let times = self.make_beside(Beside::Times, times)?;
        Ok(Targets {
            recording,
            index,
            times,
        })
    }

    /// Makes a file beside the recording, if a path is given for it and its place is claimed.
    fn make_beside<'a>(
        &mut self,
        beside: Beside,
        path: Option<&'a str>,
    ) -> Result<Option<Target<'a, O>>, Unmade> {
        let Some(path) = path else {
            return Ok(None);
        };
        for (own, held) in self.beside.iter_mut() {
            if *own == beside {
                return match held.make(self.opener, path) {
                    Ok(target) => Ok(Some(target)),
                    Err(fault) => Err(Unmade::beside(beside, fault)),
                };
            }
        }
        Ok(None)
    }

    /// Renames the existing files, by the first number for which all names are free.
    fn clear_places(&mut self, alloc: Global) -> Result<(), Unmade> {
        for number in 1..u32::MAX {
            if self.are_clear() || self.clear_by(alloc, number)? {
                return Ok(());
            }
        }
        Err(Unmade::recording(io::Error::from(io::ErrorKind::AlreadyExists)))
    }

    /// Whether no existing file has to be renamed.
    fn are_clear(&self) -> bool {
        !self.recording.is_in_the_way()
            && !self.is_row_in_the_way()
            && !self.beside.iter().any(|(_own, held)| held.is_in_the_way())
    }

    fn is_row_in_the_way(&self) -> bool {
        match &self.row {
            Some(row) => row.is_in_the_way(),
            None => false,
        }
    }

    /// Renames the pieces of earlier recordings by this number, if there are any that aren't renamed; whether that
    /// worked.
    fn clear_row(&mut self, number: u32) -> Result<bool, Unmade> {
        match &mut self.row {
            Some(row) if row.is_in_the_way() => match row.rename(&self.opener, number) {
                Ok(is_renamed) => Ok(is_renamed),
                Err(fault) => Err(Unmade::recording(fault)),
            },
            _ => Ok(true),
        }
    }

    /// Gives the pieces of earlier recordings their names back.
    fn give_row_back(&mut self) {
        if let Some(row) = &mut self.row {
            row.give_back(&self.opener);
        }
    }

    /// Renames the existing files by this number, if all names by it are free; whether that worked.
    fn clear_by(&mut self, alloc: Global, number: u32) -> Result<bool, Unmade> {
        let name = match self.recording.free_name(alloc, &self.opener, number) {
            Ok(Some(name)) => name,
            Ok(None) => return Ok(false),
            Err(fault) => return Err(Unmade::recording(fault)),
        };
        if !self.are_free_beside(alloc, number)? || !self.clear_row(number)? {
            return Ok(false);
        }
        if self.recording.is_in_the_way() {
            match self.recording.rename(&self.opener, name) {
                Ok(true) => {}
                Ok(false) => {
                    self.give_row_back();
                    return Ok(false);
                }
                Err(fault) => {
                    self.give_row_back();
                    return Err(Unmade::recording(fault));
                }
            }
        }
        self.clear_beside(alloc, number)
    }

    /// Whether the names by this number are free for all files beside the recording.
    fn are_free_beside(&self, alloc: Global, number: u32) -> Result<bool, Unmade> {
        for (own, held) in &self.beside {
            match held.free_name(alloc, &self.opener, number) {
                Ok(Some(_name)) => {}
                Ok(None) => return Ok(false),
                Err(fault) => return Err(Unmade::beside(*own, fault)),
            }
        }
        Ok(true)
    }

    /// Renames the existing files beside the recording by this number; whether that worked: if something has one of the
    /// names by now, it didn't.
    fn clear_beside(&mut self, alloc: Global, number: u32) -> Result<bool, Unmade> {
        for (own, held) in self.beside.iter_mut() {
            if !held.is_in_the_way() {
                continue;
            }
            let is_renamed = match held.free_name(alloc, &self.opener, number) {
                Ok(Some(name)) => held.rename(&self.opener, name),
                Ok(None) => Ok(false),
                Err(fault) => Err(fault),
            };
            match is_renamed {
                Ok(true) => {}
                Ok(false) => return Ok(false),
                Err(fault) => return Err(Unmade::beside(*own, fault)),
            }
        }
        Ok(true)
    }

    /// The earlier recording's new name, if it was renamed and won't be removed.
    pub fn renamed(&self) -> Option<&str> {
        self.staying(&self.recording)
    }

    /// The same for a file beside it.
    pub fn renamed_beside(&self, beside: Beside) -> Option<&str> {
        self.staying(self.held_beside(beside)?)
    }

    fn staying<'k>(&self, held: &'k Held<O::File>) -> Option<&'k str> {
        if self.replaces && held.is_replaceable() {
            return None;
        }
        held.renamed()
    }

    /// A file beside the recording, if there is one.
    fn held_beside(&self, beside: Beside) -> Option<&Held<O::File>> {
        for (own, held) in &self.beside {
            if *own == beside {
                return Some(held);
            }
        }
        None
    }

    /// Keeps earlier files that were to be replaced: the recording has ended without a codestream, or isn't on the
    /// disk.
    pub fn keep(&mut self) {
        self.replaces = false;
    }

    /// Syncs the recording to disk, and its folder too if that can be synced at all.
    pub fn sync(&self) -> io::Result<()> {
        self.recording.sync()
    }

    /// Syncs a file beside it likewise, if there is one.
    pub fn sync_beside(&self, beside: Beside) -> io::Result<()> {
        match self.held_beside(beside) {
            Some(held) => held.sync(),
            None => Ok(()),
        }
    }

    /// Whether earlier files are to be removed once the recording has a codestream, and haven't been.
    pub fn replaces(&self) -> bool {
        self.replaces
    }

    /// Removes earlier files, if they are to be replaced. To be called once the recording has a codestream and is on
    /// the disk. Pieces are removed only with the earlier recording that they belong to: without one they may be
    /// another's.
    pub fn replace(&mut self) {
        if self.replaces {
            self.replaces = false;
            if self.recording.is_removable(&self.opener) {
                if let Some(row) = &mut self.row {
                    row.remove(&self.opener);
                }
            }
            self.recording.remove_earlier(&self.opener);
            for (_own, held) in self.beside.iter_mut() {
                held.remove_earlier(&self.opener);
            }
        }
    }

    /// If nothing was recorded, removes the new files and gives earlier ones their names back; those beside the
    /// recording only with it.
    pub fn give_back(&mut self) {
        if self.recording.has_bytes() {
            return;
        }
        if self.recording.stands(&self.opener) {
            // While the recording's new file is there and locked, no other program takes its place.
            self.give_row_back();
            self.give_back_beside();
            let _is_back = self.recording.give_back(&self.opener);
        } else if self.recording.is_written_into() || self.recording.give_back(&self.opener) {
            self.give_row_back();
            self.give_back_beside();
        }
    }

    fn give_back_beside(&mut self) {
        for (_own, held) in self.beside.iter_mut() {
            let _is_back = held.give_back(&self.opener);
        }
    }
}

/// A path, or that there is no memory for it.
fn own_path(path: Result<String, AllocError>) -> Result<String, Unmade> {
    match path {
        Ok(path) => Ok(path),
        Err(refused) => Err(Unmade::recording(io::Error::from(refused))),
    }
}
