//! A film that is recorded, from the opening of its file until its recording has ended.
ghost use Rattle.std.specs.Prelude.{◌≡◌, IfOk, string_bytes};
ghost use Rattle.ls_files.specs.View.Files.{path_of_target};

use crate::chain::Chain;
use crate::found::Found;
use crate::names::Names;
use crate::pieces::{Cutting, Succession};
use crate::refusal::Refusal;
use ls_console::Console;
use ls_files::{Beside, Keeper, Makes, Place, Row, Target, Targets, Unmade};
use ls_frame::{Failed, Outlet};
use std::alloc::Global;
use std::io;

/// A film, and the files that are made for it.
#[derive(Drop)]
pub struct Film<'a, O: Makes> {
    pub names: &'a Names<'a>,
    /// The files of its recording, or of the first piece of that.
    keeper: Keeper<O>,
    /// Where its recording is cut into pieces, if it is; and the later piece whose files are kept here: those of pieces
    /// before it are finished, and closed once they are on the disk.
    cutting: Option<Cutting<'a, O>>,
    later: Option<Keeper<O>>,
    /// The file for the times of its frames, once it is made and until it is taken.
    times: Option<Target<'a, O>>,
    /// Whether the recording and the files beside it are on the disk, once the film has ended.
    synced: Option<Synced>,
    /// The failures to sync the recording and the files beside it while it went on.
    unsynced: Unsynced,
    unsynced_index: Unsynced,
    unsynced_times: Unsynced,
    /// The number of frames that were on the disk while it went on.
    synced_frames: u64,
    /// The number of frames, once the film has ended and if its recording is whole.
    pub frames: Option<u64>,
    /// Whether the film was read no further since the program was asked to stop, once it has ended.
    pub is_stopped: bool,
    /// Whether it has an index or times that aren't whole, once the film has ended.
    pub is_beside_broken: bool,
}

/// The failures to sync a recording, or the files of one kind beside it.
#[derive(Clone, Copy)]
struct Unsynced {
    /// The first of all.
    first: Option<Failed>,
    /// Whether syncing the file that is written has failed. (The system says so only once.)
    has_failed: bool,
}

/// Before any failure.
const SYNCED: Unsynced = Unsynced {
    first: None,
    has_failed: false,
};

impl Unsynced {
    /// Notes whether the file that is written was synced. Returns whether that has failed for the first time.
    fn note(&mut self, outcome: io::Result<()>) -> bool {
        match outcome {
            Ok(()) => false,
            Err(fault) => {
                self.has_failed = true;
                self.note_first(Some(Failed::from(fault)))
            }
        }
    }

    /// Notes a failure, if there was one, unless one was noted before. Returns whether it is the first.
    fn note_first(&mut self, failure: Option<Failed>) -> bool {
        if self.first.is_some() {
            return false;
        }
        self.first = failure;
        failure.is_some()
    }

    /// Notes that another file is written.
    fn renew(&mut self) {
        self.has_failed = false;
    }

    /// The first failure, if there is one.
    fn outcome(&self) -> Result<(), Failed> {
        match self.first {
            Some(failure) => Err(failure),
            None => Ok(()),
        }
    }
}

/// Whether a recording and the files beside it were synced to disk, or why not.
#[derive(Clone, Copy)]
pub struct Synced {
    pub recording: Result<(), Failed>,
    pub index: Result<(), Failed>,
    pub times: Result<(), Failed>,
}

impl<'a, O: Makes + Copy + Drop> Film<'a, O> {
    /// Locks existing files at the place of its recording, and at those of its index and its times if they are given.
    /// The pieces of earlier recordings are renamed with these.
    pub fn claim(
        alloc: Global,
        opener: O,
        found: &Found<'a>,
        index: Option<&Place<'a>>,
        times: Option<&Place<'a>>,
        pieces: Option<Row>,
        cutting: Option<Cutting<'a, O>>,
        replace: bool,
    ) -> Result<Film<'a, O>, Refusal<'a>>
        ensures { IfOk result (λ film. film.names.now ≡ found.now.names.now) }
    {
        let names = found.names;
        match Keeper::claim(alloc, opener, &found.place, index, times, replace) {
            Ok(mut keeper) => {
                if let Some(row) = pieces {
                    keeper.claim_row(row);
                }
                Ok(Film {
                    names,
                    keeper,
                    cutting,
                    later: None,
                    times: None,
                    synced: None,
                    unsynced: SYNCED,
                    unsynced_index: SYNCED,
                    unsynced_times: SYNCED,
                    synced_frames: 0,
                    frames: None,
                    is_stopped: false,
                    is_beside_broken: false,
                })
            }
            Err(unmade) => Err(unmade_of(names, unmade)),
        }
    }

    /// Makes the files of its recording, and says what was renamed for them. `take_times` returns that of the times.
    pub fn make<E: Outlet>(
        &mut self,
        alloc: Global,
        console: &mut Console<E>,
    ) -> Result<Targets<'a, O>, Refusal<'a>>
        ensures path { IfOk result (λ targets. path_of_target targets.recording ≡ string_bytes self.old.names.now.recording) }
        ensures names { self.new.names.now ≡ self.old.names.now }
    {
        let names = self.names;
        let index = wanted(names.is_indexed, names.index.as_str());
        let times = wanted(names.is_timed, names.times.as_str());
        match self
            .keeper
            .make(alloc, names.recording.as_str(), index, times)
        {
            Ok(mut targets) => {
                mention(names.recording.as_str(), self.keeper.renamed(), console);
                let (index, times) = (Beside::Index, Beside::Times);
                mention(
                    names.index.as_str(),
                    self.keeper.renamed_beside(index),
                    console,
                );
                mention(
                    names.times.as_str(),
                    self.keeper.renamed_beside(times),
                    console,
                );
                self.times = targets.times.take();
                Ok(targets)
            }
            Err(unmade) => Err(unmade_of(names, unmade)),
        }
    }

    /// The file for the times of its frames, if it was made and no call has given it before.
    pub fn take_times(&mut self) -> Option<Target<'a, O>>
        ensures { self.new.names.now ≡ self.old.names.now }
    {
        self.times.take()
    }

    /// How the next piece of its recording is made, if that is cut into pieces.
    pub fn succession(&self, alloc: Global, opener: O) -> Option<Succession<'a, O>> {
        let cutting = self.cutting?;
        Some(Succession {
            alloc,
            opener,
            names: self.names,
            cutting,
            unmade: None,
        })
    }

    /// Where its recording is cut into pieces, if it is.
    pub fn cutting(&self) -> Option<Cutting<'a, O>> {
        self.cutting
    }

    /// Removes earlier files that are to be replaced, once the recording has a codestream and is synced. Returns
    /// whether it can't be synced, the first time that this is found.
    pub fn replace(&mut self, written: u64) -> bool {
        if written == 0 || self.unsynced.first.is_some() || !self.keeper.replaces() {
            return false;
        }
        match self.keeper.sync() {
            Ok(()) => self.keeper.replace(),
            Err(fault) => {
                let _is_first = self.unsynced.note(Err(fault));
            }
        }
        self.unsynced.first.is_some()
    }

    /// Brings what is written of the recording onto the disk while it goes on, and of the files beside it no more than
    /// that. Returns whether one failed for the first time.
    pub fn sync_so_far(&mut self, written: u64) -> bool {
        if written == self.synced_frames || self.unsynced.has_failed {
            return false;
        }
        self.synced_frames = written;
        self.sync_all()
    }

    /// Brings the pieces that are finished onto the disk, and closes them. Returns whether one failed for the first
    /// time.
    pub fn sync_finished(&mut self) -> bool {
        let Some(cutting) = self.cutting else {
            return false;
        };
        let mut is_news = false;
        for _piece in 0..u64::MAX {
            match cutting.chain.take() {
                Some(next) => {
                    is_news = is_news | self.sync_all();
                    self.later = Some(next);
                    self.unsynced.renew();
                    self.unsynced_index.renew();
                    self.unsynced_times.renew();
                }
                None => break,
            }
        }
        is_news | self.note_chain(cutting.chain)
    }

    /// Notes why finished pieces that the writing thread has brought onto the disk aren't there. Returns whether one
    /// failed for the first time.
    fn note_chain(&mut self, chain: &Chain<O>) -> bool {
        let recording = self.unsynced.note_first(chain.unsynced(None));
        let index = self
            .unsynced_index
            .note_first(chain.unsynced(Some(Beside::Index)));
        let times = self
            .unsynced_times
            .note_first(chain.unsynced(Some(Beside::Times)));
        recording | index | times
    }

    /// Syncs the files that are written, those beside the recording first. Returns whether one failed for the first
    /// time.
    fn sync_all(&mut self) -> bool {
        let index = self.sync_beside(Beside::Index);
        let times = self.sync_beside(Beside::Times);
        let recording = self.sync();
        recording | index | times
    }

    /// Settles the files of a film that has ended, with a fault or without, and with this number of codestreams: syncs
    /// them, and removes earlier files that are to be replaced; or, if it stopped before anything was recorded, removes
    /// the new files and gives earlier ones their names back. A last piece without a frame is removed likewise. Returns
    /// whether they are on the disk, as at the first call.
    pub fn settle(&mut self, has_stopped: bool, written: u64) -> Synced {
        match self.synced {
            Some(synced) => synced,
            None => {
                let _failed = self.sync_finished();
                if has_stopped {
                    self.give_back();
                }
                let _failed = (
                    self.sync(),
                    self.sync_beside(Beside::Index),
                    self.sync_beside(Beside::Times),
                );
                let synced = Synced {
                    recording: self.unsynced.outcome(),
                    index: self.unsynced_index.outcome(),
                    times: self.unsynced_times.outcome(),
                };
                if synced.recording.is_ok() && written > 0 {
                    self.keeper.replace();
                }
                self.synced = Some(synced);
                synced
            }
        }
    }

    /// The earlier recording's new name, if it was to be replaced and stays, since the film has ended without a frame
    /// or its recording couldn't be synced.
    pub fn left_over(&mut self) -> Option<&str> {
        if !self.keeper.replaces() {
            return None;
        }
        self.keeper.keep();
        self.keeper.renamed()
    }

    /// If nothing was recorded, removes the files that were made, and gives earlier ones their names back; and likewise
    /// those of the last piece, if nothing was recorded in it.
    pub fn give_back(&mut self) {
        if let Some(later) = &mut self.later {
            later.give_back();
        }
        self.keeper.give_back();
    }

    /// Whether it has ended, and the recording is on the disk.
    pub fn is_on_disk(&self) -> bool {
        match self.synced {
            Some(synced) => synced.recording.is_ok(),
            None => false,
        }
    }

    /// The files that are written: those of the piece that was taken last, or else of the recording.
    fn own(&self) -> &Keeper<O> {
        match &self.later {
            Some(later) => later,
            None => &self.keeper,
        }
    }

    /// Syncs the file of the recording that is written, unless that has failed. Returns whether it failed for the first
    /// time.
    fn sync(&mut self) -> bool {
        if self.unsynced.has_failed {
            return false;
        }
        let outcome = self.own().sync();
        self.unsynced.note(outcome)
    }

    /// Syncs a file beside it likewise.
    fn sync_beside(&mut self, beside: Beside) -> bool {
        let has_failed = match beside {
            Beside::Index => self.unsynced_index.has_failed,
            Beside::Times => self.unsynced_times.has_failed,
        };
        if has_failed {
            return false;
        }
        let outcome = self.own().sync_beside(beside);
        match beside {
            Beside::Index => self.unsynced_index.note(outcome),
            Beside::Times => self.unsynced_times.note(outcome),
        }
    }
}

/// Which file of a film can't be made, and why.
fn unmade_of<'a>(names: &'a Names<'a>, unmade: Unmade) -> Refusal<'a> {
    Refusal::Unmade(name_of(names, unmade.beside), unmade.fault)
}

/// The name of a film's recording, or of a file beside it.
fn name_of<'a>(names: &'a Names<'a>, beside: Option<Beside>) -> &'a str {
    match beside {
        None => names.recording.as_str(),
        Some(Beside::Index) => names.index.as_str(),
        Some(Beside::Times) => names.times.as_str(),
    }
}

/// The path of a file that is to be made, if it is.
fn wanted<'a>(is_wanted: bool, path: &'a str) -> Option<&'a str> {
    if is_wanted { Some(path) } else { None }
}

/// Says that the file at `path` was renamed, if it was and reasons are on.
fn mention<E: Outlet>(path: &str, renamed: Option<&str>, console: &mut Console<E>) {
    if let Some(name) = renamed {
        console.mention(path, name);
    }
}

/// Converts an error of the system to a failure.
pub fn failed_of(outcome: io::Result<()>) -> Result<(), Failed> {
    match outcome {
        Ok(()) => Ok(()),
        Err(fault) => Err(Failed::from(fault)),
    }
}
