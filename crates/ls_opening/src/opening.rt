//! Opens the films of `record`, and makes the files for their recordings, for the indexes of those and for a report,
//! of which none may be a duplicate.
ghost use Rattle.std.specs.Prelude.{◌≡◌, [], IfOk, string_bytes};
ghost use Rattle.std.specs.List.{AllZip};
ghost use Rattle.ls_frame.specs.View.Devices.{wrapped};
ghost use Rattle.ls_files.specs.View.Files.{ReadsFileAt, left_in_source};
ghost use Rattle.ls_console.specs.View.Readers.{unread};
ghost use Rattle.ls_opening.specs.View.Devices.{AreDevicesOf, IsWriterFor, kept_of, target_of};

use crate::chain::Chain;
use crate::film::Film;
use crate::found::{
    Found, beside_to_claim, could_be_piece, has_beside_at, is_met, pieces_to_claim, uncut,
    written_twice,
};
use crate::limited::{Course, Limited};
use crate::names::Names;
use crate::pieces::{Cutting, Pieces, Succession};
use crate::refusal::Refusal;
use ls_archive::{Follower, Indexing};
use ls_command::RecordRequest;
use ls_console::{Console, MadeFile, Reader, Shown, buffered, make_file};
use ls_files::{Beside, Folders, Keeper, Makes, Opens, Place, Source, Target, Targets};
use ls_frame::{Counted, Outlet, Tuning};
use std::alloc::{AllocError, Global};
use std::rt::Files;
use std::sync::Wait;
use std::sync::atomic::AtomicU64;
use std::thread::Parker;
use std::time::Duration;

/// The writer of a film's codestreams: to the file of its recording, or to pieces of it, and to the index of each, if
/// there is one.
pub type Writer<'a, O> = Counted<Pieces<'a, O>>;

/// What a film's lane is given: its reader, its writer and its coding parameters.
pub type Devices<'a, O> = (Limited<'a, Reader<'a, O>>, Writer<'a, O>, Tuning);

/// The films, what the lane of each is given, and the file of the report, if there is to be one.
#[derive(Drop)]
pub struct Opened<'a, O: Makes> {
    pub films: Vec<Film<'a, O>>,
    pub devices: Vec<Devices<'a, O>>,
    pub report: Option<MadeFile<'a, O>>,
}

/// The number of times that folders which another program has locked are tried, and the milliseconds between them: a
/// second in all.
const TRIES: u32 = 100;

const PAUSE: u64 = 10;

/// Opens each film but the named pipes. Only then, if no file is a duplicate or is being made by another program,
/// makes the files of the report and of each recording. The devices are those of the films, in the order of the names,
/// and so are the courses, if there are any, and the chains, if the recordings are cut into pieces.
pub fn open_films<'o, 'a, R, O, E>(
    rt: &'o R,
    opener: O,
    asked: &'o RecordRequest<'a>,
    names: &'a [Names<'a>],
    courses: &'a [Course],
    chains: &'a [Chain<O>],
    console: &mut Console<E>,
) -> Result<Opened<'a, O>, Refusal<'a>>
where
    R: Files + AllocGlobal + Wait + Clone + Drop,
    O: Makes<File = R::File> + Copy + Drop + 'a,
    R::File: 'a,
    E: Outlet,
    ensures { IfOk result (λ opened. AllZip (AreDevicesOf O.holds R.File.remaining O.kept opener asked.now.tuning) names.now opened.devices.items) }
{
    let opening = Opening {
        rt,
        opener,
        asked,
        names,
        courses,
        chains,
    };
    let sources = opening.open_sources()?;
    let Made {
        films,
        writers,
        report,
    } = opening.make_files(&sources, console)?;
    let devices = opening.devices(sources, writers, console)?;
    Ok(Opened {
        films,
        devices,
        report,
    })
}

/// The opening of films: the runtime and its opener, what is asked for, the films' names, and their courses and chains,
/// if they have any.
#[derive(Drop)]
struct Opening<'o, 'a, R, O: Makes> {
    rt: &'o R,
    opener: O,
    asked: &'o RecordRequest<'a>,
    names: &'a [Names<'a>],
    courses: &'a [Course],
    chains: &'a [Chain<O>],
}

/// The films and the report, once every lock is taken and before anything is changed.
#[derive(Drop)]
struct Claimed<'a, O: Makes> {
    films: Vec<Film<'a, O>>,
    report: Option<ClaimedReport<'a, O>>,
}

/// The report's path, and the keeper that has claimed its place.
#[derive(Drop)]
struct ClaimedReport<'a, O: Makes> {
    path: &'a str,
    keeper: Keeper<O>,
}

/// The films, the writer of each recording, and the file of the report, if there is to be one.
#[derive(Drop)]
struct Made<'a, O: Makes> {
    films: Vec<Film<'a, O>>,
    writers: Vec<Writer<'a, O>>,
    report: Option<MadeFile<'a, O>>,
}

impl<'o, 'a, R, O> Opening<'o, 'a, R, O>
where
    R: Files + AllocGlobal + Wait + Clone + Drop,
    O: Makes<File = R::File> + Copy + Drop + 'a,
    R::File: 'a,
{
    /// Opens the films' files.
    fn open_sources(&self) -> Result<Vec<Source<'a, O>>, Refusal<'a>>
        ensures { IfOk result (λ sources. AllZip (λ names source. ReadsFileAt O.holds R.File.remaining self.now.opener names.file.now source) self.now.names.now sources.items) }
    {
        let mut sources = Vec::new(self.rt.alloc());
        for film in self.names {
            match Source::of(self.rt, self.opener, film.file, self.asked.keep_open) {
                Ok(source) => sources.push(source)?,
                Err(fault) => return Err(Refusal::Unopened(film.file, fault)),
            }
        }
        Ok(sources)
    }

    /// Makes the files of the report and of each recording. Their folders are locked meanwhile.
    fn make_files<E: Outlet>(
        &self,
        sources: &[Source<'a, O>],
        console: &mut Console<E>,
    ) -> Result<Made<'a, O>, Refusal<'a>>
        ensures { IfOk result (λ made. AllZip (IsWriterFor O.kept) self.now.names.now made.writers.items) }
    {
        let folders = self.lock_folders()?;
        let claimed = self.claim(sources)?;
        let made = make_claimed(self.rt.alloc(), self.opener, claimed, console);
        drop(folders);
        made
    }

    /// Locks the folders in which files are to be made, so that programs that begin at once make theirs one after the
    /// other. A folder that another program keeps locked is skipped: the locks of its files still show which of them
    /// are in use.
    fn lock_folders(&self) -> Result<Folders<O::File>, AllocError> {
        let mut folders = Folders::new(self.rt.alloc());
        let mut tries = TRIES;
        for film in self.names {
            tries = self.lock_folder(film.recording.as_str(), &mut folders, tries)?;
        }
        if let Some(report) = self.asked.report {
            let _left = self.lock_folder(report, &mut folders, tries)?;
        }
        Ok(folders)
    }

    /// Locks the folder of a path likewise, and returns how many of these tries are left.
    fn lock_folder(
        &self,
        path: &str,
        folders: &mut Folders<O::File>,
        tries: u32,
    ) -> Result<u32, AllocError> {
        let pause = Parker::new();
        for used in 0..tries.max(1) {
            if folders.lock(&self.opener, path)? {
                return Ok(tries.saturating_sub(used));
            }
            pause.park_timeout(self.rt, Duration::from_millis(PAUSE));
        }
        Ok(0)
    }

    /// Locks existing files at the places of the report, of recordings and of the files beside them, unless one is a
    /// duplicate.
    fn claim(&self, sources: &[Source<'a, O>]) -> Result<Claimed<'a, O>, Refusal<'a>>
        ensures { IfOk result (λ claimed. AllZip (λ names film. film.names.now ≡ names) self.now.names.now claimed.films.items) }
    {
        let found = self.look_at(sources)?;
        let place = self.report_place(&found)?;
        let report = match &place {
            Some(place) => Some(self.claim_report(place)?),
            None => None,
        };
        let films = self.claim_films(&found, place.as_ref())?;
        Ok(Claimed { films, report })
    }

    /// Looks at the films' files, and at the places of their recordings. Refused if one is a duplicate.
    fn look_at(&self, sources: &[Source<'a, O>]) -> Result<Vec<Found<'a>>, Refusal<'a>>
        ensures { IfOk result (λ found. AllZip (λ names film. film.names.now ≡ names) self.now.names.now found.items) }
    {
        let mut films = Vec::new(self.rt.alloc());
        for names in self.names {
            let identity = match (&*sources).get(films.len()) {
                Some(source) => source.identity(),
                None => None,
            };
            films.push(Found::look(self.rt, names, identity))?;
        }
        match (
            written_twice(&films, self.asked.replace),
            uncut(self.rt, &films)?,
        ) {
            (Some(file), _) => Err(Refusal::Twice(file)),
            (None, Some(recording)) => Err(Refusal::Uncut(recording)),
            (None, None) => Ok(films),
        }
    }

    /// The place of the report, if there is to be one. Refused if it is a duplicate.
    fn report_place(&self, films: &[Found<'a>]) -> Result<Option<Place<'a>>, Refusal<'a>> {
        let Some(path) = self.asked.report else {
            return Ok(None);
        };
        let place = Place::of(self.rt, path);
        let replace = self.asked.replace;
        if films.iter().any(|film| {
            is_met(film, &place, replace)
                || has_beside_at(film, &place)
                || could_be_piece(film, &place)
        }) {
            return Err(Refusal::Twice(path));
        }
        Ok(Some(place))
    }

    /// Locks an existing file at the report's place.
    fn claim_report(&self, place: &Place<'a>) -> Result<ClaimedReport<'a, O>, Refusal<'a>> {
        let path = place.path();
        let alloc = self.rt.alloc();
        match Keeper::claim(alloc, self.opener, place, None, None, self.asked.replace) {
            Ok(keeper) => Ok(ClaimedReport { path, keeper }),
            Err(unmade) => Err(Refusal::Unmade(path, unmade.fault)),
        }
    }

    /// Locks existing files at the places of recordings and of the files beside them.
    fn claim_films(
        &self,
        found: &[Found<'a>],
        report: Option<&Place<'_>>,
    ) -> Result<Vec<Film<'a, O>>, Refusal<'a>>
        ensures { IfOk result (λ films. AllZip (λ found film. film.names.now ≡ found.names.now) found.now films.items) }
    {
        let alloc = self.rt.alloc();
        let mut films = Vec::new(alloc);
        for film in found {
            let index = beside_to_claim(film, Beside::Index, found, report);
            let times = beside_to_claim(film, Beside::Times, found, report);
            let pieces = pieces_to_claim(self.rt, film, found, report)?;
            let cutting = self.cutting(films.len());
            films.push(Film::claim(
                alloc,
                self.opener,
                film,
                index,
                times,
                pieces,
                cutting,
                self.asked.replace,
            )?)?;
        }
        Ok(films)
    }

    /// Where the recording of the film of this number is cut into pieces, if it is.
    fn cutting(&self, film: usize) -> Option<Cutting<'a, O>> {
        Some(Cutting {
            course: self.courses.get(film)?,
            chain: self.chains.get(film)?,
        })
    }

    /// What each film's lane is given. The tuning is that of all films. Requires a source and a writer for each film.
    fn devices<E: Outlet>(
        &self,
        mut sources: Vec<Source<'a, O>>,
        mut writers: Vec<Writer<'a, O>>,
        console: &mut Console<E>,
    ) -> Result<Vec<Devices<'a, O>>, Refusal<'a>>
        requires sources { AllZip (λ names source. ReadsFileAt O.holds R.File.remaining self.now.opener names.file.now source) self.now.names.now sources.items }
        requires writers { AllZip (IsWriterFor O.kept) self.now.names.now writers.items }
        ensures { IfOk result (λ devices. AllZip (AreDevicesOf O.holds R.File.remaining O.kept self.now.opener self.now.asked.now.tuning) self.now.names.now devices.items) }
    {
        let alloc = self.rt.alloc();
        let mut devices = Vec::new(alloc);
        for film in self.names {
            let (source, writer) = (sources.remove(0), writers.remove(0));
            let course = self.courses.get(devices.len());
            let reader = reader_of(alloc, film, source, course, self.asked.keep_open, console)?;
            let limited = Limited::new(reader, course);
            devices.push((limited, writer, self.asked.tuning))?;
        }
        Ok(devices)
    }
}

/// Makes the files of the report and of each recording, whose places are claimed.
fn make_claimed<'a, O, E>(
    alloc: Global,
    opener: O,
    claimed: Claimed<'a, O>,
    console: &mut Console<E>,
) -> Result<Made<'a, O>, Refusal<'a>>
where
    O: Makes + Copy + Drop,
    E: Outlet,
    ensures { IfOk result (λ made. AllZip (λ film writer. IsWriterFor O.kept film.names.now writer) claimed.entry.films.items made.writers.items) }
{
    let Claimed { mut films, report } = claimed;
    let report = match report {
        Some(claimed) => Some(make_report(alloc, claimed, console)?),
        None => None,
    };
    let writers = make_recordings(alloc, opener, &mut films, console)?;
    Ok(Made {
        films,
        writers,
        report,
    })
}

/// Makes the file of the report.
fn make_report<'a, O, E>(
    alloc: Global,
    claimed: ClaimedReport<'a, O>,
    console: &mut Console<E>,
) -> Result<MadeFile<'a, O>, Refusal<'a>>
where
    O: Makes + Copy + Drop,
    E: Outlet,
{
    match make_file(alloc, claimed.path, claimed.keeper, console) {
        Ok(made) => Ok(made),
        Err(_said) => Err(Refusal::Said),
    }
}

/// Makes the file of each recording, and those beside it that it is to have, and returns their writers.
fn make_recordings<'a, O, E>(
    alloc: Global,
    opener: O,
    films: &mut [Film<'a, O>],
    console: &mut Console<E>,
) -> Result<Vec<Writer<'a, O>>, Refusal<'a>>
where
    O: Makes + Copy + Drop,
    E: Outlet,
    ensures { IfOk result (λ writers. AllZip (λ film writer. IsWriterFor O.kept film.names.now writer) films.old writers.items) }
{
    let mut writers = Vec::new(alloc);
    for film in films.iter_mut() {
        let targets = film.make(alloc, console)?;
        let succession = film.succession(alloc, opener);
        writers.push(writer_of(alloc, opener, targets, succession))?;
    }
    Ok(writers)
}

/// The writer to the files of a recording.
fn writer_of<'a, O: Makes + Copy + Drop>(
    alloc: Global,
    opener: O,
    targets: Targets<'a, O>,
    succession: Option<Succession<'a, O>>,
) -> Writer<'a, O>
    ensures target { target_of result ≡ targets.entry.recording }
    ensures none { kept_of O.kept (wrapped result) ≡ [] }
{
    let Targets {
        recording,
        index,
        ..
    } = targets;
    let follower = index.map(|target| Follower::new(alloc, Counted::new(target)));
    let piece = Indexing::new(Counted::new(recording), follower);
    Counted::new(Pieces::new(alloc, opener, piece, succession))
}

/// The reader of a film, with a buffer, which notes on its course when bytes come, if that is wanted. If its pipe isn't
/// kept open, says on a terminal that it is waited for.
fn reader_of<'a, O, E>(
    alloc: Global,
    names: &'a Names<'a>,
    mut source: Source<'a, O>,
    course: Option<&'a Course>,
    keep_open: bool,
    console: &mut Console<E>,
) -> Result<Reader<'a, O>, Refusal<'a>>
where
    O: Opens + Copy,
    E: Outlet,
    ensures { IfOk result (λ reader. unread O.File.remaining reader ≡ left_in_source O.File.remaining source.entry) }
{
    if let Some(arrival) = arrival_of(course) {
        source.time_into(arrival);
    }
    if !keep_open && source.is_awaited() && console.is_terminal() {
        source.announce(names.notice.as_str());
        let file = Shown(names.file);
        console.say(format_args!("{file}: waiting for what writes to it"));
    }
    match buffered(alloc, names.file, source, console) {
        Ok(reader) => Ok(reader),
        Err(_said) => Err(Refusal::Said),
    }
}

/// Where a film's file puts the time at which bytes came, if that is wanted.
fn arrival_of<'a>(course: Option<&'a Course>) -> Option<&'a AtomicU64> {
    course?.arrival()
}
