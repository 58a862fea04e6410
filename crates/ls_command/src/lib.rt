//! Reads the words of the command line: the request that they make, or the help or error to show in its place.
//!
//! ```
//! use ls_command::{Request, read_words};
//! use std::alloc::Global;
//!
//! /// The recording that is to be played, if the words ask for that.
//! pub fn played<'a>(alloc: Global, words: &'a [String]) -> Option<&'a str> {
//!     match read_words(alloc, words) {
//!         Ok((Request::Play { file, .. }, _reasons)) => Some(file),
//!         _ => None,
//!     }
//! }
//! ```
//!
//! The words are parsed by `clap`, which isn't seen outside: `commands` gives it the commands and options, and `texts`
//! holds their help. `limits` has the limits on numbers; `frames`, `cut` and `preset` read the values of `--frames`,
//! `--pieces` and `--preset` (`specs/Values.antt`); `faults` makes the usage faults that `clap` doesn't find. The
//! contracts say which request the matched words make (`specs/View/Matched.antt`). The tests of the whole program show
//! which words are accepted, and how others are answered.
#![tactic(auto)]

mod commands;
pub mod cut;
mod faults;
pub mod frames;
mod limits;
mod preset;
mod texts;

ghost use Rattle.std.specs.Prelude.{◌≡◌, ◌^◌, ◌∷◌, [], true, None, Some, IfOk, IfSome, codes, map, string_bytes};
ghost use Rattle.ls_command.specs.View.Matched.{Asks, AsksFrames, AsksPieces, AsksToRecord, AsksWorkers, AreMatched, ArePairsOf, HasText, MakesRequest, ReadsNumber, WordsMakeRequest, files_in, texts_in_turn, texts_of};

use clap::error::ErrorKind;
use clap::{ArgMatches, Error};
use commands::command;
pub use cut::Cut;
use cut::read_cut;
use faults::{misuse_of, usage_fault, with_tip};
pub use frames::Frames;
use frames::read_frames;
pub use limits::MOST_FILMS;
use ls_frame::Tuning;
use preset::tuning_of;
use std::alloc::{AllocError, Global};
use texts::{
    BAD_PIECES, BAD_PRESET, BEGINNING, BESIDE_WANTED, CHECKERS_WANTED, COMMAND_WANTED,
    FRAMES_OF_ONE, FRAMES_OR_SALVAGE, FRAMES_OR_STRICT, FRAMES_WANTED, INDEX_OF_ONE,
    INDEX_OR_BESIDE, INDEX_WANTED, INTO_OR_INDEX, INTO_OR_SALVAGE, INTO_WANTED, JSON_OR_BESIDE,
    PAIRS_WANTED, PLAYERS_WANTED, SALVAGE_WANTED, TOO_MANY_FILMS, VERIFIERS_WANTED,
};

/// A request, one variant for each command; but `play` has four, `check` three, and `index` and `verify` two each.
#[derive(Drop)]
pub enum Request<'a> {
    /// List the frames of a film.
    List {
        file: &'a str,
        /// Whether an object of JSON is written for each line.
        json: bool,
    },
    /// Code the frames of a film, and write their index if a file is named for it.
    Code {
        file: &'a str,
        index: Option<&'a str>,
    },
    /// Play a recording: all frames, or some.
    Play {
        file: &'a str,
        frames: Option<Frames>,
        /// The number of workers that decode; one if only some frames are played.
        workers: u8,
    },
    /// Play some frames of a recording, which are found by its index.
    Listed {
        file: &'a str,
        index: &'a str,
        frames: Frames,
    },
    /// Play recordings into a folder: all frames of each, or some.
    PlayInto {
        files: Vec<&'a str>,
        /// The folder for the films.
        into: &'a str,
        frames: Option<Frames>,
        /// The number of workers that decode; one if only some frames are played.
        workers: u8,
    },
    /// Play the intact frames of a recording, past damage.
    Salvage {
        file: &'a str,
        /// The recording's index, which gives the frame numbers of gaps.
        index: Option<&'a str>,
    },
    /// List the codestreams of a recording, with their sums or without.
    Index {
        file: &'a str,
        sums: bool,
        /// Whether an object of JSON is written for each line.
        json: bool,
    },
    /// Write an index of each recording to a file beside it, with sums or without.
    IndexBeside {
        files: Vec<&'a str>,
        sums: bool,
    },
    /// Look for damage in a recording, by itself or by its index.
    Check {
        file: &'a str,
        index: Option<&'a str>,
        /// The number of workers that decode; one without an index.
        workers: u8,
        /// Whether its codestreams must be strict, too.
        strict: bool,
        /// Whether an object of JSON is written for each line.
        json: bool,
    },
    /// Look for damage in some codestreams of a recording, which are found by its index.
    CheckPart {
        file: &'a str,
        index: &'a str,
        frames: Frames,
        /// The number of workers that decode.
        workers: u8,
        /// Whether an object of JSON is written for each line.
        json: bool,
    },
    /// Look for damage in each of several recordings; or in one, by the index beside it.
    CheckEach {
        files: Vec<&'a str>,
        /// Whether each is checked by the index beside it, else by itself.
        beside: bool,
        /// The number of workers that decode; one without an index.
        workers: u8,
        /// Whether their codestreams must be strict, too.
        strict: bool,
        /// Whether an object of JSON is written for each line.
        json: bool,
    },
    /// Compare recordings with their films.
    Verify {
        /// Each film, with its recording.
        pairs: Vec<(&'a str, &'a str)>,
        /// The number of workers that decode.
        workers: u8,
        /// Whether the codestreams of the recordings must be strict, too.
        strict: bool,
    },
    /// Compare some frames of a recording with those of its film.
    VerifyPart {
        film: &'a str,
        file: &'a str,
        frames: Frames,
    },
    /// Record films, side by side.
    Record(RecordRequest<'a>),
    /// Replay the steps of a file on a queue.
    Replay {
        sources: u8,
        capacity: u32,
        file: &'a str,
    },
}

/// A request to record films.
#[derive(Drop)]
pub struct RecordRequest<'a> {
    /// The number of workers, of frames that may wait for one, and of frames of a film that may be read and not
    /// written.
    pub workers: usize,
    pub capacity: usize,
    pub window: usize,
    /// The coding parameters that were chosen.
    pub tuning: Tuning,
    /// The folder for the recordings.
    pub into: Option<&'a str>,
    /// Whether existing recordings are removed.
    pub replace: bool,
    /// Whether progress is shown.
    pub progress: bool,
    /// The file for a report.
    pub report: Option<&'a str>,
    /// Whether each recording gets an index.
    pub index: bool,
    /// Whether the times of its frames are written beside each recording.
    pub times: bool,
    /// Where each recording is cut into pieces, if it is.
    pub pieces: Option<Cut>,
    /// The seconds after which what is recorded is brought onto the disk again; 0 if that is to be at the end alone.
    pub sync: usize,
    /// Whether pipes are kept open when nothing writes to them.
    pub keep_open: bool,
    /// The number of frames after which each film is read no further.
    pub count: Option<u64>,
    /// The seconds after which no film is read any further.
    pub seconds: Option<usize>,
    /// The films, 1 to `MOST_FILMS`.
    pub files: Vec<&'a str>,
}

/// The answer to words that make no request: help, or an error.
#[derive(Drop)]
pub enum Answer {
    /// The help or the version that was asked for, for standard output.
    Shown(String),
    /// The error in the words, for standard error.
    Misused(String),
    /// An allocation failed.
    NoMemory,
}

/// Reads the words after the program's name: the request, and whether `--reasons` asks to say why a device failed.
/// Without words, the answer says what the program is and how to begin.
///
/// Which words `clap` matches to which arguments is its contract's. Here it is said which request these make.
pub fn read_words<'a>(alloc: Global, words: &'a [String]) -> Result<(Request<'a>, bool), Answer>
    ensures { IfOk result (λ read. WordsMakeRequest (map string_bytes words.now) read.0 read.1) }
{
    if words.is_empty() {
        return Err(beginning(alloc));
    }
    match parse(alloc, words) {
        Ok(read) => Ok(read),
        Err(Refusal::Clap(error)) => Err(answer_of(alloc, &with_tip(alloc, words, error))),
        Err(Refusal::Limit(line)) => Err(misused(alloc, line)),
    }
}

/// The answer without words: what the program is and how to begin.
fn beginning(alloc: Global) -> Answer {
    misused(alloc, BEGINNING)
}

/// The answer `Misused` with this text.
fn misused(alloc: Global, text: &str) -> Answer {
    match text.to_string(alloc) {
        Ok(text) => Answer::Misused(text),
        Err(_) => Answer::NoMemory,
    }
}

/// The reason why words make no request.
#[derive(Drop)]
enum Refusal {
    /// An error of `clap`, or one in its form.
    Clap(Error),
    /// A fault that the program says in its own line.
    Limit(&'static str),
}

/// The answer to words that can't be read at all, for the reason `message`.
pub fn misuse(alloc: Global, message: &str) -> Answer {
    answer_of(alloc, &usage_fault(command(alloc), message))
}

/// Reads the request, and whether reasons are asked for.
fn parse<'a>(alloc: Global, words: &'a [String]) -> Result<(Request<'a>, bool), Refusal>
    ensures { IfOk result (λ read. WordsMakeRequest (map string_bytes words.now) read.0 read.1) }
{
    match match_words(alloc, words) {
        Ok(matches) => request_of_matches(alloc, &matches),
        Err(error) => Err(Refusal::Clap(error)),
    }
}

/// Has `clap` match the words to its commands and options.
fn match_words<'a>(alloc: Global, words: &'a [String]) -> Result<ArgMatches<'a>, Error>
    ensures { IfOk result (λ matches. AreMatched (map string_bytes words.now) matches) }
{
    let command = command(alloc)?;
    command.try_get_matches_from(words)
}

/// Converts matched words to the request, and whether reasons are asked for.
fn request_of_matches<'a>(
    alloc: Global,
    matches: &ArgMatches<'a>,
) -> Result<(Request<'a>, bool), Refusal>
    ensures { IfOk result (λ read. MakesRequest matches.now read.0 read.1) }
{
    let Some((name, words)) = matches.subcommand() else {
        return Err(no_command(alloc));
    };
    let request = if name == "record" {
        record_request(alloc, words)?
    } else {
        clap_request(alloc, name, words)?
    };
    match request {
        Some(request) => Ok((request, words.get_flag("reasons"))),
        None => Err(no_command(alloc)),
    }
}

/// The refusal of words that name no command.
fn no_command(alloc: Global) -> Refusal {
    Refusal::Clap(usage_fault(command(alloc), COMMAND_WANTED))
}

/// The request of a command other than `record`, from its matched words.
fn clap_request<'a>(
    alloc: Global,
    name: &str,
    words: &ArgMatches<'a>,
) -> Result<Option<Request<'a>>, Refusal>
    ensures { IfOk result (λ request. IfSome request (Asks words.now name.now)) }
{
    match request_of(alloc, name, words) {
        Ok(request) => Ok(request),
        Err(error) => Err(Refusal::Clap(error)),
    }
}

/// Converts an error of `clap` to an answer.
fn answer_of(alloc: Global, error: &Error) -> Answer {
    if error.kind() == ErrorKind::OutOfMemory {
        return Answer::NoMemory;
    }
    match error.to_string(alloc) {
        Ok(text) if error.use_stderr() => Answer::Misused(text),
        Ok(text) => Answer::Shown(text),
        Err(_) => Answer::NoMemory,
    }
}

/// The request of a command other than `record`; `None` for an unknown name. Its faults are errors of `clap`.
fn request_of<'a>(
    alloc: Global,
    name: &str,
    words: &ArgMatches<'a>,
) -> Result<Option<Request<'a>>, Error>
    ensures { IfOk result (λ request. IfSome request (Asks words.now name.now)) }
{
    match name {
        "list" => Ok(list_request(words)),
        "code" => Ok(code_request(words)),
        "play" => play_request(alloc, words),
        "index" => index_request(alloc, words),
        "check" => check_request(alloc, words),
        "verify" => verify_request(alloc, words),
        "replay" => Ok(replay_request(words)),
        _ => Ok(None),
    }
}

/// The request of `list`, from its matched words.
fn list_request<'a>(words: &ArgMatches<'a>) -> Option<Request<'a>>
    ensures { IfSome result (Asks words.now (codes "list")) }
{
    Some(Request::List {
        file: words.get_str("FILE")?,
        json: words.get_flag("json"),
    })
}

/// The request of `code`, from its matched words.
fn code_request<'a>(words: &ArgMatches<'a>) -> Option<Request<'a>>
    ensures { IfSome result (Asks words.now (codes "code")) }
{
    Some(Request::Code {
        file: words.get_str("FILE")?,
        index: words.get_str("index"),
    })
}

/// The request of `play`, from its matched words.
fn play_request<'a>(alloc: Global, words: &ArgMatches<'a>) -> Result<Option<Request<'a>>, Error>
    ensures { IfOk result (λ request. IfSome request (Asks words.now (codes "play"))) }
{
    let files = files_of(alloc, words)?;
    match read_play(words, files) {
        Ok(request) => Ok(Some(request)),
        Err(message) => Err(misuse_of(alloc, "play", message)),
    }
}

/// The same of the recordings that are named, or the message that says what is wrong.
fn read_play<'a>(words: &ArgMatches<'a>, files: Vec<&'a str>) -> Result<Request<'a>, &'static str>
    ensures { texts_of files.entry.items ≡ files_in words.now → IfOk result (Asks words.now (codes "play")) }
{
    let salvage = words.get_flag("salvage");
    let frames = frames_of(words, salvage)?;
    let index = words.get_str("index");
    if index.is_some() && !salvage && frames.is_none() {
        return Err(SALVAGE_WANTED);
    }
    let workers = workers_of(words);
    if workers > 1 && (frames.is_some() || salvage) {
        return Err(PLAYERS_WANTED);
    }
    if let Some(into) = words.get_str("into") {
        if salvage {
            return Err(INTO_OR_SALVAGE);
        }
        if index.is_some() {
            return Err(INTO_OR_INDEX);
        }
        return Ok(Request::PlayInto {
            files,
            into,
            frames,
            workers,
        });
    }
    let Some(file) = only(&files) else {
        return Err(INTO_WANTED);
    };
    if salvage {
        return Ok(Request::Salvage { file, index });
    }
    match (frames, index) {
        (Some(frames), Some(index)) => Ok(Request::Listed {
            file,
            index,
            frames,
        }),
        _ => Ok(Request::Play {
            file,
            frames,
            workers,
        }),
    }
}

/// The file, if one is named and no more.
fn only<'a>(files: &[&'a str]) -> Option<&'a str>
    ensures { IfSome result (λ file. texts_of files.now ≡ file.now ∷ []) }
{
    match files.split_first() {
        Some((file, rest)) if rest.is_empty() => Some(*file),
        _ => None,
    }
}

/// The frames of `--frames`, if it is given; not beside `--salvage`.
fn frames_of(words: &ArgMatches<'_>, salvage: bool) -> Result<Option<Frames>, &'static str>
    ensures frames { IfOk result (AsksFrames words.now) }
    ensures none { salvage ≡ true → IfOk result (λ frames. frames ≡ None) }
{
    match words.get_str("frames") {
        Some(_) if salvage => Err(FRAMES_OR_SALVAGE),
        Some(text) => match read_frames(text) {
            Some(frames) => Ok(Some(frames)),
            None => Err(FRAMES_WANTED),
        },
        None => Ok(None),
    }
}

/// The request of `index`, from its matched words.
fn index_request<'a>(alloc: Global, words: &ArgMatches<'a>) -> Result<Option<Request<'a>>, Error>
    ensures { IfOk result (λ request. IfSome request (Asks words.now (codes "index"))) }
{
    let files = files_of(alloc, words)?;
    match read_index(words, files) {
        Ok(request) => Ok(Some(request)),
        Err(message) => Err(misuse_of(alloc, "index", message)),
    }
}

/// The same of the recordings that are named, or the message that says what is wrong.
fn read_index<'a>(words: &ArgMatches<'a>, files: Vec<&'a str>) -> Result<Request<'a>, &'static str>
    ensures { texts_of files.entry.items ≡ files_in words.now → IfOk result (Asks words.now (codes "index")) }
{
    let sums = !words.get_flag("no-sums");
    let json = words.get_flag("json");
    if words.get_flag("beside") {
        if json {
            return Err(JSON_OR_BESIDE);
        }
        return Ok(Request::IndexBeside { files, sums });
    }
    match only(&files) {
        Some(file) => Ok(Request::Index { file, sums, json }),
        None => Err(BESIDE_WANTED),
    }
}

/// The request of `check`, from its matched words.
fn check_request<'a>(alloc: Global, words: &ArgMatches<'a>) -> Result<Option<Request<'a>>, Error>
    ensures { IfOk result (λ request. IfSome request (Asks words.now (codes "check"))) }
{
    let files = files_of(alloc, words)?;
    match read_check(words, files) {
        Ok(request) => Ok(Some(request)),
        Err(message) => Err(misuse_of(alloc, "check", message)),
    }
}

/// The same of the recordings that are named, or the message that says what is wrong.
fn read_check<'a>(words: &ArgMatches<'a>, files: Vec<&'a str>) -> Result<Request<'a>, &'static str>
    ensures { texts_of files.entry.items ≡ files_in words.now → IfOk result (Asks words.now (codes "check")) }
{
    let index = words.get_str("index");
    let beside = words.get_flag("beside");
    if index.is_some() && beside {
        return Err(INDEX_OR_BESIDE);
    }
    let workers = workers_of(words);
    if workers > 1 && index.is_none() && !beside {
        return Err(CHECKERS_WANTED);
    }
    let strict = words.get_flag("strict");
    let json = words.get_flag("json");
    if let Some(frames) = frames_of(words, false)? {
        let Some(index) = index else {
            return Err(INDEX_WANTED);
        };
        if strict {
            return Err(FRAMES_OR_STRICT);
        }
        return match only(&files) {
            Some(file) => Ok(Request::CheckPart {
                file,
                index,
                frames,
                workers,
                json,
            }),
            None => Err(FRAMES_OF_ONE),
        };
    }
    match only(&files) {
        Some(file) if !beside => Ok(Request::Check {
            file,
            index,
            workers,
            strict,
            json,
        }),
        _ if index.is_some() => Err(INDEX_OF_ONE),
        _ => Ok(Request::CheckEach {
            files,
            beside,
            workers,
            strict,
            json,
        }),
    }
}

/// The number of workers, from the matched words.
fn workers_of(words: &ArgMatches<'_>) -> u8
    ensures { AsksWorkers words.now result }
{
    words.get_one("workers").unwrap_or(1)
}

/// The request of `verify`, from its matched words.
fn verify_request<'a>(alloc: Global, words: &ArgMatches<'a>) -> Result<Option<Request<'a>>, Error>
    ensures { IfOk result (λ request. IfSome request (Asks words.now (codes "verify"))) }
{
    let Some(film) = words.get_str("FILM") else {
        return Ok(None);
    };
    let files = files_of(alloc, words)?;
    match frames_of(words, false) {
        Ok(Some(frames)) => match read_verify_part(words, film, &files, frames) {
            Ok(request) => Ok(Some(request)),
            Err(message) => Err(misuse_of(alloc, "verify", message)),
        },
        Ok(None) => match pairs_of(alloc, film, &files)? {
            Some(pairs) => Ok(verify_pairs_request(words, pairs)),
            None => Err(misuse_of(alloc, "verify", PAIRS_WANTED)),
        },
        Err(message) => Err(misuse_of(alloc, "verify", message)),
    }
}

/// The request of `verify` for these frames of a film and the recordings that are named, or the message that says what
/// is wrong.
fn read_verify_part<'a>(
    words: &ArgMatches<'a>,
    film: &'a str,
    files: &[&'a str],
    frames: Frames,
) -> Result<Request<'a>, &'static str>
    ensures { HasText words.now (codes "FILM") (Some film.now) → texts_of files.now ≡ files_in words.now → AsksFrames words.now (Some frames)
        → IfOk result (Asks words.now (codes "verify")) }
{
    if workers_of(words) > 1 {
        return Err(VERIFIERS_WANTED);
    }
    if words.get_flag("strict") {
        return Err(FRAMES_OR_STRICT);
    }
    match only(files) {
        Some(file) => Ok(Request::VerifyPart { film, file, frames }),
        None => Err(FRAMES_OF_ONE),
    }
}

/// The request of `verify`, with these films and recordings.
fn verify_pairs_request<'a>(
    words: &ArgMatches<'a>,
    pairs: Vec<(&'a str, &'a str)>,
) -> Option<Request<'a>>
    ensures { ArePairsOf words.now pairs.entry.items → AsksFrames words.now None → IfSome result (Asks words.now (codes "verify")) }
{
    Some(Request::Verify {
        pairs,
        workers: words.get_one("workers")?,
        strict: words.get_flag("strict"),
    })
}

/// The films and recordings in a list of both in turn, which goes on after the film `first`; none if the last film has
/// no recording.
fn pairs_of<'a>(
    alloc: Global,
    first: &'a str,
    files: &[&'a str],
) -> Result<Option<Vec<(&'a str, &'a str)>>, AllocError>
    ensures { IfOk result (λ pairs. IfSome pairs (λ pairs. texts_in_turn pairs.items ≡ first.now ∷ texts_of files.now)) }
{
    let mut pairs = Vec::new(alloc);
    let mut film = Some(first);
    for file in files {
        film = match film {
            Some(own) => {
                pairs.push((own, *file))?;
                None
            }
            None => Some(*file),
        };
    }
    match film {
        Some(_) => Ok(None),
        None => Ok(Some(pairs)),
    }
}

/// The request of `record`, from its matched words.
fn record_request<'a>(alloc: Global, words: &ArgMatches<'a>) -> Result<Option<Request<'a>>, Refusal>
    ensures { IfOk result (λ request. IfSome request (Asks words.now (codes "record"))) }
{
    let Some(tuning) = tuning_of(words.get_str("preset")) else {
        return Err(Refusal::Limit(BAD_PRESET));
    };
    let pieces = pieces_of(words)?;
    let files = match files_of(alloc, words) {
        Ok(files) => files,
        Err(refused) => return Err(Refusal::Clap(Error::from(refused))),
    };
    if files.len() > MOST_FILMS {
        return Err(Refusal::Limit(TOO_MANY_FILMS));
    }
    Ok(recording_of(words, tuning, pieces, files))
}

/// Where each recording is cut into pieces, if `--pieces` is given.
fn pieces_of(words: &ArgMatches<'_>) -> Result<Option<Cut>, Refusal>
    ensures { IfOk result (AsksPieces words.now) }
{
    match words.get_str("pieces") {
        Some(text) => match read_cut(text) {
            Some(cut) => Ok(Some(cut)),
            None => Err(Refusal::Limit(BAD_PIECES)),
        },
        None => Ok(None),
    }
}

/// The files that are named.
fn files_of<'a>(alloc: Global, words: &ArgMatches<'a>) -> Result<Vec<&'a str>, AllocError>
    ensures { IfOk result (λ files. texts_of files.items ≡ files_in words.now) }
{
    match words.get_strs("FILE") {
        Some(files) => files.to_vec(alloc),
        None => Ok(Vec::new(alloc)),
    }
}

/// The request of `record`, with this tuning, in these pieces and of these films.
fn recording_of<'a>(
    words: &ArgMatches<'a>,
    tuning: Tuning,
    pieces: Option<Cut>,
    files: Vec<&'a str>,
) -> Option<Request<'a>>
    ensures { IfSome result (AsksToRecord words.now tuning pieces files.entry.items) }
{
    Some(Request::Record(RecordRequest {
        workers: size_of(words, "workers")?,
        capacity: size_of(words, "queue")?,
        window: size_of(words, "window")?,
        tuning,
        into: words.get_str("into"),
        replace: words.get_flag("replace"),
        progress: words.get_flag("progress"),
        report: words.get_str("report"),
        index: words.get_flag("index"),
        times: words.get_flag("times"),
        pieces,
        sync: size_of(words, "sync")?,
        keep_open: words.get_flag("keep-open"),
        count: count_of(words),
        seconds: size_of(words, "for"),
        files,
    }))
}

/// The number of an option, from the matched words.
fn size_of(words: &ArgMatches<'_>, name: &str) -> Option<usize>
    ensures { ReadsNumber words.now (2 ^ 64) name.now result }
{
    words.get_one(name)
}

/// The number of frames of `--count`, from the matched words.
fn count_of(words: &ArgMatches<'_>) -> Option<u64>
    ensures { ReadsNumber words.now (2 ^ 64) (codes "count") result }
{
    words.get_one("count")
}

/// The request of `replay`, from its matched words.
fn replay_request<'a>(words: &ArgMatches<'a>) -> Option<Request<'a>>
    ensures { IfSome result (Asks words.now (codes "replay")) }
{
    Some(Request::Replay {
        sources: words.get_one("sources")?,
        capacity: words.get_one("capacity")?,
        file: words.get_str("FILE")?,
    })
}
