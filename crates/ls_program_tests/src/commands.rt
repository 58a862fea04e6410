//! The commands that read.

use crate::memory::{Blank, Memory, Named};
use crate::playing::{code_in_memory, play_in_memory, verify_in_memory};
use crate::testing::{Answered, Want, check};
use ls_console::{COLUMNS, Console, Host, Program};
use ls_files::{Makes, Opens};
use ls_film::Part;
use ls_frame::{Counted, Outlet};
use ls_reading::{
    check_each, check_recording, code, index, index_beside, list, show, show_into, verify_files,
    verify_pairs,
};
use ls_testing::films::{
    ANNEX_H, BLACK, FILM, FILM_CODESTREAMS, FILM_LINES, TWO_CODESTREAMS, TWO_IMAGES,
};
use std::io::Write;
use std::process::Abort;
use std::rt::Files;
use std::thread::Threads;

/// A command that reads, and what it is asked for.
#[derive(Clone, Copy)]
enum Command<'a> {
    List(&'a str),
    Code(&'a str),
    Play(&'a str, Option<Part>, u8),
    /// With sums or without.
    Index(&'a str, bool),
    Check(&'a str, Option<&'a str>, u8),
    /// By the index beside each or without.
    CheckEach(&'a [&'a str], bool, u8),
    Verify(&'a str, &'a str, u8),
    VerifyPairs(&'a [Pair<'a>], u8),
}

/// A film and its recording.
type Pair<'a> = (&'a str, &'a str);

/// A command that makes files, and what it is asked for.
#[derive(Clone, Copy)]
enum Making<'a> {
    /// With sums.
    IndexBeside(&'a [&'a str]),
    /// Into the folder `out`.
    PlayInto(&'a [&'a str]),
}

/// The lines of `jlsrec index` for the codestreams of `FILM`, with sums and without. The sums are those of `sha256sum`.
const FILM_INDEX: &[u8] =
    b"0 0 57 gray 4 4 255 8 3 7 21 64 06ff7ac46b7ec27f62f4bf3271ed59f7c900bf60e4b7b0a67a5cf586d7adb829\n\
1 57 43 gray 1 1 1 2 1 1 1 64 c46740c0d93901da94f104f3cbcc31f60c5a1eebcbe9f2c8e467bc451d9e4fa9\n\
2 100 29 gray 1 1 65535 16 18 67 276 64 94b1fb3f67dd7a9a0b5561c90b2c840450fd0e7f167d87c4e1eb3207fb5c2ab8\n";

const FILM_PLACES: &[u8] = b"0 0 57 gray 4 4 255 8 3 7 21 64\n\
1 57 43 gray 1 1 1 2 1 1 1 64\n\
2 100 29 gray 1 1 65535 16 18 67 276 64\n";

/// The same for `TWO_CODESTREAMS`, with sums.
const TWO_INDEX: &[u8] =
    b"0 0 28 gray 1 1 255 8 3 7 21 64 14c5eaab40e8fcaf165a37d64d027b1357eb15846597672e4e87ef4c04547aa1\n\
1 28 28 gray 1 1 255 8 3 7 21 64 0efbec04d1400b04eceb24a245c12e080c3916e4fa2379af048299d12b0a0953\n";

/// The codestreams of `TWO_CODESTREAMS`, the second one first.
const SWAPPED: &[u8] = b"\xff\xd8\
\xff\xf7\x00\x0b\x08\x00\x01\x00\x01\x01\x01\x11\x00\
\xff\xda\x00\x08\x01\x01\x00\x00\x00\x00\x40\xff\xd9\
\xff\xd8\
\xff\xf7\x00\x0b\x08\x00\x01\x00\x01\x01\x01\x11\x00\
\xff\xda\x00\x08\x01\x01\x00\x00\x00\x00\x80\xff\xd9";

/// The second image of `FILM`.
const SECOND: Part = Part {
    first: 1,
    last: Some(1),
};

const SECOND_IMAGE: &[u8] = b"P5\n1 1\n1\n\x01";

/// The part of `FILM` from the third image on, and a part that it doesn't have.
const FROM_THIRD: Part = Part {
    first: 2,
    last: None,
};

const THIRD_IMAGE: &[u8] = b"P5\n1 1\n65535\n\xff\xff";

const FROM_FOURTH: Part = Part {
    first: 3,
    last: None,
};

/// The files: films, their recordings and the indexes of those; then others.
const FILES: &[Named<'static>] = &[
    ("film", FILM),
    ("film.jls", FILM_CODESTREAMS),
    ("film.index", FILM_INDEX),
    ("two", TWO_IMAGES),
    ("two.jls", TWO_CODESTREAMS),
    ("two.index", TWO_INDEX),
    ("two.jls.index", TWO_INDEX),
    ("annex.jls", ANNEX_H),
    ("swapped.jls", SWAPPED),
    ("black", BLACK),
    ("torn", b"P5\n1 1\n255\n"),
    ("torn.jls", b"\xff\xd8\xff\xf7\x00"),
    ("none", b""),
];

const NO_FILE: Want = (1, b"", b"jlsrec: nowhere: can't open\n");

const TORN: Want = (1, b"", b"jlsrec: torn: frame 0: truncated\n");

const TORN_RECORDING: Want = (1, b"", b"jlsrec: torn.jls: frame 0: truncated\n");

/// Each command, and what it answers.
const CASES: &[(Command<'static>, Want)] = &[
    (Command::List("film"), (0, FILM_LINES, b"")),
    (Command::List("none"), (0, b"", b"")),
    (Command::List("torn"), TORN),
    (Command::List("nowhere"), NO_FILE),
    (Command::Code("film"), (0, FILM_CODESTREAMS, b"")),
    (Command::Code("two"), (0, TWO_CODESTREAMS, b"")),
    (Command::Code("none"), (0, b"", b"")),
    (Command::Code("torn"), TORN),
    (Command::Code("nowhere"), NO_FILE),
    (Command::Play("film.jls", None, 1), (0, FILM, b"")),
    (Command::Play("film.jls", None, 2), (0, FILM, b"")),
    (Command::Play("none", None, 1), (0, b"", b"")),
    (Command::Play("torn.jls", None, 1), TORN_RECORDING),
    (Command::Play("torn.jls", None, 2), TORN_RECORDING),
    (Command::Play("nowhere", None, 1), NO_FILE),
    (
        Command::Play("film.jls", Some(SECOND), 1),
        (0, SECOND_IMAGE, b""),
    ),
    (
        Command::Play("film.jls", Some(FROM_THIRD), 1),
        (0, THIRD_IMAGE, b""),
    ),
    (
        Command::Play("film.jls", Some(FROM_FOURTH), 1),
        (1, b"", b"jlsrec: film.jls: only 3 frames\n"),
    ),
    (Command::Index("film.jls", true), (0, FILM_INDEX, b"")),
    (Command::Index("film.jls", false), (0, FILM_PLACES, b"")),
    (Command::Index("torn.jls", true), TORN_RECORDING),
    (
        Command::Check("film.jls", Some("film.index"), 1),
        (0, b"film.jls: 3 frames, 0 damaged\n", b""),
    ),
    (
        Command::Check("film.jls", Some("film.index"), 2),
        (0, b"film.jls: 3 frames, 0 damaged\n", b""),
    ),
    (
        Command::Check("swapped.jls", Some("two.index"), 1),
        (
            1,
            b"frame 0: changed: 28 bytes at 0\nframe 1: changed: 28 bytes at 28\nswapped.jls: 2 frames, 2 damaged\n",
            b"",
        ),
    ),
    (
        Command::Check("film.jls", Some("film"), 1),
        (1, b"", b"jlsrec: film: line 0: not of an index\n"),
    ),
    (
        Command::Check("film.jls", None, 1),
        (
            0,
            b"film.jls: 3 frames, 0 damaged\n",
            b"jlsrec: film.jls: only decoded: no index is named\n",
        ),
    ),
    (
        Command::CheckEach(&["film.jls", "nowhere", "swapped.jls"], false, 1),
        (
            1,
            b"film.jls: 3 frames, 0 damaged\nswapped.jls: 2 frames, 0 damaged\n",
            b"jlsrec: film.jls: only decoded: no index is named\n\
jlsrec: nowhere: can't open\n\
jlsrec: swapped.jls: only decoded: no index is named\n",
        ),
    ),
    (
        Command::CheckEach(&["film.jls", "two.jls"], true, 2),
        (
            1,
            b"two.jls: 2 frames, 0 damaged\n",
            b"jlsrec: film.jls.index: can't open\n",
        ),
    ),
    (
        Command::CheckEach(&["two.jls", "two.jls"], true, 1),
        (
            0,
            b"two.jls: 2 frames, 0 damaged\ntwo.jls: 2 frames, 0 damaged\n",
            b"",
        ),
    ),
    (Command::Verify("film", "film.jls", 1), (0, b"", b"")),
    (Command::Verify("film", "film.jls", 2), (0, b"", b"")),
    (
        Command::VerifyPairs(&[("film", "film.jls"), ("two", "two.jls")], 1),
        (0, b"film.jls: the same\ntwo.jls: the same\n", b""),
    ),
    (
        Command::VerifyPairs(&[("two", "swapped.jls"), ("film", "film.jls")], 2),
        (
            1,
            b"film.jls: the same\n",
            b"jlsrec: swapped.jls: frame 0 differs: samples\n",
        ),
    ),
    (
        Command::Verify("two", "swapped.jls", 1),
        (1, b"", b"jlsrec: swapped.jls: frame 0 differs: samples\n"),
    ),
    (
        Command::Verify("film", "annex.jls", 1),
        (1, b"", b"jlsrec: annex.jls: frame 1 is missing\n"),
    ),
    (
        Command::Verify("black", "two.jls", 2),
        (1, b"", b"jlsrec: two.jls: frame 1 is too many\n"),
    ),
];

/// Runs a command over files in memory.
fn run<R, O, W, E>(program: Program<'_, R, O, W, E>, command: Command<'_>) -> u8
where
    R: AllocGlobal + Files + Threads + Sync,
    O: Opens + Copy + Drop,
    W: Write,
    E: Outlet,
{
    match command {
        Command::List(film) => list(program, film),
        Command::Code(film) => code(program, film),
        Command::Play(file, part, workers) => show(program, file, part, workers),
        Command::Index(file, sums) => index(program, file, sums),
        Command::Check(file, index, workers) => {
            check_recording(program, file, index, workers, false, false)
        }
        Command::CheckEach(files, beside, workers) => {
            check_each(program, files, beside, workers, false, false)
        }
        Command::Verify(film, file, workers) => verify_files(program, film, file, workers, false),
        Command::VerifyPairs(pairs, workers) => verify_pairs(program, pairs, workers, false),
    }
}

/// Runs a command that makes files in memory.
fn run_making<R, O, W, E>(program: Program<'_, R, O, W, E>, making: Making<'_>) -> u8
where
    R: Host + Threads + Sync,
    O: Makes + Copy + Drop,
    W: Write,
    E: Outlet,
{
    match making {
        Making::IndexBeside(files) => index_beside(program, files, true),
        Making::PlayInto(files) => show_into(program, files, "out", None, 1),
    }
}

/// The answer of a command over files in memory.
fn answer<R, O>(rt: &R, opener: O, command: Command<'_>) -> Answered
where
    R: AllocGlobal + Files + Threads + Sync,
    O: Opens + Copy + Drop,
{
    let alloc = rt.alloc();
    let mut output = Counted::new(Vec::new(alloc));
    let mut errors = Counted::new(Vec::new(alloc));
    let mut console = Console::new(alloc, &mut errors, false, COLUMNS);
    let program = Program {
        rt,
        opener,
        output: &mut output,
        console: &mut console,
    };
    let status = run(program, command);
    drop(console);
    Answered {
        status,
        output: output.into_inner(),
        errors: errors.into_inner(),
    }
}

/// The answer of a command that makes files in memory.
fn answer_making<R, O>(rt: &R, opener: O, making: Making<'_>) -> Answered
where
    R: Host + Threads + Sync,
    O: Makes + Copy + Drop,
{
    let alloc = rt.alloc();
    let mut output = Counted::new(Vec::new(alloc));
    let mut errors = Counted::new(Vec::new(alloc));
    let mut console = Console::new(alloc, &mut errors, false, COLUMNS);
    let program = Program {
        rt,
        opener,
        output: &mut output,
        console: &mut console,
    };
    let status = run_making(program, making);
    drop(console);
    Answered {
        status,
        output: output.into_inner(),
        errors: errors.into_inner(),
    }
}

/// A file system in which no file can be made.
fn readable<'m>(files: &'m [Named<'m>]) -> Memory<'m, 'm> {
    Memory { files, blanks: &[] }
}

/// Checks each command over `FILES`.
fn check_commands<R: AllocGlobal + Files + Threads + Sync + Abort>(rt: &R) {
    for (command, want) in CASES {
        check(rt, &answer(rt, readable(FILES), *command), *want);
    }
}

/// Checks what playing, coding and comparing in memory return.
fn check_films<R: AllocGlobal + Files + Threads + Sync + Abort>(rt: &R) {
    let played = play_in_memory(rt, FILES, "film.jls", 1);
    check_bytes(rt, played.as_deref(), Some(FILM));
    check_bytes(
        rt,
        play_in_memory(rt, FILES, "torn.jls", 2).as_deref(),
        None,
    );
    let coded = code_in_memory(rt, FILES, "film");
    check_bytes(rt, coded.as_deref(), Some(FILM_CODESTREAMS));
    check_bytes(rt, code_in_memory(rt, FILES, "torn").as_deref(), None);
    let are_same = [
        verify_in_memory(rt, FILES, "film", "film.jls", 1),
        verify_in_memory(rt, FILES, "two", "two.jls", 2),
        verify_in_memory(rt, FILES, "film", "two.jls", 1),
    ];
    assert!(rt; are_same == [true, true, false]);
}

/// Checks a command that makes a file of one recording: what it answers, what it writes before the file has its name,
/// and whether the file has that name in the end.
fn check_made<R>(rt: &R, making: Making<'_>, path: &str, part: &str, want: Want, bytes: &[u8])
where
    R: Host + Threads + Sync + Abort,
{
    let (mut written, mut named) = (Vec::new(rt.alloc()), Vec::new(rt.alloc()));
    let blanks = [Blank::new(part, &mut written), Blank::new(path, &mut named)];
    let memory = Memory {
        files: FILES,
        blanks: &blanks,
    };
    check(rt, &answer_making(rt, memory, making), want);
    let stand = [memory.look(path).is_ok(), memory.look(part).is_ok()];
    drop(blanks);
    let (status, ..) = want;
    assert!(rt; stand == [status == 0, false]);
    check_bytes(rt, Some(&written), Some(bytes));
}

/// Checks the commands that make files.
fn check_making<R: Host + Threads + Sync + Abort>(rt: &R) {
    let index = Making::IndexBeside(&["film.jls"]);
    let (path, part) = ("film.jls.index", "film.jls.index.part");
    check_made(rt, index, path, part, (0, b"", b""), FILM_INDEX);
    let film = Making::PlayInto(&["film.jls"]);
    check_made(rt, film, "out/film", "out/film.part", (0, b"", b""), FILM);
    let torn = Making::PlayInto(&["torn.jls"]);
    check_made(rt, torn, "out/torn", "out/torn.part", TORN_RECORDING, b"");
    let there = Making::IndexBeside(&["two.jls"]);
    let want: Want = (1, b"", b"jlsrec: two.jls.index: already exists\n");
    check(rt, &answer_making(rt, readable(FILES), there), want);
    let twice = Making::PlayInto(&["two.jls", "a/two.jls"]);
    let want: Want = (2, b"", b"jlsrec: out/two: given twice\n");
    check(rt, &answer_making(rt, readable(FILES), twice), want);
}

/// Checks the bytes that a command wrote, if its status is `DONE`.
fn check_bytes(rt: &impl Abort, got: Option<&[u8]>, want: Option<&[u8]>) {
    assert_eq!(rt; got, want);
}

#[test]
fn commands_over_files_in_memory_with_ample_memory(rt: HostRuntime) {
    check_commands(&rt);
}

#[test]
fn films_in_memory_are_played_coded_and_compared_with_ample_memory(rt: HostRuntime) {
    check_films(&rt);
}

#[test]
fn indexes_and_films_are_made_in_memory_with_ample_memory(rt: HostRuntime) {
    check_making(&rt);
}
