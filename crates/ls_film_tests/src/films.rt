//! What the engines write of films, valid and invalid, and what they do when a read or a write fails.
use crate::testing::{Ending, Outcome, check, check_ending, ending};
use ls_film::{FilmFault, code_bytes, code_film, code_film_by, list_bytes, list_film};
use ls_frame::{Counted, Feed, NetpbmFault};
use ls_testing::films::{
    FILM, FILM_CODESTREAMS, FILM_LINES, FIRST_CODESTREAM, FIRST_LINE, TWO_CODESTREAMS, TWO_IMAGES,
    endless_header,
};
use ls_testing::{Memory, Mishap, Pieces, Sink};
use std::alloc::Global;
use std::process::Abort;
use std::thread::Threads;

/// An engine, which writes a chunk for each frame of a film: a line, or a codestream, also by several threads.
#[derive(Clone, Copy)]
enum Engine {
    List,
    Code,
    CodeBy,
}

/// Runs an engine on a film in memory.
fn run_on_bytes(
    rt: &impl Threads,
    engine: Engine,
    alloc: Global,
    film: &[u8],
    writer: Sink,
) -> Ending<FilmFault> {
    let mut rest = film;
    let mut writer = Counted::new(writer);
    let result = match engine {
        Engine::List => list_film(alloc, &mut rest, &mut writer),
        Engine::Code => code_film(alloc, &mut rest, &mut writer),
        Engine::CodeBy => code_film_by(rt, alloc, &mut rest, &mut writer),
    };
    ending(result, 0, writer)
}

/// Runs an engine on a film that is read in chunks.
fn run_on_chunks(
    rt: &impl Threads,
    engine: Engine,
    alloc: Global,
    reader: Pieces<'_>,
    writer: Sink,
) -> Ending<FilmFault> {
    let mut reader = Counted::new(reader);
    let mut writer = Counted::new(writer);
    let result = match engine {
        Engine::List => list_film(alloc, &mut reader, &mut writer),
        Engine::Code => code_film(alloc, &mut reader, &mut writer),
        Engine::CodeBy => code_film_by(rt, alloc, &mut reader, &mut writer),
    };
    ending(result, Feed::failures(&reader), writer)
}

/// The bytes in which each of an engine's chunks ends, and which occur nowhere else in one.
fn mark_of(engine: Engine) -> &'static [u8] {
    match engine {
        Engine::List => b"\n",
        Engine::Code | Engine::CodeBy => b"\xff\xd9",
    }
}

/// Checks the outcome of an engine. If memory may be refused, it may instead have reported that, with no failed read or
/// write, after writing the first chunks of the text.
fn check_ended(
    rt: &impl Abort,
    memory: Memory,
    engine: Engine,
    case: &str,
    got: &Ending<FilmFault>,
    want: &Outcome<'_, FilmFault>,
) {
    let (_, text, _, _) = *want;
    if matches!(
        (memory, got.0),
        (Memory::Refusable, Err(FilmFault::NoMemory))
    ) {
        let written = got.1.written();
        check_first_chunks(rt, case, mark_of(engine), written, text);
        check_ending(rt, case, got, &(Err(FilmFault::NoMemory), written, 0, 0));
    } else {
        check_ending(rt, case, got, want);
    }
}

/// Checks that these are the first chunks of a text, each of which ends in `mark`.
fn check_first_chunks(rt: &impl Abort, case: &str, mark: &[u8], written: &[u8], text: &[u8]) {
    assert!(rt; text.starts_with(written), "{case}: another text");
    let whole = written.is_empty() || written.ends_with(mark);
    assert!(rt; whole, "{case}: a part of a chunk");
}

/// What the two engines write: lines, and codestreams.
type Texts<'a> = [&'a [u8]; 2];

/// A film: its name, its bytes, the engines' result, and what they write.
type Film<'a> = (&'a str, &'a [u8], Result<u64, FilmFault>, Texts<'a>);

/// Checks an engine on a film in memory, and on one that is read in chunks of three bytes and written to a writer that
/// takes two.
fn check_film(
    rt: &(impl Threads + Abort),
    alloc: Global,
    memory: Memory,
    engine: Engine,
    film: &Film<'_>,
    text: &[u8],
) {
    let (case, bytes, result, _) = *film;
    let want = (result, text, 0, 0);
    let got = run_on_bytes(rt, engine, alloc, bytes, Sink::new(4096, Mishap::Nothing));
    check_ended(rt, memory, engine, case, &got, &want);
    let reader = Pieces::new(bytes, 3, None);
    let got = run_on_chunks(rt, engine, alloc, reader, Sink::new(2, Mishap::Nothing));
    check_ended(rt, memory, engine, case, &got, &want);
}

/// Checks each engine on a film.
fn check_each(rt: &(impl Threads + Abort), alloc: Global, memory: Memory, film: &Film<'_>) {
    let (_, _, _, [lines, codestreams]) = *film;
    check_film(rt, alloc, memory, Engine::List, film, lines);
    check_film(rt, alloc, memory, Engine::Code, film, codestreams);
    check_film(rt, alloc, memory, Engine::CodeBy, film, codestreams);
}

fn check_films(rt: &(impl Threads + Abort), alloc: Global, memory: Memory, films: &[Film<'_>]) {
    for film in films {
        check_each(rt, alloc, memory, film);
    }
}

/// The lines of `TWO_IMAGES`.
const TWO_LINES: &[u8] = b"0 gray 1 1 255 8 3 7 21 64 32\n1 gray 1 1 255 8 3 7 21 64 32\n";

const WHOLE_FILMS: &[Film<'static>] = &[
    ("three images", FILM, Ok(3), [FILM_LINES, FILM_CODESTREAMS]),
    (
        "two images",
        TWO_IMAGES,
        Ok(2),
        [TWO_LINES, TWO_CODESTREAMS],
    ),
    (
        "a colour image",
        b"P6 1 1 255\n\x00\x00\x00",
        Ok(1),
        [
            b"0 color 1 1 255 8 3 7 21 64 32\n",
            b"\xff\xd8\
\xff\xf7\x00\x11\x08\x00\x01\x00\x01\x03\x01\x11\x00\x02\x11\x00\x03\x11\x00\
\xff\xda\x00\x08\x01\x01\x00\x00\x00\x00\x80\
\xff\xda\x00\x08\x01\x02\x00\x00\x00\x00\x80\
\xff\xda\x00\x08\x01\x03\x00\x00\x00\x00\x80\xff\xd9",
        ],
    ),
    ("no image", b"", Ok(0), NO_CHUNKS),
];

#[test]
fn each_frame_has_its_chunk_with_ample_memory(rt: HostRuntime) {
    check_films(&rt, rt.alloc(), Memory::Ample, WHOLE_FILMS);
}

#[test]
fn each_frame_has_its_chunk_or_memory_is_refused(rt: HostRuntime) {
    check_films(&rt, rt.alloc(), Memory::Refusable, WHOLE_FILMS);
}

/// Checks what the calls for films in memory return and write.
fn check_bytes_of(rt: &impl Abort, alloc: Global, film: &Film<'_>) {
    let (case, bytes, result, [lines, codestreams]) = *film;
    let (written, ended) = list_bytes(alloc, bytes);
    check(rt, case, &(ended, written.as_slice()), &(result, lines));
    let (written, ended) = code_bytes(alloc, bytes);
    check(
        rt,
        case,
        &(ended, written.as_slice()),
        &(result, codestreams),
    );
}

#[test]
fn a_film_in_memory_has_its_chunks_with_ample_memory(rt: HostRuntime) {
    for film in WHOLE_FILMS {
        check_bytes_of(&rt, rt.alloc(), film);
    }
}

/// What is written of the first image of `TWO_IMAGES`.
const FIRST_CHUNKS: Texts<'static> = [FIRST_LINE, FIRST_CODESTREAM];

const NO_CHUNKS: Texts<'static> = [b"", b""];

/// Invalid films: at which frame, why, and what is written before.
const BAD_FILMS: &[Film<'static>] = &[
    (
        "another magic number",
        b"P4 1 1\n",
        Err(FilmFault::Input(0, NetpbmFault::BadMagic)),
        NO_CHUNKS,
    ),
    (
        "a header without an end",
        b"P5 1 1 255#",
        Err(FilmFault::Input(0, NetpbmFault::BadHeader)),
        NO_CHUNKS,
    ),
    (
        "no width",
        b"P5 0 1 255\n",
        Err(FilmFault::Input(0, NetpbmFault::SizeOutOfRange)),
        NO_CHUNKS,
    ),
    (
        "no maxval",
        b"P5 1 1 0\n",
        Err(FilmFault::Input(0, NetpbmFault::MaxvalOutOfRange)),
        NO_CHUNKS,
    ),
    (
        "a sample over maxval",
        b"P5 1 1 7\n\x08",
        Err(FilmFault::Input(0, NetpbmFault::SampleTooLarge)),
        NO_CHUNKS,
    ),
    (
        "a sample that is missing",
        b"P5 2 1 255\n\x00",
        Err(FilmFault::Input(0, NetpbmFault::Truncated)),
        NO_CHUNKS,
    ),
    (
        "a sample over maxval in the second image",
        b"P5 1 1 255\n\x00P5 1 1 7\n\x08",
        Err(FilmFault::Input(1, NetpbmFault::SampleTooLarge)),
        FIRST_CHUNKS,
    ),
    (
        "a sample that is missing in the second image",
        b"P5 1 1 255\n\x00P5 2 1 255\n\x00",
        Err(FilmFault::Input(1, NetpbmFault::Truncated)),
        FIRST_CHUNKS,
    ),
];

fn check_long_header(rt: &(impl Threads + Abort), alloc: Global, memory: Memory) {
    let film = endless_header();
    let ended = Err(FilmFault::Input(0, NetpbmFault::HeaderTooLong));
    check_each(
        rt,
        alloc,
        memory,
        &("a long header", &film, ended, NO_CHUNKS),
    );
}

#[test]
fn a_bad_frame_is_named_after_the_chunks_before_it_with_ample_memory(rt: HostRuntime) {
    check_films(&rt, rt.alloc(), Memory::Ample, BAD_FILMS);
    check_long_header(&rt, rt.alloc(), Memory::Ample);
}

#[test]
fn a_bad_frame_is_named_after_the_chunks_before_it_or_memory_is_refused(rt: HostRuntime) {
    check_films(&rt, rt.alloc(), Memory::Refusable, BAD_FILMS);
    check_long_header(&rt, rt.alloc(), Memory::Refusable);
}

/// Checks that a write that goes wrong after `i` bytes of the two images' text ends the engine.
fn check_failed_write(
    rt: &(impl Threads + Abort),
    alloc: Global,
    memory: Memory,
    engine: Engine,
    text: &[u8],
    i: usize,
    mishap: Mishap,
) {
    let got = run_on_bytes(rt, engine, alloc, TWO_IMAGES, Sink::new(1, mishap));
    let before = text.get(..i).unwrap_or(text);
    let want = (Err(FilmFault::Output(i as u64)), before, 0, 1);
    check_ended(rt, memory, engine, "a failed write", &got, &want);
}

/// Checks this after each number of bytes.
fn check_writes_of(
    rt: &(impl Threads + Abort),
    alloc: Global,
    memory: Memory,
    engine: Engine,
    text: &[u8],
) {
    for i in 0..text.len() {
        check_failed_write(rt, alloc, memory, engine, text, i, Mishap::Fails(i));
        check_failed_write(rt, alloc, memory, engine, text, i, Mishap::TakesNothing(i));
    }
}

fn check_failed_writes(rt: &(impl Threads + Abort), alloc: Global, memory: Memory) {
    check_writes_of(rt, alloc, memory, Engine::List, TWO_LINES);
    check_writes_of(rt, alloc, memory, Engine::Code, TWO_CODESTREAMS);
    check_writes_of(rt, alloc, memory, Engine::CodeBy, TWO_CODESTREAMS);
}

#[test]
fn a_failed_write_ends_the_film_with_ample_memory(rt: HostRuntime) {
    check_failed_writes(&rt, rt.alloc(), Memory::Ample);
}

#[test]
fn a_failed_write_ends_the_film_or_memory_is_refused(rt: HostRuntime) {
    check_failed_writes(&rt, rt.alloc(), Memory::Refusable);
}

/// Checks that a read that fails at byte `i` of the two images ends the engine.
fn check_failed_read(
    rt: &(impl Threads + Abort),
    alloc: Global,
    memory: Memory,
    engine: Engine,
    first: &[u8],
    i: usize,
) {
    let reader = Pieces::new(TWO_IMAGES, 1, Some(i));
    let got = run_on_chunks(rt, engine, alloc, reader, Sink::new(4096, Mishap::Nothing));
    let (frame, before) = if i < 12 {
        (0, b"".as_slice())
    } else {
        (1, first)
    };
    let want = (Err(FilmFault::Input(frame, NetpbmFault::Io)), before, 1, 0);
    check_ended(rt, memory, engine, "a failed read", &got, &want);
}

fn check_failed_reads(rt: &(impl Threads + Abort), alloc: Global, memory: Memory) {
    for i in 0..TWO_IMAGES.len() {
        check_failed_read(rt, alloc, memory, Engine::List, FIRST_LINE, i);
        check_failed_read(rt, alloc, memory, Engine::Code, FIRST_CODESTREAM, i);
        check_failed_read(rt, alloc, memory, Engine::CodeBy, FIRST_CODESTREAM, i);
    }
}

#[test]
fn a_failed_read_ends_the_film_with_ample_memory(rt: HostRuntime) {
    check_failed_reads(&rt, rt.alloc(), Memory::Ample);
}

#[test]
fn a_failed_read_ends_the_film_or_memory_is_refused(rt: HostRuntime) {
    check_failed_reads(&rt, rt.alloc(), Memory::Refusable);
}
