//! What the contracts of `play`, `code` and `verify` say of files in memory.
ghost use Rattle.std.specs.Prelude.{◌≡◌, true, [], Some, IfSome};
ghost use Rattle.ls_frame.specs.Netpbm.{IsImageOf};
ghost use Rattle.ls_stream.specs.Grammar.{Spells};
ghost use Rattle.ls_film.specs.Coding.{default_file};
ghost use Rattle.ls_film.specs.Showing.{show as film_images};
ghost use Rattle.ls_reading.specs.View.Commands.{WritesTextOf, HaveSameFrames};
ghost use Rattle.ls_program_tests.specs.View.Played.{IsPlayedFrom, IsCodedFrom, HaveOneFilm};

use crate::memory::{Memory, Named};
use ls_console::{COLUMNS, Console, DONE, Program};
use ls_files::Opens;
use ls_frame::Counted;
use ls_reading::{code, show, verify_files};
use std::rt::Files;
use std::thread::Threads;

/// Plays the recording at `path` with this number of workers, and returns what was written to standard output, if the
/// status is `DONE`: the images of the frames whose codestreams the file is.
pub fn play_in_memory<R>(rt: &R, files: &[Named<'_>], path: &str, workers: u8) -> Option<Vec<u8>>
where
    R: AllocGlobal + Threads + Sync,
    ensures { IfSome result (λ images. IsPlayedFrom files.now path.now images.items) }
{
    play(rt, Memory { files, blanks: &[] }, path, workers)
}

/// Codes the film at `path`, and returns what was written to standard output, if the status is `DONE`: the codestreams of
/// the frames whose images the file is.
pub fn code_in_memory<R>(rt: &R, files: &[Named<'_>], path: &str) -> Option<Vec<u8>>
where
    R: AllocGlobal + Threads,
    ensures { IfSome result (λ codestreams. IsCodedFrom files.now path.now codestreams.items) }
{
    code_film(rt, Memory { files, blanks: &[] }, path)
}

/// Compares the recording at one path, decoded by this number of workers, with the film at another. If the status is
/// `DONE`, they are of the same frames.
pub fn verify_in_memory<R>(
    rt: &R,
    files: &[Named<'_>],
    film: &str,
    recording: &str,
    workers: u8,
) -> bool
where
    R: AllocGlobal + Files + Threads + Sync,
    ensures { result ≡ true → HaveOneFilm files.now film.now recording.now }
{
    verify(rt, Memory { files, blanks: &[] }, film, recording, workers)
}

/// Plays a recording, over any files.
fn play<R, O>(rt: &R, opener: O, path: &str, workers: u8) -> Option<Vec<u8>>
where
    R: AllocGlobal + Threads + Sync,
    O: Opens + Copy + Drop,
    ensures { IfSome result (λ images. WritesTextOf O.holds opener path.now (Some []) (Some images.items) Spells film_images) }
{
    let alloc = rt.alloc();
    let mut output = Counted::new(Vec::new(alloc));
    let mut console = Console::new(alloc, Counted::new(Vec::new(alloc)), false, COLUMNS);
    let program = Program {
        rt,
        opener,
        output: &mut output,
        console: &mut console,
    };
    let status = show(program, path, None, workers);
    if status == DONE {
        Some(output.into_inner())
    } else {
        None
    }
}

/// Codes a film, over any files.
fn code_film<R, O>(rt: &R, opener: O, path: &str) -> Option<Vec<u8>>
where
    R: AllocGlobal + Threads,
    O: Opens + Copy + Drop,
    ensures { IfSome result (λ codestreams. WritesTextOf O.holds opener path.now (Some []) (Some codestreams.items) IsImageOf default_file) }
{
    let alloc = rt.alloc();
    let mut output = Counted::new(Vec::new(alloc));
    let mut console = Console::new(alloc, Counted::new(Vec::new(alloc)), false, COLUMNS);
    let program = Program {
        rt,
        opener,
        output: &mut output,
        console: &mut console,
    };
    let status = code(program, path);
    if status == DONE {
        Some(output.into_inner())
    } else {
        None
    }
}

/// Compares a recording with a film, over any files. Whether the status is `DONE`.
fn verify<R, O>(rt: &R, opener: O, film: &str, recording: &str, workers: u8) -> bool
where
    R: AllocGlobal + Files + Threads + Sync,
    O: Opens + Copy + Drop,
    ensures { result ≡ true → HaveSameFrames O.holds opener film.now recording.now }
{
    let alloc = rt.alloc();
    let mut output = Counted::new(Vec::new(alloc));
    let mut console = Console::new(alloc, Counted::new(Vec::new(alloc)), false, COLUMNS);
    let program = Program {
        rt,
        opener,
        output: &mut output,
        console: &mut console,
    };
    verify_files(program, film, recording, workers, false) == DONE
}
