//! The whole program over its words, its files and its two streams.
use crate::words::{fault_of_words, words};
use ls_command::{Answer, Frames, Request, misuse, read_words};
use ls_console::{
    Console, Escaped, Host, Program, USAGE, finish, is_shown_plain, no_memory, write_text,
};
use ls_files::{Locks, Makes};
use ls_film::Part;
use ls_frame::{Counted, Outlet, keep_blocks};
use ls_reading::{
    check_each, check_part, check_recording, code, code_with_index, index, index_beside,
    index_json, list, list_json, replay_file, show, show_into, show_listed, show_whole,
    verify_files_part, verify_pairs,
};
use ls_recording::record_films;
use std::alloc::{AllocError, Global};
use std::io;
use std::io::Write;
use std::rt::Env;
use std::sync::Wait;
use std::thread::Threads;
use std::time::Clock;

/// Reads the words, runs the program and flushes its output.
///
/// The opener opens the files of the same runtime; lanes open pipes with it, in their threads.
pub fn start<R, O, W, E>(rt: &R, opener: O, output: &mut Counted<W>, console: &mut Console<E>) -> u8
where
    R: Env + Host + Clock + Threads + Wait + Sync + Clone + Drop,
    O: Makes<File = R::File> + Copy + Send,
    R::File: Send + Locks,
    O::Finished: Send,
    W: Write + Send,
    E: Outlet + Send,
{
    let status = match words(rt) {
        Ok(words) => {
            let program = Program {
                rt,
                opener,
                output: &mut *output,
                console: &mut *console,
            };
            run(program, &words)
        }
        Err(fault) if fault.kind() == io::ErrorKind::OutOfMemory => no_memory(console),
        Err(_) => match fault_of_words(rt) {
            Ok(fault) => answer(misuse(rt.alloc(), &fault), output, console),
            Err(AllocError) => no_memory(console),
        },
    };
    finish(status, output, console)
}

/// Runs the program over the words after its name: writes to its output what goes to standard output, says on the
/// console what goes to standard error, and returns the status.
///
/// `code` writes each codestream to the output itself, and `play` each image, so nothing is held back. `list`, `index`,
/// `check` and `replay` write through a buffer, which is flushed at the end.
fn run<R, O, W, E>(program: Program<'_, R, O, W, E>, words: &[String]) -> u8
where
    R: Host + Clock + Threads + Wait + Sync + Clone + Drop,
    O: Makes<File = R::File> + Copy + Send,
    R::File: Send + Locks,
    O::Finished: Send,
    W: Write + Send,
    E: Outlet + Send,
{
    let alloc = program.rt.alloc();
    keep_blocks(alloc);
    match read_words(alloc, words) {
        Ok((request, reasons)) => {
            program.console.tell_reasons(reasons);
            match request {
                Request::List { file, json: false } => list(program, file),
                Request::List { file, json: true } => list_json(program, file),
                Request::Code { file, index } => match index {
                    Some(index) => code_with_index(program, file, index),
                    None => code(program, file),
                },
                Request::Play {
                    file,
                    frames,
                    workers,
                } => show(program, file, frames.map(part_of), workers),
                Request::Listed {
                    file,
                    index,
                    frames,
                } => show_listed(program, file, index, part_of(frames)),
                Request::PlayInto {
                    files,
                    into,
                    frames,
                    workers,
                } => show_into(program, &files, into, frames.map(part_of), workers),
                Request::Salvage { file, index } => show_whole(program, file, index),
                Request::Index {
                    file,
                    sums,
                    json: false,
                } => index(program, file, sums),
                Request::Index {
                    file,
                    sums,
                    json: true,
                } => index_json(program, file, sums),
                Request::IndexBeside { files, sums } => index_beside(program, &files, sums),
                Request::Check {
                    file,
                    index,
                    workers,
                    strict,
                    json,
                } => check_recording(program, file, index, workers, strict, json),
                Request::CheckPart {
                    file,
                    index,
                    frames,
                    workers,
                    json,
                } => check_part(program, file, index, part_of(frames), workers, json),
                Request::CheckEach {
                    files,
                    beside,
                    workers,
                    strict,
                    json,
                } => check_each(program, &files, beside, workers, strict, json),
                Request::Verify {
                    pairs,
                    workers,
                    strict,
                } => verify_pairs(program, &pairs, workers, strict),
                Request::VerifyPart { film, file, frames } => {
                    verify_files_part(program, film, file, part_of(frames))
                }
                Request::Record(asked) => record_films(program, asked),
                Request::Replay {
                    sources,
                    capacity,
                    file,
                } => replay_file(program, sources, capacity, file),
            }
        }
        Err(other) => {
            let Program {
                output,
                console,
                ..
            } = program;
            answer(printable(alloc, words, other), output, console)
        }
    }
}

/// The answer in place of a request, with its words made printable.
fn printable(alloc: Global, words: &[String], other: Answer) -> Answer {
    if words.iter().all(|word| is_shown_plain(word)) {
        return other;
    }
    match escaped(alloc, words) {
        Ok(escaped) => match read_words(alloc, &escaped) {
            Err(shown) => shown,
            Ok(_) => other,
        },
        Err(AllocError) => Answer::NoMemory,
    }
}

/// The words, each escaped if it isn't printable.
fn escaped(alloc: Global, words: &[String]) -> Result<Vec<String>, AllocError> {
    let mut escaped = Vec::new(alloc);
    for word in words {
        escaped.push(shown_word(alloc, word)?)?;
    }
    Ok(escaped)
}

/// A word as it is, if it is printable, and else escaped.
fn shown_word(alloc: Global, word: &str) -> Result<String, AllocError> {
    if is_shown_plain(word) {
        word.to_string(alloc)
    } else {
        Escaped(word).to_string(alloc)
    }
}

/// The part of a recording that has these frames.
fn part_of(frames: Frames) -> Part {
    Part {
        first: u64::from(frames.first),
        last: frames.last.map(u64::from),
    }
}

/// Shows the answer in place of a request, and returns the status.
fn answer<W: Write, E: Outlet>(
    other: Answer,
    output: &mut Counted<W>,
    console: &mut Console<E>,
) -> u8 {
    match other {
        Answer::Shown(text) => write_text(text.as_bytes(), output, console),
        Answer::Misused(text) => {
            console.write(text.as_bytes());
            USAGE
        }
        Answer::NoMemory => no_memory(console),
    }
}
