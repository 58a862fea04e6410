//! The commands `check` and `verify` over several files, one after the other.
ghost use Rattle.std.specs.Prelude.{◌≡◌, ◌⊎◌, All, IfOk, ◌++◌, codes, string_bytes};
ghost use Rattle.ls_reading.specs.View.Each.{IsSound, IsOfFilm};
ghost use Rattle.ls_reading.specs.View.Statuses.{DoneOrFailed};

use crate::archive::{Checks, check_lined};
use crate::comparing::verify_files;
use crate::report::form_of;
use ls_console::{
    Console, DONE, FAILED, Lines, Program, Shown, line_buffer, no_memory, say_unwritten, write_text,
};
use ls_files::{INDEX, Opens};
use ls_frame::{Counted, Failed, Outlet};
use std::alloc::{AllocError, Global};
use std::io::Write;
use std::rt::Files;
use std::thread::Threads;

/// Looks for damage in each of these recordings: by the index beside it if `beside`, and then with this number of
/// workers that decode; else by itself. Writes a line for each finding, which begins with the recording's name if there
/// are several; with `json` an object of JSON. With `strict` also looks whether the codestreams of those that aren't
/// damaged are strict.
///
/// A recording that is damaged or can't be read keeps none of the others from being checked; but once standard output
/// has failed, no more are.
pub fn check_each<R, O, W, E>(
    program: Program<'_, R, O, W, E>,
    files: &[&str],
    beside: bool,
    workers: u8,
    strict: bool,
    json: bool,
) -> u8
where
    R: AllocGlobal + Files + Threads + Sync,
    O: Opens + Copy + Drop,
    W: Write,
    E: Outlet,
    ensures status { DoneOrFailed result }
    ensures each { result ≡ DONE → All (λ file. IsSound O.holds program.entry.opener beside strict file.now) files.now }
{
    let Program {
        rt,
        opener,
        output,
        console,
    } = program;
    let Ok(buffer) = line_buffer(rt.alloc()) else {
        return no_memory(console);
    };
    let mut lines = Counted::new(Lines::new(&mut *output, buffer));
    let asked = Checks {
        workers,
        strict,
        form: form_of(json, files.len() > 1),
    };
    let mut status = DONE;
    for file in files {
        let lined = Program {
            rt,
            opener,
            output: &mut lines,
            console: &mut *console,
        };
        status = worse(status, check_one(lined, file, beside, asked));
        if !pass_on(&mut lines, console) {
            return FAILED;
        }
    }
    status
}

/// Looks for damage in one of several recordings.
fn check_one<R, O, L, E>(
    program: Program<'_, R, O, L, E>,
    file: &str,
    beside: bool,
    asked: Checks,
) -> u8
where
    R: AllocGlobal + Files + Threads + Sync,
    O: Opens + Copy + Drop,
    L: Write,
    E: Outlet,
    ensures status { DoneOrFailed result }
    ensures sound { result ≡ DONE → IsSound O.holds program.entry.opener beside asked.strict file.now }
{
    if !beside {
        return check_lined(program, file, None, asked);
    }
    match index_name(program.rt.alloc(), file) {
        Ok(index) => check_lined(program, file, Some(index.as_str()), asked),
        Err(AllocError) => no_memory(program.console),
    }
}

/// The name of the index beside a recording.
pub fn index_name(alloc: Global, file: &str) -> Result<String, AllocError>
    ensures { IfOk result (λ name. string_bytes name ≡ file.now ++ codes ".index") }
{
    format!(in alloc; "{file}{INDEX}")
}

/// Passes on lines to their output. If that fails, or a write before has failed, says so and returns `false`.
fn pass_on<W: Write, E: Outlet>(lines: &mut Counted<Lines<W>>, console: &mut Console<E>) -> bool {
    if Outlet::failures(lines) > 0 {
        say_unwritten(lines.last_failure(), console);
        return false;
    }
    match lines.flush() {
        Ok(()) => true,
        Err(fault) => {
            say_unwritten(Some(Failed::from(fault)), console);
            false
        }
    }
}

/// The worse of two statuses, which is the greater one.
pub fn worse(status: u8, other: u8) -> u8
    ensures done { result ≡ DONE → (status ≡ DONE) × (other ≡ DONE) }
    ensures either { (result ≡ status) ⊎ (result ≡ other) }
{
    if status < other { other } else { status }
}

/// Compares each of these films with the recording beside it in the pair, decoded by this number of workers, and says
/// where they differ. With `strict` also looks whether the codestreams of those that don't are strict. If there are
/// several pairs, a line on standard output reports each that is in order.
///
/// A pair that isn't keeps none of the others from being compared; but once standard output has failed, no more are.
pub fn verify_pairs<R, O, W, E>(
    program: Program<'_, R, O, W, E>,
    pairs: &[(&str, &str)],
    workers: u8,
    strict: bool,
) -> u8
where
    R: AllocGlobal + Files + Threads + Sync,
    O: Opens + Copy + Drop,
    W: Write,
    E: Outlet,
    ensures status { DoneOrFailed result }
    ensures each { result ≡ DONE → All (λ pair. IsOfFilm O.holds program.entry.opener strict pair.0.now pair.1.now) pairs.now }
{
    let Program {
        rt,
        opener,
        output,
        console,
    } = program;
    let mut status = DONE;
    for pair in pairs {
        let (film, recording) = *pair;
        let own = Program {
            rt,
            opener,
            output: &mut *output,
            console: &mut *console,
        };
        let own = verify_one(own, film, recording, workers, strict, pairs.len() > 1);
        status = worse(status, own);
        if Outlet::failures(output) > 0 {
            return FAILED;
        }
    }
    status
}

/// Compares a film with its recording, and says it on standard output if they are in order and `is_named`.
fn verify_one<R, O, W, E>(
    program: Program<'_, R, O, W, E>,
    film: &str,
    recording: &str,
    workers: u8,
    strict: bool,
    is_named: bool,
) -> u8
where
    R: AllocGlobal + Files + Threads + Sync,
    O: Opens + Copy + Drop,
    W: Write,
    E: Outlet,
    ensures status { DoneOrFailed result }
    ensures of_film { result ≡ DONE → IsOfFilm O.holds program.entry.opener strict film.now recording.now }
{
    let Program {
        rt,
        opener,
        output,
        console,
    } = program;
    let own = Program {
        rt,
        opener,
        output: &mut *output,
        console: &mut *console,
    };
    let status = verify_files(own, film, recording, workers, strict);
    if status != DONE || !is_named {
        return status;
    }
    say_same(rt.alloc(), recording, output, console)
}

/// Says that a recording has the frames of its film, and returns the status.
fn say_same<W, E>(
    alloc: Global,
    recording: &str,
    output: &mut Counted<W>,
    console: &mut Console<E>,
) -> u8
where
    W: Write,
    E: Outlet,
    ensures { DoneOrFailed result }
{
    let shown = Shown(recording);
    match format!(in alloc; "{shown}: the same\n") {
        Ok(line) => write_text(line.as_bytes(), output, console),
        Err(AllocError) => no_memory(console),
    }
}
