//! The command `verify`: a recording is compared with its film.
ghost use Rattle.std.specs.Prelude.{◌≡◌, true, IfOk, IfErr};
ghost use Rattle.ls_archive.specs.View.Comparing.{FindsAhead};
ghost use Rattle.ls_archive.specs.View.Verifying.{Stops as StopsComparison};
ghost use Rattle.ls_reading.specs.View.Commands.{HasStrictCodestreams, HaveSameFrames};
ghost use Rattle.ls_reading.specs.View.Statuses.{DoneOrFailed, verdict_status};

use crate::archive::is_read_twice;
use crate::cause::conclude;
use crate::strict::look_strict;
use ls_archive::{Difference, Verdict, VerifyFault, verify, verify_by};
use ls_console::{Console, DONE, FAILED, Program, Shown, open_film};
use ls_files::Opens;
use ls_frame::{Feed, Kind, Outlet};
use std::alloc::Global;
use std::io::Write;
use std::rt::Files;
use std::thread::Threads;

/// Compares a recording, decoded by this number of workers, with its film, and says where they differ. With `strict`
/// also looks, if they don't, whether each codestream is strict.
pub fn verify_files<R, O, W, E>(
    program: Program<'_, R, O, W, E>,
    film: &str,
    recording: &str,
    workers: u8,
    strict: bool,
) -> u8
where
    R: AllocGlobal + Files + Threads + Sync,
    O: Opens + Copy + Drop,
    W: Write,
    E: Outlet,
    ensures status { DoneOrFailed result }
    ensures same { result ≡ DONE → HaveSameFrames O.holds program.entry.opener film.now recording.now }
    ensures strict { result ≡ DONE → strict ≡ true → HasStrictCodestreams O.holds program.entry.opener recording.now }
{
    let Program {
        rt,
        opener,
        output,
        console,
    } = program;
    if strict && !is_read_twice(rt, recording, "--strict", console) {
        return FAILED;
    }
    let comparing = Program {
        rt,
        opener,
        output,
        console: &mut *console,
    };
    let status = compare_files(comparing, film, recording, workers);
    if strict && status == DONE {
        look_strict(rt.alloc(), opener, recording, console)
    } else {
        status
    }
}

/// Compares a recording, decoded by this number of workers, with its film, and says where they differ.
fn compare_files<R, O, W, E>(
    program: Program<'_, R, O, W, E>,
    film: &str,
    recording: &str,
    workers: u8,
) -> u8
where
    R: AllocGlobal + Threads + Sync,
    O: Opens + Copy + Drop,
    W: Write,
    E: Outlet,
    ensures status { DoneOrFailed result }
    ensures same { result ≡ DONE → HaveSameFrames O.holds program.entry.opener film.now recording.now }
{
    let Program {
        rt,
        opener,
        console,
        ..
    } = program;
    let alloc = rt.alloc();
    let mut images = match open_film(alloc, opener, film, console) {
        Ok(images) => images,
        Err(status) => return status,
    };
    let mut codestreams = match open_film(alloc, opener, recording, console) {
        Ok(codestreams) => codestreams,
        Err(status) => return status,
    };
    match verify_lent(rt, alloc, workers, &mut images, &mut codestreams) {
        Ok(verdict) => say_verdict(recording, verdict, console),
        Err(fault @ VerifyFault::Film(..)) => conclude(film, Err(fault), &images, None, console),
        Err(fault) => conclude(recording, Err(fault), &codestreams, None, console),
    }
}

/// Compares a recording with its film, over any readers, with this number of workers that decode.
fn verify_lent<Rt: Threads + Sync, F: Feed, R: Feed>(
    rt: &Rt,
    alloc: Global,
    workers: u8,
    film: &mut F,
    recording: &mut R,
) -> Result<Verdict, VerifyFault>
    ensures finds { IfOk result (FindsAhead (F.remaining film.old) (F.remaining film.new) (R.remaining recording.old)) }
    ensures stops { IfErr result (StopsComparison (F.remaining film.old) (R.remaining recording.old)) }
{
    let workers = usize::from(workers);
    if workers > 1 {
        verify_by(rt, alloc, workers, film, recording)
    } else {
        verify(alloc, film, recording)
    }
}

/// Says how a recording differs from its film, if it does, and returns the status.
pub fn say_verdict<E: Outlet>(recording: &str, verdict: Verdict, console: &mut Console<E>) -> u8
    ensures { result ≡ verdict_status verdict }
{
    let recording = Shown(recording);
    match verdict {
        Verdict::Same(_frames) => return DONE,
        Verdict::Differs(number, difference) => {
            say_difference(recording, number, difference, console);
        }
        Verdict::Missing(number) => {
            console.say(format_args!("{recording}: frame {number} is missing"));
        }
        Verdict::Extra(number) => {
            console.say(format_args!("{recording}: frame {number} is too many"));
        }
    }
    FAILED
}

/// Says how the frame of this number of a recording differs from that of its film, the recording's value first.
fn say_difference<E: Outlet>(
    recording: Shown<'_>,
    number: u64,
    difference: Difference,
    console: &mut Console<E>,
) {
    match difference {
        Difference::Kinds(film, own) => {
            let film = kind_text(film);
            let own = kind_text(own);
            console.say(format_args!("{recording}: frame {number} differs: {own}, not {film}"));
        }
        Difference::Sizes(width, height, own_width, own_height) => console.say(format_args!(
            "{recording}: frame {number} differs: size {own_width}x{own_height}, not {width}x{height}"
        )),
        Difference::Maxvals(film, own) => console.say(format_args!(
            "{recording}: frame {number} differs: maxval {own}, not {film}"
        )),
        Difference::Samples => {
            console.say(format_args!("{recording}: frame {number} differs: samples"));
        }
    }
}

fn kind_text(kind: Kind) -> &'static str {
    match kind {
        Kind::Gray => "gray",
        Kind::Color => "color",
    }
}
