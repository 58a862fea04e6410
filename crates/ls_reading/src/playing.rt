//! The command `play`: all of a recording, a part of it, or the intact frames of a damaged one.
ghost use Rattle.std.specs.Prelude.{◌≡◌, false, All, IsSome, IfOk, IfErr, IfSome, IfNone};
ghost use Rattle.ls_frame.specs.View.Chunks.{left_in};
ghost use Rattle.ls_frame.specs.View.Devices.{wrapped};
ghost use Rattle.ls_stream.specs.Grammar.{Spells};
ghost use Rattle.ls_film.specs.Showing.{show as film_images};
ghost use Rattle.ls_film.specs.View.Engine.{Completes};
ghost use Rattle.ls_film.specs.View.Parts.{StopsPart};
ghost use Rattle.ls_film.specs.View.Playing.{StopsAhead};
ghost use Rattle.ls_salvage.specs.View.Runs.{Completes as Salvages, Stops as StopsSalvage};
ghost use Rattle.ls_reading.specs.View.Commands.{WritesTextOf, ShowsPartOf, SalvagesAllOf, HasAllOf, PlaysPart, IsPart};
ghost use Rattle.ls_reading.specs.View.Statuses.{DoneOrFailed};

use crate::cause::conclude;
use crate::recorded::{Found, Recorded};
use ls_console::{
    Cause, Console, DONE, FAILED, Host, Program, Shown, explain, no_memory, open_film,
};
use ls_files::Opens;
use ls_film::{
    MOST_FRAMES, Part, PartFault, PlayFault, play_part, play_recording, play_recording_by,
};
use ls_frame::{Buffered, Feed, Outlet};
use ls_salvage::{Gap, Gaps, ImageText, SalvageFault, Salvaged, salvage};
use std::alloc::{AllocError, Global};
use std::io::Write;
use std::thread::Threads;

/// Plays a recording with this number of workers, or the part of it that is asked for.
pub fn show<R, O, W, E>(
    program: Program<'_, R, O, W, E>,
    file: &str,
    part: Option<Part>,
    workers: u8,
) -> u8
where
    R: AllocGlobal + Threads + Sync,
    O: Opens + Copy + Drop,
    W: Write,
    E: Outlet,
    ensures status { DoneOrFailed result }
    ensures shows { result ≡ DONE → IfNone part (WritesTextOf O.holds program.entry.opener file.now
        (W.contents (wrapped program.entry.output.now)) (W.contents (wrapped program.exit.1.1.0.now)) Spells film_images) }
    ensures part { result ≡ DONE → IfSome part (λ part. IsPart part → ShowsPartOf O.holds program.entry.opener file.now
        (W.contents (wrapped program.entry.output.now)) (W.contents (wrapped program.exit.1.1.0.now)) part) }
{
    let Program {
        rt,
        opener,
        output,
        console,
    } = program;
    let mut recording = match open_film(rt.alloc(), opener, file, console) {
        Ok(recording) => recording,
        Err(status) => return status,
    };
    match part {
        Some(part) => {
            let result = show_part(rt.alloc(), part, &mut recording, output);
            conclude(file, result, &recording, output.last_failure(), console)
        }
        None => {
            let result = show_all(rt, rt.alloc(), workers, &mut recording, output);
            conclude(file, result, &recording, output.last_failure(), console)
        }
    }
}

/// Plays a recording, over any reader and writer, with this number of workers. With one, each image is written before
/// the next codestream is read.
#[tactic(auto, using(crate::proofs::StatusLemmas::stops_ahead))]
fn show_all<Rt: Threads + Sync, R: Feed, W: Outlet>(
    rt: &Rt,
    alloc: Global,
    workers: u8,
    recording: &mut R,
    output: &mut W,
) -> Result<u64, PlayFault>
    ensures completes { IfOk result (Completes Spells film_images
        (R.remaining recording.old) (R.remaining recording.new) (W.contents output.old) (W.contents output.new)) }
    ensures stops { IfErr result (StopsAhead (R.remaining recording.old) (R.remaining recording.new)
        (W.contents output.old) (W.contents output.new)) }
{
    let workers = usize::from(workers);
    if workers > 1 {
        play_recording_by(rt, alloc, workers, recording, output)
    } else {
        play_recording(alloc, recording, output)
    }
}

/// Plays the frames of `part`; none if they are out of order or too high, which the words can't ask for.
fn show_part<R: Feed, W: Outlet>(
    alloc: Global,
    part: Part,
    recording: &mut R,
    output: &mut W,
) -> Result<u64, PartFault>
    ensures shows { IfOk result (λ count. IsPart part → PlaysPart part (R.remaining recording.old) (R.remaining recording.new)
        (W.contents output.old) (W.contents output.new) count) }
    ensures stops { IfErr result (StopsPart (R.remaining recording.old) (R.remaining recording.new)
        (W.contents output.old) (W.contents output.new) part.first part.last) }
{
    let Part { first, last } = part;
    if first >= MOST_FRAMES || last.is_some_and(|last| last < first || last >= MOST_FRAMES) {
        return Ok(0);
    }
    play_part(alloc, part, recording, output)
}

/// Plays the intact frames of a recording, and reports the gaps between them. With an index, gaps have the recorded
/// frame numbers, and lost frames are reported too.
pub fn show_whole<R, O, W, E>(
    program: Program<'_, R, O, W, E>,
    file: &str,
    index: Option<&str>,
) -> u8
where
    R: Host,
    O: Opens + Copy + Drop,
    W: Write,
    E: Outlet,
    ensures status { DoneOrFailed result }
    ensures salvages { result ≡ DONE → SalvagesAllOf O.holds program.entry.opener file.now
        (W.contents (wrapped program.entry.output.now)) (W.contents (wrapped program.exit.1.1.0.now)) }
    ensures found { result ≡ DONE → IfSome index.entry (λ index. HasAllOf O.holds program.entry.opener file.now index.now) }
{
    match index {
        Some(index) => show_found(program, file, index),
        None => show_intact(program, file, None),
    }
}

/// The same by an index.
fn show_found<R, O, W, E>(program: Program<'_, R, O, W, E>, file: &str, index: &str) -> u8
where
    R: Host,
    O: Opens + Copy + Drop,
    W: Write,
    E: Outlet,
    ensures status { DoneOrFailed result }
    ensures salvages { result ≡ DONE → SalvagesAllOf O.holds program.entry.opener file.now
        (W.contents (wrapped program.entry.output.now)) (W.contents (wrapped program.exit.1.1.0.now)) }
    ensures found { result ≡ DONE → HasAllOf O.holds program.entry.opener file.now index.now }
{
    let Program {
        rt,
        opener,
        output,
        console,
    } = program;
    let found = match Found::find(rt, opener, file, index, console) {
        Ok(found) => found,
        Err(status) => return status,
    };
    let program = Program {
        rt,
        opener,
        output,
        console,
    };
    show_intact(program, file, Some(&found))
}

/// The same, where these frames of an index were found.
fn show_intact<R, O, W, E>(
    program: Program<'_, R, O, W, E>,
    file: &str,
    found: Option<&Found>,
) -> u8
where
    R: Host,
    O: Opens + Copy + Drop,
    W: Write,
    E: Outlet,
    ensures status { DoneOrFailed result }
    ensures salvages { result ≡ DONE → SalvagesAllOf O.holds program.entry.opener file.now
        (W.contents (wrapped program.entry.output.now)) (W.contents (wrapped program.exit.1.1.0.now)) }
    ensures all { result ≡ DONE → IfSome found.entry (λ found. All IsSome found.now.places.items) }
{
    let Program {
        rt,
        opener,
        output,
        console,
    } = program;
    let recorded = match recorded_by(rt.alloc(), found) {
        Ok(recorded) => recorded,
        Err(AllocError) => return no_memory(console),
    };
    let mut recording = match open_film(rt.alloc(), opener, file, console) {
        Ok(recording) => recording,
        Err(status) => return status,
    };
    let mut gaps = SaidGaps {
        file,
        console,
        gaps: 0,
        recorded,
    };
    let result = play_whole(rt.alloc(), &mut recording, output, &mut gaps);
    let recorded = gaps.recorded;
    match result {
        Ok(salvaged) => {
            let lost = say_lost(file, found, recorded.as_ref(), console);
            if salvaged.gaps == 0 && !lost {
                return DONE;
            }
            if salvaged.frames == 0 {
                explain(file, Cause::Format, &recording, None, console);
            }
            FAILED
        }
        Err(fault) => conclude(file, Err(fault), &recording, output.last_failure(), console),
    }
}

/// The state of the frames that were found before the first gap, if there is an index.
fn recorded_by(alloc: Global, found: Option<&Found>) -> Result<Option<Recorded<'_>>, AllocError> {
    match found {
        Some(found) => Ok(Some(Recorded::new(alloc, found)?)),
        None => Ok(None),
    }
}

/// Says which frames are lost, if there is an index, and whether any is.
fn say_lost<E: Outlet>(
    file: &str,
    found: Option<&Found>,
    gaps: Option<&Recorded<'_>>,
    console: &mut Console<E>,
) -> bool
    ensures { result ≡ false → IfSome found.entry (λ found. All IsSome found.now.places.items) }
{
    match found {
        Some(found) => found.say_lost(file, gaps, console),
        None => false,
    }
}

/// Plays the intact frames of a recording, over any reader and writer.
fn play_whole<R: Feed, W: Outlet, G: Gaps>(
    alloc: Global,
    recording: &mut Buffered<R>,
    output: &mut W,
    gaps: &mut G,
) -> Result<Salvaged, SalvageFault>
    ensures completes { IfOk result (Salvages film_images (W.contents output.old) (W.contents output.new) (G.told gaps.old) (G.told gaps.new)
        (left_in R.remaining recording.old) (left_in R.remaining recording.new)) }
    ensures stops { IfErr result (StopsSalvage film_images (W.contents output.old) (W.contents output.new) (G.told gaps.old) (G.told gaps.new)
        (left_in R.remaining recording.old)) }
{
    salvage::<ImageText, _, _, _>(alloc, recording, output, gaps)
}

/// Reports the gaps of a file on standard error.
#[derive(Drop)]
struct SaidGaps<'f, 'c, 'r, E> {
    file: &'f str,
    console: &'c mut Console<E>,
    /// The number of gaps reported so far.
    gaps: u64,
    /// The recorded frames, if an index gives them.
    recorded: Option<Recorded<'r>>,
}

impl<'f, 'c, 'r, E: Outlet> Gaps for SaidGaps<'f, 'c, 'r, E> {
    ghost use Rattle.std.specs.Prelude.{None};

    ghost told = { λ _. None };

    fn tell(&mut self, gap: Gap) -> Result<(), AllocError> {
        let Gap {
            frame,
            place,
            count,
            fault,
        } = gap;
        let number = match &mut self.recorded {
            Some(recorded) => recorded.number_of(&gap),
            None => frame.saturating_add(self.gaps),
        };
        self.gaps = self.gaps.saturating_add(1);
        let file = Shown(self.file);
        self.console.say(format_args!(
            "{file}: frame {number}: {fault}: {count} bytes at {place} passed over"
        ));
        Ok(())
    }
}
