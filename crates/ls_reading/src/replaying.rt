//! The command `replay`: a queue's replies to the steps of a file.
ghost use Rattle.std.specs.Prelude.{◌≡◌, ◌⊎◌, IfOk, IfErr};
ghost use Rattle.std.specs.Io.KnownBytes.{Appends};
ghost use Rattle.ls_frame.specs.View.Devices.{wrapped};
ghost use Rattle.ls_replay.specs.ReplyLines.{reply_lines};
ghost use Rattle.ls_reading.specs.View.Replays.{HoldsText, IsReplayOf, IsReplayFault, IsBeyondQueues, WritesReplay, replay_status};
ghost use Rattle.ls_reading.specs.View.Statuses.{DoneOrFailed, DoneFailedOrUsage};

use core::mem::replace_with;
use ls_console::{
    Console, DONE, FAILED, Lines, Program, Shown, USAGE, finish_lines, line_buffer, misused,
    no_memory,
};
use ls_files::{Opens, Source};
use ls_frame::{Counted, Outlet};
use ls_queue::{QueueFault, Reply, replay};
use ls_replay::{StepsFault, print_replies, read_steps, read_text};
use std::alloc::Global;
use std::io::Write;

/// Why there are no replies to the steps of a file.
#[derive(Clone, Copy, Drop)]
enum ReplayFault {
    /// Its text can't be read as steps.
    Steps(StepsFault),
    /// A queue can't replay its steps.
    Queue(QueueFault),
}

/// Writes the replies of a queue to the steps of a file, and returns the status: `USAGE` only if the file has steps, but
/// no queue has so many sources or places.
pub fn replay_file<R, O, W, E>(
    program: Program<'_, R, O, W, E>,
    sources: u8,
    capacity: u32,
    file: &str,
) -> u8
where
    R: AllocGlobal,
    O: Opens + Copy + Drop,
    W: Write,
    E: Outlet,
    ensures status { DoneFailedOrUsage result }
    ensures replays { result ≡ DONE → WritesReplay O.holds program.entry.opener file.now sources capacity
        (W.contents (wrapped program.entry.output.now)) (W.contents (wrapped program.exit.1.1.0.now)) }
    ensures usage { result ≡ USAGE → IsBeyondQueues O.holds program.entry.opener file.now sources capacity }
{
    let Program {
        rt,
        opener,
        output,
        console,
    } = program;
    let alloc = rt.alloc();
    let text = match read_steps_text(alloc, opener, file, console) {
        Ok(text) => text,
        Err(status) => return status,
    };
    match replies_to(alloc, sources, capacity, &text) {
        Ok(replies) => write_replies(alloc, file, &replies, output, console),
        Err(fault) => say_fault(file, fault, console),
    }
}

/// The replies to the steps of a text.
fn replies_to(
    alloc: Global,
    sources: u8,
    capacity: u32,
    text: &[u8],
) -> Result<Vec<Reply>, ReplayFault>
    ensures replies { IfOk result (λ replies. IsReplayOf sources capacity text.now replies.items) }
    ensures fault { IfErr result (IsReplayFault sources capacity text.now) }
{
    let steps = match read_steps(alloc, text) {
        Ok(steps) => steps,
        Err(fault) => return Err(ReplayFault::Steps(fault)),
    };
    match replay(alloc, sources, capacity as usize, &steps) {
        Ok(replies) => Ok(replies),
        Err(fault) => Err(ReplayFault::Queue(fault)),
    }
}

/// Says why there are no replies, and returns the status.
fn say_fault<E: Outlet>(file: &str, fault: ReplayFault, console: &mut Console<E>) -> u8
    ensures { result ≡ replay_status fault }
{
    let file = Shown(file);
    match fault {
        ReplayFault::Queue(QueueFault::Sources) => return misused(console, b"jlsrec: sources\n"),
        ReplayFault::Queue(QueueFault::Capacity) => return misused(console, b"jlsrec: capacity\n"),
        ReplayFault::Queue(fault) => console.say(format_args!("{file}: {fault}")),
        ReplayFault::Steps(fault) => console.say(format_args!("{file}: {fault}")),
    }
    FAILED
}

/// Reads the bytes of a steps file. On failure says why and returns the status.
fn read_steps_text<O, E>(
    alloc: Global,
    opener: O,
    file: &str,
    console: &mut Console<E>,
) -> Result<Vec<u8>, u8>
where
    O: Opens + Copy + Drop,
    E: Outlet,
    ensures text { IfOk result (λ text. HoldsText O.holds opener file.now text.items) }
    ensures status { IfErr result (λ status. status ≡ FAILED) }
{
    let mut reader = match Source::open(opener, file) {
        Ok(source) => Counted::new(source),
        Err(fault) => {
            console.say_unopened(file, &fault);
            return Err(FAILED);
        }
    };
    match read_text(alloc, &mut reader) {
        Ok(text) => Ok(text),
        Err(fault) => {
            console.say(format_args!("{}: {fault}", Shown(file)));
            console.blame(file, reader.last_failure());
            Err(FAILED)
        }
    }
}

/// Writes the lines of replies, through a buffer.
fn write_replies<W, E>(
    alloc: Global,
    file: &str,
    replies: &[Reply],
    output: &mut Counted<W>,
    console: &mut Console<E>,
) -> u8
where
    W: Write,
    E: Outlet,
    ensures status { DoneOrFailed result }
    ensures written { result ≡ DONE → Appends (W.contents (wrapped output.old)) (W.contents (wrapped output.new)) (reply_lines replies.now) }
{
    let Ok(buffer) = line_buffer(alloc) else {
        return no_memory(console);
    };
    let told = Told {
        file,
        replies,
        buffer,
        console,
    };
    replace_with(output, told, write_lines)
}

/// Replies to the steps of a file, and what their lines are written with: a buffer, and the console.
#[derive(Drop)]
struct Told<'a, E> {
    file: &'a str,
    replies: &'a [Reply],
    buffer: Vec<u8>,
    console: &'a mut Console<E>,
}

/// Writes the lines of replies through a buffer, and returns the output with the status.
fn write_lines<W, E>(output: Counted<W>, told: Told<'_, E>) -> (Counted<W>, u8)
where
    W: Write,
    E: Outlet,
    ensures status { DoneOrFailed result.1 }
    ensures written { result.1 ≡ DONE → Appends (W.contents (wrapped output)) (W.contents (wrapped result.0)) (reply_lines told.entry.replies.now) }
{
    let Told {
        file,
        replies,
        buffer,
        console,
    } = told;
    let mut lines = Counted::new(Lines::new(output, buffer));
    let status = print_to(file, replies, &mut lines, console);
    finish_lines(status, lines, console)
}

/// Writes the lines of replies, over any writer, and returns the status.
fn print_to<L, E>(
    file: &str,
    replies: &[Reply],
    lines: &mut Counted<L>,
    console: &mut Console<E>,
) -> u8
where
    L: Write,
    E: Outlet,
    ensures status { DoneOrFailed result }
    ensures written { result ≡ DONE → Appends (L.contents (wrapped lines.old)) (L.contents (wrapped lines.new)) (reply_lines replies.now) }
{
    match print_replies(lines, replies) {
        Ok(()) => DONE,
        Err(fault) => {
            console.say(format_args!("{}: {fault}", Shown(file)));
            console.blame(file, lines.last_failure());
            FAILED
        }
    }
}
