//! Writing the reply lines of a replay.
ghost use Rattle.std.specs.Prelude.{◌≡◌, ◌+◌, ◌-◌, ◌<◌, ◌≤◌, ◌^◌, ◌++◌, OnOk, IfOk, IfErr, is_err, length, take, decimal, codes};
ghost use Rattle.std.specs.Io.KnownBytes.{Appends};
ghost use Rattle.ls_frame.specs.View.Devices.{count_after};
ghost use Rattle.ls_replay.specs.ReplyLines.{job_line, reply_line, reply_lines};

use itoa::Buffer;
use ls_frame::{Outlet, WriteFault, lay, write_bytes};
use ls_queue::{Close, Job, Put, Reply, Take};

/// The bytes of a line's buffer. A line has at most 50.
const ROOM: usize = 64;

/// Writes a line for each reply.
///
/// Allocates nothing. On a fault exactly the first `written` bytes of the lines were written, if the lines have fewer
/// than 2^64 bytes in all: more would come from more replies than any memory holds.
pub fn print_replies<W: Outlet>(writer: &mut W, replies: &[Reply]) -> Result<(), WriteFault>
    ensures ok { OnOk result (Appends (W.contents writer.old) (W.contents writer.new) (reply_lines replies.now)) }
    ensures fault { length (reply_lines replies.now) < 2 ^ 64 → IfErr result
        (λ fault. Appends (W.contents writer.old) (W.contents writer.new) (take fault.written (reply_lines replies.now))) }
    ensures part { IfErr result (λ fault. fault.written < length (reply_lines replies.now)) }
    ensures failures { W.failed_writes writer.new ≡ count_after (is_err result) (W.failed_writes writer.old) }
{
    let mut written: usize = 0;
    for reply in replies {
        let mut line = [0u8; ROOM];
        let end = put_reply(&mut line, reply);
        match write_bytes(writer, &line[..end]) {
            Ok(()) => written = written.saturating_add(end),
            Err(fault) => {
                return Err(WriteFault {
                    written: written.saturating_add(fault.written),
                });
            }
        }
    }
    Ok(())
}

/// Writes the line of a reply to the front of `line`, and returns its length.
fn put_reply(line: &mut [u8; ROOM], reply: &Reply) -> usize
    ensures laid { take result line.new ≡ reply_line reply.now }
    ensures within { result ≤ 50 }
{
    match reply {
        Reply::Put(Put::Taken(number)) => put_numbered(line, b"taken ", *number),
        Reply::Put(Put::Closed(_)) => lay(line, 0, b"closed\n"),
        Reply::Put(Put::Spent(_)) => lay(line, 0, b"spent\n"),
        Reply::Put(Put::Full(_)) => lay(line, 0, b"full\n"),
        Reply::Close(Close::Now(count)) => put_numbered(line, b"now ", *count),
        Reply::Close(Close::Already(count)) => put_numbered(line, b"already ", *count),
        Reply::Take(Take::Job(job)) => put_job(line, job),
        Reply::Take(Take::Empty) => lay(line, 0, b"empty\n"),
        Reply::Take(Take::Done) => lay(line, 0, b"done\n"),
    }
}

/// Writes a word of at most 8 bytes, a number and LF to the front of `line`, and returns their length.
fn put_numbered(line: &mut [u8; ROOM], word: &[u8], number: u64) -> usize
    requires { length word.now ≤ 8 }
    ensures laid { take result line.new ≡ word.now ++ decimal number ++ codes "\n" }
    ensures within { result ≤ 29 }
{
    let mut digits = Buffer::new();
    let mut end = lay(line, 0, word);
    end = lay(line, end, digits.format(number).as_bytes());
    lay(line, end, b"\n")
}

/// Writes `job` and a job's source, number and item, separated by single blanks, and LF to the front of `line`, and
/// returns their length.
fn put_job(line: &mut [u8; ROOM], job: &Job<u64>) -> usize
    ensures laid { take result line.new ≡ job_line job.now }
    ensures within { result ≤ 50 }
{
    let mut digits = Buffer::new();
    let mut end = lay(line, 0, b"job ");
    end = lay(line, end, digits.format(job.source).as_bytes());
    end = lay(line, end, b" ");
    end = lay(line, end, digits.format(job.number).as_bytes());
    end = lay(line, end, b" ");
    end = lay(line, end, digits.format(job.item).as_bytes());
    lay(line, end, b"\n")
}
