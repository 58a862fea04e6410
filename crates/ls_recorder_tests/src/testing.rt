//! Films, recordings and checks for the tests.
ghost use Rattle.std.specs.Prelude.{◌≡◌, [], IfSome};
ghost use Rattle.ls_queue.specs.View.Running.{AreAllSources, IsSourceSeat, items_put};

use ls_frame::Tuning;
use ls_queue::{Queue, SourceSeat};
use ls_recorder::{Answer, Inbox, Order, Outbox, boxes};
use ls_testing::{Mishap, Sink};
use std::alloc::Global;
use std::fmt::Display;
use std::io::Write;
use std::process::Abort;
use std::sync::Wait;

/// The default of each parameter.
pub const DEFAULTS: Tuning = Tuning {
    t1: 0,
    t2: 0,
    t3: 0,
    reset: 0,
};

/// Three images: that of T.87's Annex H.3, 4 by 4; a black pixel; a white pixel.
pub const THREE: &[u8] = b"P5\n4 4\n255\n\
\x00\x00\x5a\x4a\x44\x32\x2b\xcd\x40\x91\x91\x91\x64\x91\x91\x91\
P5\n1 1\n255\n\x00P5\n1 1\n255\n\xff";

pub const THREE_CODED: &[u8] = b"\xff\xd8\
\xff\xf7\x00\x0b\x08\x00\x04\x00\x04\x01\x01\x11\x00\
\xff\xda\x00\x08\x01\x01\x00\x00\x00\x00\
\xc0\x00\x00\x6c\x80\x20\x8e\x01\xc0\x00\x00\x57\x40\x00\x00\x6e\xe6\x00\x00\x01\xbc\x18\x00\
\x00\x05\xd8\x00\x00\x91\x60\xff\xd9\
\xff\xd8\
\xff\xf7\x00\x0b\x08\x00\x01\x00\x01\x01\x01\x11\x00\
\xff\xda\x00\x08\x01\x01\x00\x00\x00\x00\x80\xff\xd9\
\xff\xd8\
\xff\xf7\x00\x0b\x08\x00\x01\x00\x01\x01\x01\x11\x00\
\xff\xda\x00\x08\x01\x01\x00\x00\x00\x00\x40\xff\xd9";

/// Two images: a row of twelve black samples; and two rows, each of three black samples and a 9.
pub const RUNS: &[u8] = b"P5\n12 1\n255\n\x00\x00\x00\x00\x00\x00\x00\x00\x00\x00\x00\x00\
P5\n4 2\n255\n\x00\x00\x00\x09\x00\x00\x00\x09";

pub const RUNS_CODED: &[u8] = b"\xff\xd8\
\xff\xf7\x00\x0b\x08\x00\x01\x00\x0c\x01\x01\x11\x00\
\xff\xda\x00\x08\x01\x01\x00\x00\x00\x00\xff\x00\xff\xd9\
\xff\xd8\
\xff\xf7\x00\x0b\x08\x00\x02\x00\x04\x01\x01\x11\x00\
\xff\xda\x00\x08\x01\x01\x00\x00\x00\x00\xe0\xbb\x00\xff\xd9";

/// Numbers of workers, and windows.
pub const MEANS: &[(usize, usize)] = &[(1, 1), (1, 8), (2, 1), (2, 8), (4, 1), (4, 8)];

/// Checks that a test of this name went right. `None` says that an allocation failed before it could be made, which is
/// right only if memory isn't ample.
pub fn check(rt: &impl Abort, name: &str, right: Option<bool>, ample: bool) {
    assert!(rt; right.unwrap_or(!ample), "{name}");
}

/// Checks that a fault has this message.
pub fn check_text<F: Display + Drop>(rt: &impl Abort, fault: F, text: &str) {
    let mut sink = Sink::new(4096, Mishap::Nothing);
    let right = write!(sink, "{fault}").is_ok() && sink.written() == text.as_bytes();
    check(rt, text, Some(right), true);
}

/// The ends of a box for one source and one worker. `None` if an allocation fails.
pub fn one_box<R: Wait>(rt: &R, alloc: Global, window: usize) -> Option<(Inbox, Outbox)> {
    let (mut inboxes, mut outboxes) = boxes(rt, alloc, 1, 1, window).ok()?;
    let inbox = inboxes.pop()?;
    let outbox = outboxes.pop()?;
    if inboxes.is_empty() && outboxes.is_empty() && outbox.sources() == 1 {
        Some((inbox, outbox))
    } else {
        None
    }
}

/// Whether a result is sent to the inbox of this source.
pub fn is_sent<R: Wait>(rt: &R, outbox: &mut Outbox, source: u8, answer: Answer) -> bool {
    usize::from(source) < outbox.sources() && outbox.send(rt, source, answer).is_ok()
}

/// The seat of source 0, from the seats that a queue was opened with.
pub fn first_seat(queue: &Queue<Order>, seats: Vec<SourceSeat<Order>>) -> Option<SourceSeat<Order>>
    requires { AreAllSources queue.now seats.items }
    ensures { IfSome result (λ seat. IsSourceSeat queue.now seat × (items_put seat ≡ [])) }
{
    let mut seats = seats;
    if seats.is_empty() {
        return None;
    }
    Some(seats.remove(0))
}
