use crate::pixels::pixel_piece;
use crate::testing::{check, is_sent, one_box};
use ls_recorder::{Inbox, Outbox, RecordFault, Uncoded, boxes};
use std::alloc::Global;
use std::process::Abort;
use std::sync::Wait;

/// Numbers that boxes can't be made with, as sources, workers and window; and why not.
type BadRange = (u8, usize, usize, RecordFault);

const BAD_RANGES: &[BadRange] = &[
    (0, 0, 0, RecordFault::Sources),
    (17, 1, 1, RecordFault::Sources),
    (1, 0, 0, RecordFault::Workers),
    (1, 17, 1, RecordFault::Workers),
    (1, 1, 0, RecordFault::Window),
    (1, 1, 65, RecordFault::Window),
];

/// Whether boxes of these numbers are refused for this reason.
fn is_refused<R: Wait>(rt: &R, alloc: Global, range: &BadRange) -> bool {
    let (sources, workers, window, fault) = *range;
    boxes(rt, alloc, sources, workers, window).err() == Some(fault)
}

#[test]
fn numbers_out_of_range_are_refused(rt: HostRuntime) {
    for range in BAD_RANGES {
        let right = is_refused(&rt, rt.alloc(), range);
        check(&rt, "a range", Some(right), true);
    }
}

/// Boxes, what is sent to them, and what is then received from them.
struct Case {
    sources: u8,
    workers: usize,
    window: usize,
    /// The worker that sends, the source, and the number of the coded frame.
    sent: &'static [(usize, u8, u64)],
    /// The source whose inbox is read, and the number of the coded frame; `None` if nothing comes.
    received: &'static [(usize, Option<u64>)],
}

const ONE_BOX: Case = Case {
    sources: 1,
    workers: 1,
    window: 1,
    sent: &[(0, 0, 5)],
    received: &[(0, Some(5)), (0, None)],
};

const TWO_BOXES: Case = Case {
    sources: 2,
    workers: 2,
    window: 2,
    sent: &[(0, 1, 5), (1, 0, 6), (1, 1, 7)],
    received: &[
        (0, Some(6)),
        (1, Some(5)),
        (1, Some(7)),
        (0, None),
        (1, None),
    ],
};

/// Whether all coded frames are sent. `None` if an allocation fails.
fn are_sent<R: Wait>(
    rt: &R,
    alloc: Global,
    outboxes: &mut [Outbox],
    sent: &[(usize, u8, u64)],
) -> Option<bool> {
    for (worker, source, number) in sent {
        let piece = pixel_piece(alloc, *source, *number, 0, 64)?;
        if !is_sent(rt, outboxes.get_mut(*worker)?, *source, Ok(piece)) {
            return Some(false);
        }
    }
    Some(true)
}

/// Whether the next result in an inbox is the coded frame of this number; or, for `None`, whether nothing comes.
fn comes<R: Wait>(rt: &R, inbox: &mut Inbox, number: Option<u64>) -> bool {
    match inbox.recv(rt) {
        Some(Ok(piece)) => Some(piece.number()) == number,
        Some(Err(_)) => false,
        None => number.is_none(),
    }
}

/// Whether these are received from the inboxes of their sources.
fn all_come<R: Wait>(rt: &R, inboxes: &mut [Inbox], received: &[(usize, Option<u64>)]) -> bool {
    for (source, number) in received {
        let Some(inbox) = inboxes.get_mut(*source) else {
            return false;
        };
        if !comes(rt, inbox, *number) {
            return false;
        }
    }
    true
}

/// Whether what is sent is received, and then nothing, as no sender is left. `None` if an allocation fails.
fn answers_come_out<R: Wait>(rt: &R, alloc: Global, case: &Case) -> Option<bool> {
    let (mut inboxes, mut outboxes) = boxes(
        rt,
        alloc,
        case.sources,
        case.workers,
        case.window,
    ).ok()?;
    let sent = are_sent(rt, alloc, &mut outboxes, case.sent)?;
    drop(outboxes);
    Some(sent && all_come(rt, &mut inboxes, case.received))
}

/// Whether a result is returned to its sender when the lane is gone. `None` if an allocation fails.
fn an_answer_comes_back<R: Wait>(rt: &R, alloc: Global) -> Option<bool> {
    let (inbox, mut outbox) = one_box(rt, alloc, 1)?;
    drop(inbox);
    let answer = Uncoded {
        source: 0,
        number: 7,
    };
    if outbox.sources() == 0 {
        return Some(false);
    }
    let right = match outbox.send(rt, 0, Err(answer)) {
        Err(Err(back)) => back == answer,
        _ => false,
    };
    Some(right)
}

fn check_box<R: Wait + Abort>(rt: &R, alloc: Global, ample: bool) {
    let one = answers_come_out(rt, alloc, &ONE_BOX);
    check(rt, "a box", one, ample);
    check(rt, "no lane", an_answer_comes_back(rt, alloc), ample);
    let each = answers_come_out(rt, alloc, &TWO_BOXES);
    check(rt, "two boxes", each, ample);
}

#[test]
fn answers_go_through_a_box_with_ample_memory(rt: HostRuntime) {
    check_box(&rt, rt.alloc(), true);
}

#[test]
fn answers_go_through_a_box_or_memory_is_refused(rt: HostRuntime) {
    check_box(&rt, rt.alloc(), false);
}
