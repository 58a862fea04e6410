ghost use Rattle.std.specs.Prelude.{◌≡◌, [], IfSome};
ghost use Rattle.ls_queue.specs.View.Running.{IsSourceSeat, items_put};

use crate::pixels::pixel_piece;
use crate::testing::{DEFAULTS, check, check_text, first_seat, is_sent, one_box};
use ls_frame::{Counted, NetpbmFault, PresetFault, Tuning};
use ls_queue::{Queue, SourceSeat, open};
use ls_recorder::lane::lane;
use ls_recorder::{Answer, Inbox, LaneFault, Misfit, Order, Outbox, Uncoded};
use ls_testing::films::{BLACK, FIRST_CODESTREAM, TWO_CODESTREAMS, TWO_IMAGES};
use ls_testing::{Mishap, Pieces, Sink};
use std::alloc::Global;
use std::sync::Wait;
use std::thread::Threads;

/// A result in a lane's inbox: the coded frame of this number, for a pixel of this sample; or a job that couldn't be
/// coded.
#[derive(Clone, Copy, Drop)]
enum Sent {
    Piece(u64, u16),
    Uncoded(u64),
}

/// A lane with no workers: the film that it reads, its tuning and window, the results in its inbox, and what happens to
/// its writer; and then its result, the number of frames it put, and what it wrote.
struct Case {
    film: &'static [u8],
    tuning: Tuning,
    window: usize,
    answers: &'static [Sent],
    mishap: Mishap,
    result: Result<u64, LaneFault>,
    put: u64,
    written: &'static [u8],
}

const CASES: &[Case] = &[
    Case {
        film: b"",
        tuning: DEFAULTS,
        window: 1,
        answers: &[],
        mishap: Mishap::Nothing,
        result: Ok(0),
        put: 0,
        written: b"",
    },
    Case {
        film: TWO_IMAGES,
        tuning: DEFAULTS,
        window: 1,
        answers: &[Sent::Piece(0, 0), Sent::Piece(1, 255)],
        mishap: Mishap::Nothing,
        result: Ok(2),
        put: 2,
        written: TWO_CODESTREAMS,
    },
    Case {
        film: TWO_IMAGES,
        tuning: Tuning {
            t1: 3,
            t2: 7,
            t3: 21,
            reset: 64,
        },
        window: 2,
        answers: &[Sent::Piece(1, 255), Sent::Piece(0, 0)],
        mishap: Mishap::Nothing,
        result: Ok(2),
        put: 2,
        written: TWO_CODESTREAMS,
    },
    Case {
        film: TWO_IMAGES,
        tuning: DEFAULTS,
        window: 1,
        answers: &[],
        mishap: Mishap::Nothing,
        result: Err(LaneFault::Lost),
        put: 1,
        written: b"",
    },
    Case {
        film: BLACK,
        tuning: DEFAULTS,
        window: 1,
        answers: &[Sent::Piece(0, 255)],
        mishap: Mishap::Nothing,
        result: Err(LaneFault::Misfit(Misfit::OtherFrame)),
        put: 1,
        written: b"",
    },
    Case {
        film: BLACK,
        tuning: Tuning {
            t1: 0,
            t2: 0,
            t3: 0,
            reset: 32,
        },
        window: 1,
        answers: &[Sent::Piece(0, 0)],
        mishap: Mishap::Nothing,
        result: Err(LaneFault::Misfit(Misfit::OtherFrame)),
        put: 1,
        written: b"",
    },
    Case {
        film: BLACK,
        tuning: Tuning {
            t1: 10,
            t2: 0,
            t3: 0,
            reset: 0,
        },
        window: 1,
        answers: &[],
        mishap: Mishap::Nothing,
        result: Err(LaneFault::Tuning(0, PresetFault::T2Range)),
        put: 0,
        written: b"",
    },
    Case {
        film: b"P5\n1 1\n255\n\x00P5\n1 1\n1\n\x01",
        tuning: Tuning {
            t1: 3,
            t2: 7,
            t3: 21,
            reset: 64,
        },
        window: 2,
        answers: &[Sent::Piece(0, 0)],
        mishap: Mishap::Nothing,
        result: Err(LaneFault::Tuning(1, PresetFault::T1Range)),
        put: 1,
        written: FIRST_CODESTREAM,
    },
    Case {
        film: TWO_IMAGES,
        tuning: DEFAULTS,
        window: 2,
        answers: &[Sent::Piece(0, 0), Sent::Uncoded(1)],
        mishap: Mishap::Nothing,
        result: Err(LaneFault::NoMemory),
        put: 2,
        written: FIRST_CODESTREAM,
    },
    Case {
        film: b"P5\n1 1\n255\n\x00P5 1 1 7\n\x08",
        tuning: DEFAULTS,
        window: 4,
        answers: &[Sent::Piece(0, 0)],
        mishap: Mishap::Nothing,
        result: Err(LaneFault::Input(1, NetpbmFault::SampleTooLarge)),
        put: 1,
        written: FIRST_CODESTREAM,
    },
    Case {
        film: BLACK,
        tuning: DEFAULTS,
        window: 1,
        answers: &[Sent::Piece(0, 0)],
        mishap: Mishap::Fails(2),
        result: Err(LaneFault::Output(10)),
        put: 1,
        written: b"\xff\xd8\xff\xf7\x00\x0b\x08\x00\x01\x00",
    },
];

/// Makes the result that a worker would send. `None` if an allocation fails.
fn answer_of(alloc: Global, sent: Sent) -> Option<Answer> {
    match sent {
        Sent::Piece(number, sample) => Some(Ok(pixel_piece(alloc, 0, number, sample, 64)?)),
        Sent::Uncoded(number) => Some(Err(Uncoded { source: 0, number })),
    }
}

/// Whether these results are sent. `None` if an allocation fails.
fn are_sent<R: Wait>(rt: &R, alloc: Global, outbox: &mut Outbox, answers: &[Sent]) -> Option<bool> {
    for sent in answers {
        if !is_sent(rt, outbox, 0, answer_of(alloc, *sent)?) {
            return Some(false);
        }
    }
    Some(true)
}

/// An inbox with these results, to which nobody can send any more. `None` if an allocation fails.
fn box_with<R: Wait>(rt: &R, alloc: Global, answers: &[Sent]) -> Option<Inbox> {
    let (inbox, mut outbox) = one_box(rt, alloc, 8)?;
    if are_sent(rt, alloc, &mut outbox, answers)? {
        Some(inbox)
    } else {
        None
    }
}

/// A queue of one source, and its seat. `None` if an allocation fails.
fn queue_and_seat<R: Wait>(rt: &R, alloc: Global) -> Option<(Queue<Order>, SourceSeat<Order>)>
    ensures seat { IfSome result (λ made. IsSourceSeat made.0 made.1) }
    ensures new { IfSome result (λ made. items_put made.1 ≡ []) }
{
    let (queue, seats, _workers, _closer) = open::<Order, R>(rt, alloc, 1, 1, 8).ok()?;
    let seat = first_seat(&queue, seats)?;
    Some((queue, seat))
}

/// Whether a lane with this seat and this inbox ends as it should.
fn ends_so<R: Threads + Wait + Sync>(
    rt: &R,
    alloc: Global,
    queue: &Queue<Order>,
    seat: SourceSeat<Order>,
    inbox: Inbox,
    case: &Case,
) -> bool
    requires seat { IsSourceSeat queue.now seat }
    requires new { items_put seat ≡ [] }
{
    let reader = Counted::new(Pieces::new(case.film, 3, None));
    let writer = Counted::new(Sink::new(5, case.mishap));
    let window = case.window.max(1).min(64);
    let end = lane(
        rt,
        alloc,
        queue,
        seat,
        inbox,
        window,
        case.tuning,
        reader,
        writer,
    );
    end.result == case.result
        && end.ended.count == case.put
        && end.writer.get_ref().written() == case.written
}

/// Whether a lane ends as it should. `None` if an allocation fails.
fn is_right<R: Threads + Wait + Sync>(rt: &R, alloc: Global, case: &Case) -> Option<bool> {
    let inbox = box_with(rt, alloc, case.answers)?;
    let (queue, seat) = queue_and_seat(rt, alloc)?;
    Some(ends_so(rt, alloc, &queue, seat, inbox, case))
}

#[test]
fn a_lane_writes_what_it_read_or_says_where_it_stopped_with_ample_memory(rt: HostRuntime) {
    for case in CASES {
        check(&rt, "a lane", is_right(&rt, rt.alloc(), case), true);
    }
}

/// Faults, and their messages.
const TEXTS: &[(LaneFault, &str)] = &[
    (
        LaneFault::Input(3, NetpbmFault::BadMagic),
        "frame 3: bad magic",
    ),
    (LaneFault::Output(7), "output failed after 7 bytes"),
    (LaneFault::NoMemory, "no memory"),
    (LaneFault::Misfit(Misfit::Twice), "pieces don't fit"),
    (LaneFault::Lost, "workers lost"),
    (LaneFault::NotStarted, "not started"),
    (LaneFault::TooMany, "too many frames"),
    (
        LaneFault::Tuning(1, PresetFault::T1Range),
        "frame 1: bad presets: T1",
    ),
];

#[test]
fn faults_have_their_texts(rt: HostRuntime) {
    for (fault, text) in TEXTS {
        check_text(&rt, *fault, text);
    }
}
