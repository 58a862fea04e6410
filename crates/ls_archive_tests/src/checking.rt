use crate::testing::{BROKEN_DATA, check_text};
use ls_archive::{CheckFault, Checked, Damage, Finding, check, check_by};
use ls_frame::{Counted, Feed};
use ls_stream::StreamFault;
use ls_testing::Pieces;
use ls_testing::films::TWO_CODESTREAMS;
use std::alloc::Global;
use std::process::Abort;
use std::thread::Threads;

/// The result of a check, its first finding, and the numbers of failed reads of the index and of the recording.
type Outcome = (Result<Checked, CheckFault>, Option<Finding>, u64, u64);

/// Checks the outcome of a check; unless memory is ample, an allocation may have failed instead.
fn check_outcome(rt: &impl Abort, name: &str, got: Outcome, want: Outcome, ample: bool) {
    let refused = !ample && got.0 == Err(CheckFault::NoMemory);
    let want = if refused {
        (Err(CheckFault::NoMemory), got.1, 0, 0)
    } else {
        want
    };
    assert_eq!(rt; got, want, "{name}");
}

/// Checks what a reader gives by an index: by `check_by` with this number of workers, or by `check` if there are none.
fn outcome_of<Rt: Threads + Sync>(
    rt: &Rt,
    alloc: Global,
    workers: u8,
    index: Pieces<'_>,
    recording: Pieces<'_>,
) -> Outcome {
    let mut index = Counted::new(index);
    let mut recording = Counted::new(recording);
    let mut findings: Vec<Finding> = Vec::new(alloc);
    let workers = usize::from(workers);
    let ended = if workers > 0 {
        check_by(
            rt,
            alloc,
            workers,
            &mut index,
            &mut recording,
            &mut findings,
        )
    } else {
        check(alloc, &mut index, &mut recording, &mut findings)
    };
    let first = findings.as_slice().first().copied();
    (
        ended,
        first,
        Feed::failures(&index),
        Feed::failures(&recording),
    )
}

/// The result of a check of codestreams of 28 bytes each.
fn checked(frames: u64, damaged: u64, more: bool) -> Checked {
    Checked {
        frames,
        damaged,
        bytes: frames.saturating_mul(28),
        more,
    }
}

/// A finding on one of two codestreams of 28 bytes each, by an index with sums or without.
fn found(place: u64, damage: Damage, sums: bool) -> Finding {
    Finding {
        number: place / 28,
        place,
        count: 28,
        sum: if !sums {
            None
        } else if place == 0 {
            Some(FIRST_SUM)
        } else {
            Some(SECOND_SUM)
        },
        damage,
    }
}

/// The index of `TWO_CODESTREAMS`, without sums, and with the sums of `sha256sum`.
const SIZES: &[u8] = b"0 0 28 gray 1 1 255 8 3 7 21 64\n1 28 28 gray 1 1 255 8 3 7 21 64\n";

const SUMS: &[u8] = b"0 0 28 gray 1 1 255 8 3 7 21 64 \
14c5eaab40e8fcaf165a37d64d027b1357eb15846597672e4e87ef4c04547aa1\n\
1 28 28 gray 1 1 255 8 3 7 21 64 \
0efbec04d1400b04eceb24a245c12e080c3916e4fa2379af048299d12b0a0953\n";

/// The sums of `TWO_CODESTREAMS`.
const FIRST_SUM: [u8; 32] = [
    0x14, 0xc5, 0xea, 0xab, 0x40, 0xe8, 0xfc, 0xaf, 0x16, 0x5a, 0x37, 0xd6, 0x4d, 0x02, 0x7b, 0x13,
    0x57, 0xeb, 0x15, 0x84, 0x65, 0x97, 0x67, 0x2e, 0x4e, 0x87, 0xef, 0x4c, 0x04, 0x54, 0x7a, 0xa1,
];

const SECOND_SUM: [u8; 32] = [
    0x0e, 0xfb, 0xec, 0x04, 0xd1, 0x40, 0x0b, 0x04, 0xec, 0xeb, 0x24, 0xa2, 0x45, 0xc1, 0x2e, 0x08,
    0x0c, 0x39, 0x16, 0xe4, 0xfa, 0x23, 0x79, 0xaf, 0x04, 0x82, 0x99, 0xd1, 0x2b, 0x0a, 0x09, 0x53,
];

/// `TWO_CODESTREAMS` with another sample in the second one.
const CHANGED: &[u8] = b"\xff\xd8\
\xff\xf7\x00\x0b\x08\x00\x01\x00\x01\x01\x01\x11\x00\
\xff\xda\x00\x08\x01\x01\x00\x00\x00\x00\x80\xff\xd9\
\xff\xd8\
\xff\xf7\x00\x0b\x08\x00\x01\x00\x01\x01\x01\x11\x00\
\xff\xda\x00\x08\x01\x01\x00\x00\x00\x00\x80\xff\xd9";

/// The name of a case, the index, the recording, and the result of the check: the numbers of frames and of damaged
/// ones, and whether there are more bytes; then the offset of the first finding, and its damage.
type Case = (
    &'static str,
    &'static [u8],
    &'static [u8],
    Result<(u64, u64, bool), CheckFault>,
    Option<(u64, Damage)>,
);

const CASES: &[Case] = &[
    ("nothing", b"", b"", Ok((0, 0, false)), None),
    ("sizes", SIZES, TWO_CODESTREAMS, Ok((2, 0, false)), None),
    ("sums", SUMS, TWO_CODESTREAMS, Ok((2, 0, false)), None),
    (
        "a change that sizes don't show",
        SIZES,
        CHANGED,
        Ok((2, 0, false)),
        None,
    ),
    (
        "a change",
        SUMS,
        CHANGED,
        Ok((2, 1, false)),
        Some((28, Damage::Changed)),
    ),
    (
        "no recording",
        SUMS,
        b"",
        Ok((2, 2, false)),
        Some((0, Damage::Truncated)),
    ),
    (
        "data that can't be decoded",
        b"0 0 28 gray 1 1 255 8 3 7 21 64\n",
        BROKEN_DATA,
        Ok((1, 1, false)),
        Some((0, Damage::Fault(StreamFault::BadCode(0)))),
    ),
    (
        "more than the index has",
        b"0 0 28 gray 1 1 255 8 3 7 21 64\n",
        TWO_CODESTREAMS,
        Ok((1, 0, true)),
        None,
    ),
    ("no index", b"", TWO_CODESTREAMS, Ok((0, 0, true)), None),
    (
        "a line of another number",
        b"1 0 28 gray\n",
        TWO_CODESTREAMS,
        Err(CheckFault::Line(0)),
        None,
    ),
    (
        "a line of another place",
        b"0 0 28 gray 1 1 255 8 3 7 21 64\n1 29 28 gray\n",
        TWO_CODESTREAMS,
        Err(CheckFault::Line(1)),
        None,
    ),
    (
        "an index that is cut off inside its last line",
        b"0 0 28 gray 1 1 255 8 3 7 21 64\n1 28 28 gray 1 1 255",
        TWO_CODESTREAMS,
        Err(CheckFault::Line(1)),
        None,
    ),
    (
        "an index that is cut off before its last line feed",
        b"0 0 28 gray 1 1 255 8 3 7 21 64\n1 28 28 gray 1 1 255 8 3 7 21 64",
        TWO_CODESTREAMS,
        Err(CheckFault::Line(1)),
        None,
    ),
    (
        "a line whose end isn't text",
        b"0 0 28 \xff\n",
        TWO_CODESTREAMS,
        Err(CheckFault::Line(0)),
        None,
    ),
    (
        "CR before LF",
        b"0 0 28 gray 1 1 255 8 3 7 21 64\r\n",
        TWO_CODESTREAMS,
        Err(CheckFault::Line(0)),
        None,
    ),
    (
        "a sum in upper case",
        b"0 0 28 gray 1 1 255 8 3 7 21 64 \
14C5EAAB40E8FCAF165A37D64D027B1357EB15846597672E4E87EF4C04547AA1\n",
        TWO_CODESTREAMS,
        Err(CheckFault::Line(0)),
        None,
    ),
    (
        "a zero before a number",
        b"0 0 28 gray 1 1 255 8 3 7 021 64\n",
        TWO_CODESTREAMS,
        Err(CheckFault::Line(0)),
        None,
    ),
    (
        "a number of 17 bits",
        b"0 0 28 gray 1 65536 255 8 3 7 21 64\n",
        TWO_CODESTREAMS,
        Err(CheckFault::Line(0)),
        None,
    ),
    (
        "two blanks",
        b"0 0 28 gray 1 1 255 8  3 7 21 64\n",
        TWO_CODESTREAMS,
        Err(CheckFault::Line(0)),
        None,
    ),
    (
        "a blank at the end",
        b"0 0 28 gray 1 1 255 8 3 7 21 64 \n",
        TWO_CODESTREAMS,
        Err(CheckFault::Line(0)),
        None,
    ),
    (
        "another kind",
        b"0 0 28 grey 1 1 255 8 3 7 21 64\n",
        TWO_CODESTREAMS,
        Err(CheckFault::Line(0)),
        None,
    ),
    (
        "a size that no codestream has",
        b"0 0 4294967296 gray 1 1 255 8 3 7 21 64\n",
        TWO_CODESTREAMS,
        Err(CheckFault::Line(0)),
        None,
    ),
    (
        "no line",
        b"x",
        TWO_CODESTREAMS,
        Err(CheckFault::Line(0)),
        None,
    ),
    (
        "a change before what is no line",
        b"0 0 28 gray 1 1 255 8 3 7 21 65\nx\n",
        TWO_CODESTREAMS,
        Err(CheckFault::Line(1)),
        Some((0, Damage::Changed)),
    ),
];

/// Checks the outcome of a case.
fn check_case<Rt: Threads + Abort + Sync>(
    rt: &Rt,
    alloc: Global,
    workers: u8,
    case: &Case,
    ample: bool,
) {
    let (name, index, recording, result, first) = *case;
    let sums = index == SUMS;
    let index = Pieces::new(index, 7, None);
    let recording = Pieces::new(recording, 5, None);
    let got = outcome_of(rt, alloc, workers, index, recording);
    let result = result.map(|(frames, damaged, more)| checked(frames, damaged, more));
    let first = first.map(|(place, damage)| found(place, damage, sums));
    check_outcome(rt, name, got, (result, first, 0, 0), ample);
}

fn check_cases<Rt: Threads + Abort + Sync>(rt: &Rt, alloc: Global, workers: u8, ample: bool) {
    for case in CASES {
        check_case(rt, alloc, workers, case, ample);
    }
}

#[test]
fn recordings_are_checked_with_ample_memory(rt: HostRuntime) {
    for workers in [0, 1, 2, 16] {
        check_cases(&rt, rt.alloc(), workers, true);
    }
}

#[test]
fn recordings_are_checked_or_memory_is_refused(rt: HostRuntime) {
    check_cases(&rt, rt.alloc(), 0, false);
}

#[test]
fn recordings_are_checked_by_several_or_memory_is_refused(rt: HostRuntime) {
    check_cases(&rt, rt.alloc(), 2, false);
}

/// Checks that a check stops if the read of this number of the index fails, with no worker or with two.
fn check_index_read<Rt: Threads + Abort + Sync>(rt: &Rt, alloc: Global, at: usize) {
    let index = Pieces::new(SUMS, 1, Some(at));
    let recording = Pieces::new(TWO_CODESTREAMS, 4096, None);
    let got = outcome_of(rt, alloc, 2 * (at % 2) as u8, index, recording);
    let want = (Err(CheckFault::IndexIo), None, 1, 0);
    check_outcome(rt, "a read of the index", got, want, true);
}

/// Checks that a check stops if the read of this number of the recording fails, with no worker or with two.
fn check_recording_read<Rt: Threads + Abort + Sync>(rt: &Rt, alloc: Global, at: usize) {
    let index = Pieces::new(SUMS, 4096, None);
    let recording = Pieces::new(TWO_CODESTREAMS, 1, Some(at));
    let got = outcome_of(rt, alloc, 2 * (at % 2) as u8, index, recording);
    let want = (Err(CheckFault::Io), None, 0, 1);
    check_outcome(rt, "a read of the recording", got, want, true);
}

#[test]
fn a_failed_read_of_the_index_ends_a_check_with_ample_memory(rt: HostRuntime) {
    for at in 0..SUMS.len() {
        check_index_read(&rt, rt.alloc(), at);
    }
}

#[test]
fn a_failed_read_of_the_recording_ends_a_check_with_ample_memory(rt: HostRuntime) {
    for at in 0..TWO_CODESTREAMS.len() {
        check_recording_read(&rt, rt.alloc(), at);
    }
}

/// Kinds of damage, and their texts.
const DAMAGE_TEXTS: &[(Damage, &str)] = &[
    (Damage::Truncated, "truncated"),
    (Damage::Changed, "changed"),
    (
        Damage::Fault(StreamFault::BadCode(0)),
        "bad code in component 0",
    ),
];

/// Faults of a check, and their texts.
const FAULT_TEXTS: &[(CheckFault, &str)] = &[
    (CheckFault::Line(3), "line 3: not of an index"),
    (CheckFault::Io, "read failed"),
    (CheckFault::IndexIo, "read failed"),
    (CheckFault::NoMemory, "no memory"),
    (CheckFault::TooMany, "too many frames"),
];

#[test]
fn damages_have_their_texts(rt: HostRuntime) {
    for (damage, text) in DAMAGE_TEXTS {
        check_text(&rt, *damage, text);
    }
}

#[test]
fn faults_have_their_texts(rt: HostRuntime) {
    for (fault, text) in FAULT_TEXTS {
        check_text(&rt, *fault, text);
    }
}
