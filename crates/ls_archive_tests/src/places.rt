//! Looking for codestreams by what an index says of them.
use crate::testing::{BLACK, BROKEN_DATA, WHITE, check, joined};
use ls_archive::{CheckFault, Wanted, find_places, read_index};
use ls_frame::{Buffered, Counted, Feed};
use ls_testing::Pieces;
use std::alloc::{AllocError, Global};
use std::process::Abort;

/// The sums of `BLACK` and of `WHITE`, by `sha256sum`.
const BLACK_SUM: [u8; 32] = [
    0x14, 0xc5, 0xea, 0xab, 0x40, 0xe8, 0xfc, 0xaf, 0x16, 0x5a, 0x37, 0xd6, 0x4d, 0x02, 0x7b, 0x13,
    0x57, 0xeb, 0x15, 0x84, 0x65, 0x97, 0x67, 0x2e, 0x4e, 0x87, 0xef, 0x4c, 0x04, 0x54, 0x7a, 0xa1,
];

const WHITE_SUM: [u8; 32] = [
    0x0e, 0xfb, 0xec, 0x04, 0xd1, 0x40, 0x0b, 0x04, 0xec, 0xeb, 0x24, 0xa2, 0x45, 0xc1, 0x2e, 0x08,
    0x0c, 0x39, 0x16, 0xe4, 0xfa, 0x23, 0x79, 0xaf, 0x04, 0x82, 0x99, 0xd1, 0x2b, 0x0a, 0x09, 0x53,
];

/// Codestreams of 28 bytes, one after the other, with these sums.
fn wanted(rt: &impl Abort, alloc: Global, sums: &[[u8; 32]]) -> Vec<Wanted> {
    try_wanted(alloc, sums).expect(rt, "memory")
}

fn try_wanted(alloc: Global, sums: &[[u8; 32]]) -> Result<Vec<Wanted>, AllocError> {
    let mut wanted = Vec::new(alloc);
    for sum in sums {
        let place = (wanted.len() as u64).saturating_mul(28);
        wanted.push(Wanted {
            place,
            count: 28,
            sum: Some(*sum),
        })?;
    }
    Ok(wanted)
}

/// Checks that codestreams with these sums are found at these places of a recording, which is given in parts.
fn check_places(
    rt: &impl Abort,
    alloc: Global,
    case: &str,
    parts: &[&[u8]],
    sums: &[[u8; 32]],
    places: &[Option<u64>],
) {
    let recording = joined(rt, alloc, parts);
    let wanted = wanted(rt, alloc, sums);
    let mut reader = Buffered::new(alloc, recording.as_slice()).expect(rt, "memory");
    let found = find_places(alloc, &mut reader, &wanted, 0).expect(rt, "no fault");
    check(rt, case, &found.as_slice(), &places);
}

#[test]
fn codestreams_are_found_where_they_stand_with_ample_memory(rt: HostRuntime) {
    let alloc = rt.alloc();
    let two = [BLACK_SUM, WHITE_SUM];
    check_places(&rt, alloc, "nothing", &[], &two, &[None, None]);
    check_places(
        &rt,
        alloc,
        "at their places",
        &[BLACK, WHITE],
        &two,
        &[Some(0), Some(28)],
    );
    check_places(
        &rt,
        alloc,
        "after a byte",
        &[b"x", BLACK, WHITE],
        &two,
        &[Some(1), Some(29)],
    );
    check_places(
        &rt,
        alloc,
        "the other way round",
        &[WHITE, BLACK],
        &two,
        &[Some(28), Some(0)],
    );
    check_places(&rt, alloc, "one alone", &[WHITE], &two, &[None, Some(0)]);
    check_places(
        &rt,
        alloc,
        "another",
        &[BROKEN_DATA, BLACK],
        &two,
        &[Some(28), None],
    );
    check_places(
        &rt,
        alloc,
        "cut short",
        &[&BLACK[..20], WHITE],
        &two,
        &[None, Some(20)],
    );
    let equal = [BLACK_SUM, BLACK_SUM, BLACK_SUM];
    check_places(
        &rt,
        alloc,
        "equal ones",
        &[b"x", BLACK, BLACK],
        &equal,
        &[Some(1), Some(29), None],
    );
    check_places(
        &rt,
        alloc,
        "each at its place",
        &[BLACK, WHITE, BLACK],
        &equal,
        &[Some(0), None, Some(56)],
    );
}

/// Checks that a search stops if the read of this number fails.
fn check_read(rt: &impl Abort, alloc: Global, at: usize) {
    let reader = Counted::new(Pieces::new(BLACK, 1, Some(at)));
    let mut reader = Buffered::new(alloc, reader).expect(rt, "memory");
    let wanted = wanted(rt, alloc, &[BLACK_SUM]);
    let ended = find_places(alloc, &mut reader, &wanted, 0);
    let got = (ended.map(|_| ()), Feed::failures(reader.get_ref()));
    check(
        rt,
        "a read of the recording",
        &got,
        &(Err(CheckFault::Io), 1),
    );
}

#[test]
fn a_failed_read_ends_a_search_with_ample_memory(rt: HostRuntime) {
    for at in 0..BLACK.len() {
        check_read(&rt, rt.alloc(), at);
    }
}

const LINES: &[u8] = b"0 0 28 gray 1 1 255 8 3 7 21 64 \
14c5eaab40e8fcaf165a37d64d027b1357eb15846597672e4e87ef4c04547aa1\n\
1 28 28 gray 1 1 255 8 3 7 21 64 \
0efbec04d1400b04eceb24a245c12e080c3916e4fa2379af048299d12b0a0953\n";

/// Checks what an index says, or its fault.
fn check_index(rt: &impl Abort, alloc: Global, index: &[u8], want: Result<&[Wanted], CheckFault>) {
    let mut reader = index;
    let read = read_index(alloc, &mut reader);
    let got = read
        .as_ref()
        .map(|wanted| wanted.as_slice())
        .map_err(|fault| *fault);
    check(rt, "an index that is read", &got, &want);
}

#[test]
fn an_index_is_read_with_ample_memory(rt: HostRuntime) {
    let alloc = rt.alloc();
    let both = wanted(&rt, alloc, &[BLACK_SUM, WHITE_SUM]);
    check_index(&rt, alloc, LINES, Ok(&both));
    check_index(&rt, alloc, b"", Ok(&[]));
    check_index(
        &rt,
        alloc,
        &LINES[..LINES.len() - 1],
        Err(CheckFault::Line(1)),
    );
    check_index(&rt, alloc, &LINES[1..], Err(CheckFault::Line(0)));
}
