use crate::frames::testing::{check, check_samples, form_of};
use ls_frame::{FrameFault, FrameView, Kind, Sample, Samples};
use std::process::Abort;

/// A maxval, a row of bytes, and the fault if they don't make a view of one row.
type Row<'a> = (u16, &'a [u8], Option<FrameFault>);

const ROWS: &[Row<'static>] = &[
    (255, &[0, 255], None),
    (256, &[0, 255], None),
    (254, &[255, 0], Some(FrameFault::SampleTooLarge(0))),
    (7, &[7, 6, 8, 9], Some(FrameFault::SampleTooLarge(2))),
    (1, &[1, 0, 1], None),
    (0, &[0], Some(FrameFault::ZeroMaxval)),
];

/// Checks that a row of bytes makes a view of these bytes, or has its fault.
fn check_row(rt: &impl Abort, i: usize, row: &Row<'_>) {
    let (maxval, bytes, want) = *row;
    let width = u16::try_from(bytes.len()).unwrap_or(0);
    let form = form_of(&(Kind::Gray, width, 1, maxval, &[]));
    let made = FrameView::new(form, Samples::Bytes(bytes));
    if let Ok(view) = &made {
        let want = Samples::Bytes(bytes);
        check_samples(rt, "the bytes of a view", i, view.samples(), want);
    }
    check(rt, "the fault", i, &made.err(), &want);
}

#[test]
fn a_view_is_made_of_bytes_too(rt: HostRuntime) {
    for (i, row) in ROWS.iter().enumerate() {
        check_row(&rt, i, row);
    }
}

const BYTES: [u8; 5] = [1, 2, 3, 4, 5];

const WORDS: [u16; 5] = [100, 200, 300, 400, 500];

/// A start, a count, and the samples of that part of `BYTES` and of `WORDS`.
const PARTS: &[(u8, u8, &[u8], &[u16])] = &[
    (0, 5, &[1, 2, 3, 4, 5], &[100, 200, 300, 400, 500]),
    (1, 3, &[2, 3, 4], &[200, 300, 400]),
    (4, 1, &[5], &[500]),
    (5, 0, &[], &[]),
];

fn check_part(
    rt: &impl Abort,
    i: usize,
    all: Samples<'_>,
    start: u8,
    count: u8,
    want: Samples<'_>,
) {
    check(rt, "how many there are in all", i, &all.len(), &5);
    let (start, count) = (usize::from(start), usize::from(count));
    assert!(rt; start + count <= all.len());
    check_samples(rt, "a part", i, all.part(start, count), want);
}

#[test]
fn a_part_has_its_samples(rt: HostRuntime) {
    for (i, (start, count, bytes, words)) in PARTS.iter().enumerate() {
        check_part(
            &rt,
            i,
            Samples::Bytes(&BYTES),
            *start,
            *count,
            Samples::Bytes(bytes),
        );
        check_part(
            &rt,
            i,
            Samples::Words(&WORDS),
            *start,
            *count,
            Samples::Words(words),
        );
    }
}

#[test]
fn places_take_samples_up_to_their_greatest(rt: HostRuntime) {
    let mut bytes = [7u8; 3];
    u8::put(&mut bytes, 1, 255);
    let put = bytes;
    u8::clear(&mut bytes);
    check(
        &rt,
        "bytes put and cleared",
        0,
        &[put, bytes],
        &[[7, 255, 7], [0, 0, 0]],
    );
    let mut words = [7u16; 3];
    u16::put(&mut words, 2, 65535);
    let put = words;
    u16::clear(&mut words);
    check(
        &rt,
        "words put and cleared",
        1,
        &[put, words],
        &[[7, 7, 65535], [0, 0, 0]],
    );
}
