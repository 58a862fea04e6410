use crate::bits::testing::{
    Code, WORDS, Word, check, check_answer, check_bytes, check_few, check_left, check_run,
    source_of,
};
use ls_bits::CodeFault;
use std::alloc::{AllocError, Global};
use std::process::Abort;

/// Checks that the value of a word is taken.
fn check_word(rt: &impl Abort, word: &Word) {
    let (k, glimit, qbpp, v, bytes) = *word;
    let code = Code::new(rt, k, glimit, qbpp);
    check_answer(rt, code.take_first(bytes), Ok(v), bytes);
}

#[test]
fn words_are_taken(rt: HostRuntime) {
    for word in WORDS {
        check_word(&rt, word);
    }
}

/// k, glimit, qbpp, bytes from which no word is taken, and the fault.
type Row = (u32, u32, u32, &'static [u8], CodeFault);

const NO_WORDS: &[Row] = &[
    (2, 31, 8, &[0x00], CodeFault::OutOfBits),
    (2, 31, 8, &[], CodeFault::OutOfBits),
    (2, 31, 8, &[0x00, 0x00, 0x02], CodeFault::OutOfBits),
    (2, 31, 8, &[0x00; 4], CodeFault::NotCanonical),
    (2, 31, 8, &[0x00, 0x00, 0x02, 0x00], CodeFault::NotCanonical),
    (8, 32, 8, &[0x40], CodeFault::OutOfBits),
    (8, 32, 8, &[0x40, 0x40], CodeFault::NotCanonical),
];

#[test]
fn the_fault_is_named_if_no_word_is_taken(rt: HostRuntime) {
    for (k, glimit, qbpp, bytes, fault) in NO_WORDS {
        let code = Code::new(&rt, *k, *glimit, *qbpp);
        check_answer(&rt, code.take_first(bytes), Err(*fault), bytes);
    }
}

/// k, glimit, qbpp, a value, its word with four bytes 00 after it, and the number of bits left after the word.
type Short = (u32, u32, u32, u32, &'static [u8], u64);

const SHORT: &[Short] = &[
    (2, 31, 8, 17, &[0x0a, 0, 0, 0, 0], 33),
    (3, 12, 5, 7, &[0xf0, 0, 0, 0, 0], 36),
    (0, 64, 0, 1, &[0x40, 0, 0, 0, 0], 38),
    (1, 2, 0, 1, &[0xc0, 0, 0, 0, 0], 38),
    (5, 6, 4, 15, &[0xbc, 0, 0, 0, 0], 34),
    (5, 6, 4, 16, &[0xc0, 0, 0, 0, 0], 34),
    (8, 32, 8, 255, &[0xff, 0x40, 0, 0, 0, 0], 38),
];

/// Checks that a short word is taken, and how many bits are left after it.
fn check_short(rt: &impl Abort, short: &Short) {
    let (k, glimit, qbpp, v, bytes, left) = *short;
    let mut source = source_of(bytes);
    let code = Code::new(rt, k, glimit, qbpp);
    check_answer(rt, code.take(&mut source), Ok(v), bytes);
    check_left(rt, &source, left);
}

#[test]
fn a_short_word_leaves_what_follows_it(rt: HostRuntime) {
    for short in SHORT {
        check_short(&rt, short);
    }
}

#[test]
fn a_word_leaves_the_bits_after_it(rt: HostRuntime) {
    let code = Code::new(&rt, 2, 31, 8);
    let bytes = [0x0a];
    let mut source = source_of(&bytes);
    check_answer(&rt, code.take(&mut source), Ok(17), &bytes);
    check_left(&rt, &source, 1);
    check_answer(
        &rt,
        code.take(&mut source),
        Err(CodeFault::OutOfBits),
        &bytes,
    );
}

#[test]
fn an_escape_word_leaves_the_bits_after_it(rt: HostRuntime) {
    let bytes = [0x40, 0x00];
    let mut source = source_of(&bytes);
    check_answer(
        &rt,
        Code::new(&rt, 8, 32, 8).take(&mut source),
        Ok(256),
        &bytes,
    );
    check_left(&rt, &source, 6);
}

/// The number of bits taken, their value, and the number of bits left then.
const READS: [(u32, u32, u64); 4] = [(0, 0, 15), (8, 255, 7), (1, 1, 6), (1, 0, 5)];

#[test]
fn the_stuffed_bit_is_no_bit(rt: HostRuntime) {
    let bytes = [0xff, 0x40];
    let mut source = source_of(&bytes);
    check_left(&rt, &source, 15);
    for (count, value, left) in READS {
        check_answer(&rt, source.bits(count), Ok(value), &bytes);
        check_left(&rt, &source, left);
    }
    check_answer(&rt, source.bits(6), Err(CodeFault::OutOfBits), &bytes);
}

#[test]
fn bits_are_taken_one_by_one(rt: HostRuntime) {
    let bytes = [0xff, 0x40];
    let mut source = source_of(&bytes);
    check_answer(&rt, source.bits(8), Ok(255), &bytes);
    check_answer(&rt, source.bit(), Ok(1), &bytes);
    check_answer(&rt, source.bit(), Ok(0), &bytes);
    check_left(&rt, &source, 5);
}

#[test]
fn no_bytes_have_no_bit(rt: HostRuntime) {
    let mut source = source_of(&[]);
    check_left(&rt, &source, 0);
    check_answer(&rt, source.bits(0), Ok(0), &[]);
    check_answer(&rt, source.bit(), Err(CodeFault::OutOfBits), &[]);
}

/// k, the bound on a word's zeros, bytes, the value taken, and the number of bits left then.
type Few = (u32, u32, &'static [u8], Option<u32>, u64);

const FEW: &[Few] = &[
    (2, 5, &[0x0a, 0, 0, 0, 0, 0, 0, 0], Some(17), 57),
    (2, 4, &[0x0a, 0, 0, 0, 0, 0, 0, 0], None, 64),
    (0, 24, &[0, 0, 1, 0, 0, 0, 0, 0], Some(23), 40),
    (0, 23, &[0, 0, 1, 0, 0, 0, 0, 0], None, 64),
    (2, 5, &[0x0a, 0, 0, 0, 0, 0, 0], None, 56),
];

#[test]
fn a_word_of_few_zeros_is_taken_where_it_is_known_to_be_whole(rt: HostRuntime) {
    for (k, most, bytes, value, left) in FEW {
        check_few(&rt, *k, *most, bytes, *value, *left);
    }
}

/// The widths of a run's number after no ones, after one, and so on; bytes; the ones and the number found; and the
/// number of bits left then.
type Run = (&'static [u32], &'static [u8], Option<(u32, u32)>, u64);

const RUNS: &[Run] = &[
    (&[0], &[0, 0, 0, 0, 0, 0, 0, 0], Some((0, 0)), 63),
    (&[3, 0], &[0x50, 0, 0, 0, 0, 0, 0, 0], Some((0, 5)), 60),
    (
        &[3, 15],
        &[0x95, 0x55, 0x40, 0, 0, 0, 0, 0],
        Some((1, 0x2aaa)),
        47,
    ),
    (&[3, 15], &[0xc0, 0, 0, 0, 0, 0, 0, 0], None, 64),
    (
        &[0; 32],
        &[0xff, 0x7f, 0xff, 0x7f, 0x80, 0, 0, 0, 0],
        Some((31, 0)),
        38,
    ),
    (&[3], &[0x50, 0, 0, 0, 0, 0, 0], None, 56),
];

#[test]
fn a_run_is_found_where_it_has_a_width_and_is_known_to_be_whole(rt: HostRuntime) {
    for (widths, bytes, run, left) in RUNS {
        check_run(&rt, widths, bytes, *run, *left);
    }
}

/// These have more bits than are un-stuffed at once.
#[test]
fn bits_go_on_where_more_are_unstuffed(rt: HostRuntime) {
    let Ok(bytes) = pairs_of_ff(rt.alloc()) else {
        return;
    };
    let mut source = source_of(&bytes);
    for _ in 0..3000 {
        check_answer(&rt, source.bits(15), Ok(32767), &[]);
    }
    check_left(&rt, &source, 0);
}

/// FF and 7F, so 15 ones, 3000 times.
fn pairs_of_ff(alloc: Global) -> Result<Vec<u8>, AllocError> {
    let mut bytes = Vec::new(alloc);
    for _ in 0..3000 {
        bytes.extend_from_slice(&[0xff, 0x7f])?;
    }
    Ok(bytes)
}

#[test]
fn faults_say_what_they_are(rt: HostRuntime) {
    let (first, second) = (CodeFault::OutOfBits, CodeFault::NotCanonical);
    let Ok(text) = format!(in rt.alloc(); "{first}, {second}, {first:?}, {second:?}") else {
        return;
    };
    let want = b"out of bits, not canonical, OutOfBits, NotCanonical";
    check_bytes(&rt, text.as_bytes(), want);
    check(&rt, &[], &(first == second), &false);
}
