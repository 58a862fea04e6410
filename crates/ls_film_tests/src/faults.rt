use crate::testing::{check, check_text};
use ls_film::FilmFault;
use ls_film::engine::Stopped;
use ls_frame::{NetpbmFault, WriteFault};
use std::process::Abort;

/// The faults of a frame, except a failed allocation, and their texts.
const INPUT_FAULTS: &[(NetpbmFault, &str)] = &[
    (NetpbmFault::BadMagic, "frame 3: bad magic"),
    (NetpbmFault::BadHeader, "frame 3: bad header"),
    (NetpbmFault::HeaderTooLong, "frame 3: header too long"),
    (NetpbmFault::SizeOutOfRange, "frame 3: size out of range"),
    (
        NetpbmFault::MaxvalOutOfRange,
        "frame 3: maxval out of range",
    ),
    (NetpbmFault::SampleTooLarge, "frame 3: sample too large"),
    (NetpbmFault::Truncated, "frame 3: truncated"),
    (NetpbmFault::Io, "frame 3: read failed"),
];

/// Checks that a fault is this one, and has this text.
fn check_fault(rt: &impl Abort, got: FilmFault, want: FilmFault, text: &str) {
    check(rt, text, &got, &want);
    check_text(rt, got, text);
}

#[test]
fn faults_of_frames_have_their_numbers_and_texts(rt: HostRuntime) {
    for (fault, text) in INPUT_FAULTS {
        let got = FilmFault::of(Stopped::Input(3, *fault));
        check_fault(&rt, got, FilmFault::Input(3, *fault), text);
    }
}

#[test]
fn other_faults_have_their_texts(rt: HostRuntime) {
    let refused = FilmFault::of(Stopped::Input(3, NetpbmFault::NoMemory));
    check_fault(&rt, refused, FilmFault::NoMemory, "no memory");
    let output = FilmFault::Output(7);
    check_fault(&rt, output, output, "output failed after 7 bytes");
    check_fault(
        &rt,
        FilmFault::TooMany,
        FilmFault::TooMany,
        "too many frames",
    );
}
