//! The frames shown of recordings with damage of each kind, and the gaps that are reported.
use crate::testing::{BLACK, BLACK_IMAGE, Outcome, WHITE, WHITE_IMAGE, check, ended, gap, joined};
use ls_salvage::{Gap, salvage_bytes};
use ls_stream::{StreamFault, What};
use std::alloc::Global;
use std::process::Abort;

/// A recording: its bytes in parts, the images of the frames that are shown, and the gaps.
#[derive(Drop)]
struct Case {
    name: &'static str,
    parts: [&'static [u8]; 4],
    images: [&'static [u8]; 3],
    frames: u64,
    gaps: &'static [Gap],
}

const NONE: &[u8] = b"";

/// A black sample, after an APP0 segment that holds the white one's codestream.
const HOLDING: &[u8] = b"\xff\xd8\xff\xe0\x00\x1e\
\xff\xd8\
\xff\xf7\x00\x0b\x08\x00\x01\x00\x01\x01\x01\x11\x00\
\xff\xda\x00\x08\x01\x01\x00\x00\x00\x00\x40\xff\xd9\
\xff\xf7\x00\x0b\x08\x00\x01\x00\x01\x01\x01\x11\x00\
\xff\xda\x00\x08\x01\x01\x00\x00\x00\x00\x80\xff\xd9";

/// The same without the last byte.
const HOLDING_CUT: &[u8] = b"\xff\xd8\xff\xe0\x00\x1e\
\xff\xd8\
\xff\xf7\x00\x0b\x08\x00\x01\x00\x01\x01\x01\x11\x00\
\xff\xda\x00\x08\x01\x01\x00\x00\x00\x00\x40\xff\xd9\
\xff\xf7\x00\x0b\x08\x00\x01\x00\x01\x01\x01\x11\x00\
\xff\xda\x00\x08\x01\x01\x00\x00\x00\x00\x80\xff";

const CASES: &[Case] = &[
    Case {
        name: "nothing",
        parts: [NONE, NONE, NONE, NONE],
        images: [NONE, NONE, NONE],
        frames: 0,
        gaps: &[],
    },
    Case {
        name: "no damage",
        parts: [BLACK, WHITE, BLACK, NONE],
        images: [BLACK_IMAGE, WHITE_IMAGE, BLACK_IMAGE],
        frames: 3,
        gaps: &[],
    },
    Case {
        name: "other bytes in front",
        parts: [b"junk", BLACK, WHITE, NONE],
        images: [BLACK_IMAGE, WHITE_IMAGE, NONE],
        frames: 2,
        gaps: &[Gap {
            frame: 0,
            place: 0,
            count: 4,
            fault: StreamFault::NotSoi,
        }],
    },
    Case {
        name: "other bytes between",
        parts: [BLACK, b"\x00\xff\xd8", WHITE, NONE],
        images: [BLACK_IMAGE, WHITE_IMAGE, NONE],
        frames: 2,
        gaps: &[Gap {
            frame: 1,
            place: 28,
            count: 3,
            fault: StreamFault::NotSoi,
        }],
    },
    Case {
        name: "other bytes at the end",
        parts: [BLACK, WHITE, b"\xff", NONE],
        images: [BLACK_IMAGE, WHITE_IMAGE, NONE],
        frames: 2,
        gaps: &[Gap {
            frame: 2,
            place: 56,
            count: 1,
            fault: StreamFault::Truncated,
        }],
    },
    Case {
        name: "other bytes alone",
        parts: [b"\xff\xff\xd8\xff", NONE, NONE, NONE],
        images: [NONE, NONE, NONE],
        frames: 0,
        gaps: &[Gap {
            frame: 0,
            place: 0,
            count: 4,
            fault: StreamFault::NotSoi,
        }],
    },
    Case {
        name: "a codestream that ends in its scan header",
        parts: [
            b"\xff\xd8\xff\xf7\x00\x0b\x08\x00\x01\x00\x01\x01\x01\x11\x00\xff\xda\x00\x08\x01",
            WHITE,
            BLACK,
            NONE,
        ],
        images: [WHITE_IMAGE, BLACK_IMAGE, NONE],
        frames: 2,
        gaps: &[Gap {
            frame: 0,
            place: 0,
            count: 20,
            fault: StreamFault::Unsupported(What::ScanOrder),
        }],
    },
    Case {
        name: "a codestream without its end",
        parts: [
            WHITE,
            b"\xff\xd8\xff\xf7\x00\x0b\x08\x00\x01\x00\x01\x01\x01\x11\x00\
\xff\xda\x00\x08\x01\x01\x00\x00\x00\x00\x80",
            WHITE,
            NONE,
        ],
        images: [WHITE_IMAGE, WHITE_IMAGE, NONE],
        frames: 2,
        gaps: &[Gap {
            frame: 1,
            place: 28,
            count: 26,
            fault: StreamFault::Unsupported(What::Marker(0xd8)),
        }],
    },
    Case {
        name: "a codestream that the input ends",
        parts: [BLACK, b"\xff\xd8\xff\xf7\x00", NONE, NONE],
        images: [BLACK_IMAGE, NONE, NONE],
        frames: 1,
        gaps: &[Gap {
            frame: 1,
            place: 28,
            count: 5,
            fault: StreamFault::Truncated,
        }],
    },
    Case {
        name: "starts that no codestream follows",
        parts: [
            b"\xff\xd8\xff\xf7\x00\x00",
            b"\xff\xd8\xff\xd8\xff\xfe\x00\x01",
            BLACK,
            NONE,
        ],
        images: [BLACK_IMAGE, NONE, NONE],
        frames: 1,
        gaps: &[
            Gap {
                frame: 0,
                place: 0,
                count: 8,
                fault: StreamFault::BadSegment,
            },
            Gap {
                frame: 0,
                place: 8,
                count: 6,
                fault: StreamFault::BadSegment,
            },
        ],
    },
    Case {
        name: "a start in an APP segment of a whole codestream",
        parts: [WHITE, HOLDING, WHITE, NONE],
        images: [WHITE_IMAGE, BLACK_IMAGE, WHITE_IMAGE],
        frames: 3,
        gaps: &[],
    },
    Case {
        name: "a codestream in an APP segment of one that is cut",
        parts: [HOLDING_CUT, BLACK, NONE, NONE],
        images: [WHITE_IMAGE, BLACK_IMAGE, NONE],
        frames: 2,
        gaps: &[
            Gap {
                frame: 0,
                place: 0,
                count: 6,
                fault: StreamFault::Unsupported(What::Marker(0xd8)),
            },
            Gap {
                frame: 1,
                place: 34,
                count: 25,
                fault: StreamFault::NotSoi,
            },
        ],
    },
    Case {
        name: "damage on both sides of a frame",
        parts: [b"\x00", BLACK, b"\xff\xd8\xff", b"\xff"],
        images: [BLACK_IMAGE, NONE, NONE],
        frames: 1,
        gaps: &[
            Gap {
                frame: 0,
                place: 0,
                count: 1,
                fault: StreamFault::NotSoi,
            },
            Gap {
                frame: 1,
                place: 29,
                count: 4,
                fault: StreamFault::Truncated,
            },
        ],
    },
];

/// Checks the salvage of a recording.
fn check_salvaged(rt: &impl Abort, alloc: Global, name: &str, recording: &[u8], want: Outcome<'_>) {
    let (shown, gaps, salvaged) = salvage_bytes(alloc, recording);
    let got = (salvaged, shown.as_slice(), gaps.as_slice());
    check(rt, name, &got, &want);
}

fn check_case(rt: &impl Abort, alloc: Global, case: &Case) {
    let recording = joined(rt, alloc, &case.parts);
    let images = joined(rt, alloc, &case.images);
    let count = ended(case.frames, case.gaps.len() as u64);
    let want = (count, images.as_slice(), case.gaps);
    check_salvaged(rt, alloc, case.name, &recording, want);
}

#[test]
fn what_is_whole_is_shown_with_ample_memory(rt: HostRuntime) {
    for case in CASES {
        check_case(&rt, rt.alloc(), case);
    }
}

/// Whether the images that the salvage of a recording shows begin with `first` and end with `last`, without overlap.
fn shows(alloc: Global, recording: &[u8], first: &[u8], last: &[u8]) -> bool {
    let (shown, _gaps, salvaged) = salvage_bytes(alloc, recording);
    salvaged.is_ok()
        && shown.len() >= first.len() + last.len()
        && shown.starts_with(first)
        && shown.ends_with(last)
}

/// Flips the bits of a mask in the byte at a place.
fn change(bytes: &mut [u8], place: usize, mask: u8) {
    if let Some(byte) = bytes.get_mut(place) {
        *byte ^= mask;
    }
}

/// The masks of bits to flip in a byte.
const MASKS: &[u8] = &[0xff, 0x01, 0x10, 0x80];

/// Checks that, with the byte at a place changed by each of the masks, the images still begin and end so.
fn check_changed(
    rt: &impl Abort,
    alloc: Global,
    recording: &mut [u8],
    place: usize,
    first: &[u8],
    last: &[u8],
) {
    for mask in MASKS {
        change(recording, place, *mask);
        let shown = shows(alloc, recording, first, last);
        check(rt, "a byte changed", &shown, &true);
        change(recording, place, *mask);
    }
}

#[test]
fn a_byte_changed_costs_no_other_frame_with_ample_memory(rt: HostRuntime) {
    let mut recording = joined(&rt, rt.alloc(), &[BLACK, WHITE, BLACK]);
    let others = joined(&rt, rt.alloc(), &[WHITE_IMAGE, BLACK_IMAGE]);
    // Damage in the first codestream costs the second and the third nothing.
    for place in 0..BLACK.len() {
        check_changed(&rt, rt.alloc(), &mut recording, place, NONE, &others);
    }
    // Damage in the second costs the first and the third nothing.
    for place in BLACK.len()..56 {
        let (first, last) = (BLACK_IMAGE, BLACK_IMAGE);
        check_changed(&rt, rt.alloc(), &mut recording, place, first, last);
    }
}

/// Two codestreams, with a byte 70,000 times between them.
fn with_long_gap(rt: &impl Abort, alloc: Global, byte: u8) -> Vec<u8> {
    let junk = vec![in alloc; byte; 70_000].expect(rt, "memory");
    joined(rt, alloc, &[BLACK, &junk, WHITE])
}

fn check_long_gap(rt: &impl Abort, alloc: Global, byte: u8) {
    let recording = with_long_gap(rt, alloc, byte);
    let images = joined(rt, alloc, &[BLACK_IMAGE, WHITE_IMAGE]);
    let gaps = [gap(1, 28, 70_000, StreamFault::NotSoi)];
    let want = (ended(2, 1), images.as_slice(), gaps.as_slice());
    check_salvaged(rt, alloc, "a long gap", &recording, want);
}

#[test]
fn long_gaps_are_passed_over_with_ample_memory(rt: HostRuntime) {
    for byte in [0x00, 0xff] {
        check_long_gap(&rt, rt.alloc(), byte);
    }
}
