use crate::testing::check_text;
use ls_archive::{IndexFault, VerifyFault};
use ls_frame::{NetpbmFault, PresetFault};
use ls_stream::{StreamFault, What};

/// Faults of an index, and their texts.
const INDEX_TEXTS: &[(IndexFault, &str)] = &[
    (
        IndexFault::Stream(3, StreamFault::Truncated),
        "frame 3: truncated",
    ),
    (
        IndexFault::Stream(0, StreamFault::NotSoi),
        "frame 0: no SOI",
    ),
    (
        IndexFault::Stream(3, StreamFault::BadSegment),
        "frame 3: bad segment",
    ),
    (
        IndexFault::Stream(3, StreamFault::Unsupported(What::Marker(0xc0))),
        "frame 3: unsupported: marker c0",
    ),
    (
        IndexFault::Stream(3, StreamFault::BadPresets(PresetFault::T1Range)),
        "frame 3: bad presets: T1",
    ),
    (
        IndexFault::Stream(3, StreamFault::TooLarge),
        "frame 3: too large",
    ),
    (IndexFault::Io(3), "read failed"),
    (IndexFault::Output(7), "output failed after 7 bytes"),
    (IndexFault::NoMemory, "no memory"),
    (IndexFault::TooMany, "too many frames"),
];

/// Faults of a comparison, and their texts.
const VERIFY_TEXTS: &[(VerifyFault, &str)] = &[
    (
        VerifyFault::Film(3, NetpbmFault::Truncated),
        "frame 3: truncated",
    ),
    (
        VerifyFault::Film(0, NetpbmFault::Io),
        "frame 0: read failed",
    ),
    (
        VerifyFault::Recording(3, StreamFault::BadCode(2)),
        "frame 3: bad code in component 2",
    ),
    (VerifyFault::RecordingIo(3), "read failed"),
    (VerifyFault::NoMemory, "no memory"),
    (VerifyFault::TooMany, "too many frames"),
];

#[test]
fn faults_of_an_index_have_their_texts(rt: HostRuntime) {
    for (fault, text) in INDEX_TEXTS {
        check_text(&rt, *fault, text);
    }
}

#[test]
fn faults_of_a_comparison_have_their_texts(rt: HostRuntime) {
    for (fault, text) in VERIFY_TEXTS {
        check_text(&rt, *fault, text);
    }
}
