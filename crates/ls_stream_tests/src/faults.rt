use crate::testing::check_bytes;
use ls_frame::PresetFault;
use ls_stream::{StreamFault, What};
use std::alloc::Global;
use std::process::Abort;

/// Checks the fault's message.
fn check_text(rt: &impl Abort, alloc: Global, fault: StreamFault, text: &str) {
    let Ok(got) = format!(in alloc; "{fault}") else {
        return;
    };
    check_bytes(rt, text, got.as_bytes(), text.as_bytes());
}

const TEXTS: &[(StreamFault, &str)] = &[
    (StreamFault::Truncated, "truncated"),
    (StreamFault::NotSoi, "no SOI"),
    (StreamFault::BadSegment, "bad segment"),
    (
        StreamFault::BadPresets(PresetFault::MaxvalRange),
        "bad presets: maxval",
    ),
    (
        StreamFault::BadPresets(PresetFault::T2Range),
        "bad presets: T2",
    ),
    (
        StreamFault::BadPresets(PresetFault::ResetRange),
        "bad presets: RESET",
    ),
    (StreamFault::TooLarge, "too large"),
    (StreamFault::BadCode(2), "bad code in component 2"),
    (StreamFault::LeftoverBits(1), "leftover bits in component 1"),
    (StreamFault::NoMemory, "no memory"),
];

#[test]
fn faults_have_their_texts(rt: HostRuntime) {
    for (fault, text) in TEXTS {
        check_text(&rt, rt.alloc(), *fault, text);
    }
}

const UNSUPPORTED: &[(What, &str)] = &[
    (What::Marker(0xC0), "unsupported: marker c0"),
    (What::Marker(0x01), "unsupported: marker 01"),
    (What::Components(4), "unsupported: 4 components"),
    (What::HeightZero, "unsupported: height 0"),
    (What::Sampling, "unsupported: sampling"),
    (What::Mapping, "unsupported: mapping table"),
    (What::Near, "unsupported: near-lossless"),
    (What::Interleave, "unsupported: interleave"),
    (What::PointTransform, "unsupported: point transform"),
    (What::LseId(8), "unsupported: LSE 8"),
    (What::LseLate, "unsupported: LSE after a scan"),
    (What::ScanOrder, "unsupported: scan order"),
];

#[test]
fn what_is_unsupported_has_its_text(rt: HostRuntime) {
    for (what, text) in UNSUPPORTED {
        check_text(&rt, rt.alloc(), StreamFault::Unsupported(*what), text);
    }
}
