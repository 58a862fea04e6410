use crate::testing::{check_number, frame_of};
use ls_frame::Frame;
use ls_stream::{StreamFault, decode_frame, encode_frame};
use std::alloc::Global;

/// The frame that comes back from its codestream.
fn there_and_back(alloc: Global, frame: &Frame) -> Result<Frame, StreamFault> {
    let bytes = encode_frame(alloc, frame)?;
    let decoded = decode_frame(alloc, &bytes)?;
    Ok(decoded.frame)
}

#[test]
fn the_page_gives_a_frame_back_with_ample_memory(rt: HostRuntime) {
    let samples = [1, 2, 3, 255, 0, 9];
    let frame = frame_of(&rt, rt.alloc(), ls_frame::Kind::Color, 2, 1, 255, &samples);
    let frame = frame.expect(&rt, "memory for a frame");
    let back = there_and_back(rt.alloc(), &frame).expect(&rt, "memory for its codestream");
    check_number(&rt, "frames that are equal", u64::from(back == frame), 1);
}
