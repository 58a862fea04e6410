use crate::testing::{BLACK, BLACK_IMAGE, check, gap, joined};
use ls_salvage::{Gap, SalvageFault, salvage_bytes};
use std::alloc::Global;

/// The images of what is whole in a recording, and the gaps between them.
fn rescue(alloc: Global, recording: &[u8]) -> Result<(Vec<u8>, Vec<Gap>), SalvageFault> {
    let (images, gaps, salvaged) = salvage_bytes(alloc, recording);
    salvaged?;
    Ok((images, gaps))
}

#[test]
fn the_page_rescues_a_frame_with_ample_memory(rt: HostRuntime) {
    let recording = joined(&rt, rt.alloc(), &[b"junk", BLACK]);
    let (images, gaps) = rescue(rt.alloc(), &recording).expect(&rt, "memory");
    check(&rt, "the images", &images.as_slice(), &BLACK_IMAGE);
    let junk = gap(0, 0, 4, ls_stream::StreamFault::NotSoi);
    check(&rt, "the gap", &gaps.as_slice(), &[junk].as_slice());
}
