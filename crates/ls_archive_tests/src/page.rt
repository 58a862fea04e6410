use crate::testing::check_bytes;
use ls_archive::{IndexFault, write_index};
use ls_frame::Counted;
use std::alloc::Global;

/// The index of a recording, with sums.
fn index(alloc: Global, recording: &[u8]) -> Result<Vec<u8>, IndexFault> {
    let mut reader = recording;
    let mut writer = Counted::new(Vec::new(alloc));
    write_index(alloc, &mut reader, &mut writer, true)?;
    Ok(writer.into_inner())
}

#[test]
fn the_page_makes_an_index_with_ample_memory(rt: HostRuntime) {
    let recording = ls_testing::films::FIRST_CODESTREAM;
    let lines = index(rt.alloc(), recording).expect(&rt, "memory");
    check_bytes(
        &rt,
        "the index",
        &lines,
        b"0 0 28 gray 1 1 255 8 3 7 21 64 14c5eaab40e8fcaf165a37d64d027b1357eb15846597672e4e87ef4c04547aa1\n",
    );
}
