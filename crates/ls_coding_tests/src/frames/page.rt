use crate::frames::testing::{check, check_items};
use ls_frame::{Feed, NetpbmFault, Outlet, next_frame, write_frame};
use std::alloc::Global;

/// Writes the images of a film again, up to the first write that fails, and answers how many.
fn copy_film<R: Feed, W: Outlet>(
    alloc: Global,
    reader: &mut R,
    writer: &mut W,
) -> Result<u64, NetpbmFault> {
    for count in 0..u64::MAX {
        let Some(frame) = next_frame(alloc, reader)? else {
            return Ok(count);
        };
        if write_frame(writer, &frame).is_err() {
            return Ok(count);
        }
    }
    Ok(u64::MAX)
}

#[test]
fn the_page_copies_a_film_with_ample_memory(rt: HostRuntime) {
    let mut reader = FILM;
    let mut writer = ls_frame::Counted::new(Vec::new(rt.alloc()));
    let copied = copy_film(rt.alloc(), &mut reader, &mut writer);
    check(&rt, "images", 0, &copied, &Ok(2));
    check_items(&rt, "the copy", 0, &writer.into_inner(), FILM);
}

/// Two images of one pixel, the first gray, the second in colour.
const FILM: &[u8] = b"P5\n1 1\n255\n\x07P6\n1 1\n255\n\x01\x02\x03";
