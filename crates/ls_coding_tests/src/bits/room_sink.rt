use crate::bits::testing::{check, check_bytes};
use ls_bits::{RoomSink, SliceRoom};

#[test]
fn bits_go_after_the_bytes_that_were_there(rt: HostRuntime) {
    let Ok(mut bytes) = Vec::with_capacity(rt.alloc(), 5) else {
        return;
    };
    if bytes.push(0x07u8).is_err() {
        return;
    }
    let capacity = bytes.capacity();
    let mut sink = RoomSink::new(bytes);
    sink.put(255, 8);
    sink.put(0, 0);
    sink.put(1, 1);
    let filled = sink.finish();
    check_bytes(&rt, &filled, &[0x07, 0xff, 0x40]);
    // The memory is the same as before: nothing was allocated.
    check(&rt, &filled, &filled.capacity(), &capacity);
}

#[test]
fn bits_go_into_a_slice_and_leave_the_places_behind_them(rt: HostRuntime) {
    let mut places = [0x11u8; 4];
    let mut sink = RoomSink::new(SliceRoom::new(&mut places));
    sink.put(255, 8);
    sink.put(1, 1);
    let room = sink.finish();
    check(&rt, &[], &room.len, &2);
    check_bytes(&rt, &places, &[0xff, 0x40, 0x11, 0x11]);
}
