use crate::pixels::pixel_order;
use crate::testing::check;
use ls_pieces::{Coded, Collector, Order};
use ls_queue::Job;
use std::alloc::Global;

/// The codestreams of two orders, coded in the wrong order and put in the right one. `None` if an allocation fails.
fn in_order(alloc: Global, first: Order, second: Order) -> Option<Vec<u8>> {
    let mut collector = Collector::new(alloc, 0, 4).ok()?;
    collector.book(first.clone().ok()?).ok()?;
    collector.book(second.clone().ok()?).ok()?;
    let later = Job {
        source: 0,
        number: 1,
        item: second,
    };
    let earlier = Job {
        source: 0,
        number: 0,
        item: first,
    };
    collector.accept(Coded::make(alloc, later).ok()?).ok()?;
    collector.accept(Coded::make(alloc, earlier).ok()?).ok()?;
    let mut bytes = Vec::new(alloc);
    for _ in 0..2 {
        bytes.extend_from_slice(collector.next()?.bytes()).ok()?;
    }
    Some(bytes)
}

#[test]
fn the_page_puts_two_codestreams_in_order_with_ample_memory(rt: HostRuntime) {
    check(&rt, "the codestreams", are_in_order(rt.alloc()), true);
}

/// The codestreams of a black pixel and of a white one.
const TWO_CODESTREAMS: &[u8] = b"\xff\xd8\
\xff\xf7\x00\x0b\x08\x00\x01\x00\x01\x01\x01\x11\x00\
\xff\xda\x00\x08\x01\x01\x00\x00\x00\x00\x80\xff\xd9\
\xff\xd8\
\xff\xf7\x00\x0b\x08\x00\x01\x00\x01\x01\x01\x11\x00\
\xff\xda\x00\x08\x01\x01\x00\x00\x00\x00\x40\xff\xd9";

/// Whether two pixels are put in order. `None` if an allocation fails.
fn are_in_order(alloc: Global) -> Option<bool> {
    let black = pixel_order(alloc, 0, 64)?;
    let white = pixel_order(alloc, 255, 64)?;
    let bytes = in_order(alloc, black, white)?;
    Some(bytes.as_slice() == TWO_CODESTREAMS)
}
