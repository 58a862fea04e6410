//! Orders of single pixels, and their coded frames.
use ls_frame::{Frame, Kind, Presets};
use ls_pieces::{Coded, Order};
use ls_queue::Job;
use std::alloc::Global;
use std::sync::Arc;

/// An order for a gray pixel of this sample, up to 255, with the default thresholds and this RESET. `None` if an
/// allocation fails.
pub fn pixel_order(alloc: Global, sample: u16, reset: u16) -> Option<Order> {
    let mut samples = Vec::new(alloc);
    samples.push(sample).ok()?;
    let Ok(frame) = Frame::new(Kind::Gray, 1, 1, 255, samples) else {
        return None;
    };
    let Ok(presets) = Presets::explicit(255, 3, 7, 21, reset) else {
        return None;
    };
    let Ok(frame) = Arc::new(alloc, frame) else {
        return None;
    };
    Some(Order::new(frame, presets))
}

/// The coded frame of such an order, with this source and number. `None` if an allocation fails.
pub fn pixel_piece(
    alloc: Global,
    source: u8,
    number: u64,
    sample: u16,
    reset: u16,
) -> Option<Coded> {
    let item = pixel_order(alloc, sample, reset)?;
    let job = Job {
        source,
        number,
        item,
    };
    Coded::make(alloc, job).ok()
}
