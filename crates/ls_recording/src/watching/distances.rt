//! How far apart in time the frames of a film were read.
use std::alloc::{AllocError, Global};
use std::sync::atomic::{AtomicU64, Ordering};

/// Distances are counted by classes of an eighth of their size at most: of the numbers between two powers of two from 8
/// on there are so many, and each number below 16 has its own. A distance of twice the size is so many classes higher.
const CLASSES_TO_DOUBLE: usize = 8;

/// The number of classes of the numbers below 2^64.
const CLASSES: usize = 62 * CLASSES_TO_DOUBLE;

/// The numbers of distances of each size, in nanoseconds.
#[derive(Drop)]
pub struct Distances {
    counts: Vec<AtomicU64>,
}

impl Distances {
    /// None yet.
    pub fn new(alloc: Global) -> Result<Distances, AllocError> {
        let mut counts = Vec::new(alloc);
        for _class in 0..CLASSES {
            counts.push(AtomicU64::new(0))?;
        }
        Ok(Distances { counts })
    }

    /// Counts a distance.
    pub fn add(&self, distance: u64) {
        if let Some(count) = self.counts.get(class_of(distance)) {
            count.fetch_add(1, Ordering::SeqCst);
        }
    }

    /// The number of distances over twice their median: of those whose class is more than twice as high as that of the
    /// median, which is the lower one of two.
    pub fn late(&self) -> u64 {
        let half = self.sum_from(0).div_ceil(2);
        let mut below: u64 = 0;
        for (class, count) in self.counts.iter().enumerate() {
            below = below.saturating_add(count.load(Ordering::SeqCst));
            if below >= half {
                return self.sum_from(class.saturating_add(CLASSES_TO_DOUBLE + 1));
            }
        }
        0
    }

    /// The number of distances from a class on.
    fn sum_from(&self, class: usize) -> u64 {
        let mut sum: u64 = 0;
        for count in self.counts.iter().skip(class) {
            sum = sum.saturating_add(count.load(Ordering::SeqCst));
        }
        sum
    }
}

/// The class of a distance.
fn class_of(distance: u64) -> usize {
    let size = 63_u32.saturating_sub((distance | 8).leading_zeros());
    let shift = size.saturating_sub(3);
    let eighths = distance.checked_shr(shift).unwrap_or(0) as usize;
    (shift as usize)
        .saturating_mul(CLASSES_TO_DOUBLE)
        .saturating_add(eighths)
}
