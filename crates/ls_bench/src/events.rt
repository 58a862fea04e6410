//! A table of events like those of a coder of 8-bit samples: values of eight contexts, each with its Golomb parameter.
//! It is the same in each run.
ghost use Rattle.std.specs.Prelude.{◌<◌, ◌≤◌};

use std::alloc::{AllocError, Global};

/// The default number of events in a table.
pub const USUAL_COUNT: u32 = 1 << 20;

/// The greatest value: an error of 8 bits, mapped.
pub const MOST_VALUE: u16 = 256;

/// The greatest Golomb parameter that a context here can have.
const MOST_K: u8 = 8;

/// The number of errors after which a context's counters are halved.
const RESET: u32 = 64;

/// For each context, the ratio, times 65536, of the geometric distribution of its values: means of about 1/2, 1, 3, 6,
/// 12, 24, 48 and 96.
const GOES_ON: [u64; 8] = [21845, 32768, 49152, 56174, 60495, 62915, 64199, 64860];

/// A value to be coded, and the Golomb parameter to code it with.
#[derive(Clone, Copy)]
pub struct Event {
    pub k: u8,
    pub value: u16,
    ghost small_k: { k ≤ 8 },
    ghost in_range: { value ≤ 256 },
}

/// The generator splitmix64.
#[derive(Drop)]
struct Random {
    state: u64,
}

impl Random {
    fn next(&mut self) -> u64 {
        self.state = self.state.wrapping_add(0x9e37_79b9_7f4a_7c15);
        let first = (self.state ^ (self.state >> 30)).wrapping_mul(0xbf58_476d_1ce4_e5b9);
        let second = (first ^ (first >> 27)).wrapping_mul(0x94d0_49bb_1331_11eb);
        second ^ (second >> 31)
    }
}

/// The counters of a context: the sum of its errors' magnitudes, and their number.
#[derive(Clone, Copy)]
struct Counters {
    sum: u32,
    count: u32,
}

impl Counters {
    const START: Counters = Counters { sum: 4, count: 1 };

    /// Returns the least k with count * 2^k at least the sum (T.87 A.5.1); 8 if no smaller k has that.
    fn k(&self) -> u8
        ensures { result ≤ 8 }
    {
        for k in 0..MOST_K {
            if self.count << k >= self.sum {
                return k;
            }
        }
        MOST_K
    }

    /// Returns the counters after one more error, which is mapped to this value.
    fn after(&self, value: u16) -> Counters {
        let sum = self.sum.saturating_add((u32::from(value) + 1) / 2);
        if self.count >= RESET {
            Counters {
                sum: sum / 2,
                count: RESET / 2 + 1,
            }
        } else {
            Counters {
                sum,
                count: self.count + 1,
            }
        }
    }
}

/// Makes the table of `count` events.
pub fn table(alloc: Global, count: usize) -> Result<Vec<Event>, AllocError> {
    let mut random = Random {
        state: 0x6a6c_7372_6563,
    };
    let mut contexts = [Counters::START; 8];
    let mut events = Vec::with_capacity(alloc, count)?;
    for _ in 0..count {
        let draw = random.next();
        let context = (draw % 8) as usize;
        let value = value_at(draw >> 32, GOES_ON[context]);
        let k = contexts[context].k();
        events.push(Event { k, value })?;
        contexts[context] = contexts[context].after(value);
    }
    Ok(events)
}

/// Returns the value at this place, of 2^32, in a geometric distribution.
fn value_at(place: u64, goes_on: u64) -> u16
    requires { goes_on < 65536 }
    ensures { result ≤ 256 }
{
    // The share of the values, of 2^32, that are greater.
    let mut tail = goes_on << 16;
    for value in 0..MOST_VALUE {
        if place >= tail {
            return value;
        }
        tail = tail.wrapping_mul(goes_on) >> 16;
    }
    MOST_VALUE
}
