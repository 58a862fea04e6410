//! A source of the bits of stuffed bytes, which un-stuffs up to 2 KiB ahead of where it is read.
ghost use Rattle.std.specs.Prelude.{◌≡◌, ◌+◌, ◌-◌, ◌*◌, ◌/◌, ◌^◌, ◌<◌, ◌≤◌, ◌⊎◌, [], ◌∷◌, ◌++◌, ℕ, Bool, List, true, false, length, slice_index, replicate, take, drop, min, IfOk, IfErr, IfSome, IfNone, MatchResult, Ok, Err};
ghost use Rattle.ls_bits.specs.Bits.{bits_of, zeros as zero_bits, BeginsWith};
ghost use Rattle.ls_bits.specs.Stuffing.{unstuff};
ghost use Rattle.ls_bits.specs.Data.{IsData};
ghost use Rattle.ls_bits.specs.Golomb.{IsGolomb, most_value, short_word, TakesWord, GolombFault};
ghost use Rattle.ls_bits.specs.View.Plain.{bits_in, bits_at, IsAt};
ghost use Rattle.ls_bits.specs.View.Taking.{ZerosFault};

use crate::plain::{front_of, move_to_front, put_eight, put_four};
use crate::stuffed::{Stuffed, joined, leading_ones, leading_zeros, low_bits, short_value};
use std::marker::Model;
use thiserror::Error;

/// The most bits that are un-stuffed ahead. The buffer has eight bytes more, so that eight can be read at each place.
const MOST: usize = 16384;

/// The number of bits seen at once: those of eight bytes, less up to seven before the place.
const SEEN: usize = 57;

/// Why bits can't be read. After a fault the place of a `BitSource` is unspecified.
#[derive(Clone, Copy, Debug, Drop, PartialEq, Eq, Error)]
pub enum CodeFault {
    /// Fewer bits are left than were asked for, or than the code word has.
    #[error("out of bits")]
    OutOfBits,
    /// The bits left begin with no word of the code, whatever followed them.
    #[error("not canonical")]
    NotCanonical,
}

/// A place among the bits that a source has un-stuffed.
#[derive(Clone, Copy)]
pub struct BitPlace {
    /// The number of bits before it in the source's buffer.
    place: usize,
}

/// The bits of a run that a sample interrupts (T.87 A.7.1.2): ones, a 0, and a number.
#[derive(Clone, Copy)]
pub struct InterruptedRun {
    /// The number of bits 1 that come first.
    pub ones: u32,
    /// The number after the 0.
    pub rest: u32,
    /// The place after that number.
    pub after: BitPlace,
}

/// The bits that haven't been read from stuffed bytes yet.
#[derive(Drop)]
pub struct BitSource<'a> {
    bytes: [u8; 2056],
    /// The place of the next bit in `bytes`, and the end of the un-stuffed bits there.
    place: usize,
    end: usize,
    stuffed: Stuffed<'a>,
}

impl<'a> Model for BitSource<'a> {
    ghost use Rattle.ls_bits.specs.View.Plain.{Placed, IsAhead};

    ghost Value = { Placed };

    ghost view = { λ s. record {
      ahead = record { bytes = s.bytes; bits = s.stuffed.bits };
      place = s.place;
      end = s.end;
    } };

    ghost invariant = { λ s. IsAhead (record { bytes = s.bytes; bits = s.stuffed.bits }) s.place s.end };
}

impl<'a> BitSource<'a> {
    /// A source of the bits of stuffed bytes (T.87 C.1): all bits of each byte, except the top bit of one after FF.
    ///
    /// Requires data, as `data_of` cuts it: no FF is followed by a byte of 0x80 or more, and the last byte isn't FF.
    /// Allocates nothing.
    pub fn new(bytes: &'a [u8]) -> BitSource<'a>
        requires { IsData bytes.now }
        ensures { bits_in result ≡ unstuff bytes.now }
    {
        BitSource {
            bytes: [0; 2056],
            place: 0,
            end: 0,
            stuffed: Stuffed::new(bytes),
        }
    }

    /// Takes the next bit, 0 or 1. OutOfBits exactly if none is left.
    pub fn bit(&mut self) -> Result<u32, CodeFault>
        ensures ok { IfOk result (λ value. bits_in self.old ≡ bits_of 1 value ++ bits_in self.new) }
        ensures value { IfOk result (λ value. value < 2) }
        ensures fault { IfErr result (λ fault. (fault ≡ CodeFault.OutOfBits) × (bits_in self.old ≡ [])) }
    {
        self.bits(1)
    }

    /// Takes the next `count` bits, at most 32, as a number, the most significant bit first. OutOfBits exactly if fewer
    /// are left.
    pub fn bits(&mut self, count: u32) -> Result<u32, CodeFault>
        requires { count ≤ 32 }
        ensures ok { IfOk result (λ value. bits_in self.old ≡ bits_of count value ++ bits_in self.new) }
        ensures value { IfOk result (λ value. value < 2 ^ count) }
        ensures fault { IfErr result (λ fault. (fault ≡ CodeFault.OutOfBits) × (length (bits_in self.old) < count)) }
    {
        self.refill();
        if self.held() < count as usize {
            return Err(CodeFault::OutOfBits);
        }
        let value = low_bits(self.front() >> 32 >> (32 - count), count);
        self.skip(count);
        Ok(value)
    }

    /// The number of bits left, not counting the zeros that stuffing inserted, or 2^64 - 1 if there are more. Goes over
    /// all bytes that are left.
    pub fn left(&self) -> u64
        ensures { result ≡ min (length (bits_in self.now)) u64.MAX }
    {
        (self.held() as u64).saturating_add(self.stuffed.left())
    }

    /// Takes the next code word, of the code LG(k, glimit) of T.87 A.5.3, and returns its value, at most 2^qbpp.
    ///
    /// `qbpp` is at most 16, `k` at most qbpp + 1, and `glimit` from qbpp + 2 to 64. NotCanonical if the bits left
    /// can't begin with a word of the code, whatever followed them: they begin with too many zeros, with the escape
    /// word of a value that has a short word, or with a short word of a value over 2^qbpp. Else OutOfBits if they don't
    /// begin with a complete word.
    pub fn take_golomb(&mut self, k: u32, glimit: u32, qbpp: u32) -> Result<u32, CodeFault>
        requires { IsGolomb k glimit qbpp }
        ensures ok { IfOk result (λ v. TakesWord k glimit qbpp (bits_in self.old) v (bits_in self.new)) }
        ensures fault { IfErr result (λ fault. GolombFault k glimit qbpp (bits_in self.old) fault) }
        ensures word { (v : ℕ) (rest : List Bool) → TakesWord k glimit qbpp (bits_in self.old) v rest
            → (result ≡ Ok v) × (bits_in self.new ≡ rest) }
    {
        self.read_golomb(k, glimit, qbpp)
    }

    /// The place of the next bit.
    #[inline(always)]
    pub fn place(&self) -> BitPlace
        ensures at { IsAt self.now result }
        ensures bits { bits_at self.now result ≡ bits_in self.now }
    {
        BitPlace { place: self.place }
    }

    /// Moves to a place. Requires one that this source has given since it last un-stuffed bits.
    #[inline(always)]
    pub fn go_to(&mut self, at: BitPlace)
        requires { IsAt self.old at }
        ensures { bits_in self.new ≡ bits_at self.old at }
    {
        self.place = at.place;
    }

    /// The value of the short code word at a place (T.87 A.5.3), and the place after the word. None if the bits there
    /// begin with `most` zeros, or if fewer than 57 bits are un-stuffed from there on. Words can be read one after the
    /// other so, without moving the source; where that gives None, `go_to` and `take_golomb` read any word.
    ///
    /// Requires a place as `go_to` does, `k` of at most 17, and `most` of at most 24.
    #[inline(always)]
    pub fn few_at(&self, at: BitPlace, k: u32, most: u32) -> Option<(u32, BitPlace)>
        requires at { IsAt self.now at }
        requires k { k ≤ 17 }
        requires most { most ≤ 24 }
        ensures word { IfSome result (λ found. bits_at self.now at ≡ short_word k found.0 ++ bits_at self.now found.1) }
        ensures few { IfSome result (λ found. found.0 / 2 ^ k < most) }
        ensures after { IfSome result (λ found. IsAt self.now found.1) }
        ensures none { IfNone result ((self.now.end < at.place + 57) ⊎ BeginsWith (zero_bits most) (bits_at self.now at)) }
    {
        if self.end < at.place + SEEN {
            return None;
        }
        let front = front_of(&self.bytes, at.place);
        let zeros = leading_zeros(front, 64);
        if zeros >= most {
            return None;
        }
        let value = short_value(front, zeros, k);
        let after = BitPlace {
            place: at.place + (zeros + 1 + k) as usize,
        };
        Some((value, after))
    }

    /// The bits at a place, read as those of a run that a sample interrupts (T.87 A.7.1.2): n ones, a 0, and a number
    /// in `widths[n]` bits. None if the ones are as many as `widths` has elements or more, or if fewer than 57 bits are
    /// un-stuffed from there on.
    ///
    /// Requires a place as `go_to` does, and at most 32 widths, each at most 15.
    #[inline(always)]
    pub fn run_at(&self, at: BitPlace, widths: &[u32]) -> Option<InterruptedRun>
        requires at { IsAt self.now at }
        requires count { length widths.now ≤ 32 }
        requires small { (k : ℕ) → slice_index widths.now k ≤ 15 }
        ensures bits { IfSome result (λ run. bits_at self.now at
            ≡ replicate run.ones true ++ false ∷ bits_of (slice_index widths.now run.ones) run.rest ++ bits_at self.now run.after) }
        ensures ones { IfSome result (λ run. run.ones < length widths.now) }
        ensures rest { IfSome result (λ run. run.rest < 2 ^ slice_index widths.now run.ones) }
        ensures after { IfSome result (λ run. IsAt self.now run.after) }
        ensures none { IfNone result ((self.now.end < at.place + 57) ⊎ BeginsWith (replicate (length widths.now) true) (bits_at self.now at)) }
    {
        if self.end < at.place + SEEN {
            return None;
        }
        let front = front_of(&self.bytes, at.place);
        let ones = leading_ones(front);
        if ones as usize >= widths.len() {
            return None;
        }
        let width = widths[ones as usize];
        let rest = low_bits(front >> (63 - ones - width), width);
        let after = BitPlace {
            place: at.place + (ones + 1 + width) as usize,
        };
        Some(InterruptedRun { ones, rest, after })
    }

    #[inline(always)]
    fn read_golomb(&mut self, k: u32, glimit: u32, qbpp: u32) -> Result<u32, CodeFault>
        requires { IsGolomb k glimit qbpp }
        ensures ok { IfOk result (λ v. TakesWord k glimit qbpp (bits_in self.old) v (bits_in self.new)) }
        ensures fault { IfErr result (λ fault. GolombFault k glimit qbpp (bits_in self.old) fault) }
    {
        if let Some(value) = self.take_short(k, glimit - qbpp - 1, most(qbpp)) {
            return Ok(value);
        }
        self.take_any(k, glimit, qbpp)
    }

    /// Takes the next code word and returns its value, if it is a short one (T.87 A.5.3) with fewer than `most` zeros
    /// and fewer than 24, its value is at most `greatest`, and 57 bits are un-stuffed. Else takes nothing.
    #[inline(always)]
    fn take_short(&mut self, k: u32, most: u32, greatest: u32) -> Option<u32>
        requires { k ≤ 17 }
        ensures word { IfSome result (λ value. bits_in self.old ≡ short_word k value ++ bits_in self.new) }
        ensures few { IfSome result (λ value. value / 2 ^ k < most) }
        ensures small { IfSome result (λ value. value ≤ greatest) }
        ensures none { IfNone result (bits_in self.new ≡ bits_in self.old) }
    {
        let at = self.place();
        let (value, after) = self.few_at(at, k, most.min(24))?;
        if value > greatest {
            return None;
        }
        self.go_to(after);
        Some(value)
    }

    /// Takes the next code word (T.87 A.5.3), short or escape, as `take_golomb` does.
    #[cold]
    #[inline(never)]
    fn take_any(&mut self, k: u32, glimit: u32, qbpp: u32) -> Result<u32, CodeFault>
        requires { IsGolomb k glimit qbpp }
        ensures ok { IfOk result (λ v. TakesWord k glimit qbpp (bits_in self.old) v (bits_in self.new)) }
        ensures fault { IfErr result (λ fault. GolombFault k glimit qbpp (bits_in self.old) fault) }
    {
        let escape = glimit - qbpp - 1;
        let zeros = self.take_zeros(escape)?;
        if zeros < escape {
            let low = self.bits(k)?;
            let value = joined(zeros, low, k);
            if value > most(qbpp) {
                return Err(CodeFault::NotCanonical);
            }
            Ok(value)
        } else {
            let value = self.bits(qbpp)? + 1;
            if value >> k < escape {
                return Err(CodeFault::NotCanonical);
            }
            Ok(value)
        }
    }

    /// Takes zeros and the one after them, and returns the number of zeros. NotCanonical if there are more than `most`,
    /// OutOfBits if only zeros are left, at most `most` of them.
    fn take_zeros(&mut self, most: u32) -> Result<u32, CodeFault>
        requires { most ≤ 64 }
        ensures ok { IfOk result (λ zeros. bits_in self.old ≡ zero_bits zeros ++ true ∷ bits_in self.new) }
        ensures most { IfOk result (λ zeros. zeros ≤ most) }
        ensures fault { IfErr result (λ fault. ZerosFault most (bits_in self.old) fault) }
    {
        let mut count = 0;
        'words: loop {
            self.refill();
            let seen = self.held().min(SEEN) as u32;
            if seen == 0 {
                return Err(CodeFault::OutOfBits);
            }
            let zeros = leading_zeros(self.front(), 64);
            if zeros < seen {
                self.skip(zeros + 1);
                count += zeros;
                if count > most {
                    return Err(CodeFault::NotCanonical);
                }
                return Ok(count);
            }
            self.skip(seen);
            count += seen;
            if count > most {
                return Err(CodeFault::NotCanonical);
            }
        }
    }

    /// The number of un-stuffed bits left.
    #[inline(always)]
    fn held(&self) -> usize
        ensures value { result ≡ self.now.end - self.now.place }
        ensures few { result ≤ 16384 }
    {
        self.end - self.place
    }

    /// The next bits, from the top bit of the result down. Only the un-stuffed ones are right, and only the first 57.
    #[inline(always)]
    fn front(&self) -> u64
        ensures { (n : ℕ) → n ≤ 57 → n ≤ self.now.end - self.now.place → take n (bits_of 64 result) ≡ take n (bits_in self.now) }
    {
        front_of(&self.bytes, self.place)
    }

    /// Skips `count` un-stuffed bits.
    #[inline(always)]
    fn skip(&mut self, count: u32)
        requires { count ≤ self.old.end - self.old.place }
        ensures { bits_in self.new ≡ drop count (bits_in self.old) }
    {
        self.place += count as usize;
    }

    /// Un-stuffs more bits if fewer than 57 un-stuffed ones are left.
    #[inline(always)]
    fn refill(&mut self)
        ensures bits { bits_in self.new ≡ bits_in self.old }
        ensures enough { (57 ≤ self.new.end - self.new.place) ⊎ (length (bits_in self.new) ≤ self.new.end - self.new.place) }
    {
        if self.held() < SEEN {
            self.refill_apart();
        }
    }

    /// Un-stuffs more bits.
    #[cold]
    #[inline(never)]
    fn refill_apart(&mut self)
        ensures bits { bits_in self.new ≡ bits_in self.old }
        ensures enough { (57 ≤ self.new.end - self.new.place) ⊎ (length (bits_in self.new) ≤ self.new.end - self.new.place) }
    {
        self.bring_to_front();
        self.fill();
    }

    /// Moves the bytes with the un-stuffed bits left to the front of the buffer.
    fn bring_to_front(&mut self)
        ensures bits { bits_in self.new ≡ bits_in self.old }
        ensures front { self.new.place < 8 }
    {
        let from = self.place / 8;
        move_to_front(&mut self.bytes, from, (self.end + 7) / 8);
        self.place -= 8 * from;
        self.end -= 8 * from;
    }

    /// Un-stuffs bits until the buffer has no room for 64 more or none are left.
    fn fill(&mut self)
        requires { self.old.place < 8 }
        ensures bits { bits_in self.new ≡ bits_in self.old }
        ensures enough { (57 ≤ self.new.end - self.new.place) ⊎ (self.new.ahead.bits ≡ []) }
    {
        'words: while self.end + 64 <= MOST {
            let at = self.end / 8;
            if let Some(bits) = self.stuffed.take_eight() {
                put_eight(&mut self.bytes, at, bits);
                self.end += 64;
            } else {
                let taken = self.stuffed.take();
                if taken.count == 0 {
                    return;
                }
                put_four(&mut self.bytes, at, taken.bits);
                self.end += taken.count as usize;
            }
        }
    }
}

/// The greatest value that has a code word.
fn most(qbpp: u32) -> u32
    requires { qbpp ≤ 16 }
    ensures { result ≡ most_value qbpp }
{
    1 << qbpp
}
