//! Finds the codestreams of an index in a recording where they don't stand at the offsets that the index says.
ghost use Rattle.std.specs.Prelude.{◌≡◌, ◌⊎◌, ◌+◌, ◌<◌, ◌^◌, length, IfOk, IfErr, IfSome, IsTrue};
ghost use Rattle.ls_frame.specs.View.Chunks.{left_in, inner_reader};
ghost use Rattle.ls_frame.specs.View.Devices.{count_after};
ghost use Rattle.ls_film.specs.View.Steps.{failed_by};
ghost use Rattle.ls_salvage.specs.View.Ends.{is_io};
ghost use Rattle.ls_archive.specs.View.Checks.{blames_index, blames_recording};
ghost use Rattle.ls_archive.specs.View.Places.{IsSaidBy, StopsInIndex, GaveStanding, IsSmall, AreStanding, AreApart, Fits, GivesPlace, size_standing, GivesStanding};

use crate::checking::{CheckFault, next_line};
use crate::entry::Indexed;
use ls_film::MOST_FRAMES;
use ls_film::codestreams::take_codestream;
use ls_frame::{Buffered, Feed};
use ls_salvage::faults::ReadFault;
use ls_salvage::parts::pass_gap;
use ls_salvage::starts::MOST_PLACE;
use sha2::{Digest, Sha256};
use std::alloc::{AllocError, Global};
use std::collections::HashMap;

/// A codestream to look for, as its line of an index describes it.
#[derive(Clone, Copy, Debug, Drop, PartialEq, Eq)]
pub struct Wanted {
    /// The offset at which it should begin.
    pub place: u64,
    /// Its size, in bytes.
    pub count: u64,
    /// Its SHA-256; a codestream without one is never found.
    pub sum: Option<[u8; 32]>,
}

/// Reads the lines of an index, and returns what each says of its codestream, in order.
///
/// A line must have the form that `check` requires, and a fault means what it means there; `Io` never occurs.
pub fn read_index<I: Feed>(alloc: Global, index: &mut I) -> Result<Vec<Wanted>, CheckFault>
    ensures wanted { IfOk result (λ wanted. IsSaidBy (I.remaining index.old) wanted.items) }
    ensures stops { IfErr result (StopsInIndex (I.remaining index.old) (I.remaining index.new)) }
    ensures reads { I.failed_reads index.new ≡ count_after (failed_by blames_index result) (I.failed_reads index.old) }
{
    let mut wanted = Vec::new(alloc);
    let mut offset = 0;
    for number in 0..MOST_FRAMES {
        let Some(line) = next_line(alloc, index, number, offset)? else {
            return Ok(wanted);
        };
        let count = u64::from(line.size);
        let said = Wanted {
            place: offset,
            count,
            sum: line.sum,
        };
        if wanted.push(said).is_err() {
            return Err(CheckFault::NoMemory);
        }
        offset += count;
    }
    match next_line(alloc, index, MOST_FRAMES, offset)? {
        None => Ok(wanted),
        Some(_) => Err(CheckFault::TooMany),
    }
}

/// Looks for codestreams in a recording, wherever they stand in it, and returns for each of `wanted` the offset at
/// which it was found, in bytes.
///
/// Goes through the recording codestream by codestream, each complete by its markers and headers, and past other bytes
/// to the next place where one may begin, as a salvage does; so bytes with a wanted sum are found only at such a place.
/// Each place is given to one codestream at most: to the one that should stand there, or else to the first with that
/// sum that has no place yet. `wanted` are in the order of their places. Below `end` a place outside the bytes of all
/// of `wanted` is passed over, since the codestream that should stand there does.
///
/// If no end is found within the most bytes that a codestream may have, or after 2^62 bytes, stops there and returns
/// what was found before. Fails with `Io` if a read fails, or with `NoMemory`.
pub fn find_places<R: Feed>(
    alloc: Global,
    recording: &mut Buffered<R>,
    wanted: &[Wanted],
    end: u64,
) -> Result<Vec<Option<u64>>, CheckFault>
    ensures count { IfOk result (λ places. length places.items ≡ length wanted.now) }
    ensures stands { IfOk result (λ places. AreStanding (left_in R.remaining recording.old) wanted.now places.items) }
    ensures apart { IfOk result (λ places. AreApart places.items) }
    ensures blame { IfErr result (λ fault. (fault ≡ CheckFault.Io) ⊎ (fault ≡ CheckFault.NoMemory)) }
    ensures reads { R.failed_reads (inner_reader recording.new) ≡ count_after (failed_by blames_recording result) (R.failed_reads (inner_reader recording.old)) }
{
    let mut search = Search::new(alloc, wanted)?;
    let mut places = vec![in alloc; None; wanted.len()]?;
    let mut place = 0;
    'steps: for _ in 0..MOST_PLACE {
        if place >= MOST_PLACE {
            return Ok(places);
        }
        match next_standing(alloc, recording) {
            Ok(Some(standing)) => {
                place = search.pass(wanted, &mut places, &standing, place, end);
            }
            Ok(None) => return Ok(places),
            Err(ReadFault::Io) => return Err(CheckFault::Io),
            Err(ReadFault::NoMemory) => return Err(CheckFault::NoMemory),
            Err(_) => return Ok(places),
        }
    }
    Ok(places)
}

/// What comes next in a recording.
#[derive(Drop)]
enum Standing {
    /// A codestream that is complete by its markers and headers.
    Codestream(Indexed),
    /// Bytes that were passed over: their number.
    Gap(u64),
}

/// Takes what comes next off a reader; `None` exactly at its end.
fn next_standing<R: Feed>(
    alloc: Global,
    reader: &mut Buffered<R>,
) -> Result<Option<Standing>, ReadFault>
    ensures small { IfOk result (λ next. IfSome next IsSmall) }
    ensures standing { IfOk result (λ next. IfSome next (GaveStanding (left_in R.remaining reader.old) (left_in R.remaining reader.new))) }
    ensures failures { R.failed_reads (inner_reader reader.new) ≡ count_after (failed_by is_io result) (R.failed_reads (inner_reader reader.old)) }
{
    let mut bytes = match take_codestream(alloc, reader) {
        Ok(Some(bytes)) => bytes,
        Ok(None) => return Ok(None),
        Err(fault) => return Err(ReadFault::of(fault)),
    };
    match Indexed::take(alloc, &mut bytes) {
        Some(indexed) => Ok(Some(Standing::Codestream(indexed))),
        None => Ok(Some(Standing::Gap(pass_gap(alloc, reader, &bytes)?))),
    }
}

/// Gives a place, at which `count` bytes with this sum stand, to the codestream that was picked, if that has this size
/// and sum and no place yet.
fn give_place(
    wanted: &[Wanted],
    places: &mut Vec<Option<u64>>,
    picked: usize,
    place: u64,
    count: u64,
    sum: &[u8; 32],
)
    requires { length places.old.items ≡ length wanted.now }
    ensures as_many { length places.new.items ≡ length places.old.items }
    ensures gives { GivesPlace wanted.now places.old.items places.new.items picked place count sum.now }
{
    if fits(wanted, places, picked, count, sum) {
        places[picked] = Some(place);
    }
}

/// Whether the wanted codestream of this number has `count` bytes with this sum, and no place yet.
fn fits(
    wanted: &[Wanted],
    places: &[Option<u64>],
    number: usize,
    count: u64,
    sum: &[u8; 32],
) -> bool
    requires { length places.now ≡ length wanted.now }
    ensures within { IsTrue result → number < length wanted.now }
    ensures fits { IsTrue result → Fits wanted.now places.now number count sum.now }
{
    let Some(one) = wanted.get(number) else {
        return false;
    };
    let Some(None) = places.get(number) else {
        return false;
    };
    match one.sum {
        Some(own) => one.count == count && own.as_slice() == sum.as_slice(),
        None => false,
    }
}

/// The state of a search.
#[derive(Drop)]
struct Search {
    /// By sum, the number of the first wanted codestream with it that may have no place yet.
    first: HashMap<[u8; 32], usize>,
    /// For each wanted codestream, the number of the next with the same sum, or the number of all if there is none.
    next: Vec<usize>,
    /// The number of the first wanted codestream that ends after the current place.
    here: usize,
}

impl Search {
    fn new(alloc: Global, wanted: &[Wanted]) -> Result<Search, AllocError> {
        let mut first = HashMap::new(alloc);
        let mut next = vec![in alloc; wanted.len(); wanted.len()]?;
        let mut number = wanted.len();
        'chain: while number > 0 {
            number -= 1;
            let Some(Wanted { sum: Some(sum), .. }) = wanted.get(number) else {
                continue 'chain;
            };
            match first.insert(*sum, number) {
                Ok(Some(later)) => {
                    if let Some(next) = next.get_mut(number) {
                        *next = later;
                    }
                }
                Ok(None) => {}
                Err(_) => return Err(AllocError),
            }
        }
        Ok(Search {
            first,
            next,
            here: 0,
        })
    }

    /// Passes what stands at this place: if it is a wanted codestream, the place is given to that. Returns the place
    /// after it.
    fn pass(
        &mut self,
        wanted: &[Wanted],
        places: &mut Vec<Option<u64>>,
        standing: &Standing,
        place: u64,
        end: u64,
    ) -> u64
        requires as_many { length places.old.items ≡ length wanted.now }
        requires room { place < MOST_PLACE }
        requires small { IsSmall standing.now }
        ensures as_many { length places.new.items ≡ length places.old.items }
        ensures after { result ≡ place + size_standing standing.now }
        ensures gives { GivesStanding wanted.now places.old.items places.new.items place standing.now }
    {
        match standing {
            Standing::Codestream(indexed) => {
                let bytes = indexed.bytes();
                let count = bytes.len() as u64;
                let sum: [u8; 32] = Sha256::digest(bytes);
                let picked = self.pick(wanted, places, place, end, count, &sum);
                give_place(wanted, places, picked, place, count, &sum);
                place + count
            }
            Standing::Gap(count) => place + *count,
        }
    }

    /// Returns the number of the wanted codestream to which `count` bytes with this sum at this place may be given, or
    /// the number of all if there is none.
    fn pick(
        &mut self,
        wanted: &[Wanted],
        places: &[Option<u64>],
        place: u64,
        end: u64,
        count: u64,
        sum: &[u8; 32],
    ) -> usize
        requires { length places.now ≡ length wanted.now }
    {
        self.here = pass_ended(wanted, self.here, place);
        if self.here < wanted.len() && wanted[self.here].place <= place {
            if wanted[self.here].place == place && fits(wanted, places, self.here, count, sum) {
                return self.here;
            }
        } else if place < end {
            return wanted.len();
        }
        let Some(first) = self.first.get_mut(sum) else {
            return wanted.len();
        };
        let number = pass_given(places, &self.next, *first);
        *first = number;
        number
    }
}

/// Returns the number, from `here` on, of the first wanted codestream that ends after this place.
fn pass_ended(wanted: &[Wanted], here: usize, place: u64) -> usize {
    let mut here = here;
    'here: while here < wanted.len()
        && wanted[here].place.saturating_add(wanted[here].count) <= place
    {
        here += 1;
    }
    here
}

/// Returns the number of the first codestream without a place among those with one sum, from this number on.
fn pass_given(places: &[Option<u64>], next: &[usize], number: usize) -> usize {
    let mut number = number;
    'given: while number < places.len() && places[number].is_some() {
        let later = if number < next.len() {
            next[number]
        } else {
            number
        };
        if later <= number {
            return places.len();
        }
        number = later;
    }
    number
}
