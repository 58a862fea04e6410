//! Hands the pieces of a film's recording from the thread that writes them to those that keep them and write times.
use ls_files::{Beside, Keeper, Makes};
use ls_frame::Failed;
use std::alloc::{AllocError, Global};
use std::collections::VecDeque;
use std::hint::spin_loop;
use std::io;
use std::sync::atomic::{AtomicU32, AtomicU64, Ordering};
use std::sync::{Mutex, MutexGuard};

/// The most pieces that wait to be brought onto the disk by another thread than that which writes the recording.
const MOST_WAITING: usize = 8;

/// The pieces of a film's recording that were begun, but the first, until they are taken to be kept.
///
/// Each lock is held for a moment alone, and no thread sleeps until it gets one.
#[derive(Drop)]
pub struct Chain<O: Makes> {
    /// The pieces that were begun and not taken yet, the oldest first. Any thread may take the oldest.
    waiting: Mutex<VecDeque<Keeper<O>>>,
    /// The file for the times of the piece that was begun last, until it is taken.
    times: Mutex<Option<O::File>>,
    /// The number of pieces that were begun but the first: so the number of the last one.
    begun: AtomicU32,
    /// Why finished pieces that the writing thread brought onto the disk aren't there, as `code_of` has it.
    recording: AtomicU64,
    index: AtomicU64,
    beside: AtomicU64,
}

impl<O: Makes + Copy + Drop> Chain<O> {
    /// The chains of `films` films, before a second piece is begun.
    pub fn of_each(alloc: Global, films: usize) -> Result<Vec<Chain<O>>, AllocError> {
        let mut chains = Vec::new(alloc);
        for _film in 0..films {
            chains.push(Chain {
                waiting: Mutex::new(VecDeque::with_capacity(alloc, MOST_WAITING)?),
                times: Mutex::new(None),
                begun: AtomicU32::new(0),
                recording: AtomicU64::new(0),
                index: AtomicU64::new(0),
                beside: AtomicU64::new(0),
            })?;
        }
        Ok(chains)
    }

    /// The number of the piece that was begun last; 0 for the first.
    pub fn begun(&self) -> u32 {
        self.begun.load(Ordering::SeqCst)
    }

    /// Makes room for one more piece. If as many wait already as may, the oldest of them, which is finished, is brought
    /// onto the disk here, which waits for the disk.
    pub fn make_room(&self) {
        if self.is_full() {
            if let Some(keeper) = self.take() {
                note(&self.recording, keeper.sync());
                note(&self.index, keeper.sync_beside(Beside::Index));
                note(&self.beside, keeper.sync_beside(Beside::Times));
            }
        }
    }

    fn is_full(&self) -> bool {
        match held(&self.waiting) {
            Some(waiting) => waiting.len() >= MOST_WAITING,
            None => false,
        }
    }

    /// Hands on a piece that was just begun, and the file for its times, if it has one. Fails if memory runs out.
    pub fn hand_on(&self, keeper: Keeper<O>, times: Option<O::File>) -> io::Result<()> {
        match held(&self.waiting) {
            Some(mut waiting) => match waiting.push_back(keeper) {
                Ok(()) => {}
                Err(_) => return Err(io::Error::from(AllocError)),
            },
            None => return Err(io::Error::from(io::ErrorKind::WouldBlock)),
        }
        self.begun.fetch_add(1, Ordering::SeqCst);
        if let Some(mut own) = held(&self.times) {
            *own = times;
        }
        Ok(())
    }

    /// Takes the oldest piece that waits. It is finished if another was begun after it.
    pub fn take(&self) -> Option<Keeper<O>> {
        let mut waiting = held(&self.waiting)?;
        waiting.pop_front()
    }

    /// Takes the file for the times of the piece that was begun last, if no call has taken it before.
    pub fn take_times(&self) -> Option<O::File> {
        let mut times = held(&self.times)?;
        times.take()
    }

    /// Why a finished piece, or its index or times, that was brought onto the disk here isn't there, if one isn't.
    pub fn unsynced(&self, beside: Option<Beside>) -> Option<Failed> {
        let own = match beside {
            None => &self.recording,
            Some(Beside::Index) => &self.index,
            Some(Beside::Times) => &self.beside,
        };
        failed_of_code(own.load(Ordering::SeqCst))
    }
}

/// Takes a lock that is held for a moment alone.
fn held<T>(lock: &Mutex<T>) -> Option<MutexGuard<'_, T>> {
    for _try in 0..u64::MAX {
        if let Some(guard) = lock.try_lock() {
            return Some(guard);
        }
        spin_loop();
    }
    None
}

/// Notes a failure, unless one was noted before.
fn note(failure: &AtomicU64, outcome: io::Result<()>) {
    if let Err(fault) = outcome {
        if failure.load(Ordering::SeqCst) == 0 {
            failure.store(code_of(fault), Ordering::SeqCst);
        }
    }
}

/// A failure as a number: 1 without the system's number, or else that, which isn't negative, and 2.
fn code_of(fault: io::Error) -> u64 {
    match fault.raw_os_error() {
        Some(number) if number >= 0 => u64::from(number as u32) + 2,
        _ => 1,
    }
}

/// The failure of such a number; `None` of 0.
fn failed_of_code(code: u64) -> Option<Failed> {
    if code == 0 {
        return None;
    }
    if code == 1 {
        return Some(Failed {
            kind: io::ErrorKind::Other,
            number: None,
        });
    }
    let number = i32::try_from(code - 2).unwrap_or(0);
    Some(Failed::from(io::Error::from_raw_os_error(number)))
}
