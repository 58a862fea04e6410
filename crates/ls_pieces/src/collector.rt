//! The collector of a source: coded frames come in any order, and go out in the order of their numbers.
ghost use Rattle.std.specs.Prelude.{◌≡◌, ◌<◌, ◌-◌, ◌+◌, ◌⊎◌, ◌==◌, ◌^◌, ℕ, None, Some, length, MatchResult, IfErr};
ghost use Rattle.ls_pieces.specs.Collecting.{window_fault, new_collection, booked, is_full, book_reply, after_book, misfit_of, after_accept, next_reply, after_next, IsCollection};

use crate::orders::Order;
use crate::pieces::Coded;
use circular_buffer::HeapCircularBuffer;
use std::alloc::{AllocError, Global};
use std::marker::Model;
use thiserror::Error;

/// The largest window: the most orders that a collector may hold.
pub const MOST_WINDOW: usize = 64;

/// The reason why no collector was made.
#[derive(Clone, Copy, Debug, Drop, PartialEq, Eq, Error)]
pub enum CollectorFault {
    /// The window isn't 1 to 64.
    #[error("window")]
    Window,
    /// An allocation failed.
    #[error("no memory")]
    NoMemory,
}

impl From<AllocError> for CollectorFault {
    ghost use Rattle.std.specs.Prelude.{◌≡◌};
    ghost use Rattle.ls_pieces.specs.declared.collector.CollectorFault.TheVariants.{NoMemory};

    ghost from_gives = { λ _ fault. fault ≡ NoMemory };

    fn from(_refused: AllocError) -> CollectorFault {
        CollectorFault::NoMemory
    }
}

/// The reason why a coded frame isn't accepted: the first of these that applies, in this order.
#[derive(Clone, Copy, Debug, Drop, PartialEq, Eq, Error)]
pub enum Misfit {
    /// It is of another source.
    #[error("another source")]
    Stranger,
    /// No order with its number was booked.
    #[error("not booked")]
    NotBooked,
    /// A coded frame with its number was accepted before.
    #[error("accepted before")]
    Twice,
    /// It is of another frame than the one booked, or was coded with other parameters.
    #[error("another frame")]
    OtherFrame,
}

/// A booked order, and its coded frame once that was accepted.
#[derive(Drop)]
pub struct Slot {
    pub order: Order,
    pub piece: Option<Coded>,
}

impl Slot {
    ghost use Rattle.std.specs.Prelude.{◌≡◌, Some};

    /// Stores the coded frame of the order.
    fn fill(&mut self, piece: Coded)
        ensures { self.new ≡ record { order = self.old.order; piece = Some piece } }
    {
        self.piece = Some(piece);
    }
}

/// The orders of one source that were booked and not yet handed out, at most `window` of them, each with its coded
/// frame if that was accepted.
///
/// Orders are numbered from 0 as they are booked.
#[derive(Drop)]
pub struct Collector {
    source: u8,
    /// The number of orders that were handed out, which is the number of the first slot.
    first: u64,
    /// The orders not yet handed out, in order. Its capacity is the window.
    slots: HeapCircularBuffer<Slot>,
}

impl Model for Collector {
    ghost use Rattle.ls_pieces.specs.Collecting.{Collection, IsCollection};

    ghost Value = { Collection };

    ghost view = { λ c. record { source = c.source; window = c.slots.capacity; first = c.first; slots = c.slots.items } };

    ghost invariant = { λ c. IsCollection (record { source = c.source; window = c.slots.capacity; first = c.first; slots = c.slots.items }) };
}

impl Collector {
    /// Makes a collector for a source, with nothing booked. Fails with `Window` exactly if the window isn't 1 to 64;
    /// else its only fault is `NoMemory`.
    ///
    /// Allocates all the memory that the collector will need.
    pub fn new(alloc: Global, source: u8, window: usize) -> Result<Collector, CollectorFault>
        ensures { MatchResult result
            (λ collector. (window_fault window ≡ None) × (collector ≡ new_collection source window))
            (λ fault. (window_fault window ≡ Some fault) ⊎ ((window_fault window ≡ None) × (fault ≡ CollectorFault.NoMemory))) }
    {
        if window == 0 || window > MOST_WINDOW {
            return Err(CollectorFault::Window);
        }
        Ok(Collector {
            source,
            first: 0,
            slots: HeapCircularBuffer::with_capacity(alloc, window)?,
        })
    }

    /// Books an order, and returns its number: the number of orders booked before it. Returns the order exactly if the
    /// window is full, that is, if `window` orders are booked and not yet handed out; then nothing has changed.
    /// Requires that fewer than 2^64 - 1 orders were booked.
    pub fn book(&mut self, order: Order) -> Result<u64, Order>
        requires { booked self.old < 2 ^ 64 - 1 }
        ensures reply { result ≡ book_reply self.old order }
        ensures state { self.new ≡ after_book self.old order }
    {
        let number = self.first + self.slots.len() as u64;
        let slot = Slot { order, piece: None };
        match self.slots.try_push_back(slot) {
            Ok(()) => {}
            Err(slot) => return Err(slot.order),
        }
        Ok(number)
    }

    /// Accepts the coded frame of a booked order. One that doesn't fit is returned with the first `Misfit` that
    /// applies; then nothing has changed.
    pub fn accept(&mut self, piece: Coded) -> Result<(), (Coded, Misfit)>
        ensures { MatchResult result
            (λ _. (misfit_of self.old piece ≡ None) × (self.new ≡ after_accept self.old piece))
            (λ back. (back.0 ≡ piece) × (misfit_of self.old piece ≡ Some back.1) × (self.new ≡ self.old)) }
    {
        if let Some(misfit) = self.misfit_of(&piece) {
            return Err((piece, misfit));
        }
        let place = (piece.number() - self.first) as usize;
        if let Some(slot) = self.slots.get_mut(place) {
            slot.fill(piece);
        }
        Ok(())
    }

    /// The first `Misfit` that applies to a coded frame, or `None` if it fits.
    fn misfit_of(&self, piece: &Coded) -> Option<Misfit>
        ensures reply { result ≡ misfit_of self.now piece.now }
        ensures lawful { IsCollection self.now }
    {
        if piece.source() != self.source {
            return Some(Misfit::Stranger);
        }
        if piece.number() < self.first {
            return Some(Misfit::Twice);
        }
        let place = (piece.number() - self.first) as usize;
        match self.slots.get(place) {
            None => Some(Misfit::NotBooked),
            Some(slot) if slot.piece.is_some() => Some(Misfit::Twice),
            Some(slot) if slot.order != *piece.order() => Some(Misfit::OtherFrame),
            Some(_) => None,
        }
    }

    /// Hands out the coded frame of the lowest number not yet handed out; `None` if that wasn't accepted yet, or no
    /// order waits.
    pub fn next(&mut self) -> Option<Coded>
        ensures reply { result ≡ next_reply self.old }
        ensures state { self.new ≡ after_next self.old }
        ensures lawful { IsCollection self.old }
    {
        match self.slots.front() {
            Some(Slot { piece: Some(_), .. }) => {}
            _ => return None,
        }
        let slot = self.slots.pop_front()?;
        self.first += 1;
        slot.piece
    }

    /// The number of orders booked so far, which is the number of the next one.
    pub fn booked(&self) -> u64
        ensures value { result ≡ booked self.now }
        ensures lawful { IsCollection self.now }
    {
        self.first + self.slots.len() as u64
    }

    /// The number of orders that are booked and not yet handed out, at most the window. If it is the window, `book`
    /// returns the order.
    pub fn waiting(&self) -> usize
        ensures value { result ≡ length self.now.slots }
        ensures lawful { IsCollection self.now }
    {
        self.slots.len()
    }
}
