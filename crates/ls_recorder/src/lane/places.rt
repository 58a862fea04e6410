//! The places of a lane's window: each frame takes one before it is read, and gives it back once its codestream is
//! written.
mod backs;

ghost use Rattle.std.specs.Prelude.{◌≡◌, ◌<◌, ◌≤◌, ◌+◌, ◌-◌, ◌^◌, true, false, IfOk};
ghost use Rattle.crossbeam_channel.specs.Claims.{view, IsSeatAt};
ghost use Rattle.crossbeam_channel.specs.Ends.{sends_on, receives_on};
ghost use Rattle.ls_recorder.specs.View.Backs.{places_in};

pub use backs::Back;
use backs::{BackReceived, BackRule, BackSent, BackView, HalfMade, Halves, HalvesJoined};
use crossbeam_channel::{Pass, RuledReceiver, RuledSender, TryRecvError, bounded_with};
use ls_queue::{Patience, receive};
use std::alloc::{AllocError, Global};
use std::sync::Wait;

/// The places, as the reading half takes them. It may take `window` places more than were handed back.
#[derive(Drop)]
pub struct Places {
    /// The number of places in the window.
    window: u64,
    /// The number of places taken so far.
    pub taken: u64,
    /// The number of places that were handed back, as far as they are counted.
    returned: u64,
    receiver: RuledReceiver<Back, BackView, BackRule>,
    pass: Pass<Back, BackView>,
    patience: Patience,
    ghost own: { IsSeatAt (receives_on receiver) pass },
    ghost half: { (view pass).shares ≡ 1 },
    ghost sends_none: { (view pass).sent ≡ 0 },
    ghost counted: { returned ≤ (view pass).received },
    ghost within: { taken ≤ window + returned },
}

/// The end by which the writing half gives places back. It hands them back several at a time, since each time the
/// reading half may have to be woken.
#[derive(Drop)]
pub struct Returns {
    sender: RuledSender<Back, BackView, BackRule>,
    pass: Pass<Back, BackView>,
    /// The number of places given back.
    pub returned: u64,
    /// The number of these that aren't handed back yet.
    pub kept: u64,
    /// The number at which they are handed back at the latest: half of the window, rounded down.
    most: u64,
    ghost own: { IsSeatAt (sends_on sender) pass },
    ghost half: { (view pass).shares ≡ 1 },
    ghost counted: { (view pass).sent + kept ≤ returned },
}

impl Places {
    /// Makes the places of a window, and the end that gives them back. Nothing is taken or given back yet.
    pub fn new(alloc: Global, window: usize) -> Result<(Places, Returns), AllocError>
        ensures { IfOk result (λ made. (made.0.window ≡ window) × (made.0.taken ≡ 0) × (made.1.returned ≡ 0) × (receives_on made.0.receiver ≡ sends_on made.1.sender)) }
    {
        // Each message but the last hands back a place at least.
        let (sender, receiver, mut pass) = bounded_with::<Back, BackView, BackRule, Global>(
            alloc,
            window.saturating_add(1),
        )?;
        let other = sender.another::<HalfMade>(&mut pass);
        let places = Places {
            window: window as u64,
            taken: 0,
            returned: 0,
            receiver,
            pass,
            patience: Patience::new(),
        };
        let returns = Returns {
            sender,
            pass: other,
            returned: 0,
            kept: 0,
            most: window as u64 / 2,
        };
        Ok((places, returns))
    }

    /// Takes a place, and waits for one. Whether it took one: once the writing half has stopped, it takes none, even if
    /// some are free.
    pub fn take<R: Wait>(&mut self, rt: &R) -> bool
        ensures same { (self.new.window ≡ self.old.window) × (receives_on self.new.receiver ≡ receives_on self.old.receiver) }
        ensures took { result ≡ true → self.new.taken ≡ self.old.taken + 1 }
        ensures refused { result ≡ false → self.new.taken ≡ self.old.taken }
    {
        if !self.count_returned(rt) {
            return false;
        }
        for _ in rt.forever() {
            if self.taken < self.window.saturating_add(self.returned) {
                self.taken += 1;
                return true;
            }
            let back = receive::<Back, BackView, BackRule, BackReceived, R>(
                rt,
                &self.receiver,
                &mut self.pass,
                &mut self.patience,
            );
            match back {
                Ok(Back::Places(places)) => self.returned = with_more(self.returned, places),
                Ok(Back::Stopped) | Err(_) => return false,
            }
        }
        unreachable!()
    }

    /// Counts the places that were handed back. Whether more may come.
    fn count_returned<R: Wait>(&mut self, rt: &R) -> bool
        ensures same { (self.new.window ≡ self.old.window) × (receives_on self.new.receiver ≡ receives_on self.old.receiver) }
        ensures taken { self.new.taken ≡ self.old.taken }
    {
        for _ in rt.forever() {
            match self
                .receiver
                .try_recv_as::<BackReceived, R>(rt, &mut self.pass)
            {
                Ok(Back::Places(places)) => self.returned = with_more(self.returned, places),
                Err(TryRecvError::Empty) => return true,
                Ok(Back::Stopped) | Err(TryRecvError::Disconnected) => return false,
            }
        }
        unreachable!()
    }

    /// Compares what both halves counted, once both have ended: of the places that were taken, all but a window were
    /// given back.
    pub fn compare(self, returns: Returns)
        requires { receives_on self.receiver ≡ sends_on returns.sender }
        ensures { self.taken ≤ self.window + returns.returned }
    {
        let Places { pass: taken, .. } = self;
        let Returns {
            sender,
            mut pass,
            ..
        } = returns;
        sender.absorb::<HalvesJoined>(&mut pass, taken);
        sender.learn_as::<Halves>(&mut pass);
    }
}

/// This number and more, as far as a u64 goes.
fn with_more(number: u64, more: u64) -> u64
    ensures least { number ≤ result }
    ensures most { result ≤ number + more }
{
    number.saturating_add(more)
}

impl Returns {
    /// Gives a place back, and hands back all that are given once they are half of the window. Requires that fewer than
    /// 2^64 - 1 were given back.
    pub fn give<R: Wait>(&mut self, rt: &R)
        requires { self.old.returned < 2 ^ 64 - 1 }
        ensures same { sends_on self.new.sender ≡ sends_on self.old.sender }
        ensures gave { self.new.returned ≡ self.old.returned + 1 }
    {
        self.returned += 1;
        self.kept += 1;
        if self.kept >= self.most {
            self.hand_back(rt);
        }
    }

    /// Hands back the places that were given and not yet handed back. The writing half calls it before it waits.
    pub fn hand_back<R: Wait>(&mut self, rt: &R)
        ensures same { sends_on self.new.sender ≡ sends_on self.old.sender }
        ensures returned { self.new.returned ≡ self.old.returned }
        ensures none { self.new.kept ≡ 0 }
    {
        let places = self.kept;
        self.kept = 0;
        if places > 0 {
            self.send(rt, Back::Places(places));
        }
    }

    /// Says that no more places are handed back. The reading half then takes none.
    pub fn stop<R: Wait>(&mut self, rt: &R)
        ensures same { sends_on self.new.sender ≡ sends_on self.old.sender }
        ensures returned { self.new.returned ≡ self.old.returned }
    {
        self.send(rt, Back::Stopped);
    }

    /// Sends a message. Requires that the places in it are counted as given back. If the reading half is gone, nothing
    /// is sent.
    fn send<R: Wait>(&mut self, rt: &R, message: Back)
        requires { (view self.old.pass).sent + places_in message + self.old.kept ≤ self.old.returned }
        ensures same { sends_on self.new.sender ≡ sends_on self.old.sender }
        ensures counts { (self.new.returned ≡ self.old.returned) × (self.new.kept ≡ self.old.kept) }
    {
        let _sent = self
            .sender
            .send_as::<BackSent, R>(rt, &mut self.pass, message);
    }
}
