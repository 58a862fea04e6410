//! Boxes: channels that carry results from any worker to the lane of their source.
mod answers;
mod ends;

ghost use Rattle.std.specs.Prelude.{◌≡◌, ◌<◌, ◌⊎◌, None, Some, length, IfOk, MatchResult};
ghost use Rattle.std.specs.List.{AllByRecursion};
ghost use Rattle.ls_recorder.specs.declared.delivery.ends.Outbox.{Outbox};
ghost use Rattle.ls_recorder.specs.Sizes.{box_fault};
ghost use Rattle.ls_recorder.specs.View.Boxes.{AreFrom, HaveCapacity, LeadTo, LeadAlike, AreBoxes};

use crate::faults::RecordFault;
use crate::sizes::Sizes;
pub use answers::Answer;
use answers::{BoxRule, BoxView, SenderMade};
use crossbeam_channel::bounded_with;
use ends::InboxSender;
pub use ends::{Inbox, Outbox};
use ls_queue::Patience;
use std::alloc::{AllocError, Global};
use std::sync::Wait;

/// Makes an inbox for each of 1 to 16 sources, in order from source 0, and an outbox for each of 1 to 16 workers. An
/// inbox holds at most `window` results, 1 to 64. Fails with the first of `Sources`, `Workers` and `Window` that
/// applies; else its only fault is `NoMemory`.
///
/// Allocates all the memory that the boxes will need.
pub fn boxes<R: Wait>(
    _rt: &R,
    alloc: Global,
    sources: u8,
    workers: usize,
    window: usize,
) -> Result<(Vec<Inbox>, Vec<Outbox>), RecordFault>
    ensures { MatchResult result
        (λ made. (box_fault sources workers window ≡ None) × AreBoxes sources workers window made.0.items made.1.items)
        (λ fault. (box_fault sources workers window ≡ Some fault) ⊎ ((box_fault sources workers window ≡ None) × (fault ≡ RecordFault.NoMemory))) }
{
    // Boxes hold no jobs, so any capacity will do.
    let sizes = Sizes {
        workers,
        capacity: 1,
        window,
    };
    if let Some(fault) = sizes.fault(usize::from(sources)) {
        return Err(fault);
    }
    let (inboxes, senders) = channels(alloc, sources, window)?;
    let outboxes = outboxes(alloc, senders, workers)?;
    Ok((inboxes, outboxes))
}

/// Makes an inbox for each source, and a sender to each inbox.
fn channels(
    alloc: Global,
    sources: u8,
    window: usize,
) -> Result<(Vec<Inbox>, Vec<InboxSender>), AllocError>
    requires { 0 < window }
    ensures { IfOk result (λ made. (length made.0.items ≡ sources) × AreFrom 0 made.0.items × HaveCapacity window made.0.items × LeadTo made.0.items made.1.items) }
{
    let mut inboxes = Vec::new(alloc);
    let mut senders = Vec::new(alloc);
    for source in 0..sources {
        let (channel, receiver, mut pass) = bounded_with::<Answer, BoxView, BoxRule, Global>(
            alloc, window,
        )?;
        let other = channel.another::<SenderMade>(&mut pass);
        inboxes.push(Inbox {
            source,
            receiver,
            pass,
            patience: Patience::new(),
        })?;
        senders.push(InboxSender {
            channel,
            pass: other,
        })?;
    }
    Ok((inboxes, senders))
}

/// Makes an outbox for each worker, with a copy of each of these senders.
fn outboxes(
    alloc: Global,
    mut senders: Vec<InboxSender>,
    workers: usize,
) -> Result<Vec<Outbox>, AllocError>
    ensures { IfOk result (λ made. (length made.items ≡ workers) × AllByRecursion (λ (outbox : Outbox). LeadAlike outbox.senders.items senders.items) made.items) }
{
    let mut outboxes = Vec::new(alloc);
    for _worker in 0..workers {
        let senders = copies(alloc, &mut senders)?;
        outboxes.push(Outbox { senders })?;
    }
    Ok(outboxes)
}

/// Copies each of these senders.
fn copies(alloc: Global, senders: &mut Vec<InboxSender>) -> Result<Vec<InboxSender>, AllocError>
    ensures same { IfOk result (λ copies. LeadAlike senders.new.items senders.old.items) }
    ensures copies { IfOk result (λ copies. LeadAlike copies.items senders.old.items) }
{
    let mut copies = Vec::new(alloc);
    for place in 0..senders.len() {
        copies.push(senders[place].another()?)?;
    }
    Ok(copies)
}
