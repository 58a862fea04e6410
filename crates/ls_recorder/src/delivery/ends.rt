//! The receiving and the sending ends of boxes.
ghost use Rattle.std.specs.Prelude.{◌≡◌, ◌<◌, ◌++◌, ◌∷◌, [], length, map, IfOk, MatchOption, MatchResult};
ghost use Rattle.crossbeam_channel.specs.Claims.{IsSeatAt};
ghost use Rattle.crossbeam_channel.specs.Ends.{sends_on, receives_on};
ghost use Rattle.ls_recorder.specs.View.Answers.{sent_by, received_by, IsSentTo};

use crate::delivery::answers::{Answer, AnswerReceived, AnswerSent, BoxRule, BoxView, SenderMade};
use crossbeam_channel::{Pass, RuledReceiver, RuledSender};
use ls_queue::{Patience, receive};
use std::alloc::AllocError;
use std::sync::Wait;

/// The receiving end of a box: the results of one source.
#[derive(Drop)]
pub struct Inbox {
    pub(crate) source: u8,
    pub(crate) receiver: RuledReceiver<Answer, BoxView, BoxRule>,
    pub(crate) pass: Pass<Answer, BoxView>,
    pub(crate) patience: Patience,
    ghost own: { IsSeatAt (receives_on receiver) pass },
}

/// A sender to the inbox of one source.
#[derive(Drop)]
pub struct InboxSender {
    pub channel: RuledSender<Answer, BoxView, BoxRule>,
    pub pass: Pass<Answer, BoxView>,
    ghost own: { IsSeatAt (sends_on channel) pass },
}

/// The senders of one worker: it sends its results here, whatever their source.
#[derive(Drop)]
pub struct Outbox {
    /// A sender for each source, in order from source 0.
    pub(crate) senders: Vec<InboxSender>,
}

impl Inbox {
    /// Receives a result, and waits for one; `None` if nobody is left to send any: then nothing was received. It stays
    /// the same box.
    ///
    /// Nothing is promised of which result comes, and when.
    pub fn recv<R: Wait>(&mut self, rt: &R) -> Option<Answer>
        ensures source { self.new.source ≡ self.old.source }
        ensures same { receives_on self.new.receiver ≡ receives_on self.old.receiver }
        ensures received { MatchOption result (received_by self.new.pass ≡ received_by self.old.pass)
            (λ answer. received_by self.new.pass ≡ received_by self.old.pass ++ answer ∷ []) }
    {
        receive::<Answer, BoxView, BoxRule, AnswerReceived, R>(
            rt,
            &self.receiver,
            &mut self.pass,
            &mut self.patience,
        ).ok()
    }
}

impl InboxSender {
    /// Makes another sender to the same inbox.
    pub fn another(&mut self) -> Result<InboxSender, AllocError>
        ensures same { sends_on self.new.channel ≡ sends_on self.old.channel }
        ensures sent { sent_by self.new.pass ≡ sent_by self.old.pass }
        ensures another { IfOk result (λ sender. sends_on sender.channel ≡ sends_on self.old.channel) }
    {
        let channel = self.channel.try_clone()?;
        let pass = channel.another::<SenderMade>(&mut self.pass);
        Ok(InboxSender { channel, pass })
    }
}

impl Outbox {
    /// The number of sources that the boxes were made for.
    pub fn sources(&self) -> usize
        ensures { result ≡ length self.now.senders.items }
    {
        self.senders.len()
    }

    /// Sends a result to the inbox of a source, which has to be one that the boxes were made for. Waits while the inbox
    /// is full. Returns the result if the lane that receives from the inbox is gone; then nothing was sent. Each sender
    /// still leads to its inbox.
    pub fn send<R: Wait>(&mut self, rt: &R, source: u8, answer: Answer) -> Result<(), Answer>
        requires { source < length self.old.senders.items }
        ensures sent { MatchResult result
            (λ _. IsSentTo (map (λ sender. sent_by sender.pass) self.old.senders.items) source answer (map (λ sender. sent_by sender.pass) self.new.senders.items))
            (λ back. (back ≡ answer) × (map (λ sender. sent_by sender.pass) self.new.senders.items ≡ map (λ sender. sent_by sender.pass) self.old.senders.items)) }
        ensures sources { length self.new.senders.items ≡ length self.old.senders.items }
        ensures senders { map (λ sender. sends_on sender.channel) self.new.senders.items ≡ map (λ sender. sends_on sender.channel) self.old.senders.items }
    {
        let sender = &mut self.senders[source as usize];
        match sender
            .channel
            .send_as::<AnswerSent, R>(rt, &mut sender.pass, answer)
        {
            Ok(()) => Ok(()),
            Err(refused) => Err(refused.into_inner()),
        }
    }
}
