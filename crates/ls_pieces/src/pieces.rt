//! Coded frames: the codestreams of orders, as workers pass them to lanes.
ghost use Rattle.std.specs.Prelude.{◌≡◌, ◌^◌, ◌<◌, length, MatchResult, IfOk};
ghost use Rattle.std.specs.Arc.{arc_value};
ghost use Rattle.ls_pieces.specs.Orders.{IsOrder, IsCoded, coded};

use crate::orders::Order;
use ls_frame::{Frame, Presets};
use ls_queue::Job;
use ls_stream::{encode_side_by_side, encode_with};
use std::alloc::{AllocError, Global};
use std::marker::Model;
use std::sync::Arc;
use std::thread::Threads;

/// A coded frame: a job that was done, with the codestream of its order.
///
/// The contracts see it as the job. Its bytes are always the codestream of its order, whoever made it.
#[derive(Drop)]
pub struct Coded {
    job: Job<Order>,
    bytes: Vec<u8>,
}

impl Model for Coded {
    ghost use Rattle.ls_queue.specs.declared.replies.Job.{Job};
    ghost use Rattle.ls_pieces.specs.Orders.{Ordered, IsOrder, IsCoded};

    ghost Value = { Job Ordered };

    ghost view = { λ c. c.job };

    ghost invariant = { λ c. IsCoded c.job.item c.bytes.items };
}

/// The source and number of a job that couldn't be coded because an allocation failed.
#[derive(Clone, Copy, Debug, Drop, PartialEq, Eq)]
pub struct Uncoded {
    pub source: u8,
    pub number: u64,
}

impl Coded {
    /// Codes the order of a job. The result is of this job, and `Uncoded` has its source and its number.
    ///
    /// It allocates `code_bound` bytes and two lines before it codes.
    pub fn make(alloc: Global, job: Job<Order>) -> Result<Coded, Uncoded>
        ensures { MatchResult result (λ piece. piece ≡ job) (λ uncoded. (uncoded.source ≡ job.source) × (uncoded.number ≡ job.number)) }
    {
        let coded = code(alloc, &job.item);
        Coded::of(job, coded)
    }

    /// The same with the scans of a colour frame coded side by side, by two threads more if they can be started.
    ///
    /// Of a colour frame it allocates `code_bound` bytes, and for each scan the bound of its data and two lines.
    pub fn make_side_by_side<R: Threads>(
        rt: &R,
        alloc: Global,
        job: Job<Order>,
    ) -> Result<Coded, Uncoded>
        ensures { MatchResult result (λ piece. piece ≡ job) (λ uncoded. (uncoded.source ≡ job.source) × (uncoded.number ≡ job.number)) }
    {
        let coded = code_side_by_side(rt, alloc, &job.item);
        Coded::of(job, coded)
    }

    /// The piece of a job whose order was coded so.
    fn of(job: Job<Order>, coded: Result<Vec<u8>, AllocError>) -> Result<Coded, Uncoded>
        requires { IfOk coded (λ bytes. IsCoded job.item bytes.items) }
        ensures { MatchResult result (λ piece. piece ≡ job) (λ uncoded. (uncoded.source ≡ job.source) × (uncoded.number ≡ job.number)) }
    {
        match coded {
            Ok(bytes) => Ok(Coded { job, bytes }),
            Err(AllocError) => Err(Uncoded {
                source: job.source,
                number: job.number,
            }),
        }
    }

    /// The source of the job.
    pub fn source(&self) -> u8
        ensures { result ≡ self.now.source }
    {
        self.job.source
    }

    /// The number of the job within its source, from 0.
    pub fn number(&self) -> u64
        ensures { result ≡ self.now.number }
    {
        self.job.number
    }

    /// The order that was coded.
    pub fn order(&self) -> &Order
        ensures { result.now ≡ self.now.item }
    {
        &self.job.item
    }

    /// The frame that was coded.
    pub fn frame(&self) -> &Arc<Frame>
        ensures { arc_value result.now ≡ self.now.item.0 }
    {
        self.job.item.frame()
    }

    /// The parameters that the frame was coded with.
    pub fn presets(&self) -> &Presets
        ensures { result.now ≡ self.now.item.1 }
    {
        self.job.item.presets()
    }

    /// The codestream of the frame with these parameters, fewer than 2^32 bytes.
    pub fn bytes(&self) -> &[u8]
        ensures value { result.now ≡ coded self.now.item }
        ensures short { length result.now < 2 ^ 32 }
    {
        self.bytes.as_slice()
    }
}

/// The codestream of an order, fewer than 2^32 bytes.
fn code(alloc: Global, order: &Order) -> Result<Vec<u8>, AllocError>
    ensures { IfOk result (λ bytes. IsCoded order.now bytes.items) }
{
    let frame = &**order.frame();
    let presets = order.presets();
    encode_with(alloc, frame, presets)
}

/// The same with the scans of a colour frame coded side by side.
fn code_side_by_side<R: Threads>(
    rt: &R,
    alloc: Global,
    order: &Order,
) -> Result<Vec<u8>, AllocError>
    ensures { IfOk result (λ bytes. IsCoded order.now bytes.items) }
{
    encode_side_by_side(rt, alloc, &**order.frame(), order.presets())
}
