//! What follows from lawful replies, for any steps, and from the account of a running queue. Each law is the contract
//! of a function with an empty body.
ghost use Rattle.std.specs.Prelude.{◌≡◌, ◌≢◌, ℕ, ◌-◌, ◌<◌, ◌^◌, ◌++◌, [], ◌∷◌, List, length, All, IsTrue, None, Some, slice_get, slice_index_or};
ghost use Rattle.std.specs.List.{AllByRecursion, range_with_len};
ghost use Rattle.ls_queue.specs.Queue.{new_queue, numbers_of};
ghost use Rattle.ls_queue.specs.Faults.{open_fault};
ghost use Rattle.ls_queue.specs.Steps.{is_known, replies_of};
ghost use Rattle.ls_queue.specs.History.{Event, event, history, sent, taken, held, items_of, jobs_out, AreLawful, IsHistory, IsReplay};
ghost use Rattle.ls_queue.specs.View.Account.{IsCounted, Kept, EachOnce, EachItem, NoOthers, EachRises, MarksAreLast, AllIsTaken, LastIsSettled};
ghost use Rattle.ls_queue.specs.View.Running.{AreInOrder, Balances, IsLowestMissing, TookAll, sources_of, puts_of, parts_of, items_ended};
ghost use Rattle.ls_queue.specs.declared.running.Ended.{Ended};
ghost use Rattle.ls_queue.specs.declared.running.Finished.{Finished};
ghost use Rattle.ls_queue.specs.declared.running.Queue.{Queue};
ghost use Rattle.ls_queue.specs.declared.running.WorkerSeat.{WorkerSeat};
ghost use Rattle.ls_queue.specs.declared.views.Message.{Message};
ghost use Rattle.ls_queue.specs.declared.views.View.{View};

use crate::faults::QueueFault;
use crate::replies::{Close, Put, Take};
use crate::steps::{Reply, Step};

/// For steps that name existing sources, a queue's replies are lawful, and no other replies are.
pub fn lawful_replies_are_the_queues()
    ensures lawful { (sources capacity : ℕ) (steps : List Step) → All (λ step. IsTrue (is_known sources step)) steps
        → IsReplay sources capacity steps (replies_of (new_queue sources capacity) steps) }
    ensures no_others { (sources capacity : ℕ) (steps : List Step) (replies : List Reply) → All (λ step. IsTrue (is_known sources step)) steps
        → length replies ≡ length steps → AreLawful sources capacity [] (history steps replies)
        → replies ≡ replies_of (new_queue sources capacity) steps }
{}

/// The last number of a source is 2^64 - 2, shown by an example: after it a put returns `Spent`, whether or not the
/// queue is full, but the job held can still be taken, and the source can be closed.
pub fn a_source_runs_out_of_numbers()
    ensures { replies_of (record (new_queue 1 1) { counts = (2 ^ 64 - 2) ∷ [] })
        (Step.Put 0 7 ∷ Step.Put 0 8 ∷ Step.Take ∷ Step.Put 0 9 ∷ Step.Close 0 ∷ Step.Put 0 9 ∷ [])
        ≡ Reply.Put (Put.Taken (2 ^ 64 - 2)) ∷ Reply.Put (Put.Spent 8) ∷ Reply.Take (Take.Job (record { source = 0; number = 2 ^ 64 - 2; item = 7 }))
        ∷ Reply.Put (Put.Spent 9) ∷ Reply.Close (Close.Now (2 ^ 64 - 1)) ∷ Reply.Put (Put.Closed 9) ∷ [] }
{}

/// Each source's items are taken once each, in the order put: those taken, followed by those held, are those that it
/// sent; and the jobs taken have consecutive numbers from 0.
pub fn items_are_handed_out_once_in_order()
    ensures order { (sources capacity : ℕ) (events : List Event) → IsHistory sources capacity events
        → (s : ℕ) → taken s events ++ items_of s (held events) ≡ sent s events }
    ensures once { (sources capacity : ℕ) (events : List Event) → IsHistory sources capacity events
        → (s : ℕ) → numbers_of s (jobs_out events) ≡ range_with_len 0 (length (taken s events)) }
{}

/// No item of a source is accepted after its close: a later put returns `Closed`, and what the source sent stays the
/// same.
pub fn nothing_is_put_in_after_a_close()
    ensures closed { (sources capacity s x : ℕ) (before between later : List Event) (close reply : Reply)
        → AreLawful sources capacity [] (before ++ event (Step.Close s) close ∷ between ++ event (Step.Put s x) reply ∷ later)
        → reply ≡ Reply.Put (Put.Closed x) }
    ensures sent { (sources capacity s : ℕ) (before later : List Event) (close : Reply)
        → AreLawful sources capacity [] (before ++ event (Step.Close s) close ∷ later)
        → sent s (before ++ event (Step.Close s) close ∷ later) ≡ sent s before }
{}

/// Once a take returns `Done`, everything that each source sent has been taken, and this stays true after any later
/// steps.
pub fn all_is_taken_once_done()
    ensures { (sources capacity : ℕ) (before later : List Event)
        → IsHistory sources capacity (before ++ event Step.Take (Reply.Take Take.Done) ∷ later)
        → (s : ℕ) → taken s (before ++ event Step.Take (Reply.Take Take.Done) ∷ later) ≡ sent s (before ++ event Step.Take (Reply.Take Take.Done) ∷ later) }
{}

/// Between any two steps of a running queue, whichever threads hold its seats: each item that was put is one job, which
/// either was taken once, by one worker, or is in the channel once; it has the number under which it was put, and there
/// are no other jobs.
pub fn each_item_is_taken_or_in_the_channel<T>()
    ensures once { (items : List (Message T)) (views : List (View T)) → Kept items views → EachOnce items views }
    ensures item { (items : List (Message T)) (views : List (View T)) → Kept items views → EachItem items views }
    ensures no_others { (items : List (Message T)) (views : List (View T)) → Kept items views → NoOthers items views }
{}

/// Between any two steps: the numbers of each source rise along the channel and along what each worker took, and each
/// number that was taken is below all numbers of that source in the channel.
pub fn numbers_rise_along_the_channel_and_at_each_worker<T>()
    ensures { (items : List (Message T)) (views : List (View T)) → Kept items views → EachRises items views }
{}

/// Between any two steps: the end marks taken and those in the channel are those that were sent, each with the number
/// of items of every source, and in the channel no job comes after a mark.
pub fn no_job_stands_behind_an_end_mark<T>()
    ensures { (items : List (Message T)) (views : List (View T)) → Kept items views → MarksAreLast items views }
{}

/// Once a worker has taken an end mark, every item that was put has been taken, once. So `Done` means done.
pub fn all_is_taken_once_a_mark_is<T>()
    ensures { (items : List (Message T)) (views : List (View T)) → Kept items views → AllIsTaken views }
{}

/// Once all passes are joined in one, each worker's with its end mark, the channel is empty.
pub fn the_channel_is_empty_once_all_passes_are_joined<T>()
    ensures { (items : List (Message T)) (views : List (View T)) → Kept items views → LastIsSettled items views }
{}

/// If the ends were passed to `finish` in the order of their sources, each count of the account is the number of items
/// that the source put before its end.
pub fn each_count_is_that_of_its_end<T>()
    ensures { (counts : List ℕ) (ended : List (Ended T)) (s : ℕ) (end : Ended T) → AreInOrder 0 ended → slice_get ended s ≡ Some end
        → IsCounted counts (parts_of ended) s → slice_index_or counts s 0 ≡ length (items_ended end) }
{}

/// The source that `finish` names is one of the queue's. It has no end among those passed, and each source below it has
/// one.
pub fn the_lowest_missing_source_is_named<T>()
    ensures known { (sources source : ℕ) (ended : List (Ended T)) → IsLowestMissing sources ended source → source < sources }
    ensures missing { (sources source : ℕ) (ended : List (Ended T)) → IsLowestMissing sources ended source
        → AllByRecursion (λ (end : Ended T). end.source ≢ source) ended }
    ensures lowest { (sources source : ℕ) (ended : List (Ended T)) → IsLowestMissing sources ended source
        → (s : ℕ) → s < source → (n : ℕ) × (end : Ended T) × (slice_get ended n ≡ Some end) × (end.source ≡ s) }
{}

/// After `settle` has succeeded: of each source the workers took the jobs with the numbers below its count, each once
/// and with the item that was put under that number, and no others.
pub fn a_settled_queue_was_taken_whole<T>()
    ensures { (queue : Queue T) (finished : Finished T) (seats : List (WorkerSeat T)) (counts : List ℕ) → Balances queue finished seats counts
        → TookAll (sources_of queue) (puts_of finished) seats counts }
{}

/// The smallest and the largest numbers that a queue can be opened with, the fault of each number just out of range,
/// and the first fault where there are several.
pub fn queues_have_these_limits()
    ensures least { open_fault 1 1 1 ≡ None }
    ensures most { open_fault 16 16 256 ≡ None }
    ensures no_source { open_fault 0 1 1 ≡ Some QueueFault.Sources }
    ensures sources { open_fault 17 16 256 ≡ Some QueueFault.Sources }
    ensures no_capacity { open_fault 1 1 0 ≡ Some QueueFault.Capacity }
    ensures capacity { open_fault 16 16 257 ≡ Some QueueFault.Capacity }
    ensures no_worker { open_fault 1 0 1 ≡ Some QueueFault.Workers }
    ensures workers { open_fault 16 17 256 ≡ Some QueueFault.Workers }
    ensures first { open_fault 0 0 0 ≡ Some QueueFault.Sources }
    ensures second { open_fault 1 0 0 ≡ Some QueueFault.Capacity }
{}
