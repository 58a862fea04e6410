//! Encoding and decoding a scan, one event at a time (T.87 A.2.1 to A.7).
ghost use Rattle.std.specs.Prelude.{◌≡◌, ◌+◌, ◌-◌, ◌*◌, ◌/◌, ◌^◌, ◌<◌, ◌≤◌, ◌++◌, ◌∷◌, [], List, length, slice_index, min, ℕ, true, false, not, IsTrue, IfOk, IfErr, IfSome, IfNone};
ghost use Rattle.ls_frame.specs.Parameters.{qbpp_of, limit_of};
ghost use Rattle.ls_bits.specs.Golomb.{IsGolomb, most_value};
ghost use Rattle.ls_coding.specs.Samples.{AreSamples, Interrupts};
ghost use Rattle.ls_coding.specs.Contexts.{is_run};
ghost use Rattle.ls_coding.specs.Errors.{median};
ghost use Rattle.ls_coding.specs.View.SignedContexts.{signed_context};
ghost use Rattle.ls_coding.specs.Runs.{order, samples_of_ones, run_of, run_word, word_bits, tail_of, TailFits};
ghost use Rattle.ls_coding.specs.Interruptions.{ri_type_of, interruption_error};
ghost use Rattle.ls_coding.specs.Events.{Event, run, golomb_bits};
ghost use Rattle.ls_coding.specs.View.States.{Coding, state_of, context_in, regular_error_in, regular_word_in, interruption_word_in, regular_after, run_after, interruption_after, IsRegularEvent, IsInterruptionEvent};
ghost use Rattle.ls_coding.specs.View.SureZeros.{sure_zeros};
ghost use Rattle.ls_coding.specs.View.Plans.{regular_plan, interruption_plan, IsReadBy, IsTheSample, NoSample};
ghost use Rattle.ls_coding.specs.View.Calls.{MayCodeRegular, MayCodeMirrored, MayCodeRun, MayCodeInterruption};
ghost use Rattle.ls_coding.specs.View.Mirrors.{IsMirrored};
ghost use Rattle.ls_coding.specs.declared.neighbours.Neighbours.{Neighbours};

use crate::context::{context_of_signed, signed_context};
use crate::counters::Counters;
use crate::error::median;
use crate::mirrored::{Mirrored, mirror};
use crate::neighbours::Neighbours;
use crate::plan::Plan;
use crate::run::{
    RunWord, Tail, Walked, order, orders_from, samples_of_one, samples_of_ones, walk,
};
use crate::word::Word;
use ls_bits::CodeFault;
use ls_frame::Presets;
use std::marker::Model;

/// The state of encoding or decoding one scan: the counters of each context, and RUNindex (T.87 A.2.1).
///
/// A state serves one scan, from its first sample to its last, and either encodes or decodes it. Each call is one
/// event: a sample of regular mode, a run, or the sample that interrupts a run; `interrupted` says whether that last
/// one comes next. Samples and neighbours are at most MAXVAL, the presets' `maxval`. No call allocates.
#[derive(Drop)]
pub struct State {
    counters: Counters,
    /// RUNindex, 0 to 31.
    run_index: u32,
    /// Whether the sample that interrupts a run comes next.
    interrupted: bool,
}

impl Model for State {
    ghost use Rattle.std.specs.Prelude.{◌≡◌, ◌≤◌};
    ghost use Rattle.ls_coding.specs.View.States.{Coding};
    ghost use Rattle.ls_coding.specs.View.Fields.{all_regular, interrupting_at, IsSoundState};

    ghost Value = { Coding };

    ghost view = { λ state. record {
      parameters = state.counters.presets;
      contexts = all_regular state.counters;
      ri_type_0 = interrupting_at state.counters 0;
      ri_type_1 = interrupting_at state.counters 1;
      run_index = state.run_index;
      interrupted = state.interrupted;
    } };

    ghost invariant = { λ state. IsSoundState state.run_index state.counters };
}

impl State {
    /// The state at a scan's start (A.2.1): each context's counters at their initial values, RUNindex 0, and
    /// `interrupted` false. Takes any presets, since all of them are legal. Allocates nothing and cannot fail.
    pub fn new(presets: &Presets) -> State
        ensures { result ≡ state_of presets.now [] }
    {
        State {
            counters: Counters::new(*presets),
            run_index: 0,
            interrupted: false,
        }
    }

    /// Codes a sample of regular mode (A.3 to A.6): returns its word, LG(k, LIMIT) of its mapped error, MErrval, in at
    /// most LIMIT bits, and then counts its error in its context.
    ///
    /// Requires neighbours that call for regular mode (`mode_of`), these and the sample at most MAXVAL, and that
    /// `interrupted` is false, which it is afterwards too. Cannot fail.
    ///
    /// This is the simple form, for one sample by itself. The encoder computes `mirror` beforehand and uses
    /// `code_regular_at`.
    pub fn code_regular(&mut self, neighbours: &Neighbours, sample: u16) -> Word
        requires may { MayCodeRegular self.old neighbours.now sample }
        ensures word { result ≡ regular_word_in self.old neighbours.now sample }
        ensures golomb { IsGolomb result.k result.glimit (qbpp_of self.old.parameters.maxval) }
        ensures value { result.value ≤ most_value (qbpp_of self.old.parameters.maxval) }
        ensures cost { length (golomb_bits self.old.parameters result) ≤ limit_of self.old.parameters.maxval }
        ensures state { self.new ≡ regular_after self.old (context_in self.old neighbours.now).number
            (regular_error_in self.old neighbours.now sample) }
        ensures events { (events : List Event) → self.old ≡ state_of self.old.parameters events
            → IsRegularEvent self.old.parameters events neighbours.now sample result self.new }
    {
        let mirrored = mirror(&self.counters.presets, neighbours, sample);
        self.code_regular_at(mirrored)
    }

    /// As `code_regular`, for a sample for which `mirror` was computed beforehand with this scan's presets, for example
    /// a line at a time.
    ///
    /// Requires a context below 365, a prediction and a sample of at most MAXVAL, and that `interrupted` is false.
    pub fn code_regular_at(&mut self, mirrored: Mirrored) -> Word
        requires may { MayCodeMirrored self.old mirrored }
        ensures word { (neighbours : Neighbours) (sample : ℕ) → IsMirrored self.old.parameters neighbours sample mirrored
            → result ≡ regular_word_in self.old neighbours sample }
        ensures golomb { IsGolomb result.k result.glimit (qbpp_of self.old.parameters.maxval) }
        ensures value { result.value ≤ most_value (qbpp_of self.old.parameters.maxval) }
        ensures cost { length (golomb_bits self.old.parameters result) ≤ limit_of self.old.parameters.maxval }
        ensures state { (neighbours : Neighbours) (sample : ℕ) → IsMirrored self.old.parameters neighbours sample mirrored
            → self.new ≡ regular_after self.old (context_in self.old neighbours).number (regular_error_in self.old neighbours sample) }
        ensures events { (neighbours : Neighbours) (sample : ℕ) → IsMirrored self.old.parameters neighbours sample mirrored
            → (events : List Event) → self.old ≡ state_of self.old.parameters events
            → IsRegularEvent self.old.parameters events neighbours sample result self.new }
        ensures uninterrupted { self.new.interrupted ≡ false }
        ensures parameters { self.new.parameters ≡ self.old.parameters }
    {
        self.counters.code(mirrored)
    }

    /// The plan for decoding the next sample of regular mode: the code of its word, and what the word's value stands
    /// for (A.3 to A.5).
    ///
    /// Requires of the neighbours and of `interrupted` what `code_regular` does. Changes nothing and cannot fail.
    ///
    /// This is the simple form, for one sample by itself. The decoder computes context and median in two parts each and
    /// uses `plan_regular_with`.
    pub fn plan_regular(&self, neighbours: &Neighbours) -> Plan
        requires samples { AreSamples self.now.parameters.maxval neighbours.now }
        requires regular { is_run neighbours.now ≡ false }
        requires uninterrupted { self.now.interrupted ≡ false }
        ensures plan { result ≡ regular_plan self.now neighbours.now }
        ensures neighbours { result.neighbours ≡ neighbours.now }
        ensures own { result ≡ regular_plan self.now result.neighbours }
        ensures golomb { IsGolomb result.k result.glimit (qbpp_of self.now.parameters.maxval) }
        ensures word { (sample : ℕ) → IsReadBy result (regular_word_in self.now neighbours.now sample) }
    {
        let context = signed_context(&self.counters.presets, neighbours);
        self.plan_regular_at(context, u32::from(median(neighbours)), neighbours)
    }

    /// As `plan_regular`, for a sample whose context, and the median of whose neighbours (A.4.1), were computed
    /// beforehand: `context` is what `signed_context` or `whole_context` gives for this scan's presets and these
    /// neighbours; `middle` is what `median_by` gives. Requires the same otherwise.
    pub fn plan_regular_at(&self, context: i16, middle: u32, neighbours: &Neighbours) -> Plan
        requires context { context ≡ signed_context self.now.parameters neighbours.now }
        requires middle { middle ≡ median neighbours.now }
        requires samples { AreSamples self.now.parameters.maxval neighbours.now }
        requires regular { is_run neighbours.now ≡ false }
        requires uninterrupted { self.now.interrupted ≡ false }
        ensures plan { result ≡ regular_plan self.now neighbours.now }
        ensures neighbours { result.neighbours ≡ neighbours.now }
        ensures own { result ≡ regular_plan self.now result.neighbours }
        ensures golomb { IsGolomb result.k result.glimit (qbpp_of self.now.parameters.maxval) }
        ensures word { (sample : ℕ) → IsReadBy result (regular_word_in self.now neighbours.now sample) }
    {
        self.plan_regular_with(self.counters.presets, context, middle, neighbours)
    }

    /// As `plan_regular_at`, for a caller that holds this scan's presets by value, so that they stay in registers:
    /// `presets` is what `presets` gives. Requires the same otherwise.
    pub fn plan_regular_with(
        &self,
        presets: Presets,
        context: i16,
        middle: u32,
        neighbours: &Neighbours,
    ) -> Plan
        requires presets { presets ≡ self.now.parameters }
        requires context { context ≡ signed_context self.now.parameters neighbours.now }
        requires middle { middle ≡ median neighbours.now }
        requires samples { AreSamples self.now.parameters.maxval neighbours.now }
        requires regular { is_run neighbours.now ≡ false }
        requires uninterrupted { self.now.interrupted ≡ false }
        ensures plan { result ≡ regular_plan self.now neighbours.now }
        ensures neighbours { result.neighbours ≡ neighbours.now }
        ensures own { result ≡ regular_plan self.now result.neighbours }
        ensures golomb { IsGolomb result.k result.glimit (qbpp_of self.now.parameters.maxval) }
        ensures word { (sample : ℕ) → IsReadBy result (regular_word_in self.now neighbours.now sample) }
    {
        self.counters
            .plan(presets, context_of_signed(context), middle, neighbours)
    }

    /// Decodes a sample of regular mode: returns the one sample whose word has this value, MErrval, and leaves the
    /// state as if that sample had been coded.
    ///
    /// Requires a plan that `plan_regular` made of this state, which hasn't changed since; a value of at most 2^qbpp,
    /// as `take_golomb` returns; and that `interrupted` is false. NotCanonical exactly if no sample of at most MAXVAL
    /// has the value: its error isn't a reduced one (A.4.5). The state is then unchanged.
    pub fn accept_regular(&mut self, plan: Plan, value: u32) -> Result<u16, CodeFault>
        requires plan { plan ≡ regular_plan self.old plan.neighbours }
        requires samples { AreSamples self.old.parameters.maxval plan.neighbours }
        requires value { value ≤ most_value (qbpp_of self.old.parameters.maxval) }
        requires uninterrupted { self.old.interrupted ≡ false }
        ensures ok { IfOk result (λ sample. IsTheSample (λ one. one ≤ self.old.parameters.maxval)
            (λ one. (regular_word_in self.old plan.neighbours one).value) value sample) }
        ensures state { IfOk result (λ sample. self.new ≡ regular_after self.old (context_in self.old plan.neighbours).number
            (regular_error_in self.old plan.neighbours sample)) }
        ensures events { (events : List Event) → self.old ≡ state_of self.old.parameters events
            → IfOk result (λ sample. IsRegularEvent self.old.parameters events plan.neighbours sample
            (regular_word_in self.old plan.neighbours sample) self.new) }
        ensures fault { IfErr result (λ fault. fault ≡ CodeFault.NotCanonical) }
        ensures unchanged { IfErr result (λ fault. self.new ≡ self.old) }
        ensures none { IfErr result (λ fault. NoSample (λ one. one ≤ self.old.parameters.maxval)
            (λ one. (regular_word_in self.old plan.neighbours one).value) value) }
    {
        self.counters
            .accept(plan.number, plan.negative, plan.prediction, plan.k, value)
    }

    /// As `accept_regular`, for a value that is sure to have a sample, so it cannot fail. Requires that value / 2^k,
    /// the number of zeros at the front of its word, is below what `SureZeros` of this scan's presets gives for the
    /// plan's k.
    #[inline(always)]
    pub fn accept_sure(&mut self, plan: Plan, value: u32) -> u16
        requires plan { plan ≡ regular_plan self.old plan.neighbours }
        requires samples { AreSamples self.old.parameters.maxval plan.neighbours }
        requires value { value / 2 ^ plan.k < sure_zeros self.old.parameters plan.k }
        requires uninterrupted { self.old.interrupted ≡ false }
        ensures sample { IsTheSample (λ one. one ≤ self.old.parameters.maxval)
            (λ one. (regular_word_in self.old plan.neighbours one).value) value result }
        ensures state { self.new ≡ regular_after self.old (context_in self.old plan.neighbours).number
            (regular_error_in self.old plan.neighbours result) }
    {
        self.accept_sure_with(self.counters.presets, plan, value)
    }

    /// As `accept_sure`, for a caller that holds this scan's presets by value, so that they stay in registers:
    /// `presets` is what `presets` gives. Requires the same otherwise.
    #[inline(always)]
    pub fn accept_sure_with(&mut self, presets: Presets, plan: Plan, value: u32) -> u16
        requires presets { presets ≡ self.old.parameters }
        requires plan { plan ≡ regular_plan self.old plan.neighbours }
        requires samples { AreSamples self.old.parameters.maxval plan.neighbours }
        requires value { value / 2 ^ plan.k < sure_zeros self.old.parameters plan.k }
        requires uninterrupted { self.old.interrupted ≡ false }
        ensures sample { IsTheSample (λ one. one ≤ self.old.parameters.maxval)
            (λ one. (regular_word_in self.old plan.neighbours one).value) value result }
        ensures state { self.new ≡ regular_after self.old (context_in self.old plan.neighbours).number
            (regular_error_in self.old plan.neighbours result) }
    {
        self.counters.accept_sure(
            presets,
            plan.number,
            plan.negative,
            plan.prediction,
            plan.k,
            value,
        )
    }

    /// Codes a run of `count` samples that are equal to Ra (A.7.1): up to the line's end (`eol`), or up to a sample
    /// that interrupts it, which then comes next (`interrupted` is true).
    ///
    /// Requires at least one sample if the run ends with the line (a run that is interrupted may have none), and that
    /// `interrupted` is false. RUNindex rises by 1 for each bit 1 that stands for 2^J samples, to at most 31. The run's
    /// bits, with those of the sample that interrupts it, are at most LIMIT times the number of these samples. Cannot
    /// fail.
    pub fn code_run(&mut self, count: u32, eol: bool) -> RunWord
        requires may { MayCodeRun self.old (run_of count (not eol)) }
        ensures word { result ≡ run_word self.old.run_index (run_of count (not eol)) }
        ensures tail { TailFits result.tail }
        ensures full_cost { IsTrue eol → length (word_bits result) ≤ limit_of self.old.parameters.maxval * count }
        ensures interrupted_cost { IsTrue (not eol)
            → length (word_bits result) + (limit_of self.old.parameters.maxval - order self.new.run_index - 1)
            ≤ limit_of self.old.parameters.maxval * (count + 1) }
        ensures state { self.new ≡ run_after self.old (run_of count (not eol)) }
        ensures events { (events : List Event) → self.old ≡ state_of self.old.parameters events
            → self.new ≡ state_of self.old.parameters (events ++ run (run_of count (not eol)) ∷ []) }
    {
        let walked = walk(self.run_index, count);
        self.run_index = walked.index;
        self.interrupted = !eol;
        RunWord {
            ones: walked.ones,
            tail: tail(walked, eol),
        }
    }

    /// Codes the sample that interrupts a run (A.7.2): returns its word, which follows the run's bits: LG(k, glimit) of
    /// EMErrval, in at most glimit bits, where glimit is LIMIT - J - 1 with J at the RUNindex that the run left.
    ///
    /// Requires the neighbours of this very sample, these and the sample at most MAXVAL, the sample other than Ra, and
    /// that `interrupted` is true. Afterwards RUNindex is 1 lower unless it was 0, and `interrupted` is false. Cannot
    /// fail.
    pub fn code_interruption(&mut self, neighbours: &Neighbours, sample: u16) -> Word
        requires may { MayCodeInterruption self.old neighbours.now sample }
        ensures word { result ≡ interruption_word_in self.old neighbours.now sample }
        ensures golomb { IsGolomb result.k result.glimit (qbpp_of self.old.parameters.maxval) }
        ensures value { result.value ≤ most_value (qbpp_of self.old.parameters.maxval) }
        ensures cost { length (golomb_bits self.old.parameters result)
            ≤ limit_of self.old.parameters.maxval - order self.old.run_index - 1 }
        ensures state { self.new ≡ interruption_after self.old (ri_type_of neighbours.now)
            (interruption_error self.old.parameters neighbours.now sample) }
        ensures events { (events : List Event) → self.old ≡ state_of self.old.parameters events
            → IsInterruptionEvent self.old.parameters events neighbours.now sample result self.new }
    {
        let word = self
            .counters
            .code_interruption(self.run_index, neighbours, sample);
        self.run_index = self.run_index.saturating_sub(1);
        self.interrupted = false;
        word
    }

    /// Decodes a bit 1 of a run (A.7.1.2), with `left` samples left in the line, and returns the number of samples that
    /// the bit stands for: 2^J, or `left` if that is fewer, which ends the run with the line.
    ///
    /// Requires at least one sample left, and that `interrupted` is false. RUNindex rises by 1, to at most 31, if the
    /// bit stands for 2^J samples, and is else unchanged. Cannot fail.
    pub fn accept_one(&mut self, left: u32) -> u32
        requires uninterrupted { self.old.interrupted ≡ false }
        requires some { 0 < left }
        ensures count { result ≡ min (2 ^ order self.old.run_index) left }
        ensures state { self.new ≡ run_after self.old (run_of result false) }
        ensures events { (events : List Event) → self.old ≡ state_of self.old.parameters events
            → self.new ≡ state_of self.old.parameters (events ++ run (run_of result false) ∷ []) }
    {
        let samples = samples_of_one(self.run_index);
        if samples > left {
            return left;
        }
        self.run_index = (self.run_index + 1).min(31);
        samples
    }

    /// J at this RUNindex, 0 to 15 (A.2.1): the number of bits after a run's bit 0, which give the number of its
    /// samples left (A.7.1.2). Changes nothing and cannot fail.
    pub fn break_width(&self) -> u32
        ensures value { result ≡ order self.now.run_index }
        ensures small { result ≤ 15 }
    {
        order(self.run_index)
    }

    /// Decodes the end of a run that a sample interrupts (A.7.1.2): its last `rest` samples, the number in the bits
    /// after its bit 0, with `left` samples left in the line. The sample that interrupts it comes next (`interrupted`
    /// is true).
    ///
    /// Requires `rest` below 2^J, so a number of `break_width` bits, and that `interrupted` is false. NotCanonical
    /// exactly if `rest` is `left` or more, which leaves no sample to interrupt the run; the state is then unchanged.
    pub fn accept_break(&mut self, rest: u32, left: u32) -> Result<(), CodeFault>
        requires uninterrupted { self.old.interrupted ≡ false }
        requires rest { rest < 2 ^ order self.old.run_index }
        ensures ok { IfOk result (λ _. rest < left) }
        ensures state { IfOk result (λ _. self.new ≡ run_after self.old (run_of rest true)) }
        ensures events { (events : List Event) → self.old ≡ state_of self.old.parameters events
            → IfOk result (λ _. self.new ≡ state_of self.old.parameters (events ++ run (run_of rest true) ∷ [])) }
        ensures fault { IfErr result (λ fault. (fault ≡ CodeFault.NotCanonical) × (left ≤ rest)) }
        ensures unchanged { IfErr result (λ fault. self.new ≡ self.old) }
    {
        if rest >= left {
            return Err(CodeFault::NotCanonical);
        }
        self.interrupted = true;
        Ok(())
    }

    /// J at this RUNindex and at each one after it, up to 31 (A.2.1): element n is the number of bits after the bit 0
    /// of a run with n bits 1. Changes nothing and cannot fail.
    #[inline(always)]
    pub fn break_widths(&self) -> &'static [u32]
        ensures value { (k : ℕ) → slice_index result.now k ≡ order (self.now.run_index + k) }
        ensures small { (k : ℕ) → slice_index result.now k ≤ 15 }
        ensures count { length result.now ≡ 32 - self.now.run_index }
        ensures within { self.now.run_index ≤ 31 }
    {
        orders_from(self.run_index)
    }

    /// Decodes a complete run that a sample interrupts (A.7.1.2), from the number of its bits 1, `ones`, and the number
    /// after its bit 0, `rest`, with `left` samples left in the line. Returns the number of its samples; the one that
    /// interrupts it comes next (`interrupted` is true). The state is then as `accept_one` for each bit 1 and
    /// `accept_break` leave it.
    ///
    /// Requires no more bits 1 than raise RUNindex to 31; `rest` below 2^J at the RUNindex that they raise it to, so a
    /// number of as many bits as `break_widths` says; and that `interrupted` is false. None exactly if the run would
    /// have `left` samples or more, which leaves no sample to interrupt it; the state is then unchanged.
    #[inline(always)]
    pub fn accept_run(&mut self, ones: u32, rest: u32, left: u32) -> Option<u32>
        requires uninterrupted { self.old.interrupted ≡ false }
        requires ones { self.old.run_index + ones ≤ 31 }
        requires rest { rest < 2 ^ order (self.old.run_index + ones) }
        ensures count { IfSome result (λ count. count ≡ samples_of_ones ones self.old.run_index + rest) }
        ensures short { IfSome result (λ count. count < left) }
        ensures word { IfSome result (λ count. run_word self.old.run_index (run_of count true)
            ≡ record { ones = ones; tail = Tail.Interrupted (order (self.old.run_index + ones)) rest }) }
        ensures state { IfSome result (λ count. self.new ≡ run_after self.old (run_of count true)) }
        ensures events { (events : List Event) → self.old ≡ state_of self.old.parameters events
            → IfSome result (λ count. self.new ≡ state_of self.old.parameters (events ++ run (run_of count true) ∷ [])) }
        ensures none { IfNone result (left ≤ samples_of_ones ones self.old.run_index + rest) }
        ensures unchanged { IfNone result (self.new ≡ self.old) }
    {
        let count = samples_of_ones(self.run_index, ones) + rest;
        if count >= left {
            return None;
        }
        self.run_index += ones;
        self.interrupted = true;
        Some(count)
    }

    /// The plan for decoding the sample that interrupts a run: the code of its word, and what the word's value stands
    /// for (A.7.2).
    ///
    /// Requires the neighbours of that sample, each at most MAXVAL, and that `interrupted` is true. Changes nothing and
    /// cannot fail.
    pub fn plan_interruption(&self, neighbours: &Neighbours) -> Plan
        requires samples { AreSamples self.now.parameters.maxval neighbours.now }
        requires interrupted { self.now.interrupted ≡ true }
        ensures plan { result ≡ interruption_plan self.now neighbours.now }
        ensures neighbours { result.neighbours ≡ neighbours.now }
        ensures own { result ≡ interruption_plan self.now result.neighbours }
        ensures golomb { IsGolomb result.k result.glimit (qbpp_of self.now.parameters.maxval) }
        ensures word { (sample : ℕ) → IsReadBy result (interruption_word_in self.now neighbours.now sample) }
    {
        self.counters.plan_interruption(self.run_index, neighbours)
    }

    /// Decodes the sample that interrupts a run: returns the one sample whose word has this value, EMErrval, and leaves
    /// the state as if that sample had been coded: RUNindex is 1 lower unless it was 0, and `interrupted` is false.
    ///
    /// Requires a plan that `plan_interruption` made of this state, which hasn't changed since; a value of at most
    /// 2^qbpp, as `take_golomb` returns; and that `interrupted` is true. NotCanonical exactly if no sample of at most
    /// MAXVAL, other than Ra, has the value. The state is then unchanged.
    pub fn accept_interruption(&mut self, plan: Plan, value: u32) -> Result<u16, CodeFault>
        requires plan { plan ≡ interruption_plan self.old plan.neighbours }
        requires samples { AreSamples self.old.parameters.maxval plan.neighbours }
        requires value { value ≤ most_value (qbpp_of self.old.parameters.maxval) }
        requires interrupted { self.old.interrupted ≡ true }
        ensures ok { IfOk result (λ sample. IsTheSample (Interrupts self.old.parameters.maxval plan.neighbours.a)
            (λ one. (interruption_word_in self.old plan.neighbours one).value) value sample) }
        ensures state { IfOk result (λ sample. self.new ≡ interruption_after self.old (ri_type_of plan.neighbours)
            (interruption_error self.old.parameters plan.neighbours sample)) }
        ensures events { (events : List Event) → self.old ≡ state_of self.old.parameters events
            → IfOk result (λ sample. IsInterruptionEvent self.old.parameters events plan.neighbours sample
            (interruption_word_in self.old plan.neighbours sample) self.new) }
        ensures fault { IfErr result (λ fault. fault ≡ CodeFault.NotCanonical) }
        ensures unchanged { IfErr result (λ fault. self.new ≡ self.old) }
        ensures none { IfErr result (λ fault. NoSample (Interrupts self.old.parameters.maxval plan.neighbours.a)
            (λ one. (interruption_word_in self.old plan.neighbours one).value) value) }
    {
        let sample = self
            .counters
            .accept_interruption(&plan.neighbours, plan.k, value)?;
        self.run_index = self.run_index.saturating_sub(1);
        self.interrupted = false;
        Ok(sample)
    }

    /// The scan's coding parameters.
    pub fn presets(&self) -> &Presets
        ensures { result.now ≡ self.now.parameters }
    {
        &self.counters.presets
    }

    /// RUNindex, 0 to 31 (A.2.1): 0 at a scan's start; 1 higher, to at most 31, after each bit 1 that stands for 2^J
    /// samples; 1 lower, unless it was 0, after each sample that interrupts a run.
    pub fn run_index(&self) -> u32
        ensures value { result ≡ self.now.run_index }
        ensures small { result ≤ 31 }
    {
        self.run_index
    }

    /// Whether the sample that interrupts a run comes next: true after `code_run` of a run that doesn't end with its
    /// line, and after `accept_break` or `accept_run` decoded the end of such a run.
    pub fn interrupted(&self) -> bool
        ensures { result ≡ self.now.interrupted }
    {
        self.interrupted
    }
}

/// How a run ends after its bits 1.
fn tail(walked: Walked, eol: bool) -> Tail
    requires { walked.index ≤ 31 }
    ensures { result ≡ tail_of (not eol) (record { ones = walked.ones; index = walked.index; left = walked.left }) }
{
    if !eol {
        Tail::Interrupted {
            width: order(walked.index),
            rest: walked.left,
        }
    } else if walked.left > 0 {
        Tail::LinePart
    } else {
        Tail::LineFull
    }
}
