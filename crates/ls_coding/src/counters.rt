//! The counters of every context, and encoding and decoding one sample by them (T.87 A.2.1, A.3 to A.7).
ghost use Rattle.std.specs.Prelude.{◌≡◌, ◌+◌, ◌<◌, ◌≤◌, ℕ, pos, true, false, slice_set, IfOk, IfErr, if◌then◌else◌};
ghost use Rattle.ls_frame.specs.Parameters.{range_of, qbpp_of};
ghost use Rattle.ls_bits.specs.Golomb.{IsGolomb, most_value};
ghost use Rattle.ls_coding.specs.Samples.{AreSamples, Interrupts};
ghost use Rattle.ls_coding.specs.Contexts.{context_of};
ghost use Rattle.ls_coding.specs.Errors.{median, IsReduced, error_of, is_inverted, mapped_error};
ghost use Rattle.ls_coding.specs.Events.{regular_word, interruption_word};
ghost use Rattle.ls_coding.specs.Numbers.{golomb_parameter};
ghost use Rattle.ls_coding.specs.Stats.{first_a, first_stats, stats_step};
ghost use Rattle.ls_coding.specs.Interruptions.{first_counts, counts_step, ri_value, ri_type_of, interruption_error, interruption_k, interruption_value};
ghost use Rattle.ls_coding.specs.View.Mirrors.{mirrored_error};
ghost use Rattle.ls_coding.specs.View.Plans.{regular_plan_by, interruption_plan_by, IsTheSample, NoSample};
ghost use Rattle.ls_coding.specs.View.Fields.{regular_at, all_regular, interrupting_at, IsSound};

use crate::context::Context;
use crate::error::{
    error_of, golomb_parameter, is_reduced, mapped_error, mirrored_error, predicted, sample_of,
    unmapped_error,
};
use crate::interruption::{
    count_interruption, interruption_error_of, interruption_k, interruption_negative,
    interruption_prediction, interruption_value, ri_type_of, ri_value,
};
use crate::mirrored::Mirrored;
use crate::neighbours::Neighbours;
use crate::plan::Plan;
use crate::run::order;
use crate::update::update;
use crate::word::Word;
use ls_bits::CodeFault;
use ls_frame::Presets;

/// The number of contexts of regular mode.
pub const REGULAR: usize = 365;

/// The number of all contexts: those of regular mode, and last the two of the samples that interrupt a run.
pub const CONTEXTS: usize = 367;

/// The counters of each context, indexed by its number, and the parameters that a scan's samples are coded with.
#[derive(Drop)]
pub struct Counters {
    /// The scan's parameters.
    pub presets: Presets,
    /// LIMIT: the most bits of a code word.
    pub limit: u32,
    /// A: the accumulated magnitudes of the errors.
    pub a: [u32; CONTEXTS],
    /// B: the accumulated errors, less what C corrects; above -N and at most 0.
    pub b: [i32; REGULAR],
    /// C: the correction of the prediction, -128 to 127.
    pub c: [i32; REGULAR],
    /// N: the number of errors counted, starting at 1; halved at RESET together with A, B and Nn.
    pub n: [u32; CONTEXTS],
    /// The Golomb parameter of N and A, for each context of regular mode.
    pub k: [u32; REGULAR],
    /// Nn: the number of errors counted that were negative, for the two contexts of the samples that interrupt a run.
    pub nn: [u32; 2],
}

impl Counters {
    /// The counters at a scan's start.
    pub fn new(presets: Presets) -> Counters
        ensures contexts { (number : ℕ) → number < 365 → regular_at result number ≡ first_stats presets }
        ensures ri_type_0 { interrupting_at result 0 ≡ first_counts presets }
        ensures ri_type_1 { interrupting_at result 1 ≡ first_counts presets }
        ensures parameters { result.presets ≡ presets }
        ensures sound { IsSound result }
    {
        let first = first_a(presets);
        Counters {
            presets,
            limit: presets.limit(),
            a: [first; CONTEXTS],
            b: [0; REGULAR],
            c: [0; REGULAR],
            n: [1; CONTEXTS],
            k: [golomb_parameter(1, first); REGULAR],
            nn: [0; 2],
        }
    }

    /// Codes a sample of regular mode: returns its word, and counts its error in its context.
    pub fn code(&mut self, mirrored: Mirrored) -> Word
        requires within { mirrored.context < 365 }
        requires prediction { mirrored.prediction ≤ self.old.presets.maxval }
        requires sample { mirrored.sample ≤ self.old.presets.maxval }
        requires sound { IsSound self.old }
        ensures word { let counters = regular_at self.old mirrored.context in
            result ≡ regular_word self.old.presets counters (mirrored_error self.old.presets counters.c mirrored.prediction mirrored.sample) }
        ensures golomb { IsGolomb result.k result.glimit (qbpp_of self.old.presets.maxval) }
        ensures value { result.value ≤ most_value (qbpp_of self.old.presets.maxval) }
        ensures contexts { let counters = regular_at self.old mirrored.context in
            all_regular self.new
            ≡ slice_set (all_regular self.old) mirrored.context
            (stats_step self.old.presets.reset counters (mirrored_error self.old.presets counters.c mirrored.prediction mirrored.sample)) }
        ensures ri_type_0 { interrupting_at self.new 0 ≡ interrupting_at self.old 0 }
        ensures ri_type_1 { interrupting_at self.new 1 ≡ interrupting_at self.old 1 }
        ensures sound { IsSound self.new }
        ensures parameters { self.new.presets ≡ self.old.presets }
    {
        let number = usize::from(mirrored.context);
        let error = mirrored_error(
            self.presets,
            self.c[number],
            mirrored.prediction,
            mirrored.sample,
        );
        let k = self.parameter(number);
        let value = mapped_error(k, self.b[number], self.n[number], error);
        let glimit = self.limit;
        self.add(self.presets, number, error);
        Word { k, glimit, value }
    }

    /// The plan for decoding a sample of regular mode. The scan's parameters are passed by value, so that they stay in
    /// registers.
    #[tactic(auto, unfolding(crate::specs::View::Plans::regular_plan_by))]
    pub fn plan(
        &self,
        presets: Presets,
        context: Context,
        middle: u32,
        neighbours: &Neighbours,
    ) -> Plan
        requires presets { presets ≡ self.now.presets }
        requires number { context.number ≡ (context_of self.now.presets neighbours.now).number }
        requires negative { context.negative ≡ (context_of self.now.presets neighbours.now).negative }
        requires within { context.number < 365 }
        requires middle { middle ≡ median neighbours.now }
        requires samples { AreSamples self.now.presets.maxval neighbours.now }
        requires sound { IsSound self.now }
        ensures plan { let context = context_of self.now.presets neighbours.now in
            let counters = regular_at self.now context.number in
            result ≡ regular_plan_by self.now.presets context counters neighbours.now }
        ensures golomb { IsGolomb result.k result.glimit (qbpp_of self.now.presets.maxval) }
    {
        let number = context.number;
        Plan {
            neighbours: *neighbours,
            k: self.parameter(number),
            glimit: self.limit,
            number,
            negative: context.negative,
            prediction: predicted(presets, context.negative, self.c[number], middle),
        }
    }

    /// Decodes a sample of regular mode: returns the sample that has this mapped error for the prediction, and counts
    /// its error in its context. NotCanonical if there is none; nothing changes then.
    pub fn accept(
        &mut self,
        number: usize,
        negative: bool,
        prediction: u16,
        k: u32,
        value: u32,
    ) -> Result<u16, CodeFault>
        requires number { number < 365 }
        requires prediction { prediction ≤ self.old.presets.maxval }
        requires value { value ≤ 65536 }
        requires sound { IsSound self.old }
        ensures ok { let counters = regular_at self.old number in
            let value_of : ℕ → ℕ = λ sample. mapped_error (is_inverted k counters.b counters.n) (error_of self.old.presets negative (pos prediction) sample) in
            IfOk result (λ sample. IsTheSample (λ one. one ≤ self.old.presets.maxval) value_of value sample) }
        ensures contexts { let counters = regular_at self.old number in
            IfOk result (λ sample. all_regular self.new
            ≡ slice_set (all_regular self.old) number
            (stats_step self.old.presets.reset counters (error_of self.old.presets negative (pos prediction) sample))) }
        ensures ri_type_0 { interrupting_at self.new 0 ≡ interrupting_at self.old 0 }
        ensures ri_type_1 { interrupting_at self.new 1 ≡ interrupting_at self.old 1 }
        ensures sound { IsSound self.new }
        ensures fault { IfErr result (λ fault. fault ≡ CodeFault.NotCanonical) }
        ensures unchanged { IfErr result (λ fault. self.new ≡ self.old) }
        ensures none { let counters = regular_at self.old number in
            let value_of : ℕ → ℕ = λ sample. mapped_error (is_inverted k counters.b counters.n) (error_of self.old.presets negative (pos prediction) sample) in
            IfErr result (λ fault. NoSample (λ one. one ≤ self.old.presets.maxval) value_of value) }
        ensures parameters { self.new.presets ≡ self.old.presets }
    {
        let error = unmapped_error(k, self.b[number], self.n[number], value);
        if !is_reduced(self.presets.range(), error) {
            return Err(CodeFault::NotCanonical);
        }
        let sample = sample_of(self.presets, negative, prediction, error);
        self.add(self.presets, number, error);
        Ok(sample)
    }

    /// As `accept`, for a mapped error below RANGE - 1, for which there always is a sample. The scan's parameters are
    /// passed by value.
    pub fn accept_sure(
        &mut self,
        presets: Presets,
        number: usize,
        negative: bool,
        prediction: u16,
        k: u32,
        value: u32,
    ) -> u16
        requires presets { presets ≡ self.old.presets }
        requires number { number < 365 }
        requires prediction { prediction ≤ self.old.presets.maxval }
        requires value { value + 1 < range_of self.old.presets.maxval }
        requires sound { IsSound self.old }
        ensures sample { let counters = regular_at self.old number in
            let value_of : ℕ → ℕ = λ sample. mapped_error (is_inverted k counters.b counters.n) (error_of self.old.presets negative (pos prediction) sample) in
            IsTheSample (λ one. one ≤ self.old.presets.maxval) value_of value result }
        ensures contexts { let counters = regular_at self.old number in
            all_regular self.new
            ≡ slice_set (all_regular self.old) number
            (stats_step self.old.presets.reset counters (error_of self.old.presets negative (pos prediction) result)) }
        ensures ri_type_0 { interrupting_at self.new 0 ≡ interrupting_at self.old 0 }
        ensures ri_type_1 { interrupting_at self.new 1 ≡ interrupting_at self.old 1 }
        ensures sound { IsSound self.new }
        ensures parameters { self.new.presets ≡ self.old.presets }
    {
        let reduced = unmapped_error(k, self.b[number], self.n[number], value);
        let sample = sample_of(presets, negative, prediction, reduced);
        self.add(presets, number, reduced);
        sample
    }

    /// Codes the sample that interrupts a run, at the RUNindex that the run left: returns its word, and counts its
    /// error in its context.
    pub fn code_interruption(
        &mut self,
        run_index: u32,
        neighbours: &Neighbours,
        sample: u16,
    ) -> Word
        requires samples { AreSamples self.old.presets.maxval neighbours.now }
        requires sample { sample ≤ self.old.presets.maxval }
        requires index { run_index ≤ 31 }
        requires sound { IsSound self.old }
        ensures word { let ri_type = ri_type_of neighbours.now in
            result ≡ interruption_word self.old.presets run_index ri_type (interrupting_at self.old (ri_value ri_type))
            (interruption_error self.old.presets neighbours.now sample) }
        ensures golomb { IsGolomb result.k result.glimit (qbpp_of self.old.presets.maxval) }
        ensures value { result.value ≤ most_value (qbpp_of self.old.presets.maxval) }
        ensures contexts { all_regular self.new ≡ all_regular self.old }
        ensures ri_type_0 { let ri_type = ri_type_of neighbours.now in
            let before = interrupting_at self.old 0 in
            interrupting_at self.new 0 ≡ (if ri_type then before
            else counts_step false self.old.presets.reset before (interruption_error self.old.presets neighbours.now sample)) }
        ensures ri_type_1 { let ri_type = ri_type_of neighbours.now in
            let before = interrupting_at self.old 1 in
            interrupting_at self.new 1 ≡ (if ri_type
            then counts_step true self.old.presets.reset before (interruption_error self.old.presets neighbours.now sample) else before) }
        ensures sound { IsSound self.new }
        ensures parameters { self.new.presets ≡ self.old.presets }
    {
        let ri_type = ri_type_of(neighbours);
        let error = error_of(
            self.presets,
            interruption_negative(neighbours),
            interruption_prediction(neighbours),
            sample,
        );
        let which = ri_value(ri_type);
        let n = self.n[REGULAR + which];
        let k = interruption_k(ri_type, self.a[REGULAR + which], n);
        let value = interruption_value(ri_type, k, n, self.nn[which], error);
        let glimit = self.limit - order(run_index) - 1;
        self.add_interruption(ri_type, error, value);
        Word { k, glimit, value }
    }

    /// The plan for decoding the sample that interrupts a run.
    #[tactic(auto, unfolding(crate::specs::View::Plans::interruption_plan_by))]
    pub fn plan_interruption(&self, run_index: u32, neighbours: &Neighbours) -> Plan
        requires samples { AreSamples self.now.presets.maxval neighbours.now }
        requires index { run_index ≤ 31 }
        requires sound { IsSound self.now }
        ensures plan { let ri_type = ri_type_of neighbours.now in
            result ≡ interruption_plan_by self.now.presets run_index (interrupting_at self.now (ri_value ri_type)) neighbours.now }
        ensures golomb { IsGolomb result.k result.glimit (qbpp_of self.now.presets.maxval) }
    {
        let ri_type = ri_type_of(neighbours);
        let which = ri_value(ri_type);
        Plan {
            neighbours: *neighbours,
            k: interruption_k(ri_type, self.a[REGULAR + which], self.n[REGULAR + which]),
            glimit: self.limit - order(run_index) - 1,
            number: which,
            negative: interruption_negative(neighbours),
            prediction: interruption_prediction(neighbours),
        }
    }

    /// Decodes the sample that interrupts a run: returns the sample other than Ra that has this EMErrval, and counts
    /// its error in its context. NotCanonical if there is none; nothing changes then.
    pub fn accept_interruption(
        &mut self,
        neighbours: &Neighbours,
        k: u32,
        value: u32,
    ) -> Result<u16, CodeFault>
        requires samples { AreSamples self.old.presets.maxval neighbours.now }
        requires k { let ri_type = ri_type_of neighbours.now in
            k ≡ interruption_k ri_type (interrupting_at self.old (ri_value ri_type)) }
        requires value { value ≤ 65536 }
        requires sound { IsSound self.old }
        ensures ok { let ri_type = ri_type_of neighbours.now in
            let counters = interrupting_at self.old (ri_value ri_type) in
            let value_of : ℕ → ℕ = λ sample. interruption_value ri_type counters (interruption_error self.old.presets neighbours.now sample) in
            IfOk result (λ sample. IsTheSample (Interrupts self.old.presets.maxval neighbours.now.a) value_of value sample) }
        ensures contexts { all_regular self.new ≡ all_regular self.old }
        ensures ri_type_0 { let ri_type = ri_type_of neighbours.now in
            let before = interrupting_at self.old 0 in
            IfOk result (λ sample. interrupting_at self.new 0 ≡ (if ri_type then before
            else counts_step false self.old.presets.reset before (interruption_error self.old.presets neighbours.now sample))) }
        ensures ri_type_1 { let ri_type = ri_type_of neighbours.now in
            let before = interrupting_at self.old 1 in
            IfOk result (λ sample. interrupting_at self.new 1 ≡ (if ri_type
            then counts_step true self.old.presets.reset before (interruption_error self.old.presets neighbours.now sample) else before)) }
        ensures sound { IsSound self.new }
        ensures fault { IfErr result (λ fault. fault ≡ CodeFault.NotCanonical) }
        ensures unchanged { IfErr result (λ fault. self.new ≡ self.old) }
        ensures none { let ri_type = ri_type_of neighbours.now in
            let counters = interrupting_at self.old (ri_value ri_type) in
            let value_of : ℕ → ℕ = λ sample. interruption_value ri_type counters (interruption_error self.old.presets neighbours.now sample) in
            IfErr result (λ fault. NoSample (Interrupts self.old.presets.maxval neighbours.now.a) value_of value) }
        ensures parameters { self.new.presets ≡ self.old.presets }
    {
        let ri_type = ri_type_of(neighbours);
        let which = ri_value(ri_type);
        let error = interruption_error_of(
            ri_type,
            k,
            self.n[REGULAR + which],
            self.nn[which],
            value,
        );
        if !is_reduced(self.presets.range(), error) {
            return Err(CodeFault::NotCanonical);
        }
        let sample = sample_of(
            self.presets,
            interruption_negative(neighbours),
            interruption_prediction(neighbours),
            error,
        );
        if sample == neighbours.a {
            return Err(CodeFault::NotCanonical);
        }
        self.add_interruption(ri_type, error, value);
        Ok(sample)
    }

    /// The Golomb parameter of a context of regular mode.
    fn parameter(&self, number: usize) -> u32
        requires number { number < 365 }
        requires sound { IsSound self.now }
        ensures { let counters = regular_at self.now number in result ≡ golomb_parameter counters.n counters.a }
    {
        self.k[number]
    }

    /// Counts an error in a context of regular mode.
    fn add(&mut self, presets: Presets, number: usize, error: i32)
        requires presets { presets ≡ self.old.presets }
        requires number { number < 365 }
        requires sound { IsSound self.old }
        requires error { IsReduced (range_of self.old.presets.maxval) error }
        ensures contexts { all_regular self.new
            ≡ slice_set (all_regular self.old) number
            (stats_step self.old.presets.reset (regular_at self.old number) error) }
        ensures ri_type_0 { interrupting_at self.new 0 ≡ interrupting_at self.old 0 }
        ensures ri_type_1 { interrupting_at self.new 1 ≡ interrupting_at self.old 1 }
        ensures sound { IsSound self.new }
        ensures parameters { self.new.presets ≡ self.old.presets }
    {
        update(
            presets,
            &mut self.a[number],
            &mut self.b[number],
            &mut self.c[number],
            &mut self.n[number],
            &mut self.k[number],
            error,
        );
    }

    /// Counts the error of a sample that interrupts a run.
    fn add_interruption(&mut self, ri_type: bool, error: i32, value: u32)
        requires sound { IsSound self.old }
        requires error { IsReduced (range_of self.old.presets.maxval) error }
        requires value { value ≡ interruption_value ri_type (interrupting_at self.old (ri_value ri_type)) error }
        ensures contexts { all_regular self.new ≡ all_regular self.old }
        ensures ri_type_0 { let before = interrupting_at self.old 0 in
            interrupting_at self.new 0
            ≡ (if ri_type then before else counts_step false self.old.presets.reset before error) }
        ensures ri_type_1 { let before = interrupting_at self.old 1 in
            interrupting_at self.new 1
            ≡ (if ri_type then counts_step true self.old.presets.reset before error else before) }
        ensures sound { IsSound self.new }
        ensures parameters { self.new.presets ≡ self.old.presets }
    {
        let which = ri_value(ri_type);
        count_interruption(
            self.presets,
            ri_type,
            &mut self.a[REGULAR + which],
            &mut self.n[REGULAR + which],
            &mut self.nn[which],
            error,
            value,
        );
    }
}

/// A at a scan's start (A.2.1).
fn first_a(presets: Presets) -> u32
    ensures { result ≡ first_a presets }
{
    ((presets.range() + 32) / 64).max(2)
}
