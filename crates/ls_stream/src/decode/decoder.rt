//! Decoding the events of a scan's rows from its bits (T.87 Annex A).
ghost use Rattle.std.specs.Prelude.{◌≡◌, ◌<◌, ◌≤◌, ◌++◌, [], ℕ, Bool, List, true, false, length, min, IfOk, IfErr, IfSome, IfNone};
ghost use Rattle.ls_frame.specs.Parameters.{qbpp_of, limit_of};
ghost use Rattle.ls_bits.specs.View.Plain.{bits_in, bits_at, IsAt};
ghost use Rattle.ls_coding.specs.Samples.{AreSamples, Interrupts};
ghost use Rattle.ls_coding.specs.Contexts.{is_zero, is_run};
ghost use Rattle.ls_coding.specs.Errors.{median};
ghost use Rattle.ls_coding.specs.View.SignedContexts.{signed_context, half_context};
ghost use Rattle.ls_coding.specs.Interruptions.{ri_type_of, interruption_error};
ghost use Rattle.ls_coding.specs.Runs.{run_of, run_bits};
ghost use Rattle.ls_coding.specs.Events.{golomb_bits};
ghost use Rattle.ls_coding.specs.View.States.{state_of, context_in, regular_error_in, regular_word_in, interruption_word_in, regular_after, run_after, interruption_after};
ghost use Rattle.ls_stream.specs.View.BitFaults.{BreaksSample, BreaksInterruption};
ghost use Rattle.ls_stream.specs.View.Decoding.{ReadsRun, ReadsNoRun};

use ls_bits::{BitPlace, BitSource, CodeFault};
use ls_coding::{Neighbours, Regions, RegionsView, State, SureZeros};
use ls_frame::Presets;
use std::marker::Model;

/// The decoder of one scan: the state of its coding, and the source of its bits.
#[derive(Drop)]
pub struct Decoder<'a, 'b> {
    presets: Presets,
    /// Bits per mapped error (qbpp).
    qbpp: u32,
    /// The regions of all gradients.
    regions: RegionsView<'a>,
    /// For each Golomb parameter, which words of regular mode surely stand for samples.
    sure: &'a SureZeros,
    /// References, so that the rest of the decoder can be in registers.
    state: &'a mut State,
    source: &'a mut BitSource<'b>,
}

impl<'a, 'b> Model for Decoder<'a, 'b> {
    ghost use Rattle.std.specs.Prelude.{◌≡◌};
    ghost use Rattle.ls_frame.specs.Parameters.{qbpp_of, limit_of, IsLegal};
    ghost use Rattle.ls_bits.specs.View.Plain.{bits_in};
    ghost use Rattle.ls_stream.specs.View.Decoding.{Unread};

    ghost Value = { Unread };

    ghost view = { λ d. record { state = d.state.now; bits = bits_in d.source.now; source = d.source.now } };

    ghost invariant = { λ d. (d.state.now.parameters ≡ d.presets) × (d.qbpp ≡ qbpp_of d.presets.maxval) × IsLegal d.presets × (d.regions ≡ d.presets)
        × (d.sure.now ≡ d.presets) };
}

/// A decoded run: its number of samples, and whether a sample interrupts it before the line's end.
#[derive(Clone, Copy)]
pub struct FoundRun {
    pub count: u32,
    pub interrupted: bool,
}

impl<'a, 'b> Decoder<'a, 'b> {
    /// Starts a scan of the bits of `source`, with `state`, which must be that of a scan's start. `regions` and `sure`
    /// must be those of the parameters.
    pub fn new(
        presets: &Presets,
        regions: &'a Regions,
        sure: &'a SureZeros,
        state: &'a mut State,
        source: &'a mut BitSource<'b>,
    ) -> Decoder<'a, 'b>
        requires regions { regions.now ≡ presets.now }
        requires sure { sure.now ≡ presets.now }
        requires state { state.old ≡ state_of presets.now [] }
        ensures parameters { result.state.parameters ≡ presets.now }
        ensures state { result.state ≡ state_of presets.now [] }
        ensures bits { result.bits ≡ bits_in source.old }
    {
        prove!(presets.maxval() > 0);
        Decoder {
            presets: *presets,
            qbpp: presets.qbpp(),
            regions: regions.view(),
            sure,
            state,
            source,
        }
    }

    /// The parameters that the scan is coded with.
    pub fn presets(&self) -> &Presets
        ensures { result.now ≡ self.now.state.parameters }
    {
        &self.presets
    }

    /// The number of bits that are left, or 2^64 - 1 if there are more.
    pub fn left(&self) -> u64
        ensures { result ≡ min (length self.now.bits) u64.MAX }
    {
        self.source.left()
    }

    /// The place of the next bit.
    #[inline(always)]
    pub fn place(&self) -> BitPlace
        ensures at { IsAt self.now.source result }
        ensures bits { bits_at self.now.source result ≡ self.now.bits }
    {
        self.source.place()
    }

    /// Continues at a place that `decode_sample` reached.
    #[inline(always)]
    pub fn go_to(&mut self, at: BitPlace)
        requires { IsAt self.old.source at }
        ensures bits { self.new.bits ≡ bits_at self.old.source at }
        ensures state { self.new.state ≡ self.old.state }
    {
        self.source.go_to(at);
    }

    /// The context of a sample. `half` is the part of it that the line above decides.
    pub fn context_of(&self, half: i16, neighbours: &Neighbours) -> i16
        requires half { half ≡ half_context self.now.state.parameters neighbours.now.b neighbours.now.c neighbours.now.d }
        requires samples { AreSamples self.now.state.parameters.maxval neighbours.now }
        ensures value { result ≡ signed_context self.now.state.parameters neighbours.now }
        ensures run { is_zero result ≡ is_run neighbours.now }
    {
        self.regions.whole_context(half, neighbours.a, neighbours.c)
    }

    /// Decodes a sample in regular mode, whose context and median are given, at the place `at`, and moves `at` past it.
    /// The decoder's own place has no meaning then. The bits from the old `at` on begin with the word of no other
    /// sample; if this fails, with that of none.
    #[inline(always)]
    pub fn decode_sample(
        &mut self,
        at: &mut BitPlace,
        context: i16,
        middle: u32,
        neighbours: &Neighbours,
    ) -> Result<u16, CodeFault>
        requires at { IsAt self.old.source at.old }
        requires context { context ≡ signed_context self.old.state.parameters neighbours.now }
        requires middle { middle ≡ median neighbours.now }
        requires samples { AreSamples self.old.state.parameters.maxval neighbours.now }
        requires regular { is_run neighbours.now ≡ false }
        requires uninterrupted { self.old.state.interrupted ≡ false }
        ensures at { IfOk result (λ _. IsAt self.new.source at.new) }
        ensures within { IfOk result (λ sample. sample ≤ self.old.state.parameters.maxval) }
        ensures bits { IfOk result (λ sample. bits_at self.old.source at.old
            ≡ golomb_bits self.old.state.parameters (regular_word_in self.old.state neighbours.now sample) ++ bits_at self.new.source at.new) }
        ensures state { IfOk result (λ sample. self.new.state ≡ regular_after self.old.state
            (context_in self.old.state neighbours.now).number (regular_error_in self.old.state neighbours.now sample)) }
        ensures only { IfOk result (λ sample. (other : ℕ) (rest : List Bool) → other ≤ self.old.state.parameters.maxval
            → bits_at self.old.source at.old ≡ golomb_bits self.old.state.parameters (regular_word_in self.old.state neighbours.now other) ++ rest
            → (other ≡ sample) × (rest ≡ bits_at self.new.source at.new)) }
        ensures none { IfErr result (λ fault. (other : ℕ) (rest : List Bool) → other ≤ self.old.state.parameters.maxval
            → bits_at self.old.source at.old ≡ golomb_bits self.old.state.parameters (regular_word_in self.old.state neighbours.now other) ++ rest
            → ⊥) }
        ensures fault { IfErr result (λ fault. BreaksSample self.old.state neighbours.now (bits_at self.old.source at.old) fault) }
    {
        let plan = self
            .state
            .plan_regular_with(self.presets, context, middle, neighbours);
        let k = plan.k();
        if let Some((value, after)) = self.source.few_at(*at, k, self.sure.of(k)) {
            *at = after;
            return Ok(self.state.accept_sure_with(self.presets, plan, value));
        }
        self.source.go_to(*at);
        let value = self.source.take_golomb(k, self.presets.limit(), self.qbpp)?;
        *at = self.source.place();
        self.state.accept_regular(plan, value)
    }

    /// Decodes a run, with `left` samples left in the line (A.7.1). The bits before the call begin with those of no
    /// other run that ends in the line; if this fails, with those of none.
    pub fn decode_run(&mut self, left: u32) -> Result<FoundRun, CodeFault>
        requires some { 0 < left }
        requires uninterrupted { self.old.state.interrupted ≡ false }
        ensures run { IfOk result (ReadsRun left self.old self.new) }
        ensures stops { IfErr result (ReadsNoRun left self.old) }
    {
        if let Some(count) = self.decode_short_run(left) {
            return Ok(FoundRun {
                count,
                interrupted: true,
            });
        }
        // Unwrapped and wrapped again, so that a short run needn't go through memory as this one does.
        let run = self.decode_any_run(left)?;
        Ok(run)
    }

    /// Decodes a run that a sample interrupts, if it is short: all its bits are in sight at once, and it has fewer
    /// samples than `left`. Returns its number of samples. Otherwise reads nothing.
    #[inline(always)]
    fn decode_short_run(&mut self, left: u32) -> Option<u32>
        requires uninterrupted { self.old.state.interrupted ≡ false }
        ensures short { IfSome result (λ count. count < left) }
        ensures bits { IfSome result (λ count. self.old.bits ≡ run_bits self.old.state.run_index (run_of count true) ++ self.new.bits) }
        ensures state { IfSome result (λ count. self.new.state ≡ run_after self.old.state (run_of count true)) }
        ensures none { IfNone result (self.new ≡ self.old) }
    {
        let at = self.source.place();
        let run = self.source.run_at(at, self.state.break_widths())?;
        let count = self.state.accept_run(run.ones, run.rest, left)?;
        self.source.go_to(run.after);
        Some(count)
    }

    /// `decode_run` for any run, bit by bit.
    #[cold]
    #[inline(never)]
    fn decode_any_run(&mut self, left: u32) -> Result<FoundRun, CodeFault>
        requires some { 0 < left }
        requires uninterrupted { self.old.state.interrupted ≡ false }
        ensures run { IfOk result (ReadsRun left self.old self.new) }
        ensures stops { IfErr result (ReadsNoRun left self.old) }
    {
        let mut count = 0;
        'ones: while self.source.bit()? == 1 {
            count += self.state.accept_one(left - count);
            if count == left {
                return Ok(FoundRun {
                    count,
                    interrupted: false,
                });
            }
        }
        let rest = self.source.bits(self.state.break_width())?;
        self.state.accept_break(rest, left - count)?;
        Ok(FoundRun {
            count: count + rest,
            interrupted: true,
        })
    }

    /// Decodes the sample that interrupts a run (A.7.2). The bits before the call begin with the word of no other
    /// sample that may interrupt it; if this fails, with that of none.
    pub fn decode_interruption(&mut self, neighbours: &Neighbours) -> Result<u16, CodeFault>
        requires samples { AreSamples self.old.state.parameters.maxval neighbours.now }
        requires interrupted { self.old.state.interrupted ≡ true }
        ensures interrupts { IfOk result (λ sample. Interrupts self.old.state.parameters.maxval neighbours.now.a sample) }
        ensures bits { IfOk result (λ sample. self.old.bits
            ≡ golomb_bits self.old.state.parameters (interruption_word_in self.old.state neighbours.now sample) ++ self.new.bits) }
        ensures state { IfOk result (λ sample. self.new.state ≡ interruption_after self.old.state (ri_type_of neighbours.now)
            (interruption_error self.old.state.parameters neighbours.now sample)) }
        ensures only { IfOk result (λ sample. (other : ℕ) (rest : List Bool)
            → Interrupts self.old.state.parameters.maxval neighbours.now.a other
            → self.old.bits ≡ golomb_bits self.old.state.parameters (interruption_word_in self.old.state neighbours.now other) ++ rest
            → (other ≡ sample) × (rest ≡ self.new.bits)) }
        ensures none { IfErr result (λ fault. (other : ℕ) (rest : List Bool)
            → Interrupts self.old.state.parameters.maxval neighbours.now.a other
            → self.old.bits ≡ golomb_bits self.old.state.parameters (interruption_word_in self.old.state neighbours.now other) ++ rest
            → ⊥) }
        ensures fault { IfErr result (λ fault. BreaksInterruption self.old.state neighbours.now self.old.bits fault) }
    {
        let plan = self.state.plan_interruption(neighbours);
        let value = self.source.take_golomb(plan.k(), plan.glimit(), self.qbpp)?;
        self.state.accept_interruption(plan, value)
    }
}
