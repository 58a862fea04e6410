//! Coding the events of a scan's rows as bits (T.87 Annex A).
ghost use Rattle.std.specs.Prelude.{◌≡◌, ◌+◌, ◌-◌, ◌*◌, ◌<◌, ◌≤◌, ◌++◌, [], ℕ, true, false, length, replicate};
ghost use Rattle.ls_frame.specs.Parameters.{qbpp_of, limit_of};
ghost use Rattle.ls_bits.specs.Stuffing.{stuff};
ghost use Rattle.ls_bits.specs.Golomb.{IsGolomb, code_word, most_value};
ghost use Rattle.ls_bits.specs.View.Room.{Fits};
ghost use Rattle.ls_coding.specs.Samples.{AreSamples, Interrupts};
ghost use Rattle.ls_coding.specs.Interruptions.{ri_type_of, interruption_error};
ghost use Rattle.ls_coding.specs.Runs.{TailFits, run_of, run_bits, word_bits, tail_bits};
ghost use Rattle.ls_coding.specs.Events.{golomb_bits};
ghost use Rattle.ls_coding.specs.View.States.{state_of, context_in, regular_error_in, regular_word_in, interruption_word_in, regular_after, run_after, interruption_after};
ghost use Rattle.ls_coding.specs.View.Calls.{MayCodeMirrored};
ghost use Rattle.ls_coding.specs.View.Mirrors.{IsMirrored};
ghost use Rattle.ls_coding.specs.declared.neighbours.Neighbours.{Neighbours};

use ls_bits::{Room, RoomSink};
use ls_coding::{Mirrored, Neighbours, RunWord, State, Tail, Word};
use ls_frame::Presets;
use std::marker::Model;

/// The encoder of one scan: the state of its coding, and the sink of its bits.
#[derive(Drop)]
pub struct Coder<'a, R: Room> {
    presets: Presets,
    /// Bits per mapped error (qbpp).
    qbpp: u32,
    /// A reference, so that the rest of the coder can be in registers.
    state: &'a mut State,
    sink: RoomSink<R>,
}

impl<'a, R: Room> Model for Coder<'a, R> {
    ghost use Rattle.std.specs.Prelude.{◌≡◌};
    ghost use Rattle.ls_frame.specs.Parameters.{qbpp_of};
    ghost use Rattle.ls_stream.specs.View.Coded.{Written};

    ghost Value = { Written R };

    ghost view = { λ c. record { state = c.state.now; room = c.sink.room; front = c.sink.front; capacity_left = c.sink.capacity_left; bits = c.sink.bits } };

    ghost invariant = { λ c. (c.state.now.parameters ≡ c.presets) × (c.qbpp ≡ qbpp_of c.presets.maxval) };
}

impl<'a, R: Room> Coder<'a, R> {
    /// Starts a scan with `state`, which must be that of a scan's start. The scan's bytes are appended to those of
    /// `bytes`, within its capacity.
    pub fn new(presets: &Presets, state: &'a mut State, bytes: R) -> Coder<'a, R>
        requires state { state.old ≡ state_of presets.now [] }
        ensures parameters { result.state.parameters ≡ presets.now }
        ensures state { result.state ≡ state_of presets.now [] }
        ensures front { result.front ≡ R.items bytes }
        ensures room { result.capacity_left ≡ R.capacity bytes - length (R.items bytes) }
        ensures grown { R.Grown bytes result.room }
        ensures bits { result.bits ≡ [] }
    {
        Coder {
            presets: *presets,
            qbpp: presets.qbpp(),
            state,
            sink: RoomSink::new(bytes),
        }
    }

    /// The parameters that the scan is coded with.
    pub fn presets(&self) -> &Presets
        ensures { result.now ≡ self.now.state.parameters }
    {
        &self.presets
    }

    /// Codes a sample in regular mode, as `mirror` returned it.
    pub fn code_sample(&mut self, mirrored: Mirrored)
        requires may { MayCodeMirrored self.old.state mirrored }
        requires room { Fits (length self.old.bits + limit_of self.old.state.parameters.maxval) self.old.capacity_left }
        ensures bits { (neighbours : Neighbours) (sample : ℕ) → IsMirrored self.old.state.parameters neighbours sample mirrored
            → self.new.bits ≡ self.old.bits ++ golomb_bits self.old.state.parameters (regular_word_in self.old.state neighbours sample) }
        ensures cost { length self.new.bits ≤ length self.old.bits + limit_of self.old.state.parameters.maxval }
        ensures state { (neighbours : Neighbours) (sample : ℕ) → IsMirrored self.old.state.parameters neighbours sample mirrored
            → self.new.state ≡ regular_after self.old.state (context_in self.old.state neighbours).number
            (regular_error_in self.old.state neighbours sample) }
        ensures uninterrupted { self.new.state.interrupted ≡ false }
        ensures parameters { self.new.state.parameters ≡ self.old.state.parameters }
        ensures front { self.new.front ≡ self.old.front }
        ensures room { self.new.capacity_left ≡ self.old.capacity_left }
        ensures grown { R.Grown self.old.room self.new.room }
    {
        let word = self.state.code_regular_at(mirrored);
        put_word(&mut self.sink, self.qbpp, word);
    }

    /// Codes a run up to the line's end.
    pub fn code_run_to_end(&mut self, count: u32)
        requires some { 0 < count }
        requires uninterrupted { self.old.state.interrupted ≡ false }
        requires room { Fits (length self.old.bits + limit_of self.old.state.parameters.maxval * count) self.old.capacity_left }
        ensures bits { self.new.bits ≡ self.old.bits ++ run_bits self.old.state.run_index (run_of count false) }
        ensures cost { length self.new.bits ≤ length self.old.bits + limit_of self.old.state.parameters.maxval * count }
        ensures state { self.new.state ≡ run_after self.old.state (run_of count false) }
        ensures front { self.new.front ≡ self.old.front }
        ensures room { self.new.capacity_left ≡ self.old.capacity_left }
        ensures grown { R.Grown self.old.room self.new.room }
    {
        let word = self.state.code_run(count, true);
        put_run(&mut self.sink, word);
    }

    /// Codes a run and the sample that interrupts it.
    pub fn code_interrupted_run(&mut self, count: u32, neighbours: &Neighbours, sample: u16)
        requires samples { AreSamples self.old.state.parameters.maxval neighbours.now }
        requires sample { Interrupts self.old.state.parameters.maxval neighbours.now.a sample }
        requires uninterrupted { self.old.state.interrupted ≡ false }
        requires room { Fits (length self.old.bits + limit_of self.old.state.parameters.maxval * (count + 1)) self.old.capacity_left }
        ensures bits { self.new.bits ≡ self.old.bits ++ (run_bits self.old.state.run_index (run_of count true)
            ++ golomb_bits self.old.state.parameters
            (interruption_word_in (run_after self.old.state (run_of count true)) neighbours.now sample)) }
        ensures cost { length self.new.bits ≤ length self.old.bits + limit_of self.old.state.parameters.maxval * (count + 1) }
        ensures state { self.new.state ≡ interruption_after (run_after self.old.state (run_of count true)) (ri_type_of neighbours.now)
            (interruption_error self.old.state.parameters neighbours.now sample) }
        ensures front { self.new.front ≡ self.old.front }
        ensures room { self.new.capacity_left ≡ self.old.capacity_left }
        ensures grown { R.Grown self.old.room self.new.room }
    {
        let run = self.state.code_run(count, false);
        put_run(&mut self.sink, run);
        let word = self.state.code_interruption(neighbours, sample);
        put_word(&mut self.sink, self.qbpp, word);
    }

    /// Ends the scan. Returns the `Room`: the bytes that it had before the scan, and after them the scan's bits,
    /// stuffed.
    pub fn finish(self) -> R
        ensures bytes { R.items result ≡ self.entry.front ++ stuff self.entry.bits }
        ensures capacity { R.capacity result ≡ length self.entry.front + self.entry.capacity_left }
        ensures grown { R.Grown self.entry.room result }
    {
        self.sink.finish()
    }
}

/// Appends a code word.
fn put_word<R: Room>(sink: &mut RoomSink<R>, qbpp: u32, word: Word)
    requires golomb { IsGolomb word.k word.glimit qbpp }
    requires value { word.value ≤ most_value qbpp }
    requires room { Fits (length sink.old.bits + length (code_word word.k word.glimit qbpp word.value)) sink.old.capacity_left }
    ensures bits { sink.new.bits ≡ sink.old.bits ++ code_word word.k word.glimit qbpp word.value }
    ensures front { sink.new.front ≡ sink.old.front }
    ensures room { sink.new.capacity_left ≡ sink.old.capacity_left }
    ensures grown { R.Grown sink.old.room sink.new.room }
{
    sink.put_golomb(word.k, word.glimit, qbpp, word.value);
}

/// Appends the bits of a run.
fn put_run<R: Room>(sink: &mut RoomSink<R>, word: RunWord)
    requires tail { TailFits word.tail }
    requires room { Fits (length sink.old.bits + length (word_bits word)) sink.old.capacity_left }
    ensures bits { sink.new.bits ≡ sink.old.bits ++ word_bits word }
    ensures front { sink.new.front ≡ sink.old.front }
    ensures room { sink.new.capacity_left ≡ sink.old.capacity_left }
    ensures grown { R.Grown sink.old.room sink.new.room }
{
    put_ones(sink, word.ones);
    put_tail(sink, word.tail);
}

/// Appends this number of bits 1.
fn put_ones<R: Room>(sink: &mut RoomSink<R>, count: u32)
    requires { Fits (length sink.old.bits + count) sink.old.capacity_left }
    ensures bits { sink.new.bits ≡ sink.old.bits ++ replicate count true }
    ensures front { sink.new.front ≡ sink.old.front }
    ensures room { sink.new.capacity_left ≡ sink.old.capacity_left }
    ensures grown { R.Grown sink.old.room sink.new.room }
{
    for done in 0..count {
        sink.put(1, 1);
    }
}

/// Appends the end of a run.
fn put_tail<R: Room>(sink: &mut RoomSink<R>, tail: Tail)
    requires tail { TailFits tail }
    requires room { Fits (length sink.old.bits + length (tail_bits tail)) sink.old.capacity_left }
    ensures bits { sink.new.bits ≡ sink.old.bits ++ tail_bits tail }
    ensures front { sink.new.front ≡ sink.old.front }
    ensures room { sink.new.capacity_left ≡ sink.old.capacity_left }
    ensures grown { R.Grown sink.old.room sink.new.room }
{
    match tail {
        Tail::LineFull => {}
        Tail::LinePart => sink.put(1, 1),
        Tail::Interrupted { width, rest } => {
            sink.put(0, 1);
            sink.put(rest, width);
        }
    }
}
