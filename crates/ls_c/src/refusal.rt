//! Why a call refuses, and the status that it returns then.
ghost use Rattle.std.specs.Prelude.{◌≡◌, Result, Ok, Err};
ghost use Rattle.ls_c.specs.Refusals.{number_of, status_of, preset_number, fault_number, what_number, stream_preset_number};

use ls_frame::PresetFault;
use ls_stream::{StreamFault, What};
use std::alloc::AllocError;

/// Why a call didn't do what it was asked to do.
#[derive(Clone, Copy, Drop)]
pub enum Refusal {
    /// The caller's buffer is too small for what is to be written to it.
    NoRoom,
    /// There are neither 1 nor 3 components.
    Components,
    /// A side isn't 1 to 65535.
    Side,
    /// There are over 2^28 samples.
    TooManySamples,
    /// Maxval isn't 1 to 65535.
    Maxval,
    /// A row has more samples than the stride.
    Stride,
    /// There are fewer samples than the form asks for.
    TooFewSamples,
    /// A sample is over maxval.
    SampleTooLarge,
    /// A coding parameter is out of its range.
    Preset(PresetFault),
    /// Maxval is over 255, in a call for samples of 8 bits.
    NotEightBits,
    /// The bytes can't be decoded; or, in any call that allocates, an allocation failed.
    Stream(StreamFault),
}

/// An allocation failed.
pub const NO_MEMORY: Refusal = Refusal::Stream(StreamFault::NoMemory);

impl From<AllocError> for Refusal {
    ghost use Rattle.std.specs.Prelude.{◌≡◌};
    ghost use Rattle.ls_c.specs.declared.refusal.Refusal.TheVariants.{Stream};
    ghost use Rattle.ls_stream.specs.declared.faults.StreamFault.TheVariants.{NoMemory};

    ghost from_gives = { λ _ refusal. refusal ≡ Stream NoMemory };

    fn from(_refused: AllocError) -> Refusal {
        NO_MEMORY
    }
}

/// Returns the status of a call: 0 if it did what it was asked to do, else its refusal's.
pub fn status_of(done: Result<(), Refusal>) -> u32
    ensures { result ≡ status_of done }
{
    match done {
        Ok(()) => 0,
        Err(refusal) => refusal.number(),
    }
}

impl Refusal {
    /// Returns the refusal's status.
    pub fn number(self) -> u32
        ensures { result ≡ number_of self }
    {
        match self {
            Refusal::NoRoom => 2,
            Refusal::Components => 3,
            Refusal::Side => 4,
            Refusal::TooManySamples => 5,
            Refusal::Maxval => 6,
            Refusal::Stride => 7,
            Refusal::TooFewSamples => 8,
            Refusal::SampleTooLarge => 9,
            Refusal::Preset(fault) => preset_number(fault),
            Refusal::NotEightBits => 14,
            Refusal::Stream(fault) => fault_number(fault),
        }
    }
}

fn preset_number(fault: PresetFault) -> u32
    ensures { result ≡ preset_number fault }
{
    match fault {
        PresetFault::MaxvalRange => 6,
        PresetFault::T1Range => 10,
        PresetFault::T2Range => 11,
        PresetFault::T3Range => 12,
        PresetFault::ResetRange => 13,
    }
}

/// Returns the status of bytes that can't be decoded; or, of `NoMemory`, that of an allocation that failed.
pub fn fault_number(fault: StreamFault) -> u32
    ensures { result ≡ fault_number fault }
{
    match fault {
        StreamFault::NoMemory => 1,
        StreamFault::Truncated => 20,
        StreamFault::NotSoi => 21,
        StreamFault::BadSegment => 22,
        StreamFault::Unsupported(what) => what_number(what),
        StreamFault::BadPresets(fault) => stream_preset_number(fault),
        StreamFault::TooLarge => 39,
        StreamFault::BadCode(_) => 40,
        StreamFault::LeftoverBits(_) => 41,
    }
}

fn what_number(what: What) -> u32
    ensures { result ≡ what_number what }
{
    match what {
        What::Marker(_) => 23,
        What::Components(_) => 24,
        What::HeightZero => 25,
        What::Sampling => 26,
        What::Mapping => 27,
        What::Near => 28,
        What::Interleave => 29,
        What::PointTransform => 30,
        What::LseId(_) => 31,
        What::LseLate => 32,
        What::ScanOrder => 33,
    }
}

fn stream_preset_number(fault: PresetFault) -> u32
    ensures { result ≡ stream_preset_number fault }
{
    match fault {
        PresetFault::MaxvalRange => 34,
        PresetFault::T1Range => 35,
        PresetFault::T2Range => 36,
        PresetFault::T3Range => 37,
        PresetFault::ResetRange => 38,
    }
}
