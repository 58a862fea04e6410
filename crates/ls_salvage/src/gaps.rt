//! Gaps of a recording, and to whom they are reported.
ghost use Rattle.std.specs.Prelude.{◌≡◌, List, [], ◌∷◌, Option, OnOk, OnErr};
ghost use Rattle.ls_salvage.specs.declared.gaps.Gap.{Gap};
ghost use Rattle.ls_salvage.specs.View.Telling.{TellsMore};

use ls_stream::StreamFault;
use std::alloc::AllocError;

/// Consecutive bytes of a recording that were passed over.
#[derive(Clone, Copy, Debug, Drop, PartialEq, Eq)]
pub struct Gap {
    /// The number of frames shown before it.
    pub frame: u64,
    /// The number of bytes of the recording before it.
    pub place: u64,
    /// The number of bytes in it.
    pub count: u64,
    /// The fault of the bytes from its first on, with which no codestream begins; never `StreamFault::NoMemory`.
    pub fault: StreamFault,
}

/// Receives the gaps of a recording.
pub trait Gaps {
    /// The gaps reported to it, in order, if they are known.
    ghost told: { Self → Option (List Gap) };

    /// Reports one more gap. On an error it isn't reported.
    fn tell(&mut self, gap: Gap) -> Result<(), AllocError>
        ensures told { OnOk result (TellsMore (told self.old) (told self.new) (gap ∷ [])) }
        ensures kept { OnErr result (told self.new ≡ told self.old) };
}

/// Collects the gaps in memory, in order.
impl Gaps for Vec<Gap> {
    ghost use Rattle.std.specs.Prelude.{Some};

    ghost told = { λ gaps. Some gaps.items };

    fn tell(&mut self, gap: Gap) -> Result<(), AllocError> {
        match self.push(gap) {
            Ok(()) => Ok(()),
            Err(_) => Err(AllocError),
        }
    }
}
