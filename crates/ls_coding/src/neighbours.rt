//! The samples around the one that is coded, and the mode that they call for (T.87 A.3.1, A.3.2).
ghost use Rattle.std.specs.Prelude.{◌≡◌, if◌then◌else◌};
ghost use Rattle.ls_coding.specs.Contexts.{is_run};

/// The samples around the one that is coded (T.87 Figure A.1). The calls of `State` require each of them to be at most
/// MAXVAL.
///
/// At the edges of a plane, where there is no such sample, the caller gives the value that T.87 A.2.1 defines there.
#[derive(Clone, Copy, Debug, PartialEq, Eq)]
pub struct Neighbours {
    /// Ra, to the left.
    pub a: u16,
    /// Rb, above.
    pub b: u16,
    /// Rc, above to the left.
    pub c: u16,
    /// Rd, above to the right.
    pub d: u16,
}

/// How a sample is coded (A.3.2), as `mode_of` answers.
#[derive(Clone, Copy, Debug, PartialEq, Eq)]
pub enum Mode {
    /// As part of a run (`code_run`), or as the sample that interrupts one (`code_interruption`).
    Run,
    /// By itself (`code_regular`).
    Regular,
}

/// The mode that these neighbours call for (A.3.2): run mode exactly if the gradients D1, D2 and D3 are 0, which means
/// that all four are equal. They may have any values. Allocates nothing and cannot fail.
///
/// For callers that code sample by sample. The encoder and the decoder themselves compute contexts beforehand, whose
/// number is 0 exactly in run mode.
pub fn mode_of(neighbours: &Neighbours) -> Mode
    ensures { result ≡ (if is_run neighbours.now then Mode.Run else Mode.Regular) }
{
    if neighbours.a == neighbours.b
        && neighbours.b == neighbours.c
        && neighbours.c == neighbours.d
    {
        Mode::Run
    } else {
        Mode::Regular
    }
}
