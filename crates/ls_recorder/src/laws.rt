//! Laws: each is the contract of a function with an empty body.
ghost use Rattle.std.specs.Prelude.{◌≡◌, None, Some};
ghost use Rattle.ls_recorder.specs.Sizes.{record_fault};

use crate::faults::RecordFault;

/// The least and the greatest sizes of a recording, and the fault of each number just outside them; of several faults,
/// the first.
pub fn recordings_have_these_limits()
    ensures least { record_fault 1 1 1 1 ≡ None }
    ensures most { record_fault 16 16 256 64 ≡ None }
    ensures no_source { record_fault 0 1 1 1 ≡ Some RecordFault.Sources }
    ensures sources { record_fault 17 16 256 64 ≡ Some RecordFault.Sources }
    ensures no_worker { record_fault 1 0 1 1 ≡ Some RecordFault.Workers }
    ensures workers { record_fault 16 17 256 64 ≡ Some RecordFault.Workers }
    ensures no_capacity { record_fault 1 1 0 1 ≡ Some RecordFault.Capacity }
    ensures capacity { record_fault 16 16 257 64 ≡ Some RecordFault.Capacity }
    ensures no_window { record_fault 1 1 1 0 ≡ Some RecordFault.Window }
    ensures window { record_fault 16 16 256 65 ≡ Some RecordFault.Window }
    ensures first { record_fault 0 0 0 0 ≡ Some RecordFault.Sources }
    ensures second { record_fault 1 0 0 0 ≡ Some RecordFault.Workers }
    ensures third { record_fault 1 1 0 0 ≡ Some RecordFault.Capacity }
{}
