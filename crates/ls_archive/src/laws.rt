//! Laws: each is the contract of a function with an empty body.
ghost use Rattle.ls_archive.specs.Verify.{OneVerdict, SomeVerdict};
ghost use Rattle.ls_archive.specs.View.Entries.{OneIndex};
ghost use Rattle.ls_archive.specs.View.Listed.{ShownAreFrames};

/// A recording has one index: only one list of entries has the recording's bytes as its codestreams.
pub fn recordings_have_one_index()
    ensures { OneIndex }
{}

/// The frames of a film and those of a recording have exactly one verdict.
pub fn frames_have_one_verdict()
    ensures one { OneVerdict }
    ensures some { SomeVerdict }
{}

/// What is shown by an index of a recording are the recording's frames that were asked for, wherever the index's line was
/// found: a check of the recording by that index finds no damage.
pub fn listed_frames_are_the_recordings()
    ensures { ShownAreFrames }
{}
