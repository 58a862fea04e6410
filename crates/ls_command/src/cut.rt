//! Reads the value of `--pieces`.
ghost use Rattle.std.specs.Prelude.{◌^◌};
ghost use Rattle.ls_command.specs.Values.{ReadsBelow};
ghost use Rattle.ls_command.specs.View.Asked.{IsCutAfter, ReadsCut};

/// After how much of a film the next piece of its recording begins.
#[derive(Clone, Copy, Debug, PartialEq, Eq)]
pub enum Cut {
    /// This number of frames.
    Frames(u32),
    /// This number of seconds.
    Seconds(u32),
}

/// Reads a number of frames, or of seconds with `s` after it, from 1 to 4,294,967,295 in decimal digits; `None` for
/// another text.
pub fn read_cut(text: &str) -> Option<Cut>
    ensures { ReadsCut text.now result }
{
    match text.strip_suffix('s') {
        Some(seconds) => Some(Cut::Seconds(some(seconds)?)),
        None => Some(Cut::Frames(some(text)?)),
    }
}

/// Reads a number that isn't 0.
fn some(text: &str) -> Option<u32>
    ensures { IsCutAfter text.now result }
{
    let number = number(text)?;
    if number == 0 { None } else { Some(number) }
}

/// Reads a number in decimal digits, with any leading zeros and no sign.
fn number(text: &str) -> Option<u32>
    ensures { ReadsBelow (2 ^ 32) text.now result }
{
    if text.starts_with('+') {
        return None;
    }
    match text.parse::<u32>() {
        Ok(number) => Some(number),
        Err(_) => None,
    }
}
