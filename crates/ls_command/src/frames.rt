//! Reads the frame numbers of `--frames`.
ghost use Rattle.std.specs.Prelude.{◌<◌};
ghost use Rattle.ls_command.specs.Values.{ReadsBelow};
ghost use Rattle.ls_command.specs.View.Asked.{IsBetween, ReadsFrames, ReadsRange};

/// The frames of a film have numbers below this.
pub const MOST_NUMBERS: u32 = u32::MAX;

/// The frames from `first` to `last` inclusive, or to the end; numbered from 0.
#[derive(Clone, Copy, Debug, PartialEq, Eq)]
pub struct Frames {
    pub first: u32,
    pub last: Option<u32>,
}

/// Reads `A`, `A..`, `..B` or `A..B`, where A and B are numbers below 4,294,967,295 in decimal digits and A is no
/// greater than B; `None` for another text.
pub fn read_frames(text: &str) -> Option<Frames>
    ensures { ReadsFrames text.now result }
{
    match text.split_once('.') {
        Some((first, rest)) => range(first, rest.strip_prefix('.')?),
        None => {
            let first = number(text)?;
            Some(Frames {
                first,
                last: Some(first),
            })
        }
    }
}

/// Reads what is before and after `..`.
fn range(first: &str, last: &str) -> Option<Frames>
    ensures { ReadsRange first.now last.now result }
{
    if last.is_empty() {
        let first = number(first)?;
        return Some(Frames { first, last: None });
    }
    if first.is_empty() {
        return between(0, number(last)?);
    }
    between(number(first)?, number(last)?)
}

/// The frames from one number to another, if they are in order.
fn between(first: u32, last: u32) -> Option<Frames>
    ensures { IsBetween first last result }
{
    if first > last {
        return None;
    }
    Some(Frames {
        first,
        last: Some(last),
    })
}

/// Reads a frame's number: digits, at most the greatest number that a frame has.
fn number(text: &str) -> Option<u32>
    ensures { ReadsBelow MOST_NUMBERS text.now result }
{
    if text.starts_with('+') {
        return None;
    }
    match text.parse::<u32>() {
        Ok(number) => {
            if number < MOST_NUMBERS {
                Some(number)
            } else {
                None
            }
        }
        Err(_) => None,
    }
}
