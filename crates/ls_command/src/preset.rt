//! Reads the coding parameters of `--preset`.
ghost use Rattle.std.specs.Prelude.{◌^◌};
ghost use Rattle.ls_command.specs.Values.{ReadsBelow};
ghost use Rattle.ls_command.specs.View.Asked.{ReadsPreset, ReadsTuning, TakesNumber};

use ls_frame::Tuning;

/// The tuning of a preset: four numbers from 0 to 65535 in decimal digits, with commas between; `None` for another
/// text. Without a preset all four are 0.
pub fn tuning_of(preset: Option<&str>) -> Option<Tuning>
    ensures { ReadsPreset preset.entry result }
{
    match preset {
        Some(text) => read_tuning(text),
        None => Some(Tuning {
            t1: 0,
            t2: 0,
            t3: 0,
            reset: 0,
        }),
    }
}

/// Reads a tuning.
fn read_tuning(text: &str) -> Option<Tuning>
    ensures { ReadsTuning text.now result }
{
    let (t1, rest) = take_number(text)?;
    let (t2, rest) = take_number(rest)?;
    let (t3, rest) = take_number(rest)?;
    let reset = number_of(rest)?;
    Some(Tuning { t1, t2, t3, reset })
}

/// Reads the number before the first comma, and returns the text after that.
fn take_number(text: &str) -> Option<(u16, &str)>
    ensures { TakesNumber text.now result }
{
    let (number, rest) = text.split_once(',')?;
    Some((number_of(number)?, rest))
}

/// Reads a number from 0 to 65535 in decimal digits, with any leading zeros and no sign.
fn number_of(text: &str) -> Option<u16>
    ensures { ReadsBelow (2 ^ 16) text.now result }
{
    if text.starts_with('+') {
        return None;
    }
    match text.parse::<u16>() {
        Ok(number) => Some(number),
        Err(_) => None,
    }
}
