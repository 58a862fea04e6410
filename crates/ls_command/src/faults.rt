//! Usage faults that `clap` doesn't find by itself, and tips for unknown commands.
use crate::commands::{command, command_named};
use crate::match_words;
use clap::error::ErrorKind;
use clap::{ArgMatches, Command, Error};
use std::alloc::{AllocError, Global};

/// A usage fault that `clap` doesn't find by itself. An `AllocError`, also that of the command, becomes an error of
/// kind `OutOfMemory`.
pub fn usage_fault(used: Result<Command<'_>, AllocError>, message: &str) -> Error {
    fault_of_kind(ErrorKind::InvalidValue, used, message)
}

/// A usage fault of the command of this name.
pub fn misuse_of(alloc: Global, name: &str, message: &str) -> Error {
    usage_fault(command_named(alloc, name), message)
}

/// The same, of any kind.
fn fault_of_kind(kind: ErrorKind, used: Result<Command<'_>, AllocError>, message: &str) -> Error {
    let made = match used {
        Ok(mut used) => used.error(kind, message),
        Err(refused) => Err(refused),
    };
    match made {
        Ok(error) => error,
        Err(refused) => Error::from(refused),
    }
}

/// Adds a tip to the error for an unknown command: the command that may be meant, if there is one. Other errors stay
/// as they are.
pub fn with_tip(alloc: Global, words: &[String], error: Error) -> Error {
    if error.kind() != ErrorKind::InvalidSubcommand {
        return error;
    }
    let is_help = words.first().is_some_and(|word| word.as_str() == "help");
    let name = usize::from(is_help);
    match words.get(name) {
        Some(word) => match meant_by(word.as_str()) {
            Some(meant) => unknown_command(alloc, word.as_str(), meant),
            None if is_help => tip_of_clap(alloc, words, error),
            None => error,
        },
        None => error,
    }
}

/// The command that is meant by another word for what it does.
fn meant_by(word: &str) -> Option<&'static str> {
    match word {
        "decode" => Some("play"),
        "encode" => Some("record"),
        _ => None,
    }
}

/// A usage fault in the words of `clap`: an unknown command, with `meant` as its tip.
fn unknown_command(alloc: Global, word: &str, meant: &str) -> Error {
    let message = format!(in alloc;
        "unrecognized subcommand '{word}'\n\n  tip: a similar subcommand exists: '{meant}'"
    );
    match message {
        Ok(message) => {
            fault_of_kind(
                ErrorKind::InvalidSubcommand,
                command(alloc),
                message.as_str(),
            )
        }
        Err(refused) => Error::from(refused),
    }
}

/// Has `clap` look at the word after `help` by itself, since it gives a tip for an unknown command only then. Without
/// a tip, `error`.
fn tip_of_clap(alloc: Global, words: &[String], error: Error) -> Error {
    match words.get(1..2) {
        Some(word) => tip_or(match_words(alloc, word), error),
        None => error,
    }
}

/// The error for an unknown command, if `matched` is one; else `error`.
fn tip_or(matched: Result<ArgMatches<'_>, Error>, error: Error) -> Error {
    match matched {
        Ok(_matches) => error,
        Err(tip) => {
            if tip.kind() == ErrorKind::InvalidSubcommand {
                tip
            } else {
                error
            }
        }
    }
}
