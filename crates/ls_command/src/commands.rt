//! The table of commands and options, and how `clap` is given them.
use crate::limits::{CAPACITY, COUNT, QUEUE, SECONDS, SOURCES, SYNC, WINDOW, WORKERS};
use crate::texts::{
    CAPACITY_HELP, CHECK_BESIDE_HELP, CHECK_HELP, CHECKERS_HELP, CODE_HELP, COUNT_HELP, FILM_HELP,
    FILMS_HELP, FILMS_INTO_HELP, FRAMES_HELP, FRAMES_OF_CHECK_HELP, FRAMES_OF_VERIFY_HELP,
    INDEX_BESIDE_HELP, INDEX_FILE_HELP, INDEX_HELP, INDEX_OF_CODE_HELP, INDEX_OF_RECORDING_HELP,
    INDEX_OF_SALVAGE_HELP, INTO_HELP, JSON_HELP, JSON_OF_CHECK_HELP, KEEP_OPEN_HELP, LIST_HELP,
    NO_SUMS_HELP, PIECES_HELP, PLAY_HELP, PLAYERS_HELP, PRESET_HELP, PROGRESS_HELP, QUEUE_HELP,
    REASONS_HELP, RECORD_HELP, RECORDING_OF_FILM_HELP, RECORDINGS_HELP, REPLACE_HELP, REPLAY_HELP,
    REPORT_HELP, SALVAGE_HELP, SECONDS_HELP, SOURCES_HELP, STEPS_HELP, STRICT_HELP, SYNC_HELP,
    TIMES_HELP, VERIFIERS_HELP, VERIFY_HELP, WINDOW_HELP, WORKERS_HELP,
};
use clap::builder::ValueParser;
use clap::{Arg, ArgAction, Command};
use std::alloc::{AllocError, Global};

/// A command, with its short and its long help.
#[derive(Clone, Copy)]
struct Entry {
    name: &'static str,
    about: &'static str,
    help: &'static str,
    arguments: &'static [Argument],
}

/// An argument of a command: its name first, and its help last.
#[derive(Clone, Copy)]
enum Argument {
    /// A file, required.
    File(&'static str, &'static str),
    /// One file or more, required.
    Files(&'static str, &'static str),
    /// An option without a value.
    Flag(&'static str, &'static str),
    /// An option with a value that isn't empty, and the value's name in the help.
    Text(&'static str, &'static str, &'static str),
    /// An option whose value is a number: the least and the greatest, and the default.
    Number(&'static str, (i64, i64), &'static str, &'static str),
    /// The same without a default, and the value's name in the help.
    Limit(&'static str, &'static str, (i64, i64), &'static str),
    /// The same, but required.
    RequiredNumber(&'static str, (i64, i64), &'static str),
}

/// The program's name.
const PROGRAM: &str = "jlsrec";

/// The commands in the order of the help.
const COMMANDS: [Entry; 8] = [
    Entry {
        name: "record",
        about: "Records films side by side",
        help: RECORD_HELP,
        arguments: &[
            Argument::Number("workers", WORKERS, "2", WORKERS_HELP),
            Argument::Number("queue", QUEUE, "8", QUEUE_HELP),
            Argument::Number("window", WINDOW, "4", WINDOW_HELP),
            Argument::Text("preset", "T1,T2,T3,RESET", PRESET_HELP),
            Argument::Text("into", "FOLDER", INTO_HELP),
            Argument::Flag("replace", REPLACE_HELP),
            Argument::Flag("progress", PROGRESS_HELP),
            Argument::Text("report", "REPORT", REPORT_HELP),
            Argument::Flag("index", INDEX_OF_RECORDING_HELP),
            Argument::Flag("times", TIMES_HELP),
            Argument::Text("pieces", "N|Ns", PIECES_HELP),
            Argument::Limit("count", "FRAMES", COUNT, COUNT_HELP),
            Argument::Limit("for", "SECONDS", SECONDS, SECONDS_HELP),
            Argument::Flag("keep-open", KEEP_OPEN_HELP),
            Argument::Number("sync", SYNC, "10", SYNC_HELP),
            REASONS,
            Argument::Files("FILE", FILMS_HELP),
        ],
    },
    Entry {
        name: "play",
        about: "Plays recordings",
        help: PLAY_HELP,
        arguments: &[
            REASONS,
            Argument::Files("FILE", RECORDINGS_HELP),
            Argument::Text("into", "FOLDER", FILMS_INTO_HELP),
            Argument::Text("frames", "A..B", FRAMES_HELP),
            Argument::Flag("salvage", SALVAGE_HELP),
            Argument::Text("index", "INDEX", INDEX_OF_SALVAGE_HELP),
            Argument::Number("workers", WORKERS, "1", PLAYERS_HELP),
        ],
    },
    Entry {
        name: "code",
        about: "Codes the frames of a film",
        help: CODE_HELP,
        arguments: &[
            REASONS,
            Argument::File("FILE", FILM_HELP),
            Argument::Text("index", "INDEX", INDEX_OF_CODE_HELP),
        ],
    },
    Entry {
        name: "list",
        about: "Lists the frames of a film",
        help: LIST_HELP,
        arguments: &[
            REASONS,
            Argument::File("FILE", FILM_HELP),
            Argument::Flag("json", JSON_HELP),
        ],
    },
    Entry {
        name: "index",
        about: "Lists the codestreams of recordings",
        help: INDEX_HELP,
        arguments: &[
            REASONS,
            Argument::Files("FILE", RECORDINGS_HELP),
            Argument::Flag("beside", INDEX_BESIDE_HELP),
            Argument::Flag("no-sums", NO_SUMS_HELP),
            Argument::Flag("json", JSON_HELP),
        ],
    },
    Entry {
        name: "check",
        about: "Reports what is damaged in recordings",
        help: CHECK_HELP,
        arguments: &[
            REASONS,
            Argument::Files("FILE", RECORDINGS_HELP),
            Argument::Text("index", "INDEX", INDEX_FILE_HELP),
            Argument::Flag("beside", CHECK_BESIDE_HELP),
            Argument::Text("frames", "A..B", FRAMES_OF_CHECK_HELP),
            Argument::Number("workers", WORKERS, "1", CHECKERS_HELP),
            Argument::Flag("strict", STRICT_HELP),
            Argument::Flag("json", JSON_OF_CHECK_HELP),
        ],
    },
    Entry {
        name: "verify",
        about: "Compares recordings with films",
        help: VERIFY_HELP,
        arguments: &[
            REASONS,
            Argument::Text("frames", "A..B", FRAMES_OF_VERIFY_HELP),
            Argument::Number("workers", WORKERS, "1", VERIFIERS_HELP),
            Argument::Flag("strict", STRICT_HELP),
            Argument::File("FILM", FILM_HELP),
            Argument::Files("FILE", RECORDING_OF_FILM_HELP),
        ],
    },
    Entry {
        name: "replay",
        about: "Replays the steps of a queue",
        help: REPLAY_HELP,
        arguments: &[
            Argument::RequiredNumber("sources", SOURCES, SOURCES_HELP),
            Argument::RequiredNumber("capacity", CAPACITY, CAPACITY_HELP),
            REASONS,
            Argument::File("FILE", STEPS_HELP),
        ],
    },
];

/// The option of every command to say why a device failed.
const REASONS: Argument = Argument::Flag("reasons", REASONS_HELP);

/// The program's commands, options and help.
pub fn command<'a>(alloc: Global) -> Result<Command<'a>, AllocError> {
    let mut commands = Vec::new(alloc);
    for entry in COMMANDS {
        commands.push(command_of(alloc, entry)?)?;
    }
    bare_command(alloc)?.subcommands(commands)
}

/// The command of this name, called `jlsrec NAME` in messages; or the program, if it has no such command.
pub fn command_named<'a>(alloc: Global, name: &str) -> Result<Command<'a>, AllocError> {
    for entry in COMMANDS {
        if entry.name == name {
            let full_name = format!(in alloc; "{PROGRAM} {name}")?;
            return command_of(alloc, entry)?.bin_name(&full_name);
        }
    }
    command(alloc)
}

/// The program without its commands.
fn bare_command<'a>(alloc: Global) -> Result<Command<'a>, AllocError> {
    Command::new(alloc, PROGRAM)
        .version("0.1.0")
        .about("A lossless recorder of image sequences: JPEG-LS, ITU-T T.87")
        .no_binary_name(true)
        .subcommand_required(true)
        .bin_name(PROGRAM)
}

/// A command of the table, with its arguments.
fn command_of<'a>(alloc: Global, entry: Entry) -> Result<Command<'a>, AllocError> {
    let mut command = Command::new(alloc, entry.name)
        .about(entry.about)
        .long_about(entry.help);
    for argument in entry.arguments {
        command = command.arg(argument_of(alloc, *argument))?;
    }
    Ok(command)
}

/// An argument of the table.
fn argument_of<'a>(alloc: Global, argument: Argument) -> Arg<'a> {
    match argument {
        Argument::File(name, help) => file(alloc, name, help),
        Argument::Files(name, help) => file(alloc, name, help).num_args(1..),
        Argument::Flag(name, help) => flag(alloc, name, help),
        Argument::Text(name, value, help) => {
            option(alloc, name, value, help).value_parser(ValueParser::NonEmptyString)
        }
        Argument::Number(name, range, usual, help) => {
            number(alloc, name, "N", range, help).default_value(usual)
        }
        Argument::Limit(name, value, range, help) => number(alloc, name, value, range, help),
        Argument::RequiredNumber(name, range, help) => {
            number(alloc, name, "N", range, help).required(true)
        }
    }
}

/// The argument that names a file.
fn file<'a>(alloc: Global, name: &'a str, help: &'a str) -> Arg<'a> {
    Arg::new(alloc, name).required(true).help(help)
}

/// An option without a value.
fn flag<'a>(alloc: Global, name: &'a str, help: &'a str) -> Arg<'a> {
    Arg::new(alloc, name)
        .long(name)
        .action(ArgAction::SetTrue)
        .help(help)
}

/// An option whose value is called `value` in the help.
fn option<'a>(alloc: Global, name: &'a str, value: &'a str, help: &'a str) -> Arg<'a> {
    Arg::new(alloc, name)
        .long(name)
        .value_name(value)
        .help(help)
}

/// An option whose value is a number in `range`, both ends included, and is called `value` in the help.
fn number<'a>(
    alloc: Global,
    name: &'a str,
    value: &'a str,
    range: (i64, i64),
    help: &'a str,
) -> Arg<'a> {
    let (least, most) = range;
    option(alloc, name, value, help).value_parser(ValueParser::signed(least, most))
}
