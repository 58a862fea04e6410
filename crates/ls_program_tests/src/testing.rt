//! What a command answers, and its check.

use std::process::Abort;

/// What a command answers: its status, and what it writes to standard output and to standard error.
pub type Want = (u8, &'static [u8], &'static [u8]);

/// The answer of a command.
#[derive(Drop)]
pub struct Answered {
    pub status: u8,
    pub output: Vec<u8>,
    pub errors: Vec<u8>,
}

/// Checks the answer of a command.
pub fn check(rt: &impl Abort, answered: &Answered, want: Want) {
    let (output, errors) = (answered.output.as_slice(), answered.errors.as_slice());
    let got = (answered.status, output, errors);
    assert_eq!(rt; got, want);
}
