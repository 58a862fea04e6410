//! What each command works with.
use crate::console::Console;
use ls_frame::Counted;
use std::rt::Files;

/// A runtime with all that reading takes: files, memory and standard error.
pub trait Host: Eprint + Files + AllocGlobal {}

impl<R: Eprint + Files + AllocGlobal> Host for R {}

/// What a command works with: the runtime, the opener of its files, standard output and the console.
#[derive(Drop)]
pub struct Program<'p, R, O, W, E> {
    pub rt: &'p R,
    pub opener: O,
    pub output: &'p mut Counted<W>,
    pub console: &'p mut Console<E>,
}
