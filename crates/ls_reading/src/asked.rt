//! What a command that writes lines is asked for.
use ls_console::Console;

/// A file to be read, and what it is read with: the runtime, the opener, a buffer for the lines, and the console.
#[derive(Drop)]
pub struct Asked<'a, R, O, E> {
    pub rt: &'a R,
    pub opener: O,
    pub file: &'a str,
    pub buffer: Vec<u8>,
    pub console: &'a mut Console<E>,
}
