//! Gets the words of the command line, or says which of them isn't UTF-8.
use ls_console::ShownBytes;
use std::alloc::AllocError;
use std::rt::Env;
use std::{env, io, str};

/// The most bytes that the system passes in a word, with the NUL at its end.
const LONGEST_WORD: usize = 131_072;

/// The words after the program's name.
pub fn words<R: Env + AllocGlobal>(rt: &R) -> io::Result<Vec<String>> {
    Ok(env::args(rt)?.skip(1).collect(rt.alloc())?)
}

/// Says which of the words isn't UTF-8, by its number from 1 after the program's name, and how to do without it.
pub fn fault_of_words<R: Env + AllocGlobal>(rt: &R) -> Result<String, AllocError> {
    let alloc = rt.alloc();
    let mut bytes = vec![in alloc; 0; LONGEST_WORD]?;
    for number in 1..usize::MAX {
        let Ok(length) = rt.arg(number, &mut bytes) else {
            break;
        };
        let word = &bytes[..length];
        if str::from_utf8(word).is_err() {
            let word = ShownBytes(word);
            return format!(in alloc;
                "word {number}, {word}, isn't UTF-8: go to its folder or name it by a link"
            );
        }
    }
    "a word isn't UTF-8".to_string(alloc)
}
