//! How the program is asked to stop.
use std::fs::{Files, OpenFile, OpenOptions};
use std::sync::atomic::{AtomicBool, Ordering};

/// How the program is asked to stop: by a signal, or by itself.
#[derive(Drop)]
pub struct Stop<F> {
    /// The file that has a byte once the program was asked to stop, if there is one. What writes a byte into it for a
    /// signal also interrupts the program's threads from then on, whoever made it longer. It is open from the start:
    /// later there may be no descriptor left.
    asked: Option<F>,
    /// Whether the program has asked itself.
    is_asked: AtomicBool,
}

impl<F: OpenFile> Stop<F> {
    /// A stop that nothing has asked for yet, with the file at this path, if one is given and can be opened.
    pub fn open<R: Files<File = F>>(rt: &R, path: Option<&str>) -> Stop<F> {
        let asked = match path {
            Some(path) => OpenOptions::new().write(true).open(rt, path).ok(),
            None => None,
        };
        Stop {
            asked,
            is_asked: AtomicBool::new(false),
        }
    }

    /// Whether the program was asked to stop.
    pub fn is_asked(&self) -> bool {
        if self.is_asked.load(Ordering::SeqCst) {
            return true;
        }
        match &self.asked {
            Some(asked) => asked.metadata().is_ok_and(|file| file.len() > 0),
            None => false,
        }
    }

    /// Asks the program to stop. Without a file a read that waits goes on waiting.
    pub fn ask(&self) {
        self.is_asked.store(true, Ordering::SeqCst);
        if let Some(asked) = &self.asked {
            let _refused = asked.set_len(1);
        }
    }
}
