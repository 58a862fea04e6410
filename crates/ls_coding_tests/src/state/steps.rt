use super::calls::*;
use ls_coding::{RunWord, State, Tail, Word};
use ls_frame::Presets;
use std::process::Abort;

/// An event and its word.
enum Step {
    /// A sample of regular mode, and its word.
    Regular(Around, u16, Numbers),
    /// A run: its samples, the samples left in the line, and the number of bits 1 of its word.
    Run(u32, u32, u32),
    /// A sample that interrupts a run, and its word.
    Interruption(Around, u16, Numbers),
}

/// The number of times that the events are coded.
const ROUNDS: u32 = 5;

/// Events of each kind, with their words in the last round, which another program computed by the steps of T.87.
///
/// Contexts are met more often than RESET, with both signs of an error, and RUNindex rises and falls.
const STEPS: &[Step] = &[
    Step::Run(2, 9, 0),
    Step::Interruption((0, 0, 0, 0), 1, (0, 27, 0)),
    Step::Regular((5, 0, 0, 0), 5, (1, 32, 0)),
    Step::Regular((5, 0, 0, 0), 9, (0, 32, 6)),
    Step::Regular((0, 5, 5, 5), 0, (1, 32, 0)),
    Step::Regular((0, 5, 5, 5), 255, (1, 32, 1)),
    Step::Run(12, 12, 1),
    Step::Run(40, 41, 2),
    Step::Interruption((9, 0, 9, 0), 5, (7, 26, 9)),
    Step::Run(0, 1, 0),
    Step::Interruption((0, 9, 0, 9), 255, (7, 27, 19)),
    Step::Run(0, 100, 0),
    Step::Interruption((255, 255, 255, 255), 254, (0, 27, 1)),
    Step::Run(1, 300, 0),
    Step::Interruption((7, 7, 0, 0), 6, (0, 28, 1)),
    Step::Run(0, 2, 0),
    Step::Interruption((0, 200, 0, 200), 72, (6, 28, 255)),
    Step::Run(0, 3, 0),
    Step::Interruption((200, 0, 200, 0), 128, (7, 28, 255)),
    Step::Regular((5, 0, 0, 0), 3, (1, 32, 6)),
    Step::Regular((255, 0, 128, 3), 131, (2, 32, 2)),
    Step::Regular((0, 5, 5, 5), 2, (1, 32, 4)),
    Step::Run(70, 70, 6),
    Step::Run(1, 1, 0),
    Step::Run(0, 4, 0),
    Step::Interruption((7, 7, 0, 0), 8, (0, 26, 1)),
    Step::Run(3, 4, 0),
    Step::Interruption((9, 9, 9, 9), 10, (0, 27, 0)),
    Step::Regular((9, 9, 9, 10), 8, (0, 32, 0)),
    Step::Regular((10, 9, 9, 10), 9, (0, 32, 0)),
];

/// A state that encodes, and one that decodes what the first encoded.
#[derive(Drop)]
struct Pair {
    coder: State,
    reader: State,
}

impl Pair {
    fn new(presets: &Presets) -> Pair {
        Pair {
            coder: State::new(presets),
            reader: State::new(presets),
        }
    }

    /// Passes an event through both, and returns whether its word is the expected one.
    fn take(&mut self, rt: &impl Abort, step: &Step) -> bool {
        match step {
            Step::Regular(around, sample, want) => self.regular(rt, *around, *sample)
                == word_of(*want),
            Step::Run(count, left, ones) => self.run(rt, *count, *left) == *ones,
            Step::Interruption(around, sample, want) => self.interruption(rt, *around, *sample)
                == word_of(*want),
        }
    }

    fn regular(&mut self, rt: &impl Abort, around: Around, sample: u16) -> Word {
        let word = code_regular(rt, &mut self.coder, around, sample);
        let got = accept_regular(
            rt,
            &mut self.reader,
            around,
            (word.k, word.glimit, word.value),
        );
        check_sample(rt, got, Ok(sample));
        word
    }

    /// Passes a run of `count` of the `left` samples of a line through both, which ends with the line if it has them
    /// all, and returns the number of its bits 1.
    fn run(&mut self, rt: &impl Abort, count: u32, left: u32) -> u32 {
        let word = code_run(rt, &mut self.coder, count, count == left);
        check_number(rt, accept_run(rt, &mut self.reader, word, left), count);
        word.ones
    }

    fn interruption(&mut self, rt: &impl Abort, around: Around, sample: u16) -> Word {
        let word = code_interruption(rt, &mut self.coder, around, sample);
        let got = accept_interruption(
            rt,
            &mut self.reader,
            around,
            (word.k, word.glimit, word.value),
        );
        check_sample(rt, got, Ok(sample));
        word
    }
}

/// The number of samples of a decoded run, with `left` samples left in the line.
fn accept_run(rt: &impl Abort, state: &mut State, word: RunWord, left: u32) -> u32 {
    let mut after = left;
    for _ in 0..word.ones {
        after -= accept_one(rt, state, after);
    }
    match word.tail {
        Tail::LineFull => {}
        Tail::LinePart => {
            after -= accept_one(rt, state, after);
        }
        Tail::Interrupted { width, rest } => {
            check_number(rt, state.break_width(), width);
            check_break(rt, accept_break(rt, state, rest, after), Ok(()));
            after = after.saturating_sub(rest);
        }
    }
    left.saturating_sub(after)
}

#[test]
fn events_of_all_kinds_are_taken_as_they_were_coded(rt: HostRuntime) {
    let explicit = Presets::explicit(255, 3, 7, 21, 3);
    let Ok(presets) = explicit else {
        panic!(rt; "{explicit:?}");
    };
    let mut pair = Pair::new(&presets);
    for round in 1..ROUNDS + 1 {
        for step in STEPS {
            let is_wanted = pair.take(&rt, step);
            check(&rt, is_wanted || round < ROUNDS);
        }
    }
    check_number(&rt, pair.coder.run_index(), 16);
}
