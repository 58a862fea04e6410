use crate::state::calls::{check, fresh, neighbours_of, word_of};
use ls_coding::{Mode, Neighbours, State, Word, mode_of};

/// The code word of a sample of regular mode, whose error the state then counts. `None` if none may come next.
fn next_word(state: &mut State, neighbours: &Neighbours, sample: u16) -> Option<Word> {
    let Neighbours { a, b, c, d } = *neighbours;
    let maxval = state.presets().maxval();
    if a > maxval || b > maxval || c > maxval || d > maxval || sample > maxval {
        return None;
    }
    if state.interrupted() || mode_of(neighbours) == Mode::Run {
        return None;
    }
    Some(state.code_regular(neighbours, sample))
}

#[test]
fn the_page_codes_a_sample_of_regular_mode(rt: HostRuntime) {
    let word = next_word(&mut fresh(), &neighbours_of((5, 0, 0, 0)), 5);
    check(&rt, word == Some(word_of((2, 32, 0))));
    check(
        &rt,
        next_word(&mut fresh(), &neighbours_of((0, 0, 0, 0)), 5) == None,
    );
}
