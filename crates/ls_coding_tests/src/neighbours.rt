use crate::state::calls::{Around, check_equal, neighbours_of};
use ls_coding::{Mode, median_by, mode_of};

/// The samples around one, and its mode.
const MODES: &[(Around, Mode)] = &[
    ((0, 0, 0, 0), Mode::Run),
    ((5, 0, 0, 0), Mode::Regular),
    ((0, 0, 0, 5), Mode::Regular),
    ((5, 5, 5, 5), Mode::Run),
];

#[test]
fn run_mode_is_where_all_four_are_equal(rt: HostRuntime) {
    for (around, want) in MODES {
        let neighbours = neighbours_of(*around);
        let got = (neighbours, mode_of(&neighbours));
        check_equal(&rt, &got, &(neighbours, *want));
    }
}

/// A sample's neighbours Ra, Rb and Rc, and the prediction that they give (A.4.1).
const MEDIANS: &[([u16; 3], u32)] = &[
    ([10, 20, 5], 20),
    ([10, 20, 25], 10),
    ([10, 20, 12], 18),
    ([20, 10, 12], 18),
    ([20, 10, 5], 20),
    ([20, 10, 25], 10),
    ([7, 7, 7], 7),
    ([0, 65535, 65535], 0),
    ([0, 65535, 0], 65535),
    ([65535, 0, 0], 65535),
];

#[test]
fn medians_are_found_by_two_numbers_of_the_line_above(rt: HostRuntime) {
    for ([a, b, c], want) in MEDIANS {
        let got = median_by(*a, *b, b.saturating_sub(*c), c.saturating_sub(*b));
        check_equal(&rt, &got, want);
    }
}
