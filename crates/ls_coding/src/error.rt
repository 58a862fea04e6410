//! Prediction, errors, and mapped errors (T.87 A.4, A.5).
ghost use Rattle.std.specs.Prelude.{◌≡◌, ◌+◌, ◌-◌, ◌*◌, ◌/◌, ◌^◌, ◌<◌, ◌≤◌, ◌↔◌, IsTrue, false, max, ℕ, ℤ, pos, neg_ℤ, ◌+ℤ◌, ◌-ℤ◌, ◌≤ℤ◌, ◌<ℤ◌, int_le, int_lt, if◌then◌else◌};
ghost use Rattle.ls_frame.specs.Parameters.{range_of};
ghost use Rattle.ls_coding.specs.Numbers.{golomb_parameter, clamped};
ghost use Rattle.ls_coding.specs.Contexts.{signed};
ghost use Rattle.ls_coding.specs.Errors.{median, predicted, reduced, error_of, IsReduced, is_inverted, mapped_error};
ghost use Rattle.ls_coding.specs.View.Mirrors.{mirrored_error};
ghost use Rattle.ls_coding.specs.declared.neighbours.Neighbours.{Neighbours};

use crate::neighbours::Neighbours;
use ls_frame::Presets;

/// The prediction of a sample, corrected by its context's C, `bias` (A.4.1, A.4.2); `middle` is the median of its
/// neighbours.
pub fn predicted(presets: Presets, negative: bool, bias: i32, middle: u32) -> u16
    requires middle { middle ≤ presets.maxval }
    requires low { neg_ℤ (pos 128) ≤ℤ bias }
    requires high { bias ≤ℤ pos 127 }
    ensures value { (neighbours : Neighbours) → middle ≡ median neighbours → pos result ≡ predicted presets negative bias neighbours }
    ensures within { result ≤ presets.maxval }
{
    let correction = signed(negative, bias);
    clamped(middle as i32 + correction, presets.maxval())
}

/// The reduced error of a sample for a prediction (A.4.3, A.4.5).
pub fn error_of(presets: Presets, negative: bool, prediction: u16, sample: u16) -> i32
    requires prediction { prediction ≤ presets.maxval }
    requires sample { sample ≤ presets.maxval }
    ensures value { result ≡ error_of presets negative (pos prediction) sample }
    ensures reduced { IsReduced (range_of presets.maxval) result }
{
    let difference = i32::from(sample) - i32::from(prediction);
    reduced(presets.range(), signed(negative, difference))
}

/// The reduced error of a sample (A.4.2 to A.4.5), from the sample and the prediction that `mirror` gives; `bias` is
/// the context's C, by which the prediction is still to be corrected.
pub fn mirrored_error(presets: Presets, bias: i32, prediction: u16, sample: u16) -> i32
    requires prediction { prediction ≤ presets.maxval }
    requires sample { sample ≤ presets.maxval }
    requires low { neg_ℤ (pos 128) ≤ℤ bias }
    requires high { bias ≤ℤ pos 127 }
    ensures value { result ≡ mirrored_error presets bias prediction sample }
    ensures reduced { IsReduced (range_of presets.maxval) result }
{
    let corrected = corrected(presets, bias, prediction);
    reduced(presets.range(), i32::from(sample) - i32::from(corrected))
}

/// A prediction corrected by a context's C, and clamped to the range 0 to MAXVAL (A.4.2).
fn corrected(presets: Presets, bias: i32, prediction: u16) -> u16
    requires prediction { prediction ≤ presets.maxval }
    requires low { neg_ℤ (pos 128) ≤ℤ bias }
    requires high { bias ≤ℤ pos 127 }
    ensures value { pos result ≡ clamped (pos 0) (pos presets.maxval) (pos prediction +ℤ bias) }
    ensures within { result ≤ presets.maxval }
{
    clamped(i32::from(prediction) + bias, presets.maxval())
}

/// Whether an error is a reduced one (A.4.5): from -RANGE / 2 to (RANGE - 1) / 2, both rounded towards 0.
pub fn is_reduced(range: u32, error: i32) -> bool
    requires range { range ≤ 65536 }
    requires low { neg_ℤ (pos 131072) ≤ℤ error }
    requires high { error ≤ℤ pos 131072 }
    ensures { IsTrue result ↔ IsReduced range error }
{
    is_below(error + (range / 2) as i32, range)
}

/// The one sample that has this reduced error for a prediction.
pub fn sample_of(presets: Presets, negative: bool, prediction: u16, error: i32) -> u16
    requires prediction { prediction ≤ presets.maxval }
    requires reduced { IsReduced (range_of presets.maxval) error }
    ensures error { error_of presets negative (pos prediction) result ≡ error }
    ensures within { result ≤ presets.maxval }
    ensures only { (sample : ℕ) → sample ≤ presets.maxval
        → error_of presets negative (pos prediction) sample ≡ error → sample ≡ result }
{
    let difference = signed(negative, error);
    modulo_range(i32::from(prediction) + difference, presets.range()) as u16
}

/// The Golomb parameter (A.5.1): the least k with n * 2^k at least a.
pub fn golomb_parameter(n: u32, a: u32) -> u32
    requires some { 0 < n }
    requires few { a < 2 ^ 31 }
    requires sum { a ≤ n * 65535 }
    ensures { result ≡ golomb_parameter n a }
{
    if n <= 256 {
        // the bit length of the quotient
        return 63 - (2 * quotient_below(n, a) + 1).leading_zeros();
    }
    golomb_parameter_by_bits(n, a)
}

/// The Golomb parameter, for any n.
fn golomb_parameter_by_bits(n: u32, a: u32) -> u32
    requires some { 0 < n }
    requires few { a < 2 ^ 31 }
    ensures { result ≡ golomb_parameter n a }
{
    let k = n.leading_zeros().saturating_sub(a.leading_zeros());
    if n << k < a { k + 1 } else { k }
}

/// (a - 1) / n, rounded down, or 0 if a is 0.
fn quotient_below(n: u32, a: u32) -> u64
    requires some { 0 < n }
    requires small { n ≤ 256 }
    requires sum { a ≤ n * 65535 }
    ensures value { result ≡ (a - 1) / n }
    ensures within { result < 2 ^ 32 }
{
    (u64::from(a) * u64::from(reciprocal(n))) >> 32
}

/// (2^32 - 1) / n, rounded down.
fn reciprocal(n: u32) -> u32
    requires { n ≤ 256 }
    ensures { result ≡ 4294967295 / n }
{
    RECIPROCALS[n as usize]
}

/// Whether odd mapped errors stand for the errors from 0 up, not for negative ones (A.5.2).
fn is_inverted(k: u32, b: i32, n: u32) -> bool
    requires few { n ≤ 65536 }
    requires low { neg_ℤ (pos 131072) ≤ℤ b }
    requires high { b ≤ℤ pos 131072 }
    ensures { result ≡ is_inverted k b n }
{
    k == 0 && 2 * b <= -(n as i32)
}

/// MErrval, the mapped error (A.5.2), in a context with these k, B and N.
pub fn mapped_error(k: u32, b: i32, n: u32, error: i32) -> u32
    requires few { n ≤ 65536 }
    requires mean_low { neg_ℤ (pos 131072) ≤ℤ b }
    requires mean_high { b ≤ℤ pos 131072 }
    requires low { neg_ℤ (pos 32768) ≤ℤ error }
    requires high { error ≤ℤ pos 32767 }
    ensures { result ≡ mapped_error (is_inverted k b n) error }
{
    if k != 0 {
        return folded_error(error);
    }
    inverted_error(is_inverted(k, b, n), error)
}

/// The mapped error; inverting flips its bit 0.
fn inverted_error(inverted: bool, error: i32) -> u32
    requires low { neg_ℤ (pos 32768) ≤ℤ error }
    requires high { error ≤ℤ pos 32767 }
    ensures { result ≡ mapped_error inverted error }
{
    let value = folded_error(error);
    if inverted { value ^ 1 } else { value }
}

/// The mapped error, where odd ones stand for negative errors.
fn folded_error(error: i32) -> u32
    requires low { neg_ℤ (pos 32768) ≤ℤ error }
    requires high { error ≤ℤ pos 32767 }
    ensures { result ≡ mapped_error false error }
{
    let twice = 2 * error;
    if error < 0 {
        return (-1 - twice) as u32;
    }
    twice as u32
}

/// The error whose mapped error is `value` (A.5.2), in a context with these k, B and N.
pub fn unmapped_error(k: u32, b: i32, n: u32, value: u32) -> i32
    requires few { n ≤ 65536 }
    requires mean_low { neg_ℤ (pos 131072) ≤ℤ b }
    requires mean_high { b ≤ℤ pos 131072 }
    requires value { value ≤ 65536 }
    ensures value { mapped_error (is_inverted k b n) result ≡ value }
    ensures only { (e : ℤ) → mapped_error (is_inverted k b n) e ≡ value → e ≡ result }
    ensures low { neg_ℤ (pos 32769) ≤ℤ result }
    ensures high { result ≤ℤ pos 32769 }
{
    if k != 0 {
        return unfolded_error(value);
    }
    uninverted_error(is_inverted(k, b, n), value)
}

/// The error whose mapped error is `value`; inverting flips bit 0 of a mapped error.
fn uninverted_error(inverted: bool, value: u32) -> i32
    requires { value ≤ 65536 }
    ensures value { mapped_error inverted result ≡ value }
    ensures only { (e : ℤ) → mapped_error inverted e ≡ value → e ≡ result }
    ensures low { neg_ℤ (pos 32769) ≤ℤ result }
    ensures high { result ≤ℤ pos 32769 }
{
    let half = (value / 2) as i32;
    let odd = value % 2 == 1;
    if odd == inverted { half } else { -1 - half }
}

/// The error whose mapped error is `value`, where odd ones stand for negative errors.
fn unfolded_error(value: u32) -> i32
    requires { value ≤ 65536 }
    ensures value { mapped_error false result ≡ value }
    ensures only { (e : ℤ) → mapped_error false e ≡ value → e ≡ result }
    ensures low { neg_ℤ (pos 32769) ≤ℤ result }
    ensures high { result ≤ℤ pos 32769 }
{
    let half = (value / 2) as i32;
    if value % 2 == 1 { -1 - half } else { half }
}

/// The edge-detecting predictor (A.4.1).
pub fn median(neighbours: &Neighbours) -> u16
    ensures value { result ≡ median neighbours.now }
    ensures within { result ≤ max neighbours.now.a neighbours.now.b }
{
    let low = neighbours.a.min(neighbours.b);
    let high = neighbours.a.max(neighbours.b);
    if neighbours.c >= high {
        low
    } else if neighbours.c <= low {
        high
    } else {
        low + (high - neighbours.c)
    }
}

/// The median of a sample's neighbours (A.4.1), from two differences in the line above, which may be computed before Ra
/// is known: `rise` is Rb - Rc, and `fall` is Rc - Rb, each 0 where it would be negative.
///
/// Takes any numbers. Allocates nothing and cannot fail.
pub fn median_by(a: u16, b: u16, rise: u16, fall: u16) -> u32
    ensures { (c d : ℕ) → rise ≡ b - c → fall ≡ c - b → result ≡ median (record { a = a; b = b; c = c; d = d }) }
{
    let most = (i32::from(a) + i32::from(rise)).min(i32::from(b));
    most.max(i32::from(a) - i32::from(fall)) as u32
}

/// `number`, clamped to the range 0 to `greatest`.
fn clamped(number: i32, greatest: u16) -> u16
    requires low { neg_ℤ (pos 131072) ≤ℤ number }
    requires high { number ≤ℤ pos 131072 }
    ensures value { pos result ≡ clamped (pos 0) (pos greatest) number }
    ensures within { result ≤ greatest }
{
    if is_below(number, u32::from(greatest) + 1) {
        return number as u16;
    }
    bound_past(number, greatest)
}

/// 0 for a number below 0, else `greatest`.
#[cold]
#[inline(never)]
fn bound_past(number: i32, greatest: u16) -> u16
    ensures value { result ≡ (if int_lt number (pos 0) then 0 else greatest) }
    ensures within { result ≤ greatest }
{
    if number < 0 { 0 } else { greatest }
}

/// `number`, with its sign changed if SIGN is -1.
fn signed(negative: bool, number: i32) -> i32
    requires low { neg_ℤ (pos 131072) ≤ℤ number }
    requires high { number ≤ℤ pos 131072 }
    ensures { result ≡ signed negative number }
{
    if negative {
        return -number;
    }
    number
}

/// An error modulo RANGE (A.4.5).
fn reduced(range: u32, error: i32) -> i32
    requires some { 1 ≤ range }
    requires range { range ≤ 65536 }
    requires low { neg_ℤ (pos range) <ℤ error }
    requires high { error <ℤ pos range }
    ensures value { result ≡ reduced range error }
    ensures reduced { IsReduced range result }
{
    if is_reduced(range, error) {
        return error;
    }
    if error < 0 {
        return error + range as i32;
    }
    error - range as i32
}

/// `number` modulo `range`. Requires a number from -`range` up to, but not including, 2 * `range`.
fn modulo_range(number: i32, range: u32) -> u32
    requires range { range ≤ 65536 }
    requires low { neg_ℤ (pos range) ≤ℤ number }
    requires high { number <ℤ (pos range +ℤ pos range) }
    ensures value { pos result ≡ (if int_lt number (pos 0) then number +ℤ pos range
        else (if int_le (pos range) number then number -ℤ pos range else number)) }
    ensures within { result < range }
{
    if is_below(number, range) {
        return number as u32;
    }
    nearer_by_range(number, range)
}

/// As `modulo_range`, for a number below 0 or of at least `range`.
#[cold]
#[inline(never)]
fn nearer_by_range(number: i32, range: u32) -> u32
    requires range { range ≤ 65536 }
    requires low { neg_ℤ (pos range) ≤ℤ number }
    requires high { number <ℤ (pos range +ℤ pos range) }
    requires past { pos 0 ≤ℤ number → pos range ≤ℤ number }
    ensures value { pos result ≡ (if int_lt number (pos 0) then number +ℤ pos range
        else (if int_le (pos range) number then number -ℤ pos range else number)) }
    ensures within { result < range }
{
    let size = number.unsigned_abs();
    if number < 0 {
        range - size
    } else {
        size - range
    }
}

/// Whether a number is from 0 to `count` - 1, by one comparison.
pub fn is_below(number: i32, count: u32) -> bool
    requires count { count ≤ 65536 }
    requires low { neg_ℤ (pos 262144) ≤ℤ number }
    requires high { number ≤ℤ pos 262144 }
    ensures { IsTrue result ↔ ((pos 0 ≤ℤ number) × (number <ℤ pos count)) }
{
    number.cast_unsigned() < count
}

/// (2^32 - 1) / n, rounded down, for n up to 256; the first element isn't used.
const RECIPROCALS: [u32; 257] = [
    0, 4294967295, 2147483647, 1431655765, 1073741823, 858993459, 715827882, 613566756, 536870911,
    477218588, 429496729, 390451572, 357913941, 330382099, 306783378, 286331153, 268435455,
    252645135, 238609294, 226050910, 214748364, 204522252, 195225786, 186737708, 178956970,
    171798691, 165191049, 159072862, 153391689, 148102320, 143165576, 138547332, 134217727,
    130150524, 126322567, 122713351, 119304647, 116080197, 113025455, 110127366, 107374182,
    104755299, 102261126, 99882960, 97612893, 95443717, 93368854, 91382282, 89478485, 87652393,
    85899345, 84215045, 82595524, 81037118, 79536431, 78090314, 76695844, 75350303, 74051160,
    72796055, 71582788, 70409299, 69273666, 68174084, 67108863, 66076419, 65075262, 64103989,
    63161283, 62245902, 61356675, 60492497, 59652323, 58835168, 58040098, 57266230, 56512727,
    55778796, 55063683, 54366674, 53687091, 53024287, 52377649, 51746593, 51130563, 50529027,
    49941480, 49367440, 48806446, 48258059, 47721858, 47197442, 46684427, 46182444, 45691141,
    45210182, 44739242, 44278013, 43826196, 43383508, 42949672, 42524428, 42107522, 41698711,
    41297762, 40904450, 40518559, 40139881, 39768215, 39403369, 39045157, 38693399, 38347922,
    38008560, 37675151, 37347541, 37025580, 36709122, 36398027, 36092162, 35791394, 35495597,
    35204649, 34918433, 34636833, 34359738, 34087042, 33818640, 33554431, 33294320, 33038209,
    32786009, 32537631, 32292987, 32051994, 31814572, 31580641, 31350126, 31122951, 30899045,
    30678337, 30460760, 30246248, 30034736, 29826161, 29620464, 29417584, 29217464, 29020049,
    28825283, 28633115, 28443492, 28256363, 28071681, 27889398, 27709466, 27531841, 27356479,
    27183337, 27012372, 26843545, 26676815, 26512143, 26349492, 26188824, 26030104, 25873296,
    25718367, 25565281, 25414007, 25264513, 25116767, 24970740, 24826400, 24683720, 24542670,
    24403223, 24265351, 24129029, 23994230, 23860929, 23729101, 23598721, 23469766, 23342213,
    23216039, 23091222, 22967739, 22845570, 22724694, 22605091, 22486739, 22369621, 22253716,
    22139006, 22025473, 21913098, 21801864, 21691754, 21582750, 21474836, 21367996, 21262214,
    21157474, 21053761, 20951059, 20849355, 20748634, 20648881, 20550082, 20452225, 20355295,
    20259279, 20164165, 20069940, 19976592, 19884107, 19792476, 19701684, 19611722, 19522578,
    19434241, 19346699, 19259943, 19173961, 19088743, 19004280, 18920560, 18837575, 18755315,
    18673770, 18592932, 18512790, 18433336, 18354561, 18276456, 18199013, 18122224, 18046081,
    17970574, 17895697, 17821441, 17747798, 17674762, 17602324, 17530478, 17459216, 17388531,
    17318416, 17248864, 17179869, 17111423, 17043521, 16976155, 16909320, 16843009, 16777215,
];
