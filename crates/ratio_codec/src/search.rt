// The search for the ratio of a window that agrees with a given one in the most leading and trailing zero bytes: a plain scan from the
// newest on, which needs nothing beside the window. A ratio is passed over where its xor is too large for a larger sum and ends in a byte
// other than 0; once the best sum is 7 only an equal ratio is looked for. Live addition and stepping search so.
ghost use Rattle.std.specs.Prelude.{◌≡◌, reverse, ℕ, ◌+◌, ◌-◌, ◌^◌, ◌≤◌, length, drop};
ghost use Rattle.ratio_format.specs.Choice.{find, best};
ghost use Rattle.ratio_window.specs.Passed.{Passed};

use ratio_window::{Best, EQUAL_SUM, sum_of};

// How far the places from `from` on hold no ratio v: the first that holds one, or the window's length, which is past them all.
// No Option: the search goes on at the answer, and the length ends it.
pub(crate) fn pass_equal(window: &[u64], from: usize, v: u64) -> usize
    requires { from ≤ length window.now }
    ensures { result ≡ from + find v (drop from (reverse window.now)) }
{
    for i in from..window.len() {
        if window[window.len() - 1 - i] == v {
            return i;
        }
    }
    window.len()
}

// How far the ratios from place `from` on have no sum above s, where `bound` is 256 ^ (7 - s): to the first that may have one. An xor from
// the bound on has at most s leading zero bytes, and one whose lowest byte is not 0 has no trailing one.
fn pass_over(window: &[u64], from: usize, v: u64, bound: u64) -> usize
    requires { from ≤ length window.now }
    ensures { (from ≤ result) × (result ≤ length window.now)
        × ((s : ℕ) → 256 ^ (7 - s) ≤ bound → Passed v (reverse window.now) s from result) }
{
    for i in from..window.len() {
        let x = v ^ window[window.len() - 1 - i];
        if x < bound || x % 256 == 0 {
            return i;
        }
    }
    window.len()
}

// How far the ratios from place `from` on have no larger sum: to the first that may have one. Only an equal ratio has a sum above 7.
fn pass(window: &[u64], from: usize, v: u64, sum: usize) -> usize
    requires { (from ≤ length window.now) × (sum ≤ 7) }
    ensures { (from ≤ result) × (result ≤ length window.now) × Passed v (reverse window.now) sum from result }
{
    if sum == 7 {
        return pass_equal(window, from, v);
    }
    pass_over(window, from, v, 1 << (8 * (7 - sum)))
}

// The largest sum at its smallest place. The newest ratio is looked at first, ratios that cannot have a larger sum are passed over, and
// an equal one, whose sum is the largest there is, ends it.
pub fn search(window: &[u64], v: u64) -> Best
    ensures { (result.place ≡ (best v (reverse window.now)).place) × (result.sum ≡ (best v (reverse window.now)).sum) }
{
    let mut place: usize = 0;
    let mut sum: usize = 0;
    let mut i: usize = 0;
    // Counted by hand: a turn goes on behind the places that it passes over.
    while i < window.len() {
        let u = window[window.len() - 1 - i];
        if u == v {
            return Best {
                place: i,
                sum: EQUAL_SUM,
            };
        }
        let s = sum_of(v, u);
        if sum < s {
            place = i;
            sum = s;
        }
        i = pass(window, i + 1, v, sum);
    }
    Best { place, sum }
}
