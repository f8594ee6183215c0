// The search: blocks of 16 slots are passed over by the planes, single ratios by their xor, and the others are counted.
ghost use Rattle.std.specs.Prelude.{◌≡◌, ◌-◌, ◌≤◌, ◌<◌, length, take};
ghost use Rattle.ratio_format.specs.Windows.{window_size, window_of};
ghost use Rattle.ratio_window.specs.Searched.{Searched};
ghost use Rattle.ratio_window.specs.Passed.{Passed};
ghost use Rattle.ratio_search.specs.BytePlanes.{Planes};

use super::pairs::{Pairs, beats, pairs_of, suspect};
use super::planes::{CELLS, SLOTS};
use ratio_window::{Best, EQUAL_SUM, lead_zeros, trail_zeros, window_start};

// The end of the newest block before `high` that has a suspect, or `from`.
fn pass_blocks(
    planes: &[u8; CELLS],
    ratios: &[u64],
    from: usize,
    high: usize,
    v: u64,
    p: Pairs,
) -> usize
    requires { Planes planes.now ratios.now from high × (from ≤ high) }
    ensures { (from ≤ result) × (result ≤ high) × Passed v ratios.now p.sum result high }
{
    let mut h = high;
    // Counted down by hand: with a range of blocks that is gone through backwards a run takes up to 4 percent longer to write.
    while from < h {
        let low = (h - 1) / 16 * 16;
        if suspect(planes, low % SLOTS, v, p) {
            return h;
        }
        h = low;
    }
    from
}

// The end of the newest ratio from `low` up to `high` that has a larger sum, or `low`.
fn pass_ratios(ratios: &[u64], low: usize, high: usize, v: u64, p: Pairs) -> usize
    requires { (low ≤ high) × (high ≤ length ratios.now) }
    ensures { (low ≤ result) × (result ≤ high) × Passed v ratios.now p.sum result high }
{
    for k in (low..high).rev() {
        if beats(v ^ ratios[k], p) {
            return k + 1;
        }
    }
    low
}

// The end of the newest ratio from `from` up to `high` that is still to be counted, or `from`.
fn pass(planes: &[u8; CELLS], ratios: &[u64], from: usize, high: usize, v: u64, p: Pairs) -> usize
    requires { Planes planes.now ratios.now from high × (from ≤ high) × (high ≤ length ratios.now) }
    ensures { (from ≤ result) × (result ≤ high) × Passed v ratios.now p.sum result high }
{
    let h = pass_blocks(planes, ratios, from, high, v, p);
    if h <= from {
        return from;
    }
    let low = from.max((h - 1) / 16 * 16);
    pass_ratios(ratios, low, h, v, p)
}

// The best of the window of ratio i for v, newest first; an equal ratio ends the search.
pub(crate) fn find_best(planes: &[u8; CELLS], ratios: &[u64], i: usize, v: u64) -> Best
    requires { (0 < i) × (i ≤ length ratios.now) × Planes planes.now ratios.now (i - window_size) i }
    ensures { Searched v (window_of window_size (take i ratios.now)) result.place result.sum }
{
    let from = window_start(i);
    let own = trail_zeros(v);
    let mut at = i - 1;
    let mut trail: usize = 0;
    let mut sum: usize = 1;
    let mut q = i;
    // Counted by hand: a turn goes on behind the ratios that it passes over.
    while from < q {
        let x = v ^ ratios[q - 1];
        if x == 0 {
            return Best {
                place: i - q,
                sum: EQUAL_SUM,
            };
        }
        let t = trail_zeros(x);
        let s = lead_zeros(x) + t;
        if sum < s {
            at = q - 1;
            trail = t;
            sum = s;
        }
        let p = pairs_of(trail, sum, own);
        q = pass(planes, ratios, from, q - 1, v, p);
    }
    Best {
        place: i - 1 - at,
        sum,
    }
}
