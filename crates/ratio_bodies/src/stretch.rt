// Strict reading of a stretch of ratios: from where a reading has come, up to an index of an array. The window of a ratio is the part of the array
// before it. A reading into an output is one stretch; a reading without one is stretch after stretch through one array (through.rt).
ghost use Rattle.std.specs.Prelude.{◌-◌, ◌≤◌, length, take, drop};
ghost use Rattle.ratio_format.specs.Windows.{window_size, window_of};
ghost use Rattle.ratio_format.specs.Open.{strict_one};
ghost use Rattle.ratio_format.specs.Bodies.{taken_from};
ghost use Rattle.ratio_bodies.specs.Taking.{TakenOnto, Ready};

use super::ahead::open_from;
use super::strict::{accepts, get_references, mark};
use ratio_search::{BytePlanes, SLOTS};

// How far strict reading has come: how many ratios stand in the array, and the offset in the body.
#[derive(Clone, Copy)]
pub struct Stretch {
    pub count: usize,
    pub at: usize,
}

// Ratios are read strictly from the body, up to the index `to` of the array, or up to the first bytes that are no written form of a next ratio.
// `from` stand in the array, and `begun` is the offset in the body: two arguments, since a struct costs the loop time. After each ratio the
// references that follow it are read in a loop of their own.
pub(crate) fn read_stretch(
    body: &[u8],
    from: usize,
    begun: usize,
    to: usize,
    planes: &mut BytePlanes,
    again: &mut [u8; SLOTS],
    ratios: &mut [u64],
) -> Stretch
    requires { (from ≤ to) × (to ≤ length ratios.old) × (begun ≤ length body.now) × Ready planes.old again.old ratios.old from }
    ensures { TakenOnto (taken_from strict_one window_size (window_of window_size (take from ratios.old)) (to - from) (drop begun body.now))
        from begun result.count result.at ratios.old ratios.new
        × (result.at ≤ length body.now) × Ready planes.new again.new ratios.new result.count }
{
    let mut at = begun;
    let mut i = from;
    // Counted by hand: a turn reads a ratio and all references that follow it.
    while i < to {
        let Some((v, n)) = open_from(ratios, i, body, at) else {
            return Stretch { count: i, at };
        };
        if !accepts(planes, again, ratios, i, v, n, body, at) {
            return Stretch { count: i, at };
        }
        mark(again, i, n, body, at);
        ratios[i] = v;
        let next = at + n;
        let k = get_references(again, ratios, i + 1, to, body, next);
        at = next + k;
        i = i + 1 + k;
    }
    Stretch { count: i, at }
}
