// Ratios read strictly through an array. Where more are wanted than it has room for, it is used again: where it is full, the last ratios move to its
// front, with the window of the next ratio among them. They move by a multiple of SLOTS, so that each keeps its slot in the planes and in the
// marks, and neither has to be made anew.
ghost use Rattle.std.specs.Prelude.{◌≡◌, ◌≤◌, ◌<◌, length};
ghost use Rattle.outputs.specs.Outputs.{over};
ghost use Rattle.ratio_format.specs.Bodies.{strict_taken};
ghost use Rattle.ratio_bodies.specs.Taking.{took_of};
ghost use Rattle.ratio_bodies.specs.Sliding.{room, Slid};

use super::Took;
use super::stretch::read_stretch;
use ratio_search::{BytePlanes, CELLS, SLOTS};

// How many ratios an array that is used again has room for, and by how many the last of them move.
pub(crate) const ROOM: usize = 512;

const SHIFT: usize = ROOM - SLOTS;

// The last ratios move to the front.
fn slide(ratios: &mut [u64])
    requires { length ratios.old ≡ room }
    ensures { Slid ratios.old ratios.new }
{
    ratios.copy_within(SHIFT..ROOM, 0);
}

// How many ratios strict reading takes from the front of the body, at most `count`, and how many bytes they use. They stand in the array, if it has
// room for `count`. Planes and marks are made here and `read_stretch` is called from here alone: so the compiler makes it part of this function.
pub(crate) fn read_through(body: &[u8], count: usize, ratios: &mut [u64]) -> Took
    requires { length ratios.old < count → length ratios.old ≡ room }
    ensures { (result ≡ took_of (strict_taken count body.now))
        × (count ≤ length ratios.old → ratios.new ≡ over (strict_taken count body.now).ratios ratios.old) }
{
    let mut planes = BytePlanes {
        cells: [0; CELLS],
        done: 0,
    };
    let mut again = [0; SLOTS];
    let mut before: usize = 0;
    let mut from: usize = 0;
    let mut begun: usize = 0;
    // No index to count: a turn reads a stretch, and ends the loop where the stretch is the last.
    loop {
        let to = (count - before).min(ratios.len());
        let r = read_stretch(body, from, begun, to, &mut planes, &mut again, ratios);
        if r.count < to || count - before <= to {
            return Took {
                count: before + r.count,
                used: r.at,
            };
        }
        slide(ratios);
        planes.done = planes.done.saturating_sub(SHIFT);
        before += SHIFT;
        from = SLOTS;
        begun = r.at;
    }
}
