// A whole list of ratios, the body of the ratios' field (document 01, "Ratios"): written and read in one pass. The window of a ratio is
// the part of the list before it. Internal: callers meet each `requires`. List and index, body and offset go as arguments of their own, and as no struct:
// the loops keep each in a register.
//
// Index (index.rt): writing knows the place of most equal ratios without a search. For each remainder of a value, one kilobyte in all, the
// index names the newest ratio that has it; where that ratio is equal, no newer one is.
//
// Repeats (repeats.rt): a ratio that is equal to the one before it is the reference 0. They are written in a run, and noted in the index
// once.
//
// Choice (choice.rt): any other ratio takes a search over planes (`ratio_search`); with few ratios before it a plain scan (`ratio_codec`),
// which needs no planes.
//
// Marks (strict.rt): in strict reading a mark says of each ratio of the window whether a later one is equal. A reference is the one that is
// written where the mark of its ratio is not set. Of any other form the head must be that of the form which the writer chooses. References
// that follow one another are read in a loop of their own.
//
// Stretches (stretch.rt, through.rt): one loop reads ratios strictly, into an output or, where none is wanted, into an array of fixed size that
// is used again.
//
// Ahead (ahead.rt): where ten bytes are left, the most that a form has, reading needs one test of room for a ratio, and takes an exception or
// the middle of an xor form by one load of eight bytes.
#![tactic(auto)]

ghost use Rattle.std.specs.Prelude.{◌≡◌, ◌≤◌, ◌<◌, eqb, length, take, get_or, IfSome};
ghost use Rattle.lists.specs.Compare.{both};
ghost use Rattle.limits.specs.Points.{max_points};
ghost use Rattle.outputs.specs.Outputs.{Placed};
ghost use Rattle.ratio_format.specs.Windows.{window_size, window_of};
ghost use Rattle.ratio_format.specs.RatioForms.{coded};
ghost use Rattle.ratio_format.specs.Bodies.{coded_ratios, open_taken, strict_taken};
ghost use Rattle.ratio_search.specs.BytePlanes.{KeptTo};
ghost use Rattle.ratio_bodies.specs.Indexes.{PlaceIs};
ghost use Rattle.ratio_bodies.specs.Sliding.{room};
ghost use Rattle.ratio_bodies.specs.Taking.{took_of, TakenInto};

mod ahead;
mod choice;
mod index;
mod repeats;
mod stretch;
mod strict;
mod through;

use ahead::open_from;
use choice::choose_nth;
use index::{KEYS, place_of};
use ratio_codec::write::{put_ratio_form, put_reference};
use ratio_search::{BytePlanes, CELLS};
use repeats::put_repeats;
use through::{ROOM, read_through};

// With at most so many ratios wanted a small array does, which is sooner cleared.
const SHORT: usize = 64;

// Ratio i is coded at the front of the output, against the ratios before it; `place` is its place in the window, if the index knows one.
fn put_nth(
    planes: &mut BytePlanes,
    ratios: &[u64],
    i: usize,
    place: Option<usize>,
    out: &mut [u8],
) -> Option<usize>
    requires { (i < length ratios.now) × KeptTo planes.old ratios.now i × IfSome place (λ p. PlaceIs ratios.now i p) }
    ensures placed { Placed (coded (get_or ratios.now i 0) (window_of window_size (take i ratios.now))) result out.old out.new }
    ensures kept { KeptTo planes.new ratios.now i }
{
    if let Some(place) = place {
        return put_reference(out, place);
    }
    let v = ratios[i];
    let f = choose_nth(planes, ratios, i, v);
    put_ratio_form(f, v, out)
}

// The coding of the ratios is put at the front of the output.
pub fn put_ratios(ratios: &[u64], out: &mut [u8]) -> Option<usize>
    requires { length ratios.now ≤ max_points }
    ensures { Placed (coded_ratios ratios.now) result out.old out.new }
{
    let mut planes = BytePlanes {
        cells: [0; CELLS],
        done: 0,
    };
    let mut newest: [u16; KEYS] = [0; KEYS];
    let mut at: usize = 0;
    let mut i: usize = 0;
    // Counted by hand: a turn writes a ratio and all repeats of it.
    while i < ratios.len() {
        let place = place_of(&mut newest, ratios, i);
        let n = put_nth(&mut planes, ratios, i, place, &mut out[at..])?;
        let next = at + n;
        let k = put_repeats(ratios, i + 1, &mut out[next..]);
        at = next + k;
        i = i + 1 + k;
    }
    Some(at)
}

// What a reader of a body took from its front: how many ratios, and how many bytes they used.
#[derive(Clone, Copy)]
pub struct Took {
    pub count: usize,
    pub used: usize,
}

impl Took {
    // Whether that is all of a body of `size` bytes, as `count` ratios.
    pub fn whole(self, count: usize, size: usize) -> bool
        ensures { result ≡ both (eqb self.count count) (eqb self.used size) }
    {
        self.count == count && self.used == size
    }
}

// Ratios are read strictly from the front of the body, one after the other, at most `count` and up to the first bytes that are no written
// form of a next ratio. They stand at the front of the output, whose rest stays.
pub fn get_strict(body: &[u8], count: usize, out: &mut [u64]) -> Took
    requires { count ≤ length out.old }
    ensures { TakenInto (strict_taken count body.now) result out.old out.new }
{
    read_through(body, count, out)
}

// What `count_strict` answers, by an array of N ratios.
fn count_in<const N: usize>(body: &[u8], count: usize) -> Took
    requires { (N ≤ room) × (N < count → N ≡ room) }
    ensures { result ≡ took_of (strict_taken count body.now) }
{
    let mut ratios = [0; N];
    read_through(body, count, &mut ratios)
}

// How many ratios strict reading takes from the front of the body, at most `count`, and how many bytes they use: with no output, in memory of a
// fixed size.
pub fn count_strict(body: &[u8], count: usize) -> Took
    ensures { result ≡ took_of (strict_taken count body.now) }
{
    if count <= SHORT {
        return count_in::<SHORT>(body, count);
    }
    count_in::<ROOM>(body, count)
}

// Ratios are read into the output by the open rule, up to the first bytes that it does not read.
pub fn get_open(body: &[u8], count: usize, out: &mut [u64]) -> Took
    requires { count ≤ length out.old }
    ensures { TakenInto (open_taken count body.now) result out.old out.new }
{
    let mut at: usize = 0;
    for i in 0..count {
        let Some((v, n)) = open_from(out, i, body, at) else {
            return Took { count: i, used: at };
        };
        out[i] = v;
        at += n;
    }
    Took { count, used: at }
}
