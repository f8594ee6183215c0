// Positions written: the bits of one point after the other, and then the fill. That they are in range is a requires and no type: they are the caller's own
// slice, tested once above, and a type for it would be made for this file alone.
ghost use Rattle.std.specs.Prelude.{SomeIff, List, ◌≡◌, ℕ, ◌+◌, ◌^◌, ◌≤◌, ◌<◌, length, take};
ghost use Rattle.bits.specs.Sinks.{Held, PlacedBits};
ghost use Rattle.outputs.specs.Outputs.{Placed};
ghost use Rattle.limits.specs.Points.{max_points, first_high};
ghost use Rattle.position_format.specs.Rows.{Row, rows};
ghost use Rattle.position_format.specs.Steps.{first_outside, step_here};
ghost use Rattle.position_format.specs.Tables.{table_of};
ghost use Rattle.position_format.specs.Positions.{position_bits, coded_positions};
ghost use Rattle.position_codec.specs.Codes.{CodablePositions, Point};

use crate::pair::Pair;
use crate::table::{code_of, in_table};
use bits::Sink;
use position_format::Form;

// The step at point i, from the third on.
fn step_at(positions: &[u64], i: usize) -> i64
    requires { (2 ≤ i) × (i < length positions.now) × (length positions.now ≤ first_high positions.now) }
    ensures { result ≡ step_here positions.now i }
{
    let two = Pair {
        before: positions[i - 2],
        last: positions[i - 1],
    };
    two.step_to(positions[i])
}

// The index of the first point whose step document 01's table does not hold, if there is one.
pub fn first_outside(positions: &[u64]) -> Option<usize>
    requires { (length positions.now ≤ first_high positions.now) × (length positions.now ≤ max_points) }
    ensures { SomeIff result (first_outside rows positions.now < length positions.now) (first_outside rows positions.now) }
{
    for i in 2..positions.len() {
        if !in_table(step_at(positions, i)) {
            return Some(i);
        }
    }
    None
}

// The bits of the first two points, 64 for each, or of so many as there are: no table has a part in them.
fn put_first(positions: &[u64], out: &mut [u8]) -> Sink
    ensures { (rs : List Row) → Held (position_bits rs (take 2 positions.now)) result
        × PlacedBits (position_bits rs (take 2 positions.now)) result.at out.old out.new }
{
    let n = positions.len();
    if n == 0 {
        return Sink::empty();
    }
    let one = Sink::empty().lay(out, 64, positions[0]);
    if n == 1 {
        return one;
    }
    one.lay(out, 64, positions[1])
}

// The bits of point i, from the third on, come after those of the points before it: the code of its step. The step 0 is the usual one, and
// its code one bit.
fn put_point(form: Form, positions: &[u64], i: usize, out: &mut [u8], s: Sink) -> Sink
    requires { (2 ≤ i) × Point form positions.now i × Held (position_bits (table_of form) (take i positions.now)) s }
    ensures { Held (position_bits (table_of form) (take (i + 1) positions.now)) result
        × ((o : List ℕ) → PlacedBits (position_bits (table_of form) (take i positions.now)) s.at o out.old
        → PlacedBits (position_bits (table_of form) (take (i + 1) positions.now)) result.at o out.new) }
{
    let z = step_at(positions, i);
    if z == 0 {
        return s.lay(out, 1, 0);
    }
    let c = code_of(form, z);
    s.lay_both(out, c.size, c.prefix, c.width, c.rest)
}

// The coding of the positions in a form is written at the front of the output, whose rest stays, if there is room. In the wide form all positions in
// range have one, in the old form those whose steps the table holds.
pub fn put_positions(form: Form, positions: &[u64], out: &mut [u8]) -> Option<usize>
    requires { CodablePositions form positions.now × (length positions.now ≤ max_points) }
    ensures { Placed (coded_positions (table_of form) positions.now) result out.old out.new }
{
    let mut s = put_first(positions, out);
    for i in 2..positions.len() {
        s = put_point(form, positions, i, out, s);
    }
    s.put_last(out)
}
