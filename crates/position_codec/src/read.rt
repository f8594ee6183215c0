// Positions read: point by point, each in the one form that it is written in, and then the fill.
ghost use Rattle.std.specs.Prelude.{not, List, ◌≡◌, ℕ, ◌+◌, ◌-◌, ◌*◌, ◌/◌, ◌%◌, ◌^◌, ◌≤◌, ◌<◌, length, take, drop, replicate};
ghost use Rattle.lists.specs.Compare.{same};
ghost use Rattle.lists.specs.Optional.{missing};
ghost use Rattle.bits.specs.Digits.{number_of};
ghost use Rattle.bits.specs.Packing.{bits, fill_of};
ghost use Rattle.limits.specs.Points.{max_points};
ghost use Rattle.outputs.specs.Outputs.{Filled};
ghost use Rattle.position_format.specs.Rows.{Row};
ghost use Rattle.position_format.specs.Tables.{table_of};
ghost use Rattle.position_format.specs.Positions.{read_positions};
ghost use Rattle.position_codec.specs.Found.{Ahead, StepFound, PointFound, kept, FilledPart};

use crate::pair::Pair;
use crate::table::{Lead, lead_of};
use limits::MAX_POSITION;
use position_format::Form;

// The most bytes that the coding of 4,096 positions has in either form.
const MAX_BYTES: usize = 35327;

// The last `width` of the first n bits of the word w.
pub(crate) fn field_ahead(w: u64, n: usize, width: usize) -> u64
    requires { (0 < n) × (n ≤ 57) × (width ≤ n) }
    ensures { result ≡ w / 2 ^ (64 - n) % 2 ^ width }
{
    (w >> (64 - n)) % (1 << width)
}

// The position at point i, one of the first two, and that it has 64 bits: no table has a part in it.
fn get_raw(body: &[u8], i: usize) -> Option<(u64, usize)>
    requires { i < 2 }
    ensures { (rs : List Row) (a b : ℕ) → PointFound rs i a b (drop (64 * i) (bits body.now)) result }
{
    let at = 8 * i;
    if body.len() < at + 8 {
        return None;
    }
    let t = bits::get_bytes(body, at, 8);
    if MAX_POSITION < t {
        return None;
    }
    Some((t, 64))
}

// A place in a body that is not too long: a bit offset that is not past its end.
#[derive(Clone, Copy)]
struct Place<'a> {
    body: &'a [u8],
    at: usize,
    ghost short: { length body.now ≤ 2 ^ 32 },
    ghost inside: { at ≤ 8 * length body.now },
}

impl<'a> Place<'a> {
    // The last `width` of the n bits that stand there.
    fn field(self, n: usize, width: usize) -> u64
        requires { (0 < n) × (n ≤ length (drop self.at (bits self.body.now))) × (width ≤ n) × (width ≤ 64) }
        ensures { (result ≡ number_of 2 (take width (drop (self.entry.at + (n - width)) (bits self.entry.body.now)))) × (result < 2 ^ width) }
    {
        bits::get_bits(self.body, self.at + (n - width), width)
    }

    // The step whose code by a form's table stands there, and how many bits that has, by the word w of the bits ahead: one bit, 0, for the step 0, or by
    // the row of its first five bits, if there are as many bits as its codes have. The word is sure to hold a code of 57 bits; a longer one is read from
    // the body.
    fn step_ahead(self, form: Form, w: u64) -> Option<(i64, usize)>
        requires { Ahead self.body.now self.at w × (self.at < 8 * length self.body.now) }
        ensures { StepFound (table_of form) (drop self.entry.at (bits self.entry.body.now)) result }
    {
        if w < 9223372036854775808 {
            return Some((0, 1));
        }
        let Lead { row, len } = lead_of(form, w >> 59);
        if 8 * self.body.len() - self.at < len {
            return None;
        }
        let width = row.width();
        if len <= 57 {
            let z = row.short_step(field_ahead(w, len, width))?;
            return Some((z, len));
        }
        let z = row.step(self.field(len, width))?;
        Some((z, len))
    }

    // The same, by those bits.
    fn step(self, form: Form) -> Option<(i64, usize)>
        requires { 128 ≤ self.at }
        ensures { StepFound (table_of form) (drop self.entry.at (bits self.entry.body.now)) result }
    {
        if self.at == 8 * self.body.len() {
            return None;
        }
        self.step_ahead(form, bits::get_ahead(self.body, self.at))
    }

    // The position of point i, which stands there, after the two before it, and how many bits it has.
    fn point(self, form: Form, i: usize, two: Pair) -> Option<(u64, usize)>
        requires { (i < 2 → self.at ≡ 64 * i) × (2 ≤ i → 128 ≤ self.at) }
        ensures { PointFound (table_of form) i two.before two.last (drop self.entry.at (bits self.entry.body.now)) result }
    {
        if i < 2 {
            return get_raw(self.body, i);
        }
        let (z, n) = self.step(form)?;
        let t = two.next(z)?;
        Some((t, n))
    }

    // Whether the bits from there on are the fill: as many as end the byte, and all 0.
    fn is_fill(self) -> bool
        ensures { result ≡ same (drop self.entry.at (bits self.entry.body.now)) (replicate (fill_of self.entry.at) 0) }
    {
        let left = 8 * self.body.len() - self.at;
        if 7 < left {
            return false;
        }
        bits::get_bits(self.body, self.at, left) == 0
    }
}

// A position goes to index i of the output, if that has room there.
fn keep(out: &mut [u64], i: usize, t: u64)
    ensures { out.new ≡ kept out.old i t }
{
    if i < out.len() {
        out[i] = t;
    }
}

// Whether the body is the coding of so many positions in a form; they are put at the front of the output as far as that has room, and its rest
// stays.
fn walk_positions(form: Form, body: &[u8], count: usize, out: &mut [u64]) -> bool
    requires { count ≤ max_points }
    ensures { FilledPart (read_positions (table_of form) count body.now) result out.old out.new }
{
    if MAX_BYTES < body.len() {
        return false;
    }
    let mut at = 0;
    let mut two = Pair { before: 0, last: 0 };
    for i in 0..count {
        let place = Place { body, at };
        let Some((t, n)) = place.point(form, i, two) else {
            return false;
        };
        keep(out, i, t);
        two = Pair {
            before: two.last,
            last: t,
        };
        at += n;
    }
    let end = Place { body, at };
    end.is_fill()
}

// The positions that the body is the coding of, in a form, are put at the front of the output, whose rest stays; or the body is no coding of so
// many.
pub fn get_positions(form: Form, body: &[u8], count: usize, out: &mut [u64]) -> bool
    requires { (count ≤ length out.old) × (count ≤ max_points) }
    ensures { Filled (read_positions (table_of form) count body.now) result out.old out.new }
{
    walk_positions(form, body, count, out)
}

// Whether the body is the coding of so many positions in a form: the same reading into no output, which keeps the last two positions only.
pub fn check_positions(form: Form, body: &[u8], count: usize) -> bool
    requires { count ≤ max_points }
    ensures { result ≡ not (missing (read_positions (table_of form) count body.now)) }
{
    let mut none: [u64; 0] = [0; 0];
    walk_positions(form, body, count, &mut none)
}
