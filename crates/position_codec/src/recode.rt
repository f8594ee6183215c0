// Positions of one form coded in another: the bits of the first two points stay, and so do those of every code after its prefix, since
// document 01's rows are the wide table's first five, but for the prefix of the fifth. So no position is computed, and no array holds any. The first four
// rows are the same in both, and three codes by these are copied as one field.
ghost use Rattle.std.specs.Prelude.{IfSome, List, ◌++◌, ◌≡◌, ℕ, ◌+◌, ◌-◌, ◌*◌, ◌^◌, ◌≤◌, ◌<◌, ltb, length, get_or, take, drop};
ghost use Rattle.bits.specs.Digits.{bits_of};
ghost use Rattle.bits.specs.Packing.{bits};
ghost use Rattle.bits.specs.Sinks.{Held, PlacedBits, Laid};
ghost use Rattle.position_format.specs.Rows.{no_row};
ghost use Rattle.position_format.specs.Tables.{table_of};
ghost use Rattle.position_codec.specs.Coded.{positions_of};
ghost use Rattle.position_codec.specs.Codes.{row_at};
ghost use Rattle.position_codec.specs.Found.{Ahead};
ghost use Rattle.position_codec.specs.Recoding.{Led, Fore, SharedCode, ThreeShared, RecodedInto};

use crate::coded::CodedPositions;
use crate::read::field_ahead;
use crate::row::{LAST, TableRow};
use crate::table::{Lead, lead_of, prefixes_of};
use bits::{Sink, byte_of};
use position_format::Form;

// How many of their first rows both tables have in common.
const SHARED_ROWS: usize = 4;

// Why positions are not coded in another form: its table does not hold the step at the point of an index, or there is no room.
#[derive(Clone, Copy)]
pub enum RecodeError {
    Outside(usize),
    NoRoom,
}

// The k bits of the body from the bit offset `at` on come after those of s.
fn copy_bits(body: &[u8], at: usize, k: usize, out: &mut [u8], s: Sink) -> Sink
    requires { (k ≤ 64) × (at + k ≤ 8 * length body.now) × (length body.now ≤ 2 ^ 32) × (s.at ≤ 2 ^ 32) }
    ensures { (result.at ≤ s.at + 8) × Laid (take k (drop at (bits body.now))) s result out.old out.new }
{
    s.lay(out, k, bits::get_bits(body, at, k))
}

// The bits of k points of 64 bits each.
fn copy_first(body: &[u8], k: usize, out: &mut [u8]) -> Sink
    requires { (k ≤ 2) × (8 * k ≤ length body.now) × (length body.now ≤ 2 ^ 32) }
    ensures { (result.at ≤ 16) × Held (take (64 * k) (bits body.now)) result
        × PlacedBits (take (64 * k) (bits body.now)) result.at out.old out.new }
{
    if k == 0 {
        return Sink::empty();
    }
    let one = copy_bits(body, 0, 64, out, Sink::empty());
    if k == 1 {
        return one;
    }
    copy_bits(body, 64, 64, out, one)
}

// The row of the code that stands at a bit offset, and how many bits it has, by the word w of the bits ahead: one bit, 0, or by its first five bits.
fn lead_at(form: Form, w: u64) -> Lead
    ensures { (result.row.index < 4 → (0 < result.len) × (result.len ≤ 16))
        × ((body : List ℕ) (at k : ℕ) → 5 ≤ k → k ≤ 64 → Fore k body at w → Led (table_of form) (drop at (bits body)) result) }
{
    if w < 9223372036854775808 {
        return Lead {
            row: TableRow { index: 0 },
            len: 1,
        };
    }
    lead_of(form, w >> 59)
}

// How many bits the code at the top of a word has, if it is by one of the first four rows, which every table has.
fn shared_at(form: Form, w: u64) -> Option<usize>
    ensures { IfSome result (λ n. (0 < n) × (n ≤ 16) × SharedCode form w n) }
{
    let Lead { row, len } = lead_at(form, w);
    if SHARED_ROWS <= row.index {
        return None;
    }
    Some(len)
}

// How many bits the three codes at the top of the word w of the bits ahead have, if so many points are left and each code is by one of the first four
// rows.
fn three_at(form: Form, w: u64, left: usize) -> Option<usize>
    ensures { IfSome result (λ n. (0 < n) × (n ≤ 48) × (3 ≤ left) × ((body : List ℕ) (at : ℕ) → Ahead body at w → ThreeShared form body at n)) }
{
    if left < 3 {
        return None;
    }
    let n = shared_at(form, w)?;
    let v = w << n;
    let m = shared_at(form, v)?;
    let k = shared_at(form, v << m)?;
    Some(n + m + k)
}

// The first k bits of the word w come after those of s.
fn put_front(w: u64, k: usize, out: &mut [u8], s: Sink) -> Sink
    requires { (0 < k) × (k ≤ 64) × (s.at ≤ 2 ^ 32) }
    ensures { (result.at ≤ s.at + 8) × Laid (take k (bits_of 64 w)) s result out.old out.new }
{
    s.lay(out, k, w >> (64 - k))
}

// Whether the table of a form has a row.
fn has_row(form: Form, row: TableRow) -> bool
    ensures { result ≡ ltb row.index (length (table_of form)) }
{
    match form {
        Form::Old => row.index < LAST,
        Form::Wide => true,
    }
}

// The code of `lead.len` bits that stands at the bit offset `at` comes after the bits of s, with the prefix that its row has in a form, by the word w of the bits
// ahead. The first row, of the step 0, is the usual one, and its code one bit. The word is sure to hold a code of 57 bits, which is put as one field; a
// longer one is put as two, and the second is copied from the body.
fn put_code(form: Form, lead: Lead, body: &[u8], at: usize, w: u64, out: &mut [u8], s: Sink) -> Sink
    requires { (lead.row.index < length (table_of form)) × ((row_at lead.row).width ≤ lead.len) × (at + lead.len ≤ 8 * length body.now)
        × (length body.now ≤ 2 ^ 32) × (s.at + 8 ≤ 2 ^ 32) × Ahead body.now at w × (0 < lead.len) }
    ensures { (result.at ≤ s.at + 16)
        × Laid ((get_or (table_of form) lead.row.index no_row).prefix
        ++ take (row_at lead.row).width (drop (at + (lead.len - (row_at lead.row).width)) (bits body.now)))
        s result out.old out.new }
{
    let Lead { row, len } = lead;
    if row.index == 0 {
        return s.lay(out, 1, 0);
    }
    let width = row.width();
    let prefixes = prefixes_of(form);
    let size = byte_of(prefixes.lens, row.index) as usize;
    let prefix = byte_of(prefixes.values, row.index);
    if len <= 57 {
        let rest = field_ahead(w, len, width);
        return s.lay(out, size + width, (prefix << width) + rest);
    }
    let t = s.lay(out, size, prefix);
    copy_bits(body, at + (len - width), width, out, t)
}

// Coded positions, coded in the form `to`, at the front of the output, whose rest stays; answers how many bytes they take. The first step that the
// table of `to` does not hold is told whatever the room. The body is the coding of so many positions, so each code is there.
pub fn recode_positions(
    coded: CodedPositions<'_>,
    to: Form,
    out: &mut [u8],
) -> Result<usize, RecodeError>
    ensures { RecodedInto to (positions_of coded.entry) result out.old out.new }
{
    let CodedPositions {
        form: from,
        body,
        count,
    } = coded;
    let mut i = count.min(2);
    let mut at = 64 * i;
    let mut s = copy_first(body, i, out);
    // Counted by hand: a turn passes one point or three.
    while i < count {
        let w = bits::get_ahead(body, at);
        if let Some(k) = three_at(from, w, count - i) {
            s = put_front(w, k, out, s);
            at += k;
            i += 3;
            continue;
        }
        let lead = lead_at(from, w);
        if !has_row(to, lead.row) {
            return Err(RecodeError::Outside(i));
        }
        s = put_code(to, lead, body, at, w, out, s);
        at += lead.len;
        i += 1;
    }
    s.put_last(out).ok_or(RecodeError::NoRoom)
}
