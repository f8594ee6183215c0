// The rows of the tables of steps, by their index in the wide table, which has every row: document 01's has the first five, with the same ranges and
// widths. A row's codes may have 64 bits after the prefix, and its range may be any that holds 0; rows of at most 57 bits have a quicker way at the end.
ghost use Rattle.std.specs.Prelude.{◌<◌};

use bits::byte_of;

// The index of the wide table's last row, which holds every step. Document 01's table has the rows before it.
pub(crate) const LAST: usize = 5;

// The lowest and the highest step of a row.
#[derive(Clone, Copy)]
struct Range {
    low: i64,
    high: i64,
}

// By the row its lowest and its highest step. Two arrays, and not one of ranges: with that one a step is read by a twelfth slower, and a step outside the
// table is found by a fifth slower.
const LOW: [i64; 6] = [0, -63, -255, -2047, -2147483647, i64::MIN];

const HIGH: [i64; 6] = [0, 64, 256, 2048, 2147483648, i64::MAX];

// By the row how many bits follow the prefix, as one word, a byte for each entry from the lowest on: an array would be put together anew wherever it is
// read.
const WIDTHS: u64 = 0x40200c090700;

// A row, by its index. What a row's bits are below stays a requires of its methods: it is a fact of the other argument, a plain number.
#[derive(Clone, Copy)]
pub struct TableRow {
    pub index: usize,
    pub ghost known: { index < 6 },
}

impl TableRow {
    ghost use Rattle.std.specs.Prelude.{◌≡◌, ◌-◌, ◌^◌, ◌≤◌, ◌<◌, get_or};
    ghost use Rattle.position_format.specs.Rows.{wide_rows, holds, reading, no_row, row_of};
    ghost use Rattle.position_codec.specs.Codes.{row_at};
    ghost use Rattle.position_codec.specs.Found.{ReadBy};

    // Its range.
    fn range(self) -> Range
        ensures { (result.low ≡ (row_at self).low) × (result.high ≡ (row_at self).high) }
    {
        Range {
            low: LOW[self.index],
            high: HIGH[self.index],
        }
    }

    // Whether the row holds z.
    pub fn holds(self, z: i64) -> bool
        ensures { result ≡ holds (row_at self) z }
    {
        let range = self.range();
        (range.low..=range.high).contains(&z)
    }

    // The first row that holds z: the last row where no row of document 01's table does.
    pub fn holding(z: i64) -> TableRow
        ensures { result.index ≡ row_of wide_rows z }
    {
        for index in 0..LAST {
            let row = TableRow { index };
            if row.holds(z) {
                return row;
            }
        }
        TableRow { index: LAST }
    }

    // How many bits follow the row's prefix.
    pub fn width(self) -> usize
        ensures { result ≡ (row_at self).width }
    {
        byte_of(WIDTHS, self.index) as usize
    }

    // The one number in the row's range that is x modulo 2^width: x, or where that is too high as far below 0 as x is below 2^width.
    fn reading(self, x: u64) -> i64
        requires { x < 2 ^ (row_at self).width }
        ensures { result ≡ reading (row_at self) x }
    {
        let high = self.range().high as u64;
        if x <= high {
            return x as i64;
        }
        -1 - ((u64::MAX >> (64 - self.width())) - x) as i64
    }

    // The step that the bits x stand for in a row but the first: if the row before that one, whose range lies within its range, does not hold it, and so
    // no earlier one.
    pub fn step(self, x: u64) -> Option<i64>
        requires { (0 < self.index) × (x < 2 ^ (row_at self).width) }
        ensures { ReadBy wide_rows self.index x result }
    {
        let z = self.reading(x);
        let before = self.index - 1;
        if (TableRow { index: before }).holds(z) {
            return None;
        }
        Some(z)
    }

    // How many steps a row of at most 57 bits holds: 2^width.
    fn size(self) -> u64
        requires { (row_at self).width ≤ 57 }
        ensures { (result ≡ 2 ^ (row_at self).width) × (0 < result) × (result ≤ 2 ^ 57) }
    {
        1 << self.width()
    }

    // `reading` for a row of at most 57 bits, whose range is even around 0: counted from its lowest step, and not by a test of x, which is
    // hard to foretell.
    fn short_reading(self, x: u64) -> i64
        requires { (x < 2 ^ (row_at self).width) × ((row_at self).width ≤ 57) }
        ensures { result ≡ reading (row_at self) x }
    {
        let size = self.size();
        let below = (size - 1) / 2;
        let y = (x + below) % size;
        y as i64 - below as i64
    }

    // Whether the row before such a row holds that number too.
    fn short_early(self, x: u64) -> bool
        requires { (0 < self.index) × (x < 2 ^ (row_at self).width) × ((row_at self).width ≤ 57) }
        ensures { result ≡ holds (get_or wide_rows (self.index - 1) no_row) (reading (row_at self) x) }
    {
        let size = self.size();
        let row = TableRow {
            index: self.index - 1,
        };
        let before = row.size();
        (x + (before - 1) / 2) % size < before
    }

    // `step` for such a row.
    pub fn short_step(self, x: u64) -> Option<i64>
        requires { (0 < self.index) × (x < 2 ^ (row_at self).width) × ((row_at self).width ≤ 57) }
        ensures { ReadBy wide_rows self.index x result }
    {
        if self.short_early(x) {
            return None;
        }
        let z = self.short_reading(x);
        Some(z)
    }
}
