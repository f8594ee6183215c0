// The tables of steps in each form: where a code begins, and a step's code. The wide table has every row: document 01's has the first five, with another
// prefix for the last.
ghost use Rattle.std.specs.Prelude.{true, ◌≡◌, ℕ, ◌-◌, ◌/◌, ◌≤◌, ◌<◌, length, get_or};
ghost use Rattle.bits.specs.Digits.{bits_of, byte_of};
ghost use Rattle.position_format.specs.Rows.{rows, wide_rows, in_table, residue, no_row, row_of};
ghost use Rattle.position_format.specs.Tables.{table_of};
ghost use Rattle.position_codec.specs.Codes.{PrefixIs, Coded, CodableStep};
ghost use Rattle.position_codec.specs.Found.{Leads};

use crate::row::{LAST, TableRow};
use bits::byte_of;
use position_format::Form;

// Small tables as one word, a byte for each entry from the lowest on: an array would be put together anew wherever it is read.
// By the row the prefix, and how many bits it has: in document 01's table, and in the wide one.
const PREFIXES: u64 = 0x0f0e060200;

const PREFIX_LENS: u64 = 0x0404030201;

const WIDE_PREFIXES: u64 = 0x1f1e0e060200;

const WIDE_PREFIX_LENS: u64 = 0x050504030201;

// Where a code begins, by the three bits after a first bit 1: its row, and how many bits it has in each table. Five bits 1 are the prefix of the
// wide table's last row, whose codes have 69.
const ROWS_BY: u64 = 0x0403020201010101;

const LENS_BY: u64 = 0x24100c0c09090909;

const WIDE_LENS_BY: u64 = 0x25100c0c09090909;

// The prefixes of a table's rows as words: their values, and how many bits each has.
#[derive(Clone, Copy)]
pub struct Prefixes {
    pub values: u64,
    pub lens: u64,
}

// A code: the `size` bits of the prefix, and then the `width` bits of `rest`.
#[derive(Clone, Copy)]
pub struct Code {
    pub size: usize,
    pub prefix: u64,
    pub width: usize,
    pub rest: u64,
}

// Where a code begins: its row, and how many bits it has.
#[derive(Clone, Copy)]
pub struct Lead {
    pub row: TableRow,
    pub len: usize,
}

// Whether a row of document 01's table holds z: if any does, its last one does, since each row's range lies within the next one's.
pub(crate) fn in_table(z: i64) -> bool
    ensures { result ≡ in_table rows z }
{
    let last = TableRow { index: LAST - 1 };
    last.holds(z)
}

// z modulo 2^k.
fn modulo(z: i64, k: usize) -> u64
    requires { k ≤ 64 }
    ensures { result ≡ residue k z }
{
    let y = z.cast_unsigned();
    if k < 64 {
        return y % (1 << k);
    }
    y
}

// The prefixes of the rows of a form's table.
pub(crate) fn prefixes_of(form: Form) -> Prefixes
    ensures { (i : ℕ) → i < length (table_of form) → PrefixIs (get_or (table_of form) i no_row) (byte_of result.values i) (byte_of result.lens i) }
{
    match form {
        Form::Old => Prefixes {
            values: PREFIXES,
            lens: PREFIX_LENS,
        },
        Form::Wide => Prefixes {
            values: WIDE_PREFIXES,
            lens: WIDE_PREFIX_LENS,
        },
    }
}

// The code of z by the row, which is the first of the form's table that holds it.
fn code_in(form: Form, row: TableRow, z: i64) -> Code
    requires { (in_table (table_of form) z ≡ true) × (row_of (table_of form) z ≡ row.index) }
    ensures { Coded (table_of form) z result }
{
    let width = row.width();
    let prefixes = prefixes_of(form);
    Code {
        size: byte_of(prefixes.lens, row.index) as usize,
        prefix: byte_of(prefixes.values, row.index),
        width,
        rest: modulo(z, width),
    }
}

// The code of the step z: in the wide form each step between positions in range has one, in the old form each that the table holds. Each row has a
// call of its own, whose numbers the compiler then knows: one call for all rows is slower by a fifth.
pub(crate) fn code_of(form: Form, z: i64) -> Code
    requires { CodableStep form z }
    ensures { Coded (table_of form) z result }
{
    let row = TableRow::holding(z);
    match row.index {
        0 => code_in(form, TableRow { index: 0 }, z),
        1 => code_in(form, TableRow { index: 1 }, z),
        2 => code_in(form, TableRow { index: 2 }, z),
        3 => code_in(form, TableRow { index: 3 }, z),
        4 => code_in(form, TableRow { index: 4 }, z),
        _ => code_in(form, TableRow { index: 5 }, z),
    }
}

// Five bits of which the first is 1 are a number with its bounds in the next three functions: each hands it on as it came, and a type would be taken apart in
// the first.
//
// The row of a code that has more than one bit, and the entry of a small table of lengths, by the three bits after a first bit 1: of the five bits the last
// plays no part.
fn lead_by(lens: u64, five: u64) -> Lead
    requires { (16 ≤ five) × (five < 32) }
    ensures { (result.row.index ≡ byte_of ROWS_BY (five / 2 - 8)) × (result.len ≡ byte_of lens (five / 2 - 8)) }
{
    let top = (five / 2 - 8) as usize;
    Lead {
        row: TableRow {
            index: byte_of(ROWS_BY, top) as usize,
        },
        len: byte_of(lens, top) as usize,
    }
}

// The row of a code of the wide table that has more than one bit, by its first five bits.
fn wide_lead(five: u64) -> Lead
    requires { (16 ≤ five) × (five < 32) }
    ensures { Leads wide_rows (bits_of 5 five) result.row.index result.len × (0 < result.row.index) }
{
    if five == 31 {
        return Lead {
            row: TableRow { index: 5 },
            len: 69,
        };
    }
    lead_by(WIDE_LENS_BY, five)
}

// The same of a form's table.
pub(crate) fn lead_of(form: Form, five: u64) -> Lead
    requires { (16 ≤ five) × (five < 32) }
    ensures { Leads (table_of form) (bits_of 5 five) result.row.index result.len × (0 < result.row.index) }
{
    match form {
        Form::Old => lead_by(LENS_BY, five),
        Form::Wide => wide_lead(five),
    }
}
