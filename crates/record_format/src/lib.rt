// The record of a run: the types that its calls answer, the numbers of its layout, definitions and laws. A call answers a Result, and C gets it as a
// struct.
#![tactic(auto)]

ghost use Rattle.std.specs.Prelude.{◌≡◌};
ghost use Rattle.record_format.specs.Answers.{written_answer, check_answer, fetch_answer, read_answer, move_answer};
ghost use Rattle.record_format.specs.Runs.{positions_tag};

use position_format::Form;
use refusals::Refusal;

// What is found of a record: the rate, the side (0 for none, as a run has it and C is handed it), the count of points, their form, and the bytes that it
// takes.
#[derive(Clone, Copy)]
pub struct Description {
    pub rate: u32,
    pub side: u32,
    pub count: u32,
    pub form: Form,
    pub size: usize,
}

// What a move did: the length of the record written, and the bytes used of the one read.
#[derive(Clone, Copy)]
pub struct Moved {
    pub length: usize,
    pub used: usize,
}

// The answer of writing: number and place of the refusal, or 0 and 0 with the record's length.
// No Result, since the C interface hands it back so.
#[repr(C)]
#[derive(Clone, Copy)]
pub struct WriteAnswer {
    pub number: u32,
    pub place: u32,
    pub length: u64,
}

impl From<Result<usize, Refusal>> for WriteAnswer {
    ghost from_gives = { λ r a. a ≡ written_answer r };

    fn from(written: Result<usize, Refusal>) -> WriteAnswer {
        match written {
            Ok(length) => WriteAnswer {
                number: 0,
                place: 0,
                length: length as u64,
            },
            Err(refusal) => WriteAnswer {
                number: refusal.number,
                place: refusal.place,
                length: 0,
            },
        }
    }
}

// The answer of a check: number and place of the refusal, or 0 and 0 with the rate, the side (0 for none), the count of points, the tag of their form
// (3 or 5) and the record's size.
// No Result, since the C interface hands it back so.
#[repr(C)]
#[derive(Clone, Copy)]
pub struct CheckAnswer {
    pub number: u32,
    pub place: u32,
    pub rate: u32,
    pub side: u32,
    pub count: u32,
    pub form: u32,
    pub size: u64,
}

impl From<Result<Description, Refusal>> for CheckAnswer {
    ghost from_gives = { λ r a. a ≡ check_answer r };

    fn from(found: Result<Description, Refusal>) -> CheckAnswer {
        match found {
            Ok(record) => CheckAnswer {
                number: 0,
                place: 0,
                rate: record.rate,
                side: record.side,
                count: record.count,
                form: form_tag(record.form) as u32,
                size: record.size as u64,
            },
            Err(refusal) => CheckAnswer {
                number: refusal.number,
                place: refusal.place,
                rate: 0,
                side: 0,
                count: 0,
                form: 0,
                size: 0,
            },
        }
    }
}

// The answer of a fetch: number and place of the refusal, or 0 and 0 with the count of points.
// No Result, since the C interface hands it back so.
#[repr(C)]
#[derive(Clone, Copy)]
pub struct FetchAnswer {
    pub number: u32,
    pub place: u32,
    pub count: u32,
}

impl From<Result<u32, Refusal>> for FetchAnswer {
    ghost from_gives = { λ r a. a ≡ fetch_answer r };

    fn from(fetched: Result<u32, Refusal>) -> FetchAnswer {
        match fetched {
            Ok(count) => FetchAnswer {
                number: 0,
                place: 0,
                count,
            },
            Err(refusal) => FetchAnswer {
                number: refusal.number,
                place: refusal.place,
                count: 0,
            },
        }
    }
}

// The answer of open reading: number and place of the refusal, or 0 and 0 with the rate, the side (0 for none), the count of points, the tag of
// their form (3 or 5) and the bytes used.
// No Result, since the C interface hands it back so.
#[repr(C)]
#[derive(Clone, Copy)]
pub struct ReadAnswer {
    pub number: u32,
    pub place: u32,
    pub rate: u32,
    pub side: u32,
    pub count: u32,
    pub form: u32,
    pub used: u64,
}

impl From<Result<Description, Refusal>> for ReadAnswer {
    ghost from_gives = { λ r a. a ≡ read_answer r };

    fn from(found: Result<Description, Refusal>) -> ReadAnswer {
        let answer = CheckAnswer::from(found);
        ReadAnswer {
            number: answer.number,
            place: answer.place,
            rate: answer.rate,
            side: answer.side,
            count: answer.count,
            form: answer.form,
            used: answer.size,
        }
    }
}

// The answer of a move: number and place of the refusal, or 0 and 0 with the length of the record written and the bytes used of the one read.
// No Result, since the C interface hands it back so.
#[repr(C)]
#[derive(Clone, Copy)]
pub struct MoveAnswer {
    pub number: u32,
    pub place: u32,
    pub length: u64,
    pub used: u64,
}

impl From<Result<Moved, Refusal>> for MoveAnswer {
    ghost from_gives = { λ r a. a ≡ move_answer r };

    fn from(moved: Result<Moved, Refusal>) -> MoveAnswer {
        match moved {
            Ok(record) => MoveAnswer {
                number: 0,
                place: 0,
                length: record.length as u64,
                used: record.used as u64,
            },
            Err(refusal) => MoveAnswer {
                number: refusal.number,
                place: refusal.place,
                length: 0,
                used: 0,
            },
        }
    }
}

// The tags of the fields, by what they hold; the positions' by its form.
pub const RATE_TAG: u8 = 1;

pub const SIDE_TAG: u8 = 6;

pub const COUNT_TAG: u8 = 2;

pub const OLD_TAG: u8 = 3;

pub const WIDE_TAG: u8 = 5;

pub const RATIOS_TAG: u8 = 4;

// The tag of positions in a form. No conversion: neither the form nor a byte is a type of this crate.
pub fn form_tag(form: Form) -> u8
    ensures { result ≡ positions_tag form }
{
    match form {
        Form::Old => OLD_TAG,
        Form::Wide => WIDE_TAG,
    }
}

// The offset of the rate's field: the first of a record.
pub const RATE_AT: usize = 0;

// The bytes before a field's body: its tag, and its length in two bytes.
pub const HEAD_SIZE: usize = 3;

// The bytes of a rate, of a side and of a count.
pub const RATE_SIZE: usize = 4;

pub const SIDE_SIZE: usize = 1;

pub const COUNT_SIZE: usize = 2;
