// A reader of coded ratios, which holds the body and its own place in it.
ghost use Rattle.std.specs.Prelude.{◌≡◌, ◌≢◌, IfErr};
ghost use Rattle.ratio_format.specs.Stepping.{made, made_body, made_cursor, stepped_numbers};
ghost use Rattle.live.specs.Readers.{refusal_in, next_answer, next_reader, first_two};

use super::stepping::{before_first, begin, step_at};
use ratio_format::{Cursor, StepAnswer};
use refusals::Refusal;

// The coded ratios, and the state of the reading.
#[derive(Clone, Copy)]
pub struct Reader<'a> {
    pub body: &'a [u8],
    pub cursor: Cursor,
}

// Whether a reader was made, and the reader. A refused making gives one too, with an empty body and the count 0: document 01, "Stepping".
#[derive(Clone, Copy)]
pub struct Making<'a> {
    pub made: Result<(), Refusal>,
    pub reader: Reader<'a>,
}

// A reader of the body with this count; a refused making gives one with an empty body and count 0.
pub fn make<'a>(body: &'a [u8], count: u64) -> Making<'a>
    ensures made { refusal_in result.made ≡ made count }
    ensures body { result.reader.body.now ≡ made_body count body.now }
    ensures cursor { result.reader.cursor ≡ made_cursor count }
    ensures refused { IfErr result.made (λ f. f.number ≢ 0) }
{
    match begin(count) {
        Ok(cursor) => Making {
            made: Ok(()),
            reader: Reader { body, cursor },
        },
        Err(refusal) => Making {
            made: Err(refusal),
            reader: Reader {
                body: &body[..0],
                cursor: before_first(0),
            },
        },
    }
}

// The next ratio, the end, or a refusal.
pub fn next<'s, 'a>(r: &'s mut Reader<'a>) -> Result<u64, Refusal>
    ensures answer { stepped_numbers result ≡ next_answer r.old }
    ensures reader { r.new ≡ next_reader r.old }
    ensures refused { IfErr result (λ f. f.number ≢ 0) }
{
    step_at(r.body, &mut r.cursor)
}

// The answers of making a reader and of its first two steps, in numbers: `TwoSteps` speaks of these.
#[derive(Clone, Copy)]
pub struct Two {
    pub made: Refusal,
    pub first: StepAnswer,
    pub second: StepAnswer,
}

// A reader of the body with this count, made and stepped twice: what two steps answer follows from the contracts of `make` and `next`, though a
// step changes the reader in place.
pub fn first_two(body: &[u8], count: u64) -> Two
    ensures { result ≡ first_two body.now count }
{
    let making = make(body, count);
    let mut reader = making.reader;
    let first = next(&mut reader);
    let second = next(&mut reader);
    Two {
        made: making.made.err().unwrap_or_default(),
        first: first.into(),
        second: second.into(),
    }
}
