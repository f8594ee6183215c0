// What differs between two records (document 02, No. 7), by what a check answered of each and the points that a fetch left: all but the points in
// one call, and the points one index at a time, so that no call needs room for the differences; and each difference in numbers.
#![tactic(auto)]

ghost use Rattle.std.specs.Prelude.{◌≡◌};
ghost use Rattle.differences.specs.Differences.{property_difference, more_difference, values_at, position_at, ratio_at};
ghost use Rattle.differences.specs.Overall.{refused_record, overall_of};
ghost use Rattle.differences.specs.Numbers.{property_number, which_number, difference_numbers, overall_numbers};

use kind::{Kind, KindAnswer};
use record_format::CheckAnswer;
use refusals::Refusal;

// What a record has besides its points.
#[derive(Clone, Copy)]
pub enum Property {
    Rate = 1,
    Side = 2,
    Count = 3,
    Form = 4,
}

impl Property {
    // Its number.
    fn number(self) -> u32
        ensures { result ≡ property_number self }
    {
        self as u32
    }
}

// One difference: a property with its value in the first record and in the second, where a form's value is its tag; the position at an index, with both;
// the ratio at an index, with the bits and the kind of both; or how many points only the longer run has.
#[derive(Clone, Copy)]
pub enum Difference {
    InProperty(Property, u32, u32),
    Position(u64, u64, u64),
    Ratio {
        index: u64,
        first: u64,
        first_kind: Kind,
        second: u64,
        second_kind: Kind,
    },
    More(u32),
}

// The differences that are of no index.
#[derive(Clone, Copy)]
pub struct OverallDifferences {
    pub rate: Option<Difference>,
    pub side: Option<Difference>,
    pub count: Option<Difference>,
    pub form: Option<Difference>,
    pub more: Option<Difference>,
}

// Which of two records.
#[derive(Clone, Copy)]
pub enum Which {
    First = 1,
    Second = 2,
}

impl Which {
    // Its number.
    pub fn number(self) -> u32
        ensures { result ≡ which_number self }
    {
        self as u32
    }
}

// The refusal of one of two records.
#[derive(Clone, Copy)]
pub struct RefusedRecord {
    pub refusal: Refusal,
    pub which: Which,
}

// A difference in numbers, for C: what differs, 1 the rate, 2 the side, 3 the count, 4 the form, 5 the position and 6 the ratio at an index, 7 how
// many points only the longer run has, 0 nothing; the index; the first record's value and the second's, or for 7 the number of points; of ratios
// both kinds.
#[repr(C)]
#[derive(Clone, Copy, Default)]
pub struct DifferenceAnswer {
    pub what: u32,
    pub index: u64,
    pub first: u64,
    pub second: u64,
    pub first_kind: KindAnswer,
    pub second_kind: KindAnswer,
}

// The numbers of a difference: all are 0 where there is none.
impl From<Option<Difference>> for DifferenceAnswer {
    ghost from_gives = { λ difference answer. answer ≡ difference_numbers difference };

    fn from(difference: Option<Difference>) -> DifferenceAnswer {
        let zeros = DifferenceAnswer::default();
        match difference {
            None => zeros,
            Some(Difference::InProperty(property, first, second)) => DifferenceAnswer {
                what: property.number(),
                first: u64::from(first),
                second: u64::from(second),
                ..zeros
            },
            Some(Difference::Position(index, first, second)) => DifferenceAnswer {
                what: 5,
                index,
                first,
                second,
                ..zeros
            },
            Some(
                Difference::Ratio {
                    index,
                    first,
                    first_kind,
                    second,
                    second_kind,
                },
            ) => DifferenceAnswer {
                what: 6,
                index,
                first,
                second,
                first_kind: first_kind.into(),
                second_kind: second_kind.into(),
            },
            Some(Difference::More(points)) => DifferenceAnswer {
                what: 7,
                first: u64::from(points),
                ..zeros
            },
        }
    }
}

// The differences that are of no index (rate, side, count, form, and how many points only the longer run has), or the refusal: its number, its
// place, and which record it was, 1 or 2.
// No Result, since the C interface hands it back so.
#[repr(C)]
#[derive(Clone, Copy, Default)]
pub struct OverallAnswer {
    pub number: u32,
    pub place: u32,
    pub which: u32,
    pub rate: DifferenceAnswer,
    pub side: DifferenceAnswer,
    pub count: DifferenceAnswer,
    pub form: DifferenceAnswer,
    pub more: DifferenceAnswer,
}

// The numbers of the differences that are of no index, or of the refusal: no difference beside it.
impl From<Result<OverallDifferences, RefusedRecord>> for OverallAnswer {
    ghost from_gives = { λ overall answer. answer ≡ overall_numbers overall };

    fn from(overall: Result<OverallDifferences, RefusedRecord>) -> OverallAnswer {
        let zeros = OverallAnswer::default();
        match overall {
            Ok(differences) => OverallAnswer {
                rate: differences.rate.into(),
                side: differences.side.into(),
                count: differences.count.into(),
                form: differences.form.into(),
                more: differences.more.into(),
                ..zeros
            },
            Err(refused) => OverallAnswer {
                number: refused.refusal.number,
                place: refused.refusal.place,
                which: refused.which.number(),
                ..zeros
            },
        }
    }
}

// The refusal that a check answered of one of two records.
fn refused_record(answer: CheckAnswer, which: Which) -> RefusedRecord
    ensures { result ≡ refused_record answer which }
{
    RefusedRecord {
        refusal: Refusal {
            number: answer.number,
            place: answer.place,
        },
        which,
    }
}

// The difference in a property, by its value in each record.
fn property_difference(property: Property, first: u32, second: u32) -> Option<Difference>
    ensures { result ≡ property_difference property first second }
{
    if first == second {
        return None;
    }
    Some(Difference::InProperty(property, first, second))
}

// The points that only the longer run has, by both counts.
fn more_difference(first: u32, second: u32) -> Option<Difference>
    ensures { result ≡ more_difference first second }
{
    if first == second {
        return None;
    }
    Some(Difference::More(first.abs_diff(second)))
}

// The differences in the properties, by what a check answered of each record, and the points that only the longer run has. A record that was
// refused is answered by its refusal, the first before the second.
#[tactic(auto, unfolding(crate::specs::Overall::overall_of))]
pub fn overall_of(
    first: CheckAnswer,
    second: CheckAnswer,
) -> Result<OverallDifferences, RefusedRecord>
    ensures { result ≡ overall_of first second }
{
    // Numbers and no Results: `OverallExactly` speaks of any two answers, as C has them.
    if first.number != 0 {
        return Err(refused_record(first, Which::First));
    }
    if second.number != 0 {
        return Err(refused_record(second, Which::Second));
    }
    Ok(OverallDifferences {
        rate: property_difference(Property::Rate, first.rate, second.rate),
        side: property_difference(Property::Side, first.side, second.side),
        count: property_difference(Property::Count, first.count, second.count),
        form: property_difference(Property::Form, first.form, second.form),
        more: more_difference(first.count, second.count),
    })
}

// The values at an index, where both lists have one there and they are not the same.
fn values_at(first: &[u64], second: &[u64], index: u64) -> Option<(u64, u64)>
    ensures { result ≡ values_at first.now second.now index }
{
    let i = index as usize;
    let a = *first.get(i)?;
    let b = *second.get(i)?;
    if a == b {
        return None;
    }
    Some((a, b))
}

// The difference between two runs' positions at an index; none at an index that not both have. Each slice is a run's positions and no more: of what a
// fetch was lent, the first `count` numbers.
#[tactic(auto, unfolding(crate::specs::Differences::position_at))]
pub fn position_at(first: &[u64], second: &[u64], index: u64) -> Option<Difference>
    ensures { result ≡ position_at first.now second.now index }
{
    values_at(first, second, index).map(|(a, b)| Difference::Position(index, a, b))
}

// The same of two runs' ratios, by the kinds and the bits of both.
#[tactic(auto, unfolding(crate::specs::Differences::ratio_at))]
pub fn ratio_at(first: &[u64], second: &[u64], index: u64) -> Option<Difference>
    ensures { result ≡ ratio_at first.now second.now index }
{
    values_at(first, second, index).map(|(a, b)| Difference::Ratio {
        index,
        first: a,
        first_kind: Kind::of(a),
        second: b,
        second_kind: Kind::of(b),
    })
}
