// The comparing program: reads the records in the files that its two arguments name, with no rate expected, and prints what differs between them,
// a line for each difference and nothing for equal records; or the refusal, and which record it was.
// How much of the input is read, and how much room the text has left, are facts of a call, and so stay in each requires.
#![tactic(auto)]

ghost use Rattle.std.specs.Prelude.{◌≡◌, ◌+◌, ◌*◌, ◌≤◌, [], ◌++◌, take, length};
ghost use Rattle.limits.specs.Points.{max_points};
ghost use Rattle.inputs.specs.Inputs.{input_limit};
ghost use Rattle.inputs.specs.Readings.{RunHeld};
ghost use Rattle.differences.specs.Numbers.{which_number};
ghost use Rattle.compare.specs.Lines.{property_word, kind_word, property_line, position_line, ratio_line, line_if, refused_in_line};
ghost use Rattle.compare.specs.Pieces.{properties_text, lines_at, lines_below};
ghost use Rattle.compare.specs.Printed.{line_limit, text_limit, printed};

use differences::{Difference, OverallDifferences, Property, RefusedRecord};
use inputs::{input_room, read_input};
use kind::Kind;
use limits::MAX_POINTS;
use record_format::CheckAnswer;
use text::Text;

// Room for every text: 79 bytes for each line, one for each of four properties, two for each of 4,096 points, and one more.
const TEXT: usize = 647563;

// The points of a run.
#[derive(Clone, Copy)]
pub struct Points<'a> {
    pub positions: &'a [u64],
    pub ratios: &'a [u64],
}

impl<'a> Points<'a> {
    // The first n of both.
    fn first(n: usize, positions: &'a [u64], ratios: &'a [u64]) -> Points<'a>
        requires { RunHeld n positions.now ratios.now }
        ensures positions { result.positions.now ≡ take n positions.now }
        ensures ratios { result.ratios.now ≡ take n ratios.now }
    {
        Points {
            positions: &positions[..n],
            ratios: &ratios[..n],
        }
    }
}

// The word of a property, and a space.
fn property_word(property: Property) -> &'static str
    ensures word { result.now ≡ property_word property }
    ensures most { length (property_word property) ≤ 10 }
{
    match property {
        Property::Rate => "rate ",
        Property::Side => "side ",
        Property::Count => "count ",
        Property::Form => "form ",
    }
}

// The word of a kind, between two spaces.
fn kind_word(kind: Kind) -> &'static str
    ensures word { result.now ≡ kind_word kind }
    ensures most { length (kind_word kind) ≤ 10 }
{
    match kind {
        Kind::Number(_) => " number ",
        Kind::Infinity(_) => " infinity ",
        Kind::Nan(_) => " nan ",
    }
}

// The line of a property.
#[tactic(auto, unfolding(crate::specs::Lines::property_line))]
fn put_property(out: &mut Text<TEXT>, property: Property, first: u32, second: u32)
    requires { length out.old + line_limit ≤ text_limit }
    ensures text { out.new ≡ out.old ++ property_line property first second }
    ensures most { length (property_line property first second) ≤ line_limit }
{
    out.put_numbered(property_word(property).as_bytes(), u64::from(first));
    out.put_line(b" ", u64::from(second));
}

// The line of a position in both records.
#[tactic(auto, unfolding(crate::specs::Lines::position_line))]
fn put_position(out: &mut Text<TEXT>, index: u64, first: u64, second: u64)
    requires { length out.old + line_limit ≤ text_limit }
    ensures text { out.new ≡ out.old ++ position_line index first second }
    ensures most { length (position_line index first second) ≤ line_limit }
{
    out.put_numbered(b"position ", index);
    out.put_numbered(b" ", first);
    out.put_line(b" ", second);
}

// The line of a ratio: the bits of the first record's, of kind k, and of the second's, of kind l.
#[tactic(auto, unfolding(crate::specs::Lines::ratio_line))]
fn put_ratio(out: &mut Text<TEXT>, index: u64, first: u64, k: Kind, second: u64, l: Kind)
    requires { length out.old + line_limit ≤ text_limit }
    ensures text { out.new ≡ out.old ++ ratio_line index first k second l }
    ensures most { length (ratio_line index first k second l) ≤ line_limit }
{
    out.put_numbered(b"ratio ", index);
    out.put(kind_word(k));
    out.put_hex(first);
    out.put(kind_word(l));
    out.put_hex(second);
    out.put("\n");
}

// The line of a difference, if there is one.
#[tactic(auto, unfolding(crate::specs::Lines::more_line))]
fn put_difference(out: &mut Text<TEXT>, difference: Option<Difference>)
    requires { length out.old + line_limit ≤ text_limit }
    ensures text { out.new ≡ out.old ++ line_if difference }
    ensures most { length (line_if difference) ≤ line_limit }
{
    match difference {
        None => {}
        Some(Difference::InProperty(property, first, second)) => {
            put_property(out, property, first, second)
        }
        Some(Difference::Position(index, first, second)) => put_position(out, index, first, second),
        Some(
            Difference::Ratio {
                index,
                first,
                first_kind,
                second,
                second_kind,
            },
        ) => put_ratio(out, index, first, first_kind, second, second_kind),
        Some(Difference::More(n)) => out.put_line(b"more ", u64::from(n)),
    }
}

// The only line of a refusal.
#[tactic(auto, unfolding(crate::specs::Lines::refused_in_line))]
fn put_refused_in(out: &mut Text<TEXT>, refused: RefusedRecord)
    requires { length out.old + line_limit ≤ text_limit }
    ensures text { out.new ≡ out.old ++ refused_in_line refused.refusal.number refused.refusal.place (which_number refused.which) }
    ensures most { length (refused_in_line refused.refusal.number refused.refusal.place (which_number refused.which)) ≤ line_limit }
{
    out.put_numbered(b"refused ", u64::from(refused.refusal.number));
    out.put_numbered(b" at ", u64::from(refused.refusal.place));
    out.put_line(b" in ", u64::from(refused.which.number()));
}

// The lines of the properties.
fn put_properties(out: &mut Text<TEXT>, overall: OverallDifferences)
    requires { length out.old + line_limit * 4 ≤ text_limit }
    ensures text { out.new ≡ out.old ++ properties_text overall }
    ensures most { length (properties_text overall) ≤ line_limit * 4 }
{
    put_difference(out, overall.rate);
    put_difference(out, overall.side);
    put_difference(out, overall.count);
    put_difference(out, overall.form);
}

// The lines of the index i.
fn put_point(out: &mut Text<TEXT>, first: &Points<'_>, second: &Points<'_>, i: usize)
    requires { length out.old + line_limit * 2 ≤ text_limit }
    ensures text { out.new ≡ out.old ++ lines_at first.now.positions.now first.now.ratios.now second.now.positions.now second.now.ratios.now i }
    ensures most { length (lines_at first.now.positions.now first.now.ratios.now second.now.positions.now second.now.ratios.now i) ≤ line_limit * 2 }
{
    let position = differences::position_at(first.positions, second.positions, i as u64);
    put_difference(out, position);
    let ratio = differences::ratio_at(first.ratios, second.ratios, i as u64);
    put_difference(out, ratio);
}

// The lines of each index below n.
fn put_points(out: &mut Text<TEXT>, first: &Points<'_>, second: &Points<'_>, n: usize)
    requires { (n ≤ max_points) × (length out.old + line_limit * 2 * n ≤ text_limit) }
    ensures text { out.new ≡ out.old ++ lines_below first.now.positions.now first.now.ratios.now second.now.positions.now second.now.ratios.now n }
    ensures most { length (lines_below first.now.positions.now first.now.ratios.now second.now.positions.now second.now.ratios.now n) ≤ line_limit * 2 * n }
{
    for i in 0..n {
        put_point(out, first, second, i);
    }
}

// Puts the text for two inputs into an output that has no text.
fn print(first: &[u8], second: &[u8], out: &mut Text<TEXT>)
    requires { (length first.now ≤ input_limit) × (length second.now ≤ input_limit) × (out.old ≡ []) }
    ensures text { out.new ≡ printed first.now second.now }
    ensures most { length out.new ≤ text_limit }
{
    let mut first_positions = [0; MAX_POINTS];
    let mut first_ratios = [0; MAX_POINTS];
    let a = CheckAnswer::from(read_input(first, &mut first_positions, &mut first_ratios));
    let mut second_positions = [0; MAX_POINTS];
    let mut second_ratios = [0; MAX_POINTS];
    let b = CheckAnswer::from(read_input(second, &mut second_positions, &mut second_ratios));
    match differences::overall_of(a, b) {
        Ok(overall) => {
            let m = a.count as usize;
            let n = b.count as usize;
            put_properties(out, overall);
            let first_points = Points::first(m, &first_positions, &first_ratios);
            let second_points = Points::first(n, &second_positions, &second_ratios);
            put_points(out, &first_points, &second_points, m.min(n));
            put_difference(out, overall.more);
        }
        Err(refused) => put_refused_in(out, refused),
    }
}

fn main(rt: HostRuntime) {
    let mut first = input_room();
    let n = files::read_argument(&rt, 1, &mut first);
    let mut second = input_room();
    let m = files::read_argument(&rt, 2, &mut second);
    let mut out = Text::new();
    print(&first[..n], &second[..m], &mut out);
    files::write_front(&mut rt.stdout(), out.as_bytes());
}
