// What every program that reads a record shares: room for as many bytes as it reads, and the reading. Internal.
#![tactic(auto)]

ghost use Rattle.std.specs.Prelude.{◌≡◌, ◌≢◌, ◌≤◌, length, IfErr};
ghost use Rattle.record_format.specs.Answers.{check_answer};
ghost use Rattle.inputs.specs.Inputs.{input_limit};
ghost use Rattle.inputs.specs.Readings.{InputRead};

use limits::MAX_POINTS;
use record_format::Description;
use refusals::Refusal;

// As many bytes as a program reads: 64 KiB, which every record stays below.
pub const INPUT: usize = 65536;

// Room for the input. A function, since its contract is what says how far every program reads.
pub fn input_room() -> [u8; INPUT]
    ensures { input_limit ≡ length result }
{
    [0; INPUT]
}

// Reads an input with no rate expected: checks it and, where the check accepts it, fetches its run into such room as every run has. Answers what the check
// answered.
pub fn read_input(
    input: &[u8],
    positions: &mut [u64; MAX_POINTS],
    ratios: &mut [u64; MAX_POINTS],
) -> Result<Description, Refusal>
    requires { length input.now ≤ input_limit }
    ensures read { InputRead input.now (check_answer result) positions.new ratios.new }
    ensures numbered { IfErr result (λ refusal. refusal.number ≢ 0) }
{
    let found = record_codec::check(0, input)?;
    record_codec::fetch(0, input, positions, ratios)?;
    Ok(found)
}
