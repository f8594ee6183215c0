// The limits of a run: rates, points, positions and sides.
#![tactic(auto)]

ghost use Rattle.std.specs.Prelude.{◌≡◌, ◌*◌, ◌^◌, ◌<◌, length, MatchOption};
ghost use Rattle.lists.specs.Lists.{member};
ghost use Rattle.limits.specs.Points.{first_high};
ghost use Rattle.limits.specs.Rates.{times_one_two_four, is_rate};
ghost use Rattle.limits.specs.Sides.{is_side};

// The largest number of points of a run, and of one in the wide form.
pub const MAX_POINTS: usize = 4096;

pub const MAX_WIDE_POINTS: usize = 3500;

// The largest position.
pub const MAX_POSITION: u64 = 4611686018427387903;

// The largest side of a disc; 0 stands for none.
pub const MAX_SIDE: u32 = 26;

// Whether a number is a base rate times one, two or four; the bound keeps the products within 32 bits.
fn is_times_one_two_four(base: u32, rate: u32) -> bool
    requires { 4 * base < 2 ^ 32 }
    ensures { result ≡ member rate (times_one_two_four base) }
{
    [base, 2 * base, 4 * base].contains(&rate)
}

// Whether a number is a rate: 44,100 or 48,000 times one, two or four.
pub fn is_rate(rate: u32) -> bool
    ensures { result ≡ is_rate rate }
{
    is_times_one_two_four(44100, rate) || is_times_one_two_four(48000, rate)
}

// Whether a number is a side that a record stores.
#[tactic(auto, unfolding(crate::specs::Sides::is_side))]
pub fn is_side(side: u32) -> bool
    ensures { result ≡ is_side side }
{
    (1..=MAX_SIDE).contains(&side)
}

// The index of the first position above the largest, where there is one.
pub fn first_high(positions: &[u64]) -> Option<usize>
    ensures { MatchOption result (first_high positions.now ≡ length positions.now) (λ i. (i ≡ first_high positions.now) × (i < length positions.now)) }
{
    positions
        .iter()
        .position(|position| MAX_POSITION < *position)
}
