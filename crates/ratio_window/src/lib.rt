// What every search of a window shares: where the window of a ratio begins, the zero bytes of an xor and their sum, and a place with its
// sum. A window is the part of a list before a ratio, oldest first; the definitions have the newest first.
#![tactic(auto)]

ghost use Rattle.std.specs.Prelude.{◌≡◌, ◌-◌, ◌≤◌};
ghost use Rattle.ratio_format.specs.Windows.{window_size};
ghost use Rattle.ratio_format.specs.Zeros.{lead_zeros, trail_zeros, sum_of};

use ratio_format::Window;

// A place of the window and the sum there.
#[derive(Clone, Copy)]
pub struct Best {
    pub place: usize,
    pub sum: usize,
}

// The sum of an equal ratio: eight zero bytes, from either end.
pub const EQUAL_SUM: usize = 16;

// The index at which the window of ratio i begins.
pub fn window_start(i: usize) -> usize
    ensures { result ≡ i - window_size }
{
    i.saturating_sub(Window::SIZE)
}

// The leading zero bytes of x.
pub fn lead_zeros(x: u64) -> usize
    ensures { (result ≡ lead_zeros x) × (result ≤ 8) }
{
    (u64::leading_zeros(x) / 8) as usize
}

// The trailing zero bytes of x.
pub fn trail_zeros(x: u64) -> usize
    ensures { (result ≡ trail_zeros x) × (result ≤ 8) }
{
    (u64::trailing_zeros(x) / 8) as usize
}

// The leading and trailing zero bytes of v xor u together.
pub fn sum_of(v: u64, u: u64) -> usize
    ensures { result ≡ sum_of v u }
{
    let x = v ^ u;
    lead_zeros(x) + trail_zeros(x)
}
