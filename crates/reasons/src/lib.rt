// Why a ratio of a run takes the bytes that it takes (document 02, No. 1): the form that the writer chooses for it, and what in the window
// decides it.
#![tactic(auto)]

ghost use Rattle.std.specs.Prelude.{◌≡◌, ◌≢◌, ◌≤◌, reverse, length, IfErr};
ghost use Rattle.ratio_format.specs.Windows.{window_size};
ghost use Rattle.reasons.specs.Reasons.{reason_of, explained};
ghost use Rattle.reasons.specs.Numbers.{reason_numbers};

use limits::MAX_POINTS;
use ratio_codec::search::search;
use ratio_window::{EQUAL_SUM, lead_zeros, trail_zeros, window_start};
use refusals::{Cause, Refusal};

// A reference to the place of an equal ratio; the xor with the ratio at a place, by its leading and trailing zero bytes; an exception with
// the best sum found, or because the window is empty.
#[derive(Clone, Copy)]
pub enum Reason {
    Reference(u8),
    Xor { place: u8, lead: u8, trail: u8 },
    Exception(u8),
    Empty,
}

// A reason in numbers, for C: 1, equal to the ratio at a place; 2, the xor with the ratio at a place, with its zero bytes and their sum; 3, an
// exception with the best sum found; 4, an exception since the window is empty; 0, a refusal.
#[repr(C)]
#[derive(Clone, Copy, Default)]
pub struct ExplainAnswer {
    pub number: u32,
    pub place: u32,
    pub reason: u32,
    pub at: u32,
    pub leading: u32,
    pub trailing: u32,
    pub sum: u32,
}

impl From<Result<Reason, Refusal>> for ExplainAnswer {
    ghost from_gives = { λ reason answer. answer ≡ reason_numbers reason };

    fn from(reason: Result<Reason, Refusal>) -> ExplainAnswer {
        let zeros = ExplainAnswer::default();
        match reason {
            Ok(Reason::Reference(place)) => ExplainAnswer {
                reason: 1,
                at: u32::from(place),
                ..zeros
            },
            Ok(Reason::Xor { place, lead, trail }) => {
                let leading = u32::from(lead);
                let trailing = u32::from(trail);
                ExplainAnswer {
                    reason: 2,
                    at: u32::from(place),
                    leading,
                    trailing,
                    sum: leading + trailing,
                    ..zeros
                }
            }
            Ok(Reason::Exception(sum)) => ExplainAnswer {
                reason: 3,
                sum: u32::from(sum),
                ..zeros
            },
            Ok(Reason::Empty) => ExplainAnswer { reason: 4, ..zeros },
            Err(refusal) => ExplainAnswer {
                number: refusal.number,
                place: refusal.place,
                ..zeros
            },
        }
    }
}

// The reason for v against a window, oldest first. The plain search knows every sum; only an equal ratio has the sum EQUAL_SUM.
#[tactic(auto, using(crate::proofs::Reasons::sliced_reference, crate::proofs::Reasons::found_inside, crate::proofs::Reasons::sliced_xor, crate::proofs::Reasons::sliced_empty, crate::proofs::Reasons::sliced_exception))]
fn reason_of(window: &[u64], v: u64) -> Reason
    requires { length window.now ≤ window_size }
    ensures { result ≡ reason_of v (reverse window.now) }
{
    let found = search(window, v);
    if found.sum == EQUAL_SUM {
        return Reason::Reference(found.place as u8);
    }
    if 2 <= found.sum {
        let x = v ^ window[window.len() - 1 - found.place];
        return Reason::Xor {
            place: found.place as u8,
            lead: lead_zeros(x) as u8,
            trail: trail_zeros(x) as u8,
        };
    }
    if window.is_empty() {
        return Reason::Empty;
    }
    Reason::Exception(found.sum as u8)
}

// The reason for the ratio of an index among a run's ratios.
#[tactic(auto, using(crate::proofs::Reasons::explained_many, crate::proofs::Reasons::explained_past, crate::proofs::Reasons::explained_here))]
pub fn explain(ratios: &[u64], index: u64) -> Result<Reason, Refusal>
    ensures answer { result ≡ explained ratios.now index }
    ensures refused { IfErr result (λ f. f.number ≢ 0) }
{
    if MAX_POINTS < ratios.len() {
        return Err(Cause::TooManyPoints.at(0));
    }
    if ratios.len() as u64 <= index {
        return Err(Cause::BadIndex.at(0));
    }
    let i = index as usize;
    let from = window_start(i);
    Ok(reason_of(&ratios[from..i], ratios[i]))
}
