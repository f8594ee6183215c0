// The refusals that every call shares: a call's tests in their order, the refusal that the first of them gives, and why a call refuses.
#![tactic(auto)]

ghost use Rattle.std.specs.Prelude.{◌≡◌, ◌^◌, ◌<◌};
ghost use Rattle.refusals.specs.Causes.{number_of};
ghost use Rattle.refusals.specs.Tests.{refusal};

// A refusal: document 01's number and place. Where C is handed one, 0 and 0 stand for none.
#[repr(C)]
#[derive(Clone, Copy, Debug, Default, PartialEq, Eq)]
pub struct Refusal {
    pub number: u32,
    pub place: u32,
}

// Why a call refuses: each row of the table of refusals, with its number.
#[derive(Clone, Copy, Debug, PartialEq, Eq)]
pub enum Cause {
    BadRate = 1,
    UnequalCounts = 2,
    TooManyPoints = 3,
    HighPosition = 4,
    StepOutside = 5,
    NoRoom = 6,
    BadState = 7,
    AllGiven = 8,
    CutShort = 10,
    OtherTag = 11,
    OtherLength = 12,
    BadStoredRate = 13,
    OtherRate = 14,
    BadCount = 15,
    NoRoomForPoints = 16,
    BadPositions = 17,
    BadRatios = 18,
    BadStoredSide = 20,
    BadSide = 21,
    BadIndex = 22,
}

impl Cause {
    // Its number in the table.
    pub fn number(self) -> u32
        ensures { result ≡ number_of self }
    {
        self as u32
    }

    // The refusal for it, at a place.
    pub fn at(self, place: usize) -> Refusal
        requires { place < 2 ^ 32 }
        ensures { result ≡ refusal (number_of self) place }
    {
        Refusal {
            number: self.number(),
            place: place as u32,
        }
    }
}
