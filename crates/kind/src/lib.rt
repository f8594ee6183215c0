// What kind of IEEE 754 double a ratio's 64 bits are, and the kind in numbers.
#![tactic(auto)]

ghost use Rattle.std.specs.Prelude.{◌≡◌};
ghost use Rattle.kind.specs.Kinds.{kind_of};
ghost use Rattle.kind.specs.Numbers.{kind_numbers};

// A number with its value (-0 and the subnormals are numbers), an infinity with whether it is negative, a not-a-number with its bits.
#[derive(Clone, Copy)]
pub enum Kind {
    Number(f64),
    Infinity(bool),
    Nan(u64),
}

// A kind in numbers, for C: 0 for a number with its value, 1 for an infinity with whether it is negative, 2 for a not-a-number with its bits.
#[repr(C)]
#[derive(Clone, Copy, Default)]
pub struct KindAnswer {
    pub kind: u32,
    pub negative: u32,
    pub value: f64,
    pub bits: u64,
}

// The bit that is the sign.
const SIGN: u64 = 1 << 63;

// The bits of an infinity without its sign; above them, without the sign, stand the not-a-numbers.
const INFINITY: u64 = 9218868437227405312;

impl Kind {
    // The kind of a ratio, for every pattern of 64 bits.
    pub fn of(ratio: u64) -> Kind
        ensures { result ≡ kind_of ratio }
    {
        match ratio % SIGN {
            magnitude if INFINITY < magnitude => Kind::Nan(ratio),
            INFINITY => Kind::Infinity(SIGN <= ratio),
            _ => Kind::Number(f64::from_bits(ratio)),
        }
    }
}

// The numbers of a kind.
impl From<Kind> for KindAnswer {
    ghost from_gives = { λ kind answer. answer ≡ kind_numbers kind };

    fn from(kind: Kind) -> KindAnswer {
        match kind {
            Kind::Number(value) => KindAnswer {
                kind: 0,
                negative: 0,
                value,
                bits: 0,
            },
            Kind::Infinity(negative) => KindAnswer {
                kind: 1,
                negative: u32::from(negative),
                value: 0.0,
                bits: 0,
            },
            Kind::Nan(bits) => KindAnswer {
                kind: 2,
                negative: 0,
                value: 0.0,
                bits,
            },
        }
    }
}
