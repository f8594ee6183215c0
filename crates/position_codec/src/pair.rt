// Two positions in range, one after the other: the step from them to a third, and the third that a step leads to.
ghost use Rattle.std.specs.Prelude.{◌^◌, ◌<◌};

use limits::MAX_POSITION;

#[derive(Clone, Copy)]
pub(crate) struct Pair {
    pub before: u64,
    pub last: u64,
    pub ghost before_small: { before < 2 ^ 62 },
    pub ghost last_small: { last < 2 ^ 62 },
}

impl Pair {
    ghost use Rattle.std.specs.Prelude.{◌≡◌, ◌^◌, ◌<◌};
    ghost use Rattle.position_format.specs.Steps.{step_of};
    ghost use Rattle.position_codec.specs.Found.{PositionFound};

    // The step at the point t after them.
    pub fn step_to(self, t: u64) -> i64
        requires { t < 2 ^ 62 }
        ensures { result ≡ step_of self.before self.last t }
    {
        let a = self.before as i64;
        let b = self.last as i64;
        (t as i64 - b) - (b - a)
    }

    // The position after them whose step is z, any i64. Where z is 0 the position fits an i64, and z is compared with the room on either side of that one,
    // since the sum can leave 64 bits.
    pub fn next(self, z: i64) -> Option<u64>
        ensures { PositionFound self.before self.last z result }
    {
        let a = self.before;
        let b = self.last;
        let c = b as i64 + (b as i64 - a as i64);
        if !(-c..=MAX_POSITION as i64 - c).contains(&z) {
            return None;
        }
        Some((c + z) as u64)
    }
}
