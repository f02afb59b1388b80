// Wrap classification, and the difference that tells its wrap.
ghost use Rattle.std.specs.Prelude.{◌≡◌};
ghost use Rattle.unwrap.specs.Phases.{joined, difference_of};

// The direction of a wrap.
#[derive(Clone, Copy, Debug, PartialEq, Eq)]
pub enum Wrap {
    Negative,
    None,
    Positive,
}

impl Wrap {
    // The sign of the sum of the two.
    pub fn add(self, rhs: Wrap) -> Wrap
        ensures { result ≡ joined self rhs }
    {
        match (self, rhs) {
            (Wrap::None, sign) | (sign, Wrap::None) => sign,
            (Wrap::Negative, Wrap::Negative) => Wrap::Negative,
            (Wrap::Positive, Wrap::Positive) => Wrap::Positive,
            _ => Wrap::None,
        }
    }
}

#[derive(Clone, Copy, Debug, PartialEq, Eq)]
pub struct Difference {
    pub delta: i32,
    pub wrap: Wrap,
}

// y - x modulo 2^32, and the sign of what the wrap added.
#[tactic(auto, using(crate::proofs::Turning::classified))]
pub fn overflowing_sub(y: i32, x: i32) -> Difference
    ensures { result ≡ difference_of y x }
{
    let delta = y.wrapping_sub(x);
    let wrap = match (delta < 0, y < x) {
        (true, false) => Wrap::Negative,
        (false, true) => Wrap::Positive,
        _ => Wrap::None,
    };
    Difference { delta, wrap }
}
