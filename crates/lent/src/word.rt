// The words that the decimator and interpolator add up, i32 and i64: sums modulo 2^BITS, read as signed.
ghost use Rattle.std.specs.Prelude.{◌≡◌, ℕ, ◌*◌};
ghost use Rattle.std.specs.Int.{w32, w64};
ghost use Rattle.sums.specs.Ops.{Ops, times};
ghost use Rattle.sums.specs.Signed.{signed_ops};
ghost use Rattle.sums.proofs.Levels.{times_times};

pub trait Word: Copy {
    // The width, to be asked of `fit`.
    const BITS: u32;

    // The word's sum, difference and nil, as the rules of the crate sums ask for them.
    ghost ops: { Ops Self };

    fn zero() -> Self
        ensures { result ≡ ops.nil };

    fn add(self, other: Self) -> Self
        ensures { result ≡ ops.add self other };

    fn sub(self, other: Self) -> Self
        ensures { result ≡ ops.sub self other };

    // n times the word, as the sum of n of them.
    fn times(self, n: u32) -> Self
        ensures { result ≡ times ops n self };

    // Products of sums: a law of sums modulo any number.
    ghost scales: { (n m : ℕ) (x : Self) → times ops n (times ops m x) ≡ times ops (n * m) x };
}

#[tactic(auto, using(words::proofs::Std::signed))]
impl Word for i32 {
    const BITS: u32 = 32;

    ghost ops = { signed_ops w32 };

    fn zero() -> i32 {
        0
    }

    fn add(self, other: i32) -> i32 {
        self.wrapping_add(other)
    }

    fn sub(self, other: i32) -> i32 {
        self.wrapping_sub(other)
    }

    fn times(self, n: u32) -> i32 {
        self.wrapping_mul(n.cast_signed())
    }

    ghost scales = { times_times w32 };
}

#[tactic(auto, using(words::proofs::Std::signed))]
impl Word for i64 {
    const BITS: u32 = 64;

    ghost ops = { signed_ops w64 };

    fn zero() -> i64 {
        0
    }

    fn add(self, other: i64) -> i64 {
        self.wrapping_add(other)
    }

    fn sub(self, other: i64) -> i64 {
        self.wrapping_sub(other)
    }

    fn times(self, n: u32) -> i64 {
        self.wrapping_mul(i64::from(n))
    }

    ghost scales = { times_times w64 };
}
