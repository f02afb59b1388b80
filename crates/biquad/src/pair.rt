// A pair of roots.
ghost use Rattle.std.specs.Prelude.{◌≡◌};
ghost use Rattle.biquad.specs.Coefficients.{coeff_of};

#[derive(Clone, Copy)]
pub enum Pair {
    // Two real roots.
    Real(f64, f64),
    // The complex conjugate roots x + jy and x - jy.
    Complex(f64, f64),
}

// The two coefficients that a pair of roots gives: the sum of the roots, and their product.
#[derive(Clone, Copy)]
pub struct Quadratic(pub f64, pub f64);

impl Pair {
    // The real polynomial coefficients.
    pub fn coeff(self) -> Quadratic
        ensures { result ≡ coeff_of self }
    {
        match self {
            Pair::Real(x, y) => Quadratic(x + y, x * y),
            Pair::Complex(x, y) => Quadratic(x + x, x * x + y * y),
        }
    }
}
