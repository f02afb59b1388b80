// Two port adapters.
#![tactic(auto, using(words::proofs::Std::signed))]

ghost use Rattle.std.specs.Prelude.{◌≡◌};
ghost use Rattle.adapters.specs.Adapters.{scaled, adapted, code_of, retired};

// Two port adapters, by their names. The filter's architecture word has a nibble for each.
#[derive(Clone, Copy, Debug, PartialEq, Eq)]
pub enum Tpa {
    // 0x0, and every nibble that is not named below.
    Z,
    // 0xa
    A,
    // 0xb
    B,
    // 0xe
    B1,
    // 0x1
    X,
    // 0xc
    C,
    // 0xf
    C1,
    // 0xd
    D,
}

// The two outputs of an adapter: the first goes back, the second goes on.
#[derive(Clone, Copy, Debug, PartialEq, Eq)]
pub struct Ports(pub i32, pub i32);

// The adapter of a nibble; an unknown one acts as Z.
impl From<u8> for Tpa {
    ghost from_gives = { λ value code. code ≡ code_of value };

    #[tactic(auto, unfolding(crate::specs::Adapters::code_of))]
    fn from(value: u8) -> Tpa {
        match value {
            0x1 => Tpa::X,
            0xa => Tpa::A,
            0xb => Tpa::B,
            0xc => Tpa::C,
            0xd => Tpa::D,
            0xe => Tpa::B1,
            0xf => Tpa::C1,
            _ => Tpa::Z,
        }
    }
}

// A number times a coefficient in units of 2^-32, rounded down.
fn scale(c: i32, a: i32) -> i32
    ensures { result ≡ scaled c a }
{
    ((i64::from(c) * i64::from(a)) >> 32) as i32
}

impl Tpa {
    // Whether it is withdrawn from new work, as B1 and C1 are: B and C compute the same.
    #[tactic(auto, unfolding(crate::specs::Adapters::retired))]
    pub fn is_retired(self) -> bool
        ensures { result ≡ retired self }
    {
        matches!(self, Tpa::B1 | Tpa::C1)
    }

    // The outputs for the inputs x0 and x1 and the coefficient a, all sums modulo 2^32.
    #[tactic(auto, using(words::proofs::Std::signed), unfolding(crate::specs::Adapters::adapted))]
    pub fn adapt(self, x0: i32, x1: i32, a: i32) -> Ports
        ensures { result ≡ adapted self x0 x1 a }
    {
        match self {
            Tpa::A => {
                let c = x1.wrapping_sub(x0);
                let y = scale(c, a).wrapping_add(x1);
                Ports(y.wrapping_add(c), y)
            }
            Tpa::B => {
                let c = x0.wrapping_sub(x1);
                let y = scale(c, a).wrapping_add(x1);
                Ports(y, y.wrapping_add(c))
            }
            Tpa::B1 => {
                let y = scale(x0.wrapping_sub(x1), a);
                Ports(y.wrapping_add(x1), y.wrapping_add(x0))
            }
            Tpa::X => Ports(x1, x0),
            Tpa::C => {
                let c = x1.wrapping_sub(x0);
                let y = scale(c, a).wrapping_sub(x1);
                Ports(y, y.wrapping_add(c))
            }
            Tpa::C1 => {
                let y = scale(x1.wrapping_sub(x0), a);
                Ports(y.wrapping_sub(x1), y.wrapping_sub(x0))
            }
            Tpa::D => {
                let c = x0.wrapping_sub(x1);
                let y = scale(c, a).wrapping_sub(x1);
                Ports(y.wrapping_add(c), y)
            }
            Tpa::Z => Ports(x0, x1),
        }
    }
}
