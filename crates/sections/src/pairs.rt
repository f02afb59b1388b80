// Two sections at a time, for blocks.
ghost use Rattle.std.specs.Prelude.{◌≡◌};
ghost use Rattle.sections.specs.Pairs.{digit_of, kind_of, pair_code, codes_of, coded};

use adapters::tpa::Tpa;

// What two sections are given: an input, two cells, two coefficients.
#[derive(Clone, Copy)]
pub struct Given {
    pub x: i32,
    pub z0: i32,
    pub z1: i32,
    pub a0: i32,
    pub a1: i32,
}

// What they give: back to the place before them, the first one's cell, and on to the next.
#[derive(Clone, Copy)]
pub struct Two {
    pub back: i32,
    pub cell: i32,
    pub on: i32,
}

// Eight numbers, cells or coefficients.
#[derive(Clone, Copy)]
pub struct Eight {
    pub e0: i32,
    pub e1: i32,
    pub e2: i32,
    pub e3: i32,
    pub e4: i32,
    pub e5: i32,
    pub e6: i32,
    pub e7: i32,
}

// The numbers of four pairs.
#[derive(Clone, Copy)]
pub struct Codes {
    pub k0: u32,
    pub k1: u32,
    pub k2: u32,
    pub k3: u32,
}

// The adapters by digits, close together so that a table of jumps is small: B1 as B, C1 as C.
#[tactic(auto, unfolding(crate::specs::Pairs::digit_of))]
fn digit(nibble: u32) -> u32
    ensures { result ≡ digit_of nibble }
{
    match nibble {
        0xa => 1,
        0xb => 2,
        0xc => 3,
        0xd => 4,
        0xe => 2,
        0xf => 3,
        0x1 => 5,
        _ => 0,
    }
}

#[tactic(auto, unfolding(crate::specs::Pairs::kind_of))]
fn kind(digit: u32) -> Tpa
    ensures { result ≡ kind_of digit }
{
    match digit {
        1 => Tpa::A,
        2 => Tpa::B,
        3 => Tpa::C,
        4 => Tpa::D,
        5 => Tpa::X,
        _ => Tpa::Z,
    }
}

// The two lowest nibbles as one number below 36.
#[tactic(auto, using(crate::proofs::InPairs::digit_small), unfolding(crate::specs::Pairs::pair_code))]
pub(crate) fn pair_code(nibbles: u32) -> u32
    ensures { result ≡ pair_code nibbles }
{
    digit(nibbles % 16) + 6 * digit(nibbles / 16 % 16)
}

pub(crate) fn codes_of(architecture: u32) -> Codes
    ensures { result ≡ codes_of architecture }
{
    Codes {
        k0: pair_code(architecture),
        k1: pair_code(architecture / 256),
        k2: pair_code(architecture / 65536),
        k3: pair_code(architecture / 16777216),
    }
}

// The sections of such a number. COPY makes a function of its own of each: what the last arm below calls shares no text with the others.
pub(crate) fn through<const COPY: usize>(code: u32, w: Given) -> Two
    ensures { result ≡ coded code w }
{
    let p = kind(code % 6).adapt(w.x, w.z0, w.a0);
    let q = kind(code / 6).adapt(p.1, w.z1, w.a1);
    Two {
        back: p.0,
        cell: q.0,
        on: q.1,
    }
}

// The same by arms: in each the number is known, and one jump leads to two adapters. PLACE makes one such function for each place
// where a block calls one: what is called from one place alone is compiled into it.
pub(crate) fn through_at<const PLACE: usize>(code: u32, w: Given) -> Two
    ensures { result ≡ coded code w }
{
    // Kept: an arm for each number. A table of adapters would be read at run time.
    match code {
        0 => through::<0>(code, w),
        1 => through::<0>(code, w),
        2 => through::<0>(code, w),
        3 => through::<0>(code, w),
        4 => through::<0>(code, w),
        5 => through::<0>(code, w),
        6 => through::<0>(code, w),
        7 => through::<0>(code, w),
        8 => through::<0>(code, w),
        9 => through::<0>(code, w),
        10 => through::<0>(code, w),
        11 => through::<0>(code, w),
        12 => through::<0>(code, w),
        13 => through::<0>(code, w),
        14 => through::<0>(code, w),
        15 => through::<0>(code, w),
        16 => through::<0>(code, w),
        17 => through::<0>(code, w),
        18 => through::<0>(code, w),
        19 => through::<0>(code, w),
        20 => through::<0>(code, w),
        21 => through::<0>(code, w),
        22 => through::<0>(code, w),
        23 => through::<0>(code, w),
        24 => through::<0>(code, w),
        25 => through::<0>(code, w),
        26 => through::<0>(code, w),
        27 => through::<0>(code, w),
        28 => through::<0>(code, w),
        29 => through::<0>(code, w),
        30 => through::<0>(code, w),
        31 => through::<0>(code, w),
        32 => through::<0>(code, w),
        33 => through::<0>(code, w),
        34 => through::<0>(code, w),
        35 => through::<0>(code, w),
        // Never run.
        _ => through::<1>(code, w),
    }
}
