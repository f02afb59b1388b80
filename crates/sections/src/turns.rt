// A step through two and through eight sections, on cells by value.
ghost use Rattle.std.specs.Prelude.{◌≡◌};
ghost use Rattle.sections.specs.Lent.{Turns};
ghost use Rattle.sections.specs.Pairs.{pair_code, codes_of};

use crate::pairs::{Codes, Eight, Given, through, through_at};

// A step's output, and the cells after it.
#[derive(Clone, Copy)]
pub struct Turned {
    pub y: i32,
    pub cells: Eight,
}

// The two sections of a pair's number; the other cells stay.
pub(crate) fn turn_two(architecture: u32, code: u32, a: Eight, z: Eight, x: i32) -> Turned
    requires { code ≡ pair_code architecture }
    ensures { Turns 2 architecture a z x result }
{
    let p = through::<0>(
        code,
        Given {
            x,
            z0: z.e0,
            z1: z.e1,
            a0: a.e0,
            a1: a.e1,
        },
    );
    Turned {
        y: p.back,
        cells: Eight {
            e0: p.cell,
            e1: p.on,
            e2: z.e2,
            e3: z.e3,
            e4: z.e4,
            e5: z.e5,
            e6: z.e6,
            e7: z.e7,
        },
    }
}

// Eight sections, two at a time, until there is no nibble left: sections of nibbles of zero leave their cells.
pub(crate) fn turn_eight(architecture: u32, k: Codes, a: Eight, z: Eight, x: i32) -> Turned
    requires { k ≡ codes_of architecture }
    ensures { Turns 8 architecture a z x result }
{
    let p = through_at::<0>(
        k.k0,
        Given {
            x,
            z0: z.e0,
            z1: z.e1,
            a0: a.e0,
            a1: a.e1,
        },
    );
    let q = through_at::<1>(
        k.k1,
        Given {
            x: p.on,
            z0: z.e2,
            z1: z.e3,
            a0: a.e2,
            a1: a.e3,
        },
    );
    if architecture < 65536 {
        return Turned {
            y: p.back,
            cells: Eight {
                e0: p.cell,
                e1: q.back,
                e2: q.cell,
                e3: q.on,
                e4: z.e4,
                e5: z.e5,
                e6: z.e6,
                e7: z.e7,
            },
        };
    }
    let r = through_at::<2>(
        k.k2,
        Given {
            x: q.on,
            z0: z.e4,
            z1: z.e5,
            a0: a.e4,
            a1: a.e5,
        },
    );
    if architecture < 16777216 {
        return Turned {
            y: p.back,
            cells: Eight {
                e0: p.cell,
                e1: q.back,
                e2: q.cell,
                e3: r.back,
                e4: r.cell,
                e5: r.on,
                e6: z.e6,
                e7: z.e7,
            },
        };
    }
    let s = through_at::<3>(
        k.k3,
        Given {
            x: r.on,
            z0: z.e6,
            z1: z.e7,
            a0: a.e6,
            a1: a.e7,
        },
    );
    Turned {
        y: p.back,
        cells: Eight {
            e0: p.cell,
            e1: q.back,
            e2: q.cell,
            e3: r.back,
            e4: r.cell,
            e5: s.back,
            e6: s.cell,
            e7: s.on,
        },
    }
}
