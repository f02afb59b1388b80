// Blocks of steps through two and through eight sections.
ghost use Rattle.std.specs.Prelude.{◌≡◌, length};
ghost use Rattle.blocks.specs.Blocks.{Blocked};
ghost use Rattle.sections.specs.Sections.{chain_answer, chain_next};
ghost use Rattle.sections.specs.Lent.{list_of, Ran};
ghost use Rattle.sections.specs.Pairs.{pair_code, codes_of};

use crate::pairs::{Codes, Eight, codes_of, pair_code};
use crate::turns::{turn_eight, turn_two};
use blocks::Refusal;

// An array's numbers as a struct, which the compiler keeps in registers.
fn eight_of(l: [i32; 8]) -> Eight
    ensures { list_of result ≡ l }
{
    let [e0, e1, e2, e3, e4, e5, e6, e7] = l;
    Eight {
        e0,
        e1,
        e2,
        e3,
        e4,
        e5,
        e6,
        e7,
    }
}

// And back.
fn array_of(e: Eight) -> [i32; 8]
    ensures { result ≡ list_of e }
{
    [e.e0, e.e1, e.e2, e.e3, e.e4, e.e5, e.e6, e.e7]
}

// The steps of a block in turn through the two sections of a pair's number: the cells after them.
fn two(architecture: u32, code: u32, a: Eight, z: Eight, xs: &[i32], ys: &mut [i32]) -> Eight
    requires { (code ≡ pair_code architecture) × (length xs.now ≡ length ys.old) }
    ensures { Ran 2 architecture a z xs.now result ys.new }
{
    let mut cells = z;
    for (i, &x) in xs.iter().enumerate() {
        let t = turn_two(architecture, code, a, cells, x);
        ys[i] = t.y;
        cells = t.cells;
    }
    cells
}

// The same, once for each pair of the adapters A to D, and for each of them before a section that passes all on: in its arm the
// number is known, so that the loop tells no section apart at run time.
fn two_by_arm(architecture: u32, code: u32, a: Eight, z: Eight, xs: &[i32], ys: &mut [i32]) -> Eight
    requires { (code ≡ pair_code architecture) × (length xs.now ≡ length ys.old) }
    ensures { Ran 2 architecture a z xs.now result ys.new }
{
    match code {
        1 => two(architecture, code, a, z, xs, ys),
        2 => two(architecture, code, a, z, xs, ys),
        3 => two(architecture, code, a, z, xs, ys),
        4 => two(architecture, code, a, z, xs, ys),
        7 => two(architecture, code, a, z, xs, ys),
        8 => two(architecture, code, a, z, xs, ys),
        9 => two(architecture, code, a, z, xs, ys),
        10 => two(architecture, code, a, z, xs, ys),
        13 => two(architecture, code, a, z, xs, ys),
        14 => two(architecture, code, a, z, xs, ys),
        15 => two(architecture, code, a, z, xs, ys),
        16 => two(architecture, code, a, z, xs, ys),
        19 => two(architecture, code, a, z, xs, ys),
        20 => two(architecture, code, a, z, xs, ys),
        21 => two(architecture, code, a, z, xs, ys),
        22 => two(architecture, code, a, z, xs, ys),
        25 => two(architecture, code, a, z, xs, ys),
        26 => two(architecture, code, a, z, xs, ys),
        27 => two(architecture, code, a, z, xs, ys),
        28 => two(architecture, code, a, z, xs, ys),
        _ => two(architecture, code, a, z, xs, ys),
    }
}

// The steps of a block in turn through eight sections: the cells after them.
fn eight(architecture: u32, k: Codes, a: Eight, z: Eight, xs: &[i32], ys: &mut [i32]) -> Eight
    requires { (k ≡ codes_of architecture) × (length xs.now ≡ length ys.old) }
    ensures { Ran 8 architecture a z xs.now result ys.new }
{
    let mut cells = z;
    for (i, &x) in xs.iter().enumerate() {
        let t = turn_eight(architecture, k, a, cells, x);
        ys[i] = t.y;
        cells = t.cells;
    }
    cells
}

// Takes the inputs in turn through the two sections of the lowest nibbles, writes their outputs and leaves the cells as they are after them.
// `Lengths` where the slices differ in length: nothing is written or changed.
pub fn run_two(
    architecture: u32,
    a: &[i32; 8],
    z: &mut [i32; 8],
    xs: &[i32],
    ys: &mut [i32],
) -> Result<(), Refusal>
    ensures { Blocked 0 (chain_answer 2 architecture a.now) (chain_next 2 architecture a.now)
        z.old xs.now ys.old z.new result ys.new }
{
    if xs.len() != ys.len() {
        return Err(Refusal::Lengths);
    }
    let code = pair_code(architecture);
    let coefficients = eight_of(*a);
    let cells = eight_of(*z);
    let after = two_by_arm(architecture, code, coefficients, cells, xs, ys);
    *z = array_of(after);
    Ok(())
}

// The same through the eight sections of all nibbles.
pub fn run_eight(
    architecture: u32,
    a: &[i32; 8],
    z: &mut [i32; 8],
    xs: &[i32],
    ys: &mut [i32],
) -> Result<(), Refusal>
    ensures { Blocked 0 (chain_answer 8 architecture a.now) (chain_next 8 architecture a.now)
        z.old xs.now ys.old z.new result ys.new }
{
    if xs.len() != ys.len() {
        return Err(Refusal::Lengths);
    }
    let k = codes_of(architecture);
    let coefficients = eight_of(*a);
    let cells = eight_of(*z);
    let after = eight(architecture, k, coefficients, cells, xs, ys);
    *z = array_of(after);
    Ok(())
}
