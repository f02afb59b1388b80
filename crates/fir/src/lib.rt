// A filter that an inspector can read (02, A6): the decimator of order 3, M = 1, R = 64, as 190 weights on the last
// 190 inputs. All sums are modulo 2^32. `Fir::new` starts from zeros, `decimate` takes one input, `decimate_block` a
// slice of them; no state is bad. Callers cite specs/Calls (each answer), which leans on specs/Ways (the table's rule)
// and specs/Weights (what an output is). specs/Equal says that the decimator's own calls give the same outputs.

#![tactic(auto)]

ghost use Rattle.std.specs.Prelude.{◌≡◌, ◌<◌, ◌≤◌, pos, length, get_or, take};
ghost use Rattle.sums.specs.Runs.{needed, over};
ghost use Rattle.fir.specs.Ways.{Table};
ghost use Rattle.fir.specs.Weights.{weighed};
ghost use Rattle.fir.specs.Calls.{fresh, stepped_of, decimated_of, written_of};
ghost use Rattle.fir.specs.Inner.{kept, outputs_from};

use blocks::Refusal;
use shape::runs::low_rate;

// Entry n, in row n / 10 at place n % 10, is the number of ways to write n as a sum of three numbers from 0 to 63.
// The entries total 262,144.
const TAPS: [[u32; 10]; 19] = [
    [1, 3, 6, 10, 15, 21, 28, 36, 45, 55],
    [66, 78, 91, 105, 120, 136, 153, 171, 190, 210],
    [231, 253, 276, 300, 325, 351, 378, 406, 435, 465],
    [496, 528, 561, 595, 630, 666, 703, 741, 780, 820],
    [861, 903, 946, 990, 1035, 1081, 1128, 1176, 1225, 1275],
    [1326, 1378, 1431, 1485, 1540, 1596, 1653, 1711, 1770, 1830],
    [1891, 1953, 2016, 2080, 2142, 2202, 2260, 2316, 2370, 2422],
    [2472, 2520, 2566, 2610, 2652, 2692, 2730, 2766, 2800, 2832],
    [2862, 2890, 2916, 2940, 2962, 2982, 3000, 3016, 3030, 3042],
    [3052, 3060, 3066, 3070, 3072, 3072, 3070, 3066, 3060, 3052],
    [3042, 3030, 3016, 3000, 2982, 2962, 2940, 2916, 2890, 2862],
    [2832, 2800, 2766, 2730, 2692, 2652, 2610, 2566, 2520, 2472],
    [2422, 2370, 2316, 2260, 2202, 2142, 2080, 2016, 1953, 1891],
    [1830, 1770, 1711, 1653, 1596, 1540, 1485, 1431, 1378, 1326],
    [1275, 1225, 1176, 1128, 1081, 1035, 990, 946, 903, 861],
    [820, 780, 741, 703, 666, 630, 595, 561, 528, 496],
    [465, 435, 406, 378, 351, 325, 300, 276, 253, 231],
    [210, 190, 171, 153, 136, 120, 105, 91, 78, 66],
    [55, 45, 36, 28, 21, 15, 10, 6, 3, 1],
];

// The engine: the last 190 inputs, the newest first, and how many inputs come before the one that gives the next
// output. Whatever these hold, it is a state.
#[derive(Clone, Copy, Debug, PartialEq, Eq)]
pub struct Fir {
    pub cells: [i32; 190],
    pub countdown: u32,
}

// The whole table, which `weigh` takes once for an output.
fn table() -> [[u32; 10]; 19]
    ensures { Table result }
{
    TAPS
}

// The input n places back when the first `taken` of input have come: one of them, or one that was kept before.
fn input_back(cells: &[i32; 190], input: &[i32], taken: usize, n: usize) -> i32
    requires { (taken ≤ length input.now) × (n < 190) }
    ensures { result ≡ get_or (kept cells.now (take taken input.now)) n (pos 0) }
{
    if n < taken {
        return input[taken - 1 - n];
    }
    cells[n - taken]
}

// The output when the first `taken` of input have come: the last 190 inputs, each times its entry of the table, added
// up, row by row of the table.
fn weigh(cells: &[i32; 190], input: &[i32], taken: usize) -> i32
    requires { taken ≤ length input.now }
    ensures { result ≡ weighed (kept cells.now (take taken input.now)) }
{
    let taps = table();
    let mut sum: i32 = 0;
    for row in 0..19 {
        for place in 0..10 {
            let tap = taps[row][place].cast_signed();
            let x = input_back(cells, input, taken, row * 10 + place);
            sum = sum.wrapping_add(tap.wrapping_mul(x));
        }
    }
    sum
}

// The last 190 inputs when all of input has come.
fn keep(cells: &[i32; 190], input: &[i32]) -> [i32; 190]
    ensures { result ≡ kept cells.now input.now }
{
    let mut last = [0i32; 190];
    for n in 0..190 {
        last[n] = input_back(cells, input, input.len(), n);
    }
    last
}

// The outputs of a block, `need` of them, to the front of out; the rest of out stays.
fn weigh_each(cells: &[i32; 190], countdown: usize, input: &[i32], out: &mut [i32], need: usize)
    requires { (need ≡ needed (length input.now) countdown 63) × (need ≤ length out.old) }
    ensures { out.new ≡ over (outputs_from cells.now countdown input.now) out.old }
{
    for k in 0..need {
        out[k] = weigh(cells, input, countdown + k * 64 + 1);
    }
}

impl Fir {
    // The engine before its first input: zeros, and an output is due.
    pub fn new() -> Fir
        ensures { result ≡ fresh }
    {
        Fir {
            cells: [0i32; 190],
            countdown: 0,
        }
    }

    // Takes the input x. Gives an output where the countdown is 0, and then the next at the 64th input after it.
    pub fn decimate(&mut self, x: i32) -> Option<i32>
        ensures { (result ≡ (stepped_of self.old x).out) × (self.new ≡ (stepped_of self.old x).state) }
    {
        let before = self.cells;
        let input = [x];
        self.cells = keep(&before, &input);
        if self.countdown != 0 {
            self.countdown -= 1;
            return None;
        }
        let y = weigh(&before, &input, 1);
        self.countdown = 63;
        Some(y)
    }

    // Takes the inputs in turn and writes their outputs to the front of out; the rest of out stays. It answers how
    // many are written. Refused with 20 where out is shorter than the block needs; a refused block changes nothing.
    pub fn decimate_block(&mut self, input: &[i32], out: &mut [i32]) -> Result<usize, Refusal>
        ensures { (result ≡ (decimated_of self.old input.now out.old).wrote)
            × (self.new ≡ (decimated_of self.old input.now out.old).state)
            × (out.new ≡ written_of self.old input.now out.old) }
    {
        let before = self.cells;
        let countdown = self.countdown as usize;
        let need = low_rate(input.len(), self.countdown, 63);
        if out.len() < need {
            return Err(Refusal::ShortOutput);
        }
        weigh_each(&before, countdown, input, out, need);
        self.cells = keep(&before, input);
        self.countdown = (countdown + need * 64 - input.len()) as u32;
        Ok(need)
    }
}
