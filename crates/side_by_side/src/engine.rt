// The plain engine's outputs over samples: to the front of ys, as far as they fit; how many.
use fir::Fir;

fn put(y: i32, ys: &mut [i32], k: usize) -> usize {
    if ys.len() <= k {
        return k;
    }
    ys[k] = y;
    k + 1
}

pub fn give_steps(xs: &[i32], ys: &mut [i32]) -> usize {
    let mut state = Fir::new();
    let mut k: usize = 0;
    for &x in xs {
        if let Some(y) = state.decimate(x) {
            k = put(y, ys, k);
        }
    }
    k
}

pub fn give_block(xs: &[i32], ys: &mut [i32]) -> usize {
    let mut engine = Fir::new();
    engine.decimate_block(xs, ys).unwrap_or(0)
}
