// The outputs of the decimator of order 3, M = 1, R = 64 over samples: to the front of ys, as far as they fit; how many.
use cic::state::Cic;

// None where the decimator would be refused.
fn fresh() -> Option<Cic<i32>> {
    match Cic::new(3, 1, 63) {
        Ok(state) => Some(state),
        Err(_) => None,
    }
}

fn put(value: i32, ys: &mut [i32], k: usize) -> usize {
    if ys.len() <= k {
        return k;
    }
    ys[k] = value;
    k + 1
}

pub fn give_steps(xs: &[i32], ys: &mut [i32]) -> usize {
    let Some(first) = fresh() else {
        return 0;
    };
    let mut state = first;
    let mut k: usize = 0;
    for &x in xs {
        if let Ok(Some(y)) = state.decimate(x) {
            k = put(y.value, ys, k);
        }
    }
    k
}

pub fn give_block(xs: &[i32], ys: &mut [i32]) -> usize {
    let Some(first) = fresh() else {
        return 0;
    };
    let mut state = first;
    match state.decimate_block(xs, ys) {
        Ok(written) => written.count,
        Err(_) => 0,
    }
}
