//! What angles leave of a right side, in a finer unit. All sums wrap: what is left is small, however large they are.

use crate::numbers::number_at;
use crate::shares::shifted;
use grid_laplacian::is_free;
use grid_state::{Edge, State};
use std::alloc::{AllocError, Global};

/// What is left of a right side, and whether it is much.
#[derive(Debug, Drop)]
pub struct Remainder {
    pub numbers: Vec<i128>,
    pub is_large: bool,
}

/// The susceptance times the difference of the angles along each branch of a class's row.
fn drops(row: &[Edge], angles: &[i128], here: i128) -> i128 {
    let mut sum: i128 = 0;
    for edge in row {
        let apart = here.wrapping_sub(number_at(angles, edge.to));
        sum = sum.wrapping_add(i128::from(edge.b).wrapping_mul(apart));
    }
    sum
}

/// What angles of so many binary places leave of a right side, with as many places. It is large where it is more than the
/// susceptance of a class times 2^enough of the last place.
pub fn remainder_of(
    alloc: Global,
    state: &State,
    side: &[i128],
    angles: &[i128],
    places: i64,
    enough: i64,
) -> Result<Remainder, AllocError> {
    let mut numbers = Vec::with_capacity(alloc, state.classes() as usize)?;
    let mut is_large = false;
    for class in 0..state.classes() {
        if is_free(state, class) {
            let fed = shifted(number_at(side, class), places);
            let drop = drops(state.row(class), angles, number_at(angles, class));
            let left = fed.wrapping_sub(drop);
            let most = shifted(state.susceptance_at(class), enough).unsigned_abs();
            is_large = is_large || left.unsigned_abs() > most;
            numbers.push(left)?;
        } else {
            numbers.push(0)?;
        }
    }
    Ok(Remainder { numbers, is_large })
}
