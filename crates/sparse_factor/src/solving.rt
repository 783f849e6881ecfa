//! Solves with the steps of an elimination: for one right side, and for several at once.

use crate::elimination::{Step, Steps};
use crate::links::Share;
use crate::numbers::{add_at, number_at, put_at};
use crate::shares::number_of;
use std::alloc::{AllocError, Global};

/// Hands a balance on by shares.
fn hand_on(shares: &[Share], numbers: &mut [i128], here: i128) {
    for share in shares {
        add_at(numbers, share.to, number_of(share.part, here));
    }
}

/// The mean of the angles of the classes that get a share.
fn mean(shares: &[Share], numbers: &[i128]) -> i128 {
    let mut sum: i128 = 0;
    for share in shares {
        sum = sum.wrapping_add(number_of(share.part, number_at(numbers, share.to)));
    }
    sum
}

/// Hands the balance of each eliminated class to others.
fn hand_all_on(steps: &Steps, numbers: &mut [i128]) {
    for step in &steps.steps {
        let here = number_at(numbers, step.class);
        if here != 0 {
            hand_on(steps.shares_of(step), numbers, here);
        }
    }
}

/// The angles of all eliminated classes, of the last first.
fn take_all_back(steps: &Steps, numbers: &mut [i128], places: i64) {
    for step in steps.steps.iter().rev() {
        let own = step.weight.quotient(number_at(numbers, step.class), places);
        let angle = own.wrapping_add(mean(steps.shares_of(step), numbers));
        put_at(numbers, step.class, angle);
    }
}

/// Makes of balances in the unit of weights the angles in 2^-places, the slack's being 0.
pub fn solve(steps: &Steps, numbers: &mut [i128], slack: u32, places: i64) {
    hand_all_on(steps, numbers);
    put_at(numbers, slack, 0);
    take_all_back(steps, numbers, places);
}

/// Copies numbers.
fn copy(to: &mut [i128], from: &[i128]) {
    for (there, here) in to.iter_mut().zip(from) {
        *there = *here;
    }
}

/// Adds the shares of numbers to others.
fn add_shares(to: &mut [i128], from: &[i128], part: u64) {
    for (there, here) in to.iter_mut().zip(from) {
        *there = there.wrapping_add(number_of(part, *here));
    }
}

/// Hands balances on by shares.
fn hand_each_on(shares: &[Share], rows: &mut [Vec<i128>], here: &[i128]) {
    for share in shares {
        if (share.to as usize) < rows.len() {
            add_shares(&mut rows[share.to as usize], here, share.part);
        }
    }
}

/// Adds the means of the angles of the classes that get a share.
fn add_means(shares: &[Share], rows: &[Vec<i128>], here: &mut [i128]) {
    for share in shares {
        if (share.to as usize) < rows.len() {
            add_shares(here, &rows[share.to as usize], share.part);
        }
    }
}

/// The numbers times 2^places over the weight of a step.
fn divide(step: &Step, numbers: &mut [i128], places: i64) {
    for z in numbers.iter_mut() {
        *z = step.weight.quotient(*z, places);
    }
}

/// Copies the numbers of a class out.
fn copy_out(rows: &[Vec<i128>], class: u32, here: &mut [i128]) {
    if (class as usize) < rows.len() {
        copy(here, &rows[class as usize]);
    }
}

/// Copies the numbers of a class in.
fn copy_in(rows: &mut [Vec<i128>], class: u32, here: &[i128]) {
    if (class as usize) < rows.len() {
        copy(&mut rows[class as usize], here);
    }
}

/// Hands the balances of each eliminated class to others.
fn hand_all_each_on(steps: &Steps, rows: &mut [Vec<i128>], here: &mut [i128]) {
    for step in &steps.steps {
        copy_out(rows, step.class, here);
        hand_each_on(steps.shares_of(step), rows, here);
    }
}

/// The angles of all eliminated classes, of the last first.
fn take_all_each_back(steps: &Steps, rows: &mut [Vec<i128>], here: &mut [i128], places: i64) {
    for step in steps.steps.iter().rev() {
        copy_out(rows, step.class, here);
        divide(step, here, places);
        add_means(steps.shares_of(step), rows, here);
        copy_in(rows, step.class, here);
    }
}

/// The same as `solve` for several right sides at once: a row has the numbers of a class, one of each right side.
pub fn solve_each(
    alloc: Global,
    steps: &Steps,
    rows: &mut [Vec<i128>],
    width: usize,
    slack: u32,
    places: i64,
) -> Result<(), AllocError> {
    let mut here = vec![in alloc; 0; width]?;
    hand_all_each_on(steps, rows, &mut here);
    let none = vec![in alloc; 0; width]?;
    copy_in(rows, slack, &none);
    take_all_each_back(steps, rows, &mut here, places);
    Ok(())
}
