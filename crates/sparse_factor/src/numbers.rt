//! Numbers of classes. A class that has none has 0.

use std::alloc::{AllocError, Global};

/// The number of a class.
pub fn number_at(numbers: &[i128], class: u32) -> i128 {
    match numbers.get(class as usize) {
        Some(z) => *z,
        None => 0,
    }
}

/// Gives a class its number.
pub fn put_at(numbers: &mut [i128], class: u32, z: i128) {
    if (class as usize) < numbers.len() {
        numbers[class as usize] = z;
    }
}

/// Adds to the number of a class.
pub fn add_at(numbers: &mut [i128], class: u32, z: i128) {
    if (class as usize) < numbers.len() {
        numbers[class as usize] = numbers[class as usize].wrapping_add(z);
    }
}

/// A copy of the numbers.
pub fn copy_of(alloc: Global, numbers: &[i128]) -> Result<Vec<i128>, AllocError> {
    let mut copy = Vec::with_capacity(alloc, numbers.len())?;
    for z in numbers {
        copy.push(*z)?;
    }
    Ok(copy)
}
