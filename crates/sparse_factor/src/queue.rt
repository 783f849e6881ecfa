//! Which class is eliminated next: one of least degree.

use std::alloc::{AllocError, Global};

/// The degree of each class, and for each degree classes that had it when they were put there. A class that has another degree
/// by now is passed over.
#[derive(Debug, Drop)]
pub struct Queue {
    degrees: Vec<usize>,
    classes: Vec<Vec<u32>>,
}

/// Takes out classes up to one that has this degree.
fn take_of_degree(classes: &mut Vec<u32>, degrees: &mut [usize], degree: usize) -> Option<u32> {
    while let Some(class) = classes.pop() {
        let at = class as usize;
        if at < degrees.len() && degrees[at] == degree {
            degrees[at] = usize::MAX;
            return Some(class);
        }
    }
    None
}

impl Queue {
    /// A queue of none of so many classes.
    pub fn new(alloc: Global, classes: usize) -> Result<Queue, AllocError> {
        let mut buckets = Vec::new(alloc);
        for _degree in 0..classes {
            buckets.push(Vec::new(alloc))?;
        }
        Ok(Queue {
            degrees: vec![in alloc; usize::MAX; classes]?,
            classes: buckets,
        })
    }

    /// The degree of a class that is in the queue.
    pub fn degree(&self, class: u32) -> usize {
        match self.degrees.get(class as usize) {
            Some(degree) => *degree,
            None => 0,
        }
    }

    /// Puts a class in by its degree.
    pub fn put(&mut self, class: u32, degree: usize) -> Result<(), AllocError> {
        let degree = degree.min(self.classes.len().saturating_sub(1));
        if (class as usize) < self.degrees.len() && degree < self.classes.len() {
            self.degrees[class as usize] = degree;
            self.classes[degree].push(class)?;
        }
        Ok(())
    }

    /// Takes out a class of least degree, if there is one.
    pub fn take(&mut self) -> Option<u32> {
        for degree in 0..self.classes.len() {
            let found = take_of_degree(&mut self.classes[degree], &mut self.degrees, degree);
            if found.is_some() {
                return found;
            }
        }
        None
    }
}
