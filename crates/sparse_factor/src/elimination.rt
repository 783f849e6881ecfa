//! Eliminates the classes of a state, one of least degree after another.

use crate::links::{
    Link, Places, Share, add_shares, join_shares, links_of, push_shares, tidy, weight_over,
};
use crate::queue::Queue;
use crate::shares::Inverse;
use grid_laplacian::is_free;
use grid_state::State;
use std::alloc::{AllocError, Global};
use std::mem;

/// The elimination of a class: what divides by the weight of its links, and where in the list of all shares its own begin and
/// end.
#[derive(Clone, Copy, Debug)]
pub struct Step {
    pub class: u32,
    pub first: usize,
    pub end: usize,
    pub weight: Inverse,
}

/// The eliminations, in their order, and all shares.
#[derive(Debug, Drop)]
pub struct Steps {
    pub steps: Vec<Step>,
    pub shares: Vec<Share>,
}

/// A row of more links than this is tidied only when it has grown to twice its length.
const LONG: usize = 512;

/// Classes that are not eliminated yet.
#[derive(Debug, Drop)]
struct Rows {
    rows: Vec<Vec<Link>>,
    /// How long each row was when it was tidied last.
    tidied: Vec<usize>,
    places: Places,
    queue: Queue,
    slack: u32,
}

impl Steps {
    /// The shares of a step.
    pub fn shares_of(&self, step: &Step) -> &[Share] {
        if step.first <= step.end && step.end <= self.shares.len() {
            &self.shares[step.first..step.end]
        } else {
            &[]
        }
    }
}

impl Rows {
    fn new(alloc: Global, state: &State) -> Result<Rows, AllocError> {
        let classes = state.classes() as usize;
        Ok(Rows {
            rows: Vec::new(alloc),
            tidied: vec![in alloc; 0; classes]?,
            places: Places::new(alloc, classes)?,
            queue: Queue::new(alloc, classes)?,
            slack: state.slack(),
        })
    }

    /// Tidies the row of a class, and puts the class into the queue by the length of that row.
    fn settle(&mut self, class: u32) -> Result<(), AllocError> {
        let at = class as usize;
        if at < self.rows.len() && at < self.tidied.len() {
            tidy(&mut self.rows[at], &mut self.places);
            self.tidied[at] = self.rows[at].len();
            self.queue.put(class, self.rows[at].len())?;
        }
        Ok(())
    }

    /// Fills the rows: those of live classes but the slack's; all others have no links.
    fn fill(&mut self, alloc: Global, state: &State, places: u32) -> Result<(), AllocError> {
        for class in 0..state.classes() {
            if is_free(state, class) {
                self.rows.push(links_of(alloc, state.row(class), places)?)?;
                self.settle(class)?;
            } else {
                self.rows.push(Vec::new(alloc))?;
            }
        }
        Ok(())
    }

    /// Takes the row of a class.
    fn take_row(&mut self, alloc: Global, class: u32) -> Vec<Link> {
        if (class as usize) < self.rows.len() {
            mem::replace(&mut self.rows[class as usize], Vec::new(alloc))
        } else {
            Vec::new(alloc)
        }
    }

    /// Joins the classes that get a share to a row that is not tidied. Until it is, its degree is what it may be at most.
    fn lengthen(&mut self, shares: &[Share], link: Link) -> Result<(), AllocError> {
        let at = link.to as usize;
        let more = shares.len().saturating_sub(1);
        if at < self.rows.len() && more > 0 {
            push_shares(&mut self.rows[at], shares, link.to, link.weight)?;
        }
        let degree = self.queue.degree(link.to).saturating_add(more);
        self.queue.put(link.to, degree.saturating_sub(1))
    }

    /// Gives the class that a link leads to its share of the links of an eliminated class.
    fn pass_on(&mut self, shares: &[Share], link: Link) -> Result<(), AllocError> {
        let at = link.to as usize;
        if shares.len() > 1 && at < self.rows.len() && at < self.tidied.len() {
            let long = self.rows[at].len();
            if long <= LONG || long / 2 >= self.tidied[at] {
                let row = &mut self.rows[at];
                tidy(row, &mut self.places);
                join_shares(row, &mut self.places, shares, link.to, link.weight)?;
                self.tidied[at] = row.len();
                return self.queue.put(link.to, self.tidied[at]);
            }
        }
        self.lengthen(shares, link)
    }

    /// Eliminates a class.
    fn eliminate(
        &mut self,
        alloc: Global,
        steps: &mut Steps,
        class: u32,
    ) -> Result<(), AllocError> {
        let mut row = self.take_row(alloc, class);
        tidy(&mut row, &mut self.places);
        self.places.leave(class);
        let weight = Inverse::new(weight_over(&row));
        let first = steps.shares.len();
        add_shares(&mut steps.shares, &row, &weight)?;
        let step = Step {
            class,
            first,
            end: steps.shares.len(),
            weight,
        };
        for link in &row {
            if link.to != self.slack {
                self.pass_on(steps.shares_of(&step), *link)?;
            }
        }
        steps.steps.push(step)?;
        Ok(())
    }
}

/// Eliminates all live classes but the slack's. A susceptance of 1 has the weight 2^places.
pub fn steps_of(alloc: Global, state: &State, places: u32) -> Result<Steps, AllocError> {
    let mut rows = Rows::new(alloc, state)?;
    rows.fill(alloc, state, places)?;
    let mut steps = Steps {
        steps: Vec::new(alloc),
        shares: Vec::new(alloc),
    };
    for _class in 0..state.classes() {
        match rows.queue.take() {
            Some(class) => rows.eliminate(alloc, &mut steps, class)?,
            None => break,
        }
    }
    Ok(steps)
}
