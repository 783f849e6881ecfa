//! The right sides of a grid state: what its classes are fed with, at the reference and by the blocks of shift keys.
#![tactic(auto)]

ghost use Rattle.std.specs.Prelude.{◌≡◌, ℕ, ◌*◌, ◌^◌, ◌<◌, ◌≤◌, pos, ◌+ℤ◌, ◌*ℤ◌, ◌≤ℤ◌, length, All, IfOk, FitsSigned};
ghost use Rattle.std.specs.Int.{w128};
ghost use Rattle.whole_laws.specs.Sums.{at, IsWithin};
ghost use Rattle.grid_state.specs.GridState.{classes_of};
ghost use Rattle.grid_state.specs.Split.{injection_of};
ghost use Rattle.grid_laplacian.specs.Ranges.{IsOfGrid, IsInRange};
ghost use Rattle.grid_laplacian.specs.Sizes.{size_of};
ghost use Rattle.security.specs.Balances.{of_class, injection_at, shift_of, shifts_at, weight_at, reference_side, block_side};
ghost use Rattle.zonal_factors.specs.FactorSpans.{IsBlock};
ghost use Rattle.right_sides.specs.Raised.{IsRaised, only_at};

use fb_types::{Block, Branch, Grid, Items, Node};
use grid_state::State;
use std::alloc::{AllocError, Global};

/// The number of 10^-13 W in a watt.
const WATT: i128 = 10_000_000_000_000;

/// The number of 10^-13 W in a nanowatt.
const NANOWATT: i128 = 10_000;

/// Adds a number at a class.
fn add_at(sums: &mut [i128], class: u32, number: i128)
    requires class { class < length sums.old }
    requires fits { FitsSigned w128 (at sums.old class +ℤ number) }
    ensures { IsRaised sums.old sums.new (only_at class number) }
{
    sums[class as usize] += number;
}

/// What a node feeds in, in 10^-13 W.
fn power(node: &Node) -> i128
    ensures value { result ≡ pos (10 ^ 13) *ℤ injection_of node.now }
    ensures within { IsWithin (10 ^ 13 * 2 ^ 64) result }
{
    WATT * (-i128::from(node.load) - i128::from(node.generation))
}

/// Adds what each node feeds in, in 10^-13 W, at its class.
fn add_powers(sums: &mut [i128], state: &State, grid: &Grid)
    requires of_grid { IsOfGrid grid.now state.now }
    requires each_class { length sums.old ≡ classes_of state.now }
    requires small { All (λ z. IsWithin 0 z) sums.old }
    ensures raised { IsRaised sums.old sums.new (λ c. pos (10 ^ 13) *ℤ of_class state.now (injection_at grid.now) c) }
    ensures small { All (λ z. IsWithin (4096 * (10 ^ 13 * 2 ^ 64)) z) sums.new }
{
    state.sound();
    let nodes = grid.nodes.as_slice();
    for number in 0..nodes.len() {
        add_at(sums, state.class_of(number as u32), power(&nodes[number]));
    }
}

/// The susceptance times the phase shift of a branch, in 10^-13 W.
fn shift(branch: &Branch) -> i128
    requires some { pos 1 ≤ℤ branch.now.b }
    requires small { branch.now.b ≤ℤ pos (10 ^ 11) }
    ensures value { result ≡ pos (10 ^ 4) *ℤ (branch.now.b *ℤ branch.now.phi) }
    ensures within { IsWithin (10 ^ 15 * 2 ^ 63) result }
{
    NANOWATT * (i128::from(branch.b) * i128::from(branch.phi))
}

/// Takes the phase shift of a branch, in 10^-13 W, from the class of its first node and adds it at that of its second.
fn add_shift(sums: &mut [i128], state: &State, branch: &Branch)
    requires from { branch.now.from < length state.now.class_of }
    requires to { branch.now.to < length state.now.class_of }
    requires b_some { pos 1 ≤ℤ branch.now.b }
    requires b_small { branch.now.b ≤ℤ pos (10 ^ 11) }
    requires each_class { length sums.old ≡ classes_of state.now }
    requires small { All (λ z. IsWithin (16 * 10 ^ 37) z) sums.old }
    ensures raised { IsRaised sums.old sums.new (λ c. pos (10 ^ 4) *ℤ shift_of state.now branch.now c) }
    ensures within { (c : ℕ) → IsWithin (10 ^ 15 * 2 ^ 63) (pos (10 ^ 4) *ℤ shift_of state.now branch.now c) }
{
    state.sound();
    let shift = shift(branch);
    add_at(sums, state.class_of(branch.from), -shift);
    add_at(sums, state.class_of(branch.to), shift);
}

/// The same for each branch that carries.
fn add_shifts(sums: &mut [i128], state: &State, grid: &Grid)
    requires of_grid { IsOfGrid grid.now state.now }
    requires each_class { length sums.old ≡ classes_of state.now }
    requires small { All (λ z. IsWithin (4096 * (10 ^ 13 * 2 ^ 64)) z) sums.old }
    ensures { IsRaised sums.old sums.new (λ c. pos (10 ^ 4) *ℤ shifts_at state.now grid.now c) }
{
    let branches = grid.branches.as_slice();
    for number in 0..branches.len() {
        let branch = &branches[number];
        if state.carries(number as u32) {
            add_shift(sums, state, branch);
        }
    }
}

/// Adds each weight of a block, as a power in 10^-13 W, at the class of its node.
fn add_weights(sums: &mut [i128], state: &State, block: &Block)
    requires nodes { All (λ w. w.node < length state.now.class_of) block.now.weights }
    requires block { IsBlock block.now }
    requires each_class { length sums.old ≡ classes_of state.now }
    requires small { All (λ z. IsWithin 0 z) sums.old }
    ensures { IsRaised sums.old sums.new (λ c. pos (10 ^ 13) *ℤ of_class state.now (weight_at block.now) c) }
{
    state.sound();
    let weights = block.weights.as_slice();
    for weight in weights {
        add_at(
            sums,
            state.class_of(weight.node),
            WATT * i128::from(weight.weight),
        );
    }
}

/// The balance of each class at the reference, in 10^-13 W: 10^13 times what its nodes feed in, which is −load − generation in
/// watts, and 10^4 times what the phase shifts of the carrying branches add, −b·φ at the class of the first node and b·φ at that
/// of the second, in nanowatts.
///
/// The state is one of the grid and within the range rule. The numbers add up to at most 2·10^25 in size.
pub fn reference_side(alloc: Global, state: &State, grid: &Grid) -> Result<Items<i128>, AllocError>
    requires of_grid { IsOfGrid grid.now state.now }
    requires range { IsInRange grid.now state.now }
    ensures value { IfOk result (λ p. p ≡ reference_side state.now grid.now) }
    ensures size { IfOk result (λ p. size_of p ≤ 2 * 10 ^ 25) }
{
    state.sound();
    let mut sums = vec![in alloc; 0; state.classes() as usize]?;
    add_powers(&mut sums, state, grid);
    add_shifts(&mut sums, state, grid);
    Ok(Items::from_vec(sums))
}

/// The weights of a block of a shift key, added up for each class, as powers in 10^-13 W: 10^13 times the sum of the weights.
///
/// The weights stand at nodes of the state. None is negative, and they add up to the total of the block, at most 10^12, so the
/// numbers add up to at most 10^25.
pub fn block_side(alloc: Global, state: &State, block: &Block) -> Result<Items<i128>, AllocError>
    requires nodes { All (λ w. w.node < length state.now.class_of) block.now.weights }
    requires block { IsBlock block.now }
    ensures value { IfOk result (λ p. p ≡ block_side state.now block.now) }
    ensures size { IfOk result (λ p. size_of p ≤ 10 ^ 25) }
{
    state.sound();
    let mut sums = vec![in alloc; 0; state.classes() as usize]?;
    add_weights(&mut sums, state, block);
    Ok(Items::from_vec(sums))
}
