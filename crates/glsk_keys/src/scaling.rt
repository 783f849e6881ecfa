//! Blocks, with their weights scaled by a power of ten.

ghost use Rattle.std.specs.Prelude.{◌≡◌, ◌≤◌, ◌^◌, ℤ, pos, ◌*ℤ◌, ◌≤ℤ◌, length, IfOk, IsTrue, ◌↔◌, FitsSigned};
ghost use Rattle.whole_laws.specs.Sums.{IsWithin};
ghost use Rattle.std.specs.Int.{w64};
ghost use Rattle.glsk_keys.specs.Measures.{total_of};
ghost use Rattle.glsk_keys.specs.Scales.{IsScale};
ghost use Rattle.glsk_keys.specs.Scaling.{power_for, weights_from, block_with};
ghost use Rattle.glsk_keys.specs.Sizes.{AreWeights};

use fb_types::{Block, Items, Weight};
use std::alloc::{AllocError, Global};

/// The greatest sum of a block's weights.
pub const MOST: i128 = 1_000_000_000_000;

/// Whether the sum, times the power, is at most the greatest one.
fn is_scaled(power: i128, total: i128) -> bool
    requires power { IsWithin (10 ^ 12) power }
    requires total { IsWithin (10 ^ 12) total }
    ensures { IsTrue result ↔ ((power *ℤ total) ≤ℤ pos (10 ^ 12)) }
{
    power * total <= MOST
}

/// The greatest power of ten for which the sum, times the power, is at most the greatest one.
fn power_for(total: i128) -> i128
    requires some { pos 1 ≤ℤ total }
    requires few { total ≤ℤ pos (10 ^ 12) }
    ensures power { result ≡ power_for total }
    ensures scale { IsScale total result }
{
    let mut power: i128 = 1_000_000_000_000;
    for step in 0..12_usize {
        if is_scaled(power, total) {
            return power;
        }
        power /= 10;
    }
    power
}

/// A weight times the power.
fn scaled_weight(power: i128, weight: i128) -> i64
    requires { FitsSigned w64 (power *ℤ weight) }
    ensures { result ≡ power *ℤ weight }
{
    (power * weight) as i64
}

/// The weights of the nodes, times a power: nodes without weight are left out.
fn weights(alloc: Global, power: i128, values: &[i128]) -> Result<Vec<Weight>, AllocError>
    requires few { length values.now ≤ 4096 }
    requires some { pos 1 ≤ℤ power }
    requires weights { AreWeights values.now }
    requires small { (power *ℤ total_of values.now) ≤ℤ pos (10 ^ 12) }
    ensures { IfOk result (λ v. v.items ≡ weights_from 0 power values.now) }
{
    let mut weights = Vec::new(alloc);
    for (place, value) in values.iter().enumerate() {
        if *value <= 0 {
            continue;
        }
        weights.push(Weight {
            node: place as u32,
            weight: scaled_weight(power, *value),
        })?;
    }
    Ok(weights)
}

/// The block with this share and these weights of all nodes, whose sum is `total`.
#[tactic(auto, unfolding(crate::specs::Scaling::block_with))]
pub fn block_with(
    alloc: Global,
    share: i64,
    total: i128,
    values: &[i128],
) -> Result<Block, AllocError>
    requires few { length values.now ≤ 4096 }
    requires weights { AreWeights values.now }
    requires total { total ≡ total_of values.now }
    requires positive { pos 1 ≤ℤ total }
    requires small { total ≤ℤ pos (10 ^ 12) }
    ensures block { IfOk result (λ b. b ≡ block_with share values.now) }
    ensures share { IfOk result (λ b. b.share ≡ share) }
{
    let power = power_for(total);
    let weights = weights(alloc, power, values)?;
    Ok(Block {
        share,
        total: scaled_weight(power, total),
        weights: Items::from_vec(weights),
    })
}
