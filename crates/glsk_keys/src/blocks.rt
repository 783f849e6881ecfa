//! The blocks of a key.

ghost use Rattle.std.specs.Prelude.{◌≡◌, pos, ◌≤ℤ◌, IfOk, IfSome, All, length, ⊤};
ghost use Rattle.std.specs.Option.{option_map};
ghost use Rattle.json_reading.specs.Outcome.{Gives, same};
ghost use Rattle.json_reading.specs.Here.{at_of};
ghost use Rattle.glsk_keys.specs.Document.{manual_of, chosen_of, proportional_of, weights_by, form_named, weights_of, business_named, share_of, block_of, shares_of, blocks_of};
ghost use Rattle.glsk_keys.specs.Facts.{facts_of};
ghost use Rattle.glsk_keys.specs.Sizes.{AreSmall, AreWeights, IsShare};

use crate::known::Known;
use crate::measures::{Measure, factors, total, values};
use crate::model::KeyKind;
use crate::nodes::{NodeReader, WeightReader, listed_marks, members};
use crate::scaling::{MOST, block_with};
use fb_types::Block;
use json_reading::{Here, ItemReader, ReadError, optional_array, required_array};
use std::alloc::{AllocError, Global};

/// How the weights of a block are given.
#[derive(Clone, Copy, Debug)]
pub enum Form {
    /// By a factor for each of some nodes.
    Manual,
    /// By what the nodes generate or consume.
    Proportional,
    /// The same for all nodes of the zone.
    Country,
}

/// The weights of a manual key.
#[tactic(auto, unfolding(crate::specs::Document::manual_of))]
fn manual_of(
    alloc: Global,
    known: &Known<'_>,
    zone: u32,
    at: &Here<'_, KeyKind>,
) -> Result<Vec<i128>, ReadError<KeyKind>>
    ensures weights { Gives (λ v. v.items) result (manual_of (facts_of known.now) zone (at_of at.now)) }
    ensures small { IfOk result (λ v. AreSmall v.items) }
    ensures none_below { IfOk result (λ v. AreWeights v.items) }
{
    let reader = WeightReader { known, zone };
    let listed = required_array(alloc, &reader, &mut (), at, "nodes")?;
    let weights = factors(alloc, known.nodes.len(), &listed)?;
    Ok(weights)
}

/// Which nodes a proportional key is of: those of a list, or all of the zone.
fn chosen_of(
    alloc: Global,
    known: &Known<'_>,
    zone: u32,
    places: Option<Vec<u32>>,
) -> Result<Vec<bool>, AllocError>
    ensures chosen { IfOk result (λ v. v.items ≡ chosen_of (facts_of known.now) zone (option_map (λ p. p.items) places)) }
    ensures each { IfOk result (λ v. length v.items ≡ length known.now.nodes.now) }
{
    match places {
        None => members(alloc, zone, known.homes),
        Some(places) => listed_marks(alloc, known.nodes.len(), &places),
    }
}

/// The weights of a proportional key.
#[tactic(auto, unfolding(crate::specs::Document::proportional_of))]
fn proportional_of(
    alloc: Global,
    known: &Known<'_>,
    zone: u32,
    measure: Measure,
    at: &Here<'_, KeyKind>,
) -> Result<Vec<i128>, ReadError<KeyKind>>
    ensures weights { Gives (λ v. v.items) result (proportional_of (facts_of known.now) zone measure (at_of at.now)) }
    ensures small { IfOk result (λ v. AreSmall v.items) }
    ensures none_below { IfOk result (λ v. AreWeights v.items) }
{
    let reader = NodeReader { known, zone };
    let places = optional_array(alloc, &reader, &mut (), at, "nodes")?;
    let chosen = chosen_of(alloc, known, zone, places)?;
    let weights = values(alloc, measure, &chosen, known.nodes)?;
    Ok(weights)
}

fn form_named(word: &str) -> Option<Form>
    ensures { result ≡ form_named word.now }
{
    match word {
        "manual" => Some(Form::Manual),
        "proportional" => Some(Form::Proportional),
        "country" => Some(Form::Country),
        _ => None,
    }
}

fn weights_by(
    alloc: Global,
    known: &Known<'_>,
    zone: u32,
    measure: Measure,
    form: Form,
    at: &Here<'_, KeyKind>,
) -> Result<Vec<i128>, ReadError<KeyKind>>
    ensures weights { Gives (λ v. v.items) result (weights_by (facts_of known.now) zone measure form (at_of at.now)) }
    ensures small { IfOk result (λ v. AreSmall v.items) }
    ensures none_below { IfOk result (λ v. AreWeights v.items) }
{
    match form {
        Form::Manual => manual_of(alloc, known, zone, at),
        Form::Proportional => proportional_of(alloc, known, zone, measure, at),
        Form::Country => {
            let chosen = members(alloc, zone, known.homes)?;
            let weights = values(alloc, Measure::One, &chosen, known.nodes)?;
            Ok(weights)
        }
    }
}

#[tactic(auto, using(json_reading::proofs::Refused::refused), unfolding(crate::specs::Document::weights_of))]
fn weights_of(
    alloc: Global,
    known: &Known<'_>,
    zone: u32,
    measure: Measure,
    at: &Here<'_, KeyKind>,
) -> Result<Vec<i128>, ReadError<KeyKind>>
    ensures weights { Gives (λ v. v.items) result (weights_of (facts_of known.now) zone measure (at_of at.now)) }
    ensures small { IfOk result (λ v. AreSmall v.items) }
    ensures none_below { IfOk result (λ v. AreWeights v.items) }
{
    let word = at.required_text(alloc, "kind")?;
    let form = at.found_or(alloc, "kind", KeyKind::WrongType, form_named(word))?;
    weights_by(alloc, known, zone, measure, form, at)
}

fn business_named(word: &str) -> Option<Measure>
    ensures { result ≡ business_named word.now }
{
    match word {
        "GSK" => Some(Measure::Generation),
        "LSK" => Some(Measure::Load),
        _ => None,
    }
}

/// A share, in 10^-8: a millionth of a per cent.
#[tactic(auto, using(json_reading::proofs::Refused::refused), unfolding(crate::specs::Document::share_of))]
fn share_of(alloc: Global, at: &Here<'_, KeyKind>) -> Result<i64, ReadError<KeyKind>>
    ensures share { Gives same result (share_of (at_of at.now)) }
    ensures small { IfOk result IsShare }
{
    let share = at.required_decimal(alloc, "share")?.millionths;
    if share < 0 {
        return Err(at.fault_in(alloc, "share", KeyKind::NegativeFactor));
    }
    if share > 100_000_000 {
        return Err(at.fault_in(alloc, "share", KeyKind::OutOfRange));
    }
    Ok(share as i64)
}

/// Reads the blocks of a series.
#[derive(Drop)]
struct BlockReader<'a> {
    known: &'a Known<'a>,
    zone: u32,
}

impl<'a> ItemReader for BlockReader<'a> {
    type Item = Block;

    type Kind = KeyKind;

    type Index = ();

    ghost reads = { λ r. block_of (facts_of r.known.now) r.zone };

    ghost keeps = { λ _ read. All (λ b. IsShare b.share) read };

    #[tactic(auto, using(json_reading::proofs::Refused::refused), unfolding(crate::specs::Document::block_of))]
    fn read(
        &self,
        alloc: Global,
        index: &mut (),
        before: &[Block],
        at: &Here<'_, KeyKind>,
    ) -> Result<Option<Block>, ReadError<KeyKind>> {
        let word = at.required_text(alloc, "business")?;
        let measure = at.found_or(alloc, "business", KeyKind::WrongType, business_named(word))?;
        let share = share_of(alloc, at)?;
        let weights = weights_of(alloc, self.known, self.zone, measure, at)?;
        let total = total(&weights);
        if total <= 0 {
            return Err(at.fault(alloc, KeyKind::EmptyKey));
        }
        if total > MOST {
            return Err(at.fault(alloc, KeyKind::OutOfRange));
        }
        let block = block_with(alloc, share, total, &weights)?;
        Ok(Some(block))
    }
}

fn shares(blocks: &[Block]) -> i128
    requires { All (λ b. IsShare b.share) blocks.now }
    ensures { result ≡ shares_of blocks.now }
{
    let mut shares: i128 = 0;
    for block in blocks {
        shares += i128::from(block.share);
    }
    shares
}

/// The blocks of a series.
#[tactic(auto, using(json_reading::proofs::Refused::refused), unfolding(crate::specs::Document::blocks_of))]
pub fn blocks_of(
    alloc: Global,
    known: &Known<'_>,
    zone: u32,
    at: &Here<'_, KeyKind>,
) -> Result<Vec<Block>, ReadError<KeyKind>>
    ensures { Gives (λ v. v.items) result (blocks_of (facts_of known.now) zone (at_of at.now)) }
{
    let count = at.required_length(alloc, "blocks")?;
    if count == 0 {
        return Err(at.fault_in(alloc, "blocks", KeyKind::Missing));
    }
    if count > 4 {
        return Err(at.fault_in(alloc, "blocks", KeyKind::TooMany));
    }
    let reader = BlockReader { known, zone };
    let blocks = required_array(alloc, &reader, &mut (), at, "blocks")?;
    if shares(&blocks) != 100_000_000 {
        return Err(at.fault_in(alloc, "blocks", KeyKind::SharesNot100));
    }
    Ok(blocks)
}
