//! Multipliers over a list of a domain, cited by the numbers of the table.

ghost use Rattle.std.specs.Prelude.{◌≡◌, length, map, All, IfOk};
ghost use Rattle.row_removal.specs.Renumbered.{renumbered_mult, renumbered, CitesNumbers, FateCites, cites_below};

use fb_certificate::Cite;
use fb_types::{Fate, Items, Mult, Multipliers};
use std::alloc::{AllocError, Global};

/// The multipliers of rows of a list, each with the number that its row has in the table. The rows of the list have
/// these numbers, in order.
fn renumbered(alloc: Global, mults: &[Mult], numbers: &[u32]) -> Result<Vec<Mult>, AllocError>
    requires { CitesNumbers (length numbers.now) mults.now }
    ensures { IfOk result (λ all. all.items ≡ map (renumbered_mult numbers.now) mults.now) }
{
    let mut all = Vec::new(alloc);
    for m in mults {
        all.push(Mult {
            row: numbers[m.row as usize - 1],
            value: m.value,
        })?;
    }
    Ok(all)
}

/// The cite of the row with this number in the table.
fn cite_of(alloc: Global, row: u32, by: &Multipliers, numbers: &[u32]) -> Result<Cite, AllocError>
    requires { CitesNumbers (length numbers.now) by.now.mults }
    ensures { IfOk result (λ cite. cite ≡ record { row = row; by = renumbered numbers.now by.now }) }
{
    let mults = renumbered(alloc, by.mults.as_slice(), numbers)?;
    Ok(Cite {
        row,
        by: Multipliers {
            mu: by.mu,
            mults: Items::from_vec(mults),
        },
    })
}

/// The cites of the rows that are removed from a list. The rows have these fates and these numbers, in order.
pub(crate) fn cites_of(
    alloc: Global,
    fates: &[Fate],
    numbers: &[u32],
) -> Result<Items<Cite>, AllocError>
    requires each { length fates.now ≡ length numbers.now }
    requires cited { All (FateCites (length numbers.now)) fates.now }
    ensures { IfOk result (λ cites. cites ≡ cites_below numbers.now fates.now (length fates.now)) }
{
    let mut cites = Vec::new(alloc);
    for (k, fate) in fates.iter().enumerate() {
        let Fate::Removed(by) = fate else {
            continue;
        };
        let cite = cite_of(alloc, numbers[k], by, numbers)?;
        cites.push(cite)?;
    }
    Ok(Items::from_vec(cites))
}
