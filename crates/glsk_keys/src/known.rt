//! What is known when the series of a document are read.

ghost use Rattle.std.specs.Prelude.{◌≡◌, ◌≤◌, ◌<◌, ◌^◌, length};
ghost use Rattle.fb_types.specs.GridRanges.{AreInjections};

use fb_types::Node;
use jiff::Timestamp;
use run_settings::{NodeTable, Zone};

/// The grid's nodes with the zone of each, and what the settings say.
#[derive(Drop)]
pub struct Known<'a> {
    pub nodes: &'a [Node],
    /// The zone of each node, by its place in the settings, if it is of one.
    pub homes: &'a [Option<u32>],
    /// The nodes by their codes.
    pub table: &'a NodeTable<'a>,
    pub zones: &'a [Zone],
    pub moment: Timestamp,
    pub ghost few_zones: { length zones.now < 2 ^ 32 },
    pub ghost few_nodes: { length nodes.now ≤ 4096 },
    pub ghost same_nodes: { table.now ≡ nodes.now },
    pub ghost home_of_each: { length homes.now ≡ length nodes.now },
    pub ghost injections_in_range: { AreInjections nodes.now },
}
