//! How much there is in a case of so many nodes, and where.

ghost use Rattle.std.specs.Prelude.{◌≡◌, ℕ, ◌+◌, ◌<◌, ◌≤◌};
ghost use Rattle.case_maker.specs.Layout.{outages_of, elements_of, zone_at, outage_node, element_node};

/// How many contingencies there are.
pub(crate) fn outages(nodes: u32) -> u32
    requires { nodes ≤ 4096 }
    ensures { result ≡ outages_of nodes }
{
    (2 * nodes / 15).min(512)
}

/// How many monitored elements there are.
pub(crate) fn elements(nodes: u32) -> u32
    requires { nodes ≤ 4096 }
    ensures { result ≡ elements_of nodes }
{
    2 * nodes / 3
}

/// The zone of a node, from 0 to 15.
pub(crate) fn zone(nodes: u32, node: u32) -> u32
    requires few { nodes ≤ 4096 }
    requires there { node < nodes }
    ensures value { result ≡ zone_at nodes node }
    ensures small { result < 16 }
{
    16 * node / nodes
}

/// The node whose chord a contingency takes out of operation.
pub(crate) fn outage_node(nodes: u32, outage: u32) -> u32
    requires enough { 48 ≤ nodes }
    requires few { nodes ≤ 4096 }
    requires there { outage < outages_of nodes }
    ensures value { result ≡ outage_node nodes outage }
    ensures there { result < nodes }
{
    outage * (nodes / outages(nodes))
}

/// The node whose line round the ring an element monitors.
pub(crate) fn element_node(nodes: u32, element: u32) -> u32
    requires enough { 48 ≤ nodes }
    requires few { nodes ≤ 4096 }
    requires there { element < elements_of nodes }
    ensures value { result ≡ element_node nodes element }
    ensures there { result < nodes }
{
    element * nodes / elements(nodes)
}
