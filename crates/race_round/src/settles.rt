//! The settling of all ends after a round.
ghost use Rattle.std.specs.Prelude.{◌≡◌, ◌≤◌, ◌<◌, length, is_ok, slice_index_or};
ghost use Rattle.race_round.specs.Settling.{AreMet, CanSettle, EverySettled, PlacesSettled, RowSettled, TwoSettled};

use crate::nodes::RaceNode;
use std::alloc::AllocError;

/// Settles the ends of two nodes.
fn settle_two<C, G>(one: &mut RaceNode<C, G>, two: &mut RaceNode<C, G>) -> Result<(), AllocError>
    requires { CanSettle one.old two.old }
    ensures { TwoSettled (is_ok result) one.old two.old one.new two.new }
{
    one.ends.settle(&mut two.ends)
}

/// Settles the ends of two of the nodes.
fn settle_places<C, G>(
    nodes: &mut [RaceNode<C, G>],
    low: usize,
    high: usize,
) -> Result<(), AllocError>
    requires order { (low < high) × (high < length nodes.old) }
    requires can { (d : _) → CanSettle (slice_index_or nodes.old low d) (slice_index_or nodes.old high d) }
    ensures { PlacesSettled (is_ok result) low high nodes.old nodes.new }
{
    let (front, back) = nodes.split_at_mut(high);
    let one = &mut front[low];
    let two = &mut back[0];
    settle_two(one, two)
}

/// Settles the ends of a node with those of all nodes before it. It answers false where memory is wanting for some of them.
fn settle_row<C, G>(nodes: &mut [RaceNode<C, G>], high: usize) -> bool
    requires met { AreMet nodes.old }
    requires high { high < length nodes.old }
    ensures { RowSettled result high high nodes.old nodes.new }
{
    let mut ok = true;
    for low in 0..high {
        ok &= settle_places(nodes, low, high).is_ok();
    }
    ok
}

/// Settles the ends of every two nodes. It answers false where memory is wanting for some of them.
pub(crate) fn settle_all<C, G>(nodes: &mut [RaceNode<C, G>]) -> bool
    requires { AreMet nodes.old }
    ensures { EverySettled result nodes.old nodes.new }
{
    let mut ok = true;
    for high in 0..nodes.len() {
        ok &= settle_row(nodes, high);
    }
    ok
}
