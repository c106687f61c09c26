ghost use Rattle.std.specs.Prelude.{◌≤◌};
ghost use Rattle.ring_links.specs.Links.{spare, SameLink};

use crate::{Link, Parcel, links};
use std::test::Fail;
use str_base::{NodeId, PartId, TxId};
use str_model::{Body, Message};

// A parcel of node 1 to node 2 with this number.
fn parcel(number: u64) -> Parcel {
    let tx = TxId {
        node: NodeId(1),
        seq: 1,
    };
    Parcel {
        stamp: 0,
        sender: NodeId(1),
        number,
        message: Message {
            sender: NodeId(1),
            receiver: NodeId(2),
            body: Body::Abort {
                tx,
                part: PartId(1),
            },
        },
    }
}

// Sends the parcels with the numbers below `count`.
fn send_all(link: &mut Link, count: u64)
    requires { count ≤ spare link.old }
    ensures { SameLink link.old link.new }
{
    for number in 0..count {
        link.send(parcel(number));
    }
}

// Whether the next parcels have these numbers, and then none comes.
fn takes(link: &mut Link, first: u64, end: u64) -> bool
    ensures { SameLink link.old link.new }
{
    for number in first..end {
        if !link.take().is_some_and(|p| p.number == number) {
            return false;
        }
    }
    link.take().is_none()
}

#[test]
fn what_the_ring_does_not_hold_waits(rt: HostRuntime) -> Result<(), Fail> {
    let (mut one, mut two) = Link::pair(rt.alloc())?;
    one.ready(1025)?;
    send_all(&mut one, 1025);
    assert!(rt; takes(&mut two, 0, 1024));
    one.settle(&mut two)?;
    assert!(rt; takes(&mut two, 1024, 1025));
    Ok(())
}

#[test]
fn each_node_has_ends_to_all_others(rt: HostRuntime) -> Result<(), Fail> {
    let mut all = links(rt.alloc(), 3)?;
    assert_eq!(rt; all.len(), 3);
    for ends in all.iter_mut() {
        ends.ready(2)?;
        for other in 0..5 {
            let is_other = 1 <= other && other <= 3 && other != ends.node().0;
            assert_eq!(rt; ends.has(NodeId(other)), is_other);
        }
    }
    Ok(())
}
