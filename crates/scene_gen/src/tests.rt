//! Made scenes of three seeds, against a model of the generator in another language.

use crate::made::make;
use std::test::Fail;
use str_base::KeyId;
use str_scene::{Event, Op, Scene};

/// The first operation of the first transaction.
fn first_op(scene: &Scene) -> Option<Op> {
    let session = scene.sessions().first()?;
    let script = session.txs().first()?;
    script.as_slice().first().copied()
}

/// The last operation of the last transaction.
fn last_op(scene: &Scene) -> Option<Op> {
    let session = scene.sessions().last()?;
    let script = session.txs().last()?;
    script.as_slice().last().copied()
}

/// The sum of the numbers of all messages, and of each reading times its session.
fn schedule_sum(events: &[Event]) -> u64 {
    let mut sum: u64 = 0;
    for event in events {
        let one = match *event {
            Event::Client { session, reading } => reading.wrapping_mul(u64::from(session.0)),
            Event::Deliver { index } => index,
        };
        sum = sum.wrapping_add(one);
    }
    sum
}

#[test]
fn made_scenes(rt: HostRuntime) -> Result<(), Fail> {
    let cases: [(u64, &[u8], Op, Op, u64); 3] = [
        (
            0,
            b"k2@6k7@6",
            Op::Add(KeyId(0), -1),
            Op::Get(KeyId(17)),
            608034529,
        ),
        (
            7,
            b"k2@5k1@4",
            Op::Put(KeyId(0), 31),
            Op::Add(KeyId(44), 1),
            588909510,
        ),
        (
            18446744073709551615,
            b"k9@3k5@4",
            Op::Add(KeyId(0), -1),
            Op::Get(KeyId(41)),
            599341556,
        ),
    ];
    for (seed, keys, first, last, sum) in cases {
        let scene = make(rt.alloc(), seed)?;
        let mut names = Vec::new(rt.alloc());
        for key in 0..2 {
            scene.keys().push_key(KeyId(key), &mut names)?;
        }
        assert_eq!(rt; names.as_slice(), keys);
        assert_eq!(rt; scene.keys().len(), 60);
        assert_eq!(rt; scene.sessions().len(), 12);
        assert_eq!(rt; scene.schedule().len(), 6000);
        assert_eq!(rt; first_op(&scene), Some(first));
        assert_eq!(rt; last_op(&scene), Some(last));
        assert_eq!(rt; schedule_sum(scene.schedule()), sum);
    }
    Ok(())
}
