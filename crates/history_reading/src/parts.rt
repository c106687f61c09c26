//! Names, places and timestamps of an answer's line.
ghost use Rattle.history_reading.specs.HistoryRanges.{IsNamed, IsPlaced, IsTime};
ghost use Rattle.history_reading.specs.Parts.{Known, KnownItself, SpellsFinal, SpellsName, SpellsNoFinal, SpellsNode, SpellsNoName, SpellsNoPlace, SpellsPlace, SpellsTime, name_of, place_of};
ghost use Rattle.partition_map.specs.Maps.{nth};
ghost use Rattle.scene_text.specs.LineReading.{SpellsNone};
ghost use Rattle.std.specs.Option.{SomeIff};
ghost use Rattle.std.specs.Prelude.{IfSome, IsNone, MatchOption, None, Some, ◌≡◌};
ghost use Rattle.str_scene.specs.SceneLimits.{Exists};

use scene_text::numbers::{read_number, read_small};
use scene_text::parting::{is_same, rest_after, split_at_byte};
use str_base::{NodeId, SessionId, Ts, TxId};
use str_scene::{Scene, SessionText, TxPlace};

/// The name of a transaction with these numbers, where its node is one of so many and its number is from 1 to 2^32 - 1.
fn known_name(nodes: u8, node: u8, seq: u64) -> Option<TxId>
    ensures { SomeIff result (IsNamed nodes (name_of node seq)) (name_of node seq) }
{
    if node == 0 || node > nodes || seq == 0 || seq > 0xffff_ffff {
        return None;
    }
    Some(TxId {
        node: NodeId(node),
        seq: seq as u32,
    })
}

/// The name of a transaction, as `n.q`. It is kept where it may be one of the scene.
pub fn read_name(scene: &Scene, text: &[u8]) -> Option<Option<TxId>>
    ensures name { IfSome result (λ kept. SpellsName scene.now.nodes text.now kept) }
    ensures none { IsNone result → SpellsNoName text.now }
{
    let nodes = scene.nodes();
    let (node, seq) = split_at_byte(text, b'.')?;
    let node = read_small(node)?;
    let seq = read_number(seq)?;
    match node.zip(seq) {
        Some((node, seq)) => Some(known_name(nodes, node, seq)),
        None => Some(None),
    }
}

/// A timestamp, which is kept where it is below 2^63.
pub fn read_time(text: &[u8]) -> Option<Option<Ts>>
    ensures time { IfSome result (λ kept. SpellsTime text.now kept) }
    ensures none { IsNone result → SpellsNone text.now }
{
    match read_number(text)? {
        Some(time) if time < 0x8000_0000_0000_0000 => Some(Some(Ts(time))),
        _ => Some(None),
    }
}

/// A final timestamp, as a minus where there is none. It is kept where it is below 2^63.
pub fn read_final(text: &[u8]) -> Option<Option<Option<Ts>>>
    ensures time { IfSome result (λ kept. SpellsFinal text.now kept) }
    ensures none { IsNone result → SpellsNoFinal text.now }
{
    if is_same(text, b"-") {
        return Some(Some(None));
    }
    match read_time(text)? {
        Some(fc) => Some(Some(Some(fc))),
        None => Some(None),
    }
}

/// A node, which is kept where it is one of the scene.
pub fn read_node(scene: &Scene, text: &[u8]) -> Option<Option<NodeId>>
    ensures node { IfSome result (λ kept. SpellsNode scene.now.nodes text.now kept) }
    ensures none { IsNone result → SpellsNone text.now }
{
    let nodes = scene.nodes();
    match read_small(text)? {
        Some(node) if 1 <= node && node <= nodes => Some(Some(NodeId(node))),
        _ => Some(None),
    }
}

/// The session of a number, from 1.
fn session_at(scene: &Scene, session: u8) -> Option<&SessionText>
    ensures { MatchOption result (nth scene.now.sessions session ≡ None) (λ s. nth scene.now.sessions session ≡ Some s.now) }
{
    let sessions = scene.sessions();
    let number = session as usize;
    if number == 0 {
        return None;
    }
    sessions.get(number - 1)
}

/// The place of a transaction with these numbers, where it is one of the scene.
fn known_place(scene: &Scene, session: u8, index: u64) -> Option<TxPlace>
    ensures { SomeIff result (IsPlaced scene.now.sessions (place_of session index)) (place_of session index) }
{
    let _sessions = scene.sessions();
    let text = session_at(scene, session)?;
    if index == 0 || index > text.txs().len() as u64 {
        return None;
    }
    Some(TxPlace {
        session: SessionId(session),
        index: index as u32,
    })
}

/// The place of a transaction, as `sS/J`. It is kept where it is one of the scene.
pub fn read_place(scene: &Scene, text: &[u8]) -> Option<Option<TxPlace>>
    ensures place { IfSome result (λ kept. SpellsPlace scene.now.sessions text.now kept) }
    ensures none { IsNone result → SpellsNoPlace text.now }
{
    let _sessions = scene.sessions();
    let numbers = rest_after(text, b"s")?;
    let (session, index) = split_at_byte(numbers, b'/')?;
    let session = read_small(session)?;
    let index = read_number(index)?;
    match session.zip(index) {
        Some((session, index)) => Some(known_place(scene, session, index)),
        None => Some(None),
    }
}
