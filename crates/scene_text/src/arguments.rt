//! What follows the first word of a line.
ghost use Rattle.std.specs.Option.{SomeIff, option_zip};
ghost use Rattle.std.specs.Prelude.{◌≡◌, ◌<◌, ◌^◌, ◌++◌, ◌∷◌, [], ℕ, List, IfSome, IsNone};
ghost use Rattle.scene_text.specs.LineReading.{ReadsArguments, ReadsNoArguments, RowFits, SpellsKeyNumber, SpellsNoKeyNumber, SpellsNoRow, SpellsRow};
ghost use Rattle.str_base.specs.declared.names.NodeId.{NodeId as Node};

use crate::keys::{read_bytes, read_key};
use crate::lines::{Line, Word};
use crate::numbers::{read_number, read_signed, read_small};
use crate::parting::{is_same, split_at_byte};
use partition_map::PartRow;
use str_base::limits::REPLICAS;
use str_base::{NodeId, PartId, SessionId};
use str_scene::Name;

/// What follows `str `: 1 or 2.
pub fn version_line(text: &[u8]) -> Option<Option<Line>>
    ensures line { IfSome result (λ kept. ReadsArguments Word.Version text.now kept) }
    ensures none { IsNone result → ReadsNoArguments Word.Version text.now }
{
    if is_same(text, b"1") {
        return Some(Some(Line::Version(1)));
    }
    if is_same(text, b"2") {
        return Some(Some(Line::Version(2)));
    }
    None
}

/// What follows `nodes `: a number.
pub fn nodes_line(text: &[u8]) -> Option<Option<Line>>
    ensures line { IfSome result (λ kept. ReadsArguments Word.Nodes text.now kept) }
    ensures none { IsNone result → ReadsNoArguments Word.Nodes text.now }
{
    match read_small(text)? {
        Some(nodes) => Some(Some(Line::Nodes(nodes))),
        None => Some(None),
    }
}

/// What follows `session `: a number.
pub fn session_line(text: &[u8]) -> Option<Option<Line>>
    ensures line { IfSome result (λ kept. ReadsArguments Word.Session text.now kept) }
    ensures none { IsNone result → ReadsNoArguments Word.Session text.now }
{
    match read_small(text)? {
        Some(node) => Some(Some(Line::Session(NodeId(node)))),
        None => Some(None),
    }
}

/// What follows `d `: a number.
pub fn deliver_line(text: &[u8]) -> Option<Option<Line>>
    ensures line { IfSome result (λ kept. ReadsArguments Word.Deliver text.now kept) }
    ensures none { IsNone result → ReadsNoArguments Word.Deliver text.now }
{
    match read_number(text)? {
        Some(index) => Some(Some(Line::Deliver(index))),
        None => Some(None),
    }
}

/// What follows `c `: two numbers.
pub fn client_line(text: &[u8]) -> Option<Option<Line>>
    ensures line { IfSome result (λ kept. ReadsArguments Word.Client text.now kept) }
    ensures none { IsNone result → ReadsNoArguments Word.Client text.now }
{
    let (session, reading) = split_at_byte(text, b' ')?;
    let session = read_small(session)?;
    let reading = read_number(reading)?;
    match session.zip(reading) {
        Some((session, reading)) => Some(Some(Line::Client(SessionId(session), reading))),
        None => Some(None),
    }
}

/// What follows `get `: a key.
pub fn get_line(text: &[u8]) -> Option<Option<Line>>
    ensures line { IfSome result (λ kept. ReadsArguments Word.Get text.now kept) }
    ensures none { IsNone result → ReadsNoArguments Word.Get text.now }
{
    let (name, part) = read_key(text)?;
    match part {
        Some(part) => Some(Some(Line::Get(name, part))),
        None => Some(None),
    }
}

/// What follows `del `: a key.
pub fn del_line(text: &[u8]) -> Option<Option<Line>>
    ensures line { IfSome result (λ kept. ReadsArguments Word.Del text.now kept) }
    ensures none { IsNone result → ReadsNoArguments Word.Del text.now }
{
    let (name, part) = read_key(text)?;
    match part {
        Some(part) => Some(Some(Line::Del(name, part))),
        None => Some(None),
    }
}

/// A key and a signed number, which are kept where both fit.
fn read_key_number(text: &[u8]) -> Option<(Name, Option<(PartId, i64)>)>
    ensures key { IfSome result (λ k. SpellsKeyNumber text.now k.0 k.1) }
    ensures none { IsNone result → SpellsNoKeyNumber text.now }
{
    let (key, number) = split_at_byte(text, b' ')?;
    let (name, part) = read_key(key)?;
    let number = read_signed(number)?;
    Some((name, part.zip(number)))
}

/// What follows `put `: a key and a signed number.
pub fn put_line(text: &[u8]) -> Option<Option<Line>>
    ensures line { IfSome result (λ kept. ReadsArguments Word.Put text.now kept) }
    ensures none { IsNone result → ReadsNoArguments Word.Put text.now }
{
    let (name, numbers) = read_key_number(text)?;
    match numbers {
        Some((part, number)) => Some(Some(Line::Put(name, part, number))),
        None => Some(None),
    }
}

/// What follows `add `: a key and a signed number.
pub fn add_line(text: &[u8]) -> Option<Option<Line>>
    ensures line { IfSome result (λ kept. ReadsArguments Word.Add text.now kept) }
    ensures none { IsNone result → ReadsNoArguments Word.Add text.now }
{
    let (name, numbers) = read_key_number(text)?;
    match numbers {
        Some((part, number)) => Some(Some(Line::Add(name, part, number))),
        None => Some(None),
    }
}

/// What follows `need `: a key and a signed number.
pub fn need_line(text: &[u8]) -> Option<Option<Line>>
    ensures line { IfSome result (λ kept. ReadsArguments Word.Need text.now kept) }
    ensures none { IsNone result → ReadsNoArguments Word.Need text.now }
{
    let (name, numbers) = read_key_number(text)?;
    match numbers {
        Some((part, number)) => Some(Some(Line::Need(name, part, number))),
        None => Some(None),
    }
}

/// What follows `puts `: a key and a byte string.
pub fn puts_line(text: &[u8]) -> Option<Option<Line>>
    ensures line { IfSome result (λ kept. ReadsArguments Word.Puts text.now kept) }
    ensures none { IsNone result → ReadsNoArguments Word.Puts text.now }
{
    let (key, bytes) = split_at_byte(text, b' ')?;
    let (name, part) = read_key(key)?;
    let bytes = read_bytes(bytes)?;
    match part.zip(bytes) {
        Some((part, bytes)) => Some(Some(Line::Puts(name, part, bytes))),
        None => Some(None),
    }
}

/// The replicas with one more, where they and it are kept and fit.
fn with_replica(kept: Option<PartRow>, node: Option<u8>) -> Option<PartRow>
    ensures { (row : List Node) (n : ℕ) → SomeIff kept (RowFits row) row → SomeIff node (n < 256) n
        → SomeIff result (RowFits (row ++ record { 0 = n } ∷ [])) (row ++ record { 0 = n } ∷ []) }
{
    let mut row = kept?;
    let node = node?;
    if row.len() >= REPLICAS {
        return None;
    }
    row.push(NodeId(node));
    Some(row)
}

/// The replicas that the text spells, with a space between them, and `None` where it spells none. They are `None` where
/// they are more than 8 or one of their numbers has more than 8 bits.
fn read_row(text: &[u8]) -> Option<Option<PartRow>>
    ensures row { IfSome result (λ kept. SpellsRow text.now kept) }
    ensures none { IsNone result → SpellsNoRow text.now }
{
    let mut kept = Some(PartRow::new());
    let mut left = text;
    while let Some((word, rest)) = split_at_byte(left, b' ') {
        kept = with_replica(kept, read_small(word)?);
        left = rest;
    }
    Some(with_replica(kept, read_small(left)?))
}

/// What follows `part `: a number and the replicas.
pub fn part_line(text: &[u8]) -> Option<Option<Line>>
    ensures line { IfSome result (λ kept. ReadsArguments Word.Part text.now kept) }
    ensures none { IsNone result → ReadsNoArguments Word.Part text.now }
{
    let (part, row) = split_at_byte(text, b' ')?;
    let part = read_small(part)?;
    let row = read_row(row)?;
    match part.zip(row) {
        Some((part, row)) => Some(Some(Line::Part(PartId(part), row))),
        None => Some(None),
    }
}
