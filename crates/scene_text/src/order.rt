//! The order of the lines of a scene's text.
ghost use Rattle.std.specs.Prelude.{◌≡◌};
ghost use Rattle.scene_text.specs.LineOrder.{end_follows, entry_follows, follows as follows_line, nodes_follow, op_follows, part_follows, puts_follows, section_follows, tx_follows, version_follows};
ghost use Rattle.scene_text.specs.LineReading.{word_of};
ghost use Rattle.scene_text.specs.declared.lines.Line.{Line};

use crate::lines::Word;

/// What the lines so far end with.
#[derive(Clone, Copy, Debug, PartialEq, Eq)]
pub enum Place {
    /// No line has come.
    AtStart,
    /// The version.
    AfterVersion,
    /// The number of nodes.
    AfterNodes,
    /// A partition.
    AfterPart,
    /// The first line of a session.
    AfterSession,
    /// The first line of a transaction.
    AfterTx,
    /// An operation.
    AfterOp,
    /// The first line of the schedule, or an entry.
    InSchedule,
    /// The drain.
    AfterDrain,
    /// The last line.
    AfterEnd,
}

/// Where the lines are after one more line of this kind in a text of this version, and `None` where it may not stand
/// there.
pub fn follows(version: u8, place: Place, word: Word) -> Option<Place>
    ensures { (l : Line) → word_of l ≡ word → result ≡ follows_line version place l }
{
    match word {
        Word::Version => version_follows(place),
        Word::Nodes => nodes_follow(place),
        Word::Part => part_follows(place),
        Word::Session => section_follows(Place::AfterSession, place),
        Word::Tx => tx_follows(place),
        Word::Puts => puts_follows(version, place),
        Word::Get | Word::Put | Word::Add | Word::Del | Word::Need | Word::Abort => {
            op_follows(place)
        }
        Word::Schedule => section_follows(Place::InSchedule, place),
        Word::Client | Word::Deliver => entry_follows(Place::InSchedule, place),
        Word::Drain => entry_follows(Place::AfterDrain, place),
        Word::End => end_follows(place),
    }
}

/// The version comes first.
fn version_follows(place: Place) -> Option<Place>
    ensures { result ≡ version_follows place }
{
    match place {
        Place::AtStart => Some(Place::AfterVersion),
        _ => None,
    }
}

/// The number of nodes comes after the version.
fn nodes_follow(place: Place) -> Option<Place>
    ensures { result ≡ nodes_follow place }
{
    match place {
        Place::AfterVersion => Some(Place::AfterNodes),
        _ => None,
    }
}

/// A partition may follow the number of nodes or another partition.
fn part_follows(place: Place) -> Option<Place>
    ensures { result ≡ part_follows place }
{
    match place {
        Place::AfterNodes | Place::AfterPart => Some(Place::AfterPart),
        _ => None,
    }
}

/// A session or the schedule may follow a partition, a session or a transaction with an operation.
fn section_follows(next: Place, place: Place) -> Option<Place>
    ensures { result ≡ section_follows next place }
{
    match place {
        Place::AfterPart | Place::AfterSession | Place::AfterOp => Some(next),
        _ => None,
    }
}

/// A transaction may follow a session or a transaction with an operation.
fn tx_follows(place: Place) -> Option<Place>
    ensures { result ≡ tx_follows place }
{
    match place {
        Place::AfterSession | Place::AfterOp => Some(Place::AfterTx),
        _ => None,
    }
}

/// An operation may follow a transaction's first line or another operation.
fn op_follows(place: Place) -> Option<Place>
    ensures { result ≡ op_follows place }
{
    match place {
        Place::AfterTx | Place::AfterOp => Some(Place::AfterOp),
        _ => None,
    }
}

/// A byte string is written in version 2 alone.
fn puts_follows(version: u8, place: Place) -> Option<Place>
    ensures { result ≡ puts_follows version place }
{
    if version == 2 {
        op_follows(place)
    } else {
        None
    }
}

/// An entry, the drain or the end may follow in the schedule.
fn entry_follows(next: Place, place: Place) -> Option<Place>
    ensures { result ≡ entry_follows next place }
{
    match place {
        Place::InSchedule => Some(next),
        _ => None,
    }
}

/// The end may follow in the schedule or after the drain.
fn end_follows(place: Place) -> Option<Place>
    ensures { result ≡ end_follows place }
{
    match place {
        Place::InSchedule | Place::AfterDrain => Some(Place::AfterEnd),
        _ => None,
    }
}
