//! The places and names of answers.
ghost use Rattle.history_audit.specs.Tests.{is_of_session, is_other, is_placed};
ghost use Rattle.partition_map.specs.Maps.{nth};
ghost use Rattle.si_laws.specs.SnapshotIsolation.{of_one_session};
ghost use Rattle.std.specs.List.{count_by, list_all};
ghost use Rattle.std.specs.Prelude.{MatchOption, None, Some, [], ◌≡◌};
ghost use Rattle.str_scene.specs.SceneLimits.{IsScene};
ghost use Rattle.str_scene.specs.Scenes.{script_at};

use str_base::SessionId;
use str_model::Answer;
use str_scene::{OpList, Scene, SessionText, TxPlace};

/// The session of a number, from 1.
fn session_at(scene: &Scene, session: SessionId) -> Option<&SessionText>
    ensures session { MatchOption result (nth scene.now.sessions session.0 ≡ None) (λ s. nth scene.now.sessions session.0 ≡ Some s.now) }
    ensures limits { IsScene scene.now }
{
    let sessions = scene.sessions();
    let number = session.0 as usize;
    if number == 0 {
        return None;
    }
    sessions.get(number - 1)
}

/// The script at a place. Where there is none the evaluation is that of no operations.
pub fn script_at(scene: &Scene, place: TxPlace) -> OpList
    ensures script { result ≡ script_at scene.now place }
    ensures limits { IsScene scene.now }
{
    let Some(session) = session_at(scene, place.session) else {
        return OpList::new();
    };
    let index = place.index as usize;
    if index == 0 {
        return OpList::new();
    }
    match session.txs().get(index - 1) {
        Some(ops) => ops.copy(),
        None => OpList::new(),
    }
}

/// Whether a transaction is of its session's node, and its session has so many transactions.
fn is_of_session(scene: &Scene, answer: &Answer) -> bool
    ensures { result ≡ is_of_session answer.now (nth scene.now.sessions answer.now.place.session.0) }
{
    match session_at(scene, answer.place.session) {
        None => false,
        Some(session) => {
            answer.tx.node == session.node()
                && (1 <= answer.place.index && answer.place.index as usize <= session.txs().len())
        }
    }
}

/// Whether an earlier answer has neither the place nor the name.
fn is_other(answer: &Answer, earlier: &Answer) -> bool
    ensures { result ≡ is_other answer.now earlier.now }
{
    let same_place = earlier.place.session.0 == answer.place.session.0
        && earlier.place.index == answer.place.index;
    let same_name = earlier.tx.node.0 == answer.tx.node.0 && earlier.tx.seq == answer.tx.seq;
    !same_place && !same_name
}

/// Whether no earlier answer has the place or the name.
fn is_new(earlier: &[Answer], answer: &Answer) -> bool
    ensures { result ≡ list_all (is_other answer.now) earlier.now }
{
    for other in earlier {
        if !is_other(answer, other) {
            return false;
        }
    }
    true
}

/// The number of earlier answers of the session.
fn count_in_session(earlier: &[Answer], answer: &Answer) -> usize
    ensures { result ≡ count_by (of_one_session answer.now) earlier.now }
{
    earlier
        .iter()
        .filter(|other| other.place.session.0 == answer.place.session.0)
        .count()
}

/// Whether an answer is the next one of its session.
pub fn is_placed(scene: &Scene, earlier: &[Answer], answer: &Answer) -> bool
    ensures { result ≡ is_placed scene.now earlier.now answer.now }
{
    is_of_session(scene, answer)
        && (is_new(earlier, answer)
            && answer.place.index as usize == 1 + count_in_session(earlier, answer))
}
