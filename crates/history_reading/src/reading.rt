//! A history, read from its text.
ghost use Rattle.history_reading.specs.FirstBad.{IsFaultOf};
ghost use Rattle.history_reading.specs.Histories.{IsHistoryText, commits_in};
ghost use Rattle.history_reading.specs.Places.{ArePlaces, byte_texts, key_texts};
ghost use Rattle.history_reading.specs.Reading.{IsBadEnding, IsBadLine, IsBadOne, IsCounted, IsHead, TakesAnswer, TakesEnd, TakesLine, fault_at, scene_fault};
ghost use Rattle.std.specs.Prelude.{IfErr, IfOk, OnOk, [], codes, false, length, take, ◌++◌, ◌∷◌, ◌≡◌, ◌≤◌};
ghost use Rattle.str_scene.specs.Spelling.{IsText};

use crate::answers::read_answer;
use crate::endings::read_ending;
use crate::heads::after_scene;
use crate::key_texts::KeyTexts;
use scene_text::parting::{next_feed, rest_after};
use scene_text::{TextFault, read_scene};
use std::alloc::Global;
use str_base::limits::TRANSACTIONS;
use str_model::{Answer, Outcome};
use str_scene::{Scene, SceneFault, Why};

/// A scene, and the answers of a history of it.
#[derive(Drop)]
pub struct History {
    pub scene: Scene,
    pub answers: Vec<Answer>,
}

/// Why a text is no history's.
#[derive(Clone, Copy, Debug, PartialEq, Eq)]
pub enum HistoryFault {
    /// The line, counted from 1, is the first bad one, for this reason.
    Bad { line: u64, why: Why },
    /// There was not enough memory.
    Memory,
}

/// The answers so far, how many of them are commits, and whether the end line has come.
#[derive(Drop)]
struct Answers {
    list: Vec<Answer>,
    commits: u64,
    is_ended: bool,
}

impl Answers {
    /// No answers.
    fn new(alloc: Global) -> Answers
        ensures list { result.list.items ≡ [] }
        ensures commits { result.commits ≡ 0 }
        ensures not_ended { result.is_ended ≡ false }
    {
        Answers {
            list: Vec::new(alloc),
            commits: 0,
            is_ended: false,
        }
    }

    /// The end line, whose numbers are those of the answers.
    fn end(&mut self, text: &[u8]) -> Result<(), SceneFault>
        requires counted { IsCounted self.old }
        ensures taken { OnOk result (TakesEnd (codes "end " ++ text.now) self.old self.new) }
        ensures bad { IfErr result (λ f. IsBadEnding (codes "end " ++ text.now) self.old.list.items f) }
    {
        let Some(read) = read_ending(text) else {
            return Err(SceneFault::Form);
        };
        let Some(ending) = read else {
            return Err(SceneFault::Range);
        };
        let aborts = self.list.len() as u64 - self.commits;
        if ending.commits != self.commits || ending.aborts != aborts {
            return Err(SceneFault::Range);
        }
        self.is_ended = true;
        Ok(())
    }

    /// The line of an answer.
    fn push(
        &mut self,
        alloc: Global,
        scene: &Scene,
        keys: &KeyTexts,
        text: &[u8],
    ) -> Result<(), SceneFault>
        requires counted { IsCounted self.old }
        requires not_ended { self.old.is_ended ≡ false }
        requires keys { ArePlaces (key_texts scene.now.keys) keys.now.keys }
        requires texts { ArePlaces (byte_texts scene.now.keys) keys.now.texts }
        ensures taken { OnOk result (TakesAnswer scene.now text.now self.old self.new) }
        ensures bad { IfErr result (λ f. IsBadOne scene.now text.now self.old.list.items f) }
    {
        let answer = read_answer(alloc, scene, keys, text)?;
        if self.list.len() >= TRANSACTIONS {
            return Err(SceneFault::Count);
        }
        let commits = commits_of(&answer);
        match self.list.push(answer) {
            Ok(()) => {
                self.commits += commits;
                Ok(())
            }
            Err(_) => Err(SceneFault::Memory),
        }
    }

    /// The next line after the scene's.
    fn take(
        &mut self,
        alloc: Global,
        scene: &Scene,
        keys: &KeyTexts,
        text: &[u8],
    ) -> Result<(), SceneFault>
        requires counted { IsCounted self.old }
        requires keys { ArePlaces (key_texts scene.now.keys) keys.now.keys }
        requires texts { ArePlaces (byte_texts scene.now.keys) keys.now.texts }
        ensures taken { OnOk result (TakesLine scene.now text.now self.old self.new) }
        ensures bad { IfErr result (λ f. IsBadLine scene.now text.now self.old f) }
    {
        if self.is_ended {
            return Err(SceneFault::Form);
        }
        match rest_after(text, b"end ") {
            Some(rest) => self.end(rest),
            None => self.push(alloc, scene, keys, text),
        }
    }
}

/// 1 where the answer is a commit, and else 0.
fn commits_of(answer: &Answer) -> u64
    ensures { result ≡ commits_in (answer.now ∷ []) }
{
    match answer.outcome {
        Outcome::Committed { .. } => 1,
        Outcome::Aborted { .. } => 0,
    }
}

/// The fault of a scene's text, as one of the history's.
fn scene_fault(fault: TextFault) -> HistoryFault
    ensures { result ≡ scene_fault fault }
{
    match fault {
        TextFault::Bad { line, why } => HistoryFault::Bad { line, why },
        TextFault::Memory => HistoryFault::Memory,
    }
}

/// The fault of a line.
fn fault_at(line: u64, fault: SceneFault) -> HistoryFault
    ensures { result ≡ fault_at line fault }
{
    match fault {
        SceneFault::Form => HistoryFault::Bad {
            line,
            why: Why::Form,
        },
        SceneFault::Range => HistoryFault::Bad {
            line,
            why: Why::Range,
        },
        SceneFault::Count => HistoryFault::Bad {
            line,
            why: Why::Count,
        },
        SceneFault::Memory => HistoryFault::Memory,
    }
}

/// The answers that the lines from `start` on spell, where the scene's text is before it, of so many lines.
fn read_answers(
    alloc: Global,
    scene: &Scene,
    text: &[u8],
    start: usize,
    count: u64,
) -> Result<Vec<Answer>, HistoryFault>
    requires scene { IsText (take start text.now) scene.now }
    requires head { IsHead text.now start count }
    requires within { start ≤ length text.now }
    requires few { count ≤ start }
    ensures read { IfOk result (λ v. IsHistoryText text.now scene.now v.items) }
    ensures bad { IfErr result (λ f. IsFaultOf text.now f) }
{
    let Ok(keys) = KeyTexts::of(alloc, scene.keys()) else {
        return Err(HistoryFault::Memory);
    };
    let mut answers = Answers::new(alloc);
    let (mut start, mut count) = (start, count);
    while let Some(feed) = next_feed(text, start) {
        if let Err(fault) = answers.take(alloc, scene, &keys, &text[start..feed]) {
            return Err(fault_at(count + 1, fault));
        }
        start = feed + 1;
        count += 1;
    }
    if start < text.len() {
        return Err(HistoryFault::Bad {
            line: count + 1,
            why: Why::Cut,
        });
    }
    if !answers.is_ended {
        return Err(HistoryFault::Bad {
            line: count + 1,
            why: Why::Cut,
        });
    }
    Ok(answers.list)
}

/// The scene and the answers of a history whose text this is. `Bad` names the first line that makes the text no history's, and why it does.
///
/// # Errors
///
/// Where the text is no history's, or memory is wanting.
pub fn read_history(alloc: Global, bytes: &[u8]) -> Result<History, HistoryFault>
    ensures read { IfOk result (λ h. IsHistoryText bytes.now h.scene h.answers.items) }
    ensures bad { IfErr result (λ f. IsFaultOf bytes.now f) }
{
    let (start, count) = after_scene(bytes);
    let scene = match read_scene(alloc, &bytes[..start]) {
        Ok(scene) => scene,
        Err(fault) => return Err(scene_fault(fault)),
    };
    let answers = read_answers(alloc, &scene, bytes, start, count)?;
    Ok(History { scene, answers })
}

#[cfg(test)]
mod tests {
    use super::*;
    use std::test::Fail;

    const SCENE: &[u8] =
        b"str 1\nnodes 1\npart 1 1\nsession 1\ntx\nadd a@1 1\nsession 1\ntx\nadd a@1 1\nschedule\nc 1 10\nc 2 10\ndrain\nend\n";

    #[test]
    fn reads_histories(rt: HostRuntime) -> Result<(), Fail> {
        let mut text = Vec::new(rt.alloc());
        text.extend_from_slice(SCENE)?;
        text.extend_from_slice(
            b"1.1 s1/1 commit rs=10 fc=11 a@1=none a@1=-5\n1.2 s2/1 abort rs=10 conflict 1.1 a@1 at=1\nend commits=1 aborts=1 held=0 unbegun=0 messages=7\n",
        )?;
        match read_history(rt.alloc(), text.as_slice()) {
            Ok(history) => assert_eq!(rt; history.answers.len(), 2),
            Err(fault) => assert_eq!(rt; fault, HistoryFault::Memory),
        }
        Ok(())
    }

    #[test]
    fn bad_lines(rt: HostRuntime) -> Result<(), Fail> {
        let cases: [(&[u8], u64, Why); 12] = [
            (b"", 15, Why::Cut),
            (b"1.1 s1/1 commit rs=10 fc=11\nend", 16, Why::Cut),
            (b"1.1 s1/1 commit rs=010 fc=11\n", 15, Why::Form),
            (b"j c 1 10\n", 15, Why::Form),
            (
                b"end commits=0 aborts=0 held=0 unbegun=2 messages=0\nend\n",
                16,
                Why::Form,
            ),
            (b"2.1 s1/1 commit rs=10 fc=11\n", 15, Why::Range),
            (b"1.1 s1/2 abort rs=10 wish\n", 15, Why::Range),
            (
                b"1.1 s1/1 commit rs=9223372036854775808 fc=-\n",
                15,
                Why::Range,
            ),
            (b"1.1 s1/1 commit rs=10 fc=- b@1=1\n", 15, Why::Range),
            (b"1.1 s1/1 commit rs=10 fc=- a@1=x00\n", 15, Why::Range),
            (
                b"1.1 s1/1 abort rs=10 late 1.2 fc=12\nend commits=1 aborts=0 held=0 unbegun=1 messages=0\n",
                16,
                Why::Range,
            ),
            (
                b"1.1 s1/1 commit rs=10 fc=- a@1=1 a@1=1 a@1=1 a@1=1 a@1=1 a@1=1 a@1=1 a@1=1 a@1=1 a@1=1 a@1=1 a@1=1 a@1=1 a@1=1 a@1=1 a@1=1 a@1=1\n",
                15,
                Why::Count,
            ),
        ];
        for (lines, line, why) in cases {
            let mut text = Vec::new(rt.alloc());
            text.extend_from_slice(SCENE)?;
            text.extend_from_slice(lines)?;
            match read_history(rt.alloc(), text.as_slice()) {
                Ok(_) => assert!(rt; false),
                Err(fault) => assert_eq!(rt; fault, HistoryFault::Bad { line, why }),
            }
        }
        Ok(())
    }
}
