//! A scene, read from its text.
ghost use Rattle.std.specs.Prelude.{◌≡◌, ◌⊎◌, ◌<◌, ◌≤◌, ◌+◌, ◌++◌, ◌∷◌, [], IfOk, IfErr, None, IsTrue, ◌↔◌, OnOk, length, take, true, false};
ghost use Rattle.str_base.specs.declared.limits.TheConstants.{OPERATIONS, PARTITIONS};
ghost use Rattle.scene_text.specs.LineOrder.{follows as follows_line, op_follows, section_follows};
ghost use Rattle.scene_text.specs.LineTexts.{IsForm};
ghost use Rattle.scene_text.specs.Reaching.{Reached};
ghost use Rattle.scene_text.specs.Reading.{fault_at, version_given, IsBadText, IsFaultOf, IsKeyRefused, IsReached, IsRefusedFor, TakesText};
ghost use Rattle.scene_text.specs.Taking.{is_up_to, key_number, scene_limits, settled, take_line};
ghost use Rattle.scene_text.specs.Taking.Taken.{Now};
ghost use Rattle.str_scene.specs.Drafts.{empty_draft, with_key};
ghost use Rattle.str_scene.specs.Refusals.{finish_fault};
ghost use Rattle.str_scene.specs.SceneLimits.{is_name};
ghost use Rattle.str_scene.specs.Spelling.{IsText};

use crate::lines::Line;
use crate::order::{Place, follows};
use crate::parting::next_feed;
use crate::read_line::{read_line, word_of};
use partition_map::PartRow;
use std::alloc::Global;
use std::marker::Model;
use str_base::limits::{OPERATIONS, TRANSACTIONS};
use str_base::{KeyId, NodeId, PartId, SessionId};
use str_scene::{ByteText, Event, Name, Op, OpList, Scene, SceneBuild, SceneFault, Why};

/// Why a text is no scene's.
#[derive(Clone, Copy, Debug, PartialEq, Eq)]
pub enum TextFault {
    /// The line, counted from 1, is the first bad one, for this reason.
    Bad { line: u64, why: Why },
    /// There was not enough memory.
    Memory,
}

/// What the lines so far have given, the first of which is that of the version. It is seen as a state of the reading.
#[derive(Drop)]
pub struct Reader {
    version: u8,
    place: Place,
    build: SceneBuild,
    ops: OpList,
}

impl Model for Reader {
    ghost use Rattle.scene_text.specs.Taking.{State};
    ghost use Rattle.std.specs.Prelude.{◌≡◌, ◌≤◌};

    ghost Value = { State };

    ghost view = { λ r. record { place = r.place; draft = r.build; ops = r.ops } };

    ghost invariant = { λ r. (r.version ≡ r.build.version) × (1 ≤ r.version) };
}

impl Reader {
    /// After the line of the version.
    pub fn new(alloc: Global, version: u8) -> Reader
        requires { (version ≡ 1) ⊎ (version ≡ 2) }
        ensures { result ≡ record { place = Place.AfterVersion; draft = empty_draft version; ops = [] } }
    {
        Reader {
            version,
            place: Place::AfterVersion,
            build: SceneBuild::new(alloc, version),
            ops: OpList::new(),
        }
    }

    /// The line of the number of nodes.
    fn add_nodes(&mut self, next: Place, n: u8) -> Result<(), SceneFault>
        requires reached { IsReached self.old }
        requires order { follows_line self.old.draft.version self.old.place (Line.Nodes n) ≡ Some next }
        ensures taken { OnOk result (take_line scene_limits self.old (Line.Nodes n) ≡ Now self.new) }
        ensures refused { IfErr result (λ f. IsRefusedFor self.old (Line.Nodes n) f) }
    {
        self.build.nodes(n)?;
        self.place = next;
        Ok(())
    }

    /// The line of a partition, whose number is the next one.
    fn add_part(&mut self, next: Place, part: PartId, row: PartRow) -> Result<(), SceneFault>
        requires reached { IsReached self.old }
        requires order { follows_line self.old.draft.version self.old.place (Line.Part part row) ≡ Some next }
        requires named { 1 ≤ length row }
        ensures taken { OnOk result (take_line scene_limits self.old (Line.Part part row) ≡ Now self.new) }
        ensures refused { IfErr result (λ f. IsRefusedFor self.old (Line.Part part row) f) }
    {
        if usize::from(part.0) != self.build.parts() + 1 {
            return Err(SceneFault::Range);
        }
        let _few = row.len();
        self.build.part(row)?;
        self.place = next;
        Ok(())
    }

    /// The open transaction becomes the last of the draft, where it has an operation.
    fn close(&mut self) -> Result<(), SceneFault>
        requires reached { IsReached self.old }
        requires order { section_follows Place.AfterSession self.old.place ≡ Some Place.AfterSession }
        ensures closed { OnOk result (self.new ≡ record { place = self.old.place; draft = settled self.old; ops = [] }) }
        ensures memory { IfErr result (λ f. f ≡ SceneFault.Memory) }
    {
        if self.ops.len() == 0 {
            return Ok(());
        }
        let ops = self.ops.copy();
        self.build.tx(ops)?;
        self.ops = OpList::new();
        Ok(())
    }

    /// The first line of a session.
    fn add_session(&mut self, next: Place, node: NodeId) -> Result<(), SceneFault>
        requires reached { IsReached self.old }
        requires order { follows_line self.old.draft.version self.old.place (Line.Session node) ≡ Some next }
        ensures taken { OnOk result (take_line scene_limits self.old (Line.Session node) ≡ Now self.new) }
        ensures refused { IfErr result (λ f. IsRefusedFor self.old (Line.Session node) f) }
    {
        self.close()?;
        self.build.session(node)?;
        self.place = next;
        Ok(())
    }

    /// The first line of a transaction.
    fn add_tx(&mut self, next: Place) -> Result<(), SceneFault>
        requires reached { IsReached self.old }
        requires order { follows_line self.old.draft.version self.old.place Line.Tx ≡ Some next }
        ensures taken { OnOk result (take_line scene_limits self.old Line.Tx ≡ Now self.new) }
        ensures refused { IfErr result (λ f. IsRefusedFor self.old Line.Tx f) }
    {
        self.close()?;
        if self.build.transactions() >= TRANSACTIONS {
            return Err(SceneFault::Count);
        }
        self.place = next;
        Ok(())
    }

    /// The first line of the schedule.
    fn add_schedule(&mut self, next: Place) -> Result<(), SceneFault>
        requires reached { IsReached self.old }
        requires order { follows_line self.old.draft.version self.old.place Line.Schedule ≡ Some next }
        ensures taken { OnOk result (take_line scene_limits self.old Line.Schedule ≡ Now self.new) }
        ensures refused { IfErr result (λ f. IsRefusedFor self.old Line.Schedule f) }
    {
        self.close()?;
        self.place = next;
        Ok(())
    }

    /// The number of the key of an operation, which is put into the table of keys.
    fn add_key(&mut self, name: &Name, part: PartId) -> Result<KeyId, SceneFault>
        requires reached { IsReached self.old }
        requires order { op_follows self.old.place ≡ Some Place.AfterOp }
        requires named { is_name name.now ≡ true }
        ensures number { IfOk result (λ k. k ≡ key_number (name.now, part) self.old.draft) }
        ensures added { OnOk result (self.new ≡ record self.old { draft = with_key (name.now, part) self.old.draft }) }
        ensures range { OnOk result (is_up_to (length self.old.draft.parts) part.0 ≡ true) }
        ensures refused { IfErr result (λ f. IsKeyRefused self.old part f) }
    {
        self.build.key(name.as_slice(), part)
    }

    /// The next operation of the open transaction, which has at most 16.
    fn push_op(&mut self, next: Place, op: Op) -> Result<(), SceneFault>
        ensures room { OnOk result (length self.old.ops < OPERATIONS) }
        ensures pushed { OnOk result (self.new ≡ record { place = next; draft = self.old.draft; ops = self.old.ops ++ op ∷ [] }) }
        ensures full { IfErr result (λ f. (f ≡ SceneFault.Count) × (OPERATIONS ≤ length self.old.ops)) }
    {
        if self.ops.len() >= OPERATIONS {
            return Err(SceneFault::Count);
        }
        self.ops.push(op);
        self.place = next;
        Ok(())
    }

    /// An operation that reads a key.
    fn add_get(&mut self, next: Place, name: Name, part: PartId) -> Result<(), SceneFault>
        requires reached { IsReached self.old }
        requires order { follows_line self.old.draft.version self.old.place (Line.Get name part) ≡ Some next }
        requires named { is_name name ≡ true }
        ensures taken { OnOk result (take_line scene_limits self.old (Line.Get name part) ≡ Now self.new) }
        ensures refused { IfErr result (λ f. IsRefusedFor self.old (Line.Get name part) f) }
    {
        let key = self.add_key(&name, part)?;
        self.push_op(next, Op::Get(key))
    }

    /// An operation that deletes a key.
    fn add_del(&mut self, next: Place, name: Name, part: PartId) -> Result<(), SceneFault>
        requires reached { IsReached self.old }
        requires order { follows_line self.old.draft.version self.old.place (Line.Del name part) ≡ Some next }
        requires named { is_name name ≡ true }
        ensures taken { OnOk result (take_line scene_limits self.old (Line.Del name part) ≡ Now self.new) }
        ensures refused { IfErr result (λ f. IsRefusedFor self.old (Line.Del name part) f) }
    {
        let key = self.add_key(&name, part)?;
        self.push_op(next, Op::Del(key))
    }

    /// An operation that writes a number.
    fn add_put(&mut self, next: Place, name: Name, part: PartId, n: i64) -> Result<(), SceneFault>
        requires reached { IsReached self.old }
        requires order { follows_line self.old.draft.version self.old.place (Line.Put name part n) ≡ Some next }
        requires named { is_name name ≡ true }
        ensures taken { OnOk result (take_line scene_limits self.old (Line.Put name part n) ≡ Now self.new) }
        ensures refused { IfErr result (λ f. IsRefusedFor self.old (Line.Put name part n) f) }
    {
        let key = self.add_key(&name, part)?;
        self.push_op(next, Op::Put(key, n))
    }

    /// An operation that adds a number.
    fn add_add(&mut self, next: Place, name: Name, part: PartId, n: i64) -> Result<(), SceneFault>
        requires reached { IsReached self.old }
        requires order { follows_line self.old.draft.version self.old.place (Line.Add name part n) ≡ Some next }
        requires named { is_name name ≡ true }
        ensures taken { OnOk result (take_line scene_limits self.old (Line.Add name part n) ≡ Now self.new) }
        ensures refused { IfErr result (λ f. IsRefusedFor self.old (Line.Add name part n) f) }
    {
        let key = self.add_key(&name, part)?;
        self.push_op(next, Op::Add(key, n))
    }

    /// An operation that needs a number.
    fn add_need(&mut self, next: Place, name: Name, part: PartId, n: i64) -> Result<(), SceneFault>
        requires reached { IsReached self.old }
        requires order { follows_line self.old.draft.version self.old.place (Line.Need name part n) ≡ Some next }
        requires named { is_name name ≡ true }
        ensures taken { OnOk result (take_line scene_limits self.old (Line.Need name part n) ≡ Now self.new) }
        ensures refused { IfErr result (λ f. IsRefusedFor self.old (Line.Need name part n) f) }
    {
        let key = self.add_key(&name, part)?;
        self.push_op(next, Op::Need(key, n))
    }

    /// An operation that writes a byte string.
    fn add_puts(
        &mut self,
        next: Place,
        name: Name,
        part: PartId,
        bytes: ByteText,
    ) -> Result<(), SceneFault>
        requires reached { IsReached self.old }
        requires order { follows_line self.old.draft.version self.old.place (Line.Puts name part bytes) ≡ Some next }
        requires named { is_name name ≡ true }
        ensures taken { OnOk result (take_line scene_limits self.old (Line.Puts name part bytes) ≡ Now self.new) }
        ensures refused { IfErr result (λ f. IsRefusedFor self.old (Line.Puts name part bytes) f) }
    {
        let key = self.add_key(&name, part)?;
        let text = self.build.text(bytes.as_slice())?;
        self.push_op(next, Op::Puts(key, text))
    }

    /// An operation that aborts.
    fn add_abort(&mut self, next: Place) -> Result<(), SceneFault>
        requires reached { IsReached self.old }
        requires order { follows_line self.old.draft.version self.old.place Line.Abort ≡ Some next }
        ensures taken { OnOk result (take_line scene_limits self.old Line.Abort ≡ Now self.new) }
        ensures refused { IfErr result (λ f. IsRefusedFor self.old Line.Abort f) }
    {
        self.push_op(next, Op::Abort)
    }

    /// A client step.
    fn add_client(
        &mut self,
        next: Place,
        session: SessionId,
        reading: u64,
    ) -> Result<(), SceneFault>
        requires reached { IsReached self.old }
        requires order { follows_line self.old.draft.version self.old.place (Line.Client session reading) ≡ Some next }
        ensures taken { OnOk result (take_line scene_limits self.old (Line.Client session reading) ≡ Now self.new) }
        ensures refused { IfErr result (λ f. IsRefusedFor self.old (Line.Client session reading) f) }
    {
        self.build.entry(Event::Client { session, reading })?;
        self.place = next;
        Ok(())
    }

    /// The delivery of a message.
    fn add_deliver(&mut self, next: Place, index: u64) -> Result<(), SceneFault>
        requires reached { IsReached self.old }
        requires order { follows_line self.old.draft.version self.old.place (Line.Deliver index) ≡ Some next }
        ensures taken { OnOk result (take_line scene_limits self.old (Line.Deliver index) ≡ Now self.new) }
        ensures refused { IfErr result (λ f. IsRefusedFor self.old (Line.Deliver index) f) }
    {
        self.build.entry(Event::Deliver { index })?;
        self.place = next;
        Ok(())
    }

    /// The line of the drain.
    fn add_drain(&mut self, next: Place) -> Result<(), SceneFault>
        requires reached { IsReached self.old }
        requires order { follows_line self.old.draft.version self.old.place Line.Drain ≡ Some next }
        ensures taken { OnOk result (take_line scene_limits self.old Line.Drain ≡ Now self.new) }
        ensures refused { IfErr result (λ f. IsRefusedFor self.old Line.Drain f) }
    {
        self.build.drain()?;
        self.place = next;
        Ok(())
    }

    /// The last line.
    fn add_end(&mut self, next: Place) -> Result<(), SceneFault>
        requires reached { IsReached self.old }
        requires order { follows_line self.old.draft.version self.old.place Line.End ≡ Some next }
        ensures taken { OnOk result (take_line scene_limits self.old Line.End ≡ Now self.new) }
        ensures refused { IfErr result (λ f. IsRefusedFor self.old Line.End f) }
    {
        self.place = next;
        Ok(())
    }

    /// A line that may stand here, after which the place is `next`.
    fn add(&mut self, next: Place, line: Line) -> Result<(), SceneFault>
        requires reached { IsReached self.old }
        requires order { follows_line self.old.draft.version self.old.place (line) ≡ Some next }
        requires named { IsForm line }
        ensures taken { OnOk result (take_line scene_limits self.old (line) ≡ Now self.new) }
        ensures refused { IfErr result (λ f. IsRefusedFor self.old (line) f) }
    {
        let _version = self.version;
        match line {
            Line::Version(_) => Err(SceneFault::Form),
            Line::Nodes(n) => self.add_nodes(next, n),
            Line::Part(part, row) => self.add_part(next, part, row),
            Line::Session(node) => self.add_session(next, node),
            Line::Tx => self.add_tx(next),
            Line::Get(name, part) => self.add_get(next, name, part),
            Line::Put(name, part, n) => self.add_put(next, name, part, n),
            Line::Puts(name, part, bytes) => self.add_puts(next, name, part, bytes),
            Line::Add(name, part, n) => self.add_add(next, name, part, n),
            Line::Del(name, part) => self.add_del(next, name, part),
            Line::Need(name, part, n) => self.add_need(next, name, part, n),
            Line::Abort => self.add_abort(next),
            Line::Schedule => self.add_schedule(next),
            Line::Client(session, reading) => self.add_client(next, session, reading),
            Line::Deliver(index) => self.add_deliver(next, index),
            Line::Drain => self.add_drain(next),
            Line::End => self.add_end(next),
        }
    }

    /// The next line, which is of the form. After a fault nothing is said of the reading.
    pub fn step(&mut self, line: Line) -> Result<(), SceneFault>
        requires reached { IsReached self.old }
        requires form { IsForm line }
        ensures taken { OnOk result (take_line scene_limits self.old (line) ≡ Now self.new) }
        ensures reached { OnOk result (IsReached self.new) }
        ensures refused { IfErr result (λ f. IsRefusedFor self.old (line) f) }
    {
        let Some(next) = follows(self.version, self.place, word_of(&line)) else {
            return Err(SceneFault::Form);
        };
        self.add(next, line)
    }

    /// The version that the first line gave.
    pub fn version(&self) -> u8
        ensures { result ≡ self.now.draft.version }
    {
        self.version
    }

    /// What the lines so far end with.
    pub fn place(&self) -> Place
        ensures { result ≡ self.now.place }
    {
        self.place
    }

    /// The number of partitions so far.
    pub fn parts(&self) -> usize
        ensures value { result ≡ length self.now.draft.parts }
        ensures limit { result ≤ PARTITIONS }
    {
        self.build.parts()
    }

    /// The next line of the text.
    fn take(&mut self, text: &[u8]) -> Result<(), SceneFault>
        requires { IsReached self.old }
        ensures taken { OnOk result (TakesText text.now self.old self.new) }
        ensures bad { IfErr result (λ f. IsBadText text.now self.old f) }
    {
        let Some(read) = read_line(text) else {
            return Err(SceneFault::Form);
        };
        let Some(next) = follows(self.version, self.place, read.word) else {
            return Err(SceneFault::Form);
        };
        let Some(line) = read.line else {
            return Err(SceneFault::Range);
        };
        self.add(next, line)
    }

    /// Whether the last line has come.
    pub fn is_at_end(&self) -> bool
        ensures { IsTrue result ↔ (self.now.place ≡ Place.AfterEnd) }
    {
        matches!(self.place, Place::AfterEnd)
    }

    /// The scene that the lines give, after the last of them.
    pub fn finish(self) -> Scene
        requires { finish_fault self.draft ≡ None }
        ensures { result ≡ self.draft }
    {
        match self.build.finish() {
            Ok(scene) => scene,
            Err(_) => unreachable!(),
        }
    }
}

/// The version that the first line gives, and where the next one starts.
fn first_line(text: &[u8]) -> Result<(u8, usize), TextFault>
    ensures known { IfOk result (λ p. (p.0 ≡ 1) ⊎ (p.0 ≡ 2)) }
    ensures within { IfOk result (λ p. (1 ≤ p.1) × (p.1 ≤ length text.now)) }
    ensures read { IfOk result (λ p. Reached (take p.1 text.now) 1 (record { place = Place.AfterVersion; draft = empty_draft p.0; ops = [] })) }
    ensures bad { IfErr result (λ f. IsFaultOf text.now f) }
{
    let Some(feed) = next_feed(text, 0) else {
        return Err(TextFault::Bad {
            line: 1,
            why: Why::Cut,
        });
    };
    let Some(read) = read_line(&text[0..feed]) else {
        return Err(TextFault::Bad {
            line: 1,
            why: Why::Form,
        });
    };
    let Some(version) = version_given(&read.line) else {
        return Err(TextFault::Bad {
            line: 1,
            why: Why::Form,
        });
    };
    Ok((version, feed + 1))
}

/// The version, where the line is the version's.
fn version_given(line: &Option<Line>) -> Option<u8>
    ensures { result ≡ version_given line.now }
{
    match line {
        Some(Line::Version(version)) => Some(*version),
        _ => None,
    }
}

/// The fault of a line for which a call was refused.
fn fault_at(line: u64, fault: SceneFault) -> TextFault
    ensures { result ≡ fault_at line fault }
{
    match fault {
        SceneFault::Form => TextFault::Bad {
            line,
            why: Why::Form,
        },
        SceneFault::Range => TextFault::Bad {
            line,
            why: Why::Range,
        },
        SceneFault::Count => TextFault::Bad {
            line,
            why: Why::Count,
        },
        SceneFault::Memory => TextFault::Memory,
    }
}

/// The scene whose text this is. `Bad` names the first line that makes the text no scene's, and why it does.
pub fn read_scene(alloc: Global, text: &[u8]) -> Result<Scene, TextFault>
    ensures read { IfOk result (λ s. IsText text.now s) }
    ensures bad { IfErr result (λ f. IsFaultOf text.now f) }
{
    let (version, mut start) = first_line(text)?;
    let mut reader = Reader::new(alloc, version);
    let mut count = 1;
    while let Some(feed) = next_feed(text, start) {
        if let Err(fault) = reader.take(&text[start..feed]) {
            return Err(fault_at(count + 1, fault));
        }
        start = feed + 1;
        count += 1;
    }
    if start < text.len() {
        return Err(TextFault::Bad {
            line: count + 1,
            why: Why::Cut,
        });
    }
    if !reader.is_at_end() {
        return Err(TextFault::Bad {
            line: count + 1,
            why: Why::Cut,
        });
    }
    Ok(reader.finish())
}

#[cfg(test)]
mod tests {
    use super::*;
    use crate::write::write_scene;
    use std::test::Fail;

    const HEAD: &[u8] = b"str 2\nnodes 2\npart 1 1 2\n";

    #[test]
    fn bad_lines(rt: HostRuntime) {
        let cases: [(&[u8], u64, Why); 12] = [
            (b"", 1, Why::Cut),
            (b"str 3\n", 1, Why::Form),
            (b"str 1\nnodes 1\npart 1 1\nsched", 4, Why::Cut),
            (b"str 1\nnodes 01\n", 2, Why::Form),
            (b"str 1\nnodes 9\n", 2, Why::Range),
            (b"str 1\nnodes 99999999999999999999999\n", 2, Why::Range),
            (b"str 1\nnodes 1\npart 1 1 1\n", 3, Why::Range),
            (
                b"str 1\nnodes 1\npart 1 1\nsession 1\ntx\nput a@1 +5\n",
                6,
                Why::Form,
            ),
            (
                b"str 1\nnodes 1\npart 1 1\nsession 1\ntx\nputs a@1 x68\n",
                6,
                Why::Form,
            ),
            (
                b"str 2\nnodes 1\npart 1 1\nsession 1\ntx\nputs a@1 X68\n",
                6,
                Why::Form,
            ),
            (b"str 1\nnodes 1\npart 1 1\nschedule\nd 0\n", 5, Why::Range),
            (
                b"str 1\nnodes 1\npart 1 1\nschedule\nend\nend\n",
                6,
                Why::Form,
            ),
        ];
        for (text, line, why) in cases {
            match read_scene(rt.alloc(), text) {
                Ok(_) => assert!(rt; false),
                Err(fault) => assert_eq!(rt; fault, TextFault::Bad { line, why }),
            }
        }
    }

    #[test]
    fn reads_and_writes(rt: HostRuntime) -> Result<(), Fail> {
        let mut text = Vec::new(rt.alloc());
        text.extend_from_slice(HEAD)?;
        text.extend_from_slice(
            b"session 2\ntx\nput a@1 -5\nputs b_1@1 x00ff\nneed a@1 0\ntx\nget a@1\nadd a@1 3\ndel b_1@1\nabort\nschedule\nc 1 10\nd 3\ndrain\nend\n",
        )?;
        match read_scene(rt.alloc(), text.as_slice()) {
            Ok(scene) => {
                let again = write_scene(rt.alloc(), &scene)?;
                assert_eq!(rt; again.as_slice(), text.as_slice());
            }
            Err(fault) => assert_eq!(rt; fault, TextFault::Memory),
        }
        Ok(())
    }
}
