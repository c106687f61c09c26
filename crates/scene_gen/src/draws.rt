//! What the numbers of a generator give: keys, scripts and entries.
ghost use Rattle.std.specs.Prelude.{◌≡◌, ◌%◌, ◌<◌, ◌≤◌, ◌∷◌, [], pos, negsuc};
ghost use Rattle.rand_pcg.specs.Lcg.{Lcg};
ghost use Rattle.scene_gen.specs.Drawn.{after, after_entry, after_script, entry, generator, key_at, nth, script};
ghost use Rattle.scene_gen.specs.declared.draws.MadeOp.TheVariants.{Add, Get, Put};

use rand_core::utils::NextWord;
use rand_pcg::Lcg64Xsh32;
use std::marker::Model;
use str_base::{PartId, SessionId, ShortList};
use str_scene::Event;

/// A key of a made scene: `k` and a digit, which is a byte of text, in a partition.
#[derive(Clone, Copy, Debug, Default, PartialEq, Eq)]
pub struct MadeKey {
    pub digit: u8,
    pub part: PartId,
}

/// An operation of a made scene, by its key.
#[derive(Clone, Copy, Debug, PartialEq, Eq)]
pub enum MadeOp {
    /// The key's value is read.
    Get(MadeKey),
    /// The key becomes the number.
    Put(MadeKey, i64),
    /// The key becomes the sum of its value and the number.
    Add(MadeKey, i64),
}

impl Default for MadeOp {
    fn default() -> MadeOp {
        MadeOp::Get(MadeKey::default())
    }
}

/// The operations of a transaction of a made scene.
pub type MadeScript = ShortList<MadeOp, 3>;

/// The numbers of a seed that are still to come. It is seen as the generator's state.
#[derive(Drop)]
pub struct Draws {
    generator: Lcg64Xsh32,
}

impl Model for Draws {
    ghost use Rattle.rand_pcg.specs.Lcg.{Lcg};

    ghost Value = { Lcg };

    ghost view = { λ d. d.generator };
}

impl Draws {
    /// The numbers of a seed from the first on.
    #[tactic(auto, unfolding(crate::specs::Drawn::generator))]
    pub fn new(seed: u64) -> Draws
        ensures { result ≡ generator seed }
    {
        Draws {
            generator: Lcg64Xsh32::new(seed, 1),
        }
    }

    /// The next number, modulo `n`.
    #[tactic(auto, unfolding(crate::specs::Drawn::number, crate::specs::Drawn::next))]
    fn draw(&mut self, n: u32) -> u32
        requires { 0 < n }
        ensures value { result ≡ nth 0 self.old % n }
        ensures rest { self.new ≡ after 1 self.old }
    {
        self.generator.next_word() % n
    }

    /// A key: its partition is drawn first, then its digit.
    fn key(&mut self) -> MadeKey
        ensures value { result ≡ key_at 0 self.old }
        ensures rest { self.new ≡ after 2 self.old }
    {
        let part = PartId(1 + self.draw(6) as u8);
        let digit = b'0' + self.draw(10) as u8;
        MadeKey { digit, part }
    }

    /// A transaction that reads three keys.
    fn three_gets(&mut self) -> MadeScript
        ensures value { result ≡ Get (key_at 0 self.old) ∷ Get (key_at 2 self.old) ∷ Get (key_at 4 self.old) ∷ [] }
        ensures rest { self.new ≡ after 6 self.old }
    {
        let mut script = MadeScript::new();
        script.push(MadeOp::Get(self.key()));
        script.push(MadeOp::Get(self.key()));
        script.push(MadeOp::Get(self.key()));
        script
    }

    /// A transaction that moves 1 from a key to a key.
    fn a_move(&mut self) -> MadeScript
        ensures value { result ≡ Add (key_at 0 self.old) (negsuc 0) ∷ Add (key_at 2 self.old) (pos 1) ∷ [] }
        ensures rest { self.new ≡ after 4 self.old }
    {
        let mut script = MadeScript::new();
        script.push(MadeOp::Add(self.key(), -1));
        script.push(MadeOp::Add(self.key(), 1));
        script
    }

    /// A transaction that puts a number below 100 at a key, and reads a key.
    fn put_and_get(&mut self) -> MadeScript
        ensures value { result ≡ Put (key_at 0 self.old) (pos (nth 2 self.old % 100)) ∷ Get (key_at 3 self.old) ∷ [] }
        ensures rest { self.new ≡ after 5 self.old }
    {
        let mut script = MadeScript::new();
        let key = self.key();
        let number = i64::from(self.draw(100));
        script.push(MadeOp::Put(key, number));
        script.push(MadeOp::Get(self.key()));
        script
    }

    /// A transaction that reads a key and adds 1 to it.
    fn get_and_add(&mut self) -> MadeScript
        ensures value { result ≡ Get (key_at 0 self.old) ∷ Add (key_at 0 self.old) (pos 1) ∷ [] }
        ensures rest { self.new ≡ after 2 self.old }
    {
        let mut script = MadeScript::new();
        let key = self.key();
        script.push(MadeOp::Get(key));
        script.push(MadeOp::Add(key, 1));
        script
    }

    /// The next transaction: a number chooses its kind, and then its keys and numbers are drawn from left to right.
    pub fn script(&mut self) -> MadeScript
        ensures value { result ≡ script self.old }
        ensures rest { self.new ≡ after_script self.old }
    {
        match self.draw(4) {
            0 => self.three_gets(),
            1 => self.a_move(),
            2 => self.put_and_get(),
            _ => self.get_and_add(),
        }
    }

    /// The next entry of the schedule, which has the number `place`, counted from 1.
    pub fn entry(&mut self, place: u64) -> Event
        requires { place ≤ 6000 }
        ensures value { result ≡ entry place self.old }
        ensures rest { self.new ≡ after_entry self.old }
    {
        if self.draw(4) < 2 {
            let index = 1 + u64::from(self.draw(3000));
            Event::Deliver { index }
        } else {
            let session = SessionId(1 + self.draw(12) as u8);
            let reading = 10 * place + u64::from(self.draw(100));
            Event::Client { session, reading }
        }
    }
}
