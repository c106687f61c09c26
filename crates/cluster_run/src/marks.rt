//! Low marks: those that messages carry, and those that a node has heard.
ghost use Rattle.cluster_run.specs.Marks.{hearing};
ghost use Rattle.std.specs.Prelude.{◌≡◌, ◌≤◌, ◌-◌, ◌++◌, [], IfOk, OnOk, false, min, option_map, replicate, slice_get, slice_set, true, vec_capacity, vec_len};
ghost use Rattle.str_model.specs.PrunedRuns.{bound, row_or};
ghost use Rattle.str_scene.specs.Scenes.{nth};

use std::alloc::{AllocError, Global};
use std::marker::{Model, Send, Sync};
use str_base::Ts;

/// What a message told of its sender: the sender's place, counted from 0, and its low mark when it sent the message.
#[derive(Clone, Copy)]
pub struct Told {
    pub place: usize,
    pub mark: Ts,
}

/// The low mark of its sender for each message, in order of sending.
#[derive(Drop)]
pub struct CarriedMarks {
    times: Vec<u64>,
}

impl Model for CarriedMarks {
    ghost use Rattle.cluster_run.specs.Marks.{CarriedState};
    ghost use Rattle.std.specs.Prelude.{◌-◌, vec_capacity, vec_len};

    ghost Value = { CarriedState };

    ghost view = { λ c. record { marks = c.times.items; spare = vec_capacity c.times - vec_len c.times } };
}

impl CarriedMarks {
    /// No message.
    pub fn new(alloc: Global) -> CarriedMarks
        ensures { result.marks ≡ [] }
    {
        CarriedMarks {
            times: Vec::new(alloc),
        }
    }

    /// What the message with this number, counted from 1, carries.
    pub fn get(&self, index: u64) -> Option<Ts>
        ensures { option_map (λ t. t.0) result ≡ nth self.now.marks index }
    {
        if index == 0 {
            return None;
        }
        match self.times.get(index as usize - 1) {
            Some(time) => Some(Ts(*time)),
            None => None,
        }
    }

    /// Makes space for `n` more messages. The marks stay, also after an error.
    pub fn reserve(&mut self, n: usize) -> Result<(), AllocError>
        ensures space { OnOk result (n ≤ self.new.spare) }
        ensures marks { self.new.marks ≡ self.old.marks }
    {
        self.times.reserve(n)
    }

    /// `n` more messages, each of which carries this mark.
    pub fn extend(&mut self, n: usize, mark: Ts)
        requires { n ≤ self.old.spare }
        ensures { self.new.marks ≡ self.old.marks ++ replicate n mark.0 }
    {
        push_times(&mut self.times, n, mark.0);
    }
}

/// Appends `n` times the same time.
fn push_times(times: &mut Vec<u64>, n: usize, time: u64)
    requires { n ≤ vec_capacity times.old - vec_len times.old }
    ensures { times.new.items ≡ times.old.items ++ replicate n time }
{
    for _i in 0..n {
        times.push_reserved(time);
    }
}

/// What a node has heard of each node: the greatest low mark that a message of that node has carried to it. It is seen as the list of these marks.
#[derive(Drop)]
pub struct HeardMarks {
    times: Vec<u64>,
}

impl Model for HeardMarks {
    ghost use Rattle.std.specs.Prelude.{List, ℕ};

    ghost Value = { List ℕ };

    ghost view = { λ h. h.times.items };
}

impl HeardMarks {
    /// Nothing was heard of so many nodes.
    pub fn new(alloc: Global, nodes: usize) -> Result<HeardMarks, AllocError>
        ensures { IfOk result (λ h. h ≡ replicate nodes 0) }
    {
        let mut times = Vec::new(alloc);
        times.resize(nodes, 0)?;
        Ok(HeardMarks { times })
    }

    /// Takes in what a message told. A greater mark stays.
    pub fn hear(&mut self, told: Option<Told>)
        ensures { self.new ≡ hearing told self.old }
    {
        let Some(told) = told else {
            return;
        };
        if told.place < self.times.len() {
            self.times[told.place] = self.times[told.place].max(told.mark.0);
        }
    }

    /// The least of a node's low mark and of what it has heard of the others; `own` is its own place.
    pub fn bound(&self, own: usize, low: Ts) -> Ts
        ensures { result.0 ≡ bound low.0 own self.now }
    {
        let mut least = low.0;
        for i in 0..self.times.len() {
            least = lesser(least, self.times[i], i == own);
        }
        Ts(least)
    }
}

/// The lesser of two times, where the second is not the node's own.
fn lesser(least: u64, time: u64, is_own: bool) -> u64
    ensures own { is_own ≡ true → result ≡ least }
    ensures other { is_own ≡ false → result ≡ min least time }
{
    if is_own {
        return least;
    }
    least.min(time)
}

/// The node at a place hears what a message told, and this is the mark at which it prunes then.
pub(crate) fn hear_at(rows: &mut Vec<HeardMarks>, place: usize, told: Option<Told>, low: Ts) -> Ts
    ensures rows { rows.new.items ≡ slice_set rows.old.items place (hearing told (row_or (slice_get rows.old.items place))) }
    ensures bound { result.0 ≡ bound low.0 place (hearing told (row_or (slice_get rows.old.items place))) }
{
    if place >= rows.len() {
        return low;
    }
    let row = &mut rows[place];
    row.hear(told);
    row.bound(place, low)
}

/// What the nodes have heard at the beginning: nothing.
pub(crate) fn nothing_heard(alloc: Global, nodes: usize) -> Result<Vec<HeardMarks>, AllocError>
    ensures { IfOk result (λ rows. rows.items ≡ replicate nodes (replicate nodes 0)) }
{
    let mut rows = Vec::new(alloc);
    for _i in 0..nodes {
        rows.push(HeardMarks::new(alloc, nodes)?)?;
    }
    Ok(rows)
}

fn sendable<T: Send + Sync>(_: &T) {}

fn all_sendable(carried: &CarriedMarks, heard: &HeardMarks) {
    sendable(carried);
    sendable(heard);
}
