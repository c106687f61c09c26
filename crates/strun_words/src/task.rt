//! What the words of a call ask for.
ghost use Rattle.std.specs.Bool.{Decides};
ghost use Rattle.std.specs.Prelude.{◌≡◌, map};
ghost use Rattle.strun_words.specs.Tasks.{words_of};

use itoa::Buffer;

/// What the words of a call ask for.
#[derive(Clone, Copy, Debug, PartialEq, Eq)]
pub enum Task {
    /// Run a scene, which comes as its text or, with `--frames`, as its frames, and write the answers and the last line. With
    /// `--journal` each event has a line before its answers.
    Run { frames: bool, journal: bool },
    /// Run a scene, which comes as its text, in a cluster that drops old versions, and write the answers, the last line and how many versions
    /// were kept.
    RunPruned,
    /// Write the frames of a scene, which comes as its text.
    Pack,
    /// Write the text of a scene, which comes as its frames.
    Show,
    /// Write the text of the scene that is made from a seed, or, with `--run`, run it and write the last line alone.
    Generate { seed: u64, run: bool },
    /// Run the scene of a bank, which comes as its text, and write the answers, the last line, the balance of each account and their sum.
    Bank,
    /// Say whether snapshot isolation holds of a history, which comes as the text of its scene with its answers and its last line behind it.
    Audit,
    /// Write the values that stood at a timestamp in such a history.
    At { time: u64 },
}

impl Task {
    /// Whether these are the words that ask for it. One list of words does.
    pub fn is_asked_by(self, words: &[&str]) -> bool
        ensures { Decides result (map (λ w. w.now) words.now ≡ words_of self) }
    {
        match self {
            Task::Run { frames, journal } => is_run(frames, journal, words),
            Task::RunPruned => are_same(words, &["run", "--prune"]),
            Task::Pack => are_same(words, &["pack"]),
            Task::Show => are_same(words, &["show"]),
            Task::Generate { seed, run } => is_generate(seed, run, words),
            Task::Bank => are_same(words, &["bank"]),
            Task::Audit => are_same(words, &["audit"]),
            Task::At { time } => is_at(time, words),
        }
    }
}

/// Whether the words are `run` with these flags.
fn is_run(frames: bool, journal: bool, words: &[&str]) -> bool
    ensures { Decides result (map (λ w. w.now) words.now ≡ words_of (Task.Run frames journal)) }
{
    match (frames, journal) {
        (false, false) => are_same(words, &["run"]),
        (false, true) => are_same(words, &["run", "--journal"]),
        (true, false) => are_same(words, &["run", "--frames"]),
        (true, true) => are_same(words, &["run", "--frames", "--journal"]),
    }
}

/// Whether the words are `gen` with this seed and this flag.
fn is_generate(seed: u64, run: bool, words: &[&str]) -> bool
    ensures { Decides result (map (λ w. w.now) words.now ≡ words_of (Task.Generate seed run)) }
{
    let mut digits = Buffer::new();
    let number = digits.format(seed);
    if run {
        are_same(words, &["gen", number, "--run"])
    } else {
        are_same(words, &["gen", number])
    }
}

/// Whether the words are `at` with this timestamp.
fn is_at(time: u64, words: &[&str]) -> bool
    ensures { Decides result (map (λ w. w.now) words.now ≡ words_of (Task.At time)) }
{
    let mut digits = Buffer::new();
    let number = digits.format(time);
    are_same(words, &["at", number])
}

/// Whether two lists of words are the same.
fn are_same(words: &[&str], others: &[&str]) -> bool
    ensures { Decides result (map (λ w. w.now) words.now ≡ map (λ w. w.now) others.now) }
{
    words == others
}
