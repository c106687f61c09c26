//! The reading of the words.
//!
//! `clap` takes more lists of words than are meant, as `run --fr` or words behind `--`. So the words of what came out are
//! compared with those that were given, and only the same list is taken.
ghost use Rattle.clap.specs.Words.{app_of, found_of, kind_of, rows_of, rule_of, subcommand_of, subcommand_rows_of, takes};
ghost use Rattle.clap.specs.declared.builder.command.Command.TheViews.{out-Command as fields_of};
ghost use Rattle.std.specs.Prelude.{◌≡◌, false, true, codes, map, Some, IfErr, IfOk};
ghost use Rattle.std.specs.String.{string_bytes};
ghost use Rattle.strun_words.specs.Parsing.{Finds, HasArguments, HasNumber, IsFailureOf, at_command, flag, generate_command, name_of, program, run_command};
ghost use Rattle.strun_words.specs.Tasks.{AskFor, IsUnasked};

use crate::task::Task;
use clap::error::ErrorKind;
use clap::{Arg, ArgAction, ArgMatches, Command, Error};
use std::alloc::{AllocError, Global};
use str_base::read_u64;
use top_status::Failure;

/// What the words ask for: `run` with its flags, `run --prune`, `pack`, `show`, `gen` with a number and its flag, `bank`, `audit`, or `at` with a number,
/// in this order, and nothing else.
///
/// # Errors
///
/// `Usage` where they are none of these lists, and `Memory` where memory was wanting.
pub fn read_task(alloc: Global, words: &[String]) -> Result<Task, Failure>
    ensures asked { IfOk result (λ task. AskFor (map string_bytes words.now) task) }
    ensures unasked { IfErr result (λ failure. IsUnasked (map string_bytes words.now) failure) }
{
    let texts = texts_of(alloc, words)?;
    let Some(task) = find_task(alloc, texts.as_slice())? else {
        return Err(Failure::Usage);
    };
    if !task.is_asked_by(texts.as_slice()) {
        return Err(Failure::Usage);
    }
    Ok(task)
}

/// The task that `clap` finds in the words, which may be those of no task.
fn find_task(alloc: Global, words: &[&str]) -> Result<Option<Task>, Failure>
    ensures found { IfOk result (λ got. (task : _) → AskFor (map (λ w. w.now) words.now) task → got ≡ Some task) }
    ensures unasked { IfErr result (λ failure. IsUnasked (map (λ w. w.now) words.now) failure) }
{
    match parse(alloc, words) {
        Ok(matches) => Ok(task_of(&matches)),
        Err(error) => Err(failure_of(error.kind())),
    }
}

/// What a parse that failed comes to: `Usage`, but for want of memory.
fn failure_of(kind: ErrorKind) -> Failure
    ensures { IsFailureOf kind result }
{
    match kind {
        ErrorKind::OutOfMemory => Failure::Memory,
        _ => Failure::Usage,
    }
}

/// The words, borrowed.
fn texts_of(alloc: Global, words: &[String]) -> Result<Vec<&str>, AllocError>
    ensures { IfOk result (λ texts. map (λ t. t.now) texts.items ≡ map string_bytes words.now) }
{
    let mut texts = Vec::new(alloc);
    for word in words {
        texts.push(word.as_str())?;
    }
    Ok(texts)
}

/// A flag `--NAME`.
fn flag<'a>(alloc: Global, name: &'a str) -> Arg<'a>
    ensures rule { rule_of result ≡ flag name.now }
    ensures global { result.global ≡ false }
{
    Arg::new(alloc, name).long(name).action(ArgAction::SetTrue)
}

/// The subcommand `run`.
fn run_command<'a>(alloc: Global) -> Result<Command<'a>, AllocError>
    ensures app { IfOk result (λ command. app_of command ≡ run_command) }
    ensures local { IfOk result (λ command. (fields_of command).has_globals ≡ false) }
{
    Command::new(alloc, "run")
        .arg(flag(alloc, "frames"))?
        .arg(flag(alloc, "journal"))?
        .arg(flag(alloc, "prune"))
}

/// The subcommand `gen`.
fn generate_command<'a>(alloc: Global) -> Result<Command<'a>, AllocError>
    ensures app { IfOk result (λ command. app_of command ≡ generate_command) }
    ensures local { IfOk result (λ command. (fields_of command).has_globals ≡ false) }
{
    let seed = Arg::new(alloc, "seed").action(ArgAction::Set);
    Command::new(alloc, "gen")
        .arg(seed)?
        .arg(flag(alloc, "run"))
}

/// The subcommand `at`.
fn at_command<'a>(alloc: Global) -> Result<Command<'a>, AllocError>
    ensures app { IfOk result (λ command. app_of command ≡ at_command) }
    ensures local { IfOk result (λ command. (fields_of command).has_globals ≡ false) }
{
    let time = Arg::new(alloc, "time").action(ArgAction::Set);
    Command::new(alloc, "at").arg(time)
}

/// The subcommands. The words have no program's name in front.
fn program<'a>(alloc: Global) -> Result<Command<'a>, AllocError>
    ensures { IfOk result (λ command. app_of command ≡ program) }
{
    let plain = Command::new(alloc, "strun").no_binary_name(true);
    plain
        .subcommand(run_command(alloc)?)?
        .subcommand(Command::new(alloc, "pack"))?
        .subcommand(Command::new(alloc, "show"))?
        .subcommand(generate_command(alloc)?)?
        .subcommand(Command::new(alloc, "bank"))?
        .subcommand(Command::new(alloc, "audit"))?
        .subcommand(at_command(alloc)?)
}

/// What `clap` makes of the words. It fails on the words of no task, but for want of memory.
fn parse<'a>(alloc: Global, words: &'a [&'a str]) -> Result<ArgMatches<'a>, Error>
    ensures found { IfOk result (λ m. subcommand_rows_of m ≡ subcommand_of program (map (λ w. w.now) words.entry.now)) }
    ensures taken { IfErr result (λ e. takes program (map (λ w. w.now) words.entry.now) ≡ true → kind_of e ≡ ErrorKind.OutOfMemory) }
{
    let command = program(alloc)?;
    command.try_get_matches_from(words)
}

/// The task of a subcommand and its arguments. None where there is no subcommand.
fn task_of(matches: &ArgMatches<'_>) -> Option<Task>
    ensures { (task : _) → Finds (subcommand_rows_of matches.now) task → result ≡ Some task }
{
    let (name, given) = matches.subcommand()?;
    if name == "run" {
        return Some(run_of(given));
    }
    if name == "pack" {
        return Some(Task::Pack);
    }
    if name == "show" {
        return Some(Task::Show);
    }
    if name == "gen" {
        return generate_of(given);
    }
    if name == "bank" {
        return Some(Task::Bank);
    }
    if name == "audit" {
        return Some(Task::Audit);
    }
    if name == "at" {
        return at_of(given);
    }
    None
}

/// The task of the arguments of `run`.
fn run_of(given: &ArgMatches<'_>) -> Task
    ensures { (task : _) → name_of task ≡ codes "run" → HasArguments task (rows_of (found_of given.now)) → result ≡ task }
{
    if given.get_flag("prune") {
        return Task::RunPruned;
    }
    Task::Run {
        frames: given.get_flag("frames"),
        journal: given.get_flag("journal"),
    }
}

/// The task of the arguments of `gen`. None where no number is among them.
fn generate_of(given: &ArgMatches<'_>) -> Option<Task>
    ensures { (task : _) → name_of task ≡ codes "gen" → HasArguments task (rows_of (found_of given.now)) → result ≡ Some task }
{
    let seed = number_of(given, "seed")?;
    Some(Task::Generate {
        seed,
        run: given.get_flag("run"),
    })
}

/// The task of the arguments of `at`. None where no number is among them.
fn at_of(given: &ArgMatches<'_>) -> Option<Task>
    ensures { (task : _) → name_of task ≡ codes "at" → HasArguments task (rows_of (found_of given.now)) → result ≡ Some task }
{
    let time = number_of(given, "time")?;
    Some(Task::At { time })
}

/// The number that an argument is. None where it is no canonical decimal of 64 bits.
fn number_of(given: &ArgMatches<'_>, name: &str) -> Option<u64>
    ensures { (number : _) → HasNumber name.now number (rows_of (found_of given.now)) → result ≡ Some number }
{
    let word = given.get_str(name)?;
    let number = read_u64(word.as_bytes())?;
    Some(number)
}
