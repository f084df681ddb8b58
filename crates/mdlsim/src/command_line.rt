//! What the command line asks for.
ghost use Rattle.std.specs.Prelude.{◌≡◌, ◌↔◌, ℕ, IfErr, IfOk, IsTrue, Some, codes, drop, false, map};
ghost use Rattle.clap.specs.Words.{app_of, found_of, kind_of, one_text, rule_of};
ghost use Rattle.mdl_program.specs.declared.program.Run.{Run};
ghost use Rattle.mdlsim.specs.CommandLine as spec;
ghost use Rattle.mdlsim.specs.CommandLine.{AskForVersion, Asks, Finds, HasNumber, mdlsim, number_rule};

use clap::error::ErrorKind;
use clap::{Arg, ArgAction, ArgMatches, Command, Error, value_parser};
use mdl_key::Kind;
pub use mdl_program::Run;
use mdl_words::is_only_word;
use std::alloc::{AllocError, Global};
use std::convert::AsStr;

/// Reads the words of a command line; the first is the program's name.
pub fn command<S: AsStr>(alloc: Global, words: &[S]) -> Result<Run, Error>
    ensures asked { IfOk result (λ run. Asks (drop 1 (map S.text words.entry.now)) run) }
    ensures taken { (run : Run) → Asks (drop 1 (map S.text words.entry.now)) run
        → IfErr result (λ e. kind_of e ≡ ErrorKind.OutOfMemory) }
{
    let matches = program(alloc)?.try_get_matches_from(words)?;
    Ok(run_found(&matches))
}

/// Whether the words of a command line ask for the version: the program's name, `--version`, and nothing else.
pub fn asks_for_version<S: AsStr>(words: &[S]) -> bool
    ensures { IsTrue result ↔ AskForVersion (drop 1 (map S.text words.now)) }
{
    is_only_word(words, "--version")
}

// Returns the run that was found in words that ask for one.
fn run_found(matches: &ArgMatches) -> Run
    requires { (run : Run) × Finds run matches.now }
    ensures { (run : Run) → Finds run matches.now → result ≡ run }
{
    match matches.subcommand() {
        Some(("lock", options)) => Run::Lock(kind_found(options)),
        Some(("matrix", _)) => Run::Matrix,
        Some(("replay", _)) => Run::Replay,
        Some(("explain", _)) => Run::Explain,
        Some(("run", options)) => Run::Threads(patience_found(options), cache_found(options)),
        _ => unreachable!(),
    }
}

// Returns the kind of lock that the options of `lock` ask for.
fn kind_found(options: &ArgMatches) -> Kind
    ensures scoped { (one_text (found_of options.now) (codes "scoped") ≡ Some (codes "true")) → (result ≡ Kind.Scoped) }
    ensures object { (one_text (found_of options.now) (codes "scoped") ≡ Some (codes "false")) → (result ≡ Kind.Object) }
{
    if options.get_flag("scoped") {
        Kind::Scoped
    } else {
        Kind::Object
    }
}

// Returns the patience that the options of `run` ask for.
fn patience_found(options: &ArgMatches) -> u32
    requires { (patience : ℕ) × HasNumber spec.patience_option options.now patience }
    ensures { (patience : ℕ) → HasNumber spec.patience_option options.now patience → result ≡ patience }
{
    match options.get_one::<u32>("patience") {
        Some(patience) => patience,
        None => unreachable!(),
    }
}

// Returns the capacity of the caches that the options of `run` ask for.
fn cache_found(options: &ArgMatches) -> u16
    requires { (cache : ℕ) × HasNumber spec.cache_option options.now cache }
    ensures { (cache : ℕ) → HasNumber spec.cache_option options.now cache → result ≡ cache }
{
    match options.get_one::<u16>("cache") {
        Some(cache) => cache,
        None => unreachable!(),
    }
}

// Returns the program's subcommands and their options, with their help texts.
fn program<'a>(alloc: Global) -> Result<Command<'a>, AllocError>
    ensures { IfOk result (λ c. app_of c ≡ mdlsim) }
{
    let matrix = Command::new(alloc, "matrix").about(
        "Prints which modes clash, and which wait behind which",
    );
    let replay = Command::new(alloc, "replay").about(
        "Plays a script of statements read from standard input",
    );
    let explain = Command::new(alloc, "explain").about(
        "Says what LINE locks, in which order, and how it can fail; without LINE it reads lines from standard input",
    );
    Command::new(alloc, "mdlsim")
        .subcommand_required(true)
        .subcommand(lock_subcommand(alloc)?)?
        .subcommand(matrix)?
        .subcommand(replay)?
        .subcommand(explain)?
        .subcommand(run_subcommand(alloc)?)
}

// Returns the subcommand `lock`, with its flag.
fn lock_subcommand<'a>(alloc: Global) -> Result<Command<'a>, AllocError>
    ensures { IfOk result (λ c. app_of c ≡ spec.lock_subcommand) }
{
    let scoped = Arg::new(alloc, "scoped")
        .long("scoped")
        .action(ArgAction::SetTrue)
        .help("Drives a scoped lock instead of an object lock");
    Command::new(alloc, "lock")
        .about("Drives one lock by a script read from standard input")
        .arg(scoped)
}

// Returns the subcommand `run`, with its options.
fn run_subcommand<'a>(alloc: Global) -> Result<Command<'a>, AllocError>
    ensures { IfOk result (λ c. app_of c ≡ spec.run_subcommand) }
{
    Command::new(alloc, "run")
        .about(
            "Plays a script of statements read from standard input, each session on a thread of its own",
        )
        .arg(patience_option(alloc))?
        .arg(cache_option(alloc))
}

// Returns the option `--patience`.
fn patience_option<'a>(alloc: Global) -> Arg<'a>
    ensures rule { rule_of result ≡ number_rule spec.patience_option }
    ensures local { result.global ≡ false }
{
    Arg::new(alloc, "patience")
        .long("patience")
        .value_name("N")
        .action(ArgAction::Set)
        .value_parser(value_parser!(u32))
        .default_value("1000000")
        .help("How often a statement that waits looks again before it times out")
}

// Returns the option `--cache`.
fn cache_option<'a>(alloc: Global) -> Arg<'a>
    ensures rule { rule_of result ≡ number_rule spec.cache_option }
    ensures local { result.global ≡ false }
{
    Arg::new(alloc, "cache")
        .long("cache")
        .value_name("N")
        .action(ArgAction::Set)
        .value_parser(value_parser!(u16).range(1..=4096))
        .default_value("64")
        .help("How many definitions each session keeps in a cache, from 1 to 4096")
}
