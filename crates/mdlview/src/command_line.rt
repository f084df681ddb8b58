//! Reads the words of a command line.
ghost use Rattle.std.specs.Prelude.{◌≡◌, ◌⊎◌, ◌∷◌, ℕ, List, Option, Some, IfOk, Ok, codes, MatchResult, drop, false, map, option_map};
ghost use Rattle.clap.specs.Words.{app_of, first_value, found_of, kind_of, rule_of};
ghost use Rattle.mdlview.specs.declared.asked.Asked.{Asked};
ghost use Rattle.mdlview.specs.declared.asked.Options.{Options};
ghost use Rattle.mdlview.specs.declared.asked.Server.{Server};
ghost use Rattle.mdlview.specs.declared.asked.Subcommand.{Subcommand};
ghost use Rattle.mdlview.specs.CommandLine as spec;
ghost use Rattle.mdlview.specs.CommandLine.{AskBy, Asks, HasOptions, HasServer, asked_by, at_rule, is_option, begins_with_option, html_rule, json_rule, mdlview, script_rule, server_name, server_rule, subcommand_name, why_alone};

use crate::asked::{Asked, Misuse, Options, Server, Subcommand, asked_by};
use crate::help::{PROGRAM_HELP, about_text, at_help, examples_of, script_help};
use clap::error::ErrorKind;
use clap::{Arg, ArgAction, ArgMatches, Command, Error, value_parser};
use std::alloc::{AllocError, Global};
use std::convert::AsStr;

/// Reads the words of a command line. The first is the program's name.
pub fn words_read<S: AsStr>(alloc: Global, words: &[S]) -> Result<Asked, Error>
    ensures asked { IfOk result (λ asked. Asks (drop 1 (map S.text words.entry.now)) asked) }
    // Words that ask for something are refused only if memory runs out.
    ensures taken { (asked : Asked) → Asks (drop 1 (map S.text words.entry.now)) asked
        → MatchResult result (λ found. found ≡ asked) (λ e. kind_of e ≡ ErrorKind.OutOfMemory) }
{
    if begins_with_option(words) {
        why_read(alloc, words)
    } else {
        subcommand_read(alloc, words)
    }
}

// Whether there are no words behind the program's name, or the first of them is an option.
fn begins_with_option<S: AsStr>(words: &[S]) -> bool
    ensures { result ≡ begins_with_option (drop 1 (map S.text words.now)) }
{
    match words {
        [_, first, ..] => is_option(first.as_str()),
        _ => true,
    }
}

// Whether a word is an option, and not `--help`, which is the program's.
fn is_option(word: &str) -> bool
    ensures { result ≡ is_option word.now }
{
    match word.as_bytes() {
        [b'-', b'-', b'h', b'e', ..] => false,
        [b'-', b'-', ..] => true,
        _ => false,
    }
}

// Reads words without a subcommand.
fn why_read<S: AsStr>(alloc: Global, words: &[S]) -> Result<Asked, Error>
    ensures asked { IfOk result (AskBy Subcommand.Why (drop 1 (map S.text words.entry.now))) }
    ensures taken { (asked : Asked) → AskBy Subcommand.Why (drop 1 (map S.text words.entry.now)) asked
        → MatchResult result (λ found. found ≡ asked) (λ e. kind_of e ≡ ErrorKind.OutOfMemory) }
{
    let command = with_options(alloc, Subcommand::Why, Command::new(alloc, "mdlview"))?;
    let matches = command.try_get_matches_from(words)?;
    asked_found(alloc, Subcommand::Why, &matches)
}

// Reads words that begin with a subcommand.
fn subcommand_read<S: AsStr>(alloc: Global, words: &[S]) -> Result<Asked, Error>
    ensures asked { IfOk result (λ asked. (named : Subcommand) × (rest : List (List ℕ))
        × (drop 1 (map S.text words.entry.now) ≡ subcommand_name named ∷ rest) × AskBy named rest asked) }
    ensures taken { (named : Subcommand) → (rest : List (List ℕ)) → (asked : Asked)
        → drop 1 (map S.text words.entry.now) ≡ subcommand_name named ∷ rest → AskBy named rest asked
        → MatchResult result (λ found. found ≡ asked) (λ e. kind_of e ≡ ErrorKind.OutOfMemory) }
{
    let matches = program(alloc)?.try_get_matches_from(words)?;
    match matches.subcommand() {
        Some((name, options)) => asked_found(alloc, subcommand_named(name), options),
        None => unreachable!(),
    }
}

// The subcommand of this name.
fn subcommand_named(name: &str) -> Subcommand
    ensures { (named : Subcommand) → name.now ≡ subcommand_name named → result ≡ named }
{
    match name {
        "locks" => Subcommand::Locks,
        "waits" => Subcommand::Waits,
        "graph" => Subcommand::Graph,
        "timeline" => Subcommand::Timeline,
        "query" => Subcommand::Query,
        _ => Subcommand::Why,
    }
}

// What a subcommand asks for with the options that were found, or the refusal.
fn asked_found(alloc: Global, subcommand: Subcommand, matches: &ArgMatches) -> Result<Asked, Error>
    ensures asked { IfOk result (λ asked. (options : Options) × HasServer matches.now options
        × ((found : Options) → HasOptions matches.now found → options ≡ found) × (asked_by subcommand options ≡ Some asked)) }
    ensures taken { (options : Options) → (asked : Asked) → HasOptions matches.now options → asked_by subcommand options ≡ Some asked → result ≡ Ok asked }
{
    match options_asked(subcommand, matches) {
        Ok(asked) => Ok(asked),
        Err(misuse) => Err(refusal(alloc, misuse)),
    }
}

// What a subcommand asks for with the options that were found.
fn options_asked(subcommand: Subcommand, matches: &ArgMatches) -> Result<Asked, Misuse>
    ensures asked { IfOk result (λ asked. (options : Options) × HasServer matches.now options
        × ((found : Options) → HasOptions matches.now found → options ≡ found) × (asked_by subcommand options ≡ Some asked)) }
    ensures taken { (options : Options) → (asked : Asked) → HasOptions matches.now options → asked_by subcommand options ≡ Some asked → result ≡ Ok asked }
{
    let options = options_found(matches)?;
    asked_by(subcommand, options)
}

// The options that were found.
fn options_found(matches: &ArgMatches) -> Result<Options, Misuse>
    ensures server { IfOk result (HasServer matches.now) }
    ensures found { (options : Options) → HasOptions matches.now options → result ≡ Ok options }
{
    Ok(Options {
        is_script: matches.get_flag("script"),
        is_json: matches.get_flag("json"),
        last: matches.get_one::<u64>("at"),
        server: server_found(matches)?,
        is_html: matches.get_flag("html"),
    })
}

// The kind of server that was found.
fn server_found(matches: &ArgMatches) -> Result<Option<Server>, Misuse>
    ensures server { IfOk result (λ server. first_value (found_of matches.now) (codes "server") ≡ option_map server_name server) }
    ensures found { (server : Option Server) → first_value (found_of matches.now) (codes "server") ≡ option_map server_name server → result ≡ Ok server }
{
    match matches.get_str("server") {
        None => Ok(None),
        Some("mysql") => Ok(Some(Server::MySql)),
        Some("mariadb") => Ok(Some(Server::MariaDb)),
        Some(_) => Err(Misuse::UnknownServer),
    }
}

// The refusal of options, with the usage of the program.
fn refusal(alloc: Global, misuse: Misuse) -> Error {
    match refusal_made(alloc, misuse) {
        Ok(error) => error,
        Err(lack) => Error::from(lack),
    }
}

fn refusal_made(alloc: Global, misuse: Misuse) -> Result<Error, AllocError> {
    program(alloc)?.error(ErrorKind::ArgumentConflict, misuse.as_str())
}

// The program with its subcommands, as help shows it.
fn program<'a>(alloc: Global) -> Result<Command<'a>, AllocError>
    ensures { IfOk result (λ c. app_of c ≡ mdlview) }
{
    Command::new(alloc, "mdlview")
        .about(
            "Says who blocks whom at metadata locks: a server's, by its rows, or those that a script leaves",
        )
        .override_usage("mdlview [COMMAND] [OPTIONS]")
        .after_help(PROGRAM_HELP)
        .subcommand_required(true)
        .subcommand(with_options(alloc, Subcommand::Why, Command::new(alloc, "why"))?)?
        .subcommand(with_options(alloc, Subcommand::Locks, Command::new(alloc, "locks"))?)?
        .subcommand(with_options(alloc, Subcommand::Waits, Command::new(alloc, "waits"))?)?
        .subcommand(with_options(alloc, Subcommand::Graph, Command::new(alloc, "graph"))?)?
        .subcommand(with_options(alloc, Subcommand::Timeline, Command::new(alloc, "timeline"))?)?
        .subcommand(with_options(alloc, Subcommand::Query, Command::new(alloc, "query"))?)
}

// A command with all options. Help shows those that the subcommand takes.
fn with_options<'a>(
    alloc: Global,
    subcommand: Subcommand,
    command: Command<'a>,
) -> Result<Command<'a>, AllocError>
    ensures { IfOk result (λ c. app_of c ≡ spec.with_options (app_of command.entry)) }
{
    command
        .about(about_text(subcommand))
        .after_help(examples_of(subcommand))
        .arg(script_option(alloc, subcommand))?
        .arg(at_option(alloc, subcommand))?
        .arg(json_option(alloc, subcommand))?
        .arg(server_option(alloc, subcommand))?
        .arg(html_option(alloc, subcommand))
}

// The option `--script`.
fn script_option<'a>(alloc: Global, subcommand: Subcommand) -> Arg<'a>
    ensures rule { rule_of result ≡ script_rule }
    ensures local { result.global ≡ false }
{
    Arg::new(alloc, "script")
        .long("script")
        .action(ArgAction::SetTrue)
        .hide(subcommand == Subcommand::Query)
        .help(script_help(subcommand))
}

// The option `--at`.
fn at_option<'a>(alloc: Global, subcommand: Subcommand) -> Arg<'a>
    ensures rule { rule_of result ≡ at_rule }
    ensures local { result.global ≡ false }
{
    Arg::new(alloc, "at")
        .long("at")
        .value_name("LINE")
        .action(ArgAction::Set)
        .value_parser(value_parser!(u64).range(1..))
        .hide(subcommand == Subcommand::Query)
        .help(at_help(subcommand))
}

// The option `--json`.
fn json_option<'a>(alloc: Global, subcommand: Subcommand) -> Arg<'a>
    ensures rule { rule_of result ≡ json_rule }
    ensures local { result.global ≡ false }
{
    Arg::new(alloc, "json")
        .long("json")
        .action(ArgAction::SetTrue)
        .hide(matches!(
            subcommand,
            Subcommand::Graph | Subcommand::Timeline | Subcommand::Query
        ))
        .help("Prints an object of JSON")
}

// The option `--server`.
fn server_option<'a>(alloc: Global, subcommand: Subcommand) -> Arg<'a>
    ensures rule { rule_of result ≡ server_rule }
    ensures local { result.global ≡ false }
{
    Arg::new(alloc, "server")
        .long("server")
        .value_name("NAME")
        .action(ArgAction::Set)
        .hide(subcommand != Subcommand::Query)
        .help("The kind of server, mysql or mariadb; if none is named, mysql")
}

// The option `--html`.
fn html_option<'a>(alloc: Global, subcommand: Subcommand) -> Arg<'a>
    ensures rule { rule_of result ≡ html_rule }
    ensures local { result.global ≡ false }
{
    Arg::new(alloc, "html")
        .long("html")
        .action(ArgAction::SetTrue)
        .hide(subcommand != Subcommand::Timeline)
        .help("Prints a page of HTML, which shows the locks and the waits after each line")
}
