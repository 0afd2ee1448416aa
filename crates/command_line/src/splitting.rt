//! The words of a command as `clap` splits them.

ghost use Rattle.std.specs.Prelude.{◌≡◌, map, option_map, true, false, is_some, IfOk, IfSome};
ghost use Rattle.std.specs.String.{string_bytes};
ghost use Rattle.program_rules.specs.Commands.{placed_of};
ghost use Rattle.clap.specs.Words.{app_of, first_of, found_of, rows_of, rule_of, subcommand_rows_of};
ghost use Rattle.command_line.specs.Commands.{IsInRange, known_if};
ghost use Rattle.command_line.specs.Splitting.{MakesLeaf, audit_shape, bulk_in, bulk_shape, node_in, node_shape, place_rule, play_shape, record_shape, show_dump_in, show_dump_shape, spelled_in, splitter_app};

use crate::command::Command;
use crate::rule::{bulk_of, node_of, show_dump_of};
use clap::error::ErrorKind;
use clap::{Arg, ArgMatches};
use std::alloc::{AllocError, Global};

/// A word that has to stand at its place.
fn place<'a>(alloc: Global, id: &'a str) -> Arg<'a>
    ensures rule { rule_of result ≡ place_rule id.entry.now }
    ensures local { result.global ≡ false }
{
    Arg::new(alloc, id).required(true)
}

/// `play`.
fn play_form<'a>(alloc: Global) -> clap::Command<'a>
    ensures { MakesLeaf play_shape result }
{
    clap::Command::new(alloc, "play")
}

/// `bulk` with a place for each of its words.
fn bulk_form<'a>(alloc: Global) -> Result<clap::Command<'a>, AllocError>
    ensures { IfOk result (MakesLeaf bulk_shape) }
{
    clap::Command::new(alloc, "bulk")
        .arg(place(alloc, "seed"))?
        .arg(place(alloc, "connections"))?
        .arg(place(alloc, "messages"))?
        .arg(place(alloc, "moves"))
}

/// `show-dump` with a place for its name.
fn show_dump_form<'a>(alloc: Global) -> Result<clap::Command<'a>, AllocError>
    ensures { IfOk result (MakesLeaf show_dump_shape) }
{
    clap::Command::new(alloc, "show-dump").arg(place(alloc, "name"))
}

/// `audit`.
fn audit_form<'a>(alloc: Global) -> clap::Command<'a>
    ensures { MakesLeaf audit_shape result }
{
    clap::Command::new(alloc, "audit")
}

/// `record`.
fn record_form<'a>(alloc: Global) -> clap::Command<'a>
    ensures { MakesLeaf record_shape result }
{
    clap::Command::new(alloc, "record")
}

/// `node` with a place for each of its words.
fn node_form<'a>(alloc: Global) -> Result<clap::Command<'a>, AllocError>
    ensures { IfOk result (MakesLeaf node_shape) }
{
    clap::Command::new(alloc, "node")
        .arg(place(alloc, "id"))?
        .arg(place(alloc, "address"))
}

/// The six commands, and nothing beside them: no word asks for help or for the version.
fn forms<'a>(alloc: Global) -> Result<clap::Command<'a>, AllocError>
    ensures { IfOk result (λ c. app_of c ≡ splitter_app) }
{
    clap::Command::new(alloc, "jichurpa")
        .no_binary_name(true)
        .disable_help_flag(true)
        .disable_help_subcommand(true)
        .subcommand_required(true)
        .subcommand(play_form(alloc))?
        .subcommand(bulk_form(alloc)?)?
        .subcommand(show_dump_form(alloc)?)?
        .subcommand(audit_form(alloc))?
        .subcommand(record_form(alloc))?
        .subcommand(node_form(alloc)?)
}

/// Splits words that are of a command. They are refused only when out of memory.
pub(crate) fn split<'a>(alloc: Global, words: &'a [String]) -> Result<ArgMatches<'a>, AllocError>
    requires { is_some (placed_of (map string_bytes words.now)) ≡ true }
    ensures { IfOk result (λ m. spelled_in (subcommand_rows_of m)
        ≡ placed_of (map string_bytes words.entry.now)) }
{
    match forms(alloc)?.try_get_matches_from(words) {
        Ok(matches) => Ok(matches),
        Err(error) => {
            prove!(matches!(error.kind(), ErrorKind::OutOfMemory));
            Err(AllocError)
        }
    }
}

/// The word at a place.
fn word_at<'a>(values: &ArgMatches<'a>, id: &str) -> Option<&'a str>
    ensures { option_map (λ s. s.now) result ≡ first_of id.now (rows_of (found_of values.now)) }
{
    values.get_str(id)
}

/// `bulk`, as its words were split.
fn bulk_in_matches(values: &ArgMatches<'_>) -> Option<Command>
    ensures value { known_if result ≡ bulk_in (rows_of (found_of values.now)) }
    ensures within { IfSome result IsInRange }
{
    bulk_of(
        word_at(values, "seed")?,
        word_at(values, "connections")?,
        word_at(values, "messages")?,
        word_at(values, "moves")?,
    )
}

/// `show-dump`, as its words were split.
fn show_dump_in_matches(values: &ArgMatches<'_>) -> Option<Command>
    ensures value { known_if result ≡ show_dump_in (rows_of (found_of values.now)) }
    ensures within { IfSome result IsInRange }
{
    show_dump_of(word_at(values, "name")?)
}

/// `node`, as its words were split.
fn node_in_matches(values: &ArgMatches<'_>) -> Option<Command>
    ensures value { known_if result ≡ node_in (rows_of (found_of values.now)) }
    ensures within { IfSome result IsInRange }
{
    node_of(word_at(values, "id")?, word_at(values, "address")?)
}

/// The command of words as they were split.
pub(crate) fn command_in(matches: &ArgMatches<'_>) -> Option<Command>
    ensures value { known_if result ≡ spelled_in (subcommand_rows_of matches.now) }
    ensures within { IfSome result IsInRange }
{
    let (name, values) = matches.subcommand()?;
    match name {
        "play" => Some(Command::Play),
        "bulk" => bulk_in_matches(values),
        "show-dump" => show_dump_in_matches(values),
        "audit" => Some(Command::Audit),
        "record" => Some(Command::Record),
        "node" => node_in_matches(values),
        _ => None,
    }
}
