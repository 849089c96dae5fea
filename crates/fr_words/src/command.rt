// The whole command line, and what it asks for.
ghost use Rattle.std.specs.Prelude.{◌≡◌, IfSome, is_some};
ghost use Rattle.fr_words.specs.Found.{rows};
ghost use Rattle.fr_words.specs.Asked.{IsAsked, Asks, can_ask, can_ask_any};

use crate::check::{asked_check, check_command};
use crate::find::{asked_find, find_command};
use crate::follow::{asked_follow, follow_command};
use crate::points::{asked_points, points_command};
use crate::prove::{asked_prove, prove_command};
use crate::refute::{asked_refute, refute_command};
use crate::run::{asked_run, run_command};
use crate::shared::STATUSES;
use crate::table::{NAME, bare_command};
use crate::translate::{asked_translate, translate_command};
use clap::{ArgMatches, Command, Error};
use fr_request::{Request, VERSION};
use std::alloc::{AllocError, Global};

/// What `--version` prints after the name. `./build` puts the commit in place of the zeros, in the program that it links.
const VERSIONS: &str = "0.1.0
commit 0000000000000000000000000000000000000000
application format 1
certificate formats 1 and 2";

/// The commands, in the order of the help.
#[derive(Clone, Copy)]
enum Name {
    Prove,
    Check,
    Refute,
    Find,
    Points,
    Run,
    Translate,
    Follow,
}

const NAMES: [Name; 8] = [
    Name::Prove,
    Name::Check,
    Name::Refute,
    Name::Find,
    Name::Points,
    Name::Run,
    Name::Translate,
    Name::Follow,
];

/// What `clap` is told of the command with this name.
fn command_named<'a>(alloc: Global, name: Name) -> Result<Command<'a>, AllocError> {
    match name {
        Name::Prove => prove_command(alloc),
        Name::Check => check_command(alloc),
        Name::Refute => refute_command(alloc),
        Name::Find => find_command(alloc),
        Name::Points => points_command(alloc),
        Name::Run => run_command(alloc),
        Name::Translate => translate_command(alloc),
        Name::Follow => follow_command(alloc),
    }
}

/// Adds what `clap` is told of the commands.
fn push_commands(commands: &mut Vec<Command>, alloc: Global) -> Result<(), AllocError> {
    for name in NAMES {
        commands.push(command_named(alloc, name)?)?;
    }
    Ok(())
}

/// The whole command line, with its eight commands.
fn command<'a>(alloc: Global) -> Result<Command<'a>, AllocError> {
    let about = "Checks that a multicore FreeRTOS application keeps the kernel's usage rules";
    let mut commands = Vec::new(alloc);
    push_commands(&mut commands, alloc)?;
    bare_command(alloc, NAME, about, STATUSES)
        .version(VERSION)
        .long_version(VERSIONS)
        .propagate_version(true)
        .subcommand_required(true)
        .arg_required_else_help(true)
        .subcommands(commands)
}

/// What the words match; else the usage message that says what is wrong with them, the help or the
/// version.
pub fn matched<'a>(alloc: Global, words: &'a [String]) -> Result<ArgMatches<'a>, Error> {
    command(alloc)?.try_get_matches_from(words)
}

/// What the matched words of the command with this name ask for.
fn asked_of<'m, 'a>(name: &str, words: &'m ArgMatches<'a>) -> Option<Request<'m>>
    ensures fields { IfSome result (IsAsked name.now (rows words.now)) }
    ensures whether { is_some result ≡ can_ask name.now (rows words.now) }
{
    match name {
        "check" => asked_check(words),
        "find" => asked_find(words),
        "prove" => asked_prove(words),
        "points" => asked_points(words),
        "refute" => asked_refute(words),
        "run" => asked_run(words),
        "translate" => asked_translate(words),
        "follow" => asked_follow(words),
        _ => None,
    }
}

/// What the matched words ask for. Words that were matched always ask for something, so it is never None.
pub fn asked<'m, 'a>(matches: &'m ArgMatches<'a>) -> Option<Request<'m>>
    ensures fields { IfSome result (Asks matches.now) }
    ensures whether { is_some result ≡ can_ask_any matches.now }
{
    let (name, words) = matches.subcommand()?;
    asked_of(name, words)
}
