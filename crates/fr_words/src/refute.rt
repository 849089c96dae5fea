// The words of the command `refute`.
ghost use Rattle.std.specs.Prelude.{◌≡◌, IfSome, codes, is_some};
ghost use Rattle.fr_words.specs.Found.{rows};
ghost use Rattle.fr_words.specs.Asked.{IsAsked, can_refute};

use crate::found::{is_given, number_at, short_number_at, text_at};
use crate::shared::{
    APP, DEADLOCK, EXPLAIN, FORMAT, HTML, MEMORY, PROGRESS, STATES, WORKERS, format_asked,
};
use crate::table::{CommandTable, Word, command_of};
use clap::{ArgMatches, Command};
use fr_request::{RefuteRequest, Request};
use std::alloc::{AllocError, Global};

/// The command `refute`.
const TABLE: &CommandTable = &CommandTable {
    name: "refute",
    about: "Looks for a run of an application into a breach of a rule, shortest first",
    statuses: "Exit status:
  0  No state of any run breaches a rule; with --deadlock, none is a deadlock either
  1  A run into a breach or a deadlock was printed, or none was found and more states are left
  2  The arguments or the application are refused
  3  The machine failed: no memory, no thread, or a file that can't be read or written",
    words: &[
        APP,
        STATES,
        MEMORY,
        PROGRESS,
        WORKERS,
        DEADLOCK,
        FORMAT,
        Word {
            help: "Print what each step of the run did, and on standard error where a refused file is at fault",
            ..EXPLAIN
        },
        HTML,
    ],
};

/// What `clap` is told of `refute`.
pub fn refute_command<'a>(alloc: Global) -> Result<Command<'a>, AllocError> {
    command_of(alloc, TABLE)
}

/// The search that the matched words ask for. Words that were matched always ask for something, so it is
/// never None.
pub fn asked_refute<'m, 'a>(words: &'m ArgMatches<'a>) -> Option<Request<'m>>
    ensures fields { IfSome result (IsAsked (codes "refute") (rows words.now)) }
    ensures whether { is_some result ≡ can_refute (rows words.now) }
{
    let (Some(app), Some(states), Some(memory), Some(workers)) = (
        text_at(words, "APP"),
        number_at(words, "states"),
        number_at(words, "memory"),
        short_number_at(words, "workers"),
    ) else {
        return None;
    };
    Some(Request::Refute(RefuteRequest {
        app,
        states,
        memory,
        progress: is_given(words, "progress"),
        workers,
        deadlock: is_given(words, "deadlock"),
        explains: is_given(words, "explain"),
        format: format_asked(words),
        html: text_at(words, "html"),
    }))
}
