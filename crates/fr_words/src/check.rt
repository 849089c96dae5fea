// The words of the command `check`.
ghost use Rattle.std.specs.Prelude.{◌≡◌, IfSome, codes, is_some};
ghost use Rattle.fr_words.specs.Found.{rows};
ghost use Rattle.fr_words.specs.Asked.{IsAsked, IsJudged, can_judge, can_check};

use crate::found::{is_given, short_number_at, text_at};
use crate::shared::{
    ALL, APP, CERT, DEADLOCK, EXPLAIN, FORMAT, HTML, STATUSES, WARN, WORKERS, detail_asked,
    format_asked,
};
use crate::table::{CommandTable, TEXT, Word, command_of};
use clap::{ArgMatches, Command};
use fr_request::{CheckRequest, CheckedFiles, Request};
use std::alloc::{AllocError, Global};

/// The command `check`. The files have to be given where no list is.
const TABLE: &CommandTable = &CommandTable {
    name: "check",
    about: "Prints the verdict on an application and a certificate",
    statuses: STATUSES,
    words: &[
        Word {
            required: false,
            unless: &["list"],
            ..APP
        },
        Word {
            required: false,
            unless: &["list"],
            ..CERT
        },
        Word {
            name: "list",
            value: &["FILE"],
            conflicts: &["APP", "CERT"],
            help: "A list of applications: each line has APP CERT, or APP alone to prove it",
            ..TEXT
        },
        WORKERS,
        FORMAT,
        WARN,
        DEADLOCK,
        EXPLAIN,
        ALL,
        HTML,
    ],
};

/// What `clap` is told of `check`.
pub fn check_command<'a>(alloc: Global) -> Result<Command<'a>, AllocError> {
    command_of(alloc, TABLE)
}

/// The files that the matched words name.
fn files_judged<'a>(words: &ArgMatches<'a>) -> Option<CheckedFiles<'a>>
    ensures files { IfSome result (IsJudged (rows words.now)) }
    ensures whether { is_some result ≡ can_judge (rows words.now) }
{
    match (
        text_at(words, "list"),
        text_at(words, "APP"),
        text_at(words, "CERT"),
    ) {
        (Some(list), _, _) => Some(CheckedFiles::Listed(list)),
        (None, Some(app), Some(certificate)) => Some(CheckedFiles::One { app, certificate }),
        _ => None,
    }
}

/// The verdict that the matched words ask for. Words that were matched always ask for something, so it is
/// never None.
pub fn asked_check<'m, 'a>(words: &'m ArgMatches<'a>) -> Option<Request<'m>>
    ensures fields { IfSome result (IsAsked (codes "check") (rows words.now)) }
    ensures whether { is_some result ≡ can_check (rows words.now) }
{
    let (Some(files), Some(workers)) = (files_judged(words), short_number_at(words, "workers"))
    else {
        return None;
    };
    Some(Request::Check(CheckRequest {
        files,
        workers,
        warns: is_given(words, "warn"),
        deadlock: is_given(words, "deadlock"),
        detail: detail_asked(words),
        format: format_asked(words),
        html: text_at(words, "html"),
    }))
}
