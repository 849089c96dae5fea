// The words of the command `run`.
ghost use Rattle.std.specs.Prelude.{◌≡◌, IfSome, codes, is_some};
ghost use Rattle.fr_words.specs.Found.{rows};
ghost use Rattle.fr_words.specs.Asked.{IsAsked, can_run};

use crate::found::{number_at, text_at};
use crate::shared::{ALL, APP, CERT, EXPLAIN, detail_asked};
use crate::table::{CommandTable, TEXT, Word, command_of};
use clap::builder::ValueParser;
use clap::{ArgMatches, Command};
use fr_request::{Request, RunRequest};
use std::alloc::{AllocError, Global};

/// The command `run`.
const TABLE: &CommandTable = &CommandTable {
    name: "run",
    about: "Runs an application that passes with its certificate, and prints each step",
    statuses: "Exit status:
  0  The verdict is yes, and the lines of the run were printed
  1  The verdict is no, and the report was printed
  2  The arguments, the application or the certificate are refused
  3  The machine failed: no memory, no thread, or a file that can't be read or written",
    words: &[
        APP,
        CERT,
        Word {
            name: "polls",
            value: &["N"],
            parser: ValueParser::Signed(0, 1_000_000),
            required: true,
            help: "Turns of actors in all, 0 to 1000000",
            ..TEXT
        },
        Word {
            name: "words",
            value: &["W,W,.."],
            help: "Numbers below 2^64, over and over, that pick each turn's choice; 0 without them",
            ..TEXT
        },
        EXPLAIN,
        ALL,
    ],
};

/// What `clap` is told of `run`.
pub fn run_command<'a>(alloc: Global) -> Result<Command<'a>, AllocError> {
    command_of(alloc, TABLE)
}

/// The run that the matched words ask for. Words that were matched always ask for something, so it is
/// never None.
pub fn asked_run<'m, 'a>(words: &'m ArgMatches<'a>) -> Option<Request<'m>>
    ensures fields { IfSome result (IsAsked (codes "run") (rows words.now)) }
    ensures whether { is_some result ≡ can_run (rows words.now) }
{
    let (Some(app), Some(certificate), Some(polls)) = (
        text_at(words, "APP"),
        text_at(words, "CERT"),
        number_at(words, "polls"),
    ) else {
        return None;
    };
    Some(Request::Run(RunRequest {
        app,
        certificate,
        polls,
        words: text_at(words, "words"),
        detail: detail_asked(words),
    }))
}
