// The words of the command `find`.
ghost use Rattle.std.specs.Prelude.{◌≡◌, IfSome, codes, is_some};
ghost use Rattle.fr_words.specs.Found.{rows};
ghost use Rattle.fr_words.specs.Asked.{IsAsked, can_find};

use crate::found::{is_given, short_number_at, text_at};
use crate::shared::{APP, EXPLAIN};
use crate::table::{CommandTable, FILE, TEXT, Word, command_of};
use clap::builder::ValueParser;
use clap::{ArgMatches, Command};
use fr_request::{FindRequest, Request};
use std::alloc::{AllocError, Global};

/// The command `find`.
const TABLE: &CommandTable = &CommandTable {
    name: "find",
    about: "Guesses a certificate by a simpler method than prove, and writes it to a file",
    statuses: "Exit status:
  0  A certificate was found and written
  1  None was found, and no file was written
  2  The arguments or the application are refused, or the file for the certificate is the application's
  3  The machine failed: no memory, or a file that can't be read or written",
    words: &[
        APP,
        Word {
            name: "OUT",
            value: &["OUT"],
            help: "The file for the certificate",
            ..FILE
        },
        Word {
            name: "rounds",
            value: &["N"],
            parser: ValueParser::Signed(1, 64),
            otherwise: &["64"],
            help: "Rounds of guessing, 1 to 64",
            ..TEXT
        },
        Word {
            help: "Print where a refused file is at fault, on standard error",
            ..EXPLAIN
        },
    ],
};

/// What `clap` is told of `find`.
pub fn find_command<'a>(alloc: Global) -> Result<Command<'a>, AllocError> {
    command_of(alloc, TABLE)
}

/// The certificate that the matched words ask for. Words that were matched always ask for something, so
/// it is never None.
pub fn asked_find<'m, 'a>(words: &'m ArgMatches<'a>) -> Option<Request<'m>>
    ensures fields { IfSome result (IsAsked (codes "find") (rows words.now)) }
    ensures whether { is_some result ≡ can_find (rows words.now) }
{
    let (Some(app), Some(out), Some(rounds)) = (
        text_at(words, "APP"),
        text_at(words, "OUT"),
        short_number_at(words, "rounds"),
    ) else {
        return None;
    };
    Some(Request::Find(FindRequest {
        app,
        out,
        rounds,
        explains: is_given(words, "explain"),
    }))
}
