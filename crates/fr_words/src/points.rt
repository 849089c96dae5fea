// The words of the command `points`.
ghost use Rattle.std.specs.Prelude.{◌≡◌, IfSome, codes, is_some};
ghost use Rattle.fr_words.specs.Found.{rows};
ghost use Rattle.fr_words.specs.Asked.{IsAsked, has_text};

use crate::found::{is_given, text_at};
use crate::shared::{APP, EXPLAIN};
use crate::table::{CommandTable, Word, command_of};
use clap::{ArgMatches, Command};
use fr_request::Request;
use std::alloc::{AllocError, Global};

/// The command `points`.
const TABLE: &CommandTable = &CommandTable {
    name: "points",
    about: "Prints the points of an application, for which a certificate has notes",
    statuses: "Exit status:
  0  The points were printed
  2  The arguments or the application are refused
  3  The machine failed: no memory, or a file that can't be read or written",
    words: &[
        APP,
        Word {
            help: "Print the place in the source, too, and on standard error where a refused file is at fault",
            ..EXPLAIN
        },
    ],
};

/// What `clap` is told of `points`.
pub fn points_command<'a>(alloc: Global) -> Result<Command<'a>, AllocError> {
    command_of(alloc, TABLE)
}

/// The points that the matched words ask for. Words that were matched always ask for something, so it is
/// never None.
pub fn asked_points<'m, 'a>(words: &'m ArgMatches<'a>) -> Option<Request<'m>>
    ensures fields { IfSome result (IsAsked (codes "points") (rows words.now)) }
    ensures whether { is_some result ≡ has_text (rows words.now) (codes "APP") }
{
    Some(Request::Points {
        app: text_at(words, "APP")?,
        explains: is_given(words, "explain"),
    })
}
