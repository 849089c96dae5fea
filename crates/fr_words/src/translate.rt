// The words of the command `translate`.
ghost use Rattle.std.specs.Prelude.{◌≡◌, IfSome, codes, is_some, option_map};
ghost use Rattle.fr_words.specs.Found.{rows};
ghost use Rattle.fr_words.specs.Asked.{IsAsked, can_translate, named_by};

use crate::found::text_at;
use crate::table::{CommandTable, FILE, Word, command_of};
use clap::{ArgMatches, Command};
use fr_request::{Request, TranslateRequest};
use std::alloc::{AllocError, Global};

/// The command `translate`.
const TABLE: &CommandTable = &CommandTable {
    name: "translate",
    about: "Translates a source in the shape of C into an application",
    statuses: "Exit status:
  0  The application was written
  2  The arguments or the source are refused, or the file for the application is the source's
  3  The machine failed: no memory, or a file that can't be read or written",
    words: &[
        Word {
            name: "SOURCE",
            value: &["SOURCE"],
            help: "The source",
            ..FILE
        },
        Word {
            name: "OUT",
            value: &["OUT"],
            help: "The file for the application, in TOML; - prints it",
            ..FILE
        },
    ],
};

/// What `clap` is told of `translate`.
pub fn translate_command<'a>(alloc: Global) -> Result<Command<'a>, AllocError> {
    command_of(alloc, TABLE)
}

/// The file that the word names; None by `-`, which is standard output.
fn file_named(word: &str) -> Option<&str>
    ensures { option_map (λ s. s.now) result ≡ named_by word.now }
{
    if word == "-" { None } else { Some(word) }
}

/// The translation that the matched words ask for. Words that were matched always ask for something, so it is never None.
pub fn asked_translate<'m, 'a>(words: &'m ArgMatches<'a>) -> Option<Request<'m>>
    ensures fields { IfSome result (IsAsked (codes "translate") (rows words.now)) }
    ensures whether { is_some result ≡ can_translate (rows words.now) }
{
    let (Some(source), Some(out)) = (text_at(words, "SOURCE"), text_at(words, "OUT")) else {
        return None;
    };
    Some(Request::Translate(TranslateRequest {
        source,
        out: file_named(out),
    }))
}
