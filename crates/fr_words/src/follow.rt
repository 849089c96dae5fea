// The words of the command `follow`.
ghost use Rattle.std.specs.Prelude.{◌≡◌, IfSome, codes, is_some};
ghost use Rattle.fr_words.specs.Found.{rows};
ghost use Rattle.fr_words.specs.Asked.{IsAsked, can_follow};

use crate::found::{is_given, number_at, text_at, texts_at};
use crate::shared::{APP, EXPLAIN, FORMAT, HTML, STATES, format_asked};
use crate::table::{CommandTable, FILE, FLAG, TEXT, Word, WordForm, command_of};
use clap::{ArgAction, ArgMatches, Command};
use fr_request::{FollowRequest, Request};
use std::alloc::{AllocError, Global};

/// The command `follow`. What `--coverage` prints is a text for a person.
const TABLE: &CommandTable = &CommandTable {
    name: "follow",
    about: "Looks for runs of an application that explain traces of the firmware",
    statuses: "Exit status:
  0  For each trace, a run explains its events; after some that were lost, and with --from-anywhere, each actor is followed by itself
  1  No such run was found, it leads to a breach, or a trace has something that the application doesn't list
  2  The arguments, the application or a trace are refused, or a file for the run or the page is one of these files
  3  The machine failed: no memory, or a file that can't be read or written",
    words: &[
        APP,
        Word {
            name: "TRACE",
            value: &["TRACE"],
            form: WordForm::Last,
            action: ArgAction::Append,
            help: "The traces that the recorder wrote",
            ..FILE
        },
        Word {
            otherwise: &["20000"],
            help: "The most states that are kept at each event, 1 to 100000000",
            ..STATES
        },
        Word {
            name: "any-times",
            help: "Compare no block times and no delays",
            ..FLAG
        },
        Word {
            name: "from-anywhere",
            help: "Let a trace begin anywhere in a run: follow each actor by itself",
            ..FLAG
        },
        FORMAT,
        Word {
            help: "Print why a trace isn't followed further, and on standard error where a refused file is at fault",
            ..EXPLAIN
        },
        Word {
            name: "coverage",
            conflicts: &["format"],
            help: "Print the lines of code that the runs that were found didn't take",
            ..FLAG
        },
        Word {
            name: "run",
            value: &["FILE"],
            help: "Write the run that was found into this file",
            ..TEXT
        },
        HTML,
    ],
};

/// What `clap` is told of `follow`.
pub fn follow_command<'a>(alloc: Global) -> Result<Command<'a>, AllocError> {
    command_of(alloc, TABLE)
}

/// What the matched words ask to follow. Words that were matched always ask for something, so it is never None.
pub fn asked_follow<'m, 'a>(words: &'m ArgMatches<'a>) -> Option<Request<'m>>
    ensures fields { IfSome result (IsAsked (codes "follow") (rows words.now)) }
    ensures whether { is_some result ≡ can_follow (rows words.now) }
{
    let (Some(app), Some(traces), Some(states)) = (
        text_at(words, "APP"),
        texts_at(words, "TRACE"),
        number_at(words, "states"),
    ) else {
        return None;
    };
    Some(Request::Follow(FollowRequest {
        app,
        traces,
        states,
        explains: is_given(words, "explain"),
        covers: is_given(words, "coverage"),
        any_times: is_given(words, "any-times"),
        from_anywhere: is_given(words, "from-anywhere"),
        run: text_at(words, "run"),
        format: format_asked(words),
        html: text_at(words, "html"),
    }))
}
