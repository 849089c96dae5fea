// The words of the command `prove`.
ghost use Rattle.std.specs.Prelude.{◌≡◌, IfSome, codes, is_some};
ghost use Rattle.fr_words.specs.Found.{proof_detail_at, rows, warns_at};
ghost use Rattle.fr_words.specs.Asked.{IsAsked, can_prove};

use crate::found::{is_given, number_at, short_number_at, text_at};
use crate::shared::{
    ALL, APP, DEADLOCK, EXPLAIN, FORMAT, HTML, MEMORY, PROGRESS, STATES, WARN, WORKERS,
    detail_asked, format_asked,
};
use crate::table::{CommandTable, FLAG, TEXT, Word, command_of};
use clap::{ArgMatches, Command};
use fr_request::{Detail, ProveRequest, Request};
use std::alloc::{AllocError, Global};

/// The command `prove`.
const TABLE: &CommandTable = &CommandTable {
    name: "prove",
    about: "Works out a certificate for an application, and prints the verdict by it",
    statuses: "Exit status:
  0  The verdict is yes, or all states were seen and none breaches a rule; with --deadlock, no deadlock either
  1  A run into a breach or a deadlock was printed, or the verdict by the best certificate that was found
  2  The arguments or the application are refused, or a file that would be written holds something else
  3  The machine failed: no memory, no thread, or a file that can't be read or written",
    words: &[
        APP,
        Word {
            name: "certificate",
            value: &["OUT"],
            help: "The file for the certificate, which is written where the verdict is yes",
            ..TEXT
        },
        WORKERS,
        Word {
            name: "no-search",
            help: "Look for no run into a breach where the verdict is no",
            ..FLAG
        },
        STATES,
        Word {
            otherwise: &["512"],
            ..MEMORY
        },
        PROGRESS,
        FORMAT,
        DEADLOCK,
        ALL,
        Word {
            name: "brief",
            help: "Print the answer without what explains it, and no warnings",
            ..FLAG
        },
        Word {
            help: "With --brief: explain all the same",
            ..EXPLAIN
        },
        Word {
            help: "With --brief or --format: warn all the same",
            ..WARN
        },
        HTML,
    ],
};

/// What `clap` is told of `prove`.
pub fn prove_command<'a>(alloc: Global) -> Result<Command<'a>, AllocError> {
    command_of(alloc, TABLE)
}

/// How much `prove` explains: where neither `--all` nor `--explain` is given, what matters, and with `--brief` nothing.
fn detail_of_proof(words: &ArgMatches) -> Option<Detail>
    ensures { result ≡ proof_detail_at (rows words.now) }
{
    match detail_asked(words) {
        None if !is_given(words, "brief") => Some(Detail::Relevant),
        detail => detail,
    }
}

/// Whether `prove` warns: where `--warn` is given, and where neither `--brief` nor a form for machines is.
fn warns_asked(words: &ArgMatches) -> bool
    ensures { result ≡ warns_at (rows words.now) }
{
    is_given(words, "warn") || !is_given(words, "brief") && format_asked(words).is_none()
}

/// The proof that the matched words ask for. Words that were matched always ask for something, so it is
/// never None.
pub fn asked_prove<'m, 'a>(words: &'m ArgMatches<'a>) -> Option<Request<'m>>
    ensures fields { IfSome result (IsAsked (codes "prove") (rows words.now)) }
    ensures whether { is_some result ≡ can_prove (rows words.now) }
{
    let (Some(app), Some(workers), Some(states), Some(memory)) = (
        text_at(words, "APP"),
        short_number_at(words, "workers"),
        number_at(words, "states"),
        number_at(words, "memory"),
    ) else {
        return None;
    };
    Some(Request::Prove(ProveRequest {
        app,
        out: text_at(words, "certificate"),
        workers,
        warns: warns_asked(words),
        deadlock: is_given(words, "deadlock"),
        detail: detail_of_proof(words),
        searches: !is_given(words, "no-search"),
        states,
        memory,
        progress: is_given(words, "progress"),
        format: format_asked(words),
        html: text_at(words, "html"),
    }))
}
