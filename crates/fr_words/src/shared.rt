// The words that several commands have.
ghost use Rattle.std.specs.Prelude.{◌≡◌};
ghost use Rattle.fr_words.specs.Found.{rows, detail_at, format_at, format_named};

use crate::found::{is_given, text_at};
use crate::table::{FILE, FLAG, TEXT, Word};
use clap::ArgMatches;
use clap::builder::ValueParser;
use fr_request::{Detail, Format};

/// What the exit status says of a verdict, for the help of the whole and of `check`.
pub const STATUSES: &str = "Exit status:
  0  The answer is yes, or what was asked for was done; with --deadlock, no deadlock either
  1  The answer is no, or a breach or a deadlock was found or isn't excluded
  2  The arguments, the application or the certificate are refused
  3  The machine failed: no memory, no thread, or a file that can't be read or written";

/// The application.
pub const APP: Word = Word {
    name: "APP",
    value: &["APP"],
    help: "The application, in TOML, or a source NAME.frc",
    ..FILE
};

/// The certificate.
pub const CERT: Word = Word {
    name: "CERT",
    value: &["CERT"],
    help: "The certificate, in JSON",
    ..FILE
};

/// The most states, 1000000 where it isn't given.
pub const STATES: Word = Word {
    name: "states",
    value: &["N"],
    parser: ValueParser::Signed(1, 100_000_000),
    otherwise: &["1000000"],
    help: "The most states that are looked at, 1 to 100000000",
    ..TEXT
};

/// The most memory, 2048 MiB where it isn't given.
pub const MEMORY: Word = Word {
    name: "memory",
    value: &["MIB"],
    parser: ValueParser::Signed(1, 1_048_576),
    otherwise: &["2048"],
    help: "The most memory for these states, 1 to 1048576 MiB",
    ..TEXT
};

pub const PROGRESS: Word = Word {
    name: "progress",
    help: "Print each second how far the search is, on standard error",
    ..FLAG
};

pub const WORKERS: Word = Word {
    name: "workers",
    value: &["N"],
    parser: ValueParser::Signed(1, 64),
    otherwise: &["4"],
    help: "Threads that judge or search, 1 to 64",
    ..TEXT
};

pub const WARN: Word = Word {
    name: "warn",
    help: "Warn of what the verdict may hide, such as lines that are never reached, on standard error",
    ..FLAG
};

pub const DEADLOCK: Word = Word {
    name: "deadlock",
    help: "Ask for deadlocks too: actors that wait for one another's mutexes for ever",
    ..FLAG
};

/// `--explain`, where there is a verdict.
pub const EXPLAIN: Word = Word {
    name: "explain",
    help: "Print why the verdict is no, and on standard error where a refused file is at fault",
    ..FLAG
};

pub const ALL: Word = Word {
    name: "all",
    help: "The same as --explain, with whole states and a line for each point that fails",
    ..FLAG
};

/// The form of the answer: the first one is for a person.
pub const FORMAT: Word = Word {
    name: "format",
    value: &["F"],
    parser: ValueParser::Names(&["text", "json", "sarif", "junit"]),
    otherwise: &["text"],
    help: "The form of the answer: text, json, sarif or junit",
    ..TEXT
};

/// The file for the page: for one application, whose answer is printed as a text.
pub const HTML: Word = Word {
    name: "html",
    value: &["FILE"],
    conflicts: &["format", "list"],
    help: "Write the answer as a page to look at into this file, too",
    ..TEXT
};

/// The form with this name.
fn format_named(name: &str) -> Option<Format>
    ensures { result ≡ format_named name.now }
{
    match name {
        "json" => Some(Format::Json),
        "sarif" => Some(Format::Sarif),
        "junit" => Some(Format::Junit),
        _ => None,
    }
}

/// The form that the matched words ask for; None where it is a text for a person.
pub fn format_asked(words: &ArgMatches) -> Option<Format>
    ensures { result ≡ format_at (rows words.now) }
{
    format_named(text_at(words, "format")?)
}

/// How much is printed of why a verdict is no: with `--all` everything, with `--explain` what matters, and
/// nothing without either.
pub fn detail_asked(words: &ArgMatches) -> Option<Detail>
    ensures { result ≡ detail_at (rows words.now) }
{
    if is_given(words, "all") {
        Some(Detail::Whole)
    } else if is_given(words, "explain") {
        Some(Detail::Relevant)
    } else {
        None
    }
}
