// Tables of the commands and their words, and what `clap` is told of them.
use clap::builder::ValueParser;
use clap::{Arg, ArgAction, Command};
use std::alloc::{AllocError, Global};

/// The name that the version is printed with, by `--version` and `check --version` alike.
pub const NAME: &str = "fr_check";

/// How a word is given.
pub enum WordForm {
    /// A file, by itself: its place says which one it is.
    Alone,
    /// One or more files, after the others.
    Last,
    /// Its name behind two dashes, anywhere.
    Dashed,
}

/// A word of a command.
pub struct Word {
    pub name: &'static str,
    pub help: &'static str,
    pub form: WordForm,
    pub action: ArgAction,
    /// What the help calls its value, where it has one.
    pub value: &'static [&'static str],
    /// What the value has to be.
    pub parser: ValueParser<'static>,
    /// The value where the word isn't given, if there is one then.
    pub otherwise: &'static [&'static str],
    /// The words that can't be given with it.
    pub conflicts: &'static [&'static str],
    /// Whether it has to be given.
    pub required: bool,
    /// The words of which one has to be given where it isn't; none where it needn't be, or always has to be.
    pub unless: &'static [&'static str],
}

/// A word that names a file, and that has to be given.
pub const FILE: Word = Word {
    name: "",
    help: "",
    form: WordForm::Alone,
    action: ArgAction::Set,
    value: &[],
    parser: ValueParser::String,
    otherwise: &[],
    conflicts: &[],
    required: true,
    unless: &[],
};

/// A word with two dashes and a text after it.
pub const TEXT: Word = Word {
    form: WordForm::Dashed,
    required: false,
    ..FILE
};

/// A word with two dashes that is given or not.
pub const FLAG: Word = Word {
    action: ArgAction::SetTrue,
    parser: ValueParser::Bool,
    ..TEXT
};

/// A command: its name, what it does, its exit statuses and its words, in the order of the help.
pub struct CommandTable {
    pub name: &'static str,
    pub about: &'static str,
    pub statuses: &'static str,
    pub words: &'static [Word],
}

/// What `clap` is told of the word: its help, and what its value is.
fn valued<'a>(alloc: Global, word: &'static Word) -> Arg<'a> {
    Arg::new(alloc, word.name)
        .help(word.help)
        .value_names(word.value)
        .value_parser(word.parser)
        .default_values(word.otherwise)
}

/// What `clap` is told of the word but of what other words have to do with it.
fn alone<'a>(alloc: Global, word: &'static Word) -> Arg<'a> {
    let arg = valued(alloc, word)
        .action(word.action)
        .required(word.required);
    match word.form {
        WordForm::Alone => arg,
        WordForm::Last => arg.num_args(1..),
        WordForm::Dashed => arg.long(word.name),
    }
}

/// What `clap` is told of the word.
fn arg_of<'a>(alloc: Global, word: &'static Word) -> Result<Arg<'a>, AllocError> {
    alone(alloc, word)
        .conflicts_with_all(word.conflicts)?
        .required_unless_present_any(word.unless)
}

/// Adds what `clap` is told of the words.
fn push_args(args: &mut Vec<Arg>, alloc: Global, words: &'static [Word]) -> Result<(), AllocError> {
    for word in words {
        args.push(arg_of(alloc, word)?)?;
    }
    Ok(())
}

/// A command with no words yet.
pub fn bare_command<'a>(
    alloc: Global,
    name: &'a str,
    about: &'a str,
    statuses: &'a str,
) -> Command<'a> {
    Command::new(alloc, name).about(about).after_help(statuses)
}

/// What `clap` is told of the command.
pub fn command_of<'a>(
    alloc: Global,
    table: &'static CommandTable,
) -> Result<Command<'a>, AllocError> {
    let mut args = Vec::new(alloc);
    push_args(&mut args, alloc, table.words)?;
    bare_command(alloc, table.name, table.about, table.statuses)
        .args(args)?
        .display_name(NAME)
}
