// A line of code that can't be read: where it goes wrong, and what is wrong there.
use crate::faulty::names_at;
use crate::lines::Lines;
use crate::nearness::push_nearest;
use crate::position::push_marked;
use crate::recipe::recipe_for;
use crate::shown::Start;
use crate::table::{LISTS, table_named};
use fr_instr::{LineFault, Names, Sign, Token, next_token, read_line_at, row_named, rows};
use fr_reader::Key;
use toml::Table;

/// The bytes as a text, and no text where they are none.
fn text_of(bytes: &[u8]) -> &str {
    std::str::from_utf8(bytes).unwrap_or("")
}

/// The word or the number that the text begins with, and no text where it begins with neither.
fn word_of(text: &str) -> &str {
    match next_token(text.as_bytes()) {
        Some((Token::Word(word) | Token::Number(word), _)) => text_of(word),
        _ => "",
    }
}

/// The name of the call that begins with this token, with this text behind it, and no text where none does.
fn called<'a>(token: Token<'a>, behind: &[u8]) -> &'a str {
    match (token, next_token(behind)) {
        (Token::Word(word), Some((Token::Sign(Sign::Open), _))) => text_of(word),
        _ => "",
    }
}

/// The first call in the line for which there is a recipe, since no line has it: its name, and where it begins. A byte with which no
/// token begins is passed over.
fn call_with_recipe(line: &str) -> Option<(&str, usize)> {
    let mut text = line.as_bytes();
    while let Some((_, others)) = text.split_first() {
        let Some((token, rest)) = next_token(text) else {
            text = others;
            continue;
        };
        let name = called(token, rest);
        if recipe_for(name).is_some() {
            let left = name.len().saturating_add(rest.len());
            return Some((name, line.len().saturating_sub(left)));
        }
        text = rest;
    }
    None
}

/// A thing of the sort of which the tables at this key are.
fn one_of(list: Key) -> &'static str {
    match list {
        Key::Variable => "a variable",
        Key::Object => "an object",
        _ => "an actor",
    }
}

/// Appends what is wrong with a name: what else it names, or which name is nearest. An object's name has to be behind an opening
/// bracket, and a variable's anywhere else.
fn push_unknown_name(out: &mut Lines, whole: &Table, before: &str, word: &str) {
    let wanted = if before.trim_end().ends_with('(') {
        Key::Object
    } else {
        Key::Variable
    };
    for list in LISTS {
        if table_named(whole, list, word).is_some() {
            let (found, wanted) = (one_of(list), one_of(wanted));
            return out.say(format_args!("{word} is {found}, and {wanted} is wanted here"));
        }
    }
    write!(out, "no {} has the name {word}", wanted.text());
    push_nearest(out, word, names_at(out.alloc, whole, wanted));
}

/// How many arguments are between the brackets of the call that the text begins with.
fn arguments_in(text: &str) -> usize {
    let Some((_, inside)) = text.split_once('(') else {
        return 0;
    };
    match inside.split_once(')') {
        Some((arguments, _)) if !arguments.trim().is_empty() => arguments.split(',').count(),
        _ => 0,
    }
}

/// Appends how many arguments the call has that the text begins with, and how many it is given.
fn push_arguments(out: &mut Lines, text: &str, word: &str) {
    if let Some((_, _, places, _)) = row_named(word.as_bytes()) {
        let (wanted, given) = (places.len(), arguments_in(text));
        out.say(format_args!("arguments of {word}: {wanted} wanted, {given} given"));
    }
}

/// Whether the number is written with a zero in front, or is 0 with a sign.
fn has_leading_zero(number: &str) -> bool {
    let digits = number.strip_prefix('-').unwrap_or(number);
    digits.starts_with('0') && number != "0"
}

/// Appends what is wrong at a place of a line, with what is before it and behind it.
fn push_reason(out: &mut Lines, whole: &Table, before: &str, behind: &str, fault: LineFault) {
    let word = word_of(behind);
    match fault {
        LineFault::Memory => out.refuse(),
        LineFault::Syntax if behind.is_empty() => out.say("the line ends too soon"),
        LineFault::Syntax => out.say("this doesn't fit here"),
        LineFault::UnknownName => push_unknown_name(out, whole, before, word),
        LineFault::UnknownCall => {
            write!(out, "no call has the name {word}");
            push_nearest(out, word, rows().iter().map(|row| row.0).collect(out.alloc));
        }
        LineFault::ArgCount => push_arguments(out, behind, word),
        LineFault::BadNumber if has_leading_zero(word) => {
            out.say("a number has no leading zero, and 0 no sign")
        }
        LineFault::BadNumber => out.say("this number is out of the limits of its place"),
    }
}

/// Appends the line with a mark at this place, and returns what is before it and behind it.
fn push_split<'a>(out: &mut Lines, line: &'a str, at: usize) -> (&'a str, &'a str) {
    let (before, behind) = line.split_at_checked(at).unwrap_or((line, ""));
    push_marked(out, before.as_bytes(), behind.as_bytes());
    (before, behind)
}

/// Appends the line with a mark under what is at fault, and what is wrong there. A call that no line has is at fault, whatever
/// else is.
pub(crate) fn push_line(out: &mut Lines, whole: &Table, names: &Names, line: &str) {
    if let Some((name, at)) = call_with_recipe(line) {
        push_split(out, line, at);
        let recipe = recipe_for(name).unwrap_or("");
        return out.say(format_args!("no line has {name}: {recipe}"));
    }
    match read_line_at(out.alloc, line, names) {
        Ok(_) => out.say(Start(line)),
        Err(error) => {
            let (before, behind) = push_split(out, line, error.at);
            push_reason(out, whole, before, behind, error.fault);
        }
    }
}
