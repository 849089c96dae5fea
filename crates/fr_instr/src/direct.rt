// Calls that are read directly from their text: most lines are one, with nothing before it. Neither a list of its tokens
// nor a shape is made for it. A text that is no such call is read by its tokens, which finds what is wrong in it too.
ghost use Rattle.std.specs.Prelude.{◌≡◌, ◌++◌, ◌∷◌, ℕ, List, Option, IfSome};
ghost use Rattle.fr_instr.specs.Tokens.{Tok, word, number, IsBlank, Begins, Spells};
ghost use Rattle.fr_instr.specs.Shapes.{Word, word_tok, args_toks, more_toks, else_toks};
ghost use Rattle.fr_instr.specs.Lines.{IsElse, Gives, AreGiven, IsLine};
ghost use Rattle.fr_instr.specs.Views.{word_of};
ghost use Rattle.fr_program.specs.declared.instr.Instr.TheVariants as line;

use crate::call::{self, Slot, Tail};
use crate::given::{self, Given, NOTHING};
use crate::names::Names;
use crate::shape::Value;
use crate::token::{self, Class, Token};
use crate::{meaning, number};
use fr_program::Call;

/// What follows this byte, where the text begins with it, behind spaces.
fn behind(text: &[u8], byte: u8) -> Option<&[u8]>
    ensures { IfSome result (λ rest. (gap : List ℕ) × IsBlank gap × (text.now ≡ gap ++ byte ∷ rest.now)) }
{
    let (_gap, rest) = token::split_class(text, Class::Space);
    match rest.split_first() {
        Some((first, rest)) if *first == byte => Some(rest),
        _ => None,
    }
}

/// The word that the text begins with, behind spaces, and the rest.
fn word_at(text: &[u8]) -> Option<(&[u8], &[u8])>
    ensures { IfSome result (λ r. Begins text.now (word r.0.now) r.1.now) }
{
    match token::next_token(text) {
        Some((Token::Word(word), rest)) => Some((word, rest)),
        _ => None,
    }
}

/// The number that the text begins with, behind spaces, and the rest.
fn number_at(text: &[u8]) -> Option<(&[u8], &[u8])>
    ensures { IfSome result (λ r. Begins text.now (number r.0.now) r.1.now) }
{
    match token::next_token(text) {
        Some((Token::Number(number), rest)) => Some((number, rest)),
        _ => None,
    }
}

/// The word or number that the text begins with, behind spaces, and the rest.
fn value_at(text: &[u8]) -> Option<(Value<'_>, &[u8])>
    ensures { IfSome result (λ r. Begins text.now (word_tok (word_of r.0)) r.1.now) }
{
    match token::next_token(text) {
        Some((Token::Word(word), rest)) => Some((Value::Name(word), rest)),
        Some((Token::Number(number), rest)) => Some((Value::Number(number), rest)),
        _ => None,
    }
}

/// What the argument at the front gives in a place of this kind, beside what was given before, and the rest.
fn arg_in<'a>(names: &Names, place: Slot, text: &'a [u8], given: Given) -> Option<(Given, &'a [u8])>
    ensures { IfSome result (λ r. (w : Word) × Begins text.now (word_tok w) r.1.now × Gives names.now place w given r.0) }
{
    let (value, rest) = value_at(text)?;
    match meaning::given_at(names, place, value, given) {
        Ok(given) => Some((given, rest)),
        Err(_) => None,
    }
}

/// What further arguments give in these places, each behind a comma, beside what was given before, and what follows the
/// closing bracket.
fn more_args_in<'a>(
    names: &Names,
    places: &[Slot],
    text: &'a [u8],
    given: Given,
) -> Option<(Given, &'a [u8])>
    ensures { IfSome result (λ r. (ws : List Word) × AreGiven names.now places.now ws given r.0
        × ((ts : List Tok) → Spells r.1.now ts → Spells text.now (more_toks ws ++ ts))) }
{
    let Some((place, places)) = places.split_first() else {
        return Some((given, behind(text, b')')?));
    };
    let text = behind(text, b',')?;
    let (given, rest) = arg_in(names, *place, text, given)?;
    more_args_in(names, places, rest, given)
}

/// What the arguments of a call give in these places, and what follows the closing bracket.
fn args_in<'a>(names: &Names, places: &[Slot], text: &'a [u8]) -> Option<(Given, &'a [u8])>
    ensures { IfSome result (λ r. (ws : List Word) × AreGiven names.now places.now ws NOTHING r.0
        × ((ts : List Tok) → Spells r.1.now ts → Spells text.now (args_toks ws ++ ts))) }
{
    let Some((place, places)) = places.split_first() else {
        return Some((NOTHING, behind(text, b')')?));
    };
    let (given, rest) = arg_in(names, *place, text, NOTHING)?;
    more_args_in(names, places, rest, given)
}

/// The target of the `else` that the text is, or none where it is blank. An `else` is only behind a call that may fail.
fn else_of(tail: Tail, text: &[u8]) -> Option<Option<usize>>
    ensures { IfSome result (λ k. (e : Option (List ℕ)) × IsElse tail e k × Spells text.now (else_toks e)) }
{
    if token::is_blank(text) {
        return Some(None);
    }
    let (word, rest) = word_at(text)?;
    let (digits, rest) = number_at(rest)?;
    let target = number::target_of(digits)?;
    if tail.may_fail() && word == b"else".as_slice() && token::is_blank(rest) {
        Some(Some(target))
    } else {
        None
    }
}

/// The call that the text is, where it is one with nothing before its name.
pub(crate) fn read_call(names: &Names, text: &[u8]) -> Option<Call>
    ensures { IfSome result (λ c. IsLine names.now text.now (line.Call c)) }
{
    let (name, rest) = word_at(text)?;
    let inside = behind(rest, b'(')?;
    let (_, verb, places, tail) = call::row_named(name)?;
    let (given, rest) = args_in(names, places, inside)?;
    let or_else = else_of(tail, rest)?;
    Some(given::made_beside(verb, given, or_else, None))
}
