// What a line says, in its own words: nothing of the application is looked at.
ghost use Rattle.std.specs.Prelude.{◌≡◌, ◌∷◌, option_map};
ghost use Rattle.fr_instr.specs.Views.{tok, toks};
ghost use Rattle.fr_trace.specs.Said.{alone, begins_comment, entered, event_by, returned, said_after, said_by, written};
ghost use Rattle.fr_trace.specs.Views.{said_of};

use fr_instr::{Sign, Token, head_behind, take_number, take_word};

/// What a line says.
#[derive(Clone, Copy)]
pub(crate) enum Said<'a, 't> {
    /// Nothing: the line is blank.
    Nothing,
    /// The calls that these tokens name aren't recorded.
    Unseen(&'t [Token<'a>]),
    /// Events are missing here.
    Lost,
    /// The actor enters the call of this name, and these tokens follow the opening bracket.
    Enter(&'a [u8], &'a [u8], &'t [Token<'a>]),
    /// The actor's call returns this result and this value; what isn't written is `?`.
    Return(&'a [u8], Token<'a>, Token<'a>),
    /// The actor has set this variable to this number.
    Set(&'a [u8], &'a [u8], &'a [u8]),
    /// The actor's handler begins.
    Begin(&'a [u8]),
    /// The actor's handler ends.
    End(&'a [u8]),
}

/// `?`.
const UNRECORDED: Token<'static> = Token::Sign(Sign::Question);

/// What is said, where no token follows.
fn alone<'a, 't>(said: Said<'a, 't>, tokens: &[Token<'a>]) -> Option<Said<'a, 't>>
    ensures { option_map said_of result ≡ alone (said_of said.entry) (toks tokens.now) }
{
    if tokens.is_empty() { Some(said) } else { None }
}

/// What is said after the word `return` and a result.
fn valued<'a, 't>(
    actor: &'a [u8],
    answer: Token<'a>,
    tokens: &'t [Token<'a>],
) -> Option<Said<'a, 't>>
    ensures { option_map said_of result ≡ returned actor.now (tok answer.entry ∷ toks tokens.now) }
{
    let Some((value, rest)) = tokens.split_first() else {
        return Some(Said::Return(actor, answer, UNRECORDED));
    };
    alone(Said::Return(actor, answer, *value), rest)
}

/// What is said after the word `return`.
fn returned<'a, 't>(actor: &'a [u8], tokens: &'t [Token<'a>]) -> Option<Said<'a, 't>>
    ensures { option_map said_of result ≡ returned actor.now (toks tokens.now) }
{
    match tokens.split_first() {
        None => Some(Said::Return(actor, UNRECORDED, UNRECORDED)),
        Some((first, rest)) => valued(actor, *first, rest),
    }
}

/// What is said after the word `enter`.
#[tactic(auto, unfolding(crate::specs::Said::entered))]
fn entered<'a, 't>(actor: &'a [u8], tokens: &'t [Token<'a>]) -> Option<Said<'a, 't>>
    ensures { option_map said_of result ≡ entered actor.now (toks tokens.now) }
{
    let (call, inside) = head_behind(tokens)?;
    Some(Said::Enter(actor, call, inside))
}

/// What is said after the word `set`.
#[tactic(auto, unfolding(crate::specs::Said::written))]
fn written<'a, 't>(actor: &'a [u8], tokens: &'t [Token<'a>]) -> Option<Said<'a, 't>>
    ensures { option_map said_of result ≡ written actor.now (toks tokens.now) }
{
    let (variable, rest) = take_word(tokens)?;
    let (number, rest) = take_number(rest)?;
    alone(Said::Set(actor, variable, number), rest)
}

/// What is said after the actor's name.
#[tactic(auto, unfolding(crate::specs::Said::event_by, crate::specs::Said::event_named))]
fn event_by<'a, 't>(actor: &'a [u8], tokens: &'t [Token<'a>]) -> Option<Said<'a, 't>>
    ensures { option_map said_of result ≡ event_by actor.now (toks tokens.now) }
{
    let (kind, rest) = take_word(tokens)?;
    if kind == b"enter".as_slice() {
        entered(actor, rest)
    } else if kind == b"return".as_slice() {
        returned(actor, rest)
    } else if kind == b"set".as_slice() {
        written(actor, rest)
    } else if kind == b"begin".as_slice() {
        alone(Said::Begin(actor), rest)
    } else if kind == b"end".as_slice() {
        alone(Said::End(actor), rest)
    } else {
        None
    }
}

/// What is said after the first word of a line.
#[tactic(auto, unfolding(crate::specs::Said::said_after))]
fn said_after<'a, 't>(word: &'a [u8], tokens: &'t [Token<'a>]) -> Option<Said<'a, 't>>
    ensures { option_map said_of result ≡ said_after word.now (toks tokens.now) }
{
    if word == b"unseen".as_slice() {
        Some(Said::Unseen(tokens))
    } else if !tokens.is_empty() {
        event_by(word, tokens)
    } else if word == b"lost".as_slice() {
        Some(Said::Lost)
    } else {
        None
    }
}

/// What a line with these tokens says, if it says something.
#[tactic(auto, unfolding(crate::specs::Said::said_by))]
pub(crate) fn said_by<'a, 't>(tokens: &'t [Token<'a>]) -> Option<Said<'a, 't>>
    ensures { option_map said_of result ≡ said_by (toks tokens.now) }
{
    if tokens.is_empty() {
        return Some(Said::Nothing);
    }
    let (word, rest) = take_word(tokens)?;
    said_after(word, rest)
}

/// Whether the line is a comment: its first byte that isn't a space is `#`.
pub(crate) fn begins_comment(line: &[u8]) -> bool
    ensures { result ≡ begins_comment line.now }
{
    for byte in line {
        if *byte != b' ' {
            return *byte == b'#';
        }
    }
    false
}
