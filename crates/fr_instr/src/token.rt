// The tokens of a line: words, numbers and signs.
ghost use Rattle.std.specs.Prelude.{◌≡◌, ◌+◌, ◌<◌, ◌≤◌, Some, true, false, IfSome, IfNone, IfOk, IfErr, ℕ, List, length, option_map, slice_index};
ghost use Rattle.fr_instr.specs.Tokens.{Tok, is_letter, is_word_byte, is_space, Begins, Spells};
ghost use Rattle.std.specs.List.{list_all};
ghost use Rattle.fr_instr.specs.declared.fault.LineFault.TheVariants.{Memory, Syntax};
ghost use Rattle.fr_instr.specs.Reading.{front, after, sign_at, token_at};
ghost use Rattle.fr_instr.specs.Views.{tok, toks, is_of};

use crate::fault::LineFault;
use std::alloc::{AllocError, Global};

/// A sign between words and numbers.
#[derive(Clone, Copy)]
pub enum Sign {
    Open,
    Close,
    Comma,
    Assign,
    Plus,
    Minus,
    Times,
    Less,
    LessEqual,
    Greater,
    GreaterEqual,
    Equal,
    NotEqual,
    /// `?`, which no line of code has: in a recorded trace it is what wasn't recorded.
    Question,
}

/// A token of a line, as its bytes.
#[derive(Clone, Copy)]
pub enum Token<'a> {
    Word(&'a [u8]),
    Number(&'a [u8]),
    Sign(Sign),
}

/// A kind of byte.
#[derive(Clone, Copy)]
pub(crate) enum Class {
    Space,
    Word,
    Digit,
}

/// Whether the byte is an ASCII letter or an underscore.
fn is_letter(byte: u8) -> bool
    ensures { result ≡ is_letter byte }
{
    byte.is_ascii_alphabetic() || byte == b'_'
}

/// The bytes that words are made of, each at its own place; at all other places is a dot.
static IN_WORDS: [u8; 128] =
    *b"................................................0123456789.......ABCDEFGHIJKLMNOPQRSTUVWXYZ...._.abcdefghijklmnopqrstuvwxyz.....";

/// Whether the byte may be in a word: an ASCII letter, a digit or an underscore.
fn is_in_word(byte: u8) -> bool
    ensures { result ≡ is_word_byte byte }
{
    byte < 128 && IN_WORDS[byte as usize] != b'.'
}

/// Whether the byte is of this kind. A digit is of the kind of words too.
fn is_of(class: Class, byte: u8) -> bool
    ensures { result ≡ is_of class byte }
{
    match class {
        Class::Space => byte == b' ',
        Class::Word => is_in_word(byte),
        Class::Digit => byte.is_ascii_digit(),
    }
}

/// The longest front of bytes of the class, and the rest.
pub(crate) fn split_class(text: &[u8], class: Class) -> (&[u8], &[u8])
    ensures front { result.0.now ≡ front (is_of class) text.now }
    ensures rest { result.1.now ≡ after (is_of class) text.now }
    ensures whole { length result.0.now + length result.1.now ≡ length text.now }
{
    let mut n = 0;
    while n < text.len() && is_of(class, text[n]) {
        n += 1;
    }
    text.split_at(n)
}

/// The sign that begins with these two bytes, and its length.
fn sign_at(first: u8, second: u8) -> Option<(Sign, usize)>
    ensures value { result ≡ sign_at first second }
    ensures short { IfSome result (λ p. p.1 ≤ 2) }
    ensures single { IfSome result (λ p. (0 < first) × (1 < p.1 → second ≡ 61)) }
{
    let longer = second == b'=';
    match first {
        b'<' => Some(if longer {
            (Sign::LessEqual, 2)
        } else {
            (Sign::Less, 1)
        }),
        b'>' => Some(if longer {
            (Sign::GreaterEqual, 2)
        } else {
            (Sign::Greater, 1)
        }),
        b'=' => Some(if longer {
            (Sign::Equal, 2)
        } else {
            (Sign::Assign, 1)
        }),
        b'!' => longer.then_some((Sign::NotEqual, 2)),
        b'(' => Some((Sign::Open, 1)),
        b')' => Some((Sign::Close, 1)),
        b',' => Some((Sign::Comma, 1)),
        b'+' => Some((Sign::Plus, 1)),
        b'-' => Some((Sign::Minus, 1)),
        b'*' => Some((Sign::Times, 1)),
        b'?' => Some((Sign::Question, 1)),
        _ => None,
    }
}

/// The byte at this place, and 0 past the end.
fn byte_at(text: &[u8], i: usize) -> u8
    ensures value { result ≡ slice_index text.now i }
    ensures inside { 0 < result → i < length text.now }
{
    if i < text.len() { text[i] } else { 0 }
}

/// The token at the front of a text that begins with no space.
#[tactic(auto, unfolding(crate::specs::Reading::token_at))]
fn token_at(text: &[u8]) -> Option<(Token<'_>, &[u8])>
    ensures { option_map (λ p. (tok p.0, p.1.now)) result ≡ token_at text.now }
{
    let first = byte_at(text, 0);
    let second = byte_at(text, 1);
    if is_letter(first) {
        let (word, rest) = split_class(text, Class::Word);
        Some((Token::Word(word), rest))
    } else if first.is_ascii_digit() {
        let (digits, rest) = split_class(text, Class::Digit);
        Some((Token::Number(digits), rest))
    } else if first == b'-' && second.is_ascii_digit() {
        let (digits, _rest) = split_class(&text[1..], Class::Digit);
        let (number, rest) = text.split_at(digits.len() + 1);
        Some((Token::Number(number), rest))
    } else {
        let (sign, len) = sign_at(first, second)?;
        Some((Token::Sign(sign), &text[len..]))
    }
}

/// The token that the text begins with, behind spaces, and the rest.
pub fn next_token(text: &[u8]) -> Option<(Token<'_>, &[u8])>
    ensures found { IfSome result (λ p. Begins text.now (tok p.0) p.1.now) }
    ensures none { IfNone result ((t : Tok) (rest : List ℕ) → ¬ Begins text.now t rest) }
    ensures shorter { IfSome result (λ p. length p.1.now < length text.now) }
{
    let (_gap, rest) = split_class(text, Class::Space);
    token_at(rest)
}

/// Whether the text has spaces only.
pub(crate) fn is_blank(text: &[u8]) -> bool
    ensures { result ≡ list_all is_space text.now }
{
    text.iter().all(|b| *b == b' ')
}

/// The tokens that the text begins with, and what is left of it, which begins with no further one.
pub(crate) fn first_tokens(
    alloc: Global,
    text: &[u8],
) -> Result<(Vec<Token<'_>>, &[u8]), AllocError>
    ensures whole { IfOk result (λ p. list_all is_space p.1.now ≡ true → Spells text.now (toks p.0.items)) }
    ensures broken { IfOk result (λ p. list_all is_space p.1.now ≡ false → (ts : List Tok) → ¬ Spells text.now ts) }
{
    let mut found = Vec::new(alloc);
    let mut rest = text;
    while let Some((token, more)) = next_token(rest) {
        found.push(token)?;
        rest = more;
    }
    Ok((found, rest))
}

/// The tokens that the text spells.
pub fn tokens(alloc: Global, text: &[u8]) -> Result<Vec<Token<'_>>, LineFault>
    ensures ok { IfOk result (λ v. Spells text.now (toks v.items)) }
    ensures err { IfErr result (λ f. ¬ (f ≡ Memory) → (f ≡ Syntax) × ((ts : List Tok) → ¬ Spells text.now ts)) }
{
    let (found, rest) = first_tokens(alloc, text)?;
    if is_blank(rest) {
        Ok(found)
    } else {
        Err(LineFault::Syntax)
    }
}

/// Where in the text the token with this number begins, from 0: in bytes. For a number past the last token it is where what is
/// no token begins, or the text's end.
pub fn place_of(text: &[u8], number: usize) -> usize
    ensures { result ≤ length text.now }
{
    let mut rest = text;
    for _ in 0..number {
        match next_token(rest) {
            Some((_, more)) => rest = more,
            None => break,
        }
    }
    let (_gap, rest) = split_class(rest, Class::Space);
    text.len().saturating_sub(rest.len())
}
