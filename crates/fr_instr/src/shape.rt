// Shapes of lines: what is in a line, with its words and numbers still as their bytes. What is no line's shape says how
// many tokens are left where it stops being one.
ghost use Rattle.std.specs.Prelude.{◌≡◌, ◌+◌, ◌++◌, ◌≤◌, drop, length, option_map, IfOk, None, map};
ghost use Rattle.std.specs.Result.{result_ok};
ghost use Rattle.fr_instr.specs.Views.{toks, word_of, words, text_in, shape_view};
ghost use Rattle.fr_instr.specs.ShapeReading.{operator_of, comparison_of, take_word, take_number, take_value, take_sign, at_end, set_tail, set_at, number_behind, branch_at, jump_at, pick_at, keyword_at, behind_open, behind_close, arg_before_comma, arg_before_close, some_args, args_at, else_tail, else_at, target_end, call_at, head_at, counted_at, shape_at};

use crate::token::{Sign, Token};
use fr_program::{Comparison, Operator};
use std::alloc::{AllocError, Global};

/// How many tokens are left where they stop being a line, the one at fault among them.
#[derive(Clone, Copy)]
pub(crate) struct Left(pub usize);

/// What stands first in some tokens, and the tokens behind it.
type Front<'a, 't, T> = Result<(T, &'t [Token<'a>]), Left>;

/// A word or a number, as its bytes.
#[derive(Clone, Copy)]
pub(crate) enum Value<'a> {
    Name(&'a [u8]),
    Number(&'a [u8]),
}

/// A call: the variable before it, its name, its arguments and the target behind it.
#[derive(Drop)]
pub(crate) struct CallShape<'a> {
    pub into: Option<&'a [u8]>,
    pub name: &'a [u8],
    pub args: Vec<Value<'a>>,
    pub or_else: Option<&'a [u8]>,
}

/// A line whose words and numbers are still bytes.
#[derive(Drop)]
pub(crate) enum Shape<'a> {
    Set(&'a [u8], Value<'a>),
    SetTo(&'a [u8], Value<'a>, Operator, Value<'a>),
    If(Value<'a>, Comparison, Value<'a>, &'a [u8]),
    Goto(&'a [u8]),
    Pick(&'a [u8], &'a [u8], &'a [u8]),
    Return,
    Call(CallShape<'a>),
}

/// The operator that the sign is, if it is one.
fn operator_of(sign: Sign) -> Option<Operator>
    ensures { result ≡ operator_of sign }
{
    match sign {
        Sign::Plus => Some(Operator::Plus),
        Sign::Minus => Some(Operator::Minus),
        Sign::Times => Some(Operator::Times),
        _ => None,
    }
}

/// The comparison that the sign is, if it is one.
fn comparison_of(sign: Sign) -> Option<Comparison>
    ensures { result ≡ comparison_of sign }
{
    match sign {
        Sign::Less => Some(Comparison::Less),
        Sign::LessEqual => Some(Comparison::AtMost),
        Sign::Greater => Some(Comparison::Greater),
        Sign::GreaterEqual => Some(Comparison::AtLeast),
        Sign::Equal => Some(Comparison::Equal),
        Sign::NotEqual => Some(Comparison::NotEqual),
        _ => None,
    }
}

/// The first token if it is a word, and the tokens behind it.
pub fn take_word<'a, 't>(tokens: &'t [Token<'a>]) -> Option<(&'a [u8], &'t [Token<'a>])>
    ensures { option_map (λ p. (p.0.now, toks p.1.now)) result ≡ take_word (toks tokens.now) }
{
    match tokens.split_first() {
        Some((Token::Word(word), rest)) => Some((*word, rest)),
        _ => None,
    }
}

/// The first token if it is a number, and the tokens behind it.
pub fn take_number<'a, 't>(tokens: &'t [Token<'a>]) -> Option<(&'a [u8], &'t [Token<'a>])>
    ensures { option_map (λ p. (p.0.now, toks p.1.now)) result ≡ take_number (toks tokens.now) }
{
    match tokens.split_first() {
        Some((Token::Number(number), rest)) => Some((*number, rest)),
        _ => None,
    }
}

/// The same of a word that has to be there.
fn word_at<'a, 't>(tokens: &'t [Token<'a>]) -> Front<'a, 't, &'a [u8]>
    ensures { option_map (λ p. (p.0.now, toks p.1.now)) (result_ok result) ≡ take_word (toks tokens.now) }
{
    take_word(tokens).ok_or(Left(tokens.len()))
}

/// The same of a number that has to be there.
fn number_at<'a, 't>(tokens: &'t [Token<'a>]) -> Front<'a, 't, &'a [u8]>
    ensures { option_map (λ p. (p.0.now, toks p.1.now)) (result_ok result) ≡ take_number (toks tokens.now) }
{
    take_number(tokens).ok_or(Left(tokens.len()))
}

/// The first token, which has to be a word or a number, and the tokens behind it.
fn take_value<'a, 't>(tokens: &'t [Token<'a>]) -> Front<'a, 't, Value<'a>>
    ensures value { option_map (λ p. (word_of p.0, toks p.1.now)) (result_ok result) ≡ take_value (toks tokens.now) }
    ensures shorter { IfOk result (λ p. length p.1.now + 1 ≡ length tokens.now) }
{
    match tokens.split_first() {
        Some((Token::Word(word), rest)) => Ok((Value::Name(*word), rest)),
        Some((Token::Number(number), rest)) => Ok((Value::Number(*number), rest)),
        _ => Err(Left(tokens.len())),
    }
}

/// The first token, which has to be a sign, and the tokens behind it.
fn take_sign<'a, 't>(tokens: &'t [Token<'a>]) -> Front<'a, 't, Sign>
    ensures value { option_map (λ p. (p.0, toks p.1.now)) (result_ok result) ≡ take_sign (toks tokens.now) }
    ensures shorter { IfOk result (λ p. length p.1.now + 1 ≡ length tokens.now) }
{
    match tokens.split_first() {
        Some((Token::Sign(sign), rest)) => Ok((*sign, rest)),
        _ => Err(Left(tokens.len())),
    }
}

/// The number behind this word, and the tokens behind it.
#[tactic(auto, unfolding(crate::specs::ShapeReading::number_behind))]
fn number_behind<'a, 't>(word: &[u8], tokens: &'t [Token<'a>]) -> Front<'a, 't, &'a [u8]>
    ensures { option_map (λ p. (p.0.now, toks p.1.now)) (result_ok result) ≡ number_behind word.now (toks tokens.now) }
{
    let (first, rest) = word_at(tokens)?;
    if first == word {
        number_at(rest)
    } else {
        Err(Left(tokens.len()))
    }
}

/// The shape, where no token follows.
fn at_end<'a>(shape: Shape<'a>, tokens: &[Token<'a>]) -> Result<Shape<'a>, Left>
    ensures { option_map shape_view (result_ok result) ≡ at_end (shape_view shape.entry) (toks tokens.now) }
{
    if tokens.is_empty() {
        Ok(shape)
    } else {
        Err(Left(tokens.len()))
    }
}

/// The shape of a `goto`, from the tokens behind that word.
#[tactic(auto, unfolding(crate::specs::ShapeReading::jump_at))]
fn goto_at<'a>(tokens: &[Token<'a>]) -> Result<Shape<'a>, Left>
    ensures { option_map shape_view (result_ok result) ≡ jump_at (toks tokens.now) }
{
    let (target, rest) = number_at(tokens)?;
    at_end(Shape::Goto(target), rest)
}

/// The shape of a `pick`, from the tokens behind that word.
#[tactic(auto, unfolding(crate::specs::ShapeReading::pick_at))]
fn pick_at<'a>(tokens: &[Token<'a>]) -> Result<Shape<'a>, Left>
    ensures { option_map shape_view (result_ok result) ≡ pick_at (toks tokens.now) }
{
    let (target, rest) = word_at(tokens)?;
    let (lo, rest) = number_at(rest)?;
    let (hi, rest) = number_at(rest)?;
    at_end(Shape::Pick(target, lo, hi), rest)
}

/// The shape of an `if`, from the tokens behind that word.
#[tactic(auto, unfolding(crate::specs::ShapeReading::branch_at))]
fn if_at<'a>(tokens: &[Token<'a>]) -> Result<Shape<'a>, Left>
    ensures { option_map shape_view (result_ok result) ≡ branch_at (toks tokens.now) }
{
    let (left, behind) = take_value(tokens)?;
    let (sign, rest) = take_sign(behind)?;
    let comparison = comparison_of(sign).ok_or(Left(behind.len()))?;
    let (right, rest) = take_value(rest)?;
    let (target, rest) = number_behind(b"goto", rest)?;
    at_end(Shape::If(left, comparison, right, target), rest)
}

/// The shape of a `set`, from the tokens behind its first operand.
#[tactic(auto, unfolding(crate::specs::ShapeReading::set_tail))]
fn set_tail<'a>(target: &'a [u8], left: Value<'a>, tokens: &[Token<'a>]) -> Result<Shape<'a>, Left>
    ensures { option_map shape_view (result_ok result) ≡ set_tail target.now (word_of left.entry) (toks tokens.now) }
{
    if tokens.is_empty() {
        return Ok(Shape::Set(target, left));
    }
    let (sign, rest) = take_sign(tokens)?;
    let operator = operator_of(sign).ok_or(Left(tokens.len()))?;
    let (right, rest) = take_value(rest)?;
    at_end(Shape::SetTo(target, left, operator, right), rest)
}

/// The shape of a `set`, from the tokens behind that word.
#[tactic(auto, unfolding(crate::specs::ShapeReading::set_at))]
fn set_at<'a>(tokens: &[Token<'a>]) -> Result<Shape<'a>, Left>
    ensures { option_map shape_view (result_ok result) ≡ set_at (toks tokens.now) }
{
    let (target, rest) = word_at(tokens)?;
    match take_sign(rest) {
        Ok((Sign::Assign, behind)) => {
            let (left, behind) = take_value(behind)?;
            set_tail(target, left, behind)
        }
        _ => Err(Left(rest.len())),
    }
}

/// The shape of a line that begins with this word, if it is a keyword.
#[tactic(auto, unfolding(crate::specs::ShapeReading::keyword_at))]
fn keyword_at<'a>(word: &[u8], tokens: &[Token<'a>]) -> Result<Shape<'a>, Left>
    ensures { option_map shape_view (result_ok result) ≡ keyword_at word.now (toks tokens.now) }
{
    if word == b"set".as_slice() {
        set_at(tokens)
    } else if word == b"if".as_slice() {
        if_at(tokens)
    } else if word == b"goto".as_slice() {
        goto_at(tokens)
    } else if word == b"pick".as_slice() {
        pick_at(tokens)
    } else if word == b"return".as_slice() {
        at_end(Shape::Return, tokens)
    } else {
        Err(Left(tokens.len()))
    }
}

/// An argument before a comma, and what follows the comma.
#[tactic(auto, unfolding(crate::specs::ShapeReading::arg_before_comma))]
fn arg_before_comma<'a, 't>(tokens: &'t [Token<'a>]) -> Front<'a, 't, Value<'a>>
    ensures value { option_map (λ p. (word_of p.0, toks p.1.now)) (result_ok result) ≡ arg_before_comma (toks tokens.now) }
    ensures shorter { IfOk result (λ p. length p.1.now + 2 ≡ length tokens.now) }
{
    let (value, behind) = take_value(tokens)?;
    match take_sign(behind) {
        Ok((Sign::Comma, rest)) => Ok((value, rest)),
        _ => Err(Left(behind.len())),
    }
}

/// An argument before a closing bracket, and what follows the bracket.
#[tactic(auto, unfolding(crate::specs::ShapeReading::arg_before_close))]
fn arg_before_close<'a, 't>(tokens: &'t [Token<'a>]) -> Front<'a, 't, Value<'a>>
    ensures { option_map (λ p. (word_of p.0, toks p.1.now)) (result_ok result) ≡ arg_before_close (toks tokens.now) }
{
    let (value, behind) = take_value(tokens)?;
    match take_sign(behind) {
        Ok((Sign::Close, rest)) => Ok((value, rest)),
        _ => Err(Left(behind.len())),
    }
}

/// What follows a closing bracket at the front.
fn behind_close<'a, 't>(tokens: &'t [Token<'a>]) -> Option<&'t [Token<'a>]>
    ensures { option_map (λ p. toks p.now) result ≡ behind_close (take_sign (toks tokens.now)) }
{
    match take_sign(tokens) {
        Ok((Sign::Close, rest)) => Some(rest),
        _ => None,
    }
}

/// The arguments that are before a comma, and where what follows the last comma begins.
fn args_before_last<'a>(
    alloc: Global,
    tokens: &[Token<'a>],
) -> Result<(Vec<Value<'a>>, usize), AllocError>
    ensures within { IfOk result (λ p. p.1 ≤ length tokens.now) }
    ensures before { IfOk result (λ p. some_args (toks tokens.now) ≡ option_map (λ q. (words p.0.items ++ q.0, q.1)) (some_args (toks (drop p.1 tokens.now)))) }
    ensures last { IfOk result (λ p. arg_before_comma (toks (drop p.1 tokens.now)) ≡ None) }
{
    let mut args = Vec::new(alloc);
    let mut i = 0;
    while let Ok((value, _rest)) = arg_before_comma(&tokens[i..]) {
        args.push(value)?;
        i += 2;
    }
    Ok((args, i))
}

/// The arguments up to the closing bracket, and what follows it.
#[tactic(auto, unfolding(crate::specs::ShapeReading::args_at))]
fn args_at<'a, 't>(
    alloc: Global,
    tokens: &'t [Token<'a>],
) -> Result<Front<'a, 't, Vec<Value<'a>>>, AllocError>
    ensures { IfOk result (λ r. option_map (λ p. (words p.0.items, toks p.1.now)) (result_ok r) ≡ args_at (toks tokens.now)) }
{
    if let Some(rest) = behind_close(tokens) {
        return Ok(Ok((Vec::new(alloc), rest)));
    }
    let (mut args, last) = args_before_last(alloc, tokens)?;
    match arg_before_close(&tokens[last..]) {
        Ok((value, rest)) => {
            args.push(value)?;
            Ok(Ok((args, rest)))
        }
        Err(left) => Ok(Err(left)),
    }
}

/// The target, where no token follows.
fn target_end<'a>(target: &'a [u8], tokens: &[Token<'a>]) -> Result<&'a [u8], Left>
    ensures { text_in (result_ok result) ≡ target_end target.now (toks tokens.now) }
{
    if tokens.is_empty() {
        Ok(target)
    } else {
        Err(Left(tokens.len()))
    }
}

/// The target behind `else`.
#[tactic(auto, unfolding(crate::specs::ShapeReading::else_tail))]
fn else_tail<'a>(tokens: &[Token<'a>]) -> Result<&'a [u8], Left>
    ensures { text_in (result_ok result) ≡ else_tail (toks tokens.now) }
{
    let (target, rest) = number_behind(b"else", tokens)?;
    target_end(target, rest)
}

/// The target behind `else`, where tokens are left at all.
fn else_at<'a>(tokens: &[Token<'a>]) -> Result<Option<&'a [u8]>, Left>
    ensures { option_map text_in (result_ok result) ≡ else_at (toks tokens.now) }
{
    if tokens.is_empty() {
        return Ok(None);
    }
    let target = else_tail(tokens)?;
    Ok(Some(target))
}

/// A call, behind its name and its opening bracket.
#[tactic(auto, unfolding(crate::specs::ShapeReading::call_at))]
fn call_at<'a>(
    alloc: Global,
    into: Option<&'a [u8]>,
    name: &'a [u8],
    tokens: &[Token<'a>],
) -> Result<Result<Shape<'a>, Left>, AllocError>
    ensures { IfOk result (λ r. option_map shape_view (result_ok r) ≡ call_at (text_in into.entry) name.now (toks tokens.now)) }
{
    let (args, rest) = match args_at(alloc, tokens)? {
        Ok(found) => found,
        Err(left) => return Ok(Err(left)),
    };
    match else_at(rest) {
        Ok(or_else) => Ok(Ok(Shape::Call(CallShape {
            into,
            name,
            args,
            or_else,
        }))),
        Err(left) => Ok(Err(left)),
    }
}

/// A call's name, and what follows the opening bracket.
#[tactic(auto, unfolding(crate::specs::ShapeReading::head_at))]
fn head_at<'a, 't>(tokens: &'t [Token<'a>]) -> Front<'a, 't, &'a [u8]>
    ensures { option_map (λ p. (p.0.now, toks p.1.now)) (result_ok result) ≡ head_at (toks tokens.now) }
{
    let (name, rest) = word_at(tokens)?;
    match take_sign(rest) {
        Ok((Sign::Open, inside)) => Ok((name, inside)),
        _ => Err(Left(rest.len())),
    }
}

/// The call's name and the tokens after its opening bracket; None where the tokens don't begin with a word and `(`.
pub fn head_behind<'a, 't>(tokens: &'t [Token<'a>]) -> Option<(&'a [u8], &'t [Token<'a>])>
    ensures { option_map (λ p. (p.0.now, toks p.1.now)) result ≡ head_at (toks tokens.now) }
{
    head_at(tokens).ok()
}

/// A call behind the variable that takes its answer.
#[tactic(auto, unfolding(crate::specs::ShapeReading::counted_at))]
fn counted_at<'a>(
    alloc: Global,
    into: &'a [u8],
    tokens: &[Token<'a>],
) -> Result<Result<Shape<'a>, Left>, AllocError>
    ensures { IfOk result (λ r. option_map shape_view (result_ok r) ≡ counted_at into.now (toks tokens.now)) }
{
    match head_at(tokens) {
        Ok((name, inside)) => call_at(alloc, Some(into), name, inside),
        Err(left) => Ok(Err(left)),
    }
}

/// The line whose tokens these are.
#[tactic(auto, unfolding(crate::specs::ShapeReading::shape_at))]
pub(crate) fn shape_at<'a>(
    alloc: Global,
    tokens: &[Token<'a>],
) -> Result<Result<Shape<'a>, Left>, AllocError>
    ensures { IfOk result (λ r. option_map shape_view (result_ok r) ≡ shape_at (toks tokens.now)) }
{
    let Some((word, rest)) = take_word(tokens) else {
        return Ok(Err(Left(tokens.len())));
    };
    match take_sign(rest) {
        Ok((Sign::Open, inside)) => call_at(alloc, None, word, inside),
        Ok((Sign::Assign, more)) => counted_at(alloc, word, more),
        _ => Ok(keyword_at(word, rest)),
    }
}
