// The arguments of a call in a trace.
ghost use Rattle.std.specs.Prelude.{◌≡◌, ◌∷◌, ℤ, List, IfErr, IfNone, IfOk, IfSome, OnErr, OnOk};
ghost use Rattle.fr_program.specs.declared.ids.ObjId.{ObjId};
ghost use Rattle.fr_instr.specs.Tokens.{Tok, sign};
ghost use Rattle.fr_instr.specs.Views.{tok, toks};
ghost use Rattle.fr_instr.specs.declared.token.Sign.TheVariants.{Comma};
ghost use Rattle.fr_trace.specs.Args.{IsAnyName, IsNull, IsNumber, IsObjectAt, IsTimeAt, Puts, PutsAll, PutsFirst, PutsMore, closing, unseen_parts};
ghost use Rattle.fr_events.specs.declared.recorded.Recorded.{Recorded};
ghost use Rattle.fr_events.specs.declared.seen_call.SeenCall.{SeenCall};
ghost use Rattle.fr_events.specs.declared.seen_call.SeenTime.{SeenTime};

use crate::no_trace::TraceFault;
use fr_events::{Recorded, SeenCall, SeenTime};
use fr_instr::{Names, Sign, Slot, Token, Verb, integer_of};
use fr_program::ObjId;

/// What is wrong, and how many tokens are left where it is.
#[derive(Clone, Copy)]
pub(crate) struct Wrong {
    pub fault: TraceFault,
    pub left: usize,
}

/// The number that the token is.
pub(crate) fn number_at(token: Token<'_>) -> Result<Recorded<i64>, TraceFault>
    ensures ok { IfOk result (IsNumber (tok token.entry)) }
    ensures err { OnErr result ((z : Recorded ℤ) → ¬ IsNumber (tok token.entry) z) }
{
    match token {
        Token::Number(digits) => match integer_of(digits) {
            Some(number) => Ok(Recorded::Known(number)),
            None => Err(TraceFault::BadNumber),
        },
        Token::Sign(Sign::Question) => Ok(Recorded::Unknown),
        _ => Err(TraceFault::BadArgument),
    }
}

/// The object that the token names.
fn object_at(names: &Names, token: Token<'_>) -> Result<Recorded<ObjId>, TraceFault>
    ensures ok { IfOk result (IsObjectAt names.now (tok token.entry)) }
    ensures err { OnErr result ((o : Recorded ObjId) → ¬ IsObjectAt names.now (tok token.entry) o) }
{
    match token {
        Token::Word(name) => match names.object_named(name) {
            Some(object) => Ok(Recorded::Known(object)),
            None => Err(TraceFault::BadArgument),
        },
        Token::Sign(Sign::Question) => Ok(Recorded::Unknown),
        _ => Err(TraceFault::BadArgument),
    }
}

/// The block time that the token is.
fn time_at(token: Token<'_>) -> Result<Recorded<SeenTime>, TraceFault>
    ensures ok { IfOk result (IsTimeAt (tok token.entry)) }
    ensures err { OnErr result ((z : Recorded SeenTime) → ¬ IsTimeAt (tok token.entry) z) }
{
    match token {
        Token::Word(name) => {
            if name == b"portMAX_DELAY".as_slice() {
                Ok(Recorded::Known(SeenTime::MaxDelay))
            } else {
                Err(TraceFault::BadArgument)
            }
        }
        Token::Number(digits) => match integer_of(digits) {
            Some(number) => Ok(Recorded::Known(SeenTime::Ticks(number))),
            None => Err(TraceFault::BadNumber),
        },
        Token::Sign(Sign::Question) => Ok(Recorded::Unknown),
        Token::Sign(_) => Err(TraceFault::BadArgument),
    }
}

/// Ok where the token is a word or `?`.
fn any_name_at(token: Token<'_>) -> Result<(), TraceFault>
    ensures ok { OnOk result (IsAnyName (tok token.entry)) }
    ensures err { OnErr result (¬ IsAnyName (tok token.entry)) }
{
    match token {
        Token::Word(_) | Token::Sign(Sign::Question) => Ok(()),
        _ => Err(TraceFault::BadArgument),
    }
}

/// Ok where the token is `NULL` or `?`.
fn null_at(token: Token<'_>) -> Result<(), TraceFault>
    ensures ok { OnOk result (IsNull (tok token.entry)) }
    ensures err { OnErr result (¬ IsNull (tok token.entry)) }
{
    match token {
        Token::Word(name) => {
            if name == b"NULL".as_slice() {
                Ok(())
            } else {
                Err(TraceFault::BadArgument)
            }
        }
        Token::Sign(Sign::Question) => Ok(()),
        _ => Err(TraceFault::BadArgument),
    }
}

/// What is seen with this token in a place of this kind, beside what was seen before.
fn put(names: &Names, place: Slot, token: Token<'_>, seen: SeenCall) -> Result<SeenCall, TraceFault>
    ensures ok { IfOk result (Puts names.now place (tok token.entry) seen) }
    ensures err { OnErr result ((u : SeenCall) → ¬ Puts names.now place (tok token.entry) seen u) }
{
    Ok(match place {
        Slot::Object => SeenCall {
            object: object_at(names, token)?,
            ..seen
        },
        Slot::Operand => SeenCall {
            value: number_at(token)?,
            ..seen
        },
        Slot::Variable => {
            any_name_at(token)?;
            seen
        }
        Slot::Length => SeenCall {
            length: number_at(token)?,
            ..seen
        },
        Slot::Time => SeenCall {
            time: time_at(token)?,
            ..seen
        },
        Slot::Ticks => SeenCall {
            ticks: number_at(token)?,
            ..seen
        },
        Slot::Null => {
            null_at(token)?;
            seen
        }
    })
}

/// What follows a comma at the front.
fn past_comma<'a, 't>(tokens: &'t [Token<'a>]) -> Option<&'t [Token<'a>]>
    ensures some { IfSome result (λ rest. toks tokens.now ≡ sign Comma ∷ toks rest.now) }
    ensures none { IfNone result ((rest : List Tok) → ¬ (toks tokens.now ≡ sign Comma ∷ rest)) }
{
    match tokens.split_first() {
        Some((Token::Sign(Sign::Comma), rest)) => Some(rest),
        _ => None,
    }
}

/// Ok where the tokens are the closing bracket alone.
fn closed(tokens: &[Token<'_>]) -> Result<(), Wrong>
    ensures ok { OnOk result (toks tokens.now ≡ closing) }
    ensures err { OnErr result (¬ (toks tokens.now ≡ closing)) }
{
    let left = tokens.len();
    let Some((first, rest)) = tokens.split_first() else {
        return Err(Wrong {
            fault: TraceFault::NoEvent,
            left,
        });
    };
    match *first {
        Token::Sign(Sign::Close) => {
            if rest.is_empty() {
                Ok(())
            } else {
                Err(Wrong {
                    fault: TraceFault::NoEvent,
                    left: rest.len(),
                })
            }
        }
        Token::Sign(Sign::Comma) => Err(Wrong {
            fault: TraceFault::ArgCount,
            left,
        }),
        _ => Err(Wrong {
            fault: TraceFault::NoEvent,
            left,
        }),
    }
}

/// What is seen with the first of these tokens in a place of this kind, beside what was seen before, and the tokens that
/// follow it.
fn put_first<'a, 't>(
    names: &Names,
    place: Slot,
    tokens: &'t [Token<'a>],
    seen: SeenCall,
) -> Result<(SeenCall, &'t [Token<'a>]), Wrong>
    ensures ok { IfOk result (λ r. PutsFirst names.now place (toks tokens.now) seen r.0 (toks r.1.now)) }
    ensures err { OnErr result ((u : SeenCall) (rest : List Tok) → ¬ PutsFirst names.now place (toks tokens.now) seen u rest) }
{
    let left = tokens.len();
    let Some((token, rest)) = tokens.split_first() else {
        return Err(Wrong {
            fault: TraceFault::NoEvent,
            left,
        });
    };
    match put(names, place, *token, seen) {
        Ok(seen) => Ok((seen, rest)),
        Err(fault) => Err(Wrong { fault, left }),
    }
}

/// What is seen with these tokens in these places, each after a comma, beside what was seen before. The closing bracket
/// ends them.
fn put_more(
    names: &Names,
    places: &[Slot],
    tokens: &[Token<'_>],
    seen: SeenCall,
) -> Result<SeenCall, Wrong>
    ensures ok { IfOk result (PutsMore names.now places.now (toks tokens.now) seen) }
    ensures err { OnErr result ((u : SeenCall) → ¬ PutsMore names.now places.now (toks tokens.now) seen u) }
{
    let Some((place, places)) = places.split_first() else {
        closed(tokens)?;
        return Ok(seen);
    };
    let Some(inside) = past_comma(tokens) else {
        return Err(Wrong {
            fault: TraceFault::ArgCount,
            left: tokens.len(),
        });
    };
    match put_first(names, *place, inside, seen) {
        Ok((seen, rest)) => put_more(names, places, rest, seen),
        Err(wrong) => Err(wrong),
    }
}

/// The call of this name, with these tokens after its opening bracket.
pub(crate) fn seen_in(
    names: &Names,
    verb: Verb,
    places: &[Slot],
    tokens: &[Token<'_>],
) -> Result<SeenCall, Wrong>
    ensures ok { IfOk result (PutsAll names.now places.now (toks tokens.now) (unseen_parts verb)) }
    ensures err { OnErr result ((u : SeenCall) → ¬ PutsAll names.now places.now (toks tokens.now) (unseen_parts verb) u) }
{
    let seen = SeenCall {
        verb,
        object: Recorded::Unknown,
        value: Recorded::Unknown,
        length: Recorded::Unknown,
        time: Recorded::Unknown,
        ticks: Recorded::Unknown,
    };
    let Some((place, places)) = places.split_first() else {
        closed(tokens)?;
        return Ok(seen);
    };
    match put_first(names, *place, tokens, seen) {
        Ok((seen, rest)) => put_more(names, places, rest, seen),
        Err(wrong) => Err(wrong),
    }
}
