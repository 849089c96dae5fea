// What a line adds to what is read before it.
ghost use Rattle.std.specs.Prelude.{◌≡◌, Bool, IfErr, IfOk, MatchOption, OnErr, Some, false, is_some, true};
ghost use Rattle.std.specs.List.{list_any};
ghost use Rattle.fr_instr.specs.Calls.{row_named};
ghost use Rattle.fr_instr.specs.Names.{place_of};
ghost use Rattle.fr_instr.specs.Views.{tok, toks};
ghost use Rattle.fr_trace.specs.Reads.{ActorDoes, Does, HasReturned, HasSet, IsEnter, IsEnterOf, IsWhy, OwnDoes, is_object_name, is_strange, is_strange_by, is_strange_call, is_strange_place, is_touched};
ghost use Rattle.fr_trace.specs.Views.{said_of, so_far};
ghost use Rattle.fr_trace.specs.declared.effect.Addition.{Addition};
ghost use Rattle.fr_events.specs.declared.trace.Event.{Event};

use crate::args;
use crate::no_trace::{TraceFault, Unlisted};
use crate::progress::Progress;
use crate::said::Said;
use crate::stop::Stop;
use fr_events::{Event, Happening};
use fr_instr::{Names, Slot, Token, Verb, integer_of, row_named};
use fr_program::ActorId;

/// What a line other than a header adds to what is read before it.
#[derive(Clone, Copy)]
pub enum Addition {
    /// Nothing: it is blank, or it is a return whose enter is missing.
    Nothing,
    /// This event.
    Add(Event),
    /// From here on events are missing.
    Lose,
    /// One more event is ignored: its actor isn't listed, and it touches nothing that is.
    Ignore,
}

/// What no line of the application can be in a call with these places, by its first argument: its object isn't listed,
/// or it deletes another task.
fn unlisted_place<'a>(names: &Names, places: &[Slot], tokens: &[Token<'a>]) -> Option<Unlisted<'a>>
    ensures { is_some result ≡ is_strange_place names.now places.now (toks tokens.now) }
{
    let Some((place, _)) = places.split_first() else {
        return None;
    };
    let Some((token, _)) = tokens.split_first() else {
        return None;
    };
    match (*place, *token) {
        (Slot::Object, Token::Word(object)) => match names.object_named(object) {
            Some(_) => None,
            None => Some(Unlisted::Object { object }),
        },
        (Slot::Null, Token::Word(task)) => {
            if task == b"NULL".as_slice() {
                None
            } else {
                Some(Unlisted::Call)
            }
        }
        _ => None,
    }
}

/// The event at which the actor begins this call, with these tokens after its bracket.
fn begun(
    names: &Names,
    line: usize,
    actor: ActorId,
    verb: Verb,
    places: &[Slot],
    tokens: &[Token<'_>],
    progress: &Progress,
) -> Result<Event, (TraceFault, usize)>
    ensures ok { IfOk result (IsEnterOf names.now line (so_far progress.now) actor verb places.now (toks tokens.now)) }
    ensures err { OnErr result ((e : Event) → ¬ IsEnterOf names.now line (so_far progress.now) actor verb places.now (toks tokens.now) e) }
{
    if progress.is_unseen(verb) {
        return Err((TraceFault::EnterUnseen, 2));
    }
    if progress.is_open(actor) {
        return Err((TraceFault::EnterInCall, 1));
    }
    match args::seen_in(names, verb, places, tokens) {
        Ok(seen) => Ok(Event {
            actor,
            line,
            what: Happening::Enter(seen),
        }),
        Err(wrong) => Err((
            wrong.fault,
            tokens.len().saturating_sub(wrong.left).saturating_add(4),
        )),
    }
}

/// The event at which the actor begins the call of this name, with these tokens after its bracket.
fn entered<'a>(
    names: &Names,
    line: usize,
    actor: ActorId,
    call: &'a [u8],
    tokens: &[Token<'a>],
    progress: &Progress,
) -> Result<Event, Stop<'a>>
    ensures ok { IfOk result (IsEnter names.now line (so_far progress.now) actor call.now (toks tokens.now)) }
    ensures err { IfErr result (λ s. IsWhy s (is_strange_call names.now (row_named call.now) (toks tokens.now))
        ((e : Event) × IsEnter names.now line (so_far progress.now) actor call.now (toks tokens.now) e)) }
{
    let Some((_, verb, places, _)) = row_named(call) else {
        return Err(Stop::NotListed(Unlisted::Call));
    };
    if let Some(unlisted) = unlisted_place(names, places, tokens) {
        return Err(Stop::NotListed(unlisted));
    }
    match begun(names, line, actor, verb, places, tokens, progress) {
        Ok(event) => Ok(event),
        Err((fault, skip)) => Err(Stop::Wrong(fault, skip)),
    }
}

/// What a return of the actor adds, with these tokens as its result and its value.
fn returned(
    line: usize,
    actor: ActorId,
    answer: Token<'_>,
    value: Token<'_>,
    progress: &Progress,
) -> Result<Addition, (TraceFault, usize)>
    ensures ok { IfOk result (HasReturned line (so_far progress.now) actor (tok answer.entry) (tok value.entry)) }
    ensures err { OnErr result ((e : Addition) → ¬ HasReturned line (so_far progress.now) actor (tok answer.entry) (tok value.entry) e) }
{
    let result = match args::number_at(answer) {
        Ok(result) => result,
        Err(fault) => return Err((fault, 2)),
    };
    let value = match args::number_at(value) {
        Ok(value) => value,
        Err(fault) => return Err((fault, 3)),
    };
    if progress.is_open(actor) {
        return Ok(Addition::Add(Event {
            actor,
            line,
            what: Happening::Return { result, value },
        }));
    }
    if progress.may_miss() {
        Ok(Addition::Nothing)
    } else {
        Err((TraceFault::ReturnOutside, 1))
    }
}

/// The event at which the actor has set this variable to this number.
fn set(
    names: &Names,
    line: usize,
    actor: ActorId,
    variable: &[u8],
    number: &[u8],
) -> Result<Addition, (TraceFault, usize)>
    ensures ok { IfOk result (HasSet names.now line actor variable.now number.now) }
    ensures err { OnErr result ((e : Addition) → ¬ HasSet names.now line actor variable.now number.now e) }
{
    let Some(variable) = names.variable_named(variable) else {
        return Err((TraceFault::UnknownVariable, 2));
    };
    let Some(number) = integer_of(number) else {
        return Err((TraceFault::BadNumber, 3));
    };
    Ok(Addition::Add(Event {
        actor,
        line,
        what: Happening::Set { variable, number },
    }))
}

/// What a line of an actor that is listed adds.
fn own<'a>(
    names: &Names,
    line: usize,
    actor: ActorId,
    said: Said<'a, '_>,
    progress: &Progress,
) -> Result<Addition, Stop<'a>>
    ensures ok { IfOk result (OwnDoes names.now line (so_far progress.now) actor (said_of said.entry)) }
    ensures err { IfErr result (λ s. IsWhy s (is_strange_by names.now (Some actor.0) (said_of said.entry))
        ((e : Addition) × OwnDoes names.now line (so_far progress.now) actor (said_of said.entry) e)) }
{
    let what = match said {
        Said::Enter(_, call, tokens) => {
            return match entered(names, line, actor, call, tokens, progress) {
                Ok(event) => Ok(Addition::Add(event)),
                Err(stop) => Err(stop),
            };
        }
        Said::Return(_, answer, value) => {
            return match returned(line, actor, answer, value, progress) {
                Ok(effect) => Ok(effect),
                Err((fault, skip)) => Err(Stop::Wrong(fault, skip)),
            };
        }
        Said::Set(_, variable, number) => {
            return match set(names, line, actor, variable, number) {
                Ok(effect) => Ok(effect),
                Err((fault, skip)) => Err(Stop::Wrong(fault, skip)),
            };
        }
        Said::Begin(_) => Happening::Begin,
        Said::End(_) => Happening::End,
        _ => return Err(Stop::Wrong(TraceFault::NoEvent, 0)),
    };
    Ok(Addition::Add(Event { actor, line, what }))
}

/// The name of an object among these tokens, the first one.
fn object_among<'a>(names: &Names, tokens: &[Token<'a>]) -> Option<&'a [u8]>
    ensures { is_some result ≡ list_any (is_object_name names.now) (toks tokens.now) }
{
    for token in tokens {
        if let Token::Word(word) = *token {
            if names.object_named(word).is_some() {
                return Some(word);
            }
        }
    }
    None
}

/// What a line of an actor that isn't listed touches, an object or a variable of the application.
fn touched<'a>(names: &Names, said: Said<'a, '_>) -> Option<&'a [u8]>
    ensures { is_some result ≡ is_touched names.now (said_of said.entry) }
{
    match said {
        Said::Enter(_, _, tokens) => object_among(names, tokens),
        Said::Set(_, variable, _) => match names.variable_named(variable) {
            Some(_) => Some(variable),
            None => None,
        },
        _ => None,
    }
}

/// What a line of the actor with this name adds.
fn by_actor<'a>(
    names: &Names,
    line: usize,
    actor: &'a [u8],
    said: Said<'a, '_>,
    progress: &Progress,
) -> Result<Addition, Stop<'a>>
    ensures ok { IfOk result (ActorDoes names.now line (so_far progress.now) (place_of names.now.actors actor.now) (said_of said.entry)) }
    ensures err { IfErr result (λ s. IsWhy s (is_strange_by names.now (place_of names.now.actors actor.now) (said_of said.entry))
        ((e : Addition) × ActorDoes names.now line (so_far progress.now) (place_of names.now.actors actor.now) (said_of said.entry) e)) }
{
    if let Some(actor) = names.actor_named(actor) {
        return own(names, line, actor, said, progress);
    }
    match touched(names, said) {
        Some(touches) => Err(Stop::NotListed(Unlisted::Actor { touches })),
        None => Ok(Addition::Ignore),
    }
}

/// What a line other than a header adds.
pub(crate) fn effect_of<'a>(
    names: &Names,
    line: usize,
    said: Said<'a, '_>,
    progress: &Progress,
) -> Result<Addition, Stop<'a>>
    ensures ok { IfOk result (Does names.now line (so_far progress.now) (said_of said.entry)) }
    ensures err { IfErr result (λ s. IsWhy s (is_strange names.now (said_of said.entry))
        ((e : Addition) × Does names.now line (so_far progress.now) (said_of said.entry) e)) }
{
    match said {
        Said::Nothing => Ok(Addition::Nothing),
        Said::Unseen(_) => Err(Stop::Wrong(TraceFault::NoEvent, 0)),
        Said::Lost => Ok(Addition::Lose),
        Said::Enter(actor, _, _)
        | Said::Return(actor, _, _)
        | Said::Set(actor, _, _)
        | Said::Begin(actor)
        | Said::End(actor) => by_actor(names, line, actor, said, progress),
    }
}
