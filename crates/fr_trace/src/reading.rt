// Reading: the trace that bytes mean for an application.
ghost use Rattle.std.specs.Prelude.{◌≡◌, ◌+◌, ◌++◌, ◌<◌, ◌≤◌, ◌^◌, ◌==◌, ℕ, Bool, List, IfErr, IfOk, OnOk, false, length};
ghost use Rattle.std.specs.Str.Lines.{lines};
ghost use Rattle.fr_instr.specs.Views.{tok, toks};
ghost use Rattle.fr_trace.specs.Means.{IsPresent, TraceMeans, TraceOf, beginning, said_in};
ghost use Rattle.fr_trace.specs.Reads.{AreCalls, Hides, IsLineWhy, IsNoTrace, IsPlaceWhy, IsSpellWhy, IsStop, IsStrangeTokens, IsTextWhy, IsWhy, LineReads, ReadsAt, ReadsLines, SaidReads, Sofar, TokensRead, call_named, is_strange, start};
ghost use Rattle.fr_instr.specs.Names.{NamesOf};
ghost use Rattle.fr_instr.specs.Tokens.{Spells};
ghost use Rattle.fr_trace.specs.Views.{said_of, so_far};
ghost use Rattle.fr_instr.specs.declared.call.Verb.{Verb};
ghost use Rattle.fr_trace.specs.declared.no_trace.NoTrace.{NoTrace as Refusal};
ghost use Rattle.fr_trace.specs.declared.no_trace.NoTrace.TheVariants.{Memory};

use crate::effect;
use crate::no_trace::{NoTrace, NotListed, TraceFault, Unlisted};
use crate::progress::Progress;
use crate::said::{self, Said};
use crate::stop::Stop;
use fr_events::Trace;
use fr_instr::{LineFault, Names, Token, Verb, next_token, place_of, row_named, tokens};
use std::alloc::{AllocError, Global};

/// The most bytes of a trace, 64 MiB.
pub const MOST_TRACE_BYTES: usize = 67_108_864;

/// The call that the token names.
fn call_named(token: Token<'_>) -> Option<Verb>
    ensures { result ≡ call_named (tok token.entry) }
{
    match token {
        Token::Word(name) => match row_named(name) {
            Some((_, verb, _, _)) => Some(verb),
            None => None,
        },
        _ => None,
    }
}

/// The calls that the tokens name, in order.
fn calls_in(alloc: Global, tokens: &[Token<'_>]) -> Result<Vec<Verb>, Stop<'static>>
    ensures ok { IfOk result (λ calls. AreCalls (toks tokens.now) calls.items) }
    ensures err { IfErr result (λ s. IsWhy s false ((calls : List Verb) × AreCalls (toks tokens.now) calls)) }
{
    let mut calls = Vec::new(alloc);
    for token in tokens {
        match call_named(*token) {
            Some(verb) => calls.push(verb)?,
            None => return Err(Stop::Wrong(TraceFault::UnknownCall, calls.len().saturating_add(1))),
        }
    }
    Ok(calls)
}

/// Adds the calls of a header to those that aren't recorded.
fn hide<'a>(alloc: Global, tokens: &[Token<'a>], progress: &mut Progress) -> Result<(), Stop<'a>>
    ensures ok { OnOk result (Hides (so_far progress.old) (toks tokens.now) (so_far progress.new)) }
    ensures err { IfErr result (λ s. IsWhy s false ((t : Sofar) × Hides (so_far progress.old) (toks tokens.now) t)) }
    ensures same { progress.new.ignored ≡ progress.old.ignored }
{
    if !progress.events.is_empty() {
        return Err(Stop::Wrong(TraceFault::LateHeader, 0));
    }
    if !progress.lost.is_empty() {
        return Err(Stop::Wrong(TraceFault::LateHeader, 0));
    }
    let calls = match calls_in(alloc, tokens) {
        Ok(calls) => calls,
        Err(stop) => return Err(stop),
    };
    progress.unseen.extend_from_slice(&calls)?;
    Ok(())
}

/// Reads a line that says this; `line` is its number, from 1.
fn read_said<'a>(
    alloc: Global,
    names: &Names,
    line: usize,
    said: Said<'a, '_>,
    progress: &mut Progress,
) -> Result<(), Stop<'a>>
    requires { progress.old.ignored < line }
    ensures ok { OnOk result (SaidReads names.now line (said_of said.entry) (so_far progress.old) (so_far progress.new)) }
    ensures err { IfErr result (λ s. IsWhy s (is_strange names.now (said_of said.entry))
        ((t : Sofar) × SaidReads names.now line (said_of said.entry) (so_far progress.old) t)) }
    ensures bound { progress.new.ignored ≤ line }
{
    if let Said::Unseen(tokens) = said {
        return hide(alloc, tokens, progress);
    }
    let effect = match effect::effect_of(names, line, said, progress) {
        Ok(effect) => effect,
        Err(stop) => return Err(stop),
    };
    progress.add(effect)?;
    Ok(())
}

/// The column of the token before which there are so many others, in bytes from 1; without such a token, that of what
/// follows them.
fn column_of(text: &[u8], skip: usize) -> usize
    ensures { result ≤ length text.now + 1 }
{
    place_of(text, skip).saturating_add(1)
}

/// How many tokens are before the place at which these aren't an event.
fn place_in(tokens: &[Token<'_>]) -> usize {
    let Some(Token::Word(_)) = tokens.first() else {
        return 0;
    };
    let Some(Token::Word(kind)) = tokens.get(1) else {
        return 1;
    };
    if *kind == b"enter".as_slice() {
        return if matches!(tokens.get(2), Some(Token::Word(_))) {
            3
        } else {
            2
        };
    }
    if *kind == b"return".as_slice() {
        return 4;
    }
    if *kind == b"set".as_slice() {
        return match tokens.get(2) {
            Some(Token::Word(_)) => {
                if matches!(tokens.get(3), Some(Token::Number(_))) {
                    4
                } else {
                    3
                }
            }
            _ => 2,
        };
    }
    if *kind == b"begin".as_slice() || *kind == b"end".as_slice() {
        2
    } else {
        1
    }
}

/// The word that the line begins with.
fn first_word(text: &[u8]) -> &[u8] {
    match next_token(text) {
        Some((Token::Word(word), _)) => word,
        _ => b"",
    }
}

/// Why a line with this number isn't read.
fn no_trace<'a>(stop: Stop<'a>, line: usize, text: &'a [u8]) -> NoTrace<'a>
    ensures { IsNoTrace stop.entry line text.now result }
{
    match stop {
        Stop::Memory => NoTrace::Memory,
        Stop::NotListed(what) => NoTrace::NotListed(NotListed {
            line,
            actor: first_word(text),
            text,
            what,
        }),
        Stop::Wrong(fault, skip) => NoTrace::Faulty {
            line,
            column: column_of(text, skip),
            fault,
        },
    }
}

/// The tokens of a line; `line` is its number, from 1.
fn tokens_of<'a>(alloc: Global, line: usize, text: &'a [u8]) -> Result<Vec<Token<'a>>, NoTrace<'a>>
    ensures ok { IfOk result (λ tokens. Spells text.now (toks tokens.items)) }
    ensures err { IfErr result (IsSpellWhy line text.now) }
{
    match tokens(alloc, text) {
        Ok(tokens) => Ok(tokens),
        Err(fault) => match fault {
            LineFault::Memory => Err(NoTrace::Memory),
            _ => Err(NoTrace::Faulty {
                line,
                column: column_of(text, usize::MAX),
                fault: TraceFault::NoEvent,
            }),
        },
    }
}

/// Reads a line of these tokens; `line` is its number, from 1.
fn read_tokens<'a>(
    alloc: Global,
    names: &Names,
    line: usize,
    tokens: &[Token<'a>],
    progress: &mut Progress,
) -> Result<(), Stop<'a>>
    requires { progress.old.ignored < line }
    ensures ok { OnOk result (TokensRead names.now line (toks tokens.now) (so_far progress.old) (so_far progress.new)) }
    ensures err { IfErr result (λ s. IsStop s (IsStrangeTokens names.now (toks tokens.now))
        ((t : Sofar) × TokensRead names.now line (toks tokens.now) (so_far progress.old) t)) }
    ensures bound { progress.new.ignored ≤ line }
{
    let Some(said) = said::said_by(tokens) else {
        return Err(Stop::Wrong(TraceFault::NoEvent, place_in(tokens)));
    };
    match read_said(alloc, names, line, said, progress) {
        Ok(()) => Ok(()),
        Err(stop) => Err(stop),
    }
}

/// Reads a line; `line` is its number, from 1.
fn read_line<'a>(
    alloc: Global,
    names: &Names,
    line: usize,
    text: &'a [u8],
    progress: &mut Progress,
) -> Result<(), NoTrace<'a>>
    requires { progress.old.ignored < line }
    ensures ok { OnOk result (LineReads names.now line text.now (so_far progress.old) (so_far progress.new)) }
    ensures err { IfErr result (IsLineWhy names.now line text.now ((t : Sofar) × LineReads names.now line text.now (so_far progress.old) t)) }
    ensures bound { progress.new.ignored ≤ line }
{
    if said::begins_comment(text) {
        return Ok(());
    }
    let tokens = match tokens_of(alloc, line, text) {
        Ok(tokens) => tokens,
        Err(why) => return Err(why),
    };
    match read_tokens(alloc, names, line, tokens.as_slice(), progress) {
        Ok(()) => Ok(()),
        Err(stop) => Err(no_trace(stop, line, text)),
    }
}

/// Reads the line at this place, from 0: the first is `fr_trace 1`.
fn read_at<'a>(
    alloc: Global,
    names: &Names,
    index: usize,
    text: &'a str,
    progress: &mut Progress,
) -> Result<(), NoTrace<'a>>
    requires counted { progress.old.ignored ≤ index }
    requires fits { index + 1 < 2 ^ 64 }
    ensures ok { OnOk result (ReadsAt names.now index text.now (so_far progress.old) (so_far progress.new)) }
    ensures err { IfErr result (IsPlaceWhy names.now (index == 0) (index + 1) text.now ((t : Sofar) × ReadsAt names.now index text.now (so_far progress.old) t)) }
    ensures bound { progress.new.ignored ≤ index + 1 }
{
    if index != 0 {
        return match read_line(alloc, names, index + 1, text.as_bytes(), progress) {
            Ok(()) => Ok(()),
            Err(why) => Err(why),
        };
    }
    if text.as_bytes() == b"fr_trace 1".as_slice() {
        Ok(())
    } else {
        Err(NoTrace::Faulty {
            line: 1,
            column: 1,
            fault: TraceFault::Version,
        })
    }
}

/// What the lines of a text mean, one after another.
fn read_lines<'a>(
    alloc: Global,
    names: &Names,
    text: &'a str,
    from_anywhere: bool,
) -> Result<Progress, NoTrace<'a>>
    ensures ok { IfOk result (λ p. ReadsLines names.now 0 (lines text.now) (start from_anywhere (length names.now.actors)) (so_far p)) }
    ensures err { IfErr result (IsTextWhy names.now from_anywhere (lines text.now)) }
{
    let mut progress = Progress::start(alloc, from_anywhere, names.actor_count())?;
    for (index, line) in text.lines().enumerate() {
        match read_at(alloc, names, index, line, &mut progress) {
            Ok(()) => {}
            Err(why) => return Err(why),
        }
    }
    Ok(progress)
}

/// How many events are before each place at which some are missing: before the first one too, where the trace may begin anywhere.
fn with_beginning(
    alloc: Global,
    lost: Vec<usize>,
    from_anywhere: bool,
) -> Result<Vec<usize>, AllocError>
    ensures { IfOk result (λ found. found.items ≡ beginning from_anywhere ++ lost.items) }
{
    if !from_anywhere {
        return Ok(lost);
    }
    let mut found = Vec::new(alloc);
    found.push(0)?;
    found.extend_from_slice(&lost)?;
    Ok(found)
}

/// The trace that bytes mean for the application with these names.
///
/// The first line is `fr_trace 1`. After it blank lines, and lines whose first byte other than a space is `#`, say
/// nothing. Each other line is one of
///
/// - `unseen CALL ..`, before the first event: these calls aren't recorded;
/// - `ACTOR enter CALL(ARGUMENTS)`, spelled as in a line of code, with `?` for what isn't recorded. A value, a length, a
///   time and a number of ticks are any numbers of 64 bits with a sign, and in place of the variable of a queue receive
///   any word is allowed;
/// - `ACTOR return`, behind which the result and the value can be, each a number or `?`;
/// - `ACTOR set VARIABLE NUMBER`, `ACTOR begin`, `ACTOR end`;
/// - `lost`: events are missing here.
///
/// Spaces can be between tokens. The format is this project's own. A line of an actor that isn't listed is only counted
/// where it names no listed object and sets no listed variable.
///
/// Where the trace may begin anywhere in a run, it is read as if `lost` came before the first event, after the header.
///
/// # Errors
///
/// `TooLong` where there are more than 67,108,864 bytes, and `NotText` where there aren't and they aren't UTF-8. `Faulty`
/// and `NotListed` have the first line that can't be read: `NotListed` comes where that line has something that the
/// application doesn't list, and `Faulty` where it hasn't. `Memory` comes only where an allocation was refused.
pub fn read_trace<'a>(
    alloc: Global,
    names: &Names,
    bytes: &'a [u8],
    from_anywhere: bool,
) -> Result<Trace, NoTrace<'a>>
    ensures means { IfOk result (λ trace. TraceMeans names.now from_anywhere bytes.now (said_in trace)) }
    ensures fault { IfErr result (IsPresent names.now from_anywhere bytes.now) }
{
    if bytes.len() > MOST_TRACE_BYTES {
        return Err(NoTrace::TooLong);
    }
    let Ok(text) = str::from_utf8(bytes) else {
        return Err(NoTrace::NotText);
    };
    if bytes.is_empty() {
        return Err(NoTrace::Faulty {
            line: 1,
            column: 1,
            fault: TraceFault::Version,
        });
    }
    let progress = match read_lines(alloc, names, text, from_anywhere) {
        Ok(progress) => progress,
        Err(why) => return Err(why),
    };
    let from_anywhere = progress.from_anywhere;
    Ok(Trace {
        events: progress.events,
        unseen: progress.unseen,
        lost: with_beginning(alloc, progress.lost, from_anywhere)?,
        ignored: progress.ignored,
    })
}

/// The bytes of a trace have one meaning at the most.
pub fn one_meaning()
    ensures { (N : NamesOf) (anywhere : Bool) (bytes : List ℕ) (one other : TraceOf) →
        TraceMeans N anywhere bytes one → TraceMeans N anywhere bytes other → one ≡ other }
{}

/// Bytes in which a fault is present mean no trace, but for a refused allocation.
pub fn no_meaning()
    ensures { (N : NamesOf) (anywhere : Bool) (bytes : List ℕ) (why : Refusal) (trace : TraceOf) →
        (why ≡ Memory → ⊥) → IsPresent N anywhere bytes why → TraceMeans N anywhere bytes trace → ⊥ }
{}
