// The answer to the text of a trace: it is read, followed by runs of the application, and answered.
ghost use Rattle.std.specs.Prelude.{◌≡◌, ◌≤◌, ◌++◌, ℕ, List, IfErr, IfOk, option_map, string_bytes};
ghost use Rattle.fr_formats.specs.Answers.{status_of};
ghost use Rattle.fr_instr.specs.AppNames.{names_in};
ghost use Rattle.fr_trace.specs.Means.{IsPresent, TraceMeans, said_in};
ghost use Rattle.fr_events.specs.declared.trace.Trace.{Trace as TraceOf};
ghost use Rattle.fr_explained.specs.Follows.{IsFollowed};
ghost use Rattle.fr_explained.specs.declared.followed.Followed.{Followed as FollowedOf};
ghost use Rattle.fr_trail.specs.Answered.{IsAsked, followed_end, followed_event, followed_head, followed_kind};
ghost use Rattle.fr_trail.specs.Runs.{IsRunFor};
ghost use Rattle.fr_traces.specs.Traces.{IsTraceAnswer};

use fr_events::Trace;
use fr_follower::follow;
use fr_instr::names_of;
use fr_program::App;
use fr_trace::{NoTrace, read_trace};
use fr_trail::{Asked, NoAnswer, TraceAnswer, answer_of, as_asked, no_answer, unlisted_answer};
use fr_wording::Sources;
use std::alloc::{AllocError, Global};

/// The trace in these bytes, which may begin anywhere in a run or doesn't.
fn trace_in<'a>(
    alloc: Global,
    app: &App,
    bytes: &'a [u8],
    from_anywhere: bool,
) -> Result<Trace, NoTrace<'a>>
    ensures means { IfOk result (λ trace. TraceMeans (names_in app.now) from_anywhere bytes.now (said_in trace)) }
    ensures fault { IfErr result (IsPresent (names_in app.now) from_anywhere bytes.now) }
{
    let names = names_of(alloc, app)?;
    read_trace(alloc, &names, bytes, from_anywhere)
}

/// What is answered of a trace, with any block times where those will do.
fn answer_as_asked(
    alloc: Global,
    app: &App,
    sources: &Sources,
    bytes: &[u8],
    trace: Trace,
    asked: Asked,
) -> Result<TraceAnswer, AllocError>
    ensures answer { IfOk result (λ answer. (u : TraceOf) × IsAsked asked.any_times trace u
        × (f : FollowedOf) × IsFollowed app.now u f × (answer.kind ≡ followed_kind f)
        × (rest : List ℕ) × (string_bytes answer.line ≡ followed_head app.now u f ++ (followed_event u f ++ (rest ++ followed_end f)))
        × IsRunFor asked.writes app.now f (option_map string_bytes answer.run)) }
    ensures most { IfOk result (λ answer. status_of answer.kind ≤ 1) }
{
    let timed = as_asked(alloc, trace, asked.any_times)?;
    let followed = follow(alloc, app, &timed, asked.states as usize)?;
    Ok(answer_of(alloc, app, sources, bytes, &timed, followed, asked)?)
}

/// What is answered of the text of a trace, which is followed by runs of the application: its kind, a line, and where that is asked for the
/// lines that explain it, and those of the run that was found.
///
/// # Errors
///
/// `Refused` where the bytes are no trace; `Memory` where memory is refused.
pub(crate) fn answered(
    alloc: Global,
    app: &App,
    sources: &Sources,
    bytes: &[u8],
    asked: Asked,
) -> Result<TraceAnswer, NoAnswer>
    ensures answer { IfOk result (λ answer.
        IsTraceAnswer asked.any_times asked.from_anywhere asked.writes app.now bytes.now answer.kind (string_bytes answer.line)
        (option_map string_bytes answer.run)) }
    ensures most { IfOk result (λ answer. status_of answer.kind ≤ 1) }
{
    match trace_in(alloc, app, bytes, asked.from_anywhere) {
        Ok(trace) => Ok(answer_as_asked(alloc, app, sources, bytes, trace, asked)?),
        Err(NoTrace::NotListed(unlisted)) => {
            Ok(unlisted_answer(alloc, app, unlisted, asked.explains)?)
        }
        Err(why) => Err(no_answer(alloc, bytes, why)?),
    }
}
