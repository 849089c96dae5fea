// What is found of an application that is searched for a breach, or for a deadlock too.
ghost use Rattle.std.specs.Prelude.{◌≡◌, ◌++◌, All, IfOk, codes, is_some, string_bytes};
ghost use Rattle.fr_wording.specs.Lines.{lines_text};
ghost use Rattle.fr_changes.specs.Explained.{steps_in};
ghost use Rattle.fr_report.specs.Refuted.{breach_text, found_line, shorter_text, AreStepLines, IsBelow, IsRunOf, IsRunText, IsStepTold};
ghost use Rattle.fr_wording.specs.Standings.{standings_text};

use crate::trace::put_entry;
use crate::waits::deadlock_text;
use fr_changes::{ExplainedStep, explain_steps, waiting_actors};
use fr_escape::push_plain;
use fr_found::{Finding, Refutation};
use fr_program::{ActorId, App};
use fr_runner::Entry;
use fr_states::StepTaken;
use fr_wording::{Sources, Standing, actor_name, add_text, rule_text};
use std::alloc::{AllocError, Global};

/// The text as a line below a step.
fn line_below(alloc: Global, text: &str) -> Result<String, AllocError>
    ensures { IfOk result (λ line. IsBelow (string_bytes line)) }
{
    let mut line = String::from_str(alloc, "  ")?;
    push_plain(&mut line, text)?;
    Ok(line)
}

/// These texts as lines below a step, the second one only where it says something.
fn lines_below(alloc: Global, at: &str, change: &str) -> Result<Vec<String>, AllocError>
    ensures { IfOk result (λ lines. All (λ line. IsBelow (string_bytes line)) lines.items) }
{
    let mut lines = Vec::new(alloc);
    lines.push(line_below(alloc, at)?)?;
    if change.is_empty() {
        return Ok(lines);
    }
    lines.push(line_below(alloc, change)?)?;
    Ok(lines)
}

/// The lines that explain a step: where its actor was before it, with the line of code, and what it changed;
/// where it changed nothing but the actor's place, how the call went, if it is a step of one.
fn explaining_lines(
    alloc: Global,
    app: &App,
    step: &ExplainedStep,
) -> Result<Vec<String>, AllocError>
    ensures { IfOk result (λ lines. All (λ line. IsBelow (string_bytes line)) lines.items) }
{
    let (at, change) = (step.before.text(alloc, app, true)?, step.change(alloc)?);
    lines_below(alloc, &at, &change)
}

/// The line of a step, as one of a run, with lines that explain it where that is asked for.
fn step_lines(
    alloc: Global,
    app: &App,
    step: &ExplainedStep,
    explains: bool,
) -> Result<Vec<String>, AllocError>
    ensures { IfOk result
        (λ lines. IsStepTold explains app.now step.now.taken (lines_text lines.items)) }
{
    let (mut lines, mut line) = (Vec::new(alloc), String::new(alloc));
    let StepTaken { actor, choice } = step.taken;
    put_entry(&mut line, app, Entry::Stepped(actor, choice))?;
    add_text(&mut lines, line)?;
    if !explains {
        return Ok(lines);
    }
    let mut below = explaining_lines(alloc, app, step)?;
    lines.append(&mut below)?;
    Ok(lines)
}

/// Where actors are, a line each.
fn standing_lines(
    alloc: Global,
    app: &App,
    standings: &[Standing],
    explains: bool,
) -> Result<Vec<String>, AllocError>
    ensures { IfOk result (λ lines. lines_text lines.items ≡ standings_text explains app.now standings.now) }
{
    let mut lines = Vec::new(alloc);
    for standing in standings {
        add_text(&mut lines, standing.text(alloc, app, explains)?)?;
    }
    Ok(lines)
}

/// The lines of steps.
fn steps_lines(
    alloc: Global,
    app: &App,
    steps: &[ExplainedStep],
    explains: bool,
) -> Result<Vec<String>, AllocError>
    ensures { IfOk result (λ lines. AreStepLines explains app.now (steps_in steps.now) (lines_text lines.items)) }
{
    let mut lines = Vec::new(alloc);
    for step in steps {
        let mut more = step_lines(alloc, app, step, explains)?;
        lines.append(&mut more)?;
    }
    Ok(lines)
}

/// The lines that follow those of the steps.
fn end_lines(
    alloc: Global,
    app: &App,
    lasts: &[Standing],
    is_shortest: bool,
    explains: bool,
) -> Result<Vec<String>, AllocError>
    ensures { IfOk result
        (λ lines. lines_text lines.items ≡ standings_text explains app.now lasts.now ++ shorter_text explains is_shortest) }
{
    let mut lines = standing_lines(alloc, app, lasts, explains)?;
    if explains && !is_shortest {
        add_text(
            &mut lines,
            String::from_str(alloc, "a shorter run may exist")?,
        )?;
    }
    Ok(lines)
}

/// The lines of the run of these steps, after which these actors stand somewhere.
fn lines_to(
    alloc: Global,
    app: &App,
    sources: &Sources,
    taken: &[StepTaken],
    actors: &[ActorId],
    is_shortest: bool,
    explains: bool,
) -> Result<Vec<String>, AllocError>
    ensures { IfOk result (λ lines. IsRunOf explains app.now taken.now actors.now is_shortest (lines_text lines.items)) }
{
    let run = explain_steps(alloc, app, sources, taken, actors)?;
    let mut lines = steps_lines(alloc, app, &run.steps, explains)?;
    let mut ends = end_lines(alloc, app, &run.lasts, is_shortest, explains)?;
    lines.append(&mut ends)?;
    Ok(lines)
}

/// The lines of the run that was found, explained or not.
fn lines_of(
    alloc: Global,
    app: &App,
    found: &Finding,
    sources: &Sources,
    explains: bool,
) -> Result<Vec<String>, AllocError>
    ensures { IfOk result (λ lines. IsRunText explains app.now found.now (lines_text lines.items)) }
{
    match found {
        Finding::Breach(run) => {
            let actors = &[run.actor];
            lines_to(
                alloc,
                app,
                sources,
                &run.steps,
                actors,
                run.is_shortest,
                explains,
            )
        }
        Finding::Deadlock(run) => {
            let actors = waiting_actors(alloc, &run.cycle)?;
            lines_to(
                alloc,
                app,
                sources,
                &run.steps,
                &actors,
                run.is_shortest,
                explains,
            )
        }
        Finding::Safe { .. } | Finding::Free { .. } | Finding::Unknown { .. } => {
            Ok(Vec::new(alloc))
        }
    }
}

/// The lines of a run into a breach or a deadlock: those of its steps, and where the actor is that then breaches the rule, or where those
/// are that wait for one another, with their lines of code; none where no run was found. With the places of the application's lines in
/// its source, lines below each step explain it, the places are there, and the last line says that a shorter run may exist, where it may. Its
/// error is that an allocation was refused. The lines' form is this project's own.
pub fn run_lines(
    alloc: Global,
    app: &App,
    found: &Finding,
    explains: &Option<Sources>,
) -> Result<Vec<String>, AllocError>
    ensures { IfOk result (λ lines. IsRunText (is_some explains.now) app.now found.now (lines_text lines.items)) }
{
    match explains {
        Some(sources) => lines_of(alloc, app, found, sources, true),
        None => lines_of(alloc, app, found, &Sources::none(alloc), false),
    }
}

/// What describes a breach: its rule, its actor, and after how many steps it is. An error says that an allocation was
/// refused.
pub fn breach_text(alloc: Global, app: &App, found: &Refutation) -> Result<String, AllocError>
    ensures { IfOk result (λ text. string_bytes text ≡ breach_text app.now found.now) }
{
    let (number, rule) = (found.rule.number(), rule_text(found.rule));
    let (actor, steps) = (actor_name(app, found.actor), found.steps.len());
    format!(in alloc; "rule {number}: {rule}: {actor}, after {steps} steps")
}

/// The first line that reports what was found, without its newline. An error says that an allocation was refused.
pub fn finding_line(alloc: Global, app: &App, found: &Finding) -> Result<String, AllocError>
    ensures { IfOk result (λ line. string_bytes line ≡ found_line app.now found.now) }
{
    match found {
        Finding::Breach(refutation) => {
            let told = breach_text(alloc, app, refutation)?;
            format!(in alloc; "breach: {told}")
        }
        Finding::Deadlock(deadlocked) => {
            let told = deadlock_text(alloc, app, deadlocked)?;
            format!(in alloc; "deadlock: {told}")
        }
        Finding::Safe { states } => format!(in alloc; "no breach in {states} states"),
        Finding::Free { states } => {
            format!(in alloc; "no breach and no deadlock in {states} states")
        }
        Finding::Unknown { states, .. } => {
            format!(in alloc; "no breach in {states} states, more are left")
        }
    }
}
