// The steps of a run into a breach or a deadlock, and what that is.
ghost use Rattle.std.specs.Prelude.{◌≡◌, ◌∷◌, [], IfOk, IsSomeAnd, codes, map, string_bytes};
ghost use Rattle.fr_formats.specs.Names.{rule_name as name_of_rule};
ghost use Rattle.fr_outcome.specs.Each.{Each};
ghost use Rattle.fr_report.specs.Refuted.{breach_text as text_of_breach};
ghost use Rattle.fr_report.specs.Waits.{deadlock_text as text_of_deadlock};
ghost use Rattle.fr_shown.specs.Shows.{IsEndOfRun, IsPlaceIf, IsRunShown, IsStepShown, first_point};

use super::places::Places;
use fr_changes::{ExplainedRun, ExplainedStep, explain_steps, waiting_actors};
use fr_formats::{Failure, PlaceShown, StepShown, rule_name};
use fr_found::{Deadlocked, Refutation};
use fr_report::{breach_text, deadlock_text};
use fr_wording::Standing;
use std::alloc::{AllocError, Global};

/// A step of a run.
fn step_shown(alloc: Global, places: &Places, step: &ExplainedStep) -> Result<StepShown, AllocError>
    ensures { IfOk result (IsStepShown places.now.app.now step.now) }
{
    let place = places.shown_if(alloc, step.before.point)?;
    Ok(StepShown {
        place,
        choice: step.taken.choice,
        change: step.change(alloc)?,
    })
}

/// The steps of a run.
fn steps_shown(
    alloc: Global,
    places: &Places,
    steps: &[ExplainedStep],
) -> Result<Vec<StepShown>, AllocError>
    ensures { IfOk result (λ shown. Each (IsStepShown places.now.app.now) steps.now shown.items) }
{
    let mut shown = Vec::new(alloc);
    for step in steps {
        shown.push(step_shown(alloc, places, step)?)?;
    }
    Ok(shown)
}

/// Where the first of those is that stand in the last state, and what is said of it; nothing where nobody does.
fn last_shown(
    alloc: Global,
    places: &Places,
    run: &ExplainedRun,
) -> Result<(Option<PlaceShown>, String), AllocError>
    ensures { IfOk result (λ r. IsPlaceIf places.now.app.now (first_point run.now.lasts.items) r.0) }
{
    match run.lasts.first() {
        Some(last) => {
            let line = last.line(alloc, places.app(), "")?;
            let state = line.text(alloc)?;
            Ok((places.shown_if(alloc, last.point)?, state))
        }
        None => Ok((None, String::new(alloc))),
    }
}

/// What is so after a run, which has this name and is described so.
fn ended(
    alloc: Global,
    places: &Places,
    run: &ExplainedRun,
    rule: &'static str,
    text: String,
) -> Result<Failure, AllocError>
    ensures { IfOk result (IsEndOfRun places.now.app.now rule.now (string_bytes text) run.now.lasts.items) }
{
    let (place, state) = last_shown(alloc, places, run)?;
    Ok(Failure {
        rule,
        text,
        place,
        other: None,
        state,
        step: String::new(alloc),
    })
}

/// The deadlock, and the steps of the run into it.
pub(super) fn deadlock_shown(
    alloc: Global,
    places: &Places,
    found: &Deadlocked,
) -> Result<(Option<Failure>, Vec<StepShown>), AllocError>
    ensures { IfOk result
        (λ r. IsRunShown places.now.app.now found.now.steps.items (map (λ w. w.actor) found.now.cycle.items) (codes "deadlock")
        (text_of_deadlock places.now.app.now found.now) r.0 r.1.items) }
{
    let text = deadlock_text(alloc, places.app(), found)?;
    let (sources, actors) = (places.sources(alloc)?, waiting_actors(alloc, &found.cycle)?);
    let run = explain_steps(alloc, places.app(), &sources, &found.steps, &actors)?;
    let failure = ended(alloc, places, &run, "deadlock", text)?;
    Ok((Some(failure), steps_shown(alloc, places, &run.steps)?))
}

/// The breach, and the steps of the run into it.
pub(super) fn run_shown(
    alloc: Global,
    places: &Places,
    found: &Refutation,
) -> Result<(Option<Failure>, Vec<StepShown>), AllocError>
    ensures { IfOk result
        (λ r. IsRunShown places.now.app.now found.now.steps.items (found.now.actor ∷ []) (name_of_rule found.now.rule)
        (text_of_breach places.now.app.now found.now) r.0 r.1.items) }
{
    let text = breach_text(alloc, places.app(), found)?;
    let sources = places.sources(alloc)?;
    let actors = &[found.actor];
    let run = explain_steps(alloc, places.app(), &sources, &found.steps, actors)?;
    let failure = ended(alloc, places, &run, rule_name(found.rule), text)?;
    Ok((Some(failure), steps_shown(alloc, places, &run.steps)?))
}
