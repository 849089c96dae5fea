// An answer as reports for machines show it.
ghost use Rattle.std.specs.Prelude.{◌≡◌, [], IfOk, OnOk, option_map, string_bytes};
ghost use Rattle.fr_outcome.specs.Answers.{AreShownLinesOf, refused_line};
ghost use Rattle.fr_outcome.specs.Each.{Each};
ghost use Rattle.fr_shown.specs.Shows.{AreDetailsIn, AreDetailsOf, IsFailureBy, IsSameWarning, Shows};
ghost use Rattle.fr_wording.specs.Lines.{lines_text};

mod failure;
mod places;
mod steps;

use failure::failure_of;
use fr_formats::{AnswerShown, Failure, Source, StepShown, WarningShown};
use fr_found::Finding;
use fr_outcome::{Answer, Judged, What};
pub(crate) use places::Places;
use std::alloc::{AllocError, Global};
use steps::{deadlock_shown, run_shown};

/// What fails by a verdict.
fn verdict_shown(
    alloc: Global,
    places: &Places,
    judged: &Judged,
) -> Result<(Option<Failure>, Vec<StepShown>), AllocError>
    requires { places.now.app.now ≡ judged.now.app }
    ensures { IfOk result (λ r. IsFailureBy judged.now.app judged.now.verdict judged.now.waits r.0 × (r.1.items ≡ [])) }
{
    Ok((failure_of(alloc, places, judged)?, Vec::new(alloc)))
}

/// What fails by a run that was found, and its steps; nothing where none was found.
fn found_shown(
    alloc: Global,
    places: &Places,
    found: &Finding,
) -> Result<(Option<Failure>, Vec<StepShown>), AllocError>
    ensures { IfOk result (λ r. AreDetailsIn places.now.app.now found.now r.0 r.1.items) }
{
    match found {
        Finding::Breach(run) => run_shown(alloc, places, run),
        Finding::Deadlock(run) => deadlock_shown(alloc, places, run),
        _ => Ok((None, Vec::new(alloc))),
    }
}

/// What fails, and the steps of a run, each with its place in the application's text.
fn details_of(
    alloc: Global,
    answer: &Answer,
) -> Result<(Option<Failure>, Vec<StepShown>), AllocError>
    ensures { IfOk result (λ r. AreDetailsOf answer.now.what r.0 r.1.items) }
{
    match &answer.what {
        What::Judged(judged) => {
            let judged = judged.get();
            let places = Places::build(alloc, judged.app(), &answer.text)?;
            verdict_shown(alloc, &places, judged)
        }
        What::Searched(searched) => {
            let searched = searched.get();
            let places = Places::build(alloc, &searched.app, &answer.text)?;
            found_shown(alloc, &places, &searched.found)
        }
        What::Refused(_) => Ok((None, Vec::new(alloc))),
    }
}

/// A copy of the text, if there is one.
fn copied(text: &Option<String>) -> Result<Option<String>, AllocError>
    ensures { IfOk result (λ copied. option_map string_bytes copied ≡ option_map string_bytes text.now) }
{
    match text {
        Some(text) => Ok(Some(text.clone()?)),
        None => Ok(None),
    }
}

/// The same warning.
fn warning_shown(warning: &WarningShown) -> Result<WarningShown, AllocError>
    ensures { IfOk result (IsSameWarning warning.now) }
{
    let file = copied(&warning.file)?;
    Ok(WarningShown {
        kind: warning.kind,
        text: warning.text.clone()?,
        file,
        line: warning.line,
    })
}

/// The warnings.
fn warnings_shown(alloc: Global, warnings: &[WarningShown]) -> Result<Vec<WarningShown>, AllocError>
    ensures { IfOk result (λ shown. Each IsSameWarning warnings.now shown.items) }
{
    let mut shown = Vec::new(alloc);
    for warning in warnings {
        shown.push(warning_shown(warning)?)?;
    }
    Ok(shown)
}

/// Adds what reports show besides the answer itself: its other lines, its warnings, what fails and the steps of a run.
fn add_details(alloc: Global, answer: &Answer, shown: &mut AnswerShown) -> Result<(), AllocError>
    ensures application { OnOk result (shown.new.application ≡ shown.old.application) }
    ensures trace { OnOk result (shown.new.trace ≡ shown.old.trace) }
    ensures kind { OnOk result (shown.new.answer ≡ shown.old.answer) }
    ensures report { OnOk result (shown.new.report ≡ shown.old.report) }
    ensures line { OnOk result (shown.new.line ≡ refused_line answer.now.what) }
    ensures lines { OnOk result (AreShownLinesOf answer.now.what (lines_text shown.new.lines.items)) }
    ensures warnings { OnOk result (Each IsSameWarning answer.now.warnings.items shown.new.warnings.items) }
    ensures details { OnOk result (AreDetailsOf answer.now.what shown.new.failure shown.new.steps.items) }
{
    shown.line = answer.what.refused_line();
    shown.lines = answer.what.shown_lines(alloc)?;
    shown.warnings = warnings_shown(alloc, &answer.warnings)?;
    let (failure, steps) = details_of(alloc, answer)?;
    shown.failure = failure;
    shown.steps = steps;
    Ok(())
}

/// The answer as JSON, SARIF and JUnit show it. Its error is that an allocation was refused.
pub fn shown_of(alloc: Global, answer: &Answer) -> Result<AnswerShown, AllocError>
    ensures shows { IfOk result (Shows (string_bytes answer.now.application) answer.now.what) }
    ensures warnings { IfOk result (λ shown. Each IsSameWarning answer.now.warnings.items shown.warnings.items) }
{
    let source = Source {
        command: answer.command,
        application: &answer.application,
        certificate: answer.certificate.as_deref(),
    };
    let report = answer.what.shown_line(alloc)?;
    let mut shown = AnswerShown::new(alloc, source, answer.what.kind(), report)?;
    add_details(alloc, answer, &mut shown)?;
    Ok(shown)
}
