// The text of a certificate that is worked out for an application.
ghost use Rattle.std.specs.Prelude.{◌≡◌};
ghost use Rattle.fr_ends.specs.Fits.{CertificateFits};

use crate::layout::laid_out;
use fr_cert::{MOST_CERTIFICATE_BYTES, write_cert};
use fr_ends::Certificate;
use fr_judge::{Judging, Lists};
use fr_notes::{Alternative, Note};
use fr_program::{App, VarId};
use fr_progress::Meter;
use fr_prover::{best_certificate, thinned};
use std::alloc::{AllocError, Global};

/// How many bytes a range has at the least in a certificate's text besides the variable's name: `"":[0,0]`.
const LEAST_BESIDE_NAME: usize = 8;

/// The text of a certificate, a note on each line.
fn text_of(alloc: Global, app: &App, certificate: &Certificate) -> Result<String, AllocError>
    requires { CertificateFits app.now certificate.now }
{
    let compact = write_cert(alloc, app, certificate)?;
    laid_out(alloc, compact.as_str())
}

/// Whether every part is kept at every point of the application.
fn all_pass(app: &App, judging: &Judging) -> bool
    requires { judging.now.app ≡ app.now }
{
    for number in 0..app.points() {
        if judging.part_at(number).is_some() {
            return false;
        }
    }
    true
}

/// Whether the certificate keeps every part at every point.
fn passes(alloc: Global, app: &App, certificate: &Certificate) -> Result<bool, AllocError>
    requires { CertificateFits app.now certificate.now }
{
    let lists = Lists::build(alloc, app, certificate)?;
    Ok(all_pass(app, &Judging::with(app, certificate, &lists)))
}

/// The fewest bytes that the ranges of an alternative have in a certificate's text.
fn least_bytes(app: &App, facts: &Alternative) -> usize {
    let mut least = 0usize;
    for number in 0..app.variables().len() {
        let variable = VarId(number);
        if facts.range(variable) != app.range(variable) {
            let name = app.variable(variable).name.len();
            least = least.saturating_add(name).saturating_add(LEAST_BESIDE_NAME);
        }
    }
    least
}

/// The fewest bytes that the ranges of a note have in a certificate's text.
fn least_bytes_of_note(app: &App, note: &Note) -> usize {
    let mut least = 0usize;
    for facts in note.alternatives() {
        least = least.saturating_add(least_bytes(app, facts));
    }
    least
}

/// Whether the certificate's text is longer than one may be by its ranges alone, which is known before it is written.
fn is_too_long(app: &App, certificate: &Certificate) -> bool {
    let mut least = 0usize;
    for number in 0..app.points() {
        if let Some(note) = certificate.notes.get(number) {
            least = least.saturating_add(least_bytes_of_note(app, note));
        }
    }
    least > MOST_CERTIFICATE_BYTES
}

/// The text of the thin certificate where that passes, and else of the whole one, unless that is longer than a certificate may be.
fn shorter_text(
    alloc: Global,
    app: &App,
    whole: &Certificate,
    thin: &Certificate,
) -> Result<String, AllocError>
    requires whole { CertificateFits app.now whole.now }
    requires thin { CertificateFits app.now thin.now }
{
    if !passes(alloc, app, thin)? && !is_too_long(app, whole) {
        let text = text_of(alloc, app, whole)?;
        if text.len() <= MOST_CERTIFICATE_BYTES {
            return Ok(text);
        }
    }
    text_of(alloc, app, thin)
}

/// The text of this certificate, or of the one without what isn't needed.
fn text_of_best(alloc: Global, app: &App, whole: &Certificate) -> Result<String, AllocError>
    requires { CertificateFits app.now whole.now }
{
    let thin = thinned(alloc, app, whole)?;
    shorter_text(alloc, app, whole, &thin)
}

/// The text of the best certificate that is found for the application: without what isn't needed where that passes, so that a change of the
/// application changes few of its lines; and else with all that is known, unless that is longer than a certificate may be.
pub(crate) fn certificate_text(
    alloc: Global,
    app: &App,
    meter: Option<&Meter>,
) -> Result<String, AllocError> {
    let whole = best_certificate(alloc, app, meter)?;
    text_of_best(alloc, app, &whole)
}
