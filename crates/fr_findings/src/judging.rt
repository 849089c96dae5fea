// The verdict on two texts, and why it is no.
ghost use Rattle.std.specs.Prelude.{◌≡◌, ◌↔◌, IfOk, IfErr, IfSome, None};
ghost use Rattle.fr_ends.specs.Fits.{CertificateFits};
ghost use Rattle.fr_judge.specs.declared.part.Verdict.TheVariants.{Yes};
ghost use Rattle.fr_order.specs.Order.{IsOrderOf};
ghost use Rattle.fr_outcome.specs.Answers.{IsAnsweredFor, IsVerdictOn};
ghost use Rattle.fr_outcome.specs.Checked.{CanRefuse};

use fr_code::places_in_source;
use fr_ends::Certificate;
use fr_judge::{Judging, Lists, Verdict};
use fr_order::{Order, order_of};
use fr_outcome::{Boxed, CheckFault, Judged, What};
use fr_parallel::{Gate, judge_reading};
use fr_program::App;
use fr_reasons::explain;
use fr_report::verdict_line;
use fr_request::Detail;
use fr_wording::{Explained, Explanation, Sources};
use std::alloc::{AllocError, Global};
use std::sync::Wait;
use std::thread::Threads;

/// The most failing points that are listed.
const MOST_LISTED: u64 = 1000;

/// Adds the points that fail, after the first of them; of more than 1,000 the number of the others.
fn add_failing(
    alloc: Global,
    items: &mut Vec<Explained>,
    app: &App,
    judging: &Judging,
    first: usize,
) -> Result<(), AllocError>
    requires { judging.now.app ≡ app.now }
{
    let mut listed = 1u64;
    for number in 0..app.points() {
        if let Some(part) = judging.part_at(number)
            && number > first
        {
            listed = listed.saturating_add(1);
            if listed <= MOST_LISTED {
                let point = app.point(number);
                let report = verdict_line(alloc, app, Verdict::No { point, part })?;
                items.push(Explained::Other { point, report })?;
            }
        }
    }
    if listed > MOST_LISTED {
        items.push(Explained::More(listed - MOST_LISTED))?;
    }
    Ok(())
}

/// The same by the certificate.
fn add_others(
    alloc: Global,
    items: &mut Vec<Explained>,
    app: &App,
    certificate: &Certificate,
    first: usize,
) -> Result<(), AllocError>
    requires { CertificateFits app.now certificate.now }
{
    let lists = Lists::build(alloc, app, certificate)?;
    let judging = Judging::with(app, certificate, &lists);
    add_failing(alloc, items, app, &judging, first)
}

/// Why the verdict on the application with this text is no, as it is asked for: None where nobody asks, or where it is yes. With all
/// details the other points that fail follow, a line each, 1,000 at the most. Where `blames` asks for it, lines are named that a person would change.
pub fn why(
    alloc: Global,
    text: &[u8],
    app: &App,
    certificate: &Certificate,
    verdict: Verdict,
    detail: Option<Detail>,
    blames: bool,
) -> Result<Option<Explanation>, AllocError>
    requires { CertificateFits app.now certificate.now }
    ensures yes { IfOk result (λ found. verdict ≡ Yes → found ≡ None) }
    ensures unasked { IfOk result (λ found. detail ≡ None → found ≡ None) }
{
    let (Some(detail), Verdict::No { point, .. }) = (detail, verdict) else {
        return Ok(None);
    };
    let places = places_in_source(alloc, text)?;
    let sources = Sources { places };
    let found = explain(alloc, app, certificate, &sources, verdict, detail, blames)?;
    let Some(mut found) = found else {
        return Ok(None);
    };
    if detail == Detail::Whole {
        let first = app.number(point).unwrap_or(0);
        add_others(alloc, &mut found.items, app, certificate, first)?;
    }
    Ok(Some(found))
}

/// Where the lines of the application with this text are in the source that it was translated from, where something is to be explained.
pub fn sources_for(
    alloc: Global,
    text: &[u8],
    detail: Option<Detail>,
) -> Result<Option<Sources>, AllocError>
    ensures { IfOk result (λ found. detail ≡ None ↔ found ≡ None) }
{
    match detail {
        Some(_) => Ok(Some(Sources {
            places: places_in_source(alloc, text)?,
        })),
        None => Ok(None),
    }
}

/// Whether actors can deadlock over mutexes, by a certificate that passes, where that is asked; None elsewhere.
pub fn waits(
    alloc: Global,
    app: &App,
    certificate: &Certificate,
    verdict: Verdict,
    asks: bool,
) -> Result<Option<Order>, AllocError>
    requires { CertificateFits app.now certificate.now }
    ensures order { IfOk result (λ found. IfSome found (IsOrderOf app.now certificate.now)) }
    ensures answered { IfOk result (IsAnsweredFor asks verdict) }
{
    if !asks {
        return Ok(None);
    }
    match verdict {
        Verdict::Yes => Ok(Some(order_of(alloc, app, certificate)?)),
        Verdict::No { .. } => Ok(None),
    }
}

/// Judges the certificate for the application by this many workers. Ok is the verdict, where `detail` asks for it why it is no, and where
/// `asks` is true and the verdict is yes whether actors can deadlock over mutexes.
///
/// # Errors
///
/// `Workers` exactly where their number is not 1 to 64, before anything is read; `App` and `Cert` name a fault that is present in
/// the bytes; `Memory` and `Thread` say that the machine refused an allocation or a thread.
pub fn judged_texts<R: Threads + Wait + Sync, G: Gate>(
    rt: &R,
    alloc: Global,
    app: &[u8],
    certificate: &[u8],
    workers: usize,
    gate: &G,
    detail: Option<Detail>,
    asks: bool,
) -> Result<What, CheckFault>
    ensures judged { IfOk result (IsVerdictOn asks app.now certificate.now) }
    ensures refused { IfErr result (CanRefuse app.now certificate.now workers) }
{
    let text = app;
    let reading = judge_reading(rt, alloc, text, certificate, workers, gate)?;
    let (app, certificate) = (&reading.app, &reading.certificate);
    let why = why(
        alloc,
        text,
        app,
        certificate,
        reading.verdict,
        detail,
        false,
    )?;
    let waits = waits(alloc, app, certificate, reading.verdict, asks)?;
    let judged = Judged::new(
        reading.app,
        reading.certificate,
        reading.verdict,
        why,
        waits,
    );
    Ok(What::Judged(Boxed::new(alloc, judged)?))
}
