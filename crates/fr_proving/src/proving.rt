// Working out a certificate for the application that bytes mean, and judging it.
ghost use Rattle.std.specs.Prelude.{◌≡◌, ◌⊎◌, ◌↔◌, IsTrue, IfOk, IfErr, IsErrOf, string_bytes};
ghost use Rattle.fr_ends.specs.Fits.{CertificateFits};
ghost use Rattle.fr_parallel.specs.Crew.{IsNoCrew};
ghost use Rattle.fr_found.specs.Refutes.{IsFound, Suits};
ghost use Rattle.fr_cert.specs.Meaning.{Means as CertMeans};
ghost use Rattle.fr_judge.specs.Told.{Speaks};
ghost use Rattle.fr_reader.specs.Meaning.{Means as AppMeans};
ghost use Rattle.fr_outcome.specs.Answers.{CanRefuseProof, IsProofOf, Settles, kind_of_judged};
ghost use Rattle.fr_proving.specs.Proved.{IsKnown, IsTold, IsVerdictFor, IsWhatOf};

use crate::certificate::certificate_text;
use fr_cert::read_cert;
use fr_ends::Certificate;
use fr_findings::{Ways, sources_for, waits, why};
use fr_formats::AnswerKind;
use fr_found::Finding;
use fr_judge::{Part, Verdict};
use fr_order::{Edge, Order};
use fr_outcome::{Boxed, CheckFault, Judged, Searched, Tried, What, kind_of_judged};
use fr_parallel::{Gate, is_crew, judge_with};
use fr_program::{App, Point};
use fr_progress::Meter;
use fr_reader::read_app;
use fr_refuter::{Search, refute};
use fr_states::ActorSet;
use fr_wording::{Explanation, Sources};
use std::alloc::{AllocError, Global};
use std::sync::Wait;
use std::thread::Threads;

/// The actors that the verdict names: the one whose point fails, and the one whose step spoils its note.
fn suspects_of(verdict: Verdict) -> ActorSet {
    match verdict {
        Verdict::Yes => ActorSet::NONE,
        Verdict::No {
            point,
            part: Part::Spoiled(by),
        } => ActorSet::NONE.with(point.actor).with(by.actor),
        Verdict::No { point, .. } => ActorSet::NONE.with(point.actor),
    }
}

/// The actors that are the first to be asked about: those that the verdict names, or those whose takes make a cycle.
fn suspects_among(verdict: Verdict, waits: &Option<Order>) -> ActorSet {
    let mut suspects = suspects_of(verdict);
    if let Some(Order::Cycle(edges)) = waits {
        for edge in edges {
            suspects = suspects.with(edge.point.actor);
        }
    }
    suspects
}

/// The point of the edge with this number, if there is one.
fn point_of(edges: &[Edge], number: usize) -> Option<Point> {
    Some(edges.get(number)?.point)
}

/// The points to which runs are followed first: the one that fails and the one whose step spoils its note, or the first two takes of a cycle.
fn aims_of(verdict: Verdict, waits: &Option<Order>) -> [Option<Point>; 2] {
    match (verdict, waits) {
        (Verdict::Yes, Some(Order::Cycle(edges))) => { [point_of(edges, 0), point_of(edges, 1)] }
        (Verdict::Yes, _) => [None, None],
        (
            Verdict::No {
                point,
                part: Part::Spoiled(by),
            },
            _,
        ) => [Some(point), Some(by)],
        (Verdict::No { point, .. }, _) => [Some(point), None],
    }
}

/// Whether the verdict is no, or a deadlock isn't excluded.
fn is_unsettled(verdict: Verdict, waits: &Option<Order>) -> bool
    ensures { IsTrue result → (kind_of_judged verdict waits.now ≡ AnswerKind.No) ⊎ (kind_of_judged verdict waits.now ≡ AnswerKind.MayDeadlock) }
{
    match kind_of_judged(verdict, waits) {
        AnswerKind::No | AnswerKind::MayDeadlock => true,
        _ => false,
    }
}

/// What a search finds in place of this verdict and of what is known of waits: a run into a breach, or that no state of any run breaches a
/// rule, and where that is asked the same of deadlocks; else how far it went. Its error is that an allocation was refused.
fn settled<R: Threads + Sync>(
    rt: &R,
    alloc: Global,
    app: &App,
    verdict: Verdict,
    waits: &Option<Order>,
    ways: Ways,
    meter: Option<&Meter>,
) -> Result<Result<Finding, Tried>, AllocError>
    ensures found { IfOk result (λ r. IfOk r (λ found. IsFound app.now found)) }
    ensures suits { IfOk result (λ r. IfOk r (Suits ways.deadlock)) }
    ensures settles { IfOk result (λ r. IfOk r Settles) }
{
    let search = Search {
        most_states: ways.states,
        most_bytes: ways.state_bytes,
        workers: ways.workers,
        suspects: suspects_among(verdict, waits),
        aims: aims_of(verdict, waits),
        seeks_deadlocks: ways.deadlock,
        wants_shortest: false,
        meter,
    };
    Ok(match refute(rt, alloc, app, search)? {
        Finding::Breach(run) => Ok(Finding::Breach(run)),
        Finding::Deadlock(run) => Ok(Finding::Deadlock(run)),
        Finding::Safe { states } => Ok(Finding::Safe { states }),
        Finding::Free { states } => Ok(Finding::Free { states }),
        Finding::Unknown { states, left } => Err(Tried { states, left }),
    })
}

/// What is known of an application by a certificate.
#[derive(Drop)]
pub(crate) enum Known {
    /// What a search found, where the verdict doesn't settle the matter, and the places of the lines in a source.
    Settled(Finding, Option<Sources>),
    /// The verdict, why it is no, whether actors can deadlock, and the search that found nothing.
    Reached(Verdict, Option<Explanation>, Option<Order>, Option<Tried>),
}

/// What is known by the certificate, of which this is the verdict, with what is known of waits.
fn known_by<R: Threads + Wait + Sync>(
    rt: &R,
    alloc: Global,
    text: &[u8],
    app: &App,
    certificate: &Certificate,
    verdict: Verdict,
    waits: Option<Order>,
    ways: Ways,
    searches: bool,
    meter: Option<&Meter>,
) -> Result<Known, AllocError>
    requires fits { CertificateFits app.now certificate.now }
    requires verdict { IsVerdictFor ways.deadlock app.now certificate.now verdict waits }
    requires speaks { Speaks app.now verdict }
    ensures known { IfOk result (IsKnown ways.deadlock searches app.now certificate.now) }
    ensures told { IfOk result (IsTold app.now certificate.now) }
{
    let mut tried = None;
    if searches && is_unsettled(verdict, &waits) {
        match settled(rt, alloc, app, verdict, &waits, ways, meter)? {
            Ok(found) => return Ok(Known::Settled(found, sources_for(alloc, text, ways.detail)?)),
            Err(left) => tried = Some(left),
        }
    }
    let why = why(alloc, text, app, certificate, verdict, ways.detail, true)?;
    Ok(Known::Reached(verdict, why, waits, tried))
}

/// What is known of the application by this certificate, once that is judged by so many workers as there can be.
fn judged_by<R: Threads + Wait + Sync, G: Gate>(
    rt: &R,
    alloc: Global,
    text: &[u8],
    app: &App,
    certificate: &Certificate,
    ways: Ways,
    gate: &G,
    searches: bool,
    meter: Option<&Meter>,
) -> Result<Known, CheckFault>
    requires fits { CertificateFits app.now certificate.now }
    requires crew { IsNoCrew ways.workers → ⊥ }
    ensures known { IfOk result (IsKnown ways.deadlock searches app.now certificate.now) }
    ensures told { IfOk result (IsTold app.now certificate.now) }
    ensures refused { IfErr result (λ fault. (fault ≡ CheckFault.Memory) ⊎ (fault ≡ CheckFault.Thread)) }
{
    let verdict = judge_with(rt, alloc, app, certificate, ways.workers, gate)?;
    let waits = waits(alloc, app, certificate, verdict, ways.deadlock)?;
    Ok(known_by(
        rt,
        alloc,
        text,
        app,
        certificate,
        verdict,
        waits,
        ways,
        searches,
        meter,
    )?)
}

/// The answer about this application, by what is known of it.
fn what_of(
    alloc: Global,
    app: App,
    certificate: Certificate,
    known: Known,
) -> Result<What, AllocError>
    requires fits { CertificateFits app certificate }
    requires told { IsTold app certificate known }
    ensures { IfOk result (IsWhatOf app certificate known) }
{
    match known {
        Known::Settled(found, explains) => {
            let searched = Searched {
                app,
                found,
                explains,
            };
            Ok(What::Searched(Boxed::new(alloc, searched)?))
        }
        Known::Reached(verdict, why, waits, tried) => {
            let judged = Judged::new(app, certificate, verdict, why, waits).after_search(tried);
            Ok(What::Judged(Boxed::new(alloc, judged)?))
        }
    }
}

/// A certificate that is worked out for the application, read from its text, with the text, and what is known by it.
fn certified<R: Threads + Wait + Sync, G: Gate>(
    rt: &R,
    alloc: Global,
    bytes: &[u8],
    app: &App,
    ways: Ways,
    gate: &G,
    searches: bool,
    meter: Option<&Meter>,
) -> Result<(Certificate, String, Known), CheckFault>
    requires crew { IsNoCrew ways.workers → ⊥ }
    requires means { AppMeans bytes.now app.now }
    ensures means { IfOk result (λ r. CertMeans app.now (string_bytes r.1) r.0) }
    ensures fits { IfOk result (λ r. CertificateFits app.now r.0) }
    ensures known { IfOk result (λ r. IsKnown ways.deadlock searches app.now r.0 r.2) }
    ensures told { IfOk result (λ r. IsTold app.now r.0 r.2) }
    ensures refused { IfErr result (CanRefuseProof bytes.now ways.workers) }
{
    let text = certificate_text(alloc, app, meter)?;
    let certificate = read_cert(alloc, app, text.as_bytes())?;
    match judged_by(
        rt,
        alloc,
        bytes,
        app,
        &certificate,
        ways,
        gate,
        searches,
        meter,
    ) {
        Ok(known) => Ok((certificate, text, known)),
        Err(fault) => Err(fault),
    }
}

/// Works out a certificate for the application, and judges it. Where the verdict is no, or a deadlock isn't excluded where that is asked,
/// and `searches` asks for it, the same workers look for a run into a breach or a deadlock.
///
/// Ok is the verdict by the certificate whose text comes with it. In place of one that doesn't settle the matter it is what the search
/// found, where that is a run, or that no state of any run breaches a rule or is deadlocked. How far it is, it notes in the meter, if there
/// is one.
///
/// # Errors
///
/// `Workers` exactly where their number is not 1 to 64, before anything is read; `App` names a fault that is present in the bytes;
/// `Cert` says that the certificate can't be read, as one that is too long; `Memory` and `Thread` say that the machine refused an
/// allocation or a thread.
pub fn proved_text<R: Threads + Wait + Sync, G: Gate>(
    rt: &R,
    alloc: Global,
    app: &[u8],
    ways: Ways,
    gate: &G,
    searches: bool,
    meter: Option<&Meter>,
) -> Result<(What, String), CheckFault>
    ensures proved { IfOk result (λ r. IsProofOf ways.deadlock app.now searches (string_bytes r.1) r.0) }
    ensures workers { IsErrOf result CheckFault.Workers ↔ IsNoCrew ways.workers }
    ensures refused { IfErr result (CanRefuseProof app.now ways.workers) }
{
    if !is_crew(ways.workers) {
        return Err(CheckFault::Workers);
    }
    let bytes = app;
    let app = read_app(alloc, bytes)?;
    match certified(rt, alloc, bytes, &app, ways, gate, searches, meter) {
        Ok((certificate, text, known)) => Ok((what_of(alloc, app, certificate, known)?, text)),
        Err(fault) => Err(fault),
    }
}
