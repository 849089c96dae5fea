// That an application is judged alike by all pairs of points, by its index, and by the hulls of the index's lists; and that what
// is written for its certificate is read as the same.
ghost use Rattle.std.specs.Prelude.{◌≡◌, ◌<◌, length};
ghost use Rattle.fr_program.specs.Points.{points_of};
ghost use Rattle.fr_ends.specs.Fits.{CertificateFits};
ghost use Rattle.fr_effects.specs.Index.{IsIndexOf};

use crate::applications::{
    CRITICAL, CRITICAL_NOTES, DELETED, DELETED_NOTES, LIFE, LIFE_NOTES, QUEUE, QUEUE_NOTES,
    SOLE_NOTES, STREAM, STREAM_NOTES,
};
use fr_cert::{read_cert, write_cert};
use fr_ends::Certificate;
use fr_interfere::{Index, spoiler, spoiler_by};
use fr_judge::{Judging, Lists, job, job_by, judge, judge_by};
use fr_program::App;
use fr_reader::read_app;
use std::alloc::Global;

/// Whether the point is judged alike in each way.
fn is_point_alike(
    app: &App,
    certificate: &Certificate,
    index: &Index,
    judging: &Judging,
    number: usize,
) -> bool
    requires number { number < length (points_of app.now) }
    requires fits { CertificateFits app.now certificate.now }
    requires index { IsIndexOf app.now index.now }
    requires app { judging.now.app ≡ app.now }
{
    let notes = &certificate.notes;
    let part = job(app, certificate, number);
    part == job_by(app, certificate, index, number)
        && part == judging.part_at(number)
        && spoiler(app, notes, number) == spoiler_by(app, notes, index, number)
}

/// Whether this text is written for the certificate.
fn is_written(alloc: Global, app: &App, certificate: &Certificate, text: &str) -> Option<bool>
    requires fits { CertificateFits app.now certificate.now }
{
    let written = write_cert(alloc, app, certificate).ok()?;
    Some(written.as_str() == text)
}

/// Whether what is written for the certificate is read as a certificate for which the same is written.
pub fn is_read_again(alloc: Global, app: &App, certificate: &Certificate) -> Option<bool>
    requires fits { CertificateFits app.now certificate.now }
{
    let text = write_cert(alloc, app, certificate).ok()?;
    match &read_cert(alloc, app, text.as_bytes()) {
        Ok(again) => is_written(alloc, app, again, text.as_str()),
        Err(_) => None,
    }
}

/// Whether each point, and the whole, are judged alike in each way.
fn are_points_alike(app: &App, certificate: &Certificate, index: &Index, judging: &Judging) -> bool
    requires fits { CertificateFits app.now certificate.now }
    requires index { IsIndexOf app.now index.now }
    requires app { judging.now.app ≡ app.now }
{
    for number in 0..app.points() {
        if !is_point_alike(app, certificate, index, judging, number) {
            return false;
        }
    }
    let verdict = judge(app, certificate);
    verdict == judge_by(app, certificate, index) && verdict == judging.verdict()
}

/// Whether each point, and the whole, are judged alike in each way, and the certificate is read again. None where there is no
/// memory.
pub fn is_alike(alloc: Global, app: &App, certificate: &Certificate) -> Option<bool>
    requires fits { CertificateFits app.now certificate.now }
{
    let Ok(index) = Index::build(alloc, app) else {
        return None;
    };
    let Ok(lists) = Lists::build(alloc, app, certificate) else {
        return None;
    };
    let judging = Judging::with(app, certificate, &lists);
    if are_points_alike(app, certificate, &index, &judging) {
        is_read_again(alloc, app, certificate)
    } else {
        Some(false)
    }
}

/// The same of the certificate in this text. None where it is refused.
fn is_alike_by(alloc: Global, app: &App, notes: &[u8]) -> Option<bool> {
    match &read_cert(alloc, app, notes) {
        Ok(certificate) => is_alike(alloc, app, certificate),
        Err(_) => None,
    }
}

/// The same of these texts. None where one of them is refused.
fn are_alike(alloc: Global, app: &[u8], notes: &[u8]) -> Option<bool> {
    match &read_app(alloc, app) {
        Ok(app) => is_alike_by(alloc, app, notes),
        Err(_) => None,
    }
}

#[test]
fn small_applications_are_judged_alike(rt: HostRuntime) {
    let files = [
        (STREAM, STREAM_NOTES),
        (QUEUE, QUEUE_NOTES),
        (CRITICAL, CRITICAL_NOTES),
        (CRITICAL, SOLE_NOTES),
        (DELETED, DELETED_NOTES),
        (LIFE, LIFE_NOTES),
    ];
    for (number, (app, notes)) in files.iter().enumerate() {
        assert!(rt; are_alike(rt.alloc(), app, notes) == Some(true), "{number}");
    }
}
