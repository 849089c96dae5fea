// Judging a certificate, point by point.
ghost use Rattle.std.specs.Prelude.{◌≡◌, ◌<◌, Some, length, slice_get, IfSome};
ghost use Rattle.std.specs.Option.{ForSome};
ghost use Rattle.fr_program.specs.declared.ids.Point.{Point as PointOf};
ghost use Rattle.fr_program.specs.Points.{points_of};
ghost use Rattle.fr_rules.specs.Run.{IsSafe};
ghost use Rattle.fr_ends.specs.Fits.{CertificateFits};
ghost use Rattle.fr_effects.specs.Disturbance.{IsSpoiler};
ghost use Rattle.fr_effects.specs.Index.{IsIndexOf};
ghost use Rattle.fr_judge.specs.Deleter.{IsDeleter};
ghost use Rattle.fr_judge.specs.Told.{TellsFirst, TellsVerdict, IsPartOf, Speaks, part_of_own};

use crate::deletion::{deleter, deleter_by};
use crate::part::{Part, Verdict};
use fr_edge::{Own, own};
use fr_ends::{Certificate, guarded};
use fr_interfere::{Index, Interference, spoiler};
use fr_program::{App, Point};

/// The part that an own obligation is.
fn part_of_own(failing: Own) -> Part
    ensures { result ≡ part_of_own failing }
{
    match failing {
        Own::Entry => Part::Entry,
        Own::Rule(rule) => Part::Rule(rule),
        Own::Goes(point) => Part::Goes(point),
    }
}

/// The least point at which another actor can delete what the point is inside a call on: by the index
/// where there is one, else by all points.
fn deleter_among(
    app: &App,
    certificate: &Certificate,
    others: Option<&Interference>,
    number: usize,
) -> Option<Point>
    requires number { number < length (points_of app.now) }
    requires fits { CertificateFits app.now certificate.now }
    requires others { ForSome others (λ o. (o.now.app ≡ app.now) × (o.now.notes ≡ certificate.now.notes)) }
    ensures { (p : PointOf) → slice_get (points_of app.now) number ≡ Some p →
        IsDeleter app.now certificate.now.notes p result }
{
    match others {
        Some(others) => deleter_by(app, &certificate.notes, others.index(), number),
        None => deleter(app, &certificate.notes, number),
    }
}

/// The least number of a point whose steps disturb the point's note: by the index where there is one,
/// else by all points.
fn spoiler_among(
    app: &App,
    certificate: &Certificate,
    others: Option<&Interference>,
    number: usize,
) -> Option<usize>
    requires number { number < length (points_of app.now) }
    requires fits { CertificateFits app.now certificate.now }
    requires others { ForSome others (λ o. (o.now.app ≡ app.now) × (o.now.notes ≡ certificate.now.notes)) }
    ensures { (p : PointOf) → slice_get (points_of app.now) number ≡ Some p →
        IsSpoiler app.now certificate.now.notes p result }
{
    match others {
        Some(others) => others.spoiler(number),
        None => spoiler(app, &certificate.notes, number),
    }
}

/// The first part that fails at the point with this number: by the index where there is one, else by
/// all points.
pub(crate) fn job_among(
    app: &App,
    certificate: &Certificate,
    others: Option<&Interference>,
    number: usize,
) -> Option<Part>
    requires number { number < length (points_of app.now) }
    requires fits { CertificateFits app.now certificate.now }
    requires others { ForSome others (λ o. (o.now.app ≡ app.now) × (o.now.notes ≡ certificate.now.notes)) }
    ensures first { (p : PointOf) → slice_get (points_of app.now) number ≡ Some p →
        TellsFirst app.now certificate.now p result }
    ensures speaks { IfSome result (λ part. IsPartOf app.now part) }
{
    app.recall_faultless();
    app.recall_numbered();
    let _point = app.point(number);
    if let Some(failing) = own(app, &certificate.notes, number) {
        return Some(part_of_own(failing));
    }
    if let Some(end) = guarded(app, certificate, number) {
        return Some(Part::Guard(end));
    }
    if let Some(other) = deleter_among(app, certificate, others, number) {
        return Some(Part::Near(other));
    }
    match spoiler_among(app, certificate, others, number) {
        Some(other) => Some(Part::Spoiled(app.point(other))),
        None => None,
    }
}

/// The first part that fails at the point with this number, or None where all are kept there: its
/// own obligations, the guards of the ends that it is inside a call at, the deletes of what it uses,
/// and the steps of other actors, in this order; within one kind the least rule, end or point. The
/// number is below that of the points, and the certificate fits the application. All points are looked
/// at. Takes no memory.
pub fn job(app: &App, certificate: &Certificate, number: usize) -> Option<Part>
    requires number { number < length (points_of app.now) }
    requires fits { CertificateFits app.now certificate.now }
    ensures first { (p : PointOf) → slice_get (points_of app.now) number ≡ Some p →
        TellsFirst app.now certificate.now p result }
    ensures speaks { IfSome result (λ part. IsPartOf app.now part) }
{
    job_among(app, certificate, None, number)
}

/// The same as `job`, by the index of that application: of other actors' points only those are looked at
/// that can change what the point's note says, and the index's leavers. Takes no memory.
pub fn job_by(app: &App, certificate: &Certificate, index: &Index, number: usize) -> Option<Part>
    requires number { number < length (points_of app.now) }
    requires fits { CertificateFits app.now certificate.now }
    requires index { IsIndexOf app.now index.now }
    ensures first { (p : PointOf) → slice_get (points_of app.now) number ≡ Some p →
        TellsFirst app.now certificate.now p result }
    ensures speaks { IfSome result (λ part. IsPartOf app.now part) }
{
    let others = Interference::of(app, &certificate.notes, index);
    job_among(app, certificate, Some(&others), number)
}

/// The verdict: by the index where there is one, else by all points.
pub(crate) fn judge_among(
    app: &App,
    certificate: &Certificate,
    others: Option<&Interference>,
) -> Verdict
    requires fits { CertificateFits app.now certificate.now }
    requires others { ForSome others (λ o. (o.now.app ≡ app.now) × (o.now.notes ≡ certificate.now.notes)) }
    ensures verdict { TellsVerdict app.now certificate.now result }
    ensures safe { result ≡ Verdict.Yes → IsSafe app.now }
    ensures speaks { Speaks app.now result }
{
    app.recall_faultless();
    app.recall_numbered();
    for number in 0..app.points() {
        if let Some(part) = job_among(app, certificate, others, number) {
            return Verdict::No {
                point: app.point(number),
                part,
            };
        }
    }
    Verdict::Yes
}

/// The verdict on an application and a certificate that fits it: `Yes` where every part is kept at
/// every point, otherwise the least point at which one isn't, with the first such part. Where it is
/// `Yes`, no state of any run of the application breaches any of the twelve rules. At each point all
/// points are looked at. Takes no memory.
pub fn judge(app: &App, certificate: &Certificate) -> Verdict
    requires fits { CertificateFits app.now certificate.now }
    ensures verdict { TellsVerdict app.now certificate.now result }
    ensures safe { result ≡ Verdict.Yes → IsSafe app.now }
    ensures speaks { Speaks app.now result }
{
    judge_among(app, certificate, None)
}

/// The same as `judge`, by the index of that application. Takes no memory.
pub fn judge_by(app: &App, certificate: &Certificate, index: &Index) -> Verdict
    requires fits { CertificateFits app.now certificate.now }
    requires index { IsIndexOf app.now index.now }
    ensures verdict { TellsVerdict app.now certificate.now result }
    ensures safe { result ≡ Verdict.Yes → IsSafe app.now }
    ensures speaks { Speaks app.now result }
{
    let others = Interference::of(app, &certificate.notes, index);
    judge_among(app, certificate, Some(&others))
}
