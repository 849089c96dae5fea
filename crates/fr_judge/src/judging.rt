// Judging many points of one application by one certificate.
ghost use Rattle.std.specs.Prelude.{◌≡◌, ◌<◌, Some, length, slice_get, IfSome};
ghost use Rattle.fr_program.specs.declared.ids.Point.{Point as PointOf};
ghost use Rattle.fr_program.specs.Points.{points_of};
ghost use Rattle.fr_rules.specs.Run.{IsSafe};
ghost use Rattle.fr_ends.specs.Fits.{CertificateFits};
ghost use Rattle.fr_effects.specs.Index.{IsIndexOf};
ghost use Rattle.fr_judge.specs.Lists.{AreListsOf};
ghost use Rattle.fr_judge.specs.Told.{TellsFirst, TellsVerdict, IsPartOf, Speaks};

use crate::lists::Lists;
use crate::part::{Part, Verdict};
use crate::verdict::{job_among, judge_among};
use fr_ends::Certificate;
use fr_interfere::{Index, Interference};
use fr_program::App;
use std::marker::Model;

/// An application with a certificate that fits it, and what is looked up once for all its points.
#[derive(Drop)]
pub struct Judging<'a> {
    app: &'a App,
    certificate: &'a Certificate,
    others: Interference<'a>,
}

impl<'a> Model for Judging<'a> {
    ghost use Rattle.fr_judge.specs.Judging.{JudgingOf, IsJudging, judging_of};

    ghost Value = { JudgingOf };

    ghost view = { judging_of };

    ghost invariant = { IsJudging };
}

impl<'a> Judging<'a> {
    /// Judges by the lists that were made for this application and this certificate. Takes no memory.
    pub fn with(app: &'a App, certificate: &'a Certificate, lists: &'a Lists) -> Judging<'a>
        requires fits { CertificateFits app.now certificate.now }
        requires lists { AreListsOf app.now certificate.now lists.now }
        ensures app { result.app ≡ app.now }
        ensures certificate { result.certificate ≡ certificate.now }
    {
        let others = lists.interference(app, certificate);
        Judging {
            app,
            certificate,
            others,
        }
    }

    /// Judges by the index of that application alone. Takes no memory.
    pub fn by(app: &'a App, certificate: &'a Certificate, index: &'a Index) -> Judging<'a>
        requires fits { CertificateFits app.now certificate.now }
        requires index { IsIndexOf app.now index.now }
        ensures app { result.app ≡ app.now }
        ensures certificate { result.certificate ≡ certificate.now }
    {
        let others = Interference::of(app, &certificate.notes, index);
        Judging {
            app,
            certificate,
            others,
        }
    }

    /// The application whose points are judged.
    pub fn app(&self) -> &'a App
        ensures { result.now ≡ self.now.app }
    {
        self.app
    }

    /// The first part that fails at the point with this number, or None where all are kept there, as `job` gives it. Takes no
    /// memory.
    pub fn part_at(&self, number: usize) -> Option<Part>
        requires number { number < length (points_of self.now.app) }
        ensures first { (p : PointOf) → slice_get (points_of self.now.app) number ≡ Some p →
            TellsFirst self.now.app self.now.certificate p result }
        ensures speaks { IfSome result (λ part. IsPartOf self.now.app part) }
    {
        job_among(self.app, self.certificate, Some(&self.others), number)
    }

    /// The verdict, as `judge` gives it. Where it is `Yes`, no state of any run of the application breaches any of the twelve
    /// rules. Takes no memory.
    pub fn verdict(&self) -> Verdict
        ensures verdict { TellsVerdict self.now.app self.now.certificate result }
        ensures safe { result ≡ Verdict.Yes → IsSafe self.now.app }
        ensures speaks { Speaks self.now.app result }
    {
        judge_among(self.app, self.certificate, Some(&self.others))
    }
}
