// Applications that have passed.
ghost use Rattle.std.specs.Prelude.{◌≡◌, ◌≢◌, IfOk, IfErr, OnOk};
ghost use Rattle.fr_rules.specs.Run.{IsSafe};
ghost use Rattle.fr_ends.specs.Fits.{CertificateFits};
ghost use Rattle.fr_effects.specs.Index.{IsIndexOf};
ghost use Rattle.fr_judge.specs.Told.{TellsVerdict, Speaks};
ghost use Rattle.fr_judge.specs.Verdict.{IsCertified};
ghost use Rattle.fr_judge.specs.Sound.{Certified};

use crate::part::Verdict;
use crate::verdict::{judge, judge_by};
use fr_ends::Certificate;
use fr_interfere::Index;
use fr_program::App;
use std::marker::Model;

/// An application with a certificate for it on which the verdict is `Yes`.
#[derive(Drop)]
pub struct Passed {
    app: App,
    certificate: Certificate,
}

impl Model for Passed {
    ghost use Rattle.fr_judge.specs.Approved.{Approved, HasPassed};

    ghost Value = { Approved };

    ghost view = { λ p. record { app = p.app; certificate = p.certificate } };

    ghost invariant = { λ p. HasPassed (record { app = p.app; certificate = p.certificate }) };
}

impl Passed {
    /// The application with its certificate where this verdict on them is `Yes`, else all of them.
    fn told(
        app: App,
        certificate: Certificate,
        verdict: Verdict,
    ) -> Result<Passed, (App, Certificate, Verdict)>
        requires fits { CertificateFits app certificate }
        requires verdict { TellsVerdict app certificate verdict }
        requires safe { verdict ≡ Verdict.Yes → IsSafe app }
        requires speaks { Speaks app verdict }
        ensures passed { IfOk result (λ passed. (passed.app ≡ app) × (passed.certificate ≡ certificate)) }
        ensures certified { OnOk result (IsCertified app certificate) }
        ensures safe { OnOk result (IsSafe app) }
        ensures returned { IfErr result (λ r. (r.0 ≡ app) × (r.1 ≡ certificate)) }
        ensures no { IfErr result (λ r. (r.2 ≢ Verdict.Yes) × TellsVerdict app certificate r.2) }
        ensures speaks { IfErr result (λ r. Speaks app r.2) }
    {
        match verdict {
            Verdict::Yes => Ok(Passed { app, certificate }),
            no => Err((app, certificate, no)),
        }
    }

    /// The application with its certificate, which fits it, where the verdict on them is `Yes`; so
    /// no state of any run of it breaches any of the twelve rules. Where the verdict is `No`, all
    /// comes back with it. At each point all points are looked at. Takes no memory.
    pub fn check(app: App, certificate: Certificate) -> Result<Passed, (App, Certificate, Verdict)>
        requires fits { CertificateFits app certificate }
        ensures passed { IfOk result (λ passed. (passed.app ≡ app) × (passed.certificate ≡ certificate)) }
        ensures certified { OnOk result (IsCertified app certificate) }
        ensures safe { OnOk result (IsSafe app) }
        ensures returned { IfErr result (λ r. (r.0 ≡ app) × (r.1 ≡ certificate)) }
        ensures no { IfErr result (λ r. (r.2 ≢ Verdict.Yes) × TellsVerdict app certificate r.2) }
        ensures speaks { IfErr result (λ r. Speaks app r.2) }
    {
        let verdict = judge(&app, &certificate);
        Passed::told(app, certificate, verdict)
    }

    /// The same as `check`, by the index of that application. Takes no memory.
    pub fn check_by(
        app: App,
        certificate: Certificate,
        index: &Index,
    ) -> Result<Passed, (App, Certificate, Verdict)>
        requires fits { CertificateFits app certificate }
        requires index { IsIndexOf app index.now }
        ensures passed { IfOk result (λ passed. (passed.app ≡ app) × (passed.certificate ≡ certificate)) }
        ensures certified { OnOk result (IsCertified app certificate) }
        ensures safe { OnOk result (IsSafe app) }
        ensures returned { IfErr result (λ r. (r.0 ≡ app) × (r.1 ≡ certificate)) }
        ensures no { IfErr result (λ r. (r.2 ≢ Verdict.Yes) × TellsVerdict app certificate r.2) }
        ensures speaks { IfErr result (λ r. Speaks app r.2) }
    {
        let verdict = judge_by(&app, &certificate, index);
        Passed::told(app, certificate, verdict)
    }

    /// The application that has passed.
    pub fn app(&self) -> &App
        ensures { result.now ≡ self.now.app }
    {
        &self.app
    }

    /// What passing says: the certificate fits the application, which has no build fault, and every
    /// part is kept at every point.
    pub fn recall_certified(&self)
        ensures fits { CertificateFits self.now.app self.now.certificate }
        ensures certified { Certified self.now.app self.now.certificate }
    {
        let _ = &self.certificate;
        self.app.recall_faultless();
    }
}
