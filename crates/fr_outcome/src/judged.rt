// A verdict, with what it is on, and whether actors can deadlock.
ghost use Rattle.std.specs.Prelude.{◌≡◌, None, IfSome};
ghost use Rattle.fr_ends.specs.Fits.{CertificateFits};
ghost use Rattle.fr_judge.specs.Told.{Speaks, TellsVerdict};
ghost use Rattle.fr_order.specs.Order.{IsOrderOf};

use fr_ends::Certificate;
use fr_found::Left;
use fr_judge::Verdict;
use fr_order::Order;
use fr_program::App;
use fr_wording::Explanation;
use std::marker::Model;

/// A search for a run into a breach, or for one into a deadlock, that found none.
#[derive(Clone, Copy)]
pub struct Tried {
    /// How many states it went through.
    pub states: usize,
    pub left: Left,
}

/// An application, a certificate that fits it, the verdict on both, and why it is no where that is asked for.
#[derive(Drop)]
pub struct Judged {
    app: App,
    certificate: Certificate,
    verdict: Verdict,
    why: Option<Explanation>,
    /// Whether actors can deadlock over mutexes, where that is asked and the verdict is yes.
    waits: Option<Order>,
    /// The search for a run that found none, where there was one.
    tried: Option<Tried>,
}

impl Model for Judged {
    ghost use Rattle.fr_outcome.specs.Judged.{JudgedOf, IsVerdictOf};

    ghost Value = { JudgedOf };

    ghost view = { λ j. record { app = j.app; certificate = j.certificate; verdict = j.verdict; why = j.why; waits = j.waits } };

    ghost invariant = { λ j. IsVerdictOf (record { app = j.app; certificate = j.certificate; verdict = j.verdict; why = j.why; waits = j.waits }) };
}

impl Judged {
    /// All as one value: the certificate fits the application, the verdict is the one on both, nothing explains a yes, and an order of the
    /// mutexes is one of the certificate.
    pub fn new(
        app: App,
        certificate: Certificate,
        verdict: Verdict,
        why: Option<Explanation>,
        waits: Option<Order>,
    ) -> Judged
        requires fits { CertificateFits app certificate }
        requires verdict { TellsVerdict app certificate verdict }
        requires speaks { Speaks app verdict }
        requires why { verdict ≡ Verdict.Yes → why ≡ None }
        requires waits { IfSome waits (IsOrderOf app certificate) }
        ensures app { result.app ≡ app }
        ensures certificate { result.certificate ≡ certificate }
        ensures verdict { result.verdict ≡ verdict }
        ensures why { result.why ≡ why }
        ensures waits { result.waits ≡ waits }
    {
        Judged {
            app,
            certificate,
            verdict,
            why,
            waits,
            tried: None,
        }
    }

    /// The same, after this search for a run; None where there was none.
    pub fn after_search(self, tried: Option<Tried>) -> Judged
        ensures { result ≡ self }
    {
        Judged { tried, ..self }
    }

    /// The search for a run that found none, where there was one.
    pub fn tried(&self) -> Option<Tried> {
        self.tried
    }

    /// The application.
    pub fn app(&self) -> &App
        ensures { result.now ≡ self.now.app }
    {
        &self.app
    }

    /// The certificate.
    pub fn certificate(&self) -> &Certificate
        ensures { result.now ≡ self.now.certificate }
    {
        &self.certificate
    }

    /// The verdict.
    pub fn verdict(&self) -> Verdict
        ensures { result ≡ self.now.verdict }
    {
        self.verdict
    }

    /// Why it is no; None where nobody asked, and where it is yes.
    pub fn why(&self) -> &Option<Explanation>
        ensures { result.now ≡ self.now.why }
    {
        &self.why
    }

    /// Whether actors can deadlock over mutexes; None where nobody asked, and where the verdict is no.
    pub fn waits(&self) -> &Option<Order>
        ensures { result.now ≡ self.now.waits }
    {
        &self.waits
    }

    /// What such a value says: the certificate fits the application, and the verdict is the one on both.
    pub fn recall_verdict(&self)
        ensures fits { CertificateFits self.now.app self.now.certificate }
        ensures verdict { TellsVerdict self.now.app self.now.certificate self.now.verdict }
        ensures speaks { Speaks self.now.app self.now.verdict }
        ensures why { self.now.verdict ≡ Verdict.Yes → self.now.why ≡ None }
        ensures waits { IfSome self.now.waits (IsOrderOf self.now.app self.now.certificate) }
    {
        let _ = &self.verdict;
    }
}
