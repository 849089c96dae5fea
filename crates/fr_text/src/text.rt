// From the bytes of an application and of a certificate to the verdict.
ghost use Rattle.std.specs.Prelude.{◌≡◌, IfOk, IfErr};
ghost use Rattle.fr_rules.specs.Run.{IsSafe};
ghost use Rattle.fr_reader.specs.Meaning.{Means as AppMeans};
ghost use Rattle.fr_cert.specs.Meaning.{Means as CertMeans};
ghost use Rattle.fr_ends.specs.Fits.{CertificateFits};
ghost use Rattle.fr_judge.specs.Told.{TellsVerdict, Speaks};
ghost use Rattle.fr_text.specs.Texts.{IsJudged, IsFaultOfTexts};

use fr_cert::{CertFault, read_cert};
use fr_ends::Certificate;
use fr_judge::{Judging, Lists, Verdict};
use fr_program::App;
use fr_reader::{ReadFault, read_app};
use std::alloc::{AllocError, Global};

/// An application that was read, and the verdict on it.
#[derive(Drop)]
pub struct JudgedApp {
    pub app: App,
    pub verdict: Verdict,
}

/// Why there is no verdict.
#[derive(Drop)]
pub enum TextFault {
    /// An allocation was refused after both were read. One that is refused while they are read comes
    /// inside `App` or `Cert`, and their `is_memory` tells it.
    Memory,
    /// The application's bytes are refused.
    App(ReadFault),
    /// The certificate's bytes are refused, for the application that was read.
    Cert(CertFault),
}

/// The application that the first bytes mean, and the certificate for it that the second ones mean.
///
/// # Errors
///
/// A fault that is present in the bytes, the application's before the certificate's. `is_memory` of both tells the refusal
/// of an allocation.
pub fn read_both(
    alloc: Global,
    app: &[u8],
    certificate: &[u8],
) -> Result<(App, Certificate), TextFault>
    ensures app { IfOk result (λ r. AppMeans app.now r.0) }
    ensures certificate { IfOk result (λ r. CertMeans r.0 certificate.now r.1) }
    ensures fits { IfOk result (λ r. CertificateFits r.0 r.1) }
    ensures fault { IfErr result (IsFaultOfTexts app.now certificate.now) }
{
    let app = match read_app(alloc, app) {
        Ok(app) => app,
        Err(fault) => return Err(TextFault::App(fault)),
    };
    match read_cert(alloc, &app, certificate) {
        Ok(certificate) => Ok((app, certificate)),
        Err(fault) => Err(TextFault::Cert(fault)),
    }
}

/// The verdict, by an index and by what the notes of its points have in common.
fn judge_at_once(alloc: Global, app: &App, certificate: &Certificate) -> Result<Verdict, AllocError>
    requires fits { CertificateFits app.now certificate.now }
    ensures verdict { IfOk result (λ v. TellsVerdict app.now certificate.now v) }
    ensures safe { IfOk result (λ v. v ≡ Verdict.Yes → IsSafe app.now) }
    ensures speaks { IfOk result (λ v. Speaks app.now v) }
{
    let lists = Lists::build(alloc, app, certificate)?;
    Ok(Judging::with(app, certificate, &lists).verdict())
}

/// Reads the application, then the certificate for it, and judges it.
///
/// Ok is the application that the first bytes mean, and the verdict on it and on the certificate
/// that the second ones mean: one function of the bytes. Where the verdict is
/// `Yes`, no state of any run of the application breaches any of the twelve rules. A refusal names
/// a fault that is present in the bytes, the application's before the certificate's; `Memory`, and
/// `is_memory` of both, tell the refusal of an allocation.
pub fn judge_text(alloc: Global, app: &[u8], certificate: &[u8]) -> Result<JudgedApp, TextFault>
    ensures judged { IfOk result (λ judged. IsJudged app.now certificate.now judged.app judged.verdict) }
    ensures safe { IfOk result (λ judged. judged.verdict ≡ Verdict.Yes → IsSafe judged.app) }
    ensures speaks { IfOk result (λ judged. Speaks judged.app judged.verdict) }
    ensures stands { IfErr result (IsFaultOfTexts app.now certificate.now) }
{
    let (app, certificate) = read_both(alloc, app, certificate)?;
    match judge_at_once(alloc, &app, &certificate) {
        Ok(verdict) => Ok(JudgedApp { app, verdict }),
        Err(_) => Err(TextFault::Memory),
    }
}
