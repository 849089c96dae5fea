// From the bytes of an application and of a certificate to the verdict, found by several workers.
ghost use Rattle.std.specs.Prelude.{◌≡◌, ◌↔◌, IfOk, IfErr, IsErrOf};
ghost use Rattle.fr_rules.specs.Run.{IsSafe};
ghost use Rattle.fr_cert.specs.Meaning.{Means as CertMeans};
ghost use Rattle.fr_ends.specs.Fits.{CertificateFits};
ghost use Rattle.fr_judge.specs.declared.part.Verdict.TheVariants.{Yes};
ghost use Rattle.fr_text.specs.Texts.{IsJudged};
ghost use Rattle.fr_judge.specs.Told.{Speaks, TellsVerdict};
ghost use Rattle.fr_parallel.specs.declared.bytes.BytesFault.TheVariants.{Par};
ghost use Rattle.fr_parallel.specs.declared.fault.ParFault.TheVariants.{Workers};
ghost use Rattle.fr_parallel.specs.Bytes.{IsFaultOfBytes};
ghost use Rattle.fr_parallel.specs.Crew.{IsNoCrew};

use crate::fault::ParFault;
use crate::verdict::{is_crew, judge_by_crew};
use fr_board::Gate;
use fr_cert::CertFault;
use fr_ends::Certificate;
use fr_judge::Verdict;
use fr_program::App;
use fr_reader::ReadFault;
use fr_text::{JudgedApp, TextFault, read_both};
use std::alloc::Global;
use std::sync::Wait;
use std::thread::Threads;
use thiserror::Error;

/// Why there is no verdict.
#[derive(Debug, Drop, Error)]
pub enum BytesFault {
    /// The workers gave none.
    #[error("{0}")]
    Par(ParFault),
    /// The application's bytes are refused.
    #[error("{0}")]
    App(ReadFault),
    /// The certificate's bytes are refused, for the application that was read.
    #[error("{0}")]
    Cert(CertFault),
}

/// Texts that are refused, each by its own fault.
impl From<TextFault> for BytesFault {
    ghost use Rattle.fr_parallel.specs.Bytes.{bytes_fault};

    ghost from_gives = { λ fault result. result ≡ bytes_fault fault };

    fn from(fault: TextFault) -> BytesFault {
        match fault {
            TextFault::Memory => BytesFault::Par(ParFault::Memory),
            TextFault::App(fault) => BytesFault::App(fault),
            TextFault::Cert(fault) => BytesFault::Cert(fault),
        }
    }
}

/// What two texts mean, and the verdict on it.
#[derive(Drop)]
pub struct Reading {
    pub app: App,
    pub certificate: Certificate,
    pub verdict: Verdict,
}

/// The same as `judge_bytes`, with the certificate that was read, which fits the application: for whoever
/// tells why the verdict is no.
///
/// # Errors
///
/// As those of `judge_bytes`.
pub fn judge_reading<R: Threads + Wait + Sync, G: Gate>(
    rt: &R,
    alloc: Global,
    app: &[u8],
    certificate: &[u8],
    workers: usize,
    gate: &G,
) -> Result<Reading, BytesFault>
    ensures judged { IfOk result
        (λ reading. IsJudged app.now certificate.now reading.app reading.verdict) }
    ensures means { IfOk result
        (λ reading. CertMeans reading.app certificate.now reading.certificate) }
    ensures fits { IfOk result (λ reading. CertificateFits reading.app reading.certificate) }
    ensures verdict { IfOk result
        (λ reading. TellsVerdict reading.app reading.certificate reading.verdict) }
    ensures safe { IfOk result (λ reading. reading.verdict ≡ Yes → IsSafe reading.app) }
    ensures speaks { IfOk result (λ reading. Speaks reading.app reading.verdict) }
    ensures workers { IsErrOf result (Par Workers) ↔ IsNoCrew workers }
    ensures fault { IfErr result (IsFaultOfBytes app.now certificate.now) }
{
    if !is_crew(workers) {
        return Err(BytesFault::Par(ParFault::Workers));
    }
    let (app, certificate) = read_both(alloc, app, certificate)?;
    match judge_by_crew(rt, alloc, &app, &certificate, workers, gate) {
        Ok(verdict) => Ok(Reading {
            app,
            certificate,
            verdict,
        }),
        Err(fault) => Err(BytesFault::Par(fault)),
    }
}

/// Reads the application, then the certificate for it, and judges it by this many workers, each in a thread of its own.
///
/// Ok is the application that the first bytes mean, and the verdict on it and on the certificate that the second ones mean: one
/// function of the bytes, whatever the workers do. Where the verdict is `Yes`, no state of any run of the application
/// breaches any of the twelve rules.
///
/// # Errors
///
/// `Par(Workers)` exactly where `workers` isn't 1 to 64, before anything is read; then a fault that is present in the application's
/// bytes; then one that is present in the certificate's; then `Memory` or `Threads` of `judge_with`. `is_memory` of both other faults
/// tells the refusal of an allocation.
pub fn judge_bytes<R: Threads + Wait + Sync, G: Gate>(
    rt: &R,
    alloc: Global,
    app: &[u8],
    certificate: &[u8],
    workers: usize,
    gate: &G,
) -> Result<JudgedApp, BytesFault>
    ensures judged { IfOk result
        (λ judged. IsJudged app.now certificate.now judged.app judged.verdict) }
    ensures safe { IfOk result (λ judged. judged.verdict ≡ Yes → IsSafe judged.app) }
    ensures speaks { IfOk result (λ judged. Speaks judged.app judged.verdict) }
    ensures workers { IsErrOf result (Par Workers) ↔ IsNoCrew workers }
    ensures fault { IfErr result (IsFaultOfBytes app.now certificate.now) }
{
    let reading = judge_reading(rt, alloc, app, certificate, workers, gate)?;
    Ok(JudgedApp {
        app: reading.app,
        verdict: reading.verdict,
    })
}
