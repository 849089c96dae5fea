// From files to an answer.
ghost use Rattle.std.specs.Prelude.{◌≤◌, ◌<◌, ◌≡◌, ◌^◌, ℕ, List, true, IfOk, IfErr, string_bytes};
ghost use Rattle.fr_outcome.specs.Checked.{fault_status};
ghost use Rattle.fr_answer.specs.Commands.{IsCheckOf, IsProofAt, IsSearchAt};
ghost use Rattle.fr_inputs.specs.Inputs.{AsApp, Reads};

use fr_cert::MOST_CERTIFICATE_BYTES;
use fr_findings::{Ways, judged_texts, searched_text};
use fr_inputs::{Files, application, input, refusal_of_texts};
use fr_outcome::{AppText, CheckFault, Refusal, What};
use fr_parallel::Open;
use fr_place::is_unknown_word;
use fr_proving::proved_text;
use std::alloc::Global;
use std::sync::Wait;
use std::thread::Threads;

/// The verdict on the application and the certificate in these files, with the application's text.
pub(crate) fn checked_files<R: Threads + Wait + Sync, F: Files>(
    rt: &R,
    alloc: Global,
    files: &F,
    app: &str,
    certificate: &str,
    ways: Ways,
) -> Result<(AppText, What), Refusal>
    ensures verdict { IfOk result (λ r. IsCheckOf (Reads (F.Gives files.now) F.Means) ways.deadlock app.now certificate.now r.1) }
    ensures fault { IfErr result (λ refusal. 2 ≤ fault_status refusal.fault) }
{
    let app = application(alloc, files, app, ways.names)?;
    let certificate = input(
        alloc,
        files,
        certificate,
        MOST_CERTIFICATE_BYTES,
        ways.names,
    )?;
    match judged_texts(
        rt,
        alloc,
        &app.bytes,
        &certificate,
        ways.workers,
        &Open,
        ways.detail,
        ways.deadlock,
    ) {
        Ok(what) => Ok((app, what)),
        Err(fault) => {
            let certificate = Some(certificate.as_slice());
            Err(refusal_of_texts(alloc, &app.bytes, certificate, fault, ways.places))
        }
    }
}

/// The verdict on the application in this file by a certificate that is worked out, or a run into a breach, with the certificate's
/// text and the application's.
pub(crate) fn proved_file<R: Threads + Wait + Sync, F: Files>(
    rt: &R,
    alloc: Global,
    files: &F,
    app: &str,
    searches: bool,
    ways: Ways,
) -> Result<(AppText, What, String), Refusal>
    ensures proof { IfOk result (λ r. IsProofAt (Reads (F.Gives files.now) F.Means) ways.deadlock app.now searches (string_bytes r.2) r.1) }
    ensures fault { IfErr result (λ refusal. 2 ≤ fault_status refusal.fault) }
{
    let app = application(alloc, files, app, ways.names)?;
    match proved_text(rt, alloc, &app.bytes, ways, &Open, searches, files.meter()) {
        Ok((what, certificate)) => Ok((app, what, certificate)),
        Err(fault) => Err(refusal_of_texts(alloc, &app.bytes, None, fault, ways.places)),
    }
}

/// The same without the certificate's text; a run into a breach is looked for.
pub(crate) fn proved_alone<R: Threads + Wait + Sync, F: Files>(
    rt: &R,
    alloc: Global,
    files: &F,
    app: &str,
    ways: Ways,
) -> Result<(AppText, What), Refusal>
    ensures proof { IfOk result (λ r. (certificate : List ℕ) × IsProofAt (Reads (F.Gives files.now) F.Means) ways.deadlock app.now true certificate r.1) }
    ensures fault { IfErr result (λ refusal. 2 ≤ fault_status refusal.fault) }
{
    let (text, what, _certificate) = proved_file(rt, alloc, files, app, true, ways)?;
    Ok((text, what))
}

/// What a search for a breach finds in the application in this file, with its text.
pub(crate) fn searched_file<R: Threads + Sync, F: Files>(
    rt: &R,
    alloc: Global,
    files: &F,
    app: &str,
    ways: Ways,
) -> Result<(AppText, What), Refusal>
    ensures found { IfOk result (λ r. IsSearchAt (Reads (F.Gives files.now) F.Means) ways.deadlock app.now r.1) }
    ensures fault { IfErr result (λ refusal. 2 ≤ fault_status refusal.fault) }
{
    let app = application(alloc, files, app, ways.names)?;
    match searched_text(rt, alloc, &app.bytes, ways, files.meter()) {
        Ok(what) => Ok((app, what)),
        Err(fault) => {
            let places = ways.places
                || matches!(&fault, CheckFault::App(fault) if is_unknown_word(fault));
            Err(refusal_of_texts(alloc, &app.bytes, None, fault, places))
        }
    }
}
