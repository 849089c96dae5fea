// The command `points`.
ghost use Rattle.std.specs.Prelude.{◌≡◌, ℕ, List, IfErr, IfOk, string_bytes};
ghost use Rattle.std.specs.Io.KnownBytes.{Appends};
ghost use Rattle.fr_outcome.specs.Checked.{fault_status};
ghost use Rattle.fr_answer.specs.Commands.{AreShown, IsListed, IsListing};
ghost use Rattle.fr_inputs.specs.Inputs.{Reads};

use fr_code::places_in_source;
use fr_inputs::{Files, application, refusal_of_texts};
use fr_outcome::{AppText, CheckFault, DONE, Refusal, put};
use fr_place::is_unknown_word;
use fr_program::App;
use fr_reader::read_app;
use fr_wording::{Sources, points_text};
use std::alloc::{AllocError, Global};
use std::io::Write;

/// Where the lines of the application with this text are in a source, where that is asked for.
fn sources_asked(alloc: Global, text: &[u8], explains: bool) -> Result<Sources, AllocError>
    ensures { IfOk result (AreShown explains) }
{
    if explains {
        Ok(Sources {
            places: places_in_source(alloc, text)?,
        })
    } else {
        Ok(Sources::none(alloc))
    }
}

/// The points of the application with this text, a line each.
fn listed(alloc: Global, app: &App, text: &[u8], explains: bool) -> Result<String, AllocError>
    ensures { IfOk result (λ lines. IsListed explains app.now (string_bytes lines)) }
{
    let sources = sources_asked(alloc, text, explains)?;
    points_text(alloc, app, &sources)
}

/// Prints the points of the application with this text, and gives the exit status.
fn put_listed<O: Write>(
    alloc: Global,
    app: &App,
    text: &[u8],
    explains: bool,
    out: &mut O,
) -> Result<u8, CheckFault>
    ensures put { IfOk result (λ _. (lines : List ℕ) × IsListed explains app.now lines × Appends (O.contents out.old) (O.contents out.new) lines) }
    ensures done { IfOk result (λ status. status ≡ 0) }
    ensures fault { IfErr result (λ fault. fault_status fault ≡ 3) }
{
    put(&listed(alloc, app, text, explains)?, out)?;
    Ok(DONE)
}

/// Prints the points of the application in the file, a line each, where it is asked for with the line's place in its source, and gives the
/// exit status.
pub(crate) fn points<F: Files, O: Write>(
    alloc: Global,
    app: &str,
    explains: bool,
    files: &F,
    out: &mut O,
) -> Result<u8, Refusal>
    ensures answered { IfOk result (λ status. IsListing (Reads (F.Gives files.now) F.Means)
        app.now explains status (O.contents out.old) (O.contents out.new)) }
    ensures done { IfOk result (λ status. status ≡ 0) }
    ensures refused { IfErr result (λ refusal. fault_status refusal.fault ≡ 2 → out.new ≡ out.old) }
{
    let AppText { bytes: text, .. } = application(alloc, files, app, explains)?;
    match read_app(alloc, &text) {
        Ok(app) => Ok(put_listed(alloc, &app, &text, explains, out)?),
        Err(fault) => {
            let places = explains || is_unknown_word(&fault);
            let fault = CheckFault::from(fault);
            Err(refusal_of_texts(alloc, &text, None, fault, places))
        }
    }
}
