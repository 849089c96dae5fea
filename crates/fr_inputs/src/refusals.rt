// Why there is no answer, and where.
ghost use Rattle.std.specs.Prelude.{◌≡◌, ◌≢◌, ◌≤◌, ◌⊎◌, IfOk};
ghost use Rattle.fr_outcome.specs.Checked.{fault_status};

use fr_escape::{Location, place_of_texts};
use fr_files::{FileFault, OutputFault};
use fr_outcome::{CheckFault, Refusal};
use fr_place::{place_of_app, place_of_certificate, place_of_swapped, recipe_at, seem_swapped};
use fr_reader::{ReadFault, read_app};
use fr_source::{Message, Refused, seems_a_source};
use std::alloc::{AllocError, Global};
use std::slice;

/// What is said of a source in a file that has the name of an application.
fn place_of_source(alloc: Global) -> Result<Location, AllocError> {
    let line = "this looks like a source: give its file a name that ends in .frc";
    let text = String::from_str(alloc, line)?;
    place_of_texts(alloc, slice::from_ref(&text))
}

/// Where the texts are at fault: line and column, table and key, the line of code with a mark, the path to a note, the nearest name
/// that is known; or that the two seem to be swapped, or the application to be a source. None where neither is at fault.
fn place_in(
    alloc: Global,
    app: &[u8],
    certificate: Option<&[u8]>,
    fault: &CheckFault,
) -> Result<Option<Location>, AllocError> {
    let place = match (fault, certificate) {
        (CheckFault::App(_) | CheckFault::Cert(_), Some(certificate))
            if seem_swapped(app, certificate) => { place_of_swapped(alloc)? }
        (CheckFault::App(ReadFault::Toml), _) if seems_a_source(app) => place_of_source(alloc)?,
        (CheckFault::App(fault), _) => place_of_app(alloc, app, fault)?,
        (CheckFault::Cert(fault), Some(certificate)) => match read_app(alloc, app) {
            Ok(read) => place_of_certificate(alloc, &read, certificate, fault)?,
            Err(_) => return Ok(None),
        },
        _ => return Ok(None),
    };
    Ok(Some(place))
}

/// The file that can't be read or written, and why.
fn file_place(alloc: Global, fault: &FileFault) -> Result<Location, AllocError> {
    let text = format!(in alloc; "{fault}")?;
    place_of_texts(alloc, slice::from_ref(&text))
}

/// What is wrong in the source at this path, and the line where it is. Below that is what to write in place of a call that has a recipe.
fn source_fault(
    alloc: Global,
    path: &str,
    message: &Message,
) -> Result<(CheckFault, Location), AllocError>
    ensures { IfOk result (λ r. fault_status r.0 ≡ 2) }
{
    let report = message.report(alloc, path)?;
    let mut lines = Vec::new(alloc);
    for line in message.excerpt(alloc)? {
        lines.push(line)?;
    }
    if let Some(recipe) = recipe_at(&message.shown, message.column) {
        lines.push(String::from_str(alloc, recipe)?)?;
    }
    let place = place_of_texts(alloc, &lines)?;
    let line = Some(message.line);
    Ok((CheckFault::Source { text: report, line }, place))
}

/// The fault of these texts, and where `places` asks for it where they are at fault.
pub fn refusal_of_texts(
    alloc: Global,
    app: &[u8],
    certificate: Option<&[u8]>,
    fault: CheckFault,
    places: bool,
) -> Refusal
    ensures least { 2 ≤ fault_status result.fault }
    ensures fault { (result.fault ≡ fault) ⊎ (result.fault ≡ CheckFault.Memory) }
{
    if !places {
        return Refusal::from(fault);
    }
    match place_in(alloc, app, certificate, &fault) {
        Ok(place) => Refusal { fault, place },
        Err(_) => Refusal::from(CheckFault::Memory),
    }
}

/// The fault of a file, and where `names` asks for it its path and why it can't be read or written.
pub fn refusal_of_file(alloc: Global, fault: &FileFault, names: bool) -> Refusal
    ensures { fault_status result.fault ≡ 3 }
{
    match fault {
        FileFault::Memory => Refusal::from(CheckFault::Memory),
        FileFault::Failed { .. } if !names => Refusal::from(CheckFault::File),
        FileFault::Failed { .. } => match file_place(alloc, fault) {
            Ok(place) => Refusal {
                fault: CheckFault::File,
                place: Some(place),
            },
            Err(_) => Refusal::from(CheckFault::Memory),
        },
    }
}

/// The fault of the source at this path, and where it is.
pub fn refusal_of_source(alloc: Global, path: &str, refused: Refused) -> Refusal
    ensures { 2 ≤ fault_status result.fault }
{
    let Refused::Source(message) = refused else {
        return Refusal::from(CheckFault::Memory);
    };
    match source_fault(alloc, path, &message) {
        Ok((fault, place)) => Refusal {
            fault,
            place: Some(place),
        },
        Err(_) => Refusal::from(CheckFault::Memory),
    }
}

/// The fault of outputs that aren't written.
pub fn refusal_of_outputs(alloc: Global, fault: &OutputFault, names: bool) -> Refusal
    ensures least { 2 ≤ fault_status result.fault }
    ensures refused { fault.now ≡ OutputFault.Refused → result.fault ≡ CheckFault.Out }
    ensures file { fault.now ≢ OutputFault.Refused → fault_status result.fault ≡ 3 }
{
    match fault {
        OutputFault::File(fault) => refusal_of_file(alloc, fault, names),
        OutputFault::Refused => Refusal::from(CheckFault::Out),
    }
}
