// Reading a certificate's bytes.
ghost use Rattle.std.specs.Prelude.{◌≡◌, ℕ, List, IfOk, IfErr};
ghost use Rattle.serde_json.specs.View.{view, members_view};
ghost use Rattle.fr_program.specs.Program.{Program};
ghost use Rattle.fr_notes.specs.Fits.{NotesFit};
ghost use Rattle.fr_ends.specs.Certificate.{Certificate as CertificateOf};
ghost use Rattle.fr_ends.specs.Fits.{CertificateFits};
ghost use Rattle.fr_cert.specs.Shapes.{At, IsList};
ghost use Rattle.fr_cert.specs.Meaning.{IsVersion, AreNotes, IsCertificate, IsTree, IsTreeText, Means};
ghost use Rattle.fr_cert.specs.Faults.{Standing, InNeeded, InList};
ghost use Rattle.fr_cert.specs.Present.{InVersion, InNotes, InCertificate, InTree, InBytes, IsPresent};
ghost use Rattle.fr_cert.specs.declared.fault.CertFault.{CertFault as Refusal};

use crate::end::FitEnds;
use crate::fault::CertFault;
use crate::key::{Key, Keyed};
use crate::notes::notes_in;
use crate::reader::{Reader, needed};
use crate::scope::Scope;
use crate::tree::{departs_at, integer_in, known_keys, object_of, taken_at, within_key};
use fr_ends::Certificate;
use fr_instr::names_of;
use fr_notes::Notes;
use fr_program::App;
use serde_json::{Map, Value};
use std::alloc::Global;

/// The most bytes that a certificate has.
pub const MOST_CERTIFICATE_BYTES: usize = 16_777_216;

/// A version, 1 or 2.
struct Version;

impl Reader for Version {
    type Item = u8;

    ghost Seen = { ℕ };

    ghost seen = { λ version. version };

    ghost Means = { λ _ _. IsVersion };

    ghost Faults = { λ _ _. InVersion };

    fn read(&self, scope: &Scope, value: &Value) -> Result<u8, CertFault> {
        match integer_in(scope.alloc, value)? {
            1 => Ok(1),
            2 => Ok(2),
            _ => Err(CertFault::Version),
        }
    }
}

/// The notes that the object has to hold, in a version, taken out of it.
fn needed_notes(
    scope: &Scope,
    mut object: Map<String, Value>,
    version: u8,
) -> Result<Notes, CertFault>
    ensures ok { IfOk result
        (At Key.Notes (IsList (AreNotes scope.now version)) (members_view object.entries)) }
    ensures fits { IfOk result (λ notes. NotesFit scope.now notes) }
    ensures err { IfErr result
        (Standing (InNeeded Key.Notes (InList (InNotes scope.now version)) (members_view object.entries))) }
{
    let Some(value) = taken_at(&mut object, Key::Notes) else {
        return Err(departs_at(scope.alloc, Key::Notes.text()));
    };
    match notes_in(scope, version, value) {
        Ok(notes) => Ok(notes),
        Err(fault) => Err(within_key(scope.alloc, Key::Notes.text(), fault)),
    }
}

/// The certificate that the object means, key by key.
fn certificate_of(scope: &Scope, object: Map<String, Value>) -> Result<Certificate, CertFault>
    ensures ok { IfOk result (IsCertificate scope.now (members_view object.entries)) }
    ensures fits { IfOk result (CertificateFits scope.now) }
    ensures err { IfErr result
        (Standing (InCertificate scope.now (members_view object.entries))) }
{
    known_keys(scope.alloc, &object, Keyed::Certificate)?;
    let version = needed(scope, &object, Key::Version, &Version)?;
    let ends = needed(scope, &object, Key::Ends, &FitEnds)?;
    let notes = needed_notes(scope, object, version)?;
    Ok(Certificate { notes, ends })
}

/// The certificate that the value of the whole text means.
fn certificate_in(alloc: Global, app: &App, value: Value) -> Result<Certificate, CertFault>
    ensures ok { IfOk result (IsTree app.now (view value)) }
    ensures fits { IfOk result (CertificateFits app.now) }
    ensures err { IfErr result (Standing (InTree app.now (view value))) }
{
    let names = names_of(alloc, app)?;
    let scope = Scope {
        alloc,
        app,
        names: &names,
    };
    certificate_of(&scope, object_of(alloc, value)?)
}

/// The value that the bytes are the text of.
fn tree_of(alloc: Global, bytes: &[u8]) -> Result<Value, CertFault>
    ensures ok { IfOk result (λ tree. IsTreeText bytes.now (view tree)) }
    ensures err { IfErr result (Standing (InBytes bytes.now)) }
{
    if bytes.len() > MOST_CERTIFICATE_BYTES {
        return Err(CertFault::TooLong);
    }
    match Value::from_slice(alloc, bytes) {
        Ok(tree) => Ok(tree),
        Err(error) => Err(if error.is_memory() {
            CertFault::Memory
        } else {
            CertFault::Json
        }),
    }
}

/// The certificate that the bytes mean, for this application.
///
/// The bytes are a JSON text (RFC 8259), as the crate `serde_json` reads it, of at most 16,777,216
/// bytes, in version 1 or 2 of the format. `write_cert` can write it.
///
/// Its errors are those of `CertFault`: `Memory` where an allocation was refused, otherwise a fault
/// that is present in the bytes, which then mean no certificate. Of several, which one is named is
/// open.
pub fn read_cert(alloc: Global, app: &App, bytes: &[u8]) -> Result<Certificate, CertFault>
    ensures ok { IfOk result (Means app.now bytes.now) }
    ensures fits { IfOk result (CertificateFits app.now) }
    ensures err { IfErr result (Standing (IsPresent app.now bytes.now)) }
{
    let tree = tree_of(alloc, bytes)?;
    certificate_in(alloc, app, tree)
}

/// Bytes mean, for an application, one certificate at the most.
pub fn one_meaning()
    ensures { (P : Program) (bytes : List ℕ) (C D : CertificateOf) →
        Means P bytes C → Means P bytes D → C ≡ D }
{}

/// Bytes in which a fault is present mean no certificate.
pub fn no_meaning()
    ensures { (P : Program) (bytes : List ℕ) (f : Refusal) (C : CertificateOf) →
        IsPresent P bytes f → Means P bytes C → ⊥ }
{}
