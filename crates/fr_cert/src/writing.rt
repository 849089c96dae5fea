// Writing a certificate.
ghost use Rattle.std.specs.Prelude.{◌≡◌, ◌≤◌, IfOk, length, nat_le, string_bytes};
ghost use Rattle.std.specs.List.{list_all};
ghost use Rattle.serde_json.specs.View.{view};
ghost use Rattle.fr_ends.specs.Fits.{CertificateFits};
ghost use Rattle.fr_cert.specs.Written.{version_of, cert_tree, cert_text};
ghost use Rattle.fr_cert.specs.Meaning.{Means, most_bytes};

use crate::key::Key;
use crate::written_ends::ends_value;
use crate::written_notes::notes_value;
use fr_ends::Certificate;
use fr_notes::Notes;
use fr_program::App;
use serde_json::{Map, Value, put};
use std::alloc::{AllocError, Global};

/// Whether each note has one alternative at the most.
fn are_short(notes: &Notes) -> bool
    ensures { result ≡ list_all (λ note. nat_le (length note) 1) notes.now }
{
    for number in 0..notes.len() {
        if notes.note(number).alternatives().len() > 1 {
            return false;
        }
    }
    true
}

/// The version in which the notes can be written: 1 where each has one alternative at the most.
fn version_of(notes: &Notes) -> u8
    ensures { result ≡ version_of notes.now }
{
    if are_short(notes) { 1 } else { 2 }
}

/// The object of the whole certificate.
fn cert_value(alloc: Global, app: &App, certificate: &Certificate) -> Result<Value, AllocError>
    requires { CertificateFits app.now certificate.now }
    ensures { IfOk result (λ v. view v ≡ cert_tree app.now certificate.now) }
{
    let ends = ends_value(alloc, app, &certificate.ends)?;
    let notes = notes_value(alloc, app, &certificate.notes)?;
    let version = version_of(&certificate.notes);
    let mut object = Map::new(alloc);
    put(&mut object, alloc, Key::Ends.text(), Value::Array(ends))?;
    put(&mut object, alloc, Key::Notes.text(), Value::Array(notes))?;
    put(
        &mut object,
        alloc,
        Key::Version.text(),
        Value::from(version),
    )?;
    Ok(Value::Object(object))
}

/// The text of a certificate that fits the application: compact JSON with its keys in the order of
/// their bytes. It is of version 1 where each note has one alternative at the most, else of version 2.
/// A note has only the keys that aren't at their default: a mutex that it holds isn't listed as live
/// again, and a range that is the declared one isn't written. A text of no more bytes than a reader
/// takes means the certificate again.
///
/// Its error is that an allocation was refused. The form of the text is this project's own.
pub fn write_cert(alloc: Global, app: &App, certificate: &Certificate) -> Result<String, AllocError>
    requires { CertificateFits app.now certificate.now }
    ensures written { IfOk result (λ s. string_bytes s ≡ cert_text app.now certificate.now) }
    ensures again { IfOk result (λ s. length (string_bytes s) ≤ most_bytes
        → Means app.now (string_bytes s) certificate.now) }
{
    app.recall_faultless();
    let value = cert_value(alloc, app, certificate)?;
    value.to_string(alloc)
}
