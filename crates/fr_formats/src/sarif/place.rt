// Places in files, and in words.
ghost use Rattle.std.specs.Prelude.{◌≡◌, ◌++◌, IfOk, OnOk, string_bytes};
ghost use Rattle.fr_formats.specs.Tokens.{maybe};
ghost use Rattle.fr_formats.specs.Sarif.{file_begins, file_location, file_of, location, named, point_location, point_words, range, region, region_of, said, uri_of, whole_line};

use crate::answer::PlaceShown;
use crate::piece::Piece::{Array, Field, Marks, Message, Number, Object};
use crate::piece::{Out, put};
use fr_escape::push_uri;
use std::alloc::{AllocError, Global};

/// The file at this path, as a URI: `file:` before one from the root on, and else relative.
#[tactic(auto, using(std::proofs::Common::append_assoc), unfolding(crate::specs::Sarif::uri_of))]
pub(super) fn file_uri(alloc: Global, path: &str) -> Result<String, AllocError>
    ensures { IfOk result (λ uri. string_bytes uri ≡ uri_of path.now) }
{
    let start = if path.starts_with("/") { "file://" } else { "" };
    let mut uri = String::from_str(alloc, start)?;
    push_uri(&mut uri, path)?;
    Ok(uri)
}

/// Appends the begin of a place in the file with this URI.
#[tactic(auto, using(std::proofs::Common::append_assoc), unfolding(crate::specs::Sarif::file_begins))]
fn put_uri(out: &mut Out, uri: &str) -> Result<(), AllocError>
    ensures { OnOk result (out.new.tokens ≡ out.old.tokens ++ file_begins uri.now) }
{
    put!(out; Marks("{"), Object("physicalLocation"), Object("artifactLocation"), Field("uri", uri),
        Marks("}"))
}

/// Appends the begin of a place in the file at this path.
fn begin_place(out: &mut Out, path: &str) -> Result<(), AllocError>
    ensures { OnOk result (out.new.tokens ≡ out.old.tokens ++ file_begins (uri_of path.now)) }
{
    let uri = file_uri(out.alloc, path)?;
    put_uri(out, &uri)
}

/// Appends the whole file at this path, or the line of it that is known.
#[tactic(auto, using(std::proofs::Common::append_assoc), unfolding(crate::specs::Sarif::file_location))]
pub(super) fn put_file(out: &mut Out, path: &str, line: Option<usize>) -> Result<(), AllocError>
    ensures { OnOk result (out.new.tokens ≡ out.old.tokens ++ file_location path.now line) }
{
    begin_place(out, path)?;
    put_known(out, line)?;
    put!(out; Marks("}}"))
}

/// Appends a place on a line of the file.
#[tactic(auto, using(std::proofs::Common::append_assoc), unfolding(crate::specs::Sarif::range))]
fn put_range(out: &mut Out, line: usize, start: usize, end: usize) -> Result<(), AllocError>
    ensures { OnOk result (out.new.tokens ≡ out.old.tokens ++ range line start end) }
{
    put!(out; Object("region"), Number("startLine", line), Number("startColumn", start),
        Number("endColumn", end), Marks("}"))
}

/// Appends a whole line of the file.
#[tactic(auto, using(std::proofs::Common::append_assoc), unfolding(crate::specs::Sarif::whole_line))]
fn put_line(out: &mut Out, line: usize) -> Result<(), AllocError>
    ensures { OnOk result (out.new.tokens ≡ out.old.tokens ++ whole_line line) }
{
    put!(out; Object("region"), Number("startLine", line), Marks("}"))
}

/// Appends a whole line of the file, if one is known.
fn put_known(out: &mut Out, line: Option<usize>) -> Result<(), AllocError>
    ensures { OnOk result (out.new.tokens ≡ out.old.tokens ++ maybe whole_line line) }
{
    match line {
        Some(line) => put_line(out, line),
        None => Ok(()),
    }
}

/// Appends where the line of code is in the application's file, if that is known.
fn put_code(out: &mut Out, place: &PlaceShown) -> Result<(), AllocError>
    ensures { OnOk result (out.new.tokens
        ≡ out.old.tokens ++ region place.now.line place.now.column place.now.length) }
{
    match (place.line, place.column, place.length) {
        (Some(line), Some(column), Some(length)) => {
            put_range(out, line, column, column.saturating_add(length))
        }
        _ => Ok(()),
    }
}

/// Appends where the point is in its file: the line of its source, where that is known, and else the line of code.
fn put_region(out: &mut Out, place: &PlaceShown) -> Result<(), AllocError>
    ensures { OnOk result (out.new.tokens ≡ out.old.tokens ++ region_of place.now.source place.now) }
{
    match &place.source {
        Some(source) => put_line(out, source.line),
        None => put_code(out, place),
    }
}

/// The file that the point is in: its source's, where that is known, and else the application's, at this path.
fn file_of<'a>(path: &'a str, place: &'a PlaceShown) -> &'a str
    ensures { result.now ≡ file_of path.now place.now.source }
{
    match &place.source {
        Some(source) => source.file.as_str(),
        None => path,
    }
}

/// The point in words.
#[tactic(auto, using(std::proofs::Common::append_assoc), unfolding(crate::specs::Sarif::point_words))]
pub(super) fn words_of(alloc: Global, place: &PlaceShown) -> Result<String, AllocError>
    ensures { IfOk result (λ words. string_bytes words ≡ point_words place.now) }
{
    let (actor, index, side) = (place.actor.as_str(), place.index, place.side.text());
    format!(in alloc; "{actor} {index} {side}")
}

/// Appends the names of an actor and of its point, after its place in the file.
#[tactic(auto, using(std::proofs::Common::append_assoc), unfolding(crate::specs::Sarif::named))]
fn put_named<'a>(out: &mut Out, actor: &'a str, words: &'a str) -> Result<(), AllocError>
    ensures { OnOk result (out.new.tokens ≡ out.old.tokens ++ named actor.now words.now) }
{
    put!(out; Marks("}"), Array("logicalLocations"), Marks("{"), Field("name", actor),
        Field("fullyQualifiedName", words), Field("kind", "function"), Marks("}]"))
}

/// Appends the names of a point, after its place in the file.
fn put_names(out: &mut Out, place: &PlaceShown) -> Result<(), AllocError>
    ensures { OnOk result (out.new.tokens
        ≡ out.old.tokens ++ named (string_bytes place.now.actor) (point_words place.now)) }
{
    let words = words_of(out.alloc, place)?;
    put_named(out, &place.actor, &words)
}

/// Appends what is said of a place; nothing where that is no text.
fn put_said(out: &mut Out, text: &str) -> Result<(), AllocError>
    ensures { OnOk result (out.new.tokens ≡ out.old.tokens ++ said text.now) }
{
    if text.is_empty() {
        return Ok(());
    }
    put!(out; Message("message", text))
}

/// Appends a point of the application in the file at this path, or of the source that this comes from, with what is said
/// of it.
#[tactic(auto, using(std::proofs::Common::append_assoc), unfolding(crate::specs::Sarif::point_location))]
pub(super) fn put_point(
    out: &mut Out,
    path: &str,
    place: &PlaceShown,
    text: &str,
) -> Result<(), AllocError>
    ensures { OnOk result (out.new.tokens
        ≡ out.old.tokens ++ point_location path.now place.now text.now) }
{
    begin_place(out, file_of(path, place))?;
    put_region(out, place)?;
    put_names(out, place)?;
    put_said(out, text)?;
    put!(out; Marks("}"))
}

/// Appends the point, or the whole file where none is known.
#[tactic(auto, using(std::proofs::Common::append_assoc), unfolding(crate::specs::Sarif::location))]
pub(super) fn put_location(
    out: &mut Out,
    path: &str,
    place: &Option<PlaceShown>,
) -> Result<(), AllocError>
    ensures { OnOk result (out.new.tokens ≡ out.old.tokens ++ location path.now place.now) }
{
    match place {
        Some(place) => put_point(out, path, place, ""),
        None => put_file(out, path, None),
    }
}
