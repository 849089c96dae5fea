// The listing of an application's points.
ghost use Rattle.std.specs.Prelude.{◌≡◌, ◌++◌, IfOk, OnOk, string_bytes};
ghost use Rattle.fr_program.specs.Lookup.{IsPoint};
ghost use Rattle.fr_instr.specs.AppNames.{names_in};
ghost use Rattle.fr_wording.specs.Listing.{code_text, listed_text, points_text};

use crate::shown::{actor_name, number_of};
use crate::sources::{Sources, put_source};
use fr_instr::{Names, names_of, write_line};
use fr_program::{App, Point};
use std::alloc::{AllocError, Global};
use std::mem::drop;

/// The line of code at a point.
pub(crate) fn code_text(
    alloc: Global,
    app: &App,
    names: &Names,
    point: Point,
) -> Result<String, AllocError>
    requires { names.now ≡ names_in app.now }
    ensures { IfOk result (λ text. string_bytes text ≡ code_text app.now point) }
{
    app.recall_faultless();
    match app.instr(point) {
        Some(instr) => write_line(alloc, instr, names),
        None => Ok(String::new(alloc)),
    }
}

/// The line of code at a point, as `write_line` writes it. An error says that an allocation was refused.
pub fn line_of_code(alloc: Global, app: &App, point: Point) -> Result<String, AllocError>
    ensures { IfOk result (λ text. string_bytes text ≡ code_text app.now point) }
{
    let names = names_of(alloc, app)?;
    let code = code_text(alloc, app, &names, point);
    drop(names);
    code
}

/// Appends the line of a point, with this line of code.
fn put_code(
    text: &mut String,
    app: &App,
    sources: &Sources,
    point: Point,
    code: &str,
) -> Result<(), AllocError>
    requires point { IsPoint app.now point }
    requires code { code.now ≡ code_text app.now point }
    ensures { OnOk result (string_bytes text.new ≡ string_bytes text.old ++ listed_text sources.now app.now point) }
{
    let (number, actor) = (number_of(app, point), actor_name(app, point.actor));
    let (pc, side) = (point.pc, point.side.text());
    write!(text, "{number} {actor} {pc} {side} {code}")?;
    put_source(text, sources.at(point))?;
    text.push_str("\n")
}

/// Appends the line of a point.
fn put_point(
    alloc: Global,
    text: &mut String,
    app: &App,
    sources: &Sources,
    names: &Names,
    point: Point,
) -> Result<(), AllocError>
    requires names { names.now ≡ names_in app.now }
    requires point { IsPoint app.now point }
    ensures { OnOk result (string_bytes text.new ≡ string_bytes text.old ++ listed_text sources.now app.now point) }
{
    let code = code_text(alloc, app, names, point)?;
    put_code(text, app, sources, point, &code)
}

/// The lines of all points, with these names.
fn points_named(
    alloc: Global,
    app: &App,
    sources: &Sources,
    names: &Names,
) -> Result<String, AllocError>
    requires { names.now ≡ names_in app.now }
    ensures { IfOk result (λ text. string_bytes text ≡ points_text sources.now app.now) }
{
    app.recall_numbered();
    let mut text = String::new(alloc);
    for number in 0..app.points() {
        put_point(alloc, &mut text, app, sources, names, app.point(number))?;
    }
    Ok(text)
}

/// The lines of the points of this application, in the order of their numbers, each with its newline:
/// `<number> <actor> <instruction> <side> <line>`. The instruction is given by its place in the
/// actor's code, from 0, the side is `before` or `inside`, and the line is as `write_line` writes it. Where a line's place in a source
/// is known, it follows as a comment: `  # uart.frc:12`.
/// An application with no actor has no point, and the text is empty. An error says that an
/// allocation was refused. The lines' form is this project's own.
pub fn points_text(alloc: Global, app: &App, sources: &Sources) -> Result<String, AllocError>
    ensures { IfOk result (λ text. string_bytes text ≡ points_text sources.now app.now) }
{
    let names = names_of(alloc, app)?;
    let text = points_named(alloc, app, sources, &names);
    drop(names);
    text
}
