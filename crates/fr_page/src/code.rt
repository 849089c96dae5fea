// The actors side by side, each line of code with its points.
ghost use Rattle.std.specs.Prelude.{◌≡◌, ◌++◌, OnOk, codes, string_bytes};
ghost use Rattle.fr_page.specs.Markup.{each};

use crate::page::{ActorShown, LineShown, PointShown, PointState, Reason};
use crate::writer::Writer;
use std::alloc::AllocError;

const NOTES: &str =
    "<p>Below each line are its points, with what the certificate's note says is so there.</p>\n";

/// The most actors that are all open, and the most where a point fails.
const MOST_OPEN: usize = 12;

const MOST_OPEN_BESIDE_FAILURES: usize = 4;

/// Writes what the note of a point says, an item for each alternative.
fn put_notes(page: &mut Writer, notes: &[String]) -> Result<(), AllocError>
    ensures { OnOk result (string_bytes page.new.out
        ≡ string_bytes page.old.out ++ each (codes "<span class='note'>") notes.now (codes "</span> ")) }
{
    page.each("<span class='note'>", notes, "</span> ")
}

/// Writes a line of an explanation, with what it is about before a colon.
fn put_reason(page: &mut Writer, reason: &Reason) -> Result<(), AllocError> {
    if reason.of.is_empty() {
        return page.between("<p>", &reason.said, "</p>\n");
    }
    page.between("<p><b>", &reason.of, ":</b> ")?;
    page.between("", &reason.said, "</p>\n")
}

/// Writes why a point fails; nothing where that isn't known.
fn put_explanation(page: &mut Writer, reasons: &[Reason]) -> Result<(), AllocError> {
    if reasons.is_empty() {
        return Ok(());
    }
    page.markup("<div class='why'>\n")?;
    for reason in reasons {
        put_reason(page, reason)?;
    }
    page.markup("</div>\n")
}

/// Writes how it is with a point.
fn put_standing(page: &mut Writer, point: &PointShown) -> Result<(), AllocError> {
    match &point.standing {
        PointState::Holds => put_notes(page, &point.notes),
        PointState::Never => page.markup("<span class='note'>never reached</span>"),
        PointState::Fails(why) => {
            put_notes(page, &point.notes)?;
            page.between(
                "<p><strong>&#10007; fails:</strong> ",
                why.as_str(),
                "</p>\n",
            )?;
            put_explanation(page, &point.explanation)
        }
    }
}

/// Writes a point, with an anchor of its own.
fn put_point(page: &mut Writer, point: &PointShown) -> Result<(), AllocError> {
    page.markup(match &point.standing {
        PointState::Holds => "<tr class='point' id='point-",
        PointState::Never => "<tr class='point never' id='point-",
        PointState::Fails(_) => "<tr class='point fails' id='point-",
    })?;
    page.number(point.number)?;
    page.markup("'><td></td><td><span class='where'>point ")?;
    page.number(point.number)?;
    page.between(" ", point.side.as_str(), ":</span> ")?;
    put_standing(page, point)?;
    page.markup("</td></tr>\n")
}

/// Writes a line of code with its points.
fn put_line(page: &mut Writer, line: &LineShown) -> Result<(), AllocError> {
    let is_reached = line
        .points
        .iter()
        .any(|point| !matches!(&point.standing, PointState::Never));
    if is_reached || line.points.is_empty() {
        page.markup("<tbody>\n<tr><th scope='row'>")?;
    } else {
        page.markup("<tbody class='never'>\n<tr><th scope='row'>")?;
    }
    page.number(line.number)?;
    page.between("</th><td><code>", line.code.as_str(), "</code></td></tr>\n")?;
    for point in &line.points {
        put_point(page, point)?;
    }
    page.markup("</tbody>\n")
}

/// Whether the point fails.
fn fails(point: &PointShown) -> bool {
    matches!(&point.standing, PointState::Fails(_))
}

/// Whether a point of the actor fails.
fn has_failure(actor: &ActorShown) -> bool {
    actor
        .lines
        .iter()
        .any(|line| line.points.iter().any(|point| fails(point)))
}

/// Writes a link to a point that fails.
fn put_link(
    page: &mut Writer,
    actor: &ActorShown,
    line: &LineShown,
    point: &PointShown,
) -> Result<(), AllocError> {
    page.markup("<li><a href='#point-")?;
    page.number(point.number)?;
    page.between("'>", actor.name.as_str(), " ")?;
    page.number(line.number)?;
    page.between(" ", point.side.as_str(), "</a>")?;
    if let PointState::Fails(why) = &point.standing {
        page.between(": ", why.as_str(), "")?;
    }
    page.markup("</li>\n")
}

/// Writes a link to each point of the line that fails.
fn put_links(page: &mut Writer, actor: &ActorShown, line: &LineShown) -> Result<(), AllocError> {
    for point in &line.points {
        if fails(point) {
            put_link(page, actor, line, point)?;
        }
    }
    Ok(())
}

/// Writes a link to each point of the actor that fails.
fn put_actor_links(page: &mut Writer, actor: &ActorShown) -> Result<(), AllocError> {
    for line in &actor.lines {
        put_links(page, actor, line)?;
    }
    Ok(())
}

/// Writes the list of the points that fail, with a link to each; nothing where none does.
fn put_failing(page: &mut Writer, actors: &[ActorShown]) -> Result<(), AllocError> {
    if !actors.iter().any(|actor| has_failure(actor)) {
        return Ok(());
    }
    page.markup("<ol class='failing'>\n")?;
    for actor in actors {
        put_actor_links(page, actor)?;
    }
    page.markup("</ol>\n")
}

/// Writes an actor with its code, which is folded unless it is to be open.
fn put_actor(page: &mut Writer, actor: &ActorShown, is_open: bool) -> Result<(), AllocError> {
    page.markup(if is_open {
        "<article>\n<details open><summary><h3>"
    } else {
        "<article>\n<details><summary><h3>"
    })?;
    page.between("", actor.name.as_str(), " <small>")?;
    page.between(
        "",
        actor.kind.as_str(),
        "</small></h3></summary>\n<table>\n",
    )?;
    for line in &actor.lines {
        put_line(page, line)?;
    }
    page.markup("</table>\n</details>\n</article>\n")
}

/// Whether actors without a point that fails are folded: where there are more than twelve actors, or more than four and a point fails.
fn are_folded(actors: &[ActorShown]) -> bool {
    let most = if actors.iter().any(|actor| has_failure(actor)) {
        MOST_OPEN_BESIDE_FAILURES
    } else {
        MOST_OPEN
    };
    actors.len() > most
}

/// Writes the actors side by side, open or folded.
fn put_actors(page: &mut Writer, actors: &[ActorShown]) -> Result<(), AllocError> {
    let folds = are_folded(actors);
    page.markup("<div class='actors' style='--count: ")?;
    page.number(actors.len())?;
    page.markup("'>\n")?;
    for actor in actors {
        put_actor(page, actor, !folds || has_failure(actor))?;
    }
    page.markup("</div>\n")
}

/// Writes all actors; nothing where there are none. Where notes are shown, a line says what they are, and points that fail are listed.
pub fn put_code(
    page: &mut Writer,
    actors: &[ActorShown],
    has_notes: bool,
) -> Result<(), AllocError> {
    if actors.is_empty() {
        return Ok(());
    }
    page.markup("<section>\n<h2>The code</h2>\n")?;
    if has_notes {
        page.markup(NOTES)?;
        put_failing(page, actors)?;
    }
    put_actors(page, actors)?;
    page.markup("</section>\n")
}
