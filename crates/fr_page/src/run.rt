// A run as lanes, one an actor: time goes down, and bars run along a lane.
use crate::page::{ActorAfter, ActorShown, Doing, Moved, Page, RowShown, TrackKind, WaitShown};
use crate::writer::Writer;
use std::alloc::{AllocError, Global};

const RUN: &str = "<section>
<h2>The run</h2>
<p>Time goes down, and each actor with a step has a lane. A bar runs as long as its actor is in the critical section, has suspended
the scheduler or holds a mutex; a number on it is the depth.";

const EVENTS: &str = " A box with a dashed border is an event of the trace.";

const PLAYER: &str = "<div class='player' hidden>
<p><button type='button'>First</button> <button type='button'>Back</button> <button type='button'>Next</button>
<button type='button'>Last</button> <output aria-live='polite'></output> <small>or the keys &larr; and &rarr;</small></p>
<details open><summary>The state then</summary><div></div></details>
</div>
<details class='states'>
<summary>The state after each step</summary>
";

/// The lane of an actor, with the tracks of it that have a bar.
#[derive(Drop)]
struct Lane<'a> {
    number: usize,
    actor: &'a ActorShown,
    tracks: Vec<usize>,
}

/// How deep an actor is in what a track is about, after a step; 0 where there is no such step.
fn depth(steps: &[RowShown], step: Option<usize>, actor: usize, track: usize) -> u32 {
    let Some(step) = step.and_then(|step| steps.get(step)) else {
        return 0;
    };
    let Some(after) = step.after.get(actor) else {
        return 0;
    };
    after.depths.get(track).copied().unwrap_or(0)
}

/// Whether a bar is on the track somewhere in the run.
fn has_bar(steps: &[RowShown], actor: usize, track: usize) -> bool {
    for number in 0..steps.len() {
        if depth(steps, Some(number), actor, track) > 0 {
            return true;
        }
    }
    false
}

/// Whether the actor does something in a step, or after the last one.
fn does_something(steps: &[RowShown], actor: usize) -> bool {
    steps.iter().any(|step| match &step.moved {
        Some(moved) => moved.actor == actor,
        None => false,
    })
}

/// Whether the actor has a lane: it does something in the rows that are shown, or is deep in something after one of them.
fn has_lane(steps: &[RowShown], number: usize, actor: &ActorShown) -> bool {
    if does_something(steps, number) {
        return true;
    }
    for track in 0..actor.tracks.len() {
        if has_bar(steps, number, track) {
            return true;
        }
    }
    false
}

/// The lane of an actor.
fn lane_of<'a>(
    alloc: Global,
    steps: &[RowShown],
    number: usize,
    actor: &'a ActorShown,
) -> Result<Lane<'a>, AllocError> {
    let mut tracks = Vec::new(alloc);
    for track in 0..actor.tracks.len() {
        if has_bar(steps, number, track) {
            tracks.push(track)?;
        }
    }
    Ok(Lane {
        number,
        actor,
        tracks,
    })
}

/// The lanes of the actors that have one.
fn lanes_of<'a>(
    alloc: Global,
    actors: &'a [ActorShown],
    steps: &[RowShown],
) -> Result<Vec<Lane<'a>>, AllocError> {
    let mut lanes = Vec::new(alloc);
    for (number, actor) in actors.iter().enumerate() {
        if has_lane(steps, number, actor) {
            lanes.push(lane_of(alloc, steps, number, actor)?)?;
        }
    }
    Ok(lanes)
}

/// Writes the names of the actors that have no lane, folded; nothing where each has one.
fn put_still(
    page: &mut Writer,
    actors: &[ActorShown],
    steps: &[RowShown],
    still: usize,
) -> Result<(), AllocError> {
    if still == 0 {
        return Ok(());
    }
    page.markup("<details class='still'><summary>")?;
    page.number(still)?;
    page.markup(" more, without a step here</summary>\n<p>")?;
    for (number, actor) in actors.iter().enumerate() {
        if !has_lane(steps, number, actor) {
            page.between("<span>", actor.name.as_str(), "</span> ")?;
        }
    }
    page.markup("</p></details>\n")
}

/// What a bar looks like, by its class.
fn class_of(kind: TrackKind) -> &'static str {
    match kind {
        TrackKind::Critical => "critical",
        TrackKind::Suspended => "suspended",
        TrackKind::Held => "held",
    }
}

/// Writes what a bar of a lane means.
fn put_key(page: &mut Writer, lane: &Lane, track: usize) -> Result<(), AllocError> {
    let Some(track) = lane.actor.tracks.get(track) else {
        return Ok(());
    };
    page.markup("<span class='key'><i class='on ")?;
    page.markup(class_of(track.kind))?;
    page.between("'></i>", track.name.as_str(), "</span> ")
}

/// Writes the head of a lane: its actor, and what its bars mean.
fn put_lane_head(page: &mut Writer, lane: &Lane) -> Result<(), AllocError> {
    page.between("<th scope='col'><b>", lane.actor.name.as_str(), "</b> ")?;
    page.between("<small>", lane.actor.kind.as_str(), "</small><br>")?;
    for track in &lane.tracks {
        put_key(page, lane, *track)?;
    }
    page.markup("</th>\n")
}

/// Writes the part of a bar that is in the row of a step, with the depth where it changes.
fn put_bar(
    page: &mut Writer,
    steps: &[RowShown],
    step: usize,
    lane: &Lane,
    track: usize,
) -> Result<(), AllocError> {
    let depth_at = |step: Option<usize>| depth(steps, step, lane.number, track);
    let (before, now, next) = (
        depth_at(step.checked_sub(1)),
        depth_at(Some(step)),
        depth_at(step.checked_add(1)),
    );
    if now == 0 {
        return page.markup("<i></i>");
    }
    page.markup("<i class='on ")?;
    if let Some(track) = lane.actor.tracks.get(track) {
        page.markup(class_of(track.kind))?;
    }
    page.markup(if before == 0 { " first" } else { "" })?;
    page.markup(if next == 0 { " last" } else { "" })?;
    page.markup("'>")?;
    if now != before {
        page.number(now as usize)?;
    }
    page.markup("</i>")
}

/// The begin of an actor's box in a lane, up to the actor's name, which is shown only where many lanes are printed as a list.
fn box_of(doing: Doing) -> &'static str {
    match doing {
        Doing::Step => "<div class='does'><b>",
        Doing::Breach => { "<div class='does breaks'><strong>&#10007; breach</strong> <b>" }
        Doing::Wait => { "<div class='does breaks'><strong>&#10007; deadlock</strong> <b>" }
        Doing::Event => "<div class='does event'><b>",
    }
}

/// Writes what an actor with this name does in a step, or its event.
fn put_move(page: &mut Writer, name: &str, moved: &Moved) -> Result<(), AllocError> {
    page.between(box_of(moved.doing), name, "</b><code><span>")?;
    page.number(moved.line)?;
    page.between("</span> ", moved.code.as_str(), "</code>")?;
    page.between(" <small>", moved.choice.as_str(), "</small>")?;
    if !moved.change.is_empty() {
        page.between("<p>", moved.change.as_str(), "</p>")?;
    }
    page.markup("</div>")
}

/// Writes the cell of a lane in the row of a step.
fn put_cell(
    page: &mut Writer,
    steps: &[RowShown],
    number: usize,
    step: &RowShown,
    lane: &Lane,
) -> Result<(), AllocError> {
    page.markup("<td><div class='lane'>")?;
    for track in &lane.tracks {
        put_bar(page, steps, number, lane, *track)?;
    }
    match &step.moved {
        Some(moved) if moved.actor == lane.number => {
            put_move(page, lane.actor.name.as_str(), moved)?
        }
        _ => {}
    }
    page.markup("</div></td>\n")
}

/// Writes that rows are left out; nothing where none are.
fn put_gap(page: &mut Writer, omitted: usize, lanes: usize) -> Result<(), AllocError> {
    if omitted == 0 {
        return Ok(());
    }
    page.markup("<tr class='gap'><th></th><td colspan='")?;
    page.number(lanes)?;
    page.markup("'>")?;
    page.number(omitted)?;
    match omitted {
        1 => page.markup(" row is left out here</td></tr>\n"),
        _ => page.markup(" rows are left out here</td></tr>\n"),
    }
}

/// Writes the row of a step.
fn put_row(
    page: &mut Writer,
    steps: &[RowShown],
    number: usize,
    step: &RowShown,
    lanes: &[Lane],
) -> Result<(), AllocError> {
    put_gap(page, step.omitted, lanes.len())?;
    page.between(
        "<tr class='step'><th scope='row'>",
        step.name.as_str(),
        "</th>\n",
    )?;
    for lane in lanes {
        put_cell(page, steps, number, step, lane)?;
    }
    page.markup("</tr>\n")
}

/// Writes a cell that spans so many lanes and is empty; nothing where it spans none.
fn put_space(page: &mut Writer, lanes: usize) -> Result<(), AllocError> {
    if lanes == 0 {
        return Ok(());
    }
    page.markup("<td colspan='")?;
    page.number(lanes)?;
    page.markup("'></td>\n")
}

/// The place of an actor's lane among all of them, and the actor's name.
fn lane_with<'a>(lanes: &'a [Lane], number: usize) -> (usize, &'a str) {
    for (place, lane) in lanes.iter().enumerate() {
        if lane.number == number {
            return (place, lane.actor.name.as_str());
        }
    }
    (0, "")
}

/// The begin of the cell of an arrow, which points from one lane to another one, or to the same.
fn arrow_of(from: usize, to: usize) -> &'static str {
    if from < to {
        "<td class='right' colspan='"
    } else if from > to {
        "<td class='left' colspan='"
    } else {
        "<td class='own' colspan='"
    }
}

/// Writes an arrow from the lane of an actor to the lane of the one that holds the mutex that it waits for.
fn put_wait(page: &mut Writer, lanes: &[Lane], wait: &WaitShown) -> Result<(), AllocError> {
    let (from, actor) = lane_with(lanes, wait.actor);
    let (to, holder) = lane_with(lanes, wait.holder);
    let (first, end) = (from.min(to), from.max(to).saturating_add(1));
    page.markup("<tr class='wait'><th></th>\n")?;
    put_space(page, first)?;
    page.markup(arrow_of(from, to))?;
    page.number(end.saturating_sub(first))?;
    page.between("'><p>", actor, " waits for ")?;
    page.between("<b>", wait.mutex.as_str(), "</b>, held by ")?;
    page.between("", holder, "</p></td>\n")?;
    put_space(page, lanes.len().saturating_sub(end))?;
    page.markup("</tr>\n")
}

/// Writes where an actor is, and how deep in what.
fn put_after(page: &mut Writer, actor: &ActorShown, after: &ActorAfter) -> Result<(), AllocError> {
    page.between("<dt>", actor.name.as_str(), "</dt>")?;
    page.between("<dd><code>", after.place.as_str(), "</code>")?;
    for (track, depth) in actor.tracks.iter().zip(after.depths.iter()) {
        if *depth > 0 {
            page.between(" <span>", track.name.as_str(), "")?;
            page.markup(" &times;")?;
            page.number(*depth as usize)?;
            page.markup("</span>")?;
        }
    }
    page.markup("</dd>\n")
}

/// Writes the state behind a step.
fn put_state(page: &mut Writer, actors: &[ActorShown], step: &RowShown) -> Result<(), AllocError> {
    page.between(
        "<details><summary>",
        step.name.as_str(),
        "</summary>\n<dl>\n",
    )?;
    for (actor, after) in actors.iter().zip(step.after.iter()) {
        put_after(page, actor, after)?;
    }
    put_facts(page, &step.facts)?;
    page.markup("</dl></details>\n")
}

/// Writes what variables and objects are.
fn put_facts(page: &mut Writer, facts: &[String]) -> Result<(), AllocError> {
    page.markup("<dt>variables and objects</dt><dd>")?;
    page.each("<span>", facts, "</span> ")?;
    page.markup("</dd>\n")
}

/// Writes the cycle of the actors that wait for one another, an arrow in each row.
fn put_waits(page: &mut Writer, lanes: &[Lane], waits: &[WaitShown]) -> Result<(), AllocError> {
    for wait in waits {
        put_wait(page, lanes, wait)?;
    }
    Ok(())
}

/// Writes the lanes with a row for each step, and below them who waits for whom.
fn put_lanes(
    page: &mut Writer,
    steps: &[RowShown],
    lanes: &[Lane],
    waits: &[WaitShown],
) -> Result<(), AllocError> {
    page.markup("<div class='scroll'>\n<table class='lanes'>\n<thead><tr><th></th>\n")?;
    for lane in lanes {
        put_lane_head(page, lane)?;
    }
    page.markup("</tr></thead>\n<tbody>\n")?;
    for (number, step) in steps.iter().enumerate() {
        put_row(page, steps, number, step, lanes)?;
    }
    put_waits(page, lanes, waits)?;
    page.markup("</tbody>\n</table>\n</div>\n")
}

/// Whether an event of the trace stands among the steps.
fn has_event(steps: &[RowShown]) -> bool {
    steps.iter().any(|step| match &step.moved {
        Some(moved) => moved.doing == Doing::Event,
        None => false,
    })
}

/// Writes the run's heading, and below it what the lanes show.
fn put_run_head(page: &mut Writer, steps: &[RowShown]) -> Result<(), AllocError> {
    page.markup(RUN)?;
    if has_event(steps) {
        page.markup(EVENTS)?;
    }
    page.markup("</p>\n")
}

/// Writes the run of a page, and after it the state after each step.
pub fn put_run(alloc: Global, page: &mut Writer, shown: &Page) -> Result<(), AllocError> {
    let lanes = lanes_of(alloc, &shown.actors, &shown.steps)?;
    put_run_head(page, &shown.steps)?;
    put_lanes(page, &shown.steps, &lanes, &shown.waits)?;
    let still = shown.actors.len().saturating_sub(lanes.len());
    put_still(page, &shown.actors, &shown.steps, still)?;
    page.markup(PLAYER)?;
    for step in &shown.steps {
        put_state(page, &shown.actors, step)?;
    }
    page.markup("</details>\n</section>\n")
}
