// What fails by a verdict, or isn't excluded, and where.
ghost use Rattle.std.specs.Prelude.{◌≡◌, IfOk, IsSomeAnd};
ghost use Rattle.fr_judge.specs.Told.{IsPartOf};
ghost use Rattle.fr_shown.specs.Names.{part_name as name_of_part};
ghost use Rattle.fr_shown.specs.Shows.{IsFailureAt, IsFailureBy, IsPossibleDeadlock, edge_point, other_point};

use super::places::Places;
use fr_formats::{Failure, PlaceShown, rule_name};
use fr_judge::{Part, Verdict};
use fr_order::{Edge, Order};
use fr_outcome::Judged;
use fr_program::{App, Point};
use fr_report::{order_line, part_text};
use fr_wording::Explained;
use std::alloc::{AllocError, Global};

/// The name of a part of a verdict: that of the rule, or a word, as `goes-to`. It never changes.
fn part_name(part: Part) -> &'static str
    ensures { result.now ≡ name_of_part part }
{
    match part {
        Part::Rule(rule) => rule_name(rule),
        Part::Entry => "entry",
        Part::Goes(_) => "goes-to",
        Part::Guard(_) => "guard",
        Part::Near(_) => "near",
        Part::Spoiled(_) => "spoiled-by",
    }
}

/// The point that a part names besides its own.
fn other_of(part: Part) -> Option<Point>
    ensures { result ≡ other_point part }
{
    match part {
        Part::Goes(point) | Part::Near(point) | Part::Spoiled(point) => Some(point),
        Part::Entry | Part::Rule(_) | Part::Guard(_) => None,
    }
}

/// What explains a verdict, in words: a line for each item.
fn words_of(alloc: Global, app: &App, items: &[Explained]) -> Result<String, AllocError> {
    let mut text = String::new(alloc);
    for item in items {
        if !text.is_empty() {
            text.push('\n')?;
        }
        text.push_str(&item.line(alloc, app)?.text(alloc)?)?;
    }
    Ok(text)
}

/// What fails at a point, with the state that shows it and the step from there.
fn failure_at(
    alloc: Global,
    places: &Places,
    point: Point,
    part: Part,
    items: &[Explained],
) -> Result<Failure, AllocError>
    requires { IsPartOf places.now.app.now part }
    ensures { IfOk result (IsFailureAt places.now.app.now point part) }
{
    let app = places.app();
    let step = items
        .iter()
        .position(|item| matches!(item, Explained::Step { .. }))
        .unwrap_or(items.len());
    let (state, step) = (
        words_of(alloc, app, &items[..step])?,
        words_of(alloc, app, &items[step..])?,
    );
    let text = part_text(alloc, app, part)?;
    let place = places.shown(alloc, point)?;
    let other = places.shown_if(alloc, other_of(part))?;
    Ok(Failure {
        rule: part_name(part),
        text,
        place: Some(place),
        other,
        state,
        step,
    })
}

/// The point of the edge with this number, if there is one.
fn point_of(edges: &[Edge], number: usize) -> Option<Point>
    ensures { result ≡ edge_point edges.now number }
{
    Some(edges.get(number)?.point)
}

/// The deadlock that a cycle of takes doesn't exclude, at the first two of them.
fn possible_deadlock(
    alloc: Global,
    places: &Places,
    order: &Order,
    edges: &[Edge],
) -> Result<Failure, AllocError>
    ensures { IfOk result (IsPossibleDeadlock places.now.app.now order.now edges.now) }
{
    let text = order_line(alloc, places.app(), order)?;
    let place = places.shown_if(alloc, point_of(edges, 0))?;
    let other = places.shown_if(alloc, point_of(edges, 1))?;
    Ok(Failure {
        rule: "may-deadlock",
        text,
        place,
        other,
        state: String::new(alloc),
        step: String::new(alloc),
    })
}

/// The deadlock that isn't excluded; None where there is no cycle of takes.
fn may_deadlock(
    alloc: Global,
    places: &Places,
    judged: &Judged,
) -> Result<Option<Failure>, AllocError>
    ensures { IfOk result (IsFailureBy places.now.app.now Verdict.Yes judged.now.waits) }
{
    match judged.waits() {
        Some(order) => match order {
            Order::Cycle(edges) => Ok(Some(possible_deadlock(alloc, places, order, edges)?)),
            Order::Upwards(_) => Ok(None),
        },
        None => Ok(None),
    }
}

/// What fails by the verdict, as far as it is explained, or a deadlock that isn't excluded; None where it is yes and neither is so.
pub(super) fn failure_of(
    alloc: Global,
    places: &Places,
    judged: &Judged,
) -> Result<Option<Failure>, AllocError>
    requires { places.now.app.now ≡ judged.now.app }
    ensures { IfOk result (IsFailureBy judged.now.app judged.now.verdict judged.now.waits) }
{
    judged.recall_verdict();
    let Verdict::No { point, part } = judged.verdict() else {
        return may_deadlock(alloc, places, judged);
    };
    match judged.why() {
        Some(why) => Ok(Some(failure_at(alloc, places, point, part, &why.items)?)),
        None => Ok(Some(failure_at(alloc, places, point, part, &[])?)),
    }
}
