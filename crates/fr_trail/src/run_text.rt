// The text of a run that was found for a trace.
ghost use Rattle.std.specs.Prelude.{◌≡◌, ◌++◌, ℕ, List, IfOk, OnOk, string_bytes};
ghost use Rattle.fr_trail.specs.Runs.{IsItemLine, IsRunText};

use fr_escape::push_plain;
use fr_events::{Event, Trace};
use fr_explained::Item;
use fr_program::App;
use fr_wording::actor_name;
use std::alloc::{AllocError, Global};
use std::str::Lines;

/// Appends the line of an item: a step as `run` prints it, and an event, which has this line in the trace, as a comment.
fn put_item(text: &mut String, app: &App, item: Item, line: &str) -> Result<(), AllocError>
    ensures { OnOk result ((line : List ℕ) × IsItemLine app.now item line × (string_bytes text.new ≡ string_bytes text.old ++ line)) }
{
    match item {
        Item::Step(step) => {
            let (name, choice) = (actor_name(app, step.actor), step.choice);
            write!(text, "{name} step {choice}\n")
        }
        Item::Event => {
            text.push_str("  # ")?;
            push_plain(text, line.trim())?;
            text.push_str("\n")
        }
    }
}

/// The line of the next event, after so many lines of the trace.
pub(crate) fn next_line<'a>(
    lines: &mut Lines<'a>,
    passed: &mut usize,
    event: Option<&Event>,
) -> &'a str {
    let Some(event) = event else {
        return "";
    };
    let left_out = event.line.saturating_sub(*passed).saturating_sub(1);
    *passed = event.line;
    lines.nth(left_out).unwrap_or("")
}

/// The lines of a run, in its order: each step as `run` prints it, and the events of its trace between them as comments.
pub(crate) fn run_text(
    alloc: Global,
    app: &App,
    bytes: &[u8],
    trace: &Trace,
    run: &[Item],
) -> Result<String, AllocError>
    ensures { IfOk result (λ text. IsRunText app.now run.now (string_bytes text)) }
{
    let (mut lines, mut passed) = (str::from_utf8(bytes).unwrap_or("").lines(), 0usize);
    let (mut events, mut text) = (trace.events.iter(), String::new(alloc));
    for item in run {
        let line = match item {
            Item::Step(_) => "",
            Item::Event => next_line(&mut lines, &mut passed, events.next()),
        };
        put_item(&mut text, app, *item, line)?;
    }
    Ok(text)
}
