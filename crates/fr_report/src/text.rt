// The report of a verdict.
ghost use Rattle.std.specs.Prelude.{◌≡◌, ◌++◌, IfOk, OnOk, string_bytes};
ghost use Rattle.fr_program.specs.Lookup.{IsPoint};
ghost use Rattle.fr_judge.specs.Told.{Speaks, IsPartOf};
ghost use Rattle.fr_report.specs.Report.{part_text, report_text, verdict_text};
ghost use Rattle.fr_wording.specs.Names.{point_text};

use fr_judge::{Part, Verdict};
use fr_program::{App, Point};
use fr_wording::{actor_name, number_of, object_name, rule_text};
use std::alloc::{AllocError, Global};

/// The line of the verdict, with its newline: `yes`, or `no`, the first failing point and
/// what fails there. The verdict is one on this application. An error says that an allocation was
/// refused. The line's form is this project's own.
pub fn report(alloc: Global, app: &App, verdict: &Verdict) -> Result<String, AllocError>
    requires { Speaks app.now verdict.now }
    ensures { IfOk result (λ text. string_bytes text ≡ report_text app.now verdict.now) }
{
    let mut text = verdict_line(alloc, app, *verdict)?;
    text.push('\n')?;
    Ok(text)
}

/// The line of the verdict, without its newline. It is the report's where the verdict is one on this
/// application. An error says that an allocation was refused.
pub fn verdict_line(alloc: Global, app: &App, verdict: Verdict) -> Result<String, AllocError>
    ensures { Speaks app.now verdict → IfOk result
        (λ line. string_bytes line ≡ verdict_text app.now verdict) }
{
    match verdict {
        Verdict::Yes => String::from_str(alloc, "yes"),
        Verdict::No { point, part } => no_line(alloc, app, point, part),
    }
}

/// The line of a verdict that is no.
fn no_line(alloc: Global, app: &App, point: Point, part: Part) -> Result<String, AllocError>
    ensures { Speaks app.now (Verdict.No point part) → IfOk result
        (λ line. string_bytes line ≡ verdict_text app.now (Verdict.No point part)) }
{
    let mut text = String::new(alloc);
    put_point(&mut text, app, "no: ", point)?;
    text.push_str(": ")?;
    put_part(&mut text, app, part)?;
    Ok(text)
}

/// The text of a part that fails. It is the one that a report has where the part is one on this application. An error
/// says that an allocation was refused.
pub fn part_text(alloc: Global, app: &App, part: Part) -> Result<String, AllocError>
    ensures { IsPartOf app.now part → IfOk result
        (λ text. string_bytes text ≡ part_text app.now part) }
{
    let mut text = String::new(alloc);
    put_part(&mut text, app, part)?;
    Ok(text)
}

/// Appends the text of a part that fails.
fn put_part(text: &mut String, app: &App, part: Part) -> Result<(), AllocError>
    ensures { IsPartOf app.now part → OnOk result
        (string_bytes text.new ≡ string_bytes text.old ++ part_text app.now part) }
{
    match part {
        Part::Entry => text.push_str("entry"),
        Part::Rule(rule) => {
            let (number, said) = (rule.number(), rule_text(rule));
            write!(text, "rule {number}: {said}")
        }
        Part::Goes(point) => put_point(text, app, "goes to ", point),
        Part::Guard(end) => {
            let (buffer, side) = (object_name(app, end.buffer), end.end.text());
            write!(text, "guard {buffer} {side}")
        }
        Part::Near(point) => put_point(text, app, "near ", point),
        Part::Spoiled(point) => put_point(text, app, "spoiled by ", point),
    }
}

/// Appends a text, and behind it a point with its number and its actor's name; a point that isn't this application's has the
/// number 0.
fn put_point(text: &mut String, app: &App, before: &str, point: Point) -> Result<(), AllocError>
    ensures { IsPoint app.now point → OnOk result
        (string_bytes text.new ≡ string_bytes text.old ++ (before.now ++ point_text app.now point)) }
{
    let (number, actor) = (number_of(app, point), actor_name(app, point.actor));
    let (pc, side) = (point.pc, point.side.text());
    write!(text, "{before}point {number} ({actor} {pc} {side})")
}
