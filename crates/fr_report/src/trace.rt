// The text of a trace.
ghost use Rattle.std.specs.Prelude.{◌≡◌, ◌++◌, IfOk, OnOk, codes, string_bytes};
ghost use Rattle.fr_report.specs.Trace.{entry_text, trace_text};

use fr_program::App;
use fr_runner::{Entry, Trace};
use fr_wording::actor_name;
use std::alloc::{AllocError, Global};

/// Appends the line of an entry, without its newline.
pub(crate) fn put_entry(text: &mut String, app: &App, entry: Entry) -> Result<(), AllocError>
    ensures { OnOk result
        (string_bytes text.new ++ codes "\n" ≡ string_bytes text.old ++ entry_text app.now entry) }
{
    match entry {
        Entry::Stepped(actor, choice) => {
            let name = actor_name(app, actor);
            write!(text, "{name} step {choice}")
        }
        Entry::Blocked(actor) => {
            let name = actor_name(app, actor);
            write!(text, "{name} blocked")
        }
    }
}

/// The lines of a trace of this application, one an entry, each with its newline: `<actor> step
/// <choice>` or `<actor> blocked`. An error says that an allocation was refused. The lines' form is
/// this project's own.
pub fn trace_text(alloc: Global, app: &App, trace: &Trace) -> Result<String, AllocError>
    ensures { IfOk result (λ text. string_bytes text ≡ trace_text app.now trace.now.entries.items) }
{
    let mut text = String::new(alloc);
    for entry in &trace.entries {
        put_entry(&mut text, app, *entry)?;
        text.push('\n')?;
    }
    Ok(text)
}
