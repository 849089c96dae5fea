// All warnings of an application.
use crate::critical::buffers_in_critical_sections;
use crate::mutexes::{held_while_waiting, never_given};
use crate::reached::never_reached;
use crate::updates::lost_updates;
use crate::uses::used_too_little;
use fr_formats::WarningKind;
use fr_notes::Notes;
use fr_program::{App, Point};
use fr_request::Warns;
use std::alloc::{AllocError, Global};

/// What an answer may hide.
#[derive(Drop)]
pub struct Warning {
    pub kind: WarningKind,
    /// The line that is printed.
    pub text: String,
    /// The point that it is about, the first of several.
    pub point: Option<Point>,
}

/// The warning for an application without actors.
const NO_ACTORS: &str = "warning: no task or interrupt is in this file";

/// Adds the warnings that rest on notes.
fn add_noted(
    alloc: Global,
    warnings: &mut Vec<Warning>,
    app: &App,
    notes: &Notes,
) -> Result<(), AllocError> {
    never_reached(alloc, app, notes, warnings)?;
    held_while_waiting(alloc, app, notes, warnings)?;
    never_given(alloc, app, notes, warnings)?;
    lost_updates(alloc, app, notes, warnings)?;
    buffers_in_critical_sections(alloc, app, notes, warnings)
}

/// Adds that the application has no actors, and where all warnings are asked for what the notes hint at, where there are notes, and
/// what is never used or used one way.
fn add_for(
    alloc: Global,
    warnings: &mut Vec<Warning>,
    app: &App,
    notes: Option<&Notes>,
    warns: Warns,
) -> Result<(), AllocError> {
    if app.actors().is_empty() {
        warnings.push(Warning {
            kind: WarningKind::NoActors,
            text: String::from_str(alloc, NO_ACTORS)?,
            point: None,
        })?;
    }
    if warns != Warns::OfAll {
        return Ok(());
    }
    if let Some(notes) = notes {
        add_noted(alloc, warnings, app, notes)?;
    }
    used_too_little(alloc, app, warnings)
}

/// The warnings for an application, as far as they are asked for, with these notes where a certificate has some. Its error is that an
/// allocation was refused.
pub fn warnings_for(
    alloc: Global,
    app: &App,
    notes: Option<&Notes>,
    warns: Warns,
) -> Result<Vec<Warning>, AllocError> {
    let mut warnings = Vec::new(alloc);
    if warns != Warns::Never {
        add_for(alloc, &mut warnings, app, notes, warns)?;
    }
    Ok(warnings)
}
