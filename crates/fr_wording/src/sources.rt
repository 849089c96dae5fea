// Where lines of code are in the source that an application was translated from.
ghost use Rattle.std.specs.Prelude.{◌≡◌, ◌++◌, [], OnOk, string_bytes};
ghost use Rattle.fr_wording.specs.Sources.{source_at, source_text};

use fr_escape::push_plain;
use fr_program::Point;
use std::alloc::{AllocError, Global};

/// Where lines of code are in the source that an application was translated from: for each actor, in order, the place of each of its
/// lines, as `uart.frc:12`. A place that isn't known is empty, or isn't there.
#[derive(Drop)]
pub struct Sources {
    pub places: Vec<Vec<String>>,
}

impl Sources {
    /// No places: the application wasn't translated from a source.
    pub fn none(alloc: Global) -> Sources
        ensures { result.places.items ≡ [] }
    {
        Sources {
            places: Vec::new(alloc),
        }
    }

    /// The place of the line of code at a point; empty where it isn't known.
    pub fn at(&self, point: Point) -> &str
        ensures { result.now ≡ source_at self.now point }
    {
        match self.places.get(point.actor.0) {
            Some(lines) => match lines.get(point.pc) {
                Some(place) => place.as_str(),
                None => "",
            },
            None => "",
        }
    }
}

/// Appends the place of a line in its source, after the line, as a comment; nothing where it isn't known. Its error is that an allocation was
/// refused.
pub fn put_source(text: &mut String, place: &str) -> Result<(), AllocError>
    ensures { OnOk result (string_bytes text.new ≡ string_bytes text.old ++ source_text place.now) }
{
    if place.is_empty() {
        return Ok(());
    }
    text.push_str("  # ")?;
    push_plain(text, place)
}
