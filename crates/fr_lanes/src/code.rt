// The lines of code as a page shows them: as they stand in the application's text.
use fr_code::{lines_of_code, places_in_source};
use fr_escape::push_plain;
use fr_program::{App, Point};
use fr_wording::{Explained, Sources, line_of_code};
use std::alloc::{AllocError, Global};

/// The lines of code of an application.
#[derive(Drop)]
pub struct Code {
    /// As they stand in the text, for each actor in order.
    lines: Vec<Vec<String>>,
    /// Where they are in the source that the application was translated from.
    pub sources: Sources,
}

impl Code {
    /// The lines of the application with this text.
    pub fn of(alloc: Global, text: &[u8]) -> Result<Code, AllocError> {
        Ok(Code {
            lines: lines_of_code(alloc, text)?,
            sources: Sources {
                places: places_in_source(alloc, text)?,
            },
        })
    }

    /// The line at a point, as it stands in the text; None where the text has no such line.
    fn at(&self, point: Point) -> Option<&str> {
        Some(self.lines.get(point.actor.0)?.get(point.pc)?.as_str())
    }

    /// The line at a point. Its error is that an allocation was refused.
    pub fn line(&self, alloc: Global, app: &App, point: Point) -> Result<String, AllocError> {
        match self.at(point) {
            Some(line) => String::from_str(alloc, line),
            None => line_of_code(alloc, app, point),
        }
    }

    /// The same, with its place in the source where that is known.
    pub(crate) fn shown(
        &self,
        alloc: Global,
        app: &App,
        point: Point,
    ) -> Result<String, AllocError> {
        let (mut line, place) = (self.line(alloc, app, point)?, self.sources.at(point));
        if !place.is_empty() {
            line.push_str("  # ")?;
            push_plain(&mut line, place)?;
        }
        Ok(line)
    }

    /// Puts the line as it stands in the text into what explains a verdict. Its error is that an allocation was refused.
    pub fn put_into(&self, alloc: Global, item: &mut Explained) -> Result<(), AllocError> {
        if let Explained::Place(at)
        | Explained::Then(at)
        | Explained::Beside(at)
        | Explained::Named { at, .. } = item
            && let Some(point) = at.point
            && let Some(line) = self.at(point)
        {
            at.code = String::from_str(alloc, line)?;
        }
        Ok(())
    }
}
