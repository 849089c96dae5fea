// Points of an application as reports for machines show them.
ghost use Rattle.std.specs.Prelude.{◌≡◌, IfOk};
ghost use Rattle.fr_shown.specs.Shows.{IsPlaceIf, IsPlaceOf};

use fr_code::{CodePlace, CodeSource, places_of_code, source_texts, sources_of_code};
use fr_formats::{PlaceShown, SourceShown, WarningShown};
use fr_program::{App, Point};
use fr_warnings::Warning;
use fr_wording::{Sources, actor_name, line_of_code};
use std::alloc::{AllocError, Global};

/// Where the code of an application stands in its text, and in the source that it was translated from.
#[derive(Drop)]
pub(crate) struct Places<'a> {
    app: &'a App,
    code: Vec<Vec<CodePlace>>,
    sources: Vec<Vec<Option<CodeSource>>>,
}

impl<'a> Places<'a> {
    /// Those of this application, which is what the text means.
    pub(crate) fn build(alloc: Global, app: &'a App, text: &[u8]) -> Result<Places<'a>, AllocError>
        ensures { IfOk result (λ places. places.app.now ≡ app.now) }
    {
        let code = places_of_code(alloc, text)?;
        let sources = sources_of_code(alloc, text, &code)?;
        Ok(Places { app, code, sources })
    }

    /// The application.
    pub(super) fn app(&self) -> &'a App
        ensures { result.now ≡ self.now.app.now }
    {
        self.app
    }

    /// Where the line of code stands in the text.
    fn code_at(&self, point: Point) -> Option<CodePlace> {
        self.code.get(point.actor.0)?.get(point.pc).copied()
    }

    /// Where the line of code stands in the source.
    fn source_at(&self, alloc: Global, point: Point) -> Result<Option<SourceShown>, AllocError> {
        let Some(lines) = self.sources.get(point.actor.0) else {
            return Ok(None);
        };
        match lines.get(point.pc) {
            Some(Some(source)) => Ok(Some(SourceShown {
                file: String::from_str(alloc, &source.file)?,
                line: source.line,
            })),
            _ => Ok(None),
        }
    }

    /// The warning, with the place of its line.
    pub(crate) fn warned(
        &self,
        alloc: Global,
        warning: Warning,
    ) -> Result<WarningShown, AllocError> {
        let Warning { kind, text, point } = warning;
        let Some(point) = point else {
            return Ok(WarningShown {
                kind,
                text,
                file: None,
                line: None,
            });
        };
        match self.source_at(alloc, point)? {
            Some(SourceShown { file, line }) => Ok(WarningShown {
                kind,
                text: format!(in alloc; "{text}  # {file}:{line}")?,
                file: Some(file),
                line: Some(line),
            }),
            None => Ok(WarningShown {
                kind,
                text,
                file: None,
                line: self.code_at(point).map(|place| place.line),
            }),
        }
    }

    /// The places in the source, as texts.
    pub(super) fn sources(&self, alloc: Global) -> Result<Sources, AllocError> {
        Ok(Sources {
            places: source_texts(alloc, &self.sources)?,
        })
    }

    /// The point, with its line of code.
    pub(super) fn shown(&self, alloc: Global, point: Point) -> Result<PlaceShown, AllocError>
        ensures { IfOk result (IsPlaceOf self.now.app.now point) }
    {
        let at = self.code_at(point);
        Ok(PlaceShown {
            point: self.app.number(point).unwrap_or(0),
            actor: String::from_str(alloc, actor_name(self.app, point.actor))?,
            index: point.pc,
            side: point.side,
            code: line_of_code(alloc, self.app, point)?,
            line: at.map(|place| place.line),
            column: at.map(|place| place.column),
            length: at.map(|place| place.length),
            source: self.source_at(alloc, point)?,
        })
    }

    /// The point with its line of code, if there is one.
    pub(super) fn shown_if(
        &self,
        alloc: Global,
        point: Option<Point>,
    ) -> Result<Option<PlaceShown>, AllocError>
        ensures { IfOk result (IsPlaceIf self.now.app.now point) }
    {
        match point {
            Some(point) => Ok(Some(self.shown(alloc, point)?)),
            None => Ok(None),
        }
    }
}
