// Where an actor is, and the line that tells it.
ghost use Rattle.std.specs.Prelude.{◌≡◌, ◌++◌, IfOk, OnOk, string_bytes};
ghost use Rattle.fr_wording.specs.Standings.{at_text, standing_text};

use crate::shown::actor_name;
use crate::sources::put_source;
use fr_program::{ActorId, App, Point};
use std::alloc::{AllocError, Global};

/// Where an actor is.
#[derive(Drop)]
pub struct Standing {
    pub actor: ActorId,
    /// The point at which it is; None where it is done.
    pub point: Option<Point>,
    /// The line of code there.
    pub code: String,
    /// Where that line is in the source that the application was translated from; empty where it isn't known.
    pub source: String,
}

/// A line that explains, without blanks before it: what it tells of, which is empty where the line is a sentence, and
/// what it says of that.
#[derive(Drop)]
pub struct Line {
    pub of: String,
    pub said: String,
}

impl Standing {
    /// Appends where the actor is, with the line of code.
    fn put(&self, text: &mut String, app: &App) -> Result<(), AllocError>
        ensures { OnOk result (string_bytes text.new ≡ string_bytes text.old ++ at_text app.now self.now) }
    {
        let name = actor_name(app, self.actor);
        match self.point {
            Some(Point { pc, side, .. }) => {
                write!(text, "{name} {pc} {}: {}", side.text(), self.code)
            }
            None => write!(text, "{name} is done"),
        }
    }

    /// The whole line that says it; where it is explained, with the place in the source. An error says that an allocation was refused.
    pub fn text(&self, alloc: Global, app: &App, explains: bool) -> Result<String, AllocError>
        ensures { IfOk result (λ text. string_bytes text ≡ standing_text explains app.now self.now) }
    {
        let mut text = String::new(alloc);
        self.put(&mut text, app)?;
        if explains {
            put_source(&mut text, &self.source)?;
        }
        Ok(text)
    }

    /// The line of code, with its place in the source. An error says that an allocation was refused.
    pub fn code_text(&self, alloc: Global) -> Result<String, AllocError> {
        let mut text = String::from_str(alloc, &self.code)?;
        put_source(&mut text, &self.source)?;
        Ok(text)
    }

    /// Where the actor is, behind a word, without the line of code.
    fn place_text(&self, alloc: Global, app: &App, word: &str) -> Result<String, AllocError> {
        let name = actor_name(app, self.actor);
        match self.point {
            Some(Point { pc, side, .. }) => {
                format!(in alloc; "{word}{name} {pc} {}", side.text())
            }
            None => format!(in alloc; "{word}{name} is done"),
        }
    }

    /// The line that tells it, behind a word. An error says that an allocation was refused.
    pub fn line(&self, alloc: Global, app: &App, word: &str) -> Result<Line, AllocError> {
        let place = self.place_text(alloc, app, word)?;
        let (of, said) = match self.point {
            Some(_) => (place, self.code_text(alloc)?),
            None => (String::new(alloc), place),
        };
        Ok(Line { of, said })
    }
}

impl Line {
    /// Appends the whole line.
    fn put(&self, text: &mut String) -> Result<(), AllocError> {
        if !self.of.is_empty() {
            text.push_str(&self.of)?;
            text.push_str(": ")?;
        }
        text.push_str(&self.said)
    }

    /// The whole line behind a text. An error says that an allocation was refused.
    pub fn behind(&self, alloc: Global, before: &str) -> Result<String, AllocError> {
        let mut text = String::from_str(alloc, before)?;
        self.put(&mut text)?;
        Ok(text)
    }

    /// The whole line: both parts with a colon between them, or the second one alone.
    pub fn text(&self, alloc: Global) -> Result<String, AllocError> {
        self.behind(alloc, "")
    }
}
