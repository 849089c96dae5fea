// Where a fault is, in lines that can be shown.
ghost use Rattle.std.specs.Prelude.{◌≡◌, ◌++◌, [], ◌∷◌, IfOk, OnOk, map, string_bytes};
ghost use Rattle.fr_escape.specs.Location.{IsPlaceLine, place_line};

use crate::plain::push_plain;
use std::alloc::{AllocError, Global};
use std::marker::Model;

/// The lines that say where a fault is. Each begins with two blanks, so that none looks like an answer, and nothing in one steers a
/// terminal.
#[derive(Drop)]
pub struct Location {
    lines: Vec<String>,
}

impl Model for Location {
    ghost use Rattle.std.specs.Prelude.{All, List, String, string_bytes};
    ghost use Rattle.std.specs.declared.alloc.Global.{Global};
    ghost use Rattle.fr_escape.specs.Location.{IsPlaceLine};

    ghost Value = { List (String Global) };

    ghost view = { λ p. p.lines.items };

    ghost invariant = { λ p. All (λ line. IsPlaceLine (string_bytes line)) p.lines.items };
}

impl Location {
    /// No line.
    fn new(alloc: Global) -> Location
        ensures { result ≡ [] }
    {
        Location {
            lines: Vec::new(alloc),
        }
    }

    /// Adds a line.
    fn add(&mut self, line: String) -> Result<(), AllocError>
        requires { IsPlaceLine (string_bytes line) }
        ensures { OnOk result (self.new ≡ self.old ++ line ∷ []) }
    {
        self.lines.push(line)?;
        Ok(())
    }

    /// The lines, without their newlines.
    pub fn lines(&self) -> &[String]
        ensures { result.now ≡ self.now }
    {
        self.lines.as_slice()
    }
}

/// The text as a line of a place, with what would steer a terminal written as in a literal.
fn line_of(alloc: Global, text: &str) -> Result<String, AllocError>
    ensures { IfOk result (λ line. string_bytes line ≡ place_line text.now) }
{
    let mut line = String::from_str(alloc, "  ")?;
    push_plain(&mut line, text)?;
    Ok(line)
}

/// The texts as the lines of a place, in order, with what would steer a terminal written as in a literal. Its error is that an allocation
/// was refused.
pub fn place_of_texts(alloc: Global, texts: &[String]) -> Result<Location, AllocError>
    ensures { IfOk result (λ place. map (λ line. string_bytes line) place ≡ map (λ text. place_line (string_bytes text)) texts.now) }
{
    let mut place = Location::new(alloc);
    for text in texts {
        place.add(line_of(alloc, text)?)?;
    }
    Ok(place)
}
