// Where in a certificate's text a value is.
ghost use Rattle.std.specs.Prelude.{◌≡◌, [], ◌∷◌, Some, IfOk};

use std::alloc::{AllocError, Global};
use std::fmt;
use std::marker::Model;

/// A step from a value of the text to one inside it.
#[derive(Debug, Drop)]
pub enum Step {
    Key(String),
    At(usize),
}

/// The steps from the whole text to a value. It is printed with a `/` between two steps.
#[derive(Debug, Drop)]
pub struct Path {
    steps: Vec<Step>,
}

impl Model for Path {
    ghost use Rattle.std.specs.Prelude.{List, map};
    ghost use Rattle.fr_cert.specs.Path.{PathStep, step_of};

    ghost Value = { List PathStep };

    ghost view = { λ p. map step_of p.steps.items };
}

impl Path {
    ghost use Rattle.std.specs.Prelude.{map};
    ghost use Rattle.fr_cert.specs.Path.{step_of};

    /// The whole text. Takes no memory.
    pub fn whole(alloc: Global) -> Path
        ensures { result ≡ [] }
    {
        Path {
            steps: Vec::new(alloc),
        }
    }

    /// The path of the same value, seen from one level further out, where `step` leads to what was the
    /// whole. Its error is that an allocation was refused.
    pub fn within(mut self, step: Step) -> Result<Path, AllocError>
        ensures { IfOk result (λ path. path ≡ step_of step ∷ self) }
    {
        self.steps.insert(0, step)?;
        Ok(self)
    }

    /// The steps, from the whole text inwards.
    pub fn steps(&self) -> &[Step]
        ensures { map step_of result.now ≡ self.now }
    {
        &self.steps
    }
}

impl fmt::Display for Step {
    ghost use Rattle.fr_cert.specs.Path.{step_of, step_text};

    ghost output = { λ step. Some (step_text (step_of step)) };

    fn fmt<W: fmt::Write>(&self, f: &mut fmt::Formatter<W>) -> fmt::Result {
        match self {
            Step::Key(name) => f.write_str(name.as_str()),
            Step::At(index) => write!(f, "{index}"),
        }
    }
}

impl fmt::Display for Path {
    ghost use Rattle.fr_cert.specs.Path.{path_text};

    ghost output = { λ path. Some (path_text path) };

    fn fmt<W: fmt::Write>(&self, f: &mut fmt::Formatter<W>) -> fmt::Result {
        let Some((first, rest)) = self.steps.split_first() else {
            return Ok(());
        };
        write!(f, "{first}")?;
        for step in rest {
            write!(f, "/{step}")?;
        }
        Ok(())
    }
}
