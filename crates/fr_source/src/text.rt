// The text of an application: its variables, its objects, and the code of its actors with a comment after each line.

use crate::expand::{Code, Line, Origin, caller};
use crate::fault::{Fault, wrong};
use crate::program::{Action, Actor, Argument, Arithmetic, Call, Operand, Owner, Program, Range};
use crate::renamed::names_of;
use crate::source::Source;
use crate::texts::{Word, filled, push_filled};
use std::alloc::{AllocError, Global};

/// The most bytes of an application.
const MOST_BYTES: usize = 1_048_576;

/// The most characters of the source's text in a comment.
const LONGEST_EXCERPT: usize = 70;

/// Writes the text of an application. `names` has the name of each variable there, by its place.
#[derive(Drop)]
struct Writer {
    alloc: Global,
    text: String,
    names: Vec<String>,
    /// Whether an allocation was refused, so that something is missing in the text.
    is_short: bool,
}

/// The text of an application.
pub(crate) fn text_of(
    alloc: Global,
    source: &Source<'_>,
    program: &Program,
    codes: &[Code],
) -> Result<String, Fault> {
    let form = "# Generated from % by fr_check translate: edit that file, not this one.\n";
    let names = names_of(alloc, program)?;
    let text = filled(alloc, form, &[Word::Text(source.file)])?;
    let is_short = false;
    let mut writer = Writer {
        alloc,
        text,
        names,
        is_short,
    };
    writer.application(program, source, codes)?;
    let Writer { text, is_short, .. } = writer;
    if is_short {
        Err(Fault::Memory)
    } else {
        Ok(text)
    }
}

/// The lines of an actor as text, and the length of the longest.
#[derive(Drop)]
struct Said {
    lines: Vec<String>,
    width: usize,
}

impl Writer {
    /// Writes a form, with its words in their places.
    fn write(&mut self, form: &str, words: &[Word<'_>]) {
        if push_filled(self.alloc, &mut self.text, form, words).is_err() {
            self.is_short = true;
        }
    }

    /// Writes the variables, the objects and the actors.
    fn application(
        &mut self,
        program: &Program,
        source: &Source<'_>,
        codes: &[Code],
    ) -> Result<(), Fault> {
        self.variables(program);
        self.objects(program);
        for (number, actor) in program.actors.iter().enumerate() {
            if let Some(code) = codes.get(number) {
                self.actor(program, source, *actor, code)?;
            }
        }
        Ok(())
    }

    /// Writes the variables.
    fn variables(&mut self, program: &Program) {
        for place in &program.written {
            let variable = program.variable(*place);
            let words = &[
                name_in(&self.names, *place),
                Word::Number(variable.range.low),
                Word::Number(variable.range.high),
                Word::Number(variable.first),
            ];
            let form = "\n[[variable]]\nname = \"%\"\nlo = %\nhi = %\ninit = %\n";
            if push_filled(self.alloc, &mut self.text, form, words).is_err() {
                self.is_short = true;
            }
            if let Owner::Actor(number) = variable.owner {
                let actor = program.actor_name(number);
                self.write("owner = \"%\"\n", &[Word::Text(actor)]);
            }
        }
    }

    /// Writes the objects.
    fn objects(&mut self, program: &Program) {
        for object in &program.objects {
            let name = Word::Text(program.text(object.name));
            let words = &[name, Word::Text(object.kind.text())];
            self.write("\n[[object]]\nname = \"%\"\nkind = \"%\"\n", words);
            if let Some(size) = object.size {
                self.write("size = %\n", &[Word::Number(size)]);
            }
            if let Some(Range { low, high }) = object.items {
                self.write("lo = %\nhi = %\n", &[Word::Number(low), Word::Number(high)]);
            }
            if let Some(first) = object.first {
                self.write("first = %\n", &[Word::Number(first)]);
            }
            let is_live = if object.is_live { "true" } else { "false" };
            self.write("live = %\n", &[Word::Text(is_live)]);
        }
    }

    /// Writes an actor with its code.
    fn actor(
        &mut self,
        program: &Program,
        source: &Source<'_>,
        actor: Actor,
        code: &Code,
    ) -> Result<(), Fault> {
        let said = self.lines_said(program, code)?;
        let name = Word::Text(program.text(actor.name));
        let words = &[name, Word::Text(actor.kind.text())];
        self.write("\n[[actor]]\nname = \"%\"\nkind = \"%\"\ncode = [\n", words);
        self.rows(program, source, code, &said);
        if self.text.len() > MOST_BYTES {
            return Err(wrong(self.alloc, actor.end, "the translation has more than 1 MiB"));
        }
        self.write("]\n", &[]);
        Ok(())
    }

    /// Writes the lines of an actor, each with its comment.
    fn rows(&mut self, program: &Program, source: &Source<'_>, code: &Code, said: &Said) {
        let (mut last_start, mut last_end) = (0usize, 0usize);
        for (number, line) in code.lines.iter().enumerate() {
            let text = match said.lines.get(number) {
                Some(text) => text.as_str(),
                None => "",
            };
            let words = &[
                Word::Text(text),
                Word::Blanks(said.width.saturating_sub(text.len())),
                Word::Count(number),
                Word::Blanks(usize::from(number < 10)),
            ];
            self.write("  %%  # %% ", words);
            let start = self.text.len();
            self.place(source, code, line.place);
            let end = self.text.len();
            if self.written(last_start, last_end) == self.written(start, end) {
                self.write("\n", &[]);
            } else {
                self.excerpt(program, source, line.place.spot.line);
            }
            (last_start, last_end) = (start, end);
        }
    }

    /// The lines of code, each as it is quoted in the application.
    fn lines_said(&self, program: &Program, code: &Code) -> Result<Said, AllocError> {
        let mut lines = Vec::new(self.alloc);
        let mut width = 0usize;
        for line in &code.lines {
            let quoted = self.line_said(program, *line)?;
            width = width.max(quoted.len());
            lines.push(quoted)?;
        }
        Ok(Said { lines, width })
    }

    /// A line of code in quotes, with a comma.
    fn line_said(&self, program: &Program, line: Line) -> Result<String, AllocError> {
        let target = line.to.unwrap_or(0);
        match line.action {
            Action::Set {
                variable,
                left,
                more,
            } => self.set_said(variable, left, more),
            Action::Pick { variable, range } => {
                let (low, high) = (Word::Number(range.low), Word::Number(range.high));
                let words = &[name_in(&self.names, variable), low, high];
                filled(self.alloc, "\"pick % % %\",", words)
            }
            Action::Call { answer, call } => (&*self).call_said(&*program, answer, call, line.to),
            Action::If {
                left,
                comparison,
                right,
            } => {
                let (left, right) = (self.operand(left), self.operand(right));
                let sign = Word::Text(comparison.text());
                let words = &[left, sign, right, Word::Count(target)];
                filled(self.alloc, "\"if % % % goto %\",", words)
            }
            Action::Goto => filled(self.alloc, "\"goto %\",", &[Word::Count(target)]),
            Action::Return | Action::End => String::from_str(self.alloc, "\"return\","),
        }
    }

    /// A line that sets a variable.
    fn set_said(
        &self,
        variable: usize,
        left: Operand,
        more: Option<(Arithmetic, Operand)>,
    ) -> Result<String, AllocError> {
        let (name, left) = (name_in(&self.names, variable), self.operand(left));
        match more {
            Some((sign, right)) => {
                let words = &[name, left, Word::Text(sign.text()), self.operand(right)];
                filled(self.alloc, "\"set % = % % %\",", words)
            }
            None => filled(self.alloc, "\"set % = %\",", &[name, left]),
        }
    }

    fn operand(&self, operand: Operand) -> Word<'_> {
        match operand {
            Operand::Variable(variable) => name_in(&self.names, variable),
            Operand::Number(number) => Word::Number(number),
        }
    }

    fn argument<'b>(&'b self, program: &'b Program, argument: Argument) -> Word<'b> {
        match argument {
            Argument::Absent => Word::Text(""),
            Argument::Object(place) => match program.objects.get(place) {
                Some(object) => Word::Text(program.text(object.name)),
                None => Word::Text(""),
            },
            Argument::Operand(operand) => self.operand(operand),
            Argument::Forever => Word::Text("portMAX_DELAY"),
            Argument::Null => Word::Text("NULL"),
        }
    }

    /// A call with its arguments, in quotes, with a comma.
    fn call_said<'b>(
        &'b self,
        program: &'b Program,
        answer: Option<usize>,
        call: Call,
        to: Option<usize>,
    ) -> Result<String, AllocError> {
        let kernel = call.kernel.row();
        let form = match kernel.slots.len() {
            0 | 1 => "\"%%%(%%%)%%\",",
            2 => "\"%%%(%, %%)%%\",",
            _ => "\"%%%(%, %, %)%%\",",
        };
        let (given, is) = match answer {
            Some(variable) => (name_in(&self.names, variable), " = "),
            None => (Word::Text(""), ""),
        };
        let (otherwise, target) = match to {
            Some(target) => (" else ", Word::Count(target)),
            None => ("", Word::Text("")),
        };
        let [first, second, third] = program.arguments(call);
        let words = &[
            given,
            Word::Text(is),
            Word::Text(kernel.name),
            self.argument(program, first),
            self.argument(program, second),
            self.argument(program, third),
            Word::Text(otherwise),
            target,
        ];
        filled(self.alloc, form, words)
    }

    /// What is written from `start` up to `end`, without the last one.
    fn written(&self, start: usize, end: usize) -> &str {
        self.text.as_str().get(start..end).unwrap_or("")
    }

    /// Writes where a line is in the source, and the lines that call the function that it is of, the innermost first.
    fn place(&mut self, source: &Source<'_>, code: &Code, place: Origin) {
        let words = &[Word::Text(source.file), Word::Count(place.spot.line)];
        self.write("%:%", words);
        let mut place = place;
        for _ in 0..code.calls.len() {
            let Some(outer) = caller(&code.calls, place) else {
                break;
            };
            self.write(" from %", &[Word::Count(outer.spot.line)]);
            place = outer;
        }
    }

    /// Writes the text of a line of the source.
    fn excerpt(&mut self, program: &Program, source: &Source<'_>, line: usize) {
        let Ok(shown) = source.excerpt(self.alloc, &program.pieces, line) else {
            self.is_short = true;
            return;
        };
        match shown.as_str().get(..LONGEST_EXCERPT - 3) {
            Some(cut) if shown.len() > LONGEST_EXCERPT => {
                self.write(": %...\n", &[Word::Text(cut)]);
            }
            _ => self.write(": %\n", &[Word::Text(shown.as_str())]),
        }
    }
}

/// The name of a variable among all names.
fn name_in(names: &[String], variable: usize) -> Word<'_> {
    match names.get(variable) {
        Some(name) => Word::Text(name.as_str()),
        None => Word::Text(""),
    }
}
