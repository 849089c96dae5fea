// Bodies with parameters. Such a body is no actor: it is noted and passed by. Each actor that is made of it reads its
// tokens anew, with a value for each parameter.

use crate::fault::Fault;
use crate::program::Home;
use crate::reader::Reader;
use crate::scope::Meaning;
use crate::texts::{Pieces, Word, push_pieces};
use crate::token::Token;
use std::alloc::Global;

/// The most parameters of a body.
const MOST_PARAMETERS: usize = 64;

/// A body with parameters.
#[derive(Clone, Copy)]
pub(crate) struct Template {
    name: Token,
    /// What can be made of it.
    kind: Home,
    /// The place among the tokens where its parameters begin.
    start: usize,
    /// The number of its parameters.
    count: usize,
    /// Whether an actor is made of it.
    is_used: bool,
}

/// A fault in a body with parameters, with the actor that it is read for.
fn fault_for(alloc: Global, pieces: &Pieces, fault: Fault, name: Token) -> Fault {
    let Fault::Wrong(spot, mut text) = fault else {
        return Fault::Memory;
    };
    let words = &[Word::Piece(name.span), Word::Count(name.spot.line)];
    let form = " (read for '%' of line %)";
    match push_pieces(alloc, &mut text, pieces, form, words) {
        Ok(()) => Fault::Wrong(spot, text),
        Err(_) => Fault::Memory,
    }
}

impl Reader {
    /// Refuses more or fewer values than the body with this name has parameters.
    fn check_values(&mut self, word: Token, count: usize, given: usize) {
        if count == given {
            return;
        }
        let form = match (count, given) {
            (1, _) => "'%' has % parameter, and this gives % values",
            (_, 1) => "'%' has % parameters, and this gives % value",
            _ => "'%' has % parameters, and this gives % values",
        };
        let words = &[
            Word::Piece(word.span),
            Word::Count(count),
            Word::Count(given),
        ];
        self.refuse_with(word.spot, form, words);
    }

    /// Refuses a body with parameters that no actor is made of: nobody reads it.
    pub(crate) fn check_templates(&mut self) {
        let mut unused = None;
        for template in &self.scope.templates {
            if !template.is_used {
                unused = Some(*template);
                break;
            }
        }
        if let Some(template) = unused {
            let Token { span, spot, .. } = template.name;
            let kind = Word::Text(template.kind.text());
            let words = &[kind, kind, Word::Piece(span)];
            let form = "no % is made of this body: write '% NAME = %(..);' below it";
            self.refuse_with(spot, form, words);
        }
    }

    /// Notes a body with parameters, and passes it by.
    pub(crate) fn template(&mut self, kind: Home, name: Token) {
        let start = self.next;
        let mut count = 0usize;
        for _ in 0..self.left() {
            self.advance();
            let spot = self.spot();
            let parameter = self.new_name("the name of a parameter");
            self.check_count("parameters", count, MOST_PARAMETERS, spot);
            self.scope.add_inside(parameter.span, Meaning::Parameter);
            count = count.saturating_add(1);
            if !self.sees(",") {
                break;
            }
        }
        self.scope.inside.clear();
        self.take(")", " or ',' after a parameter");
        let meaning = Meaning::Template(self.scope.templates.len());
        let template = Template {
            name,
            kind,
            start,
            count,
            is_used: false,
        };
        if self.scope.templates.push(template).is_err() {
            self.note(Fault::Memory);
        }
        self.scope.add_outside(name.span, meaning);
        self.pass_body();
    }

    /// Reads what an actor is made of, after the `=`: a body with parameters, and a value for each of them.
    pub(crate) fn made_actor(&mut self, kind: Home, name: Token) {
        let word = self.token();
        let Some(template) = self.template_named(kind) else {
            return;
        };
        self.take("(", " and the values of the parameters");
        let values = self.values();
        self.take(")", " or ',' after a value");
        self.check_values(word, template.count, values.len());
        self.take(";", " after the declaration");
        if self.fault.is_some() {
            return;
        }
        let after = self.next;
        self.next = template.start;
        self.actor_here(kind, name, &values);
        match self.fault.take() {
            Some(fault) => {
                let fault = fault_for(self.alloc, &self.pieces, fault, name);
                self.note(fault);
            }
            None => self.next = after,
        }
    }

    /// Takes the name of a body with parameters, for an actor of this kind. Another name is refused.
    fn template_named(&mut self, kind: Home) -> Option<Template> {
        let word = self.token();
        let meaning = self.named("the name of a body with parameters");
        if let Meaning::Template(place) = meaning
            && let Some(slot) = self.scope.templates.get_mut(place)
        {
            slot.is_used = true;
            let template = *slot;
            let begins = template.kind.text();
            if begins != kind.text() {
                let form = "'%' begins with '%', and so does each actor that is made of it";
                self.refuse_token(word, form, begins);
            }
            return Some(template);
        }
        self.refuse_meaning(word, "a body with parameters", meaning);
        None
    }

    /// Reads the values of parameters: the name of an object, a variable or a function, `portMAX_DELAY`, or a constant.
    fn values(&mut self) -> Vec<Meaning> {
        let mut values = Vec::new(self.alloc);
        for _ in 0..self.left() {
            let mut value = Meaning::Forever;
            if !self.accepts("portMAX_DELAY") {
                value = match self.meaning(self.token()) {
                    Some(
                        named @ (Meaning::Object(_) | Meaning::Variable(_) | Meaning::Function(_)),
                    ) => {
                        self.advance();
                        named
                    }
                    _ => Meaning::Constant(self.constant()),
                };
            }
            if values.push(value).is_err() {
                self.note(Fault::Memory);
            }
            if !self.accepts(",") {
                break;
            }
        }
        values
    }

    /// Gives each parameter its value. The signs around the parameters were there when the body was noted.
    pub(crate) fn give(&mut self, values: &[Meaning]) {
        for value in values {
            self.advance();
            let parameter = self.new_name("the name of a parameter");
            self.scope.add_inside(parameter.span, *value);
        }
        self.advance();
    }
}
