// What a reader does with the tokens of a source, whatever they mean, and with the first fault in them. Once a fault is noted, only
// the end of the source is seen: so what reads goes on, with values of no meaning, and soon ends.

use crate::fault::{Fault, Spot};
use crate::reader::Reader;
use crate::texts::{Span, Word, push_pieces};
use crate::token::{Kind, Token};

impl Reader {
    /// Notes a fault, in place of one that is noted already.
    pub(crate) fn note(&mut self, fault: Fault) {
        self.fault = Some(fault);
        self.next = self.tokens.len();
    }

    /// Notes the fault that a form says is at a place, with its words, unless one is noted already.
    pub(crate) fn refuse_with(&mut self, spot: Spot, form: &str, words: &[Word<'_>]) {
        if self.fault.is_none() {
            let mut text = String::new(self.alloc);
            let fault = match push_pieces(self.alloc, &mut text, &self.pieces, form, words) {
                Ok(()) => Fault::Wrong(spot, text),
                Err(_) => Fault::Memory,
            };
            self.note(fault);
        }
    }

    /// The same with a piece of the source and a text as its words.
    pub(crate) fn refuse_piece(&mut self, spot: Spot, form: &str, piece: Span, second: &str) {
        self.refuse_with(spot, form, &[Word::Piece(piece), Word::Text(second)]);
    }

    /// The same of a token, with its text and another one as its words.
    pub(crate) fn refuse_token(&mut self, token: Token, form: &str, second: &str) {
        self.refuse_piece(token.spot, form, token.span, second);
    }

    /// The same with a fixed text as its word.
    pub(crate) fn refuse_about(&mut self, spot: Spot, form: &str, text: &str) {
        self.refuse_with(spot, form, &[Word::Text(text)]);
    }

    /// The same with a fixed text.
    pub(crate) fn refuse(&mut self, spot: Spot, text: &str) {
        self.refuse_with(spot, text, &[]);
    }

    /// The number of tokens that are left.
    pub(crate) fn left(&self) -> usize {
        self.tokens.len().saturating_sub(self.next)
    }

    /// The token in this place.
    fn token_at(&self, place: usize) -> Token {
        match self.tokens.get(place) {
            Some(token) => *token,
            None => self.end,
        }
    }

    /// The next token.
    pub(crate) fn token(&self) -> Token {
        self.token_at(self.next)
    }

    /// The token after the next one.
    pub(crate) fn following(&self) -> Token {
        self.token_at(self.next.saturating_add(1))
    }

    /// The token before the next one.
    pub(crate) fn previous(&self) -> Token {
        self.token_at(self.next.saturating_sub(1))
    }

    /// The text of a token.
    pub(crate) fn text(&self, token: Token) -> &str {
        self.pieces.text(token.span)
    }

    /// Whether a token is this word or sign.
    pub(crate) fn is(&self, token: Token, text: &str) -> bool {
        self.pieces.is(token.span, text)
    }

    /// Whether the next token is an argument of a call that isn't its first one, and with those after it there are more than
    /// so many.
    pub(crate) fn is_at_surplus(&self, most: usize) -> bool {
        let mut count = 2usize;
        let mut depth = 1usize;
        for token in self.tokens.get(self.next..).unwrap_or(&[]) {
            match self.text(*token) {
                "(" => depth = depth.saturating_add(1),
                ")" => depth = depth.saturating_sub(1),
                "," if depth == 1 => count = count.saturating_add(1),
                _ => {}
            }
            if depth == 0 {
                break;
            }
        }
        self.is(self.previous(), ",") && count > most
    }

    pub(crate) fn spot(&self) -> Spot {
        self.token().spot
    }

    pub(crate) fn advance(&mut self) {
        self.next = self.next.saturating_add(1);
    }

    /// Whether the next token is this word or sign.
    pub(crate) fn sees(&self, text: &str) -> bool {
        self.is(self.token(), text)
    }

    /// Whether the next token is a word, and this sign is after it.
    pub(crate) fn is_before(&self, sign: &str) -> bool {
        matches!(self.token().kind, Kind::Word) && self.is(self.following(), sign)
    }

    /// Takes the next token if it is this word or sign. Whether it was.
    pub(crate) fn accepts(&mut self, text: &str) -> bool {
        let is_there = self.sees(text);
        if is_there {
            self.advance();
        }
        is_there
    }

    /// Takes this word or sign. `why` continues the message, where another token is there.
    pub(crate) fn take(&mut self, text: &str, why: &str) {
        if !self.accepts(text) {
            self.refuse_for("'", text, "'", why);
        }
    }

    /// Passes a body by, up to its closing brace.
    pub(crate) fn pass_body(&mut self) {
        self.take("{", "");
        let mut depth = 1usize;
        for _ in 0..self.left() {
            if self.sees("{") {
                depth = depth.saturating_add(1);
            } else if self.sees("}") {
                depth = depth.saturating_sub(1);
            }
            self.advance();
            if depth == 0 {
                return;
            }
        }
        self.refuse_next("'}'");
    }

    /// Takes a word.
    pub(crate) fn word(&mut self, what: &str) -> Token {
        let token = self.token();
        match token.kind {
            Kind::Word => self.advance(),
            _ => self.refuse_next(what),
        }
        token
    }

    /// Refuses the next token, in whose place something else was expected, which four texts say. Where a semicolon is missing,
    /// the place of the fault is after the token before.
    pub(crate) fn refuse_for<'x>(
        &mut self,
        first: &'x str,
        sign: &'x str,
        third: &'x str,
        last: &'x str,
    ) {
        let found = self.token();
        let form = if matches!(found.kind, Kind::End) {
            "expected %%%%, found the end of the file"
        } else if self.is(found, "[") {
            "expected %%%%, found '[': there are no arrays"
        } else {
            "expected %%%%, found '%'"
        };
        let words = &[
            Word::Text(first),
            Word::Text(sign),
            Word::Text(third),
            Word::Text(last),
            Word::Piece(found.span),
        ];
        let mut spot = found.spot;
        if sign == ";" {
            let last = self.previous();
            let column = last.spot.column.saturating_add(last.span.length());
            spot = Spot {
                column,
                ..last.spot
            };
        }
        self.refuse_with(spot, form, words);
    }

    /// Refuses the next token, in whose place something else was expected.
    pub(crate) fn refuse_next(&mut self, what: &str) {
        self.refuse_for(what, "", "", "");
    }
}
