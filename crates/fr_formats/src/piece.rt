// A text in JSON, while it is written.
ghost use Rattle.std.specs.Prelude.{◌≡◌, ◌++◌, ◌∷◌, [], IfOk, OnOk, codes, flat_map, string_bytes};
ghost use Rattle.json.specs.Token.{key as key_token};
ghost use Rattle.json.specs.Print.{IsPrintable};
ghost use Rattle.json.specs.Reads.{token_of};
ghost use Rattle.fr_formats.specs.Tokens.{mark, message, tokens_of, written};

use fr_escape::push_json;
use itoa::Buffer;
use json::{Pretty, Token};
use std::alloc::{AllocError, Global};

/// A piece of a text in JSON: brackets, a bracket after a key, a key, a text, or a member of an object. What may lack is
/// left out where it lacks.
#[derive(Clone, Copy)]
pub(crate) enum Piece<'a> {
    /// Each of `{`, `}`, `[` and `]` that is in it.
    Marks(&'a str),
    Object(&'a str),
    Array(&'a str),
    Key(&'a str),
    Text(&'a str),
    Field(&'a str, &'a str),
    MaybeField(&'a str, Option<&'a str>),
    Flag(&'a str, bool),
    Integer(&'a str, i64),
    Number(&'a str, usize),
    MaybeNumber(&'a str, Option<usize>),
    /// An object with this text, as SARIF has it.
    Message(&'a str, &'a str),
}

/// Appends pieces to a text.
macro_rules! put {
    ($out:expr; $piece:expr) => { $out.put_piece($piece) };
    ($out:expr; $($piece:expr),*) => { $out.put(&[$($piece),*]) };
}

pub(crate) use put;

/// The text as far as it is written.
#[derive(Drop)]
pub(crate) struct Out {
    pub alloc: Global,
    tokens: Pretty,
}

impl Out {
    pub fn new(alloc: Global) -> Out
        ensures { result.tokens ≡ [] }
    {
        let tokens = Pretty::new(alloc);
        Out { alloc, tokens }
    }

    /// Appends a value after its key.
    fn put_member(&mut self, key: &str, value: Token) -> Result<(), AllocError>
        requires { IsPrintable (token_of value) }
        ensures { OnOk result (self.new.tokens ≡ self.old.tokens ++ key_token key.now ∷ token_of value.entry ∷ []) }
    {
        self.tokens.token(Token::Key(key))?;
        self.tokens.token(value)
    }

    /// Appends an object with a text after its key.
    fn put_message(&mut self, key: &str, text: &str) -> Result<(), AllocError>
        ensures { OnOk result (self.new.tokens ≡ self.old.tokens ++ message key.now text.now) }
    {
        self.put_member(key, Token::BeginObject)?;
        self.put_member("text", Token::String(text))?;
        self.tokens.token(Token::EndObject)
    }

    /// Appends brackets.
    fn put_marks(&mut self, marks: &str) -> Result<(), AllocError>
        ensures { OnOk result (self.new.tokens ≡ self.old.tokens ++ flat_map mark marks.now) }
    {
        for mark in marks.as_bytes() {
            match *mark {
                b'{' => self.tokens.token(Token::BeginObject)?,
                b'}' => self.tokens.token(Token::EndObject)?,
                b'[' => self.tokens.token(Token::BeginArray)?,
                b']' => self.tokens.token(Token::EndArray)?,
                _ => {}
            }
        }
        Ok(())
    }

    /// Appends a piece.
    pub fn put_piece(&mut self, piece: Piece) -> Result<(), AllocError>
        ensures { OnOk result (self.new.tokens ≡ self.old.tokens ++ tokens_of piece.entry) }
    {
        let mut buffer = Buffer::new();
        match piece {
            Piece::Marks(marks) => self.put_marks(marks),
            Piece::Object(key) => self.put_member(key, Token::BeginObject),
            Piece::Array(key) => self.put_member(key, Token::BeginArray),
            Piece::Key(key) => self.tokens.token(Token::Key(key)),
            Piece::Text(text) => self.tokens.token(Token::String(text)),
            Piece::Field(key, text) | Piece::MaybeField(key, Some(text)) => {
                self.put_member(key, Token::String(text))
            }
            Piece::Flag(key, flag) => self.put_member(key, Token::Bool(flag)),
            Piece::Integer(key, n) => self.put_member(key, Token::Number(buffer.format(n))),
            Piece::Number(key, n) | Piece::MaybeNumber(key, Some(n)) => {
                self.put_member(key, Token::Number(buffer.format(n)))
            }
            Piece::Message(key, text) => self.put_message(key, text),
            Piece::MaybeField(_, None) | Piece::MaybeNumber(_, None) => Ok(()),
        }
    }

    /// Appends the pieces.
    pub fn put(&mut self, pieces: &[Piece]) -> Result<(), AllocError>
        ensures { OnOk result (self.new.tokens ≡ self.old.tokens ++ flat_map tokens_of pieces.now) }
    {
        for piece in pieces {
            self.put_piece(*piece)?;
        }
        Ok(())
    }

    /// The text, with a line for each item and member, and a newline at its end. Nothing in it steers what shows it.
    pub fn finish(self) -> Result<String, AllocError>
        ensures { IfOk result (λ text. string_bytes text ≡ written self.tokens) }
    {
        let (alloc, tokens) = (self.alloc, self.tokens);
        let Ok(laid_out) = String::from_utf8(tokens.into_inner()) else {
            return Err(AllocError);
        };
        let mut text = String::new(alloc);
        push_json(&mut text, &laid_out)?;
        text.push('\n')?;
        Ok(text)
    }
}
