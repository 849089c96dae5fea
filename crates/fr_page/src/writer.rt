// The text of a page while it is written.
ghost use Rattle.std.specs.Prelude.{◌≡◌, ◌++◌, [], OnOk, decimal, flat_map, string_bytes};
ghost use Rattle.fr_page.specs.Markup.{between, bytes_of, each, escaped};

use fr_escape::push_html;
use std::alloc::{AllocError, Global};

/// A piece of a page: markup that is written in this crate, a text, which is escaped, or texts, each between two pieces of
/// markup.
#[derive(Clone, Copy)]
pub enum Piece<'a> {
    Markup(&'static str),
    Text(&'a str),
    Each(&'static str, &'a [String], &'static str),
}

/// The text of a page, as far as it is written. Each text of a file is escaped, by `text`, which the others call for it:
/// what is appended as it is are only texts that live as long as the program, and no text of a file does.
#[derive(Drop)]
pub struct Writer {
    out: String,
}

impl Writer {
    pub fn new(alloc: Global) -> Writer
        ensures { string_bytes result.out ≡ [] }
    {
        Writer {
            out: String::new(alloc),
        }
    }

    /// Appends markup that is written in this crate.
    pub fn markup(&mut self, markup: &'static str) -> Result<(), AllocError>
        ensures { OnOk result (string_bytes self.new.out ≡ string_bytes self.old.out ++ markup.now) }
    {
        self.out.push_str(markup)
    }

    /// Appends a text, whatever is in it.
    #[tactic(auto, unfolding(crate::specs::Markup::escaped))]
    pub fn text(&mut self, text: &str) -> Result<(), AllocError>
        ensures { OnOk result (string_bytes self.new.out ≡ string_bytes self.old.out ++ escaped text.now) }
    {
        push_html(&mut self.out, text)
    }

    /// Appends a number.
    pub fn number(&mut self, number: usize) -> Result<(), AllocError>
        ensures { OnOk result (string_bytes self.new.out ≡ string_bytes self.old.out ++ decimal number) }
    {
        write!(&mut self.out, "{number}")
    }

    /// Appends a text between two pieces of markup.
    #[tactic(auto, using(std::proofs::Common::append_assoc), unfolding(crate::specs::Markup::between))]
    pub fn between(
        &mut self,
        open: &'static str,
        text: &str,
        close: &'static str,
    ) -> Result<(), AllocError>
        ensures { OnOk result (string_bytes self.new.out
            ≡ string_bytes self.old.out ++ between open.now text.now close.now) }
    {
        self.markup(open)?;
        self.text(text)?;
        self.markup(close)
    }

    /// Appends texts, each between two pieces of markup.
    pub fn each(
        &mut self,
        open: &'static str,
        texts: &[String],
        close: &'static str,
    ) -> Result<(), AllocError>
        ensures { OnOk result (string_bytes self.new.out
            ≡ string_bytes self.old.out ++ each open.now texts.now close.now) }
    {
        for text in texts {
            self.between(open, text, close)?;
        }
        Ok(())
    }

    /// Appends a piece.
    fn piece(&mut self, piece: Piece) -> Result<(), AllocError>
        ensures { OnOk result (string_bytes self.new.out ≡ string_bytes self.old.out ++ bytes_of piece.entry) }
    {
        match piece {
            Piece::Markup(markup) => self.markup(markup),
            Piece::Text(text) => self.text(text),
            Piece::Each(open, texts, close) => self.each(open, texts, close),
        }
    }

    /// Appends the pieces.
    pub fn put(&mut self, pieces: &[Piece]) -> Result<(), AllocError>
        ensures { OnOk result (string_bytes self.new.out ≡ string_bytes self.old.out ++ flat_map bytes_of pieces.now) }
    {
        for piece in pieces {
            self.piece(*piece)?;
        }
        Ok(())
    }

    /// Appends what another writer has written.
    pub fn append(&mut self, other: Writer) -> Result<(), AllocError>
        ensures { OnOk result (string_bytes self.new.out ≡ string_bytes self.old.out ++ string_bytes other.out) }
    {
        self.out.push_str(&other.out)
    }

    /// The text that was written.
    pub fn finish(self) -> String
        ensures { result ≡ self.out }
    {
        self.out
    }
}
