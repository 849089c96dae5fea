// What the languages share that have a text for each character.
ghost use Rattle.std.specs.Prelude.{◌≡◌, ◌++◌, ℕ, List, OnOk, chars, encode_utf8_all, flat_map, string_bytes};

use std::alloc::AllocError;

/// A language, by what it has for each character of a text.
pub(crate) trait Language {
    /// What is written for a character.
    ghost written: { ℕ → List ℕ };

    /// Appends what is written for the character.
    fn push_character(out: &mut String, character: char) -> Result<(), AllocError>
        ensures { OnOk result (string_bytes out.new ≡ string_bytes out.old ++ encode_utf8_all (written character)) };
}

/// Appends a text, each character as the language has it.
pub(crate) fn push_text<L: Language>(out: &mut String, text: &str) -> Result<(), AllocError>
    ensures { OnOk result (string_bytes out.new
        ≡ string_bytes out.old ++ encode_utf8_all (flat_map L.written (chars text.now))) }
{
    for character in text.chars() {
        L::push_character(out, character)?;
    }
    Ok(())
}
