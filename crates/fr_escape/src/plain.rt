// Texts on a terminal, and in the texts of reports.
ghost use Rattle.std.specs.Prelude.{◌≡◌, ◌++◌, All, OnOk, encode_utf8_all, string_bytes};
ghost use Rattle.std.specs.Char.Escape.{escape_default};
ghost use Rattle.fr_escape.specs.Plain.{plain, plain_character, steers, IsPlain};

use crate::language::{Language, push_text};
use crate::steering::sets_direction;
use std::alloc::AllocError;

struct Plain;

/// Appends the character as Rust writes it in a literal.
fn push_escape(out: &mut String, character: char) -> Result<(), AllocError>
    ensures { OnOk result (string_bytes out.new ≡ string_bytes out.old ++ encode_utf8_all (escape_default character)) }
{
    for part in character.escape_default() {
        out.push(part)?;
    }
    Ok(())
}

/// Whether the character steers a terminal, or the order in which a text is read.
pub(crate) fn steers(character: char) -> bool
    ensures { result ≡ steers character }
{
    character.is_control()
        || sets_direction(character)
        || character == '\u{2028}'
        || character == '\u{2029}'
}

impl Language for Plain {
    ghost written = { plain_character };

    fn push_character(out: &mut String, character: char) -> Result<(), AllocError> {
        if steers(character) {
            push_escape(out, character)
        } else {
            out.push(character)
        }
    }
}

/// Appends a text, so that it can be read on a terminal and steers nothing there: controls, the separators of lines
/// and of paragraphs, and the characters that set the direction of reading are written as Rust writes them in a
/// literal, as `\n` or `\u{1b}`. A backslash stays one backslash. The rule is this project's. Its error is that an allocation was refused. A
/// part of the text may then have been appended.
pub fn push_plain(out: &mut String, text: &str) -> Result<(), AllocError>
    ensures text { OnOk result (string_bytes out.new ≡ string_bytes out.old ++ encode_utf8_all (plain text.now)) }
    ensures harmless { All IsPlain (plain text.now) }
{
    push_text::<Plain>(out, text)
}
