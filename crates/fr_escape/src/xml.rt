// Texts in a file of XML.
ghost use Rattle.std.specs.Prelude.{◌≡◌, ◌++◌, All, OnOk, encode_utf8_all, string_bytes};
ghost use Rattle.fr_escape.specs.Markup.{IsHarmless};
ghost use Rattle.fr_escape.specs.Xml.{xml, xml_character, is_replaced, IsAllowed};

use crate::language::{Language, push_text};
use crate::steering::sets_direction;
use std::alloc::AllocError;

struct Xml;

/// Whether U+FFFD is written for the character: XML can't have it, or it steers what shows the text.
fn is_replaced(character: char) -> bool
    ensures { result ≡ is_replaced character }
{
    character.is_control()
        || sets_direction(character)
        || character == '\u{fffe}'
        || character == '\u{ffff}'
}

impl Language for Xml {
    ghost written = { xml_character };

    fn push_character(out: &mut String, character: char) -> Result<(), AllocError> {
        match character {
            '&' => out.push_str("&amp;"),
            '<' => out.push_str("&lt;"),
            '>' => out.push_str("&gt;"),
            '"' => out.push_str("&quot;"),
            '\'' => out.push_str("&apos;"),
            '\n' => out.push_str("&#10;"),
            '\t' => out.push_str("&#9;"),
            _ if is_replaced(character) => out.push('\u{fffd}'),
            _ => out.push(character),
        }
    }
}

/// Appends a text, so that it stays a text between two tags or in quotes of either kind: what is appended has none of
/// `<`, `>`, `"` and `'`, and an `&` only where an entity or the number of a character begins. Line ends and tabs are
/// written as numbers, since a parser makes blanks of them in attributes. U+FFFD is written for what XML 1.0 can't have,
/// which is most controls, U+FFFE and U+FFFF, and by a rule of this project for every other control, a carriage return
/// too, and for each character that sets the direction of reading. Its error is that an allocation was refused. A part of the text may then
/// have been appended.
pub fn push_xml(out: &mut String, text: &str) -> Result<(), AllocError>
    ensures text { OnOk result (string_bytes out.new ≡ string_bytes out.old ++ encode_utf8_all (xml text.now)) }
    ensures harmless { All IsHarmless (xml text.now) }
    ensures allowed { All IsAllowed (xml text.now) }
{
    push_text::<Xml>(out, text)
}
