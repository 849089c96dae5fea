// Texts in JSON.
ghost use Rattle.std.specs.Prelude.{◌≡◌, ◌++◌, All, OnOk, encode_utf8_all, string_bytes};
ghost use Rattle.fr_escape.specs.AsJson.{as_json, hex_digit, json_character, unicode_escape, IsSteady};

use crate::language::{Language, push_text};
use crate::plain::steers;
use std::alloc::AllocError;

struct AsJson;

/// The last digit of a number in base 16.
fn hex_digit(number: u32) -> char
    ensures { result ≡ hex_digit number }
{
    let digit = (number % 16) as u8;
    char::from(if digit < 10 {
        b'0' + digit
    } else {
        b'W' + digit
    })
}

/// Appends the escape of a character that has four digits.
fn push_escape(out: &mut String, character: char) -> Result<(), AllocError>
    ensures { OnOk result (string_bytes out.new ≡ string_bytes out.old ++ encode_utf8_all (unicode_escape character)) }
{
    let number = u32::from(character);
    out.push_str("\\u")?;
    out.push(hex_digit(number / 4096))?;
    out.push(hex_digit(number / 256))?;
    out.push(hex_digit(number / 16))?;
    out.push(hex_digit(number))
}

impl Language for AsJson {
    ghost written = { json_character };

    fn push_character(out: &mut String, character: char) -> Result<(), AllocError> {
        if character > '~' && steers(character) {
            push_escape(out, character)
        } else {
            out.push(character)
        }
    }
}

/// Appends a text in JSON, so that nothing in it steers what shows it: DEL, the controls of Unicode beyond ASCII, the separators of lines
/// and of paragraphs and the characters that set the direction of reading, which a string of RFC 8259 may have as they are, are written as
/// `\u` and four digits. A parser reads the same text. Its error is that an allocation was refused. A part of the text may then have been
/// appended.
pub fn push_json(out: &mut String, text: &str) -> Result<(), AllocError>
    ensures text { OnOk result (string_bytes out.new ≡ string_bytes out.old ++ encode_utf8_all (as_json text.now)) }
    ensures harmless { All IsSteady (as_json text.now) }
{
    push_text::<AsJson>(out, text)
}
