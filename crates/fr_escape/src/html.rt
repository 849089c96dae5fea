// Texts in a page of HTML.
ghost use Rattle.std.specs.Prelude.{◌≡◌, ◌++◌, All, OnOk, encode_utf8_all, string_bytes};
ghost use Rattle.fr_escape.specs.Markup.{IsHarmless};
ghost use Rattle.fr_escape.specs.Html.{html, html_character};

use crate::language::{Language, push_text};
use std::alloc::AllocError;

struct Html;

impl Language for Html {
    ghost written = { html_character };

    fn push_character(out: &mut String, character: char) -> Result<(), AllocError> {
        match character {
            '&' => out.push_str("&amp;"),
            '<' => out.push_str("&lt;"),
            '>' => out.push_str("&gt;"),
            '"' => out.push_str("&quot;"),
            '\'' => out.push_str("&#39;"),
            _ => out.push(character),
        }
    }
}

/// Appends a text, so that it stays a text between two tags or in quotes of either kind: what is appended has none of
/// `<`, `>`, `"` and `'`, and an `&` only where an entity begins. The rule is HTML's, for text and for the values of
/// attributes; it doesn't serve inside a script or a style sheet. Its error is that an allocation was refused. A part of the text may then
/// have been appended.
pub fn push_html(out: &mut String, text: &str) -> Result<(), AllocError>
    ensures text { OnOk result (string_bytes out.new ≡ string_bytes out.old ++ encode_utf8_all (html text.now)) }
    ensures harmless { All IsHarmless (html text.now) }
{
    push_text::<Html>(out, text)
}
