// Lists and lines as text.
ghost use Rattle.std.specs.Prelude.{◌≡◌, ◌++◌, ◌∷◌, [], IfOk, OnOk, string_bytes};
ghost use Rattle.fr_wording.specs.Lines.{lines_text};

use std::alloc::{AllocError, Global};

/// Adds a line, or another text, to a list. An error says that an allocation was refused.
pub fn add_text(texts: &mut Vec<String>, text: String) -> Result<(), AllocError>
    ensures { OnOk result (texts.new.items ≡ texts.old.items ++ text ∷ []) }
{
    Ok(texts.push(text)?)
}

/// Appends two texts with a blank between them. An error says that an allocation was refused.
pub fn put_two(text: &mut String, first: &str, second: &str) -> Result<(), AllocError> {
    write!(text, "{first} {second}")
}

/// Appends three texts with a blank between each two. An error says that an allocation was refused.
pub fn put_three(
    text: &mut String,
    first: &str,
    second: &str,
    third: &str,
) -> Result<(), AllocError> {
    write!(text, "{first} {second} {third}")
}

/// Appends the items, with a text between each two; without items what is said then. An error says that an allocation was refused.
pub fn put_listed(
    text: &mut String,
    items: &[String],
    between: &str,
    none: &str,
) -> Result<(), AllocError> {
    if items.is_empty() {
        return text.push_str(none);
    }
    for (number, item) in items.iter().enumerate() {
        if number > 0 {
            text.push_str(between)?;
        }
        text.push_str(item)?;
    }
    Ok(())
}

/// The lines, each with its newline. An error says that an allocation was refused.
pub fn text_of(alloc: Global, lines: &[String]) -> Result<String, AllocError>
    ensures { IfOk result (λ text. string_bytes text ≡ lines_text lines.now) }
{
    let mut text = String::new(alloc);
    for line in lines {
        text.push_str(line)?;
        text.push('\n')?;
    }
    Ok(text)
}
