// One line of a list.
ghost use Rattle.std.specs.Prelude.{◌≡◌, [], ◌∷◌, IfOk, OnErr, MatchOption, option_to_list, option_map};
ghost use Rattle.std.specs.Str.Iter.{split_ascii_whitespace_text};
ghost use Rattle.fr_list.specs.Means.{IsFaulty, entries_of, shown, told};

use crate::listed::Listed;
use std::str::SplitAsciiWhitespace;

/// A line has more than two words.
#[derive(Clone, Copy)]
pub struct TooManyWords;

/// The next word, unless it begins a comment.
fn told_word<'a>(words: &mut SplitAsciiWhitespace<'a>) -> Option<&'a str>
    ensures { MatchOption result (told (split_ascii_whitespace_text words.old) ≡ [])
        (λ word. told (split_ascii_whitespace_text words.old) ≡ word.now ∷ told (split_ascii_whitespace_text words.new)) }
{
    let word = words.next()?;
    if word.starts_with('#') {
        return None;
    }
    Some(word)
}

/// What a line names, if it has a word before its comment. The error says that it has more than two.
pub fn entry_in(line: &str) -> Result<Option<Listed<'_>>, TooManyWords>
    ensures named { IfOk result (λ entry. entries_of (told line.now) ≡ option_to_list (option_map shown entry)) }
    ensures few { IfOk result (λ _. ¬ (IsFaulty line.now)) }
    ensures many { OnErr result (IsFaulty line.now) }
{
    let mut words = line.split_ascii_whitespace();
    let Some(application) = told_word(&mut words) else {
        return Ok(None);
    };
    let Some(certificate) = told_word(&mut words) else {
        return Ok(Some(Listed {
            application,
            certificate: None,
        }));
    };
    if told_word(&mut words).is_some() {
        return Err(TooManyWords);
    }
    Ok(Some(Listed {
        application,
        certificate: Some(certificate),
    }))
}
