// The name that is nearest to a word.
ghost use Rattle.std.specs.Prelude.{◌≤◌, ◌<◌, All, IfNone, IfOk, IfSome, length};
ghost use Rattle.fr_place.specs.Nearness.{IsNearest, edits, too_many};

use crate::lines::Lines;
use std::alloc::{AllocError, Global};
use strsim::levenshtein;

/// One more than the most edits between a word and a name that is told for it.
const TOO_MANY_EDITS: usize = 3;

/// The most bytes of a word for which a name is told.
const LONGEST_WORD: usize = 64;

/// The name among these to which the fewest edits lead from the word, if two edits at most do, and fewer
/// than the word has bytes. An edit adds, drops or changes one character. Of several such names it is the
/// first. A word of over 64 bytes has none.
///
/// Its error is that an allocation was refused.
pub fn nearest<'a>(
    alloc: Global,
    word: &str,
    names: &[&'a str],
) -> Result<Option<&'a str>, AllocError>
    ensures some { IfOk result (λ found. IfSome found (IsNearest word.now names.now)) }
    ensures none { IfOk result (λ found. length word.now ≤ 64 →
        IfNone found (All (λ name. too_many word.now ≤ edits word.now name.now) names.now)) }
{
    if word.len() > LONGEST_WORD {
        return Ok(None);
    }
    let mut found = None;
    let mut least = TOO_MANY_EDITS.min(word.len());
    for name in names {
        let edits = levenshtein(alloc, word, name)?;
        if edits < least {
            found = Some(*name);
            least = edits;
        }
    }
    Ok(found)
}

/// Appends that the name is nearest, if there is one, and ends the line.
pub(crate) fn push_nearest(out: &mut Lines, word: &str, names: Result<Vec<&str>, AllocError>) {
    let Ok(names) = names else {
        return out.refuse();
    };
    match nearest(out.alloc, word, &names) {
        Ok(Some(name)) => out.say(format_args!("; the nearest is {name}")),
        Ok(None) => out.end(),
        Err(_) => out.refuse(),
    }
}
