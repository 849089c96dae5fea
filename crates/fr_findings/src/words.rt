// The words that a run picks its choices by, as the command line gives them.
ghost use Rattle.std.specs.Prelude.{◌≡◌, ℕ, List, IfOk, IfSome, IfNone, IsErrOf};
ghost use Rattle.fr_findings.specs.declared.words.WordsFault.TheVariants.{Memory, Bad};
ghost use Rattle.fr_findings.specs.Words.{AreWords, IsRunWord};

use fr_outcome::CheckFault;
use std::alloc::{AllocError, AllocFailed, Global};

/// Why a text gives no words.
#[derive(Clone, Copy)]
pub enum WordsFault {
    /// An allocation was refused.
    Memory,
    /// The text is no list of words.
    Bad,
}

impl From<AllocError> for WordsFault {
    ghost from_gives = { λ _ e. e ≡ Memory };

    fn from(_refused: AllocError) -> WordsFault {
        WordsFault::Memory
    }
}

impl<T: Drop> From<AllocFailed<T>> for WordsFault {
    ghost from_gives = { λ _ e. e ≡ Memory };

    fn from(_refused: AllocFailed<T>) -> WordsFault {
        WordsFault::Memory
    }
}

/// The word that the text is. `parse` alone would take a plus before the digits.
fn word_of(text: &str) -> Option<u64>
    ensures some { IfSome result (IsRunWord text.now) }
    ensures none { IfNone result ((word : ℕ) → IsRunWord text.now word → ⊥) }
{
    if text.starts_with('+') {
        return None;
    }
    text.parse::<u64>().ok()
}

/// The words of a text: decimal numbers below 2^64, one or more, parted by single commas. Leading
/// zeros are allowed; signs and blanks are not.
///
/// # Errors
///
/// `Bad` where the text is no such list, `Memory` where an allocation was refused. The form is this
/// project's own.
pub fn words_of(alloc: Global, text: &str) -> Result<Vec<u64>, WordsFault>
    ensures words { IfOk result (λ words. AreWords text.now words.items) }
    ensures bad { IsErrOf result Bad → (words : List ℕ) → AreWords text.now words → ⊥ }
{
    let mut words = Vec::new(alloc);
    let mut rest = text;
    'words: while let Some((first, others)) = rest.split_once(',') {
        let Some(word) = word_of(first) else {
            return Err(WordsFault::Bad);
        };
        words.push(word)?;
        rest = others;
    }
    let Some(word) = word_of(rest) else {
        return Err(WordsFault::Bad);
    };
    words.push(word)?;
    Ok(words)
}

/// Words that are no list of numbers, or want of memory for them.
impl From<WordsFault> for CheckFault {
    fn from(fault: WordsFault) -> CheckFault {
        match fault {
            WordsFault::Bad => CheckFault::Words,
            WordsFault::Memory => CheckFault::Memory,
        }
    }
}
