// What a command does where its words don't say it.
ghost use Rattle.std.specs.Prelude.{◌≡◌};
ghost use Rattle.fr_answer.specs.Commands.{detail_in};

use fr_request::{Detail, Format};

/// How many states a search for a breach keeps at the most, where the words don't say how many.
pub(crate) const MOST_STATES: usize = 1_000_000;

/// How many bytes these states take at the most, where the words don't say how many.
pub(crate) const MOST_STATE_BYTES: usize = 536_870_912;

/// So many MiB in bytes.
pub(crate) fn mebibytes(count: u32) -> usize {
    (count as usize).saturating_mul(1_048_576)
}

/// How much is explained: where a machine reads the answer, never less than what matters.
pub(crate) fn detail_in(format: Option<Format>, detail: Option<Detail>) -> Option<Detail>
    ensures { result ≡ detail_in format detail }
{
    match (format, detail) {
        (Some(_), None) => Some(Detail::Relevant),
        _ => detail,
    }
}
