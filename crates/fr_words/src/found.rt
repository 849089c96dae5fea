// What was matched of each word.
ghost use Rattle.std.specs.Prelude.{◌≡◌, map, option_map};
ghost use Rattle.fr_words.specs.Found.{rows, text_at, texts_at, is_given, number_at};

use clap::ArgMatches;

/// The text after the word; None where it isn't there.
pub fn text_at<'a>(words: &ArgMatches<'a>, id: &str) -> Option<&'a str>
    ensures { option_map (λ s. s.now) result ≡ text_at (rows words.now) id.now }
{
    words.get_str(id)
}

/// The texts after the word, of all its uses; None where it isn't there.
pub fn texts_at<'m, 'a>(words: &'m ArgMatches<'a>, id: &str) -> Option<&'m [&'a str]>
    ensures { option_map (λ s. map (λ t. t.now) s.now) result ≡ texts_at (rows words.now) id.now }
{
    words.get_strs(id)
}

/// Whether the word is there, which has no text after it.
pub fn is_given(words: &ArgMatches, id: &str) -> bool
    ensures { result ≡ is_given (rows words.now) id.now }
{
    words.get_one::<bool>(id).unwrap_or(false)
}

/// The number after the word, of at most 16 bits; None where it isn't there.
pub fn short_number_at(words: &ArgMatches, id: &str) -> Option<u16>
    ensures { result ≡ number_at 16 (rows words.now) id.now }
{
    words.get_one::<u16>(id)
}

/// The number after the word, of at most 32 bits; None where it isn't there.
pub fn number_at(words: &ArgMatches, id: &str) -> Option<u32>
    ensures { result ≡ number_at 32 (rows words.now) id.now }
{
    words.get_one::<u32>(id)
}
