// Characters that steer a terminal, or the order in which a text is read.
ghost use Rattle.std.specs.Prelude.{◌≡◌};
ghost use Rattle.fr_escape.specs.Steering.{sets_direction};

/// Whether the character sets the direction in which a text is read.
pub(crate) fn sets_direction(character: char) -> bool
    ensures { result ≡ sets_direction character }
{
    matches!(
        character,
        '\u{61c}' | '\u{200e}' | '\u{200f}' | '\u{202a}'..='\u{202e}' | '\u{2066}'..='\u{2069}'
    )
}
