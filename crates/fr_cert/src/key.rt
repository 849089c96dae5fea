// The keys of a certificate's objects.
ghost use Rattle.std.specs.Prelude.{◌≡◌};
ghost use Rattle.fr_cert.specs.Keys.{key_text, is_key_of};

/// A key that an object of a certificate may have.
#[derive(Clone, Copy)]
pub(crate) enum Key {
    Version,
    Ends,
    Notes,
    Buffer,
    End,
    Guard,
    Sole,
    Mutex,
    Turn,
    Values,
    Held,
    Crit,
    Susp,
    Live,
    Dead,
    Range,
}

impl Key {
    /// The key as the text has it.
    pub(crate) fn text(self) -> &'static str
        ensures { result.now ≡ key_text self }
    {
        match self {
            Key::Version => "version",
            Key::Ends => "ends",
            Key::Notes => "notes",
            Key::Buffer => "buffer",
            Key::End => "end",
            Key::Guard => "guard",
            Key::Sole => "sole",
            Key::Mutex => "mutex",
            Key::Turn => "turn",
            Key::Values => "values",
            Key::Held => "held",
            Key::Crit => "crit",
            Key::Susp => "susp",
            Key::Live => "live",
            Key::Dead => "dead",
            Key::Range => "range",
        }
    }
}

/// A JSON object of a certificate, with keys of its own.
#[derive(Clone, Copy)]
pub(crate) enum Keyed {
    Certificate,
    End,
    /// A guard of one actor alone.
    Sole,
    /// A guard of whoever holds a mutex.
    Mutex,
    /// A guard of whose turn it is.
    Turn,
    Note,
}

/// Whether a note's object may have this key.
fn is_key_of_note(key: &str) -> bool
    ensures { result ≡ is_key_of Keyed.Note key.now }
{
    key == "held"
        || key == "crit"
        || key == "susp"
        || key == "live"
        || key == "dead"
        || key == "range"
}

/// Whether the object at this place may have this key.
pub(crate) fn is_key_of(place: Keyed, key: &str) -> bool
    ensures { result ≡ is_key_of place key.now }
{
    match place {
        Keyed::Certificate => key == "version" || key == "ends" || key == "notes",
        Keyed::End => key == "buffer" || key == "end" || key == "guard",
        Keyed::Sole => key == "sole",
        Keyed::Mutex => key == "mutex",
        Keyed::Turn => key == "turn" || key == "values",
        Keyed::Note => is_key_of_note(key),
    }
}
