// The keys of an application's tables.
ghost use Rattle.std.specs.Prelude.{◌≡◌};
ghost use Rattle.fr_reader.specs.Keys.{key_text, is_key_of, is_own_key};

/// A key that a table of an application may have.
#[derive(Clone, Copy, Debug)]
pub enum Key {
    Variable,
    Object,
    Actor,
    Name,
    Lo,
    Hi,
    Init,
    Owner,
    Kind,
    Live,
    Size,
    First,
    Code,
}

impl Key {
    /// The key as the text writes it.
    pub fn text(self) -> &'static str
        ensures { result.now ≡ key_text self }
    {
        match self {
            Key::Variable => "variable",
            Key::Object => "object",
            Key::Actor => "actor",
            Key::Name => "name",
            Key::Lo => "lo",
            Key::Hi => "hi",
            Key::Init => "init",
            Key::Owner => "owner",
            Key::Kind => "kind",
            Key::Live => "live",
            Key::Size => "size",
            Key::First => "first",
            Key::Code => "code",
        }
    }
}

/// Which table of an application's text: the whole text, or an entry of one of its three lists, by
/// its place from 0.
#[derive(Clone, Copy, Debug)]
pub enum TableName {
    Whole,
    Variable(usize),
    Object(usize),
    Actor(usize),
}

/// What the key `kind` of an object says.
#[derive(Clone, Copy)]
pub(crate) enum ObjectKind {
    Queue,
    Binary,
    Counting,
    Mutex,
    Recursive,
    Stream,
    Message,
}

/// A kind of table.
#[derive(Clone, Copy)]
pub(crate) enum TableKind {
    Application,
    Variable,
    Object(ObjectKind),
    Actor,
}

/// Whether a table of this kind may have this key.
pub(crate) fn is_key_of(kind: TableKind, key: &str) -> bool
    ensures { result ≡ is_key_of kind key.now }
{
    match kind {
        TableKind::Application => key == "variable" || key == "object" || key == "actor",
        TableKind::Variable => {
            key == "name" || key == "lo" || key == "hi" || key == "init" || key == "owner"
        }
        TableKind::Object(object) => {
            key == "name" || key == "kind" || key == "live" || is_own_key(object, key)
        }
        TableKind::Actor => key == "name" || key == "kind" || key == "code",
    }
}

/// Whether this is a key that objects of this kind have beside the keys of every object.
fn is_own_key(kind: ObjectKind, key: &str) -> bool
    ensures { result ≡ is_own_key kind key.now }
{
    match kind {
        ObjectKind::Queue => key == "size" || key == "lo" || key == "hi",
        ObjectKind::Counting => key == "size" || key == "first",
        ObjectKind::Stream | ObjectKind::Message => key == "size",
        ObjectKind::Binary | ObjectKind::Mutex | ObjectKind::Recursive => false,
    }
}
