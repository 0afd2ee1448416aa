//! The commands, and what each of their words has to be.

ghost use Rattle.std.specs.Prelude.{◌≡◌, bytes_eq};
ghost use Rattle.command_line.specs.Forms as spec;

/// A command.
#[derive(Clone, Copy, Debug, PartialEq, Eq)]
pub enum Form {
    Play,
    Bulk,
    ShowDump,
    Evacuate,
    Audit,
    Record,
    Node,
    Serve,
    Threads,
    Fanout,
    Mail,
}

/// The place of a word behind a command.
#[derive(Clone, Copy, Debug, PartialEq, Eq)]
pub enum Place {
    Seed,
    Connections,
    Messages,
    Moves,
    Dump,
    From,
    Target,
    /// A further target, which may be left out.
    More,
    Id,
    Address,
    /// An option of `serve`; further ones may follow.
    Flag,
    /// The folder of the option before it.
    Folder,
    /// The milliseconds of the option before it.
    Time,
    Workers,
    Adds,
    /// The moves of `threads`.
    FewMoves,
    Consumers,
    /// The additions of `fanout`.
    ManyAdds,
    Capacity,
    Peers,
    Letters,
}

/// What may stand at a place.
#[derive(Clone, Copy, Debug, PartialEq, Eq)]
pub enum Kind {
    /// Decimal digits without a sign or a leading zero, of a number in this range.
    Number { low: u64, high: u64 },
    /// The name of a dump.
    Name,
    /// An IPv4 address, and perhaps a colon and a port.
    Address,
    /// The name of an option.
    Flag,
    /// The path of a folder: any word but an empty one.
    Folder,
}

/// Whether a word is that one.
pub(crate) fn is_word(word: &[u8], text: &[u8]) -> bool
    ensures { result ≡ bytes_eq word.now text.now }
{
    word == text
}

impl Form {
    /// The command that a word names.
    #[tactic(auto, unfolding(crate::specs::Forms::form_of))]
    pub(crate) fn of(word: &[u8]) -> Option<Form>
        ensures { result ≡ spec.form_of word.now }
    {
        let form = match word {
            _ if is_word(word, b"play") => Form::Play,
            _ if is_word(word, b"bulk") => Form::Bulk,
            _ if is_word(word, b"show-dump") => Form::ShowDump,
            _ if is_word(word, b"evacuate") => Form::Evacuate,
            _ if is_word(word, b"audit") => Form::Audit,
            _ if is_word(word, b"record") => Form::Record,
            _ if is_word(word, b"node") => Form::Node,
            _ if is_word(word, b"serve") => Form::Serve,
            _ if is_word(word, b"threads") => Form::Threads,
            _ if is_word(word, b"fanout") => Form::Fanout,
            _ if is_word(word, b"mail") => Form::Mail,
            _ => return None,
        };
        Some(form)
    }

    /// The places of the words behind it, in their order.
    pub(crate) fn places(self) -> &'static [Place]
        ensures { result.now ≡ spec.places self }
    {
        match self {
            Form::Play | Form::Audit | Form::Record => &[],
            Form::Bulk => &[
                Place::Seed,
                Place::Connections,
                Place::Messages,
                Place::Moves,
            ],
            Form::ShowDump => &[Place::Dump],
            Form::Evacuate => &EVACUATE,
            Form::Node => &[Place::Id, Place::Address],
            Form::Serve => &[Place::Id, Place::Address, Place::Flag],
            Form::Threads => &[Place::Workers, Place::Adds, Place::FewMoves],
            Form::Fanout => &[Place::Consumers, Place::ManyAdds, Place::Capacity],
            Form::Mail => &[Place::Seed, Place::Peers, Place::Letters, Place::Moves],
        }
    }

    /// Whether the ids behind it have to differ.
    pub(crate) fn differs(self) -> bool
        ensures { result ≡ spec.differs self }
    {
        matches!(self, Form::Evacuate)
    }
}

/// A device, a target, and 14 more.
const EVACUATE: [Place; 16] = [
    Place::From,
    Place::Target,
    Place::More,
    Place::More,
    Place::More,
    Place::More,
    Place::More,
    Place::More,
    Place::More,
    Place::More,
    Place::More,
    Place::More,
    Place::More,
    Place::More,
    Place::More,
    Place::More,
];

impl Place {
    /// What it is called.
    pub(crate) fn title(self) -> &'static [u8]
        ensures { result.now ≡ spec.title self }
    {
        match self {
            Place::Seed => b"SEED",
            Place::Connections => b"CONNECTIONS",
            Place::Messages => b"MESSAGES",
            Place::Moves | Place::FewMoves => b"MOVES",
            Place::Dump => b"NAME",
            Place::From => b"FROM",
            Place::Target | Place::More => b"TARGET",
            Place::Id => b"ID",
            Place::Address => b"ADDRESS",
            Place::Flag => b"OPTION",
            Place::Folder => b"FOLDER",
            Place::Time => b"MS",
            Place::Workers => b"WORKERS",
            Place::Adds | Place::ManyAdds => b"ADDS",
            Place::Consumers => b"CONSUMERS",
            Place::Capacity => b"CAPACITY",
            Place::Peers => b"PEERS",
            Place::Letters => b"LETTERS",
        }
    }

    /// What may stand there.
    pub(crate) fn kind(self) -> Kind
        ensures { result ≡ spec.kind_of self }
    {
        let (low, high) = match self {
            Place::Dump => return Kind::Name,
            Place::Address => return Kind::Address,
            Place::Flag => return Kind::Flag,
            Place::Folder => return Kind::Folder,
            Place::Seed => (0, u64::MAX),
            Place::Connections | Place::Workers | Place::Peers => (1, 8),
            Place::Messages | Place::Adds => (1, 2000),
            Place::Moves => (0, 16),
            Place::From | Place::Target | Place::More | Place::Id => (1, 255),
            Place::FewMoves => (0, 8),
            Place::Time => (1, 60_000),
            Place::Consumers => (1, 4),
            Place::ManyAdds => (1, 10_000),
            Place::Capacity => (1, 1024),
            Place::Letters => (1, 500),
        };
        Kind::Number { low, high }
    }

    /// Whether a word has to stand there.
    pub(crate) fn is_needed(self) -> bool
        ensures { result ≡ spec.is_needed self }
    {
        !matches!(self, Place::More | Place::Flag)
    }

    /// The places behind this one once a word stands there: those that came behind it, or those that an option asks for.
    pub(crate) fn behind<'a>(self, more: &'a [Place], word: &[u8]) -> &'a [Place]
        ensures { result.now ≡ spec.behind self more.now word.now }
    {
        match self {
            Place::Flag if is_word(word, b"--depot") => &[Place::Folder, Place::Flag],
            Place::Flag if is_word(word, b"--timeout") => &[Place::Time, Place::Flag],
            Place::Flag => &[Place::Flag],
            _ => more,
        }
    }
}
