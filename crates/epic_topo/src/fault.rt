//! Why a text is no topology.

ghost use Rattle.std.specs.Prelude.{◌≡◌};
ghost use Rattle.epic_topo.specs.Words.{key_word, kind_word};

/// What is wrong with a topology's text.
#[derive(Clone, Copy, Debug, PartialEq, Eq)]
pub enum TopoKind {
    /// The text isn't UTF-8, or isn't TOML.
    NotToml,
    /// A key that has to be there isn't.
    Missing,
    /// A value is of another type than its key asks for, or a link's kind is another word.
    WrongKind,
    /// A setting of the profile is out of its range.
    BadProfile,
    /// There are more than 4,096 ASes, or more than 16,384 links.
    TooMany,
    /// A text isn't the name of an AS.
    BadAs,
    /// A master key isn't 32 hexadecimal digits.
    BadKey,
    /// An earlier AS has the same name.
    DuplicateAs,
    /// A link ends at an AS that isn't there.
    UnknownAs,
    /// An interface isn't 1 to 65,535.
    BadInterface,
    /// Both ends of a link are of one AS.
    SelfLink,
    /// An earlier link ends at the same interface.
    InterfaceTwice,
    /// A core link has an end that isn't core, or the child of a child link is core or of another
    /// isolation domain than the parent.
    CoreRule,
}

/// Where in a topology's text a fault is.
#[derive(Clone, Copy, Debug, PartialEq, Eq)]
pub enum TopoKey {
    /// The whole text.
    Text,
    /// The table of the settings.
    Profile,
    LifetimeUs,
    SkewUs,
    EpochS,
    Window,
    /// The ASes, or one of them.
    As,
    Name,
    Core,
    Key,
    /// The links, or one of them.
    Link,
    Kind,
    A,
    AIf,
    B,
    BIf,
}

/// Why a text was refused as a topology.
#[derive(Clone, Copy, Debug, PartialEq, Eq)]
pub enum TopoError {
    /// The text's first fault. `item` is the place of its AS or link, from 1, and 0 elsewhere.
    Bad {
        kind: TopoKind,
        key: TopoKey,
        item: u32,
    },
    OutOfMemory,
}

impl TopoKind {
    /// The fault's word, as in `interface-twice`.
    #[tactic(auto, unfolding(crate::specs::Words::kind_word))]
    pub fn word(self) -> &'static str
        ensures { result.now ≡ kind_word self }
    {
        match self {
            TopoKind::NotToml => "not-toml",
            TopoKind::Missing => "missing",
            TopoKind::WrongKind => "wrong-kind",
            TopoKind::BadProfile => "bad-profile",
            TopoKind::TooMany => "too-many",
            TopoKind::BadAs => "bad-as",
            TopoKind::BadKey => "bad-key",
            TopoKind::DuplicateAs => "duplicate-as",
            TopoKind::UnknownAs => "unknown-as",
            TopoKind::BadInterface => "bad-interface",
            TopoKind::SelfLink => "self-link",
            TopoKind::InterfaceTwice => "interface-twice",
            TopoKind::CoreRule => "core-rule",
        }
    }
}

impl TopoKey {
    /// The key's name in a topology's text; `text`, `profile`, `as` and `link` besides.
    #[tactic(auto, unfolding(crate::specs::Words::key_word))]
    pub fn word(self) -> &'static str
        ensures { result.now ≡ key_word self }
    {
        match self {
            TopoKey::Text => "text",
            TopoKey::Profile => "profile",
            TopoKey::LifetimeUs => "lifetime_us",
            TopoKey::SkewUs => "skew_us",
            TopoKey::EpochS => "epoch_s",
            TopoKey::Window => "window",
            TopoKey::As => "as",
            TopoKey::Name => "name",
            TopoKey::Core => "core",
            TopoKey::Key => "key",
            TopoKey::Link => "link",
            TopoKey::Kind => "kind",
            TopoKey::A => "a",
            TopoKey::AIf => "a_if",
            TopoKey::B => "b",
            TopoKey::BIf => "b_if",
        }
    }
}
