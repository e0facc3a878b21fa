//! What a link is for the AS at its end.

/// What a link is for the AS at one end of it.
#[derive(Clone, Copy, Debug, PartialEq, Eq)]
pub enum LinkKind {
    /// Both ends are core ASes.
    Core,
    /// This AS is the parent of the other.
    Parent,
    /// This AS is the child of the other.
    Child,
}

impl LinkKind {
    ghost use Rattle.std.specs.Prelude.{◌≡◌};
    ghost use Rattle.epic_topo.specs.Network.{turned};

    /// What the link is for the AS at its other end.
    pub(crate) fn turned(self) -> LinkKind
        ensures { result ≡ turned self }
    {
        match self {
            LinkKind::Core => LinkKind::Core,
            LinkKind::Parent => LinkKind::Child,
            LinkKind::Child => LinkKind::Parent,
        }
    }
}
