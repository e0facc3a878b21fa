//! What the messages of tags keep apart.
ghost use Rattle.epic_num.specs.Messages.{FieldMessagesDiffer, Field1MessagesDiffer, AuthenticatorMessagesDiffer, LinkMessagesDiffer, DomainsDiffer};

/// Equal messages of fields are made over the same: at levels 2 and 3 the packet's first byte, timestamp, source,
/// index and authenticator, at level 1 timestamp, source and index.
pub fn field_messages()
    ensures levels_2_and_3 { FieldMessagesDiffer }
    ensures level_1 { Field1MessagesDiffer }
{}

/// Equal messages of authenticators are made over one body, and so are equal messages of link tags.
pub fn hop_messages()
    ensures authenticators { AuthenticatorMessagesDiffer }
    ensures links { LinkMessagesDiffer }
{}

/// No two kinds of messages begin alike.
pub fn message_kinds()
    ensures { DomainsDiffer }
{}
