//! The tag of a message that comes in pieces, under a key that was made ready before.

ghost use Rattle.std.specs.Prelude.{◌≡◌, [], ◌++◌};
ghost use Rattle.epic_cmac.specs.Cmac.{cmac};

use crate::key::CmacKey;
use crate::message::Message;
use crate::pieces::feed;
use std::marker::Model;

/// A tag in the making under a key that is kept ready elsewhere, as `CmacState` is under a key of its own. Clauses see the key
/// and the message so far.
#[derive(Drop)]
pub struct CmacWriter<'k> {
    key: &'k CmacKey,
    chain: [u8; 16],
    buffer: [u8; 16],
    used: usize,
    message: Message,
}

impl<'k> Model for CmacWriter<'k> {
    ghost use Rattle.epic_cmac.specs.Pieces.{Fed, IsHeld};

    ghost Value = { Fed };

    ghost view = { λ s. record { key = s.key.now; message = s.message.bytes } };

    ghost invariant = { λ s. IsHeld s.key.now s.chain s.buffer s.used s.message.bytes };
}

impl<'k> CmacWriter<'k> {
    /// An empty message under the key.
    pub fn start(key: &'k CmacKey) -> CmacWriter<'k>
        ensures { result ≡ record { key = key.now; message = [] } }
    {
        CmacWriter {
            key,
            chain: [0; 16],
            buffer: [0; 16],
            used: 0,
            message: Message::empty(),
        }
    }

    /// Puts a piece behind the message.
    pub fn update(&mut self, piece: &[u8])
        ensures { self.new ≡ record self.old { message = self.old.message ++ piece.now } }
    {
        self.used = feed(
            self.key,
            &mut self.chain,
            &mut self.buffer,
            self.used,
            piece,
        );
        self.message.append(piece);
    }

    /// The tag, of 16 bytes, of all pieces joined (RFC 4493 2.4).
    pub fn finish(self) -> [u8; 16]
        ensures { result ≡ cmac self.entry.key self.entry.message }
    {
        self.key.end(self.chain, &self.buffer[..self.used])
    }
}
