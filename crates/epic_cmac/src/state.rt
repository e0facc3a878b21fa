//! The tag of a message that comes in pieces.

ghost use Rattle.std.specs.Prelude.{◌≡◌, [], ◌++◌};
ghost use Rattle.epic_cmac.specs.Cmac.{cmac};

use crate::key::CmacKey;
use crate::message::Message;
use crate::pieces::feed;
use std::marker::Model;

/// A tag in the making. Clauses see the key and the message so far.
#[derive(Drop)]
pub struct CmacState {
    key: CmacKey,
    chain: [u8; 16],
    buffer: [u8; 16],
    used: usize,
    message: Message,
}

impl Model for CmacState {
    ghost use Rattle.epic_cmac.specs.Pieces.{Fed, IsHeld};

    ghost Value = { Fed };

    ghost view = { λ s. record { key = s.key; message = s.message.bytes } };

    ghost invariant = { λ s. IsHeld s.key s.chain s.buffer s.used s.message.bytes };
}

impl CmacState {
    /// An empty message under the 16 bytes of `key`.
    pub fn start(key: &[u8; 16]) -> CmacState
        ensures { result ≡ record { key = key.now; message = [] } }
    {
        CmacState {
            key: CmacKey::new(key),
            chain: [0; 16],
            buffer: [0; 16],
            used: 0,
            message: Message::empty(),
        }
    }

    /// Puts a piece behind the message.
    pub fn update(&mut self, piece: &[u8])
        ensures { self.new ≡ record self.old { message = self.old.message ++ piece.now } }
    {
        self.used = feed(
            &self.key,
            &mut self.chain,
            &mut self.buffer,
            self.used,
            piece,
        );
        self.message.append(piece);
    }

    /// The tag, of 16 bytes, of all pieces joined (RFC 4493 2.4).
    pub fn finish(self) -> [u8; 16]
        ensures { result ≡ cmac self.key self.message }
    {
        self.key.end(self.chain, &self.buffer[..self.used])
    }
}
