//! The bytes of a file that were fed and not passed, in a buffer that never grows.
ghost use Rattle.std.specs.Prelude.{◌≡◌, ◌≤◌, ◌+◌, ◌-◌, ℕ, [], ◌++◌, length, take, drop, min, vec_capacity, IfOk};

use epic_num::OutOfMemory;
use std::alloc::Global;
use std::marker::Model;

/// At most `SIZE` bytes in their order, with those that were passed last.
#[derive(Drop)]
pub struct Buffer<const SIZE: usize> {
    bytes: Vec<u8>,
    last: usize,
    start: usize,
}

impl<const SIZE: usize> Model for Buffer<SIZE> {
    ghost use Rattle.std.specs.Prelude.{◌≤◌, ◌-◌, length, take, drop, vec_capacity};
    ghost use Rattle.epic_capture.specs.Held.{Held};

    ghost Value = { Held };

    ghost view = { λ b. record { last = take (b.start - b.last) (drop b.last b.bytes.items); held = drop b.start b.bytes.items } };

    ghost invariant = { λ b. (b.last ≤ b.start) × (b.start ≤ length b.bytes.items) × (length b.bytes.items ≤ SIZE) × (SIZE ≤ vec_capacity b.bytes) };
}

/// Moves the bytes from `start` on to the front, so that there is room behind them.
fn drop_front(bytes: &mut Vec<u8>, start: usize)
    requires { start ≤ length bytes.old.items }
    ensures items { bytes.new.items ≡ drop start bytes.old.items }
    ensures capacity { vec_capacity bytes.new ≡ vec_capacity bytes.old }
{
    if start == 0 {
        return;
    }
    let count = bytes.len() - start;
    bytes.copy_within(start.., 0);
    bytes.truncate(count);
}

impl<const SIZE: usize> Buffer<SIZE> {
    /// A buffer that holds nothing.
    pub fn new(alloc: Global) -> Result<Buffer<SIZE>, OutOfMemory>
        ensures { IfOk result (λ b. b.held ≡ []) }
    {
        match Vec::with_capacity(alloc, SIZE) {
            Ok(bytes) => Ok(Buffer {
                bytes,
                last: 0,
                start: 0,
            }),
            Err(_) => Err(OutOfMemory),
        }
    }

    /// The bytes that are held.
    pub fn held(&self) -> &[u8]
        ensures value { result.now ≡ self.now.held }
        ensures few { length self.now.held ≤ SIZE }
    {
        &self.bytes[self.start..]
    }

    /// The bytes that the last `pass` let go. They lie there until something is fed.
    pub fn last(&self) -> &[u8]
        ensures { result.now ≡ self.now.last }
    {
        &self.bytes[self.last..self.start]
    }

    /// Takes as many bytes of a piece as there is room for, and says how many.
    pub fn feed(&mut self, piece: &[u8]) -> usize
        ensures count { result ≡ min (length piece.now) (SIZE - length self.old.held) }
        ensures bytes { self.new.held ≡ self.old.held ++ take result piece.now }
        ensures few { length self.new.held ≤ SIZE }
    {
        drop_front(&mut self.bytes, self.start);
        self.last = 0;
        self.start = 0;
        let count = piece.len().min(SIZE - self.bytes.len());
        let Ok(()) = self.bytes.extend_from_slice(&piece[..count]) else {
            unreachable!()
        };
        count
    }

    /// Lets the first `count` bytes go.
    pub fn pass(&mut self, count: usize)
        requires { count ≤ length self.old.held }
        ensures held { self.new.held ≡ drop count self.old.held }
        ensures last { self.new.last ≡ take count self.old.held }
    {
        self.last = self.start;
        self.start += count;
    }
}
