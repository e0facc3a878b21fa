//! A sink in memory, for tests.

ghost use Rattle.std.specs.Prelude.{◌≡◌, ◌≤◌, vec_len, vec_capacity};

use crate::counts::next;
use crate::error::PortError;
use crate::sink::Sink;
use std::alloc::Global;

/// A sink in memory that tells what was written, for tests: it takes pieces as small as is wished,
/// and fails when it is told to.
#[derive(Debug, Drop)]
pub struct MemSink {
    bytes: Vec<u8>,
    most: usize,
    room: usize,
    fail: Vec<u64>,
    calls: u64,
    faults: u64,
    ghost takes_some: { 1 ≤ most },
    ghost has_room: { room ≤ vec_capacity bytes },
    ghost within: { vec_len bytes ≤ room },
}

impl MemSink {
    ghost use Rattle.std.specs.Prelude.{IfOk, IsOkUnless};
    ghost use Rattle.epic_ports.specs.MemSink.{IsNew, bytes_of};

    /// An empty sink. It takes at most `most` bytes a call, at least 1, and at most `room` bytes in
    /// all, for which it takes the memory here. The writes whose numbers, from 1, stand in `fail`
    /// fail.
    pub fn new(
        alloc: Global,
        most: usize,
        room: usize,
        fail: Vec<u64>,
    ) -> Result<MemSink, PortError>
        requires { 1 ≤ most }
        ensures ok { IfOk result (λ sink. IsNew sink most room fail.items) }
        ensures memory { IsOkUnless result PortError.OutOfMemory }
    {
        let bytes = Vec::with_capacity(alloc, room)?;
        Ok(MemSink {
            bytes,
            most,
            room,
            fail,
            calls: 0,
            faults: 0,
        })
    }

    /// What was written.
    pub fn written(&self) -> &[u8]
        ensures { result.now ≡ bytes_of self.now }
    {
        self.bytes.as_slice()
    }
}

impl Sink for MemSink {
    ghost use Rattle.std.specs.Prelude.{◌≡◌, ◌≤◌, [], Ok, Some};
    ghost use Rattle.epic_ports.specs.Faults.{FailsOnlyBy};
    ghost use Rattle.epic_ports.specs.MemSink.{CountsCall, answer_of, bytes_of, faults_of};
    ghost use Rattle.epic_ports.specs.Written.{TakesSome, WriteAppends};

    ghost written = { λ sink. Some (bytes_of sink) };

    ghost faults = { faults_of };

    fn write(&mut self, bytes: &[u8]) -> Result<usize, PortError>
        ensures bound { TakesSome result bytes.now }
        ensures nothing { bytes.now ≡ [] → result ≡ Ok 0 }
        ensures bytes { WriteAppends
            (Some (bytes_of self.old)) (Some (bytes_of self.new)) result bytes.now }
        ensures later { faults_of self.old ≤ faults_of self.new }
        ensures cause { FailsOnlyBy (faults_of self.old) (faults_of self.new) result }
        ensures answer { result ≡ answer_of self.old bytes.now }
        ensures counts { CountsCall self.old self.new result }
    {
        self.calls = next(self.calls);
        if bytes.is_empty() {
            return Ok(0);
        }
        let taken = bytes.len().min(self.most).min(self.room - self.bytes.len());
        if taken == 0 || self.fail.contains(&self.calls) {
            self.faults = next(self.faults);
            return Err(PortError::Failed);
        }
        match self.bytes.extend_from_slice(&bytes[..taken]) {
            Ok(()) => Ok(taken),
            Err(_) => unreachable!(),
        }
    }
}
