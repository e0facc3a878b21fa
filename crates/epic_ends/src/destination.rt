//! A destination, and what it answers to the bytes that come to it.
ghost use Rattle.std.specs.Prelude.{◌≡◌, ◌≤◌, [], IsOk, IsTrue, OnOk};
ghost use Rattle.epic_layout.specs.Layout.{parse};
ghost use Rattle.epic_topo.specs.Network.{has};
ghost use Rattle.epic_window.specs.Entries.{Same};
ghost use Rattle.epic_router.specs.Remembering.{Retains};
ghost use Rattle.epic_ends.specs.Arriving.{arrival_of};
ghost use Rattle.epic_ends.specs.Destinations.{end_key, is_accepted, told_at};
ghost use Rattle.epic_ends.specs.RightArrivals.{IsRightArrival};

use crate::arriving::arrived;
use epic_keys::SharedKeys;
use epic_num::{Arrival, DestCheck, HostId, OutOfMemory, Profile};
use epic_topo::Topology;
use epic_view::PacketRef;
use epic_window::Window;
use std::alloc::Global;
use std::marker::Model;

/// A host to which packets come, and what it remembers of those that it accepted.
#[derive(Drop)]
pub struct Dest {
    host: HostId,
    // Those that it shares with sources.
    keys: SharedKeys,
    window: Window,
}

impl Model for Dest {
    ghost use Rattle.epic_ends.specs.Destinations.{Destination};

    ghost Value = { Destination };

    ghost view = { λ d. record { host = d.host; window = d.window } };
}

impl Dest {
    /// A destination to which nothing came yet, with the settings of its topology. It takes no memory. No answer depends on
    /// the seed, which is a secret of the host.
    pub fn new(alloc: Global, profile: &Profile, host: HostId, seed: &[u8; 16]) -> Dest
        ensures host { result.host ≡ host }
        ensures profile { result.window.profile ≡ profile.now }
        ensures entries { result.window.entries ≡ [] }
        ensures latest { result.window.latest ≡ 0 }
    {
        Dest {
            host,
            keys: SharedKeys::new(),
            window: Window::new(alloc, profile, seed),
        }
    }

    pub fn host(&self) -> HostId
        ensures { result ≡ self.now.host }
    {
        self.host
    }

    /// Makes room to accept so many more packets. Out of memory, some of the room may have grown.
    pub fn reserve(&mut self, n: u32) -> Result<(), OutOfMemory>
        ensures room { OnOk result (n ≤ self.new.window.spare) }

        // It fails only where there wasn't room already.
        ensures succeeds { n ≤ self.old.window.spare → IsOk result }

        // Whatever the result, all that is live stays so, nothing else changes, and no room is lost.
        ensures entries { Same self.old.window.profile self.old.window.latest self.new.window.entries self.old.window.entries }
        ensures latest { self.new.window.latest ≡ self.old.window.latest }
        ensures profile { self.new.window.profile ≡ self.old.window.profile }
        ensures host { self.new.host ≡ self.old.host }
        ensures kept { self.old.window.spare ≤ self.new.window.spare }
    {
        self.window.reserve(n)
    }

    /// How many more packets there is room to accept.
    pub fn spare(&self) -> u32
        ensures { result ≡ self.now.window.spare }
    {
        self.window.spare()
    }

    /// The moment in microseconds at which the window was last asked, or 0 before that.
    pub fn latest(&self) -> u64
        ensures { result ≡ self.now.window.latest }
    {
        self.window.latest()
    }

    /// Bytes come to the host at the moment `now`, in microseconds, in the turn of a number. Its AS is one of the topology's,
    /// whose settings are those of the window; there is room for one more packet, and no later moment was before. It takes no
    /// memory.
    pub fn arrive(&mut self, topo: &Topology, bytes: &[u8], now: u64, turn: u32) -> Arrival
        requires known { IsTrue (has topo.now self.old.host.asn) }
        requires profile { self.old.window.profile ≡ topo.now.profile }
        requires room { 1 ≤ self.old.window.spare }
        requires latest { self.old.window.latest ≤ now }

        // The first check that fails, or that none does.
        ensures answer { result ≡ arrival_of topo.now self.old.host now (told_at self.old.window now (parse bytes.now)) bytes.now }

        // An accepted packet is remembered. Whatever the answer, nothing else changes.
        ensures window { Retains self.old.window self.new.window (end_key (parse bytes.now)) now turn (is_accepted result) }
        ensures host { self.new.host ≡ self.old.host }

        // What is accepted, or taken without a check of its content, is right.
        ensures right { IsRightArrival topo.now self.old.host now (told_at self.old.window now (parse bytes.now)) bytes.now result }
    {
        match PacketRef::look(bytes) {
            Ok(packet) => arrived(
                topo,
                self.host,
                &mut self.keys,
                &packet,
                &mut self.window,
                now,
                turn,
            ),
            Err(fault) => Arrival::Refused(DestCheck::Layout(fault)),
        }
    }
}
