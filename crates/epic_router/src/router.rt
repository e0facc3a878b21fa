//! A router: its AS, the keys that it keeps ready, and its window.
ghost use Rattle.std.specs.Prelude.{◌≡◌, ◌≤◌, [], Ok, OnOk, IsOk, IsTrue};
ghost use Rattle.epic_layout.specs.Contents.{IsPacket};
ghost use Rattle.epic_layout.specs.Layout.{checked, parse};
ghost use Rattle.epic_router.specs.Candidates.{candidates_of};
ghost use Rattle.epic_router.specs.Handling.{handled, turn_of};
ghost use Rattle.epic_router.specs.Remembering.{Remembers, is_accepted, told};
ghost use Rattle.epic_router.specs.RightTurns.{IsRightTurn};
ghost use Rattle.epic_router.specs.Routers.{bytes_after};
ghost use Rattle.epic_topo.specs.Network.{has};
ghost use Rattle.epic_window.specs.Entries.{Same};

use crate::going_on::go_on;
use crate::handling::checked_hops;
use crate::ready::ReadyKeys;
use crate::remembering::window_refusal;
use epic_layout::{Shape, check};
use epic_num::{AsId, Check, OutOfMemory, Profile, Turn};
use epic_topo::Topology;
use epic_view::PacketRef;
use epic_window::Window;
use std::alloc::Global;
use std::marker::Model;

/// The router of an AS. Contracts see its AS and its window.
#[derive(Drop)]
pub struct Router {
    a: AsId,
    keys: ReadyKeys,
    window: Window,
}

impl Model for Router {
    ghost use Rattle.epic_router.specs.Routers.{RouterState};

    ghost Value = { RouterState };

    ghost view = { λ r. record { asn = r.a; window = r.window } };
}

impl Router {
    /// The router of the AS `a`, which remembers no packet. It takes no memory. No answer depends on the seed: it is a
    /// secret that makes it hard to choose packets that are slow to find in the window.
    pub fn new(alloc: Global, profile: &Profile, a: AsId, seed: &[u8; 16]) -> Router
        ensures asn { result.asn ≡ a }
        ensures profile { result.window.profile ≡ profile.now }
        ensures entries { result.window.entries ≡ [] }
        ensures latest { result.window.latest ≡ 0 }
    {
        Router {
            a,
            keys: ReadyKeys::new(),
            window: Window::new(alloc, profile, seed),
        }
    }

    /// Makes room for so many more packets. Out of memory, some of the room may have grown.
    pub fn reserve(&mut self, n: u32) -> Result<(), OutOfMemory>
        ensures room { OnOk result (n ≤ self.new.window.spare) }

        // It fails only where there wasn't room already.
        ensures succeeds { n ≤ self.old.window.spare → IsOk result }

        // Whatever the result, all that is remembered and live stays so, nothing else changes, and no room is lost.
        ensures entries { Same self.old.window.profile self.old.window.latest self.new.window.entries self.old.window.entries }
        ensures latest { self.new.window.latest ≡ self.old.window.latest }
        ensures profile { self.new.window.profile ≡ self.old.window.profile }
        ensures kept { self.old.window.spare ≤ self.new.window.spare }
        ensures asn { self.new.asn ≡ self.old.asn }
    {
        self.window.reserve(n)
    }

    /// For how many more packets there is room.
    pub fn spare(&self) -> u32
        ensures { result ≡ self.now.window.spare }
    {
        self.window.spare()
    }

    /// The moment of the last packet that the window was asked of, in microseconds, or 0 before the first.
    pub fn latest(&self) -> u64
        ensures { result ≡ self.now.window.latest }
    {
        self.window.latest()
    }

    pub fn asn(&self) -> AsId
        ensures { result ≡ self.now.asn }
    {
        self.a
    }

    /// The router gets bytes on its interface `iface`, 0 meaning the inside of the AS, at the moment `now` in microseconds,
    /// in the turn of a number. `generation` is the present one of the AS's forwarding key; the one before it is taken too.
    /// Before, `reserve` makes room for one packet, and `now` is no earlier than `latest`.
    ///
    /// The answer is the first check that fails, or where the packet goes. The checks are, in this order: the layout's; how
    /// the packet comes to its current hop; whether the hop is valid and, at levels 1 to 3, the packet fresh; the hop's tags
    /// and its place in its segment; the same of the next hop, where it is handled too; how the packet leaves; and at levels
    /// 1 to 3 the window's. An accepted packet goes on past the hops that were handled, with their updates at level 3; the
    /// bytes of a refused one stay. It takes no memory.
    pub fn turn(
        &mut self,
        topo: &Topology,
        bytes: &mut [u8],
        iface: u16,
        generation: u32,
        now: u64,
        turn: u32,
    ) -> Turn
        requires known { IsTrue (has topo.now self.old.asn) }
        requires profile { self.old.window.profile ≡ topo.now.profile }
        requires room { 1 ≤ self.old.window.spare }
        requires latest { self.old.window.latest ≤ now }
        ensures answer { result ≡ turn_of topo.now self.old.asn (candidates_of generation) iface now (told self.old.window now (parse bytes.old)) bytes.old }
        ensures bytes { bytes.new ≡ bytes_after topo.now self.old.asn result bytes.old }

        // It remembers an accepted packet of levels 1 to 3, and nothing else.
        ensures window { Remembers self.old.window self.new.window now turn (parse bytes.old) (is_accepted result) }
        ensures asn { self.new.asn ≡ self.old.asn }

        // What it accepts is right.
        ensures right { IsRightTurn topo.now self.old.asn (candidates_of generation) iface now (told self.old.window now (parse bytes.old)) bytes.old result }
    {
        match check(bytes) {
            Ok(sizes) => handle(
                topo,
                self.a,
                &mut self.keys,
                &mut self.window,
                bytes,
                sizes,
                iface,
                generation,
                now,
                turn,
            ),
            Err(fault) => Turn::Refused {
                check: Check::Layout(fault),
                hop: 0,
            },
        }
    }
}

/// The turn of a packet without a fault, whose sizes are known.
#[tactic(auto, using(crate::proofs::Places::current_parse))]
fn handle(
    topo: &Topology,
    a: AsId,
    keys: &mut ReadyKeys,
    window: &mut Window,
    bytes: &mut [u8],
    sizes: Shape,
    iface: u16,
    generation: u32,
    now: u64,
    turn: u32,
) -> Turn
    requires known { IsTrue (has topo.now a) }
    requires profile { window.old.profile ≡ topo.now.profile }
    requires room { 1 ≤ window.old.spare }
    requires latest { window.old.latest ≤ now }
    requires checked { Ok sizes ≡ checked bytes.old }
    ensures packet { IsPacket (parse bytes.old) }
    ensures answer { result ≡ handled topo.now a (candidates_of generation) iface now (told window.old now (parse bytes.old)) (parse bytes.old) }
    ensures bytes { bytes.new ≡ bytes_after topo.now a result bytes.old }
    ensures window { Remembers window.old window.new now turn (parse bytes.old) (is_accepted result) }
{
    let packet = PacketRef::of(bytes, sizes);
    let handled = match checked_hops(topo, keys, &packet, a, iface, generation, now) {
        Ok(handled) => handled,
        Err((check, hop)) => return Turn::Refused { check, hop },
    };
    if let Some((check, hop)) = window_refusal(window, &packet, now, turn) {
        return Turn::Refused { check, hop };
    }
    go_on(bytes, sizes, &handled)
}
