//! A small ledger with an event of each kind, and what it answers.
ghost use Rattle.std.specs.Prelude.{◌≡◌, ◌+◌, ◌≤◌, [], ◌∷◌, ◌++◌};
ghost use Rattle.epic_ledger.specs.Facts.{issues_in};
ghost use Rattle.epic_ledger.specs.History.{step_of};
ghost use Rattle.epic_ledger.specs.Lawful.{Fits, IsLast};

use super::*;
use arrayvec::ArrayVec;
use epic_num::{AsId, Body, Holder, HopName, HostId, Place};
use epic_view::PacketRef;
use std::alloc::Global;
use std::process::Abort;
use std::test::Fail;

const FIRST: AsId = AsId(0x0001_ff00_0000_0110);

const SECOND: AsId = AsId(0x0001_ff00_0000_0111);

const SOURCE: HostId = HostId {
    asn: FIRST,
    host: 1,
};

const TARGET: HostId = HostId {
    asn: SECOND,
    host: 2,
};

const SENT_AT: u64 = 1_700_000_000_000_000;

/// Level 0 of version 1, over one segment of two hops, with no payload.
const PACKET: [u8; 80] = [
    0xe0, 0x00, 0x00, 0x50, 0x00, 0x00, 0x01, 0x01, 0x00, 0x01, 0xff, 0x00, 0x00, 0x00, 0x01, 0x10,
    0x00, 0x01, 0xff, 0x00, 0x00, 0x00, 0x01, 0x11, 0x00, 0x00, 0x00, 0x01, 0x00, 0x00, 0x00, 0x02,
    0x00, 0x06, 0x0a, 0x24, 0x18, 0x1e, 0x40, 0x00, 0x00, 0x02, 0x00, 0x00, 0x65, 0x53, 0xf1, 0x00,
    0x3f, 0x00, 0x00, 0x00, 0x02, 0x00, 0x00, 0x00, 0x00, 0x00, 0x00, 0x00, 0x00, 0xc1, 0x1c, 0x94,
    0x3f, 0x00, 0x01, 0x00, 0x00, 0xf0, 0x2f, 0xdc, 0xef, 0x5b, 0xe8, 0x61, 0x97, 0x30, 0x95, 0xd2,
];

const FIRST_HOP: HopName = HopName {
    asn: FIRST,
    generation: 0,
    body: Body {
        pos: 1,
        exp: 63,
        ts_path: 0x6553_f100,
        inn: 0,
        out: 2,
        link: [0; 8],
    },
};

const SECOND_HOP: HopName = HopName {
    asn: SECOND,
    generation: 0,
    body: Body {
        pos: 2,
        exp: 63,
        ts_path: 0x6553_f100,
        inn: 1,
        out: 0,
        link: [0xf0, 0x2f, 0xdc, 0xef, 0x5b, 0xe8, 0x61, 0x97],
    },
};

#[test]
fn a_reserve_gives_room(rt: HostRuntime) -> Result<(), Fail> {
    let mut ledger = Ledger::new(rt.alloc());
    assert!(rt; ledger.emitted() == 0);
    ledger.reserve(1, 1, 80)?;
    let (events, emissions, bytes) = ledger.spare();
    assert!(rt; events >= 1 && emissions >= 1 && bytes >= 80);
    assert!(rt; epic_layout::check(&PACKET).is_ok());
    let number = ledger.emit(Place::Host(TARGET), &PACKET);
    let after = ledger.spare();
    assert_eq!(rt; number, 1);
    assert_eq!(rt; after, (events, emissions - 1, bytes - 80));
    assert_eq!(rt; ledger.emitted(), 80);
    Ok(())
}

/// Records an event of step 7, the only one of these tests.
fn record_event(ledger: &mut Ledger, event: Event)
    requires room { 1 ≤ ledger.old.spare.events }
    requires step { step_of event ≡ 7 }
    requires before { IsLast ledger.old.history.events 7 }
    requires fits { Fits ledger.old.history.emissions (issues_in ledger.old.history.events) event }
    ensures events { ledger.new.history.events ≡ ledger.old.history.events ++ event ∷ [] }
    ensures emissions { ledger.new.history.emissions ≡ ledger.old.history.emissions }
    ensures spare { ledger.old.spare.events ≤ ledger.new.spare.events + 1 }
    ensures after { IsLast ledger.new.history.events 7 }
{
    ledger.push(event);
}

/// Records the issue of the first hop, and of the second, which goes on from it.
#[tactic(auto, unfolding(crate::specs::Facts::as_issue, crate::specs::History::step_of))]
fn issue_hops(ledger: &mut Ledger)
    requires none { ledger.old.history.events ≡ [] }
    requires room { 8 ≤ ledger.old.spare.events }
    ensures events { ledger.new.history.events ≡ Event.Issue 7 1 FIRST_HOP 0 ∷ Event.Issue 7 2 SECOND_HOP 1 ∷ [] }
    ensures emissions { ledger.new.history.emissions ≡ ledger.old.history.emissions }
    ensures spare { 6 ≤ ledger.new.spare.events }
    ensures after { IsLast ledger.new.history.events 7 }
{
    record_event(
        ledger,
        Event::Issue {
            step: 7,
            no: 1,
            name: FIRST_HOP,
            parent: 0,
        },
    );
    record_event(
        ledger,
        Event::Issue {
            step: 7,
            no: 2,
            name: SECOND_HOP,
            parent: 1,
        },
    );
}

/// Records that the packet was sent over these hops, and that a router accepted the first.
#[tactic(auto, unfolding(crate::specs::History::step_of))]
fn send(ledger: &mut Ledger)
    requires issues { ledger.old.history.events ≡ Event.Issue 7 1 FIRST_HOP 0 ∷ Event.Issue 7 2 SECOND_HOP 1 ∷ [] }
    requires emissions { ledger.old.history.emissions ≡ record { place = Place.Host TARGET; bytes = PACKET } ∷ [] }
    requires room { 6 ≤ ledger.old.spare.events }
    requires before { IsLast ledger.old.history.events 7 }
    ensures spare { 4 ≤ ledger.new.spare.events }
    ensures after { IsLast ledger.new.history.events 7 }
{
    let mut segments = ArrayVec::new();
    segments.push(2);
    record_event(
        ledger,
        Event::Send {
            step: 7,
            emission: 1,
            segments,
        },
    );
    record_event(
        ledger,
        Event::Pass {
            step: 7,
            a: FIRST,
            hop: 0,
            generation: 0,
            emission: 1,
        },
    );
}

/// Records four events that name no packet.
#[tactic(auto, unfolding(crate::specs::History::step_of))]
fn go_on(ledger: &mut Ledger)
    requires room { 4 ≤ ledger.old.spare.events }
    requires before { IsLast ledger.old.history.events 7 }
{
    record_event(
        ledger,
        Event::Arrive {
            step: 7,
            host: TARGET,
            src: SOURCE,
            ts: SENT_AT,
            hops: 2,
            checked: false,
        },
    );
    record_event(
        ledger,
        Event::Reveal {
            step: 7,
            holder: Holder::Host(SOURCE),
        },
    );
    record_event(
        ledger,
        Event::Roll {
            step: 7,
            a: SECOND,
            generation: 1,
        },
    );
    record_event(
        ledger,
        Event::Fetch {
            step: 7,
            source: FIRST,
            owner: SECOND,
            epoch: 12,
        },
    );
}

/// A ledger with one event of each kind but two issues, and the packet's emission.
fn filled(rt: &impl Abort, alloc: Global) -> Result<Ledger, Fail> {
    let mut ledger = Ledger::new(alloc);
    assert!(rt; ledger.emitted() == 0);
    ledger.reserve(8, 1, 80)?;
    let (events, emissions, bytes) = ledger.spare();
    assert!(rt; events >= 8 && emissions >= 1 && bytes >= 80);
    assert!(rt; epic_layout::check(&PACKET).is_ok());
    assert_eq!(rt; ledger.emit(Place::Host(TARGET), &PACKET), 1);
    issue_hops(&mut ledger);
    send(&mut ledger);
    go_on(&mut ledger);
    Ok(ledger)
}

#[test]
fn what_was_recorded_is_found(rt: HostRuntime) -> Result<(), Fail> {
    let ledger = filled(&rt, rt.alloc())?;
    assert_eq!(rt; ledger.issue_of(&SECOND_HOP), Some(2));
    assert_eq!(rt; ledger.send_of(SOURCE, SENT_AT), Some(1));
    assert_eq!(rt; ledger.send_hop(SOURCE, SENT_AT, 0), Some(1));
    assert_eq!(rt; ledger.send_hop(SOURCE, SENT_AT, 1), Some(2));
    assert_eq!(rt;
        ledger.pass_of(0xe0, &FIRST_HOP, SOURCE, SENT_AT, 0),
        Some(3)
    );
    assert_eq!(rt; ledger.revealed(&Holder::Host(SOURCE)), Some(7));
    let Ok(packet) = PacketRef::look(&PACKET) else {
        return Err("a packet".into());
    };
    assert_eq!(rt; ledger.chain_pass(&packet, 0), Some((FIRST, 0, 1)));
    Ok(())
}

#[test]
fn what_was_not_recorded_is_not_found(rt: HostRuntime) -> Result<(), Fail> {
    let ledger = filled(&rt, rt.alloc())?;
    let later = HopName {
        generation: 1,
        ..SECOND_HOP
    };
    assert_eq!(rt; ledger.issue_of(&later), None);
    assert_eq!(rt; ledger.send_of(TARGET, SENT_AT), None);
    assert_eq!(rt; ledger.send_hop(SOURCE, SENT_AT, 2), None);
    assert_eq!(rt; ledger.pass_of(0xe3, &FIRST_HOP, SOURCE, SENT_AT, 0), None);
    assert_eq!(rt; ledger.revealed(&Holder::As(FIRST)), None);
    let Ok(packet) = PacketRef::look(&PACKET) else {
        return Err("a packet".into());
    };
    assert_eq!(rt; ledger.chain_pass(&packet, 1), None);
    Ok(())
}

#[test]
fn each_number_has_its_event_or_emission(rt: HostRuntime) -> Result<(), Fail> {
    let ledger = filled(&rt, rt.alloc())?;
    assert_eq!(rt; ledger.events(), 8);
    assert_eq!(rt; ledger.issues(), 2);
    assert_eq!(rt; ledger.issue(2), Some((SECOND_HOP, 1)));
    assert_eq!(rt; ledger.emissions(), 1);
    assert!(rt; matches!(ledger.event(5), Some(Event::Reveal { step: 7, .. })));
    assert!(rt; ledger.event(8).is_none());
    assert!(rt; ledger.emission(2).is_none() && ledger.packet(0).is_none());
    let Some((place, bytes)) = ledger.emission(1) else {
        return Err("an emission".into());
    };
    assert!(rt; place == Place::Host(TARGET) && bytes == PACKET.as_slice());
    Ok(())
}
