//! What else a report says of the passes of a step.

ghost use Rattle.std.specs.Prelude.{◌≡◌, ℕ, ◌+◌, ◌<◌, ◌≤◌, ◌∷◌, ◌++◌, [], false, List, Option, IfOk, IsTrue, OnOk, flat_map, if◌then◌else◌, length, map, slice_index, take};
ghost use Rattle.std.specs.List.{All, list_any};
ghost use Rattle.epic_num.specs.declared.hop.Level.TheVariants.{L1};
ghost use Rattle.epic_num.specs.Levels.{level_of};
ghost use Rattle.epic_layout.specs.Contents.{hop_count};
ghost use Rattle.epic_layout.specs.Layout.{parse};
ghost use Rattle.epic_topo.specs.Network.{Network, has};
ghost use Rattle.epic_fields.specs.HopChecks.{hop_name};
ghost use Rattle.epic_ledger.specs.Facts.{facts_of};
ghost use Rattle.epic_actors.specs.Telling.{IsHopAccepted};
ghost use Rattle.epic_holders.specs.Makers.{maker_verdict};
ghost use Rattle.epic_policer.specs.Policing.{Offer};
ghost use Rattle.epic_text.specs.Notes.{nothing_noted as no_notes};
ghost use Rattle.epic_text.specs.Report.{emission_bytes};
ghost use Rattle.epic_words.specs.Request.{Policing};
ghost use Rattle.epic_app.specs.Noting as spec;
ghost use Rattle.epic_app.specs.Policed.{ArePoliced, IsNotable, IsNotablePass};

use crate::showing::Showing;
use epic_holders::{Maker, maker_of, print_maker};
use epic_layout::shape_of;
use epic_num::{
    Answer, AsId, Command, Level, OutOfMemory, PassResult, Passed, Place, Turn, is_tagged, level_of,
};
use epic_policer::{Policed, Policers};
use epic_text::{Notes, bytes_in, emission_bytes, print_line};
use epic_view::PacketRef;
use epic_world::World;
use std::alloc::Global;

/// The lines of makers, and whether one of these is an alarm.
#[derive(Drop)]
struct Makers {
    lines: Vec<Vec<u8>>,
    alarm: bool,
}

/// What is noted of a pass, and whether a maker among it is an alarm.
#[derive(Drop)]
struct Noted {
    notes: Notes,
    alarm: bool,
}

/// What is noted of passes, and whether a maker among it is an alarm.
#[derive(Drop)]
pub(crate) struct AllNoted {
    pub(crate) notes: Vec<Notes>,
    pub(crate) alarm: bool,
}

/// Whether a maker tells of a forged tag, or of two hops with one authenticator.
fn alarms(maker: &Maker) -> bool
    ensures { result ≡ spec.alarms maker.now }
{
    match maker {
        Maker::AsHop | Maker::Made { .. } | Maker::Opened { .. } => false,
        Maker::Collided { .. } | Maker::Forged => true,
    }
}

/// Appends the line of the maker of a hop that the router of an AS accepted under a generation, and
/// says whether that is an alarm.
fn push_maker(
    to: &mut Vec<Vec<u8>>,
    world: &World,
    number: u32,
    a: AsId,
    generation: u32,
    packet: &PacketRef<'_>,
    hop: u8,
) -> Result<bool, OutOfMemory>
    requires known { IsTrue (has world.now.network a) }
    requires within { hop < hop_count packet.now }
    requires level { level_of packet.now.first ≡ L1 }
    requires accepted { IsHopAccepted world.now.network a generation packet.now hop }
    ensures alarm { IfOk result (λ alarm. alarm ≡ spec.alarms
        (maker_verdict world.now.network (facts_of world.now.state.history) (hop_name a generation packet.now hop) packet.now hop)) }
    ensures line { OnOk result (map (λ x. x.items) to.new.items ≡ map (λ x. x.items) to.old.items
        ++ spec.maker_line world.now.network number a generation packet.now hop
        (maker_verdict world.now.network (facts_of world.now.state.history) (hop_name a generation packet.now hop) packet.now hop) ∷ []) }
{
    let alloc = *to.allocator();
    let topo = world.topology();
    let maker = maker_of(world.ledger(), topo, a, generation, packet, hop);
    let Ok(front) = format!(in alloc; "maker {hop} ") else {
        return Err(OutOfMemory);
    };
    let mut words = front.into_bytes();
    print_maker(&mut words, topo, a, generation, packet, hop, &maker)?;
    let mut line = Vec::new(alloc);
    print_line(&mut line, number, &words)?;
    match to.push(line) {
        Ok(()) => Ok(alarms(&maker)),
        Err(_) => Err(OutOfMemory),
    }
}

/// The makers of so many hops of a packet of level 1, one or two, from its current hop on.
fn makers_of(
    alloc: Global,
    world: &World,
    number: u32,
    a: AsId,
    packet: &PacketRef<'_>,
    hops: u8,
    generations: &[u32; 2],
) -> Result<Makers, OutOfMemory>
    requires known { IsTrue (has world.now.network a) }
    requires some { 1 ≤ hops }
    requires few { hops ≤ 2 }
    requires within { packet.now.current + hops ≤ hop_count packet.now }
    requires level { level_of packet.now.first ≡ L1 }
    requires accepted { (i : ℕ) → i < hops → IsHopAccepted world.now.network a (slice_index generations.now i) packet.now (packet.now.current + i) }
    ensures lines { IfOk result (λ r. map (λ x. x.items) r.lines.items
        ≡ spec.makers_along world.now.network (facts_of world.now.state.history) (spec.maker_line world.now.network number) a packet.now packet.now.current (take hops generations.now)) }
    ensures alarm { IfOk result (λ r. r.alarm
        ≡ list_any spec.alarms (spec.makers_along world.now.network (facts_of world.now.state.history) (λ b g p j m. m) a packet.now packet.now.current (take hops generations.now))) }
{
    let _shape = packet.shape();
    let hop = packet.current();
    let mut lines = Vec::new(alloc);
    let first = push_maker(&mut lines, world, number, a, generations[0], packet, hop)?;
    if hops == 1 {
        return Ok(Makers {
            lines,
            alarm: first,
        });
    }
    let second = push_maker(
        &mut lines,
        world,
        number,
        a,
        generations[1],
        packet,
        hop + 1,
    )?;
    Ok(Makers {
        lines,
        alarm: first || second,
    })
}

/// The makers of so many hops, one or two, of a packet that the router of the AS `a` accepted: none
/// where the packet isn't of level 1, or they aren't shown.
fn shown_makers(
    alloc: Global,
    world: &World,
    show: &Showing,
    number: u32,
    a: AsId,
    packet: &PacketRef<'_>,
    hops: u8,
    generations: &[u32; 2],
) -> Result<Makers, OutOfMemory>
    requires known { IsTrue (has world.now.network a) }
    requires some { 1 ≤ hops }
    requires few { hops ≤ 2 }
    requires within { packet.now.current + hops ≤ hop_count packet.now }
    requires accepted { (i : ℕ) → i < hops → IsHopAccepted world.now.network a (slice_index generations.now i) packet.now (packet.now.current + i) }
    ensures lines { IfOk result (λ r. map (λ x. x.items) r.lines.items
        ≡ (if show.now.makers then spec.at_level_1 (level_of packet.now.first) (spec.makers_along world.now.network (facts_of world.now.state.history) (spec.maker_line world.now.network number) a packet.now packet.now.current (take hops generations.now)) else [])) }
    ensures alarm { IfOk result (λ r. r.alarm
        ≡ list_any spec.alarms (if show.now.makers then spec.at_level_1 (level_of packet.now.first) (spec.makers_along world.now.network (facts_of world.now.state.history) (λ b g p j m. m) a packet.now packet.now.current (take hops generations.now)) else [])) }
{
    let none = Makers {
        lines: Vec::new(alloc),
        alarm: false,
    };
    if !show.makers() {
        return Ok(none);
    }
    match level_of(packet.first_byte()) {
        Level::L1 => makers_of(alloc, world, number, a, packet, hops, generations),
        Level::L0 | Level::L2 | Level::L3 => Ok(none),
    }
}

/// The line of what a policer said of a packet of a source.
fn police_line(
    alloc: Global,
    number: u32,
    source: AsId,
    policed: &Policed,
) -> Result<Vec<u8>, OutOfMemory>
    ensures { IfOk result (λ line. line.items ≡ spec.policed_line number source policed.now) }
{
    let words = match policed {
        Policed::Pass { used } => format!(in alloc; "police {source} pass {used}"),
        Policed::Over { used } => format!(in alloc; "police {source} over {used}"),
        Policed::Unknown => format!(in alloc; "police {source} unknown"),
    };
    let Ok(words) = words else {
        return Err(OutOfMemory);
    };
    let mut line = Vec::new(alloc);
    print_line(&mut line, number, words.as_bytes())?;
    Ok(line)
}

/// Offers a packet of a source, of so many bytes, to the policer of an AS, if packets are policed.
/// The line of the answer is empty where they aren't.
fn offer(
    alloc: Global,
    number: u32,
    police: &mut Option<Policers>,
    a: AsId,
    source: AsId,
    bytes: u32,
    now: u64,
) -> Result<Vec<u8>, OutOfMemory>
    ensures line { (t : Network) (set : Option Policing) (offers : List Offer) → ArePoliced t set police.old offers now
        → IfOk result (λ line. line.items ≡ spec.said_of t number set offers (record { at = a; packet = record { source = source; bytes = bytes; moment = now } })) }
    ensures police { (t : Network) (set : Option Policing) (offers : List Offer) → ArePoliced t set police.old offers now
        → OnOk result (ArePoliced t set police.new (offers ++ record { at = a; packet = record { source = source; bytes = bytes; moment = now } } ∷ []) now) }
{
    match police {
        Some(policers) => {
            // (the clock never goes back)
            let now = now.max(policers.latest());
            let policed = policers.offer(alloc, a, source, bytes, now)?;
            police_line(alloc, number, source, &policed)
        }
        None => Ok(Vec::new(alloc)),
    }
}

/// Offers a packet of level 2 or 3, of so many bytes, to the policer of an AS, if packets are
/// policed. The line of the answer is empty where nothing is offered.
fn offer_packet(
    alloc: Global,
    number: u32,
    police: &mut Option<Policers>,
    a: AsId,
    packet: &PacketRef<'_>,
    bytes: u32,
    now: u64,
) -> Result<Vec<u8>, OutOfMemory>
    ensures line { (t : Network) (set : Option Policing) (offers : List Offer) → ArePoliced t set police.old offers now
        → IfOk result (λ line. line.items ≡ flat_map (spec.said_of t number set offers) (spec.packet_offers now bytes a packet.now)) }
    ensures police { (t : Network) (set : Option Policing) (offers : List Offer) → ArePoliced t set police.old offers now
        → OnOk result (ArePoliced t set police.new (offers ++ spec.packet_offers now bytes a packet.now) now) }
{
    if is_tagged(packet.first_byte()) {
        offer(alloc, number, police, a, packet.src().asn, bytes, now)
    } else {
        Ok(Vec::new(alloc))
    }
}

/// What is noted of a packet of which the router of the AS `a` accepted so many hops, one or two.
fn turn_notes(
    alloc: Global,
    world: &World,
    show: &Showing,
    number: u32,
    police: &mut Option<Policers>,
    a: AsId,
    came: &[u8],
    hops: u8,
    generations: &[u32; 2],
) -> Result<Noted, OutOfMemory>
    requires notable { IsNotable world.now.network a came.now hops generations.now }
    ensures behind { IfOk result (λ r. r.notes.behind
        ≡ (if show.now.makers then spec.at_level_1 (level_of (parse came.now).first) (spec.makers_along world.now.network (facts_of world.now.state.history) (spec.maker_line world.now.network number) a (parse came.now) (parse came.now).current (take hops generations.now)) else [])) }
    ensures last { (t : Network) (set : Option Policing) (offers : List Offer) → ArePoliced t set police.old offers world.now.state.moment
        → IfOk result (λ r. r.notes.last ≡ flat_map (spec.said_of t number set offers) (spec.packet_offers world.now.state.moment (length came.now) a (parse came.now))) }
    ensures alarm { IfOk result (λ r. r.alarm
        ≡ list_any spec.alarms (if show.now.makers then spec.at_level_1 (level_of (parse came.now).first) (spec.makers_along world.now.network (facts_of world.now.state.history) (λ b g p j m. m) a (parse came.now) (parse came.now).current (take hops generations.now)) else [])) }
    ensures police { (t : Network) (set : Option Policing) (offers : List Offer) → ArePoliced t set police.old offers world.now.state.moment
        → OnOk result (ArePoliced t set police.new (offers ++ spec.packet_offers world.now.state.moment (length came.now) a (parse came.now)) world.now.state.moment) }
{
    let packet = PacketRef::of(came, shape_of(came));
    let makers = shown_makers(alloc, world, show, number, a, &packet, hops, generations)?;
    let bytes = came.len() as u32;
    let said = offer_packet(alloc, number, police, a, &packet, bytes, world.now())?;
    Ok(Noted {
        notes: Notes::from_texts(makers.lines, said),
        alarm: makers.alarm,
    })
}

/// Nothing is noted of a pass.
fn nothing_noted(alloc: Global) -> Noted
    ensures notes { result.notes ≡ no_notes }
    ensures alarm { result.alarm ≡ false }
{
    Noted {
        notes: Notes::new(alloc),
        alarm: false,
    }
}

/// What is noted of a pass, over the bytes that came in.
fn pass_notes(
    alloc: Global,
    world: &World,
    show: &Showing,
    number: u32,
    police: &mut Option<Policers>,
    came: &[u8],
    passed: &Passed,
) -> Result<Noted, OutOfMemory>
    requires notable { IsNotablePass world.now.network (record { came = came.now; passed = passed.now }) }
    ensures notes { (offers : List Offer) → ArePoliced world.now.network show.now.police police.old offers world.now.state.moment
        → IfOk result (λ r. r.notes ≡ spec.noted_at show.now world.now.network (facts_of world.now.state.history) number world.now.state.moment offers (record { came = came.now; passed = passed.now })) }
    ensures alarm { IfOk result (λ r. r.alarm
        ≡ list_any spec.alarms (spec.makers_at show.now world.now.network (facts_of world.now.state.history) (λ a g p j m. m) (record { came = came.now; passed = passed.now }))) }
    ensures police { (offers : List Offer) → ArePoliced world.now.network show.now.police police.old offers world.now.state.moment
        → OnOk result (ArePoliced world.now.network show.now.police police.new (offers ++ spec.offered world.now.state.moment (record { came = came.now; passed = passed.now })) world.now.state.moment) }
{
    match passed.place {
        Place::Router { asn, .. } => match passed.result {
            PassResult::Turned(
                Turn::Forward {
                    hops,
                    generations,
                    ..
                },
            ) => turn_notes(
                alloc,
                world,
                show,
                number,
                police,
                asn,
                came,
                hops,
                &generations,
            ),
            PassResult::Turned(
                Turn::Deliver {
                    hops,
                    generations,
                    ..
                },
            ) => turn_notes(
                alloc,
                world,
                show,
                number,
                police,
                asn,
                came,
                hops,
                &generations,
            ),
            PassResult::Turned(Turn::Refused { .. }) => Ok(nothing_noted(alloc)),
            PassResult::Arrived(_) => Ok(nothing_noted(alloc)),
            PassResult::Full => Ok(nothing_noted(alloc)),
        },
        Place::Host(_) => Ok(nothing_noted(alloc)),
    }
}

/// What is noted of passes of which the first is of the bytes that came in, and each other of what
/// the pass before it emitted.
fn passes_notes(
    alloc: Global,
    world: &World,
    show: &Showing,
    number: u32,
    police: &mut Option<Policers>,
    came: &[u8],
    passes: &[Passed],
) -> Result<AllNoted, OutOfMemory>
    requires notable { All (IsNotablePass world.now.network) (spec.coming (emission_bytes world.now.state.history.emissions) came.now passes.now) }
    ensures notes { (offers : List Offer) → ArePoliced world.now.network show.now.police police.old offers world.now.state.moment
        → IfOk result (λ r. r.notes.items ≡ spec.noted_along show.now world.now.network (facts_of world.now.state.history) number world.now.state.moment offers (spec.coming (emission_bytes world.now.state.history.emissions) came.now passes.now)) }
    ensures alarm { IfOk result (λ r. r.alarm
        ≡ spec.some_alarms show.now world.now.network (facts_of world.now.state.history) (spec.coming (emission_bytes world.now.state.history.emissions) came.now passes.now)) }
    ensures police { (offers : List Offer) → ArePoliced world.now.network show.now.police police.old offers world.now.state.moment
        → OnOk result (ArePoliced world.now.network show.now.police police.new (offers ++ spec.all_offered world.now.state.moment (spec.coming (emission_bytes world.now.state.history.emissions) came.now passes.now)) world.now.state.moment) }
{
    let ledger = world.ledger();
    let mut notes = Vec::new(alloc);
    let mut alarm = false;
    let mut next = came;
    for passed in passes {
        let noted = pass_notes(alloc, world, show, number, police, next, passed)?;
        match notes.push(noted.notes) {
            Ok(()) => alarm |= noted.alarm,
            Err(_) => return Err(OutOfMemory),
        }
        next = emission_bytes(ledger, passed.emission);
    }
    Ok(AllNoted { notes, alarm })
}

/// The passes that an answer tells.
pub(crate) fn passes_told(answer: &Answer) -> &[Passed]
    ensures { result.now ≡ spec.passes_told answer.now }
{
    match answer {
        Answer::Passed(passed) => std::array::from_ref(passed).as_slice(),
        Answer::Carried(passes) => passes.as_slice(),
        Answer::Moment
        | Answer::Issued { .. }
        | Answer::Fetched
        | Answer::Known
        | Answer::Paths(_)
        | Answer::Sent { .. }
        | Answer::Revealed
        | Answer::Rolled { .. }
        | Answer::Refused(_) => &[],
    }
}

/// What is noted of the passes of an answer to a command, after which the world is this, over the
/// bytes that the command brought. The packets that routers sent on are offered to the policers.
pub(crate) fn answer_notes(
    alloc: Global,
    world: &World,
    show: &Showing,
    number: u32,
    police: &mut Option<Policers>,
    command: &Command,
    answer: &Answer,
) -> Result<AllNoted, OutOfMemory>
    requires notable { All (IsNotablePass world.now.network) (spec.passes_after command.now answer.now world.now.state) }
    ensures notes { (offers : List Offer) → ArePoliced world.now.network show.now.police police.old offers world.now.state.moment
        → IfOk result (λ r. r.notes.items ≡ spec.notes_after show.now world.now.network number offers command.now answer.now world.now.state) }
    ensures alarm { IfOk result (λ r. r.alarm
        ≡ spec.some_alarms show.now world.now.network (facts_of world.now.state.history) (spec.passes_after command.now answer.now world.now.state)) }
    ensures police { (offers : List Offer) → ArePoliced world.now.network show.now.police police.old offers world.now.state.moment
        → OnOk result (ArePoliced world.now.network show.now.police police.new (offers ++ spec.all_offered world.now.state.moment (spec.passes_after command.now answer.now world.now.state)) world.now.state.moment) }
{
    if !show.shows_notes() {
        return Ok(AllNoted {
            notes: Vec::new(alloc),
            alarm: false,
        });
    }
    let came = bytes_in(world.ledger(), command);
    passes_notes(
        alloc,
        world,
        show,
        number,
        police,
        came,
        passes_told(answer),
    )
}
