//! The works that are measured.

ghost use Rattle.std.specs.Prelude.{◌≡◌, length, IfOk, IfErr};
ghost use Rattle.std.specs.Fn.{iterate};
ghost use Rattle.epic_aes.specs.Chain.{chain};
ghost use Rattle.epic_cmac.specs.Cmac.{cmac};
ghost use Rattle.epic_bench.specs.Run.{IsUnready};
ghost use Rattle.epic_bench.specs.Tasks.{work_of_task};
ghost use Rattle.epic_bench.specs.declared.top.End.TheVariants.{OutOfMemory};
ghost use Rattle.epic_bench.specs.Works.{IsDigest, chained, message, name_of, operations, tagged, unit_of};

use crate::arrived::Arrived;
use crate::offers::offer_rounds;
use crate::policing::police_rounds;
use crate::routed::Routed;
use crate::sends::Sends;
use crate::top::End;
use epic_aes::Aes;
use epic_cmac::cmac;
use epic_num::Level;
use std::alloc::Global;

/// What is measured.
#[derive(Clone, Copy, Debug)]
pub(crate) enum Work {
    /// Blocks of the cipher in a chain, 64 a round.
    Aes,
    /// Tags of 1,500 bytes, each under a key of its own.
    Cmac,
    /// Tags of 27 bytes, each under a key of its own.
    Short,
    /// Turns of one router, of a packet of a level each.
    Routed(Level),
    /// Arrivals at one host, of a packet of level 3 each.
    Arrived,
    /// Packets of level 3 that one host sends.
    Sends,
    /// Offers of new packets to a replay window.
    Window(Load),
    /// Offers of packets of 4,096 sources to a policer.
    Policing,
}

/// About how many packets of their AS are live in a window that they are offered to.
#[derive(Clone, Copy, Debug)]
pub(crate) enum Load {
    One,
    Hundred,
    /// 4,096.
    Thousands,
}

/// The key of the chain, and the value that each work begins with: the key of the examples of RFC 4493 4.
pub(crate) const KEY: [u8; 16] = [
    0x2b, 0x7e, 0x15, 0x16, 0x28, 0xae, 0xd2, 0xa6, 0xab, 0xf7, 0x15, 0x88, 0x09, 0xcf, 0x4f, 0x3c,
];

impl Work {
    /// Its word on the command line.
    pub(crate) fn name(self) -> &'static str
        ensures { result.now ≡ name_of self }
    {
        match self {
            Work::Aes => "aes",
            Work::Cmac => "cmac",
            Work::Short => "short",
            Work::Routed(Level::L0) => "turn0",
            Work::Routed(Level::L1) => "turn1",
            Work::Routed(Level::L2) => "turn2",
            Work::Routed(Level::L3) => "turn3",
            Work::Arrived => "arrive3",
            Work::Sends => "send3",
            Work::Window(Load::One) => "window-1",
            Work::Window(Load::Hundred) => "window-100",
            Work::Window(Load::Thousands) => "window-4096",
            Work::Policing => "police",
        }
    }

    /// What its operations are called.
    pub(crate) fn unit(self) -> &'static str
        ensures { result.now ≡ unit_of self }
    {
        match self {
            Work::Aes => "blocks",
            Work::Cmac | Work::Short => "messages",
            Work::Routed(_) => "turns",
            Work::Arrived => "arrivals",
            Work::Sends => "sends",
            Work::Window(_) | Work::Policing => "offers",
        }
    }

    /// How many operations so many rounds have.
    pub(crate) fn operations(self, rounds: u32) -> u64
        ensures { result ≡ operations self rounds }
    {
        let each = match self {
            Work::Aes => 64,
            Work::Cmac | Work::Short | Work::Routed(_) => 1,
            Work::Arrived | Work::Sends | Work::Window(_) | Work::Policing => 1,
        };
        each * u64::from(rounds)
    }
}

// Not inlined, nor is the next, so that the sizes of messages are no constants there.
#[inline(never)]
fn chain_rounds(blocks: &[[u8; 16]], rounds: u32) -> [u8; 16]
    ensures { result ≡ iterate (λ x. chain KEY x blocks.now) rounds KEY }
{
    let aes = Aes::new(&KEY);
    let mut x = KEY;
    for _ in 0..rounds {
        aes.chain(&mut x, blocks);
    }
    x
}

#[inline(never)]
fn tag_rounds(message: &[u8], rounds: u32) -> [u8; 16]
    ensures { result ≡ iterate (λ key. cmac key message.now) rounds KEY }
{
    let mut key = KEY;
    for _ in 0..rounds {
        let tag = cmac(&key, message);
        key = tag;
    }
    key
}

fn fill(bytes: &mut [u8], seed: u32)
    ensures { bytes.new ≡ message seed (length bytes.old) }
{
    for (i, byte) in bytes.iter_mut().enumerate() {
        *byte = ((u64::from(seed) + i as u64) % 256) as u8;
    }
}

fn aes_value(rounds: u32) -> [u8; 16]
    ensures { result ≡ chained rounds }
{
    let mut bytes = [0; 1024];
    fill(&mut bytes, rounds);
    let (blocks, _) = bytes.as_chunks::<16>();
    chain_rounds(blocks, rounds)
}

fn cmac_value(rounds: u32) -> [u8; 16]
    ensures { result ≡ tagged 1500 rounds }
{
    let mut message = [0; 1500];
    fill(&mut message, rounds);
    tag_rounds(&message, rounds)
}

fn short_value(rounds: u32) -> [u8; 16]
    ensures { result ≡ tagged 27 rounds }
{
    let mut message = [0; 27];
    fill(&mut message, rounds);
    tag_rounds(&message, rounds)
}

/// A work made ready.
#[derive(Drop)]
pub(crate) enum Task {
    Aes,
    Cmac,
    Short,
    Routed(Level, Routed),
    Arrived(Arrived),
    Sends(Sends),
    Window(Load),
    Policing,
}

impl Task {
    /// Makes a work ready for so many rounds.
    pub(crate) fn new(alloc: Global, work: Work, rounds: u32) -> Result<Task, End>
        ensures ok { IfOk result (λ task. work_of_task task ≡ work) }
        ensures err { IfErr result (IsUnready work) }
    {
        match work {
            Work::Aes => Ok(Task::Aes),
            Work::Cmac => Ok(Task::Cmac),
            Work::Short => Ok(Task::Short),
            Work::Routed(level) => Ok(Task::Routed(level, Routed::new(alloc, level, rounds)?)),
            Work::Arrived => Ok(Task::Arrived(Arrived::new(alloc, rounds)?)),
            Work::Sends => Ok(Task::Sends(Sends::new(alloc)?)),
            Work::Window(load) => Ok(Task::Window(load)),
            Work::Policing => Ok(Task::Policing),
        }
    }

    /// Does so many rounds, and gives their digest.
    pub(crate) fn run(&mut self, alloc: Global, rounds: u32) -> Result<[u8; 16], End>
        ensures ok { IfOk result (IsDigest (work_of_task self.old) rounds) }
        ensures err { IfErr result (λ end. end ≡ OutOfMemory) }
    {
        match self {
            Task::Aes => Ok(aes_value(rounds)),
            Task::Cmac => Ok(cmac_value(rounds)),
            Task::Short => Ok(short_value(rounds)),
            Task::Routed(_, routed) => routed.run(rounds),
            Task::Arrived(arrived) => arrived.run(rounds),
            Task::Sends(sends) => sends.run(alloc, rounds),
            Task::Window(load) => offer_rounds(alloc, *load, rounds),
            Task::Policing => police_rounds(alloc, rounds),
        }
    }
}
