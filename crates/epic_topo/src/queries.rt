//! What can be asked of a topology.

ghost use Rattle.std.specs.Prelude.{◌≡◌, ◌<◌, ◌^◌, [], false, length, is_some, IfOk, IfErr, IfSome};
ghost use Rattle.std.specs.Option.{option_copied};
ghost use Rattle.epic_num.specs.Moments.{IsProfile};
ghost use Rattle.epic_topo.specs.Lawful.{HasOnePlaceEach, IsLinked, IsNewLink, IsNewSystem, IsTopology};
ghost use Rattle.epic_topo.specs.Network.{as_at, has, is_core, link_at, master, neighbour, system_of, with_link, with_system};

use crate::{Link, LinkKind, System, TopoError};
use epic_num::{AsId, Profile};
use std::alloc::Global;
use std::collections::BTreeMap;
use std::marker::Model;

/// The settings, ASes and links of a topology.
#[derive(Drop)]
pub struct Topology {
    profile: Profile,
    systems: Vec<System>,
    links: Vec<Link>,
    // Where among the ASes one stands, by its number.
    system_places: BTreeMap<u64, usize>,
    // Where among the links one stands, by the AS and interface at each of its ends.
    link_places: BTreeMap<(u64, u16), usize>,
}

impl Model for Topology {
    ghost use Rattle.epic_topo.specs.Network.{Network};
    ghost use Rattle.epic_topo.specs.Index.{IsIndexed};

    ghost Value = { Network };

    ghost view = { λ t. record { profile = t.profile; systems = t.systems.items; links = t.links.items } };

    ghost invariant = { λ t. IsIndexed t.system_places t.link_places (record { profile = t.profile; systems = t.systems.items; links = t.links.items }) };
}

impl Topology {
    /// The settings that all of the topology shares.
    pub fn profile(&self) -> Profile
        ensures value { result ≡ self.now.profile }
        ensures lawful { IsTopology self.now }
    {
        self.profile
    }

    /// Whether the AS is in the topology.
    #[tactic(auto, unfolding(crate::specs::Network::has))]
    pub fn has(&self, asn: AsId) -> bool
        ensures { result ≡ has self.now asn }
    {
        match self.entry(asn) {
            Some(_) => true,
            None => false,
        }
    }

    /// Whether the AS is in the topology and is a core AS.
    #[tactic(auto, unfolding(crate::specs::Network::is_core))]
    pub fn is_core(&self, asn: AsId) -> bool
        ensures { result ≡ is_core self.now asn }
    {
        match self.entry(asn) {
            Some(system) => system.is_core,
            None => false,
        }
    }

    /// The master key of the AS, if it is in the topology.
    #[tactic(auto, unfolding(crate::specs::Network::has, crate::specs::Network::master))]
    pub fn master(&self, asn: AsId) -> Option<[u8; 16]>
        ensures value { result ≡ master self.now asn }
        ensures there { is_some result ≡ has self.now asn }
    {
        match self.entry(asn) {
            Some(system) => Some(system.master),
            None => None,
        }
    }

    /// The other end of the link at an interface of the AS, and what the link is for this AS.
    #[tactic(auto, unfolding(crate::specs::Network::neighbour))]
    pub fn neighbour(&self, asn: AsId, iface: u16) -> Option<(AsId, u16, LinkKind)>
        ensures value { result ≡ neighbour self.now asn iface }
        ensures linked { IfSome result (IsLinked self.now asn iface) }
    {
        let link = self.link_at(asn, iface)?;
        Some(link.other_end(asn, iface))
    }

    /// The AS at a place among the topology's ASes, from 0, in the order of its file.
    #[tactic(auto, unfolding(crate::specs::Network::as_at))]
    pub fn as_at(&self, i: u32) -> Option<AsId>
        ensures value { result ≡ as_at self.now i }
        ensures once { HasOnePlaceEach self.now }
    {
        match self.systems.get(i as usize) {
            Some(system) => Some(system.asn),
            None => None,
        }
    }

    // The entry of the AS.
    fn entry(&self, asn: AsId) -> Option<&System>
        ensures { option_copied result ≡ system_of self.now asn }
    {
        match self.system_places.get(&asn.0) {
            Some(place) => self.systems.get(*place),
            None => None,
        }
    }

    // The link at an interface of the AS.
    fn link_at(&self, asn: AsId, iface: u16) -> Option<&Link>
        ensures value { option_copied result ≡ link_at self.now asn iface }
        ensures lawful { IsTopology self.now }
    {
        match self.link_places.get(&(asn.0, iface)) {
            Some(place) => self.links.get(*place),
            None => None,
        }
    }
}

impl Topology {
    /// A topology with these settings and nothing else.
    pub(crate) fn new(alloc: Global, profile: Profile) -> Topology
        requires { IsProfile profile }
        ensures { result ≡ record { profile = profile; systems = []; links = [] } }
    {
        Topology {
            profile,
            systems: Vec::new(alloc),
            links: Vec::new(alloc),
            system_places: BTreeMap::new(alloc),
            link_places: BTreeMap::new(alloc),
        }
    }

    /// The topology with one more AS.
    pub(crate) fn with_system(self, system: System) -> Result<Topology, TopoError>
        requires new { IsNewSystem self system }
        requires few { length self.systems < 4096 }
        requires no_links { self.links ≡ [] }
        ensures ok { IfOk result (λ t. t ≡ with_system self system) }
        ensures memory { IfErr result (λ e. e ≡ TopoError.OutOfMemory) }
    {
        let Topology {
            profile,
            mut systems,
            links,
            mut system_places,
            link_places,
        } = self;
        if system_places.insert(system.asn.0, systems.len()).is_err()
            || systems.push(system).is_err()
        {
            return Err(TopoError::OutOfMemory);
        }
        Ok(Topology {
            profile,
            systems,
            links,
            system_places,
            link_places,
        })
    }

    /// The topology with one more link.
    pub(crate) fn with_link(self, link: Link) -> Result<Topology, TopoError>
        requires new { IsNewLink self link }
        requires few { length self.links < 16384 }
        ensures ok { IfOk result (λ t. t ≡ with_link self link) }
        ensures memory { IfErr result (λ e. e ≡ TopoError.OutOfMemory) }
    {
        let Topology {
            profile,
            systems,
            mut links,
            system_places,
            mut link_places,
        } = self;
        let place = links.len();
        if link_places
            .insert((link.a.asn.0, link.a.iface), place)
            .is_err()
            || link_places
                .insert((link.b.asn.0, link.b.iface), place)
                .is_err()
            || links.push(link).is_err()
        {
            return Err(TopoError::OutOfMemory);
        }
        Ok(Topology {
            profile,
            systems,
            links,
            system_places,
            link_places,
        })
    }
}
