//! The policers of a run.

ghost use Rattle.std.specs.Prelude.{◌≡◌, ◌++◌, [], IfOk, length, map, option_map, take};
ghost use Rattle.epic_topo.specs.Network.{as_at};
ghost use Rattle.epic_app.specs.Policed.{ArePoliced};
ghost use Rattle.epic_words.specs.Answers.{policing_in};

use epic_num::{AsId, OutOfMemory};
use epic_policer::Policers;
use epic_topo::Topology;
use epic_words::PoliceWords;
use std::alloc::Global;

/// The ASes of a topology, in the order of its file.
fn ases_of(alloc: Global, topo: &Topology) -> Result<Vec<AsId>, OutOfMemory>
    ensures { IfOk result (λ ases. ases.items ≡ map (λ s. s.asn) topo.now.systems) }
{
    let _profile = topo.profile();
    let mut ases = Vec::new(alloc);
    for i in 0..4096 {
        let Some(asn) = topo.as_at(i) else {
            return Ok(ases);
        };
        match ases.push(asn) {
            Ok(()) => (),
            Err(_) => return Err(OutOfMemory),
        }
    }
    Ok(ases)
}

/// Policers with these settings, to which nothing was offered, if packets are policed. Each AS of
/// the topology is a source.
pub(crate) fn policers_of(
    alloc: Global,
    topo: &Topology,
    police: Option<PoliceWords>,
) -> Result<Option<Policers>, OutOfMemory>
    ensures { IfOk result (λ policers. ArePoliced topo.now (option_map policing_in police) policers [] 0) }
{
    let _profile = topo.profile();
    let Some(words) = police else {
        return Ok(None);
    };
    let sources = ases_of(alloc, topo)?;
    Ok(Some(Policers::new(alloc, sources, words.budget, words.span_us)))
}
