//! Whether two values are the same, as tests that specifications name.
ghost use Rattle.std.specs.Prelude.{◌≡◌};
ghost use Rattle.epic_num.specs.Same.{same_as, same_body, same_field, same_holder, same_host, same_key, same_name};

use crate::{AsId, Body, Field, Holder, HopName, HostId, KeyName};

/// Whether two ASes are the same.
#[tactic(auto, unfolding(crate::specs::Same::same_as))]
pub fn same_as(a: AsId, b: AsId) -> bool
    ensures { result ≡ same_as a b }
{
    a == b
}

/// Whether two hosts are the same.
#[tactic(auto, unfolding(crate::specs::Same::same_as, crate::specs::Same::same_host))]
pub fn same_host(h: HostId, k: HostId) -> bool
    ensures { result ≡ same_host h k }
{
    h == k
}

/// Whether two hops' bodies are the same.
#[tactic(auto, unfolding(crate::specs::Same::same_body))]
pub fn same_body(b: &Body, c: &Body) -> bool
    ensures { result ≡ same_body b.now c.now }
{
    b == c
}

/// Whether two hops are the same, of one AS and one generation.
#[tactic(auto, unfolding(crate::specs::Same::same_as, crate::specs::Same::same_body, crate::specs::Same::same_name))]
pub fn same_name(x: &HopName, y: &HopName) -> bool
    ensures { result ≡ same_name x.now y.now }
{
    x == y
}

/// Whether two fields are the same.
#[tactic(auto, unfolding(crate::specs::Same::same_field))]
pub fn same_field(v: &Field, w: &Field) -> bool
    ensures { result ≡ same_field v.now w.now }
{
    v == w
}

/// Whether two holders are the same.
#[tactic(auto, unfolding(crate::specs::Same::same_as, crate::specs::Same::same_host, crate::specs::Same::same_holder))]
pub fn same_holder(h: &Holder, k: &Holder) -> bool
    ensures { result ≡ same_holder h.now k.now }
{
    h == k
}

/// Whether two names of keys are the same.
#[tactic(auto, unfolding(crate::specs::Same::same_as, crate::specs::Same::same_host, crate::specs::Same::same_key))]
pub fn same_key(m: &KeyName, n: &KeyName) -> bool
    ensures { result ≡ same_key m.now n.now }
{
    m == n
}
