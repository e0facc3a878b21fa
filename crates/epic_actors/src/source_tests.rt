//! The sources of a world's hosts are made once each.
use crate::Sources;
use epic_num::{AsId, HostId};
use std::process::Abort;
use std::test::Fail;

const FIRST: HostId = HostId {
    asn: AsId(0x0001_ff00_0000_0112),
    host: 1,
};

/// The same number in another AS.
const SECOND: HostId = HostId {
    asn: AsId(0x0001_ff00_0000_0111),
    host: 1,
};

#[test]
fn each_host_has_one_source(rt: HostRuntime) -> Result<(), Fail> {
    let mut sources = Sources::new(rt.alloc());
    sources.ready(rt.alloc(), FIRST)?;
    sources.ready(rt.alloc(), SECOND)?;
    sources.ready(rt.alloc(), FIRST)?;
    assert_eq!(rt; sources.by_name.len(), 2);
    Ok(())
}
