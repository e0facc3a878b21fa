//! Prints ASes and hosts.

ghost use Rattle.std.specs.Prelude.{◌≡◌, ◌++◌, Some, OnOk, OnErr};
ghost use Rattle.epic_num.specs.Names.{as_text, host_text};

use crate::spelling::{AS_PARTS, GROUP_VALUES, SMALL_AS_PARTS};
use crate::{AsId, HostId, OutOfMemory};
use std::fmt;

impl fmt::Display for AsId {
    ghost output = { λ a. Some (as_text a.0) };

    #[tactic(auto, unfolding(crate::specs::Names::as_text))]
    fn fmt<W: fmt::Write>(&self, f: &mut fmt::Formatter<W>) -> fmt::Result {
        let isd = self.0 / AS_PARTS;
        let part = self.0 % AS_PARTS;
        if part < SMALL_AS_PARTS {
            write!(f, "{isd}-{part}")
        } else {
            let first = part / SMALL_AS_PARTS;
            let second = part / GROUP_VALUES % GROUP_VALUES;
            let third = part % GROUP_VALUES;
            write!(f, "{isd}-{first:x}:{second:x}:{third:x}")
        }
    }
}

impl fmt::Display for HostId {
    ghost output = { λ h. Some (host_text h) };

    #[tactic(auto, unfolding(crate::specs::Names::host_text))]
    fn fmt<W: fmt::Write>(&self, f: &mut fmt::Formatter<W>) -> fmt::Result {
        let asn = self.asn;
        let host = self.host;
        write!(f, "{asn},{host}")
    }
}

/// Appends the text of the AS. On an error `to` is as it was.
pub fn print_as(to: &mut Vec<u8>, a: AsId) -> Result<(), OutOfMemory>
    ensures ok { OnOk result (to.new.items ≡ to.old.items ++ as_text a.0) }
    ensures err { OnErr result (to.new.items ≡ to.old.items) }
{
    let text = a.to_string(*to.allocator()).map_err(|_| OutOfMemory)?;
    to.extend_from_slice(text.as_bytes())
        .map_err(|_| OutOfMemory)
}

/// Appends the text of the host. On an error `to` is as it was.
pub fn print_host(to: &mut Vec<u8>, host: HostId) -> Result<(), OutOfMemory>
    ensures ok { OnOk result (to.new.items ≡ to.old.items ++ host_text host) }
    ensures err { OnErr result (to.new.items ≡ to.old.items) }
{
    let text = host.to_string(*to.allocator()).map_err(|_| OutOfMemory)?;
    to.extend_from_slice(text.as_bytes())
        .map_err(|_| OutOfMemory)
}

#[cfg(test)]
mod tests {
    use super::*;
    use std::test::Fail;

    #[test]
    fn prints_ases(rt: HostRuntime) -> Result<(), Fail> {
        let cases = [
            (0, "0-0"),
            (0x0001_0000_0000_0000, "1-0"),
            (0x0000_ff00_0000_0112, "0-ff00:0:112"),
            (0x0001_ff00_0000_0112, "1-ff00:0:112"),
            (0x0001_0000_ffff_ffff, "1-4294967295"),
            (0x0001_0001_0000_0000, "1-1:0:0"),
            (u64::MAX, "65535-ffff:ffff:ffff"),
        ];
        for (a, want) in cases {
            let mut to = Vec::new(rt.alloc());
            print_as(&mut to, AsId(a))?;
            assert_eq!(rt; to.as_slice(), want.as_bytes());
        }
        Ok(())
    }

    #[test]
    fn prints_hosts(rt: HostRuntime) -> Result<(), Fail> {
        let mut to = [b'>'].to_vec(rt.alloc())?;
        let host = HostId {
            asn: AsId(0x0001_ff00_0000_0112),
            host: 7,
        };
        print_host(&mut to, host)?;
        assert_eq!(rt; to.as_slice(), b">1-ff00:0:112,7".as_slice());
        Ok(())
    }
}
