//! Values of generated topologies and scripts.

use crate::{command_at, generated_topology, topology_text};
use epic_num::{AsId, Command};
use std::alloc::AllocError;
use std::test::Fail;

/// The text that the crate `toml` prints of the table that a text is.
#[test]
fn text_is_that_of_toml(rt: HostRuntime) -> Result<(), Fail> {
    let alloc = rt.alloc();
    let text = topology_text(alloc, 7)?;
    let table = match toml::table_from_str(alloc, &text) {
        Ok(table) => table,
        Err(_) => return Err(Fail::from(AllocError)),
    };
    let Ok(printed) = toml::table_to_string(alloc, &table) else {
        return Err(Fail::from(AllocError));
    };
    assert!(rt; printed == text, "{printed}");
    Ok(())
}

#[test]
fn topology_and_script_are_made(rt: HostRuntime) -> Result<(), Fail> {
    let alloc = rt.alloc();
    let topology = generated_topology(alloc, 7)?;
    assert!(rt; topology.is_core(AsId(0x0001_ff00_0000_0120)));
    assert!(rt;
        command_at(alloc, 7, 2, 0)?
            == Command::At {
                moment: 1_700_000_000_000_000
            }
    );
    assert!(rt; command_at(alloc, 7, 2, 19)? == Command::Carry { emission: 8 });
    Ok(())
}
