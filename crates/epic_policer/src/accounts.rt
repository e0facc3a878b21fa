//! What each source has used.
ghost use Rattle.std.specs.Prelude.{◌≡◌, ℕ, ◌+◌, ◌-◌, ◌<◌, ◌≤◌, ◌==◌, Some, length, if◌then◌else◌, is_some, IfOk, OnOk};
ghost use Rattle.std.specs.HashMap.{keys};
ghost use Rattle.epic_num.specs.declared.name.AsId.{AsId};
ghost use Rattle.epic_policer.specs.Accounts.{Charges, list_in, used_in};
ghost use Rattle.epic_policer.specs.Offers.{is_among};

use epic_num::{AsId, OutOfMemory};
use std::alloc::Global;
use std::collections::HashMap;

/// The account of a source.
#[derive(Clone, Copy, Drop)]
pub struct Account {
    /// The list of the source's packets.
    pub list: u32,
    /// The bytes of these packets.
    pub used: u64,
}

pub type Accounts = HashMap<AsId, Account>;

/// What an account says to a packet.
#[derive(Clone, Copy)]
pub enum Charged {
    /// There is room for the packet in the budget, and it has been charged.
    Taken {
        list: u32,
        /// The bytes that are used, with this packet.
        used: u64,
    },
    /// The packet would go beyond the budget.
    Over {
        /// The bytes that are used.
        used: u64,
    },
    /// The source has no account.
    Unknown,
}

/// Opens an account of a source, in which nothing is used.
#[tactic(auto, unfolding(crate::specs::Accounts::list_in, crate::specs::Accounts::used_in))]
fn add(accounts: &mut Accounts, source: AsId, list: u32) -> Result<(), OutOfMemory>
    ensures used { OnOk result ((s : AsId) → used_in accounts.new.entries s ≡ (if source.0 == s.0 then 0 else used_in accounts.old.entries s)) }
    ensures lists { OnOk result ((s : AsId) → list_in accounts.new.entries s ≡ (if source.0 == s.0 then Some list else list_in accounts.old.entries s)) }
{
    let account = Account { list, used: 0 };
    accounts.insert(source, account).map_err(|_| OutOfMemory)?;
    Ok(())
}

/// An account for each source, in which nothing is used.
pub fn open(alloc: Global, sources: &[AsId]) -> Result<Accounts, OutOfMemory>
    requires { length sources.now ≤ 4096 }
    ensures known { IfOk result (λ new. (s : AsId) → is_some (list_in new.entries s) ≡ is_among sources.now s) }
    ensures used { IfOk result (λ new. (s : AsId) → used_in new.entries s ≡ 0) }
    ensures lists { IfOk result (λ new. (s : AsId) (l : ℕ) → list_in new.entries s ≡ Some l → l < length sources.now) }
{
    let mut accounts = HashMap::new(alloc);
    for (list, source) in sources.iter().enumerate() {
        add(&mut accounts, *source, list as u32)?;
    }
    Ok(accounts)
}

/// Charges a packet of so many bytes to its source, unless that goes beyond the budget.
#[tactic(auto, unfolding(crate::specs::Accounts::list_in, crate::specs::Accounts::used_in))]
pub fn charge(accounts: &mut Accounts, source: AsId, bytes: u32, budget: u64) -> Charged
    requires within { used_in accounts.old.entries source ≤ budget }
    ensures charges { Charges budget source bytes accounts.old.entries accounts.new.entries result }
    ensures keys { keys accounts.new ≡ keys accounts.old }
    ensures lists { (s : AsId) → list_in accounts.new.entries s ≡ list_in accounts.old.entries s }
{
    match accounts.get_mut(&source) {
        None => Charged::Unknown,
        Some(account) => {
            let bytes = u64::from(bytes);
            if bytes > budget - account.used {
                return Charged::Over { used: account.used };
            }
            account.used += bytes;
            Charged::Taken {
                list: account.list,
                used: account.used,
            }
        }
    }
}

/// Takes so many bytes from what a source has used.
#[tactic(auto, unfolding(crate::specs::Accounts::list_in, crate::specs::Accounts::used_in))]
pub fn release(accounts: &mut Accounts, source: AsId, bytes: u32)
    ensures used { (s : AsId) → used_in accounts.new.entries s ≡ used_in accounts.old.entries s - (if source.0 == s.0 then bytes else 0) }
    ensures keys { keys accounts.new ≡ keys accounts.old }
    ensures lists { (s : AsId) → list_in accounts.new.entries s ≡ list_in accounts.old.entries s }
{
    if let Some(account) = accounts.get_mut(&source) {
        account.used = account.used.saturating_sub(u64::from(bytes));
    }
}
