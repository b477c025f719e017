#![tactic(auto)]
// The arguments of a call: the client, the name, the value, and whose lock a number is. Flags are in the crate `flags`.
ghost use Rattle.std.specs.Prelude.{◌≡◌};
ghost use Rattle.tables.specs.Sound.{client_right};
ghost use Rattle.tables.specs.Validity.{Core};
ghost use Rattle.rules.specs.Calls.{name_right, value_right, own};
ghost use Rattle.table_chains.specs.Promises.{Some, Tells};

pub fn client_right(client: u32) -> bool
    ensures { result ≡ client_right client }
{
    (1 <= client) & (client <= table_fields::LAST_CLIENT)
}

pub fn name_right(name: &[u8]) -> bool
    ensures { result ≡ name_right name.now }
{
    (1 <= name.len()) & (name.len() <= table_names::NAME_BYTES)
}

// Flag 1 wants a value of 32 bytes.
pub fn value_right(flags: u32, value: &[u8]) -> bool
    ensures { result ≡ value_right flags value.now }
{
    !flags::stores(flags) | (value.len() == table_names::VALUE_BYTES)
}

// Whether k is a lock in use, and the client's.
pub fn own(words: &[u32], client: u32, k: u32) -> bool
    requires { Some Core words.now }
    ensures { Tells Core (own client k) words.now result }
{
    if k == 0 {
        return false;
    }
    if words[table_fields::LOCKS] < k {
        return false;
    }
    let lock = table_fields::lock_at(words, k);
    (lock.state != table_fields::STATE_FREE) & (lock.client == client)
}
