#![tactic(auto)]
// The locks on a resource into a lent list of lock entries. What is listed is computed by value; two thin functions put
// it into the list.
ghost use Rattle.std.specs.Prelude.{◌≡◌};
ghost use Rattle.rules.specs.Entries.{list_entry};
ghost use Rattle.table_chains.specs.Promises.{Some, Tells, Resourced};
ghost use Rattle.list_walker.specs.Order.{Queued};
ghost use Rattle.rules.specs.Calls.{accepted};
ghost use Rattle.answers.specs.Answers.{list_said};
ghost use Rattle.answers.specs.Refusals.{refused_number};
ghost use Rattle.entry_list.specs.Listings.{listing, list_refusal, resource_of, entry_of, listing_of};

use answers::Refusal;
use list_walker::Walker;
use tables::LockEntry;

// Why a listing is turned down, if it is.
fn list_refusal(words: &[u32], slots: &[u8], client: u32, k: u32) -> Result<(), Refusal>
    ensures { refused_number result ≡ list_refusal words.now slots.now client k }
{
    if !check_tables::sound(words, slots) {
        return Err(Refusal::Unsound);
    }
    call_refusals::look_refusal(words, client, k)
}

// The resource of lock k.
fn resource_of(words: &[u32], k: u32) -> u32
    requires { Some (Queued k) words.now }
    ensures { Tells (Queued k) (resource_of k) words.now result }
{
    table_fields::lock_word(words, k, table_fields::LOCK_RESOURCE)
}

// What a listing says of lock k.
fn entry_of(words: &[u32], k: u32) -> LockEntry
    requires { Some (Queued k) words.now }
    ensures { Tells (Queued k) (entry_of k) words.now result }
{
    let lock = table_fields::lock_at(words, k);
    LockEntry {
        number: k,
        client: lock.client,
        state: lock.state,
        held: lock.held,
        asked: lock.asked,
    }
}

// Puts the entries of the locks on r into the lent list, in grant, convert, wait order, as many as fit. Gives the true
// count.
fn list_into(entries: &mut [LockEntry], words: &[u32], r: u32) -> u32
    requires { Some (Resourced r) words.now }
    ensures { Tells (Resourced r) (listing_of r entries.old) words.now (listing (accepted result 0) entries.new) }
{
    let mut count = 0;
    for k in Walker::new(words, r) {
        if count < entries.len() {
            entries[count] = entry_of(words, k);
        }
        count += 1;
    }
    count as u32
}

// The locks of the resource on which the client's lock k stands, in grant, convert, wait order: as many as fit into the
// lent list, and the true count. Entries past these stay as they were.
pub fn list(
    words: &[u32],
    slots: &[u8],
    client: u32,
    k: u32,
    entries: &mut [LockEntry],
) -> Result<u32, Refusal>
    ensures { listing (list_said result) entries.new ≡ list_entry words.now slots.now client k entries.old }
{
    list_refusal(words, slots, client, k)?;
    Ok(list_into(entries, words, resource_of(words, k)))
}
