#![tactic(auto)]
// A small number for each owner that has a blocked lock: the number of the first of its locks on the blocked chain. The search
// for deadlocks finds an owner's blocked locks by it.
ghost use Rattle.std.specs.Prelude.{[], ◌∷◌, ◌++◌, ◌+◌, ◌*◌, ◌≤◌, ◌<◌, length};
ghost use Rattle.tables.specs.Layout.{resources_in};
ghost use Rattle.table_chains.specs.Walking.{At};
ghost use Rattle.deadlock_graph.specs.Promises.{seen};
ghost use Rattle.deadlock_graph.specs.Links.{link_width};
ghost use Rattle.deadlock_owners.specs.OwnerLists.{passed, LookedFor, Found, Noting, Noted};
ghost use Rattle.deadlock_owners.specs.OwnerNumbers.{Listable, ListedLock, Numbering, Done, Unnumbered, Holding, Appended, HoldersDone, LineDone, LinesDone, OwnersNumbered};

use deadlock_graph::{
    LINK_MATE, LINK_NEXT, LINK_OWNER, blocked_locks, first_holder, holds_null, next_holder,
    owner_of, put_link,
};
use table_fields::resource_count;

// Owners are looked for on these lists, by their low bits. An owner is there by the first of its blocked locks.
const OWNER_LISTS: usize = 128;

// The first blocked lock of the owner of lock j, or 0 if that owner is on no list. The number is stored as a link, where 0 is
// none: an Option would be turned back into it. So it is with the lock that `append` answers: its row is written next, and row
// 0 is no lock's.
fn find_owner(words: &[u32], lists: &[u16], others: &[u16], j: u16) -> u16
    requires { LookedFor words.now lists.now others.now j }
    ensures { Found words.now lists.now others.now j result }
{
    let owner = owner_of(words, j);
    let mut k = lists[owner % OWNER_LISTS];
    while k != 0 {
        if owner_of(words, k) == owner {
            return k;
        }
        k = others[k as usize];
    }
    0
}

// The same for the blocked lock k, whose owner joins its list if it is on none.
fn note_owner(words: &[u32], k: u16, lists: &mut [u16], others: &mut [u16]) -> u16
    requires { Noting words.now k lists.old others.old }
    ensures { Noted words.now k lists.new others.new result }
{
    let found = find_owner(words, lists, others, k);
    if found != 0 {
        return found;
    }
    let list = owner_of(words, k) % OWNER_LISTS;
    others[k as usize] = lists[list];
    lists[list] = k;
    k
}

// The lock k gets its owner's number, and is the first on its owner's list of blocked locks.
#[tactic(auto, using(crate::proofs::NumberedLocks::list_done))]
fn list_lock(k: u16, number: u16, links: &mut [u16], heads: &mut [u16])
    requires { Listable k number links.old heads.old }
    ensures { ListedLock k number links.old links.new heads.old heads.new }
{
    put_link(links, k, LINK_OWNER, number);
    put_link(links, k, LINK_MATE, heads[number as usize]);
    heads[number as usize] = k;
}

// The same for the blocked lock k, whose owner may be new.
fn number_lock(
    words: &[u32],
    k: u16,
    lists: &mut [u16],
    others: &mut [u16],
    links: &mut [u16],
    heads: &mut [u16],
)
    requires { Numbering words.now k lists.old others.old links.old heads.old }
    ensures { Done words.now (passed words.now k ++ (k ∷ [])) lists.new others.new links.old links.new heads.new }
{
    let number = note_owner(words, k, lists, others);
    list_lock(k, number, links, heads);
}

// The same for each blocked lock.
fn number_blocked(
    words: &[u32],
    lists: &mut [u16],
    others: &mut [u16],
    links: &mut [u16],
    heads: &mut [u16],
)
    requires { Done words.now [] lists.old others.old links.old links.old heads.old }
    ensures { Done words.now (seen words.now).blocked lists.new others.new links.old links.new heads.new }
{
    for k in blocked_locks(words) {
        number_lock(words, k, lists, others, links, heads);
    }
}

// The holder j comes next after `last`, the last holder that was met and holds more than NL, or 0, which is no lock's number. A
// holder in NL is left out: it is in nobody's way. Answers which is the last then.
#[tactic(auto, using(crate::proofs::NumberedHolders::append_laws))]
fn append(words: &[u32], j: u16, last: u16, links: &mut [u16]) -> u16
    requires at { At words.now j }
    requires last_in_bounds { link_width * last + 4 < length links.old }
    ensures { Appended words.now j last links.old links.new result }
{
    if holds_null(words, j) {
        return last;
    }
    put_link(links, last, LINK_NEXT, j);
    j
}

// The holders on resource r get their owners' numbers: 0, if the owner has no blocked lock. Those that hold more than NL are
// chained.
fn number_holders(words: &[u32], lists: &[u16], others: &[u16], r: u32, links: &mut [u16])
    requires holding { Holding words.now lists.now others.now links.old }
    requires le_r { (1 ≤ r) × (r ≤ resources_in words.now) }
    ensures { HoldersDone words.now r links.old links.new }
{
    let mut last = 0;
    let mut j = first_holder(words, r);
    while j != 0 {
        let number = find_owner(words, lists, others, j);
        put_link(links, j, LINK_OWNER, number);
        last = append(words, j, last, links);
        j = next_holder(words, j);
    }
    put_link(links, last, LINK_NEXT, 0);
}

// The same, if the line of resource r was linked: `lasts` has its last lock. Elsewhere no lock looks who is in its way.
fn number_line(
    words: &[u32],
    lasts: &[u16],
    lists: &[u16],
    others: &[u16],
    r: u32,
    links: &mut [u16],
)
    requires holding { Holding words.now lists.now others.now links.old }
    requires le_r { (1 ≤ r) × (r ≤ resources_in words.now) }
    requires words_in_bounds { resources_in words.now < length lasts.now }
    ensures { LineDone words.now lasts.now r links.old links.new }
{
    if lasts[r as usize] == 0 {
        return;
    }
    number_holders(words, lists, others, r, links);
}

// The same for each resource.
#[tactic(auto, using(crate::proofs::NumberedHolders::lines_laws))]
fn number_lines(words: &[u32], lasts: &[u16], lists: &[u16], others: &[u16], links: &mut [u16])
    requires holding { Holding words.now lists.now others.now links.old }
    requires words_in_bounds { resources_in words.now < length lasts.now }
    ensures { LinesDone words.now lasts.now links.old links.new }
{
    let n = resource_count(words);
    for r in 1..n + 1 {
        number_line(words, lasts, lists, others, r, links);
    }
}

// The numbers of the owners of all locks that are blocked or hold where a line was linked; the blocked locks of each owner, as a
// list that begins at the owner's number in `heads`. `others` is for the lists of owners.
pub fn number_owners(
    words: &[u32],
    lasts: &[u16],
    links: &mut [u16],
    heads: &mut [u16],
    others: &mut [u16],
)
    requires { Unnumbered words.now lasts.now links.old heads.old others.old }
    ensures { OwnersNumbered words.now lasts.now links.old links.new heads.new }
{
    let mut lists = [0; OWNER_LISTS];
    number_blocked(words, &mut lists, others, links, heads);
    number_lines(words, lasts, &lists, others, links);
}
