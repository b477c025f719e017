#![tactic(auto)]
// Clearing blocked locks that are on no cycle, before any search: cheaply where a line leads nowhere, then from both ends.
ghost use Rattle.std.specs.Prelude.{◌≡◌, ◌≤◌};
ghost use Rattle.tables.specs.Lists.{any};
ghost use Rattle.tables.specs.Layout.{resources_in};
ghost use Rattle.tables.specs.Grants.{holders};
ghost use Rattle.tables.specs.Validity.{Core};
ghost use Rattle.table_chains.specs.Promises.{Some};
ghost use Rattle.table_chains.specs.Walking.{At};
ghost use Rattle.deadlock_graph.specs.Promises.{seen, Blocked};
ghost use Rattle.deadlock_graph.specs.Marks.{unmarked};
ghost use Rattle.deadlock_graph.specs.Links.{Linked};
ghost use Rattle.deadlock_prune.specs.Clearing.{Clearable, Uncleared, Prunable};
ghost use Rattle.deadlock_prune.specs.FreeLines.{OwnersNoted, counts, FreePass, FreeChain, ChainCleared, LineCleared, LinesCleared};
ghost use Rattle.deadlock_prune.specs.BothEnds.{Placed, LinkedLock, Ready, Passed, BusyNoted, Busy, hinders, Hindered, FrontPass, FrontStep, OwnerNoted, WantNoted, Wanted, BackLine, LineBacked, BackReady, BackPassed};

use deadlock_graph::{
    LINK_AHEAD, LINK_HOLDER, LINK_NEXT, LINK_OWNER, bars, blocked_locks, first_converting,
    first_holder, first_waiting, holds_null, link, locks_from, next_holder, owner_of,
};
use table_fields::{LOCK_PLACES, resource_count};

// A filter has so many places, which owners share by their low bits.
const FILTER: usize = 256;

// How many blocked locks are not cleared.
fn count_left(words: &[u32], cleared: &[bool; LOCK_PLACES]) -> u16
    requires { Some Core words.now }
    ensures { result ≡ unmarked (seen words.now).blocked cleared.now }
{
    let mut n = 0;
    for k in blocked_locks(words) {
        if !cleared[k as usize] {
            n += 1;
        }
    }
    n
}

// Notes the owners of the blocked locks.
fn note_owners(words: &[u32], filter: &mut [bool; FILTER])
    requires { Some Core words.now }
    ensures { OwnersNoted words.now filter.new }
{
    for k in blocked_locks(words) {
        filter[owner_of(words, k) % FILTER] = true;
    }
}

// Whether the holder k can be in someone's way and its owner is noted.
#[tactic(auto, using(crate::proofs::FreeLines::counts_laws))]
fn counts(words: &[u32], filter: &[bool; FILTER], k: u16) -> bool
    requires { At words.now k }
    ensures { result ≡ counts (seen words.now) filter.now k }
{
    if holds_null(words, k) {
        return false;
    }
    let owner = owner_of(words, k);
    filter[owner % FILTER]
}

// Whether that holds of some holder on resource r.
fn is_noted(words: &[u32], filter: &[bool; FILTER], r: u32) -> bool
    requires some { Some Core words.now }
    requires le_r { (1 ≤ r) × (r ≤ resources_in words.now) }
    ensures { result ≡ any (counts (seen words.now) filter.now) (holders (seen words.now) r) }
{
    let mut k = first_holder(words, r);
    while k != 0 {
        if counts(words, filter, k) {
            return true;
        }
        k = next_holder(words, k);
    }
    false
}

// Clears the locks of a home chain, from `first` on.
fn clear_chain(words: &[u32], first: u16, cleared: &mut [bool; LOCK_PLACES])
    requires { FreeChain words.now cleared.old first }
    ensures { ChainCleared words.now cleared.old cleared.new first }
{
    for k in locks_from(words, first) {
        cleared[k as usize] = true;
    }
}

// Clears the line of resource r if no owner of a blocked lock holds anything there that is in someone's way: each lock of it
// hops only to the one right ahead of it. Answers whether it left nothing.
fn clear_line(
    words: &[u32],
    filter: &[bool; FILTER],
    r: u32,
    cleared: &mut [bool; LOCK_PLACES],
) -> bool
    requires free_pass { FreePass words.now filter.now cleared.old }
    requires le_r { (1 ≤ r) × (r ≤ resources_in words.now) }
    ensures { LineCleared words.now filter.now cleared.old cleared.new r result }
{
    let converting = first_converting(words, r);
    let waiting = first_waiting(words, r);
    if (converting == 0) & (waiting == 0) {
        return true;
    }
    if is_noted(words, filter, r) {
        return false;
    }
    clear_chain(words, converting, cleared);
    clear_chain(words, waiting, cleared);
    true
}

// One cheap pass along the lines, which needs no links. Answers whether it cleared every blocked lock.
#[tactic(auto, using(crate::proofs::FreeLines::lines_laws))]
pub fn clear_free_lines(words: &[u32], cleared: &mut [bool; LOCK_PLACES]) -> bool
    requires { Clearable words.now cleared.old }
    ensures { LinesCleared words.now cleared.new result }
{
    let mut filter = [false; FILTER];
    note_owners(words, &mut filter);
    let n = resource_count(words);
    let mut all = true;
    for r in 1..n + 1 {
        all &= clear_line(words, &filter, r, cleared);
    }
    all
}

// The owner of the blocked lock k is busy, unless k is cleared.
#[tactic(auto, using(crate::proofs::FrontPasses::note_busy_laws))]
fn note_busy(links: &[u16], cleared: &[bool; LOCK_PLACES], k: u16, busy: &mut [bool; LOCK_PLACES])
    requires { Placed links.now k }
    ensures { BusyNoted links.now cleared.now k busy.old busy.new }
{
    if cleared[k as usize] {
        return;
    }
    let owner = link(links, k, LINK_OWNER);
    busy[owner as usize] = true;
}

// The busy owners: those of the blocked locks that are not cleared.
fn busy_owners(
    words: &[u32],
    links: &[u16],
    cleared: &[bool; LOCK_PLACES],
    busy: &mut [bool; LOCK_PLACES],
)
    requires { Linked words.now links.now cleared.now }
    ensures { Busy words.now links.now cleared.now busy.new }
{
    for k in blocked_locks(words) {
        note_busy(links, cleared, k, busy);
    }
}

// Whether j is in k's way and its owner is busy.
#[tactic(auto, using(crate::proofs::FrontPasses::hinders_laws))]
fn hinders(words: &[u32], links: &[u16], busy: &[bool; LOCK_PLACES], k: u16, j: u16) -> bool
    requires at { At words.now k }
    requires at_2 { At words.now j }
    requires placed { Placed links.now j }
    ensures { result ≡ hinders (seen words.now) links.now busy.now k j }
{
    let owner = link(links, j, LINK_OWNER);
    if !busy[owner as usize] {
        return false;
    }
    bars(words, k, j)
}

// Whether that holds of some holder that the blocked lock k looks at: it begins at the first that is in its way.
fn hindered(words: &[u32], links: &[u16], busy: &[bool; LOCK_PLACES], k: u16) -> bool
    requires { LinkedLock words.now links.now k }
    ensures { Hindered words.now links.now busy.now k result }
{
    let mut j = link(links, k, LINK_HOLDER);
    while j != 0 {
        if hinders(words, links, busy, k, j) {
            return true;
        }
        j = link(links, j, LINK_NEXT);
    }
    false
}

// Clears the blocked lock k if all that it hops to are cleared: the lock right ahead of it, and the blocked locks of the
// owners in its way. Answers whether it did.
fn clear_if_free(
    words: &[u32],
    links: &[u16],
    busy: &[bool; LOCK_PLACES],
    k: u16,
    cleared: &mut [bool; LOCK_PLACES],
) -> bool
    requires front_pass { FrontPass words.now links.now busy.now cleared.old }
    requires blocked { Blocked words.now k }
    ensures { FrontStep words.now links.now busy.now cleared.old cleared.new result }
{
    if cleared[k as usize] {
        return false;
    }
    let ahead = link(links, k, LINK_AHEAD);
    if (ahead != 0) & !cleared[ahead as usize] {
        return false;
    }
    if hindered(words, links, busy, k) {
        return false;
    }
    cleared[k as usize] = true;
    true
}

// One pass along the blocked locks. An owner whose last lock is cleared on the way is busy until the next pass. Answers
// whether it cleared a lock.
fn clear_front(words: &[u32], links: &[u16], cleared: &mut [bool; LOCK_PLACES]) -> bool
    requires { Ready words.now links.now cleared.old }
    ensures { Passed words.now links.now cleared.old cleared.new result }
{
    let mut busy = [false; LOCK_PLACES];
    busy_owners(words, links, cleared, &mut busy);
    let mut more = false;
    for k in blocked_locks(words) {
        more |= clear_if_free(words, links, &busy, k, cleared);
    }
    more
}

// Passes from the front, as long as they clear locks.
#[tactic(auto, using(crate::proofs::LocksLeft::passes_laws))]
fn clear_from_front(words: &[u32], links: &[u16], cleared: &mut [bool; LOCK_PLACES])
    requires { Ready words.now links.now cleared.old }
    ensures { Ready words.now links.now cleared.new }
{
    let mut more = true;
    while more {
        more = clear_front(words, links, cleared);
    }
}

// The owner of j is wanted if j is in k's way.
#[tactic(auto, using(crate::proofs::WantedOwners::owner_laws))]
fn want_owner(words: &[u32], links: &[u16], k: u16, j: u16, wanted: &mut [bool; LOCK_PLACES])
    requires at { At words.now k }
    requires at_2 { At words.now j }
    requires placed { Placed links.now j }
    ensures { OwnerNoted words.now links.now k j wanted.old wanted.new }
{
    if !bars(words, k, j) {
        return;
    }
    let owner = link(links, j, LINK_OWNER);
    wanted[owner as usize] = true;
}

// The owners in the way of the blocked lock k are wanted, unless k is cleared.
fn want_owners(
    words: &[u32],
    links: &[u16],
    cleared: &[bool; LOCK_PLACES],
    k: u16,
    wanted: &mut [bool; LOCK_PLACES],
)
    requires linked { Linked words.now links.now cleared.now }
    requires blocked { Blocked words.now k }
    ensures { WantNoted words.now links.now cleared.now k wanted.old wanted.new }
{
    if cleared[k as usize] {
        return;
    }
    let mut j = link(links, k, LINK_HOLDER);
    while j != 0 {
        want_owner(words, links, k, j, wanted);
        j = link(links, j, LINK_NEXT);
    }
}

// The wanted owners: those in the way of the blocked locks that are not cleared.
fn wanted_owners(
    words: &[u32],
    links: &[u16],
    cleared: &[bool; LOCK_PLACES],
    wanted: &mut [bool; LOCK_PLACES],
)
    requires { Linked words.now links.now cleared.now }
    ensures { Wanted words.now links.now cleared.now wanted.new }
{
    for k in blocked_locks(words) {
        want_owners(words, links, cleared, k, wanted);
    }
}

// Clears a line from its lock `last` on ahead, up to the first lock that is wanted or was cleared before; answers where it
// stopped. All that are passed are cleared, so who still hops to a lock has its owner in the way. Ahead of a lock that was
// cleared from the front all are cleared.
fn clear_line_back(
    links: &[u16],
    wanted: &[bool; LOCK_PLACES],
    last: u16,
    cleared: &mut [bool; LOCK_PLACES],
) -> u16
    requires { BackLine links.now wanted.now cleared.old last }
    ensures { LineBacked links.now wanted.now cleared.old cleared.new last result }
{
    let mut k = last;
    while k != 0 {
        if cleared[k as usize] {
            return k;
        }
        let owner = link(links, k, LINK_OWNER);
        if wanted[owner as usize] {
            return k;
        }
        cleared[k as usize] = true;
        k = link(links, k, LINK_AHEAD);
    }
    k
}

// One pass along the lines, each from where the last pass stopped, which `lasts` keeps. A lock is on no cycle if only cleared
// locks hop to it: the one right behind it, and those that its owner is in the way of. Answers whether it cleared a lock.
#[tactic(auto, using(crate::proofs::BackPasses::back_laws))]
fn clear_back(
    words: &[u32],
    links: &[u16],
    lasts: &mut [u16],
    cleared: &mut [bool; LOCK_PLACES],
) -> bool
    requires { BackReady words.now links.now lasts.old cleared.old }
    ensures { BackPassed words.now links.now lasts.new cleared.old cleared.new result }
{
    let mut wanted = [false; LOCK_PLACES];
    wanted_owners(words, links, cleared, &mut wanted);
    let n = resource_count(words);
    let mut more = false;
    for r in 1..n + 1 {
        let last = lasts[r as usize];
        let stop = clear_line_back(links, &wanted, last, cleared);
        lasts[r as usize] = stop;
        more |= stop != last;
    }
    more
}

// Passes from the back, as long as they clear locks.
#[tactic(auto, using(crate::proofs::BackPasses::backs_laws))]
fn clear_from_back(
    words: &[u32],
    links: &[u16],
    lasts: &mut [u16],
    cleared: &mut [bool; LOCK_PLACES],
)
    requires { BackReady words.now links.now lasts.old cleared.old }
    ensures { Ready words.now links.now cleared.new }
{
    let mut more = true;
    while more {
        more = clear_back(words, links, lasts, cleared);
    }
}

// Clears from the front, then from the back. Answers how many blocked locks are left.
#[tactic(auto, using(crate::proofs::BackPasses::ends_laws))]
pub fn clear_ends(
    words: &[u32],
    links: &[u16],
    lasts: &mut [u16],
    cleared: &mut [bool; LOCK_PLACES],
) -> u16
    requires { Prunable words.now links.now lasts.old cleared.old }
    ensures { Uncleared words.now links.now cleared.new result }
{
    clear_from_front(words, links, cleared);
    let left = count_left(words, cleared);
    if left == 0 {
        return 0;
    }
    clear_from_back(words, links, lasts, cleared);
    count_left(words, cleared)
}
