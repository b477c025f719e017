#![tactic(auto)]
// The lines of blocked locks, linked: who stands right ahead of whom, and who begins to look at which holder.
ghost use Rattle.std.specs.Prelude.{◌≡◌, ◌≤◌};
ghost use Rattle.tables.specs.Lists.{first};
ghost use Rattle.tables.specs.Layout.{resources_in};
ghost use Rattle.tables.specs.Validity.{Core};
ghost use Rattle.rules.specs.Deadlock.{obstacles};
ghost use Rattle.table_chains.specs.Promises.{Some};
ghost use Rattle.deadlock_graph.specs.Promises.{seen, Blocked};
ghost use Rattle.deadlock_graph.specs.Links.{Roomy};
ghost use Rattle.deadlock_lines.specs.Lines.{Faces, ChainFaces, LockLinked, ChainLinked, LineLinked, SomeLined, LineMade, Unlined, LinesLinked};

use deadlock_graph::{
    LINK_AHEAD, LINK_HOLDER, asked_of, bars, blocked_locks, first_converting, first_holder,
    first_waiting, locks_from, next_holder, put_link, resource_of,
};
use table_fields::LOCK_PLACES;

// Modes are numbered from 0.
const MODES: usize = 6;

// Of the locks on a line that ask for one mode, so many look for themselves who is in their way. What is in the way of another
// is in the way of one of these, which stand ahead of it.
const LOOKERS: u16 = 2;

// The first holder in k's way, from `holder` on, or 0. The number is stored as a link, where 0 is none: an Option would be
// turned back into it. So it is with the last lock that `link_line` answers, which `lasts` keeps.
fn first_bar(words: &[u32], k: u16, holder: u16) -> u16
    requires { Faces words.now holder k }
    ensures { result ≡ first (obstacles (seen words.now) k) }
{
    let mut j = holder;
    while j != 0 {
        if bars(words, k, j) {
            return j;
        }
        j = next_holder(words, j);
    }
    0
}

// The links of lock k; `holder` is the first on its resource. `met` has for each mode how many of those ahead of k look and
// ask for it.
fn link_lock(
    words: &[u32],
    k: u16,
    ahead: u16,
    holder: u16,
    met: &mut [u16; MODES],
    links: &mut [u16],
)
    requires faces { Faces words.now holder k }
    requires roomy { Roomy words.now links.old }
    ensures { LockLinked words.now k ahead met.old met.new links.old links.new }
{
    put_link(links, k, LINK_AHEAD, ahead);
    let asked = asked_of(words, k);
    let before = met[asked];
    if before >= LOOKERS {
        return;
    }
    met[asked] = before + 1;
    let bar = first_bar(words, k, holder);
    put_link(links, k, LINK_HOLDER, bar);
}

// The links of the locks of a home chain, from `first` on, behind the lock `ahead`; answers the last of them.
fn link_chain(
    words: &[u32],
    first: u16,
    ahead: u16,
    holder: u16,
    met: &mut [u16; MODES],
    links: &mut [u16],
) -> u16
    requires chain_faces { ChainFaces words.now holder first }
    requires roomy { Roomy words.now links.old }
    ensures { ChainLinked words.now first ahead met.old met.new links.old links.new result }
{
    let mut last = ahead;
    for k in locks_from(words, first) {
        link_lock(words, k, last, holder, met, links);
        last = k;
    }
    last
}

// The line of resource r: its convert chain, then its wait chain. Answers the last lock on it, or 0.
fn link_line(words: &[u32], r: u32, links: &mut [u16]) -> u16
    requires some { Some Core words.now }
    requires le_r { (1 ≤ r) × (r ≤ resources_in words.now) }
    requires roomy { Roomy words.now links.old }
    ensures { LineLinked words.now r links.old links.new result }
{
    let holder = first_holder(words, r);
    let mut met = [0; MODES];
    let converting = first_converting(words, r);
    let last = link_chain(words, converting, 0, holder, &mut met, links);
    let waiting = first_waiting(words, r);
    link_chain(words, waiting, last, holder, &mut met, links)
}

// The line of the blocked lock k is linked, unless k is cleared or it was linked before. `lasts` has at the number of a
// resource the last lock of its line, once that is linked.
#[tactic(auto, using(crate::proofs::AllLines::for_laws))]
fn link_for(
    words: &[u32],
    cleared: &[bool; LOCK_PLACES],
    k: u16,
    links: &mut [u16],
    lasts: &mut [u16],
)
    requires blocked { Blocked words.now k }
    requires some_lined { SomeLined words.now links.old lasts.old }
    ensures { LineMade words.now cleared.now k links.old links.new lasts.old lasts.new }
{
    if cleared[k as usize] {
        return;
    }
    let r = resource_of(words, k);
    if lasts[r as usize] != 0 {
        return;
    }
    lasts[r as usize] = link_line(words, r, links);
}

// The lines of the blocked locks that are not cleared.
pub fn link_lines(
    words: &[u32],
    cleared: &[bool; LOCK_PLACES],
    links: &mut [u16],
    lasts: &mut [u16],
)
    requires { Unlined words.now cleared.now links.old lasts.old }
    ensures { LinesLinked words.now cleared.now links.old links.new lasts.new }
{
    for k in blocked_locks(words) {
        link_for(words, cleared, k, links, lasts);
    }
}
