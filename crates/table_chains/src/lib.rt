#![tactic(auto)]
// Changes of the words in place: the cells of a chain, a lock that becomes another, the words of a resource.
ghost use Rattle.std.specs.Prelude.{◌≡◌, false, ◌*◌, ◌^◌, ◌<◌, ◌≤◌};
ghost use Rattle.tables.specs.State.{most_locks, last_mode, home, home_at, blocked, notices, free_resources, of_locks};
ghost use Rattle.tables.specs.Layout.{place, head, lock_width, resources_in, locks_in};
ghost use Rattle.tables.specs.Stores.{cell_holding, push_cells, leave_cells, join_cells};
ghost use Rattle.tables.specs.Stores.{stays, resettle_cells, side_cells, move_cells};
ghost use Rattle.tables.specs.Stores.{count_place, lower_count, raise_count};
ghost use Rattle.table_fields.specs.Sizes.{Sized, Kept};
ghost use Rattle.table_chains.specs.Cells.{cell_of, cells_at, lock_cells, Walks, Near, Leaves, Pushes, Shifts, end_cells, Housed};
ghost use Rattle.table_chains.specs.Promises.{Some, Moving, Moved, Resourced, ResourceMoved, Counting, AtHome, WithNotice, Sided, Homing};

use table_fields::{ResourceFields, is_blocked, is_holding, is_noticed, put_lock};
use tables::Lock;

// The cells of a chain: each names the record that follows, the last one 0. The fields are the place of the head, the
// place of record 1's cell, how far apart the records' cells stand, and how many records there can be.
#[derive(Clone, Copy)]
pub struct Cells {
    pub head: usize,
    pub first: usize,
    pub width: usize,
    pub most: usize,
}

// Where a record joins a chain: in front, or at its end. A record that stands on the chain, if one is given, is looked at
// first: if it is the last, no walk is needed.
#[derive(Clone, Copy)]
enum End {
    Front,
    Back(Option<u32>),
}

impl Cells {
    // Where the cell of record k stands.
    fn cell(self, k: u32) -> usize
        requires low { 1 ≤ k }
        requires fits { cell_of self k < 2 ^ 64 }
        ensures { result ≡ cell_of self k }
    {
        self.first + self.width * (k as usize - 1)
    }

    // The cell that holds k (0: the last one).
    pub fn holding(self, words: &[u32], k: u32) -> usize
        requires { Walks words.now self k }
        ensures { result ≡ cell_holding words.now (cell_of self) k self.most self.head }
    {
        let mut at = self.head;
        for _ in 0..self.most {
            let next = words[at];
            if next == k {
                return at;
            }
            at = self.cell(next);
        }
        at
    }

    // The same. If a record of the chain is given, no walk is needed where its cell is the one.
    fn holding_near(self, words: &[u32], k: u32, near: Option<u32>) -> usize
        requires walks { Walks words.now self k }
        requires near { Near words.now self k near }
        ensures { result ≡ cell_holding words.now (cell_of self) k self.most self.head }
    {
        if let Some(j) = near {
            let at = self.cell(j);
            if words[at] == k {
                return at;
            }
        }
        self.holding(words, k)
    }

    // The record k joins the chain in front.
    #[tactic(auto, using(crate::proofs::CellWalks::push_laws))]
    pub fn push(self, words: &mut [u32], k: u32)
        requires { Pushes words.old self k }
        ensures words_after { words.new ≡ push_cells (cell_of self) k words.old }
        ensures kept { Kept words.old words.new }
    {
        let own = self.cell(k);
        words[own] = words[self.head];
        words[self.head] = k;
    }

    // The record k joins the chain at its end. The record `near`, if there is one, is on the chain.
    fn join(self, words: &mut [u32], k: u32, near: Option<u32>)
        requires walks { Walks words.old self 0 }
        requires near { Near words.old self 0 near }
        ensures words_after { words.new ≡ join_cells (cell_of self) self.most k words.old }
        ensures kept { Kept words.old words.new }
    {
        let at = self.holding_near(words, 0, near);
        words[at] = k;
    }

    // The record k leaves the chain. The record `near`, if there is one, is on the chain.
    fn leave(self, words: &mut [u32], k: u32, near: Option<u32>)
        requires leaves { Leaves words.old self k }
        requires near { Near words.old self k near }
        ensures words_after { words.new ≡ leave_cells (cell_of self) self.most k words.old }
        ensures kept { Kept words.old words.new }
    {
        let at = self.holding_near(words, k, near);
        let own = self.cell(k);
        words[at] = words[own];
        words[own] = 0;
    }

    // The record k joins the chain or leaves it: `was` says whether it was on the chain, `is` whether it is to be.
    fn shift(self, words: &mut [u32], was: bool, is: bool, k: u32, end: End)
        requires { Shifts was end words.old self k }
        ensures words_after { words.new ≡ end_cells end was is (cell_of self) self.most k words.old }
        ensures kept { Kept words.old words.new }
    {
        match (was, is, end) {
            (true, false, _) => self.leave(words, k, None),
            (false, true, End::Front) => self.push(words, k),
            (false, true, End::Back(near)) => self.join(words, k, near),
            _ => {}
        }
    }
}

// Locks that may spare a walk: one that may stand right before the lock that moves, on the home chain that it leaves, and
// one that may stand last on a chain that it joins. 0 is none. Nothing is promised of them: each is looked at before it is
// believed.
#[derive(Clone, Copy)]
pub struct Hints {
    pub before: u32,
    pub last: u32,
}

pub const NO_HINTS: Hints = Hints { before: 0, last: 0 };

// The cells of a chain of locks, from the place of its head and the field that it goes by.
#[tactic(auto, using(crate::proofs::HeadCells::head_laws))]
pub fn lock_cells(words: &[u32], head: usize, link: usize) -> Cells
    requires sized { Sized words.now }
    requires bound { 1 ≤ locks_in words.now }
    requires link_lt_lock_width { link < lock_width }
    ensures { result ≡ lock_cells head link words.now }
{
    Cells {
        head,
        first: table_fields::lock_start(words, 1) + link,
        width: table_fields::LOCK_WORDS,
        most: table_fields::lock_count(words) as usize,
    }
}

// The cells of the free resources.
#[tactic(auto, using(crate::proofs::HeadCells::head_laws))]
pub fn resource_cells(words: &[u32]) -> Cells
    requires sized { Sized words.now }
    requires bound { 1 ≤ resources_in words.now }
    ensures { result ≡ cells_at free_resources words.now }
{
    Cells {
        head: table_fields::FREE_RESOURCES,
        first: table_fields::resource_start(words, 1) + table_fields::RESOURCE_NEXT,
        width: table_fields::RESOURCE_WORDS,
        most: table_fields::resource_count(words) as usize,
    }
}

// The place of the head of the home chain for a state and a resource. A resource's queues are numbered as the states.
#[tactic(auto, using(crate::proofs::HeadCells::head_laws))]
fn home_head(words: &[u32], state: u32, resource: u32) -> usize
    requires { Housed state resource words.now }
    ensures { result ≡ place (resources_in words.now) (head (of_locks (home_at state resource))) }
{
    if state == table_fields::STATE_FREE {
        return table_fields::FREE_LOCKS;
    }
    if state >= table_fields::STATE_DENIED {
        return table_fields::DENIED;
    }
    table_fields::resource_start(words, resource) + state as usize
}

// The cells of the home of a lock.
#[tactic(auto, using(crate::proofs::HeadCells::head_laws))]
pub fn home_cells(words: &[u32], l: Lock) -> Cells
    requires { Housed l.state l.resource words.now }
    ensures { result ≡ cells_at (of_locks (home l)) words.now }
{
    let head = home_head(words, l.state, l.resource);
    lock_cells(words, head, table_fields::LOCK_NEXT)
}

fn keeps_home(l: Lock, m: Lock) -> bool
    ensures { result ≡ stays l m }
{
    (l.state == m.state) & (l.resource == m.resource)
}

// The lock j, if it is another one than k at the home of l.
fn at_home(words: &[u32], l: Lock, k: u32, j: u32) -> Option<u32>
    requires { Sized words.now }
    ensures { AtHome words.now l k result }
{
    if j == 0 || j == k || table_fields::lock_count(words) < j {
        return None;
    }
    keeps_home(table_fields::lock_at(words, j), l).then_some(j)
}

// The lock j, if it belongs on the notice chain.
fn with_notice(words: &[u32], j: u32) -> Option<u32>
    requires { Sized words.now }
    ensures { WithNotice words.now result }
{
    if j == 0 || table_fields::lock_count(words) < j {
        return None;
    }
    is_noticed(table_fields::lock_at(words, j)).then_some(j)
}

// The lock k, which is o and is to become m, joins or leaves the blocked chain and the notice chain.
fn shift_sides(words: &mut [u32], k: u32, o: Lock, m: Lock, last: u32)
    requires { Sided k o m words.old }
    ensures words_after { words.new ≡ side_cells (resources_in words.old) (locks_in words.old) k o m words.old }
    ensures kept { Kept words.old words.new }
{
    let blocked = lock_cells(
        words,
        table_fields::BLOCKED,
        table_fields::LOCK_NEXT_BLOCKED,
    );
    blocked.shift(words, is_blocked(o), is_blocked(m), k, End::Back(None));
    let notices = lock_cells(words, table_fields::NOTICES, table_fields::LOCK_NEXT_NOTICE);
    let near = with_notice(words, last);
    notices.shift(words, is_noticed(o), is_noticed(m), k, End::Back(near));
}

// The lock k, which is o, becomes m, which has another home. A free lock joins its home in front, another one at the end.
fn rehome(words: &mut [u32], k: u32, o: Lock, m: Lock, hints: Hints)
    requires { Homing k o m words.old }
    ensures words_after { words.new ≡ resettle_cells false (resources_in words.old) (locks_in words.old) k o m words.old }
    ensures kept { Kept words.old words.new }
{
    let old = home_cells(words, o);
    let before = at_home(words, o, k, hints.before);
    old.leave(words, k, before);
    put_lock(words, k, m);
    let new = home_cells(words, m);
    if m.state == table_fields::STATE_FREE {
        new.push(words, k);
        return;
    }
    let last = at_home(words, m, k, hints.last);
    new.join(words, k, last);
}

// The lock k, which is o, becomes m but for the counts: it leaves each chain on which it no longer belongs, and joins
// each on which it now belongs.
fn relink(words: &mut [u32], k: u32, o: Lock, m: Lock, hints: Hints)
    requires { Sided k o m words.old }
    ensures words_after { words.new ≡ move_cells (resources_in words.old) (locks_in words.old) k o m words.old }
    ensures kept { Kept words.old words.new }
{
    shift_sides(words, k, o, m, hints.last);
    if keeps_home(o, m) {
        put_lock(words, k, m);
    } else {
        rehome(words, k, o, m, hints);
    }
}

// The place of the count of those that hold the mode of l on its resource.
fn count_place(words: &[u32], l: Lock) -> usize
    requires sized { Sized words.now }
    requires le_resource { (1 ≤ l.resource) × (l.resource ≤ resources_in words.now) }
    requires held_le_last_mode { l.held ≤ last_mode }
    ensures { result ≡ count_place (resources_in words.now) l }
{
    table_fields::resource_start(words, l.resource) + table_fields::RESOURCE_NL + l.held as usize
}

// The lock l is no longer counted among those that hold its mode, if it holds one.
#[tactic(auto, using(crate::proofs::LockCounts::count_laws))]
fn uncount(words: &mut [u32], l: Lock)
    requires { Counting (λ n. 1 ≤ n) l words.old }
    ensures words_after { words.new ≡ lower_count (resources_in words.old) l words.old }
    ensures kept { Kept words.old words.new }
{
    if is_holding(l) {
        let at = count_place(words, l);
        words[at] -= 1;
    }
}

// The lock l is counted among them. The grant and the convert queue have at most as many locks each as there are.
#[tactic(auto, using(crate::proofs::LockCounts::count_laws))]
fn count(words: &mut [u32], l: Lock)
    requires { Counting (λ n. n ≤ 2 * most_locks) l words.old }
    ensures words_after { words.new ≡ raise_count (resources_in words.old) l words.old }
    ensures kept { Kept words.old words.new }
{
    if is_holding(l) {
        let at = count_place(words, l);
        words[at] += 1;
    }
}

// The lock k becomes m: what it held is no longer counted, what it now holds is, and it goes from chain to chain. No call
// changes a count but through this.
pub fn move_lock(words: &mut [u32], k: u32, m: Lock, hints: Hints)
    requires { Moving k m words.old }
    ensures moved { Moved k m words.old words.new }
    ensures kept { Kept words.old words.new }
{
    let o = table_fields::lock_at(words, k);
    uncount(words, o);
    count(words, m);
    relink(words, k, o, m, hints);
}

// The resource r gets another name length and flag. A length of 0 means that it is free: it leaves the free resources
// or joins them in front accordingly.
pub fn move_resource_words(words: &mut [u32], r: u32, name_length: u32, valid: u32)
    requires { Some (Resourced r) words.old }
    ensures resource_moved { ResourceMoved r name_length valid words.old words.new }
    ensures kept { Kept words.old words.new }
{
    let old = table_fields::resource_at(words, r);
    let free = resource_cells(words);
    free.shift(words, old.bytes == 0, name_length == 0, r, End::Front);
    let new = ResourceFields {
        bytes: name_length,
        valid,
    };
    table_fields::put_resource(words, r, new);
}
