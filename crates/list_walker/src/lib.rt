#![tactic(auto)]
// The locks on a resource in grant, convert, wait order: the first, what follows one, and a walker along them.
ghost use Rattle.std.specs.Prelude.{◌≡◌, ◌-◌};
ghost use Rattle.std.specs.Iterator.{at_most};
ghost use Rattle.tables.specs.Layout.{locks_in};
ghost use Rattle.table_chains.specs.Promises.{Some, Tells, Resourced};
ghost use Rattle.list_walker.specs.Order.{first_on, first_past, Queued, next_on};
ghost use Rattle.list_walker.specs.Walks.{Stands, Begins, Steps};

use table_fields::{lock_word, resource_word};

// The first lock on the queues of r past the one where locks in a state stand, or 0. No queue stands before that of the
// granted: from STATE_FREE it is the first lock on r. Here and below 0 is the word of the tables, as `next_on` has it; only
// the walker's `next` turns it into an Option.
fn first_past(words: &[u32], r: u32, state: u32) -> u32
    requires { Some (Resourced r) words.now }
    ensures { Tells (Resourced r) (first_past r state) words.now result }
{
    let granted = resource_word(words, r, table_fields::RESOURCE_GRANT);
    if (state < table_fields::STATE_GRANTED) & (granted != 0) {
        return granted;
    }
    let converting = resource_word(words, r, table_fields::RESOURCE_CONVERT);
    if (state < table_fields::STATE_CONVERTING) & (converting != 0) {
        return converting;
    }
    if state < table_fields::STATE_WAITING {
        return resource_word(words, r, table_fields::RESOURCE_WAIT);
    }
    0
}

// The first lock on r, or 0.
fn first_on(words: &[u32], r: u32) -> u32
    requires { Some (Resourced r) words.now }
    ensures { Tells (Resourced r) (first_on r) words.now result }
{
    first_past(words, r, table_fields::STATE_FREE)
}

// The lock that follows k on its resource, or 0.
fn following(words: &[u32], k: u32) -> u32
    requires { Some (Queued k) words.now }
    ensures { Tells (Queued k) (next_on k) words.now result }
{
    let next = lock_word(words, k, table_fields::LOCK_NEXT);
    if next != 0 {
        return next;
    }
    let lock = table_fields::lock_at(words, k);
    first_past(words, lock.resource, lock.state)
}

// A walker along the locks on a resource: the lent words, how many locks it has given, and the lock where it stands, or 0
// past the last.
#[derive(Drop)]
pub struct Walker<'a> {
    pub words: &'a [u32],
    pub given: u32,
    pub lock: u32,
}

impl<'a> Walker<'a> {
    // A walker at the first lock on r.
    pub fn new(words: &'a [u32], r: u32) -> Self
        requires { Some (Resourced r) words.now }
        ensures { Begins words.now r result }
    {
        let lock = first_on(words, r);
        Walker {
            words,
            given: 0,
            lock,
        }
    }

    // One lock further, from any lock on a resource.
    pub fn step(&mut self)
        requires { Some (Queued self.old.lock) self.old.words.now }
        ensures same { (self.new.words ≡ self.old.words) × (self.new.given ≡ self.old.given) }
        ensures next { Tells (Queued self.old.lock) (next_on self.old.lock) self.old.words.now self.new.lock }
    {
        self.lock = following(self.words, self.lock);
    }
}

impl<'a> Iterator for Walker<'a> {
    type Item = u32;

    ghost can_next = { Stands };

    ghost next_gives = { Steps };

    ghost remaining = { λ w. at_most (locks_in w.words.now - w.given) };

    fn next(&mut self) -> Option<u32> {
        if self.lock == 0 {
            return None;
        }
        let k = self.lock;
        self.step();
        self.given += 1;
        Some(k)
    }
}
