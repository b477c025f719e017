#![tactic(auto)]
// A request's change, in place. It takes a lock, and if its name is new also a resource. Then it is granted, or waits
// and those in its way are told.
ghost use Rattle.std.specs.Prelude.{◌≡◌};
ghost use Rattle.modes.specs.Made.{mode_number};
ghost use Rattle.rules.specs.Calls.{granted_at_once, holding, queued, request_on, request_change};
ghost use Rattle.tables.specs.Numbered.{numbered};
ghost use Rattle.rules.specs.Accepted.{Requestable};
ghost use Rattle.table_chains.specs.Promises.{Some, Tells};
ghost use Rattle.table_names.specs.Names.{find_in};
ghost use Rattle.queues.specs.Promises.{SomeTables};
ghost use Rattle.answers.specs.Answers.{request_answer};
ghost use Rattle.answers.specs.Promises.{Makes, MakesWords};
ghost use Rattle.call_request.specs.Promises.{Nameable, Houses, AsksOn, Enters};

use answers::Requested;
use modes::Mode;
use table_chains::{Hints, NO_HINTS};
use table_fields::{header_word, new_lock};
use tables::Lock;

// The resource of that name: the one that was found, or else the first free one, which takes the name.
fn resource_for(words: &mut [u32], slots: &mut [u8], found: Option<u32>, name: &[u8]) -> u32
    requires some_tables { SomeTables (Nameable name.now) words.old slots.old }
    requires found_value { found ≡ numbered (find_in words.old slots.old name.now) }
    ensures { Houses name.now words.old slots.old words.new slots.new result }
{
    if let Some(r) = found {
        return r;
    }
    let first = header_word(words, table_fields::FREE_RESOURCES);
    queues::take_resource(words, slots, first, name);
    first
}

// A lock that the client holds on r, and one that waits there.
fn holding(r: u32, client: u32, mode: Mode) -> Lock
    ensures { result ≡ holding r client (mode_number mode) }
{
    new_lock(r, client, table_fields::STATE_GRANTED, mode as u32, 0)
}

fn queued(r: u32, client: u32, mode: Mode) -> Lock
    ensures { result ≡ queued r client (mode_number mode) }
{
    new_lock(r, client, table_fields::STATE_WAITING, 0, mode as u32)
}

// Whether the mode is granted at once on r. With flag 4 it is: a request that would block has been refused.
#[tactic(auto, using(crate::proofs::NewLock::asks_laws))]
fn at_once(words: &[u32], r: u32, mode: Mode, flags: u32) -> bool
    requires { Some (AsksOn r (mode_number mode) flags) words.now }
    ensures { Tells (AsksOn r (mode_number mode) flags) (λ t. granted_at_once t r (mode_number mode)) words.now result }
{
    if flags::no_queue(flags) {
        return true;
    }
    queues::granted_at_once(words, r, mode)
}

// The lock k, which is free, becomes the client's on r: granted at once, or waiting. Whoever is in its way is told. `last` is
// a hint at the last lock granted there.
fn enter(
    words: &mut [u32],
    r: u32,
    k: u32,
    client: u32,
    mode: Mode,
    flags: u32,
    last: u32,
) -> Requested
    requires { Some (Enters r k client (mode_number mode) flags) words.old }
    ensures { MakesWords (Enters r k client (mode_number mode) flags) (request_on r k client (mode_number mode)) words.old words.new (request_answer result) }
{
    if at_once(words, r, mode, flags) {
        let hints = Hints { before: 0, last };
        table_chains::move_lock(words, k, holding(r, client, mode), hints);
        return Requested::Granted(k);
    }
    table_chains::move_lock(words, k, queued(r, client, mode), NO_HINTS);
    marks::tell_obstacles(words, k);
    Requested::Waiting(k)
}

// The client requests the mode on the name, and nothing refuses it. `found` is the resource that has the name, if one has it;
// `last` is a hint at the last lock granted there.
pub fn request_change(
    words: &mut [u32],
    slots: &mut [u8],
    found: Option<u32>,
    last: u32,
    client: u32,
    mode: Mode,
    flags: u32,
    name: &[u8],
) -> Requested
    requires some_tables { SomeTables (Requestable client (mode_number mode) flags name.now) words.old slots.old }
    requires found_value { found ≡ numbered (find_in words.old slots.old name.now) }
    ensures { Makes (Requestable client (mode_number mode) flags name.now) (request_change client (mode_number mode) name.now) words.old slots.old words.new slots.new (request_answer result) }
{
    let k = header_word(words, table_fields::FREE_LOCKS);
    let r = resource_for(words, slots, found, name);
    enter(words, r, k, client, mode, flags, last)
}
