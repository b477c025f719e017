#![tactic(auto)]
// Why a call is turned down: for each call the first refusal that fits, if one does.
ghost use Rattle.std.specs.Prelude.{◌≡◌, unwrap_or, IfOk};
ghost use Rattle.modes.specs.Made.{mode_number};
ghost use Rattle.tables.specs.Validity.{Core};
ghost use Rattle.rules.specs.Calls.{request_refusal, convert_refusal, release_refusal, cancel_refusal, purge_refusal};
ghost use Rattle.rules.specs.Entries.{look_refusal};
ghost use Rattle.table_chains.specs.Promises.{Some, Tells};
ghost use Rattle.answers.specs.Refusals.{refused_number};
ghost use Rattle.call_refusals.specs.Promises.{ResourceIfAny, Finds, Asked};
ghost use Rattle.call_refusals.specs.Rests.{granted_refusal, conversion_refusal, room_refusal};

use answers::Refusal;
use call_arguments::{client_right, own};
use modes::Mode;

// Purge and poll have the client as their only argument.
pub fn client_refusal(client: u32) -> Result<(), Refusal>
    ensures { refused_number result ≡ purge_refusal client }
{
    if client_right(client) {
        return Ok(());
    }
    Err(Refusal::Client)
}

// The mode that a request or a conversion asks for.
fn asked_mode(mode: u32) -> Result<Mode, Refusal>
    ensures { Asked mode result }
{
    Mode::from_number(mode).ok_or(Refusal::Mode)
}

pub fn cancel_refusal(words: &[u32], client: u32, k: u32) -> Result<(), Refusal>
    requires { Some Core words.now }
    ensures { Tells Core (cancel_refusal client k) words.now (refused_number result) }
{
    client_refusal(client)?;
    if !own(words, client, k) {
        return Err(Refusal::Lock);
    }
    let waiter = table_fields::lock_at(words, k);
    if waiter.completion != table_fields::COMPLETION_NONE {
        return Err(Refusal::Unread);
    }
    if (waiter.state != table_fields::STATE_CONVERTING)
        & (waiter.state != table_fields::STATE_WAITING)
    {
        return Err(Refusal::State);
    }
    Ok(())
}

// Read and list.
pub fn look_refusal(words: &[u32], client: u32, k: u32) -> Result<(), Refusal>
    requires { Some Core words.now }
    ensures { Tells Core (look_refusal client k) words.now (refused_number result) }
{
    client_refusal(client)?;
    if !own(words, client, k) {
        return Err(Refusal::Lock);
    }
    let lock = table_fields::lock_at(words, k);
    if (lock.state != table_fields::STATE_GRANTED)
        & (lock.state != table_fields::STATE_CONVERTING)
    {
        return Err(Refusal::State);
    }
    Ok(())
}

// Convert and release need a lock of the client that is granted and has no unread completion.
fn granted_refusal(words: &[u32], client: u32, k: u32) -> Result<(), Refusal>
    requires { Some Core words.now }
    ensures { Tells Core (granted_refusal client k) words.now (refused_number result) }
{
    if !own(words, client, k) {
        return Err(Refusal::Lock);
    }
    let holder = table_fields::lock_at(words, k);
    if holder.completion != table_fields::COMPLETION_NONE {
        return Err(Refusal::Unread);
    }
    if holder.state != table_fields::STATE_GRANTED {
        return Err(Refusal::State);
    }
    Ok(())
}

pub fn release_refusal(
    words: &[u32],
    client: u32,
    k: u32,
    flags: u32,
    value: &[u8],
) -> Result<(), Refusal>
    requires { Some Core words.now }
    ensures { Tells Core (release_refusal client k flags value.now) words.now (refused_number result) }
{
    client_refusal(client)?;
    if !flags::release_flags(flags) {
        return Err(Refusal::Flags);
    }
    if !call_arguments::value_right(flags, value) {
        return Err(Refusal::Value);
    }
    granted_refusal(words, client, k)
}

// The refusals of convert that are left once its arguments are right.
fn conversion_refusal(
    words: &[u32],
    client: u32,
    k: u32,
    mode: Mode,
    flags: u32,
) -> Result<(), Refusal>
    requires { Some Core words.now }
    ensures { Tells Core (conversion_refusal client k (mode_number mode) flags) words.now (refused_number result) }
{
    granted_refusal(words, client, k)?;
    if !flags::no_queue(flags) {
        return Ok(());
    }
    if queues::in_place(words, k, mode) {
        return Ok(());
    }
    Err(Refusal::Blocks)
}

// If nothing refuses the call, the answer is the mode that is asked for.
pub fn convert_refusal(
    words: &[u32],
    client: u32,
    k: u32,
    mode: u32,
    flags: u32,
    value: &[u8],
) -> Result<Mode, Refusal>
    requires { Some Core words.now }
    ensures told { Tells Core (convert_refusal client k mode flags value.now) words.now (refused_number result) }
    ensures asked { IfOk result (λ m. mode_number m ≡ mode) }
{
    client_refusal(client)?;
    let asked = asked_mode(mode)?;
    if !flags::convert_flags(flags) {
        return Err(Refusal::Flags);
    }
    if !call_arguments::value_right(flags, value) {
        return Err(Refusal::Value);
    }
    conversion_refusal(words, client, k, asked, flags)?;
    Ok(asked)
}

// The refusals of request that are left once its arguments are right. `found` is the resource that has the name, if one
// has it. A new name has no lock that could be in the way.
fn room_refusal(words: &[u32], found: Option<u32>, mode: Mode, flags: u32) -> Result<(), Refusal>
    requires { Some (ResourceIfAny found) words.now }
    ensures { Tells (ResourceIfAny found) (room_refusal (unwrap_or found 0) (mode_number mode) flags) words.now (refused_number result) }
{
    if found.is_none() & (words[table_fields::FREE_RESOURCES] == 0) {
        return Err(Refusal::NoResource);
    }
    if words[table_fields::FREE_LOCKS] == 0 {
        return Err(Refusal::NoLock);
    }
    let Some(r) = found else {
        return Ok(());
    };
    if !flags::no_queue(flags) {
        return Ok(());
    }
    if queues::granted_at_once(words, r, mode) {
        return Ok(());
    }
    Err(Refusal::Blocks)
}

// `found` is the resource that has the name, if one has it: the caller looks it up, since the change of a request that is
// accepted needs it too. If nothing refuses the call, the answer is the mode that is asked for.
pub fn request_refusal(
    words: &[u32],
    found: Option<u32>,
    client: u32,
    mode: u32,
    flags: u32,
    name: &[u8],
) -> Result<Mode, Refusal>
    requires { Some (Finds name.now found) words.now }
    ensures told { Tells (Finds name.now found) (request_refusal client mode flags name.now) words.now (refused_number result) }
    ensures asked { IfOk result (λ m. mode_number m ≡ mode) }
{
    client_refusal(client)?;
    let asked = asked_mode(mode)?;
    if !flags::request_flags(flags) {
        return Err(Refusal::Flags);
    }
    if !call_arguments::name_right(name) {
        return Err(Refusal::Name);
    }
    room_refusal(words, found, asked, flags)?;
    Ok(asked)
}
