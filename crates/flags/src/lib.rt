#![tactic(auto)]
// The flags of a call: 1 stores the value, 2 makes it not valid, 4 refuses to queue; and which of them each call takes.
ghost use Rattle.std.specs.Prelude.{◌≡◌};
ghost use Rattle.rules.specs.Calls.{stores, spoils, no_queue, request_flags, convert_flags, release_flags};

// Flag 1: store the value.
pub fn stores(flags: u32) -> bool
    ensures { result ≡ stores flags }
{
    flags % 2 == 1
}

// Flag 2: make it not valid.
pub fn spoils(flags: u32) -> bool
    ensures { result ≡ spoils flags }
{
    flags / 2 % 2 == 1
}

// Flag 4: don't queue.
pub fn no_queue(flags: u32) -> bool
    ensures { result ≡ no_queue flags }
{
    flags / 4 % 2 == 1
}

pub fn request_flags(flags: u32) -> bool
    ensures { result ≡ request_flags flags }
{
    (flags == 0) | (flags == 4)
}

pub fn convert_flags(flags: u32) -> bool
    ensures { result ≡ convert_flags flags }
{
    (flags < 8) & !(stores(flags) & spoils(flags))
}

pub fn release_flags(flags: u32) -> bool
    ensures { result ≡ release_flags flags }
{
    (flags < 4) & !(stores(flags) & spoils(flags))
}
