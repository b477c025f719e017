#![tactic(auto)]
// What the calls answer, and what each answer says: the papers' numbers, as specs/Answers.antt gives them.
ghost use Rattle.std.specs.Prelude.{◌≡◌, Ok};
ghost use Rattle.rules.specs.Calls.{accepted, accepted_with, refused};
ghost use Rattle.rules.specs.declared.Said.{Said};
ghost use Rattle.answers.specs.Refusals.{refusal_number};
ghost use Rattle.answers.specs.Answers.{nothing, request_answer, convert_answer, cancel_answer, purge_answer, denial, notice, count_answer, answered};
ghost use Rattle.answers.specs.Promises.{Says};

use rules::Said;

// Why a call is turned down, with the papers' number.
#[derive(Clone, Copy, Debug, PartialEq, Eq)]
pub enum Refusal {
    // The tables aren't sound (not start or load), or the image lent to load or holder isn't the image of sound tables.
    Unsound = 1,
    // Start's R, L or a length is wrong.
    Sizes = 2,
    // The client isn't 1 to 255.
    Client = 3,
    // The mode is above 5.
    Mode = 4,
    // A flag isn't allowed (request 4; convert 1, 2, 4; release 1, 2), or 1 and 2 are both set.
    Flags = 5,
    // The name has 0 or over 64 bytes.
    Name = 6,
    // Flag 1 is set and the value isn't 32 bytes.
    Value = 7,
    // The lock number isn't 1 to L, or is free, or another client's.
    Lock = 8,
    // Convert, release, cancel: its completion is unread.
    Unread = 9,
    // Convert or release of a lock not granted, cancel of one not blocked, read or list of one waiting or denied.
    State = 10,
    // The name is new and no resource record is free.
    NoResource = 11,
    // No lock record is free.
    NoLock = 12,
    // Flag 4 is set and it would block.
    Blocks = 13,
    // Image's area or load's tables have the wrong length.
    Lengths = 14,
}

impl Refusal {
    pub fn number(self) -> u32
        ensures { result ≡ refusal_number self }
    {
        self as u32
    }
}

fn accepted_with(answer: u32, number: u32, extra: u32) -> Said
    ensures { Says (accepted_with answer number extra) result }
{
    Said {
        refusal: 0,
        answer,
        number,
        extra,
    }
}

fn accepted(answer: u32, number: u32) -> Said
    ensures { Says (accepted answer number) result }
{
    accepted_with(answer, number, 0)
}

fn refused(refusal: Refusal) -> Said
    ensures { Says (refused (refusal_number refusal)) result }
{
    Said {
        refusal: refusal.number(),
        answer: 0,
        number: 0,
        extra: 0,
    }
}

// What an accepted call answers.
pub trait Answer {
    // The papers' numbers for it.
    ghost numbers: { Self → Said };

    fn said(self) -> Said
        ensures { Says (numbers self) result };
}

// What a call says, accepted or refused.
pub fn said<A: Answer>(answer: Result<A, Refusal>) -> Said
    ensures { Says (answered A.numbers answer) result }
{
    match answer {
        Ok(accepted) => accepted.said(),
        Err(refusal) => refused(refusal),
    }
}

// Start, image, load and release: done.
impl Answer for () {
    ghost numbers = { nothing };

    fn said(self) -> Said {
        accepted(0, 0)
    }
}

// A request: its lock is granted, or waits.
#[derive(Clone, Copy, Debug, PartialEq, Eq)]
pub enum Requested {
    Granted(u32),
    Waiting(u32),
}

impl Answer for Requested {
    ghost numbers = { request_answer };

    fn said(self) -> Said {
        match self {
            Requested::Granted(k) => accepted(1, k),
            Requested::Waiting(k) => accepted(2, k),
        }
    }
}

// A conversion: granted in place, or on the convert queue.
#[derive(Clone, Copy, Debug, PartialEq, Eq)]
pub enum Converted {
    Granted,
    Waiting,
}

impl Answer for Converted {
    ghost numbers = { convert_answer };

    fn said(self) -> Said {
        match self {
            Converted::Granted => accepted(1, 0),
            Converted::Waiting => accepted(2, 0),
        }
    }
}

// A cancel: the conversion was taken back, or the request.
#[derive(Clone, Copy, Debug, PartialEq, Eq)]
pub enum Cancelled {
    Conversion,
    Request,
}

impl Answer for Cancelled {
    ghost numbers = { cancel_answer };

    fn said(self) -> Said {
        match self {
            Cancelled::Conversion => accepted(1, 0),
            Cancelled::Request => accepted(2, 0),
        }
    }
}

// A purge: how many locks it freed, how many of them were blocked, and how many had a completion unread.
#[derive(Clone, Copy, Debug, PartialEq, Eq)]
pub struct Purged {
    pub freed: u32,
    pub blocked: u32,
    pub unread: u32,
}

impl Answer for Purged {
    ghost numbers = { purge_answer };

    fn said(self) -> Said {
        accepted_with(self.freed, self.blocked, self.unread)
    }
}

// A break: the lock that was denied, if there was a deadlock.
impl Answer for Option<u32> {
    ghost numbers = { denial };

    fn said(self) -> Said {
        match self {
            Some(k) => accepted(k, k),
            None => accepted(0, 0),
        }
    }
}

// A client's notice. It has the lock, and with it the mark: 0 for none, or the largest mode that had to wait because of the
// lock. A denied request has no mark; `Marked` is a mark alone.
#[derive(Clone, Copy, Debug, PartialEq, Eq)]
pub enum Notice {
    Granted(u32, u32),
    RequestDenied(u32),
    ConversionDenied(u32, u32),
    Marked(u32, u32),
}

// A poll: the client's first notice, if there was one.
impl Answer for Option<Notice> {
    ghost numbers = { notice };

    fn said(self) -> Said {
        match self {
            Some(Notice::Granted(k, mark)) => accepted_with(1, k, mark),
            Some(Notice::RequestDenied(k)) => accepted_with(2, k, 0),
            Some(Notice::ConversionDenied(k, mark)) => accepted_with(3, k, mark),
            Some(Notice::Marked(k, mark)) => accepted_with(0, k, mark),
            None => accepted_with(0, 0, 0),
        }
    }
}

// A list: how many locks stand on the resource.
impl Answer for u32 {
    ghost numbers = { count_answer };

    fn said(self) -> Said {
        accepted(self, 0)
    }
}
