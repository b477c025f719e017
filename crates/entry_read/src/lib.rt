#![tactic(auto)]
// The entry that reads: the value block of a lock's resource.
ghost use Rattle.std.specs.Prelude.{◌≡◌, Ok};
ghost use Rattle.rules.specs.Entries.{read_entry};
ghost use Rattle.queues.specs.Promises.{SomeTables};
ghost use Rattle.entry_read.specs.Reads.{reading, read_answer, HoldingLock, TellsBoth, value_beside};

use answers::{Answer, Refusal};
use check_tables::sound;
use rules::Said;
use table_fields::{lock_word, resource_word};
use table_names::VALUE_BYTES;

// What a read gives: the value block, and its validity, 1 or 0.
#[derive(Clone, Copy)]
pub struct ValueRead {
    pub value: [u8; VALUE_BYTES],
    pub valid: u32,
}

impl Answer for ValueRead {
    ghost numbers = { read_answer };

    fn said(self) -> Said {
        Said {
            refusal: 0,
            answer: self.valid,
            number: 0,
            extra: 0,
        }
    }
}

// The value of the resource on which the lock k stands.
fn value_of(words: &[u32], slots: &[u8], k: u32) -> ValueRead
    requires { SomeTables (HoldingLock k) words.now slots.now }
    ensures { TellsBoth (HoldingLock k) (value_beside k) words.now slots.now (reading (Ok result)) }
{
    let r = lock_word(words, k, table_fields::LOCK_RESOURCE);
    ValueRead {
        value: table_names::value_at(slots, r),
        valid: resource_word(words, r, table_fields::RESOURCE_VALID),
    }
}

// The value block of a lock's resource.
#[tactic(auto, using(crate::proofs::ReadValue::reads))]
pub fn read(words: &[u32], slots: &[u8], client: u32, lock: u32) -> Result<ValueRead, Refusal>
    ensures { reading result ≡ read_entry words.now slots.now client lock }
{
    if !sound(words, slots) {
        return Err(Refusal::Unsound);
    }
    call_refusals::look_refusal(words, client, lock)?;
    Ok(value_of(words, slots, lock))
}
