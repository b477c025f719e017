#![tactic(auto)]
// What a call says as one number of 64 bits, for callers that know no enums. include/zamgyorud.h says how it is read.
ghost use Rattle.std.specs.Prelude.{◌≡◌, ◌<◌, ◌^◌};
ghost use Rattle.rules.specs.Numbers.{Small};
ghost use Rattle.c_answers.specs.PackedAnswers.{unpacked};

use rules::Said;

// The highest bit of an answer marks a refusal.
const REFUSED: u64 = 1 << 63;

// The lock stands from bit 16 on, one number more from bit 32 on.
const NUMBER: u64 = 1 << 16;

const EXTRA: u64 = 1 << 32;

// Every answer, packed.
pub fn pack(x: Said) -> u64
    requires { Small x }
    ensures { unpacked result ≡ x }
{
    if x.refusal != 0 {
        return REFUSED + u64::from(x.refusal);
    }
    u64::from(x.answer) + u64::from(x.number) * NUMBER + u64::from(x.extra) * EXTRA
}
