#![tactic(auto)]
// The rules of the lock manager: definitions in specs/, laws in proofs/. The code here is the record that definitions and
// code share.

// What a call says: a refusal, or 0 where it is accepted; its answer; a lock's number, or purge's second count; and one
// number more, which is poll's mark or purge's third count. What it doesn't say is zero.
#[derive(Clone, Copy)]
pub struct Said {
    pub refusal: u32,
    pub answer: u32,
    pub number: u32,
    pub extra: u32,
}
