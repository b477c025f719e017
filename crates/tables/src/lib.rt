#![tactic(auto)]
// The two lent tables of the lock manager. The code here is the records that definitions and code share. specs/ says what
// tables are and when they are sound, proofs/ has the laws between a state and its written form.

// A lock's record beside its three links.
#[derive(Clone, Copy)]
pub struct Lock {
    pub resource: u32,
    pub client: u32,
    pub state: u32,
    pub held: u32,
    pub asked: u32,
    pub completion: u32,
    pub mark: u32,
}

// What a listing says of a lock.
#[repr(C)]
#[derive(Clone, Copy)]
pub struct LockEntry {
    pub number: u32,
    pub client: u32,
    pub state: u32,
    pub held: u32,
    pub asked: u32,
}
