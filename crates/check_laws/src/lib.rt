#![tactic(auto)]
// What the soundness check computes, pass by pass (specs/), and the proof that this is what makes tables sound (proofs/).
// The code is in the other crates of the check, `check_resources` to `check_tables`, so that an edit of it does not prove
// the laws again.

// The words of a resource before its counts.
#[derive(Clone, Copy)]
pub struct ResourceRow {
    pub next: u32,
    pub grant: u32,
    pub convert: u32,
    pub wait: u32,
    pub bytes: u32,
    pub valid: u32,
}

// What a walk along holders finds: how many, the set of their modes, how many of them belong on the notice chain, and
// their modes added up, a digit of 12 bits for each mode from CR on.
#[derive(Clone, Copy)]
pub struct HolderCount {
    pub met: u32,
    pub modes: u32,
    pub noticed: u32,
    pub digits: u64,
}
