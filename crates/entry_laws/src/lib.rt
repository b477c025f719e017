#![tactic(auto)]
// No code: what the proofs of all entries share (proofs/EntryOutcomes.antt).
