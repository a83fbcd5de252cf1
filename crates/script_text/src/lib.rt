// What a script prints and the store that it leaves, as definitions (specs/Run.antt), and how much it can print
// (proofs/Bound.antt). The code is in crates/script_runner.
#![tactic(auto)]
