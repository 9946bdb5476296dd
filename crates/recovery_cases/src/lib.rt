// Document 02's W7 at document 01's trailer, computed from the definitions that the contracts of `recover`, `plan` and `plan_shift` cite.
// The crate has no code. Its cases stand in specs/.
#![tactic(auto)]
