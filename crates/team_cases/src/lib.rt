// Document 02's W12 at document 01's trailer, computed from the definitions that the contracts of `plan_team` and `tick` cite.
// The crate has no code. Its cases stand in specs/.
#![tactic(auto)]
