// Document 01's marked cases and the workshop's checklist, computed from the definitions that the contracts of `plan` and `tick` cite.
// The crate has no code. Its tables stand in specs/.
#![tactic(auto)]
