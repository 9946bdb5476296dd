// Document 02's W14 at document 01's trailer and at the trailer with one fact less, computed from the definitions that the contracts of `migrated` and
// of the calls on a card cite. The crate has no code. Its cases stand in specs/.
#![tactic(auto)]
