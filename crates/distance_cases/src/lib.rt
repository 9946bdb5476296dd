// Document 02's W13 at document 01's trailer: the rows that the contract of `measure` gives, by computation.
// The crate has no code. Its cases stand in specs/.
#![tactic(auto)]
