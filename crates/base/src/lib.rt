// No code: the tests and choices that the definitions of every crate are written with stand in specs/.
#![tactic(auto)]
