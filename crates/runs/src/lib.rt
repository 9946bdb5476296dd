// Runs of ticks (document 01, "Work on a vehicle"): what a run takes of a tick on the bytes of a table and of a tree.
// The crate has no code. Its definitions stand in specs/.
#![tactic(auto)]
