// Theorems alone: on common ground the store does what frame.rs and tracker.rs do. specs/Likeness.antt has what a store must meet for that,
// proofs/Likeness.antt the theorem for one call and for a list of calls, and proofs/Needed.antt that no less would do.
#![tactic(auto)]
