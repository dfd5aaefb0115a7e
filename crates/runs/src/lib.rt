// Theorems alone: a list of calls over the words that a kernel lends. specs/Runs.antt has the statements, proofs/ shows that the words
// hold, after each call, the world that the run on worlds leaves, so that demands 2 and 3, which theorems/ proves of that run, hold of what
// a kernel keeps.
#![tactic(auto)]
