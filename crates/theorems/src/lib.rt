// Theorems alone: the demands over worlds, the bytes that the calls are given and leave. specs/Demands.antt has the statements, proofs/
// shows that a run of calls on worlds is the run on the stores that they stand for, so that what holds of stores holds of the bytes.
#![tactic(auto)]
