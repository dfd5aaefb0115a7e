// Theorems alone: what a world that passes the audit stands for. specs/Stands.antt has the relation, proofs/ the laws: a sound world stands
// for the store that `decode` reads out of it, and whatever a world stands for, `encode` writes that very world.
#![tactic(auto)]
