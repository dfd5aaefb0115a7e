// Theorems alone: demand 3's bookkeeping over every list of calls after an accepted boot. specs/Claim.antt has what is claimed,
// specs/Good.antt what a later proof may lean on; proofs/Bookkeeping.antt has the theorems.
#![tactic(auto)]
