// Theorems for the reader about the round sheet (ticket 8), which no proof of the code rests on: see proofs/. No code.
#![tactic(auto)]
