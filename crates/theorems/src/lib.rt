// Theorems for the reader about the definitions, which no proof of the decoder rests on: see proofs/. No code.
#![tactic(auto)]
