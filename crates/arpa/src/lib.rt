// Ticket 6: what an ARPA text and a word list mean, as definitions (specs/), and the theorems about them (proofs/). No code.
#![tactic(auto)]
