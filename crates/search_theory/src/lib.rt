// The search of the notes over any keys and steps, with its theorems: see specs/ and proofs/. No code.
#![tactic(auto)]
