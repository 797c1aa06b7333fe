// Document 01's examples, computed from the definitions (proofs/). It has no code of its own.
#![tactic(auto)]
