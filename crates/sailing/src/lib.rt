// Document 02's C-21 without code: what a simulated sailing is, and what is true of it (specs/). Crate `simulation` computes it.
#![tactic(auto)]
