// This crate has definitions and laws, and no code: see specs/.
#![tactic(auto)]
