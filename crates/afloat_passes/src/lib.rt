// This crate has laws and no code: see specs/.
#![tactic(auto)]
