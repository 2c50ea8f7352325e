// This crate has theorems and no code: see specs/.
#![tactic(auto)]
