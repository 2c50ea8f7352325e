// Tours of a network, as definitions and laws (specs/). No code.
#![tactic(auto)]
