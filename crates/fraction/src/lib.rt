// The fractions: definitions and theorems, no code.
#![tactic(auto)]
