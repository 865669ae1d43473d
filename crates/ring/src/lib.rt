// Rings, whole numbers and pairs of them, and the solver of equations in a ring: definitions and theorems, no code.
#![tactic(auto)]
