// The least radius of the tighter root test, from its numbers M, m and b.
#![tactic(auto)]

pub mod least_radius;
