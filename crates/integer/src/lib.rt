// Division with an exact rounding, on machine numbers. specs/ holds the algebra of whole numbers and fractions.
#![tactic(auto)]

pub mod rounding;
