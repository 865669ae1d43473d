// Groups of places of the list C of two lists of coefficients.
#![tactic(auto)]

pub mod form;
mod pairs;
