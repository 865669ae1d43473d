// What a job's commands tell before any model is checked: the degrees of its results, and with them its other edition.
#![tactic(auto)]

mod areas;
mod degrees;
pub mod editions;
mod walk;
