// Models and their plain operations: add, subtract, multiply, integrate, evaluate.
#![tactic(auto)]

pub mod add;
pub mod area;
pub mod evaluate;
pub mod integrate;
pub mod load;
pub mod measure;
pub mod multiply;
pub mod products;
pub mod round;
pub mod types;
