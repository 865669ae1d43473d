// A power series: its degree, and the coefficients of x^0 to x^32 in units of 1/S.
use model::types::COEFFICIENTS;

// Kept beside Candidate, which has the same fields: these numbers stand for powers, those for T_0 to T_32.
#[derive(Clone, Copy)]
pub struct Series {
    pub degree: u32,
    pub coefficients: [i32; COEFFICIENTS],
}
