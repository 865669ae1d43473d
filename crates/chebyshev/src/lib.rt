// Chebyshev polynomials and coefficient lists: definitions and theorems in specs/, no code.
#![tactic(auto)]
