// Polynomials over the two-element field in at most eight variables, as exclusive-or sums of products in 256 bits, and sets
// of vectors in the same 256 bits: a polynomial by its products is a `Residual`, by its values a `VectorSet`.
#![tactic(auto)]

mod bits;
mod residual;
mod substitute;
mod theorems;
mod transform;
mod vectors;

pub use residual::Residual;
pub use substitute::step;
pub use theorems::{back_to_products, back_to_values, laws};
pub use vectors::VectorSet;
