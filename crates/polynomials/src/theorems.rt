// What holds of all polynomials, as the contracts of small functions.
ghost use Rattle.std.specs.Prelude.{◌≡◌};
ghost use Rattle.polynomials.specs.Laws.{ValueOne, ValueVariable, ValueSum, ValueProduct, ValueSubstitute, ValueValue, Unique};

use super::residual::Residual;
use super::vectors::VectorSet;

// The values of each way to make a polynomial, and that its values are no other polynomial's.
#[tactic(auto, using(crate::proofs::Valued::all_laws))]
pub fn laws()
    ensures { ValueOne × ValueVariable × ValueSum × ValueProduct × ValueSubstitute × ValueValue × Unique }
{}

// The products of the values are the products.
#[tactic(auto, using(crate::proofs::Results::equal_by_values))]
pub fn back_to_products(r: Residual) -> Residual
    ensures { result ≡ r }
{
    r.to_values().to_products()
}

// The values of the products are the values.
#[tactic(auto, using(crate::proofs::Results::equal_sets))]
pub fn back_to_values(t: VectorSet) -> VectorSet
    ensures { result ≡ t }
{
    t.to_products().to_values()
}
