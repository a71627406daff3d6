// A polynomial by its products: bit s says whether the product of the variables in the set with number s is one of its terms.
ghost use Rattle.std.specs.Prelude.{◌≡◌, ℕ, ◌<◌, false, ◌&&◌, Decides, nat_eq};
ghost use Rattle.polynomials.specs.Held.{terms, vectors};
ghost use Rattle.polynomials.specs.Polynomial.{value, one as one_term, variable as alone, sum as summed, product as multiplied};
ghost use Rattle.polynomials.specs.Sets.{◌⊕◌, in_set};

use super::bits::Bits256;
use super::vectors::VectorSet;

#[derive(Clone, Copy, PartialEq, Eq)]
pub struct Residual {
    pub(crate) bits: Bits256,
}

// Sum and product are named, and no operators, so that products and values are not mixed up.
impl Residual {
    // The constant 0: no products.
    #[tactic(auto, using(crate::proofs::FourWords::none_held))]
    pub fn zero() -> Residual
        ensures { (s : ℕ) → terms result s ≡ false }
    {
        Residual {
            bits: Bits256::NONE,
        }
    }

    // The constant 1: the product of no variables.
    #[tactic(auto, using(crate::proofs::Results::one_is))]
    pub fn one() -> Residual
        ensures { (s : ℕ) → terms result s ≡ one_term s }
    {
        Residual::zero().flip(0)
    }

    // Variable i, counted from 1. There are eight: any other number gives the constant 0.
    #[tactic(auto, using(crate::proofs::Valued::variable_is, crate::proofs::Valued::variable_none, crate::proofs::Results::values_of_variable))]
    pub fn variable(i: u8) -> Residual
        ensures products { (s : ℕ) → s < 256 → terms result s ≡ alone i s }
        ensures values { (v : ℕ) → v < 256 → value (terms result) v ≡ in_set i v }
    {
        match i {
            1..=8 => Residual::zero().flip(1 << (i - 1)),
            _ => Residual::zero(),
        }
    }

    // Whether the product with number s is a term.
    pub fn bit(self, s: u8) -> bool
        ensures { result ≡ terms self s }
    {
        self.bits.has(s)
    }

    // The polynomial and the product with number s, added: twice the same product is none.
    pub fn flip(self, s: u8) -> Residual
        ensures { (t : ℕ) → terms result t ≡ (terms self t ⊕ nat_eq s t) }
    {
        Residual {
            bits: self.bits ^ Bits256::single(s),
        }
    }

    // The sum: the products that one of the two has and the other has not.
    #[tactic(auto, using(crate::proofs::Results::values_of_sum), unfolding(crate::specs::Polynomial::sum))]
    pub fn sum(self, other: Residual) -> Residual
        ensures products { (s : ℕ) → terms result s ≡ summed (terms self) (terms other) s }
        ensures values { (v : ℕ) → value (terms result) v ≡ (value (terms self) v ⊕ value (terms other) v) }
    {
        Residual {
            bits: self.bits ^ other.bits,
        }
    }

    // The product: both truth tables, joined by `and`.
    #[tactic(auto, using(crate::proofs::Results::terms_of_product, crate::proofs::Results::values_of_product))]
    pub fn product(self, other: Residual) -> Residual
        ensures products { (s : ℕ) → s < 256 → terms result s ≡ multiplied (terms self) (terms other) s }
        ensures values { (v : ℕ) → value (terms result) v ≡ (value (terms self) v && value (terms other) v) }
    {
        self.to_values()
            .intersection(other.to_values())
            .to_products()
    }

    // Whether the two are equal, which is whether they have the same value at each assignment.
    pub fn same(self, other: Residual) -> bool
        ensures equal { Decides result (self ≡ other) }
        ensures values { Decides result ((v : ℕ) → v < 256 → value (terms self) v ≡ value (terms other) v) }
    {
        self == other
    }

    // The truth table: the assignments at which the value is 1.
    pub fn to_values(self) -> VectorSet
        ensures { (v : ℕ) → v < 256 → vectors result v ≡ value (terms self) v }
    {
        VectorSet {
            bits: self.bits.transformed(),
        }
    }

    // The value at the assignment under which the variables in the set with number v are 1.
    pub fn value_at(self, v: u8) -> bool
        ensures { result ≡ value (terms self) v }
    {
        self.to_values().has(v)
    }
}
