// A set of vectors, which are values of the eight variables: bit v says whether the vector with number v is in it. A truth
// table is the set of the vectors at which the value is 1.
ghost use Rattle.std.specs.Prelude.{◌≡◌, ℕ, ◌<◌, true, false, not, ◌&&◌, ◌||◌, Decides, ◌==◌};
ghost use Rattle.polynomials.specs.Held.{terms, vectors};
ghost use Rattle.polynomials.specs.Polynomial.{Polynomial, value};
ghost use Rattle.polynomials.specs.Sets.{◌⊕◌};

use super::bits::Bits256;
use super::residual::Residual;

#[derive(Clone, Copy, PartialEq, Eq)]
pub struct VectorSet {
    pub(crate) bits: Bits256,
}

// The operations are named as those of the library's sets.
impl VectorSet {
    #[tactic(auto, using(crate::proofs::FourWords::none_held))]
    pub fn empty() -> VectorSet
        ensures { (v : ℕ) → vectors result v ≡ false }
    {
        VectorSet {
            bits: Bits256::NONE,
        }
    }

    // The set of all 256 vectors.
    #[tactic(auto, using(crate::proofs::FourWords::all_held))]
    pub fn full() -> VectorSet
        ensures { (v : ℕ) → v < 256 → vectors result v ≡ true }
    {
        VectorSet { bits: Bits256::ALL }
    }

    // Whether it has no vector.
    fn is_empty(self) -> bool
        ensures { Decides result ((v : ℕ) → vectors self v ≡ false) }
    {
        self.bits == Bits256::NONE
    }

    pub fn has(self, v: u8) -> bool
        ensures { result ≡ vectors self v }
    {
        self.bits.has(v)
    }

    pub fn add(&mut self, v: u8)
        ensures { (w : ℕ) → vectors self.new w ≡ (vectors self.old w || v == w) }
    {
        self.bits = self.bits | Bits256::single(v);
    }

    pub fn complement(self) -> VectorSet
        ensures { (v : ℕ) → v < 256 → vectors result v ≡ not (vectors self v) }
    {
        VectorSet { bits: !self.bits }
    }

    pub fn union(self, other: VectorSet) -> VectorSet
        ensures { (v : ℕ) → vectors result v ≡ (vectors self v || vectors other v) }
    {
        VectorSet {
            bits: self.bits | other.bits,
        }
    }

    pub fn intersection(self, other: VectorSet) -> VectorSet
        ensures { (v : ℕ) → vectors result v ≡ (vectors self v && vectors other v) }
    {
        VectorSet {
            bits: self.bits & other.bits,
        }
    }

    // The vectors that are in one of the two and not in the other.
    pub fn symmetric_difference(self, other: VectorSet) -> VectorSet
        ensures { (v : ℕ) → vectors result v ≡ (vectors self v ⊕ vectors other v) }
    {
        VectorSet {
            bits: self.bits ^ other.bits,
        }
    }

    // Whether each vector is in `other` too.
    pub fn within(self, other: VectorSet) -> bool
        ensures { Decides result ((v : ℕ) → vectors self v ≡ true → vectors other v ≡ true) }
    {
        self.intersection(other) == self
    }

    // Whether no vector is in `other` too.
    #[tactic(auto, using(crate::proofs::Results::disjoint_is))]
    pub fn disjoint(self, other: VectorSet) -> bool
        ensures { Decides result ((v : ℕ) → vectors self v ≡ true → vectors other v ≡ false) }
    {
        self.intersection(other).is_empty()
    }

    // The one polynomial whose truth table this is.
    #[tactic(auto, using(crate::proofs::Results::values_back, crate::proofs::Results::only_one))]
    pub fn to_products(self) -> Residual
        ensures values { (v : ℕ) → v < 256 → value (terms result) v ≡ vectors self v }
        ensures only { (P : Polynomial) → ((v : ℕ) → v < 256 → value P v ≡ vectors self v) → (s : ℕ) → s < 256 → terms result s ≡ P s }
    {
        Residual {
            bits: self.bits.transformed(),
        }
    }
}
