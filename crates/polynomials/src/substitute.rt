// A polynomial for each variable, put in by truth tables. Eight is written as it is: 256 bits are the sets of eight variables, and no limit to choose.
ghost use Rattle.std.specs.Prelude.{◌≡◌, ℕ, ◌%◌, ◌^◌, ◌<◌, ◌≤◌, ◌&&◌};
ghost use Rattle.polynomials.specs.Held.{terms, vectors, terms_of, vectors_of};
ghost use Rattle.polynomials.specs.Polynomial.{Polynomial, value, value_in, substitute as substituted, step as stepped};
ghost use Rattle.polynomials.specs.Sets.{◌⊕◌, bit_at, set_below};

use super::residual::Residual;
use super::vectors::VectorSet;

// The vector whose bit i says whether v is in the i-th table.
#[tactic(auto, using(crate::proofs::Digits::set_none, crate::proofs::Digits::set_more, crate::proofs::Digits::set_skip))]
pub fn step(tables: &[VectorSet; 8], v: u8) -> u8
    ensures { result ≡ set_below 8 (λ i. vectors_of tables.now i v) }
{
    let mut w = 0;
    for (i, table) in tables.iter().enumerate() {
        if table.has(v) {
            w |= 1 << i;
        }
    }
    w
}

#[tactic(auto, using(crate::proofs::Halves::power_is))]
fn power(n: usize) -> u32
    requires { n < 6 }
    ensures { (result ≡ 2 ^ n) × (result ≤ 32) }
{
    1 << n
}

#[tactic(auto, using(crate::proofs::Halves::low_bits_are))]
fn low_bits(w: u64, k: u32) -> u64
    requires { k < 64 }
    ensures { result ≡ w % 2 ^ k }
{
    w & ((1 << k) - 1)
}

// The truth table of low + x · high, from those of the three.
fn branch(low: VectorSet, x: VectorSet, high: VectorSet) -> VectorSet
    ensures { (v : ℕ) → vectors result v ≡ (vectors low v ⊕ (vectors x v && vectors high v)) }
{
    low.symmetric_difference(x.intersection(high))
}

// The truth table of a polynomial in the n lowest variables, whose products are the bits of w, with the tables put in for its
// variables. By halves on the highest variable; a half with no products is passed over, so few products take little time.
fn in_word(w: u64, tables: &[VectorSet; 8], n: usize) -> VectorSet
    requires { (n ≤ 6) × (w < 2 ^ (2 ^ n)) }
    ensures { (v : ℕ) → v < 256 → vectors result v ≡ value_in n (λ s. bit_at s w) (set_below 8 (λ i. vectors_of tables.now i v)) }
{
    if w == 0 {
        return VectorSet::empty();
    }
    if n == 0 {
        return VectorSet::full();
    }
    let half = power(n - 1);
    let low = in_word(low_bits(w, half), tables, n - 1);
    let high = in_word(w >> half, tables, n - 1);
    branch(low, tables[n - 1], high)
}

// The truth table of each of the eight polynomials.
fn all_values(by: &[Residual; 8]) -> [VectorSet; 8]
    ensures { (i v : ℕ) → i < 8 → v < 256 → vectors_of result i v ≡ value (terms_of by.now i) v }
{
    by.map(|polynomial| polynomial.to_values())
}

impl Residual {
    // This polynomial with that of the i-th truth table in the place of variable i + 1.
    pub fn substitute_values(self, tables: &[VectorSet; 8]) -> Residual
        ensures { (P : ℕ → Polynomial) → ((i v : ℕ) → i < 8 → v < 256 → vectors_of tables.now i v ≡ value (P i) v) → (s : ℕ) → s < 256 → terms result s ≡ substituted (terms self) P s }
    {
        let a = in_word(self.bits.a, tables, 6);
        let b = in_word(self.bits.b, tables, 6);
        let c = in_word(self.bits.c, tables, 6);
        let d = in_word(self.bits.d, tables, 6);
        let low = branch(a, tables[6], b);
        let high = branch(c, tables[6], d);
        branch(low, tables[7], high).to_products()
    }

    // This polynomial with by[i] in the place of variable i + 1.
    #[tactic(auto, using(crate::proofs::Results::values_of_substitute))]
    pub fn substitute(self, by: &[Residual; 8]) -> Residual
        ensures products { (s : ℕ) → s < 256 → terms result s ≡ substituted (terms self) (terms_of by.now) s }
        ensures values { (v : ℕ) → value (terms result) v ≡ value (terms self) (stepped (terms_of by.now) v) }
    {
        let tables = all_values(by);
        self.substitute_values(&tables)
    }
}
