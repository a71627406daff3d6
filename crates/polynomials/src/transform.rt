// From products to values: bit v of the result is the exclusive or of the bits at the subsets of v. Its own inverse.
ghost use Rattle.std.specs.Prelude.{◌≡◌, ℕ, ◌*◌, ◌%◌, ◌^◌, ◌<◌, bit_and, bit_xor};
ghost use Rattle.polynomials.specs.Held.{holds};
ghost use Rattle.polynomials.specs.Polynomial.{value_in, value};
ghost use Rattle.polynomials.specs.Sets.{bit_at};

use super::bits::Bits256;

// One stage: each bit is added to the bit `by` places above it, where `mask` has the places to add from.
fn spread(x: u64, mask: u64, by: u32) -> u64
    requires { by < 64 }
    ensures { result ≡ bit_xor x ((bit_and x mask * 2 ^ by) % 2 ^ 64) }
{
    x ^ ((x & mask) << by)
}

// The six lowest variables: a stage for each, whose mask has the places of the sets without it. A fold over a table of masks would
// have as many lines.
fn word_values(x: u64) -> u64
    ensures { (v : ℕ) → v < 64 → bit_at v result ≡ value_in 6 (λ s. bit_at s x) v }
{
    let x1 = spread(x, 0x5555_5555_5555_5555, 1);
    let x2 = spread(x1, 0x3333_3333_3333_3333, 2);
    let x3 = spread(x2, 0x0f0f_0f0f_0f0f_0f0f, 4);
    let x4 = spread(x3, 0x00ff_00ff_00ff_00ff, 8);
    let x5 = spread(x4, 0x0000_ffff_0000_ffff, 16);
    spread(x5, 0x0000_0000_ffff_ffff, 32)
}

impl Bits256 {
    // The two highest variables say which word.
    #[tactic(auto, using(crate::proofs::WordByWord::transformed_is))]
    pub(crate) fn transformed(self) -> Bits256
        ensures { (v : ℕ) → v < 256 → holds result v ≡ value (holds self) v }
    {
        let a = word_values(self.a);
        let b = word_values(self.b);
        let c = word_values(self.c);
        let d = word_values(self.d);
        Bits256 {
            a,
            b: a ^ b,
            c: a ^ c,
            d: (a ^ b) ^ (c ^ d),
        }
    }
}
