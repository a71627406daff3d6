// 256 bits in four words: bit s is bit s % 64 of word s / 64. What a residual and a set of vectors have in common.
ghost use Rattle.std.specs.Prelude.{◌≡◌, ℕ, ◌<◌, not, ◌&&◌, ◌||◌, if◌then◌else◌, nat_eq};
ghost use Rattle.polynomials.specs.Held.{word_of, holds, EachWord};
ghost use Rattle.polynomials.specs.Sets.{◌⊕◌};

use std::ops::{BitAnd, BitOr, BitXor, Not};

// Four fields and no array, so that each word stays in a register.
#[derive(Clone, Copy, PartialEq, Eq)]
pub struct Bits256 {
    pub a: u64,
    pub b: u64,
    pub c: u64,
    pub d: u64,
}

impl Bits256 {
    pub const NONE: Bits256 = Bits256 {
        a: 0,
        b: 0,
        c: 0,
        d: 0,
    };

    pub const ALL: Bits256 = Bits256 {
        a: u64::MAX,
        b: u64::MAX,
        c: u64::MAX,
        d: u64::MAX,
    };

    // Word q.
    fn word(self, q: u8) -> u64
        requires { q < 4 }
        ensures { result ≡ word_of self q }
    {
        match q {
            0 => self.a,
            1 => self.b,
            2 => self.c,
            _ => self.d,
        }
    }

    // Word q is x, and the others are 0.
    fn one_word(q: u8, x: u64) -> Bits256
        requires { q < 4 }
        ensures { (j : ℕ) → word_of result j ≡ (if nat_eq q j then x else 0) }
    {
        match q {
            0 => Bits256 {
                a: x,
                ..Bits256::NONE
            },
            1 => Bits256 {
                b: x,
                ..Bits256::NONE
            },
            2 => Bits256 {
                c: x,
                ..Bits256::NONE
            },
            _ => Bits256 {
                d: x,
                ..Bits256::NONE
            },
        }
    }

    // Bit s alone.
    #[tactic(auto, using(crate::proofs::FourWords::single_held))]
    pub(crate) fn single(s: u8) -> Bits256
        ensures { (t : ℕ) → holds result t ≡ nat_eq s t }
    {
        Bits256::one_word(s / 64, 1 << (s % 64))
    }

    // Whether bit s is set.
    #[tactic(auto, using(crate::proofs::FourWords::has_held))]
    pub(crate) fn has(self, s: u8) -> bool
        ensures { result ≡ holds self s }
    {
        (self.word(s / 64) >> (s % 64)) & 1 == 1
    }

    // Word by word: what f gives of each pair.
    fn zip_with<F: Fn(u64, u64) -> u64>(self, other: Bits256, f: F) -> Bits256
        requires { F.IsAlwaysCallable f }
        ensures { EachWord (F.post f) self other result }
    {
        Bits256 {
            a: f(self.a, other.a),
            b: f(self.b, other.b),
            c: f(self.c, other.c),
            d: f(self.d, other.d),
        }
    }
}

impl BitAnd for Bits256 {
    type Output = Bits256;

    ghost bitand_gives = { λ x y z. (s : ℕ) → holds z s ≡ (holds x s && holds y s) };

    #[tactic(auto, using(crate::proofs::FourWords::words_and))]
    fn bitand(self, other: Bits256) -> Bits256 {
        self.zip_with(other, |x, y| x & y)
    }
}

impl BitOr for Bits256 {
    type Output = Bits256;

    ghost bitor_gives = { λ x y z. (s : ℕ) → holds z s ≡ (holds x s || holds y s) };

    #[tactic(auto, using(crate::proofs::FourWords::words_or))]
    fn bitor(self, other: Bits256) -> Bits256 {
        self.zip_with(other, |x, y| x | y)
    }
}

impl BitXor for Bits256 {
    type Output = Bits256;

    ghost bitxor_gives = { λ x y z. (s : ℕ) → holds z s ≡ (holds x s ⊕ holds y s) };

    #[tactic(auto, using(crate::proofs::FourWords::words_xor))]
    fn bitxor(self, other: Bits256) -> Bits256 {
        self.zip_with(other, |x, y| x ^ y)
    }
}

impl Not for Bits256 {
    type Output = Bits256;

    ghost not_gives = { λ x z. (s : ℕ) → s < 256 → holds z s ≡ not (holds x s) };

    #[tactic(auto, using(crate::proofs::FourWords::all_held))]
    fn not(self) -> Bits256 {
        Bits256::ALL ^ self
    }
}
