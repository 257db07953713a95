//! Arithmetic modulo a prime: words, their sums, products and inverses.
#![tactic(auto)]

ghost use Rattle.std.specs.Prelude.{◌≡◌, ℕ, ◌+◌, ◌-◌, ◌*◌, ◌%◌, ◌<◌, ◌≤◌, ◌≢◌, ◌↔◌, ◌^◌, IsTrue, pos};
ghost use Rattle.std.specs.Int.{int_rem_euclid};
ghost use Rattle.std.proofs.Common.{lit≤};
ghost use Rattle.field_core.specs.Residue.{IsPrime, inverse};
ghost use Rattle.field_core.specs.FieldLaws.{IsField, IsField-from_IsPrime};
ghost use Rattle.field_core.specs.Primes.{prime_65537, prime_65521};

/// A prime field: the integers modulo the prime `MODULUS`.
///
/// Its words are the numbers from 0 to `MODULUS - 1`, as `u32`. Each call takes words and gives
/// the word that the sum, difference, negative, product or inverse of whole numbers has modulo
/// `MODULUS`. A modulus is from 32 to 65,537, so that the sum of two words fits `u32` and their
/// product `u64`. An implementation gives the modulus, and proves that it is prime and that the
/// words are a field.
pub trait Field: Copy {
    /// The prime.
    const MODULUS: u32;

    ghost MODULUS: { ℕ };

    /// The sum of two words.
    fn add(a: u32, b: u32) -> u32
        requires left { a < MODULUS }
        requires right { b < MODULUS }
        ensures { result ≡ (a + b) % MODULUS }
    {
        (a + b) % Self::MODULUS
    }

    /// The difference `a - b` of two words.
    fn sub(a: u32, b: u32) -> u32
        requires left { a < MODULUS }
        requires right { b < MODULUS }
        ensures { result ≡ (a + (MODULUS - b)) % MODULUS }
    {
        (a + (Self::MODULUS - b)) % Self::MODULUS
    }

    /// The negative of a word: the word that gives 0 when it is added.
    fn neg(a: u32) -> u32
        requires { a < MODULUS }
        ensures { result ≡ (MODULUS - a) % MODULUS }
    {
        (Self::MODULUS - a) % Self::MODULUS
    }

    /// The product of two words.
    fn mul(a: u32, b: u32) -> u32
        requires left { a < MODULUS }
        requires right { b < MODULUS }
        ensures { result ≡ (a * b) % MODULUS }
    {
        (u64::from(a) * u64::from(b) % u64::from(Self::MODULUS)) as u32
    }

    /// The inverse of a word that is not 0: the one word whose product with `a` is 1.
    fn inv(a: u32) -> u32
        requires word { a < MODULUS }
        requires nonzero { a ≢ 0 }
        ensures below { result < MODULUS }
        ensures product { (a * result) % MODULUS ≡ 1 }
        ensures value { result ≡ inverse MODULUS a }
    {
        // As the remainder of the modulus by `rest` is the modulus less a multiple of `rest`, a
        // product that gave `rest` gives that remainder after one multiplication. No remainder is
        // 0 since the modulus is prime, so the remainders fall to 1.
        let mut rest = a;
        let mut product = 1;
        while rest != 1 {
            product = Self::mul(product, Self::MODULUS - Self::MODULUS / rest);
            rest = Self::MODULUS % rest;
        }
        product
    }

    /// The word that a whole number is modulo `MODULUS`, also of a negative one.
    fn reduce(n: i64) -> u32
        ensures { pos result ≡ int_rem_euclid n (pos MODULUS) }
    {
        n.rem_euclid(i64::from(Self::MODULUS)) as u32
    }

    /// Whether a number is a word.
    fn is_residue(n: u64) -> bool
        ensures { IsTrue result ↔ (n < MODULUS) }
    {
        n < u64::from(Self::MODULUS)
    }

    ghost at_least: { 32 ≤ MODULUS };

    ghost at_most: { MODULUS ≤ 65537 };

    ghost prime: { IsPrime MODULUS };

    ghost is_field: { IsField MODULUS };
}

/// The integers modulo 65,537.
#[derive(Clone, Copy, Debug)]
pub struct F65537;

impl Field for F65537 {
    const MODULUS: u32 = 65537;

    ghost MODULUS = { 65537 };

    ghost at_least = { lit≤ tt };

    ghost at_most = { lit≤ tt };

    ghost prime = { prime_65537 };

    ghost is_field = { IsField-from_IsPrime 65537 prime_65537 };
}

/// The integers modulo 65,521.
#[derive(Clone, Copy, Debug)]
pub struct F65521;

impl Field for F65521 {
    const MODULUS: u32 = 65521;

    ghost MODULUS = { 65521 };

    ghost at_least = { lit≤ tt };

    ghost at_most = { lit≤ tt };

    ghost prime = { prime_65521 };

    ghost is_field = { IsField-from_IsPrime 65521 prime_65521 };
}
