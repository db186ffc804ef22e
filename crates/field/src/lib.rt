// Arithmetic in the field of p = 2013265921 elements (RULES 1).
// Every operation takes any u32 words, also those that are not below p, and gives a word below p.
#![tactic(auto)]

ghost use Rattle.std.specs.Prelude.{◌≡◌, ◌+◌, ◌*◌, ◌%◌, ◌<◌};
ghost use Rattle.algebra.specs.Congruence.{negative, Inverse};
ghost use Rattle.field.specs.Field.{p, InverseOrZero};

pub mod table;

pub const P: u32 = 2013265921;

// A difference is a sum with this multiple.
pub const MINUS_ONE: u32 = P - 1;

// The one operation that the others are written with. The sum is made in 64 bits, where it never wraps.
// The rest goes back by `as`: it fits 32 bits, and no From says so.
pub fn add_scaled(d: u32, k: u32, s: u32) -> u32
    ensures { result ≡ (d + k * s) % p }
{
    ((u64::from(d) + u64::from(k) * u64::from(s)) % u64::from(P)) as u32
}

pub fn plus(a: u32, b: u32) -> u32
    ensures { result ≡ (a + b) % p }
{
    add_scaled(a, 1, b)
}

pub fn minus(a: u32, b: u32) -> u32
    ensures { result ≡ (a + negative p b) % p }
{
    add_scaled(a, MINUS_ONE, b)
}

pub fn times(a: u32, b: u32) -> u32
    ensures { result ≡ (a * b) % p }
{
    add_scaled(0, a, b)
}

// The inverse of a, or 0 where a is a multiple of p: a word and no Option, as `InverseOrZero` and the edit `inverse_of_zero` hold it.
pub fn inverse(a: u32) -> u32
    ensures { InverseOrZero p a result }
{
    let word = a % P;
    if word == 0 {
        return 0;
    }
    word_inverse(word)
}

// a times factor leaves rest modulo p, all along. With p = q rest + r, p − q times the factor leaves r.
// The remainders fall to 1 in at most 46 turns, 18 on average: counted over every word, not proved.
// A `while`, since it counts nothing: the rest shrinks.
fn word_inverse(a: u32) -> u32
    requires { (0 < a) × (a < p) }
    ensures { Inverse p a result }
{
    let mut rest = a;
    let mut factor = 1;
    while 1 < rest {
        factor = times(factor, P - P / rest);
        rest = P % rest;
    }
    factor
}
