//! Draws of the generator.

ghost use Rattle.std.specs.Prelude.{◌≡◌, ◌+◌, ◌<◌, ◌≤◌, pos};
ghost use Rattle.fst_lattice.specs.Cascade.{whole};
ghost use Rattle.fst_lattice.specs.Draws.{drawn, next_state};

use fst_semiring::{Key, Tropical, Weight};

/// The next number below `k`.
pub(crate) fn draw(x: &mut u64, k: u32) -> u32
    requires { 0 < k }
    ensures value { result ≡ drawn x.old 0 k }
    ensures state { x.new ≡ next_state x.old }
    ensures below { result < k }
{
    *x = x
        .wrapping_mul(6364136223846793005)
        .wrapping_add(1442695040888963407);
    ((*x >> 33) % u64::from(k)) as u32
}

/// The weight of a number.
pub(crate) fn weight(number: u32) -> Tropical
    ensures { result ≡ whole number }
{
    let key = Key {
        class: 1,
        first: i128::from(number),
        second: 0,
    };
    match Tropical::from_key(key) {
        Some(weight) => weight,
        None => Tropical::one(),
    }
}
