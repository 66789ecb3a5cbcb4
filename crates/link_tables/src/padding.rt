//! A value that shares its line of the cache with no other value of a row.
use std::marker::Model;

/// A value with 64 unused bytes behind it. Contracts see the value.
#[derive(Drop)]
pub struct Padded<Q> {
    value: Q,
    unused: [u64; 8],
}

impl<Q> Model for Padded<Q> {
    ghost Value = { Q };

    ghost view = { λ p. p.value };
}

impl<Q> Padded<Q> {
    ghost use Rattle.std.specs.Prelude.{◌≡◌};

    pub fn new(value: Q) -> Padded<Q>
        ensures { result ≡ value }
    {
        Padded {
            value,
            unused: [0; 8],
        }
    }

    pub fn into_inner(self) -> Q
        ensures { result ≡ self }
    {
        let Padded { value, unused: _ } = self;
        value
    }
}
