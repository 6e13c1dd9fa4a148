//! The homes of cells.
ghost use Rattle.std.specs.Prelude.{◌≡◌};

use std::marker::Model;

/// The first address of each cell, in order. They are made from a `Vec` and give it back.
#[derive(Debug, Drop)]
pub struct Homes {
    addresses: Vec<u32>,
}

impl Model for Homes {
    ghost use Rattle.std.specs.Prelude.{ℕ, List};

    ghost Value = { List ℕ };

    ghost view = { λ homes. homes.addresses.items };
}

impl Homes {
    /// The addresses of a `Vec`.
    pub fn new(addresses: Vec<u32>) -> Homes
        ensures { result ≡ addresses.items }
    {
        Homes { addresses }
    }

    /// The addresses, in order.
    pub fn as_slice(&self) -> &[u32]
        ensures { result.now ≡ self.now }
    {
        self.addresses.as_slice()
    }

    /// The `Vec` of the addresses.
    pub fn into_vec(self) -> Vec<u32>
        ensures { result.items ≡ self }
    {
        self.addresses
    }
}
