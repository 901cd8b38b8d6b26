//! The numbers of resources and of pairs of slot files.

ghost use Rattle.std.specs.Prelude.{◌≡◌, ◌<◌};

use std::marker::Model;

/// The number of a resource in a list of names, below 256. Contracts see the number.
#[derive(Clone, Copy, Debug, PartialEq, Eq)]
pub struct ResNo(u32);

impl Model for ResNo {
    ghost use Rattle.std.specs.Prelude.{ℕ, ◌<◌};

    ghost Value = { ℕ };

    ghost view = { λ r. r.0 };

    ghost invariant = { λ r. r.0 < 256 };

    ghost inverse = { λ n. record { 0 = n } };
}

impl ResNo {
    pub fn new(number: u32) -> ResNo
        requires { number < 256 }
        ensures { result ≡ number }
    {
        ResNo(number)
    }

    pub fn number(self) -> u32
        ensures value { result ≡ self }
        ensures known { result < 256 }
    {
        self.0
    }
}

/// The number of a pair of slot files, below 64. Contracts see the number.
#[derive(Clone, Copy, Debug, PartialEq, Eq)]
pub struct PairNo(u32);

impl Model for PairNo {
    ghost use Rattle.std.specs.Prelude.{ℕ, ◌<◌};

    ghost Value = { ℕ };

    ghost view = { λ p. p.0 };

    ghost invariant = { λ p. p.0 < 64 };

    ghost inverse = { λ n. record { 0 = n } };
}

impl PairNo {
    pub fn new(number: u32) -> PairNo
        requires { number < 64 }
        ensures { result ≡ number }
    {
        PairNo(number)
    }

    pub fn number(self) -> u32
        ensures value { result ≡ self }
        ensures known { result < 64 }
    {
        self.0
    }
}
