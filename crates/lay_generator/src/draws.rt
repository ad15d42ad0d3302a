//! Draws.

ghost use Rattle.std.specs.Prelude.{◌≡◌, ◌<◌, ◌^◌};
ghost use Rattle.lay_generator.specs.Draws.{draw, next};

use std::marker::Model;

/// A state of the draws, below 2^31.
#[derive(Drop)]
pub(crate) struct Draws {
    state: u32,
}

impl Model for Draws {
    ghost use Rattle.std.specs.Prelude.{ℕ, ◌<◌, ◌^◌};

    ghost Value = { ℕ };

    ghost view = { λ d. d.state };

    ghost invariant = { λ d. d.state < 2 ^ 31 };
}

impl Draws {
    /// The state of a seed.
    pub(crate) fn new(seed: u32) -> Draws
        requires { seed < 2 ^ 31 }
        ensures { result ≡ seed }
    {
        Draws { state: seed }
    }

    /// The next draw, below 2^15.
    pub(crate) fn draw(&mut self) -> u32
        ensures value { result ≡ draw 1 self.old }
        ensures state { self.new ≡ next self.old }
        ensures few { result < 2 ^ 15 }
    {
        let next = (1103515245 * u64::from(self.state) + 12345) % 2147483648;
        self.state = next as u32;
        self.state / 65536
    }
}
