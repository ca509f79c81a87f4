//! Numbers drawn from a state.
ghost use Rattle.std.specs.Prelude.{◌≡◌, ◌<◌};
ghost use Rattle.trace_maker.specs.Draws.{drawn, moved};

use std::marker::Model;

/// A generator of numbers, which a contract sees as its state. A seed is its first state.
#[derive(Clone, Copy)]
pub struct Draws {
    state: u64,
}

impl Model for Draws {
    ghost use Rattle.std.specs.Prelude.{ℕ, ◌<◌};

    ghost Value = { ℕ };

    ghost view = { λ draws. draws.state };

    ghost inverse = { λ state. record { state = state } };
}

impl Draws {
    /// The generator at this state.
    pub fn new(state: u64) -> Draws
        ensures { result ≡ state }
    {
        Draws { state }
    }

    /// Draws a number below `end`.
    pub fn draw(&mut self, end: u32) -> u32
        requires { 0 < end }

        ensures number { result ≡ drawn end self.old }
        ensures below { result < end }
        ensures moved { self.new ≡ moved self.old }
    {
        self.state = self
            .state
            .wrapping_mul(6_364_136_223_846_793_005)
            .wrapping_add(1_442_695_040_888_963_407);
        ((self.state >> 33) % u64::from(end)) as u32
    }
}
