//! What a value was when its subscriber was split.
ghost use Rattle.std.specs.Prelude.{◌≡◌, true};
ghost use Rattle.control_half.specs.First.{has_first};

use std::marker::Model;
use worker_core::Log;

/// A value as it was when its subscriber was split; only proofs read it, and it takes no memory.
#[derive(Drop)]
pub struct AsSplit<T> {
    log: Log<T, u64>,
    ghost one: { has_first log.items ≡ true },
}

impl<T> Model for AsSplit<T> {
    ghost use Rattle.control_half.specs.First.{first_of};

    ghost Value = { T };

    ghost view = { λ split. first_of split.log.items split.one };
}

impl<T> AsSplit<T> {
    /// The value, as it is now.
    pub fn of(value: &T) -> AsSplit<T>
        ensures { result ≡ value.now }
    {
        let log = Log::new().and(value, &0);
        AsSplit { log }
    }
}
