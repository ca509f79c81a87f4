//! What is done again out of memory.
use std::alloc::AllocError as NoMemory;
use std::io;

/// Why an order isn't played to its end.
#[derive(Clone, Copy)]
pub enum OrderStop {
    /// Memory ran out three times, one after another.
    NoMemory,
    /// The trace isn't a few lines of one subscriber, or its moments fall.
    Trace,
    /// Nothing can be written.
    Output,
}

impl From<NoMemory> for OrderStop {
    fn from(_: NoMemory) -> OrderStop {
        OrderStop::NoMemory
    }
}

impl From<io::Error> for OrderStop {
    fn from(_: io::Error) -> OrderStop {
        OrderStop::Output
    }
}

/// Work that changes nothing where it fails, and is done again then, at most twice more.
pub fn again<T, E: Drop, F: Fn() -> Result<T, E>>(work: F) -> Result<T, E>
    requires { F.IsAlwaysCallable work }
{
    for _ in 0..2 {
        match work() {
            Ok(made) => return Ok(made),
            Err(_) => {}
        }
    }
    work()
}
