//! A sink that only counts.
ghost use Rattle.std.specs.Prelude.{◌≡◌, None, Ok, ◌+◌, length, min};

use crate::sink::{Failed, Sink};
use std::marker::Model;

/// A sink that never fails, takes every piece whole, and keeps only the number of bytes.
#[derive(Drop)]
pub struct CountSink {
    count: u64,
}

impl Model for CountSink {
    ghost use Rattle.std.specs.Prelude.{ℕ};

    ghost Value = { ℕ };

    ghost view = { λ s. s.count };
}

impl CountSink {
    /// A sink that has taken no byte.
    pub fn new() -> CountSink
        ensures { result ≡ 0 }
    {
        CountSink { count: 0 }
    }

    /// The number of bytes taken. It stays at `u64::MAX` where it would pass it.
    pub fn count(&self) -> u64
        ensures { result ≡ self.now }
    {
        self.count
    }
}

impl Sink for CountSink {
    ghost taken = { λ _. None };

    ghost faults = { λ _. 0 };

    fn write(&mut self, bytes: &[u8]) -> Result<usize, Failed>
        ensures whole { result ≡ Ok (length bytes.now) }
        ensures counted { self.new ≡ min (self.old + length bytes.now) 18446744073709551615 }
    {
        self.count = self.count.saturating_add(bytes.len() as u64);
        Ok(bytes.len())
    }
}
