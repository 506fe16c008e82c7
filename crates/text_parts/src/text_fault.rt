//! The faults of texts: how each kind of them is told.
ghost use Rattle.std.specs.Prelude.{◌≡◌, ◌≢◌, ◌++◌, IsFalse, IsTrue, OnOk};
ghost use Rattle.text_parts.specs.Telling.{Telling};

use input_output::NoMemory;

/// What may be wrong with a kind of text: a rule that the text breaks, or want of memory.
pub trait TextFault {
    /// How each fault is told, and which one is want of memory.
    ghost telling: { Telling Self };

    /// The number of the fault, from 1 on: of several broken rules the one with the least number is told. Want of memory has the
    /// number 0.
    fn number(&self) -> u8
        ensures { result ≡ telling.number_of self.now };

    /// The word of the fault.
    fn word(&self) -> &'static [u8]
        ensures { result.now ≡ telling.word_of self.now };

    /// Adds the values of the fault, each after a space.
    fn push_values(&self, text: &mut Vec<u8>) -> Result<(), NoMemory>
        ensures { OnOk result (text.new.items ≡ text.old.items ++ telling.values_of self.now) };

    /// Whether it is want of memory.
    fn is_no_memory(&self) -> bool
        ensures yes { IsTrue result → self.now ≡ telling.no_memory }
        ensures no { IsFalse result → self.now ≢ telling.no_memory };
}
