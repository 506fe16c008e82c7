//! The real outside: files, standard output and standard error. It tells no content.
ghost use Rattle.std.specs.Prelude.{None, ◌≡◌, ◌≤◌, ◌<◌, ◌+◌, ℕ, List, Option, length, take, vec_len, IfOk, IfSome, OnOk, OnErr, IsErrOf};
ghost use Rattle.std.specs.Io.KnownBytes.{Appends, Keeps, Consumes, IsAtEnd};
ghost use Rattle.input_output.specs.Outside.{Rose};

use crate::counter::raised;
use crate::inputs::{InputFail, Inputs};
use crate::sink::{Failed, Sink};
use std::alloc::Global;
use std::fs;
use std::io::{Read, Write};
use std::rt::Files;

/// The files that names stand for. One counter counts the faults of every name.
#[derive(Drop)]
pub struct FileInputs<R: Files + Drop> {
    rt: R,
    faults: u64,
}

impl<R: Files + Drop> FileInputs<R> {
    /// The files of this runtime. No reading has failed yet.
    pub fn new(rt: R) -> Self
        ensures files { result.rt ≡ rt }
        ensures counts { result.faults ≡ 0 }
    {
        FileInputs { rt, faults: 0 }
    }
}

// How many bytes are asked for at a time.
const PIECE: usize = 8192;

// Reads some bytes more onto those that came before, and says how many: none only at the end.
fn read_more<F: Read>(file: &mut F, bytes: &mut Vec<u8>) -> Result<usize, InputFail>
    ensures bytes { (all : Option (List ℕ)) → OnOk result (Consumes all (F.remaining file.old) bytes.old.items → Consumes all (F.remaining file.new) bytes.new.items) }
    ensures len { IfOk result (λ n. vec_len bytes.new ≡ vec_len bytes.old + n) }
    ensures end { IfOk result (λ n. n ≡ 0 → IsAtEnd (F.remaining file.new)) }
    ensures any_length { ¬ IsErrOf result InputFail.TooLong }
{
    let mut piece = [0u8; PIECE];
    let Ok(n) = file.read(&mut piece) else {
        return Err(InputFail::Failed);
    };
    bytes.extend_from_slice(&piece[..n])?;
    Ok(n)
}

// All the bytes that a file gives up to its end, where there are at most `most`.
fn read_all<F: Read>(alloc: Global, file: &mut F, most: u64) -> Result<Vec<u8>, InputFail>
    ensures bytes { IfOk result (λ v. IfSome (F.remaining file.old) (λ all. v.items ≡ all)) }
    ensures within { IfOk result (λ v. length v.items ≤ most) }
    ensures too_long { IsErrOf result InputFail.TooLong → IfSome (F.remaining file.old) (λ all. most < length all) }
{
    let mut bytes = Vec::new(alloc);
    while read_more(file, &mut bytes)? > 0 {
        if bytes.len() as u64 > most {
            return Err(InputFail::TooLong);
        }
    }
    Ok(bytes)
}

impl<R: Files + Drop> Inputs for FileInputs<R> {
    ghost holds = { λ _ _. None };

    ghost faults = { λ s _. s.faults };

    ghost all_faults = { λ s. s.faults };

    fn read(&mut self, alloc: Global, name: &str, most: u64) -> Result<Vec<u8>, InputFail>
        ensures within { IfOk result (λ v. length v.items ≤ most) }
        ensures failed { IsErrOf result InputFail.Failed → Rose self.old.faults self.new.faults }
        ensures calm { ¬ IsErrOf result InputFail.Failed → self.new.faults ≡ self.old.faults }
        ensures counts { self.old.faults ≤ self.new.faults }
        ensures files { self.new.rt ≡ self.old.rt }
    {
        let result = match fs::open(&self.rt, name) {
            Ok(mut file) => read_all(alloc, &mut file, most),
            Err(_) => Err(InputFail::Failed),
        };
        if matches!(result, Err(InputFail::Failed)) {
            self.faults = raised(self.faults);
        }
        result
    }
}

/// A writer, as standard output or standard error, as a sink.
#[derive(Drop)]
pub struct OutSink<W: Write + Drop> {
    to: W,
    faults: u64,
}

impl<W: Write + Drop> OutSink<W> {
    /// A sink over this writer. No write has failed yet.
    pub fn new(to: W) -> Self
        ensures writer { result.to ≡ to }
        ensures counts { result.faults ≡ 0 }
    {
        OutSink { to, faults: 0 }
    }
}

impl<W: Write + Drop> Sink for OutSink<W> {
    ghost taken = { λ _. None };

    ghost faults = { λ s. s.faults };

    fn write(&mut self, bytes: &[u8]) -> Result<usize, Failed>
        ensures within { IfOk result (λ n. n ≤ length bytes.now) }
        ensures some { IfOk result (λ n. 0 < length bytes.now → 0 < n) }
        ensures failed { OnErr result (Rose self.old.faults self.new.faults) }
        ensures calm { OnOk result (self.new.faults ≡ self.old.faults) }
        ensures counts { self.old.faults ≤ self.new.faults }

        // Besides: what goes to the writer.
        ensures writer { IfOk result (λ n. Appends (W.contents self.old.to) (W.contents self.new.to) (take n bytes.now)) }
        ensures nothing { OnErr result (Keeps (W.contents self.old.to) (W.contents self.new.to)) }
    {
        match self.to.write(bytes) {
            Ok(n) if n > 0 || bytes.is_empty() => Ok(n),
            _ => {
                self.faults = raised(self.faults);
                Err(Failed)
            }
        }
    }
}
