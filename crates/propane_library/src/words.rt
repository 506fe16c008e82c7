//! The words with which both texts are compiled.
ghost use Rattle.std.specs.Prelude.{◌≡◌, IfOk, map, string_bytes};
ghost use Rattle.propane_library.specs.Texts.{compile_words};

use input_output::NoMemory;
use std::alloc::Global;

/// The name under which the topology's text is held.
pub const TOPOLOGY: &str = "topology";

/// The name under which the policy's text is held.
pub const POLICY: &str = "policy";

/// The words `compile topology policy`.
pub fn words_for(alloc: Global) -> Result<Vec<String>, NoMemory>
    ensures { IfOk result (λ words. map string_bytes words.items ≡ compile_words) }
{
    let compile = String::from_str(alloc, "compile")?;
    let topology = String::from_str(alloc, TOPOLOGY)?;
    let policy = String::from_str(alloc, POLICY)?;
    Ok(vec![in alloc; compile, topology, policy]?)
}
