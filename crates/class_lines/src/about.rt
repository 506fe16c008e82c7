//! The lines that are about some prefixes.
ghost use Rattle.std.specs.Prelude.{◌≡◌, ◌++◌, ◌∷◌, [], IfOk, OnOk};
ghost use Rattle.policy_base.specs.Governing.{some_contains};
ghost use Rattle.class_lines.specs.ClassLines.{is_about as is_about_some, lines_about as all_about};

use crate::class_line::{ClassLine, Says};
use net_base::{Pattern, Prefix};
use std::alloc::{AllocError, Global};

// Whether some pattern contains the prefix.
fn is_in_some(patterns: &[Pattern], prefix: Prefix) -> bool
    ensures { result ≡ some_contains patterns.now prefix }
{
    patterns.iter().any(|pattern| pattern.contains(prefix))
}

// Whether what a line says is about prefixes of these patterns.
fn is_about(patterns: &[Pattern], says: Says) -> bool
    ensures { result ≡ is_about_some patterns.now says }
{
    match says {
        Says::Originates(prefix, _) => is_in_some(patterns, prefix),
        Says::Takes(..) | Says::Sends(_) => true,
    }
}

// Puts a line behind the others, if it is about prefixes of these patterns.
fn push_about(
    lines: &mut Vec<ClassLine>,
    patterns: &[Pattern],
    line: ClassLine,
) -> Result<(), AllocError>
    ensures { OnOk result (lines.new.items ≡ lines.old.items ++ all_about patterns.now (line ∷ [])) }
{
    if is_about(patterns, line.says) {
        lines.push(line)?;
    }
    Ok(())
}

/// The lines that are about prefixes of these patterns: all but `originate` lines of other prefixes.
pub fn lines_about(
    alloc: Global,
    patterns: &[Pattern],
    lines: &[ClassLine],
) -> Result<Vec<ClassLine>, AllocError>
    ensures { IfOk result (λ v. v.items ≡ all_about patterns.now lines.now) }
{
    let mut about = Vec::new(alloc);
    for line in lines {
        push_about(&mut about, patterns, *line)?;
    }
    Ok(about)
}
