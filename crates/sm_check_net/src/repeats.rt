//! Which lines of a flow are on an edge that an earlier line is on.

ghost use Rattle.std.specs.Prelude.{◌≡◌, ℕ, ◌<◌, true, length, map, IfOk};
ghost use Rattle.sm_theory.specs.FlowLines.{line_at};
ghost use Rattle.sm_check_net.specs.Pairs.{has_pair};
ghost use Rattle.sm_check_net.specs.Repeats.{ends_of, AreRepeats};

use crate::pairs::Pairs;
use sm_theory::FlowLine;
use std::alloc::{AllocError, Global};

/// For each line whether an earlier one leads from the same node to the same node.
///
/// Takes time in proportion to the lines and the logarithm of their number, and memory in proportion to them.
///
/// # Errors
///
/// `AllocError` where memory ran out, and only then.
pub fn repeated_lines(alloc: Global, lines: &[FlowLine]) -> Result<Vec<bool>, AllocError>
    ensures { IfOk result (λ repeats. AreRepeats lines.now repeats.items) }
{
    let ends = Pairs::of(all_ends(alloc, lines)?);
    repeats_among(alloc, lines, &ends)
}

/// The same, where the ends of all lines are given.
fn repeats_among(alloc: Global, lines: &[FlowLine], ends: &Pairs) -> Result<Vec<bool>, AllocError>
    requires { (a : ℕ) → a < length lines.now → has_pair ends.now (line_at lines.now a).from
        (line_at lines.now a).to ≡ true }
    ensures { IfOk result (λ repeats. AreRepeats lines.now repeats.items) }
{
    let mut met = vec![in alloc; false; ends.len()]?;
    let mut repeats = Vec::with_capacity(alloc, lines.len())?;
    for line in lines {
        let k = ends.place_of(line.from, line.to);
        repeats.push(met[k])?;
        met[k] = true;
    }
    Ok(repeats)
}

/// The ends of each line.
fn all_ends(alloc: Global, lines: &[FlowLine]) -> Result<Vec<(u32, u32)>, AllocError>
    ensures { IfOk result (λ ends. ends.items ≡ map ends_of lines.now) }
{
    let mut ends = Vec::with_capacity(alloc, lines.len())?;
    for line in lines {
        ends.push((line.from, line.to))?;
    }
    Ok(ends)
}
