//! Two stable matchings, given behind `end`.

ghost use Rattle.std.specs.Prelude.{◌≡◌, ◌+◌, ◌<◌, ◌^◌, length, drop, IfOk, IfErr, OnOk};
ghost use Rattle.sm_text.specs.Lines.{lines, texts_from};
ghost use Rattle.sm_instance.specs.Stable.{IsStable};
ghost use Rattle.sm_instance.specs.declared.inputs.Input.TheVariants.{Two};
ghost use Rattle.sm_holding.specs.Holding.{IsHolding};
ghost use Rattle.sm_answer_given.specs.Given.{AreStableGiven};
ghost use Rattle.sm_answer_given.specs.Refusing.{IsGivenFault, IsBlocking};

use crate::faults::{Flaw, GivenFault, Unstable, Which};
use crate::holding::hold;
use crate::reading::read_pairs;
use sm_holding::Holding;
use sm_instance::{Assignment, Input, Instance};
use std::alloc::Global;

/// Two stable matchings of an instance.
#[derive(Drop)]
pub struct Given {
    /// The one of the `left` lines.
    pub left: Assignment,
    /// The one of the `right` lines.
    pub right: Assignment,
}

/// Reads two stable matchings from the lines that stand from a place of a text to its end, of which the first has this number.
///
/// They are `left` lines, then `right` lines, each with a pair, then `end`. Takes time linear in the text and in the agents and
/// entries, and a look-up for each name, and memory in proportion to the agents and the lines.
///
/// # Errors
///
/// `BadAnswer` exactly where the lines aren't those of two matchings: with the first line that can't stand where it stands, or
/// the one behind the last where `end` is missing. `NotStable` exactly where they are, and one of them isn't stable: a pair that
/// can't be held beside those before it comes first, then one that blocks the left matching, then one that blocks the right one.
/// `OutOfMemory` where memory ran out, and only then.
pub fn find_given(
    alloc: Global,
    input: &Input,
    instance: &Instance,
    bytes: &[u8],
    from: usize,
    first_line: u32,
) -> Result<Given, GivenFault>
    requires input { input.now ≡ Two instance.now }
    requires few { first_line + length (lines (drop from bytes.now)) < 2 ^ 32 }
    ensures given { IfOk result (λ given. AreStableGiven instance.now (texts_from bytes.now from) given) }
    ensures fault { IfErr result (λ f. IsGivenFault instance.now (texts_from bytes.now from)
        first_line f) }
{
    let _count = instance.proposer_count();
    let pairs = read_pairs(alloc, input, bytes, from, first_line)?;
    let right_line = first_line + pairs.left.len() as u32;
    let end_line = right_line + pairs.right.len() as u32;
    let left = hold(alloc, instance, &pairs.left, Which::Left, first_line)?;
    let right = hold(alloc, instance, &pairs.right, Which::Right, right_line)?;
    check_stable(alloc, instance, &left, Which::Left, end_line)?;
    check_stable(alloc, instance, &right, Which::Right, end_line)?;
    Ok(Given {
        left: left.matching,
        right: right.matching,
    })
}

/// Refuses a matching that a pair blocks, at this line.
fn check_stable(
    alloc: Global,
    instance: &Instance,
    holding: &Holding,
    which: Which,
    line: u32,
) -> Result<(), GivenFault>
    requires { IsHolding instance.now holding.now }
    ensures stable { OnOk result (IsStable instance.now holding.now.matching.places.items) }
    ensures blocked { IfErr result (λ f. IsBlocking instance.now
        holding.now.matching.places.items which line f) }
{
    match holding.first_blocking(alloc, instance)? {
        Some((proposer, reviewer)) => Err(GivenFault::NotStable(Unstable {
            line,
            which,
            flaw: Flaw::Blocks,
            proposer,
            reviewer,
        })),
        None => Ok(()),
    }
}
