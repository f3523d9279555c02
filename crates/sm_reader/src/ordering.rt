//! The order of the proposers.

ghost use Rattle.std.specs.Prelude.{◌≡◌, is_some, None, IfOk, IfErr};
ghost use Rattle.sm_text.specs.Slices.{texts_of};
ghost use Rattle.sm_keys.specs.Tokens.{AreNamesAtEnd};
ghost use Rattle.sm_reader.specs.Draft.{IsLineFault, order_fault};

use crate::draft::Draft;
use crate::faults::TextFault;
use crate::judging::are_names;
use sm_keys::has_repeated;
use sm_text::RefusalKind;
use std::alloc::Global;

/// Looks for a fault of the order of the proposers that come first; only the last `names` runs are names.
pub(crate) fn check_order(
    alloc: Global,
    draft: &Draft<'_>,
    line: u32,
    proposers: &[&[u8]],
    names: usize,
) -> Result<(), TextFault>
    requires { AreNamesAtEnd names (texts_of proposers.now) }
    ensures faultless { IfOk result (λ _. order_fault (is_some draft.now.order)
        (texts_of proposers.now) ≡ None) }
    ensures fault { IfErr result (λ f. IsLineFault
        (order_fault (is_some draft.now.order) (texts_of proposers.now)) line f) }
{
    if !are_names(proposers, names) {
        return Err(TextFault::Refused(RefusalKind::BadName, line));
    }
    if draft.order.is_some() {
        return Err(TextFault::Refused(RefusalKind::Redeclared, line));
    }
    if has_repeated(alloc, draft.text, proposers)? {
        return Err(TextFault::Refused(RefusalKind::RepeatedEntry, line));
    }
    Ok(())
}
