//! The fields of a text.

ghost use Rattle.std.specs.Prelude.{◌≡◌, IfOk, MatchOption, Some, None};
ghost use Rattle.sm_report.specs.Meanings.{fields_in, one_of, two_of, three_of, headed_of, items_in};
ghost use Rattle.sm_text.specs.Slices.{texts_of};

use sm_text::is;
use std::alloc::{AllocError, Global};

/// Cuts a text into its fields, between which single spaces stand.
pub(crate) fn fields_in(alloc: Global, text: &[u8]) -> Result<Vec<&[u8]>, AllocError>
    ensures { IfOk result (λ fields. texts_of fields.items ≡ fields_in text.now) }
{
    text.split(|b| *b == b' ').collect(alloc)
}

/// The field, where there is one.
#[tactic(auto, unfolding(crate::specs::Meanings::one_of))]
pub(crate) fn one<'a>(fields: &[&'a [u8]]) -> Option<&'a [u8]>
    ensures { MatchOption result (one_of (texts_of fields.now) ≡ None)
        (λ x. one_of (texts_of fields.now) ≡ Some x.now) }
{
    match fields {
        [field] => Some(*field),
        _ => None,
    }
}

/// The fields, where there are two.
#[tactic(auto, unfolding(crate::specs::Meanings::two_of))]
pub(crate) fn two<'a>(fields: &[&'a [u8]]) -> Option<(&'a [u8], &'a [u8])>
    ensures { MatchOption result (two_of (texts_of fields.now) ≡ None)
        (λ x. two_of (texts_of fields.now) ≡ Some (x.0.now, x.1.now)) }
{
    match fields {
        [first, second] => Some((*first, *second)),
        _ => None,
    }
}

/// The fields, where there are three.
#[tactic(auto, unfolding(crate::specs::Meanings::three_of))]
pub(crate) fn three<'a>(fields: &[&'a [u8]]) -> Option<(&'a [u8], &'a [u8], &'a [u8])>
    ensures { MatchOption result (three_of (texts_of fields.now) ≡ None)
        (λ x. three_of (texts_of fields.now) ≡ Some (x.0.now, x.1.now, x.2.now)) }
{
    match fields {
        [first, second, third] => Some((*first, *second, *third)),
        _ => None,
    }
}

/// The first field and those behind it.
#[tactic(auto, unfolding(crate::specs::Meanings::headed_of))]
pub(crate) fn headed<'a, 'b>(fields: &'b [&'a [u8]]) -> Option<(&'a [u8], &'b [&'a [u8]])>
    ensures { MatchOption result (headed_of (texts_of fields.now) ≡ None)
        (λ x. headed_of (texts_of fields.now) ≡ Some (x.0.now, texts_of x.1.now)) }
{
    match fields {
        [first, more @ ..] => Some((*first, more)),
        [] => None,
    }
}

/// The items of a list, of which there are none where it is written `-`.
#[tactic(auto, unfolding(crate::specs::Meanings::items_in))]
pub(crate) fn items_in<'a, 'b>(fields: &'b [&'a [u8]]) -> Option<&'b [&'a [u8]]>
    ensures { MatchOption result (items_in (texts_of fields.now) ≡ None)
        (λ x. items_in (texts_of fields.now) ≡ Some (texts_of x.now)) }
{
    match fields {
        [] => None,
        [only] if is(only, b"-") => Some(&[]),
        _ => Some(fields),
    }
}
