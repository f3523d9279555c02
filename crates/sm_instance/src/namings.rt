//! Who is asked whether it lists a reviewer.

ghost use Rattle.std.specs.Prelude.{◌≡◌, ◌<◌, length};
ghost use Rattle.sm_instance.specs.Namings.{asked, asked_at};
ghost use Rattle.sm_lists.specs.CompactNamings.{naming_at};

use crate::instance::Instance;
use sm_lists::{CompactNaming, first_place};

/// Proposers by rising number, each with the place of a reviewer on its list, which is past the list where the reviewer isn't on
/// it: who lists the reviewer where that is kept, else all.
#[derive(Clone, Copy)]
pub(crate) enum Namings<'a> {
    Kept(&'a [CompactNaming]),
    Sought(&'a Instance, u32),
}

impl<'a> Namings<'a> {
    /// How many they are. Takes constant time.
    pub(crate) fn len(&self) -> usize
        ensures { result ≡ length (asked self.now) }
    {
        match self {
            Namings::Kept(namings) => namings.len(),
            Namings::Sought(instance, _) => instance.proposer_count() as usize,
        }
    }

    /// The one with a number. Takes constant time where it is kept, else time in the length of the proposer's list.
    pub(crate) fn at(&self, e: usize) -> CompactNaming
        requires { e < length (asked self.now) }
        ensures { result ≡ naming_at (asked self.now) e }
    {
        match self {
            Namings::Kept(namings) => kept_at(namings, e),
            Namings::Sought(instance, r) => sought(instance, e, *r),
        }
    }
}

/// The one with a number, of those that are kept.
fn kept_at(namings: &[CompactNaming], e: usize) -> CompactNaming
    requires { e < length namings.now }
    ensures { result ≡ naming_at namings.now e }
{
    namings[e]
}

/// The proposer with a number, with the place of a reviewer on its list. The count is for the proof alone: it shows that the number
/// is small.
fn sought(instance: &Instance, e: usize, r: u32) -> CompactNaming
    requires { e < length instance.now.proposers }
    ensures { result ≡ asked_at instance.now.proposers r e }
{
    let _count = instance.proposer_count();
    let p = e as u32;
    let past = instance.proposer_len(p);
    let place = first_place(instance.proposer_list(p), r).unwrap_or(past);
    CompactNaming {
        by: p as u16,
        place: place as u16,
    }
}
