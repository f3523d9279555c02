//! Names that are added and found.

ghost use Rattle.std.specs.Prelude.{[], ◌≡◌, ◌≤◌, ◌<◌, ◌+◌, ◌^◌, length};

use crate::made::MEMORY;
use sm_agents::Names;
use sm_text::TextHash;
use std::process::Abort;

/// A name of 64 bytes, which no key holds in itself.
const LONG: &[u8] = b"a23456789012345678901234567890123456789012345678901234567890123b";

/// The same but for its last byte.
const OTHER: &[u8] = b"a23456789012345678901234567890123456789012345678901234567890123c";

/// Makes sure whether a name is added.
fn adds(rt: &(impl Abort + AllocGlobal), names: &mut Names, name: &[u8], is_new: bool)
    ensures { length names.new ≤ length names.old + 1 }
{
    assert!(rt; names.add(rt.alloc(), name).expect(rt, MEMORY) == is_new);
}

/// Makes sure of the number of a name.
fn finds(rt: &impl Abort, names: &Names, name: &[u8], number: Option<u32>)
    requires { length names.now < 2 ^ 32 }
{
    assert!(rt; names.find(name) == number);
}

#[test]
fn names_are_numbered_in_their_order(rt: HostRuntime) {
    let hash = TextHash::of(b"text");
    let mut names = Names::with_room(rt.alloc(), hash, 1).expect(&rt, MEMORY);
    adds(&rt, &mut names, b"m1", true);
    adds(&rt, &mut names, LONG, true);
    adds(&rt, &mut names, b"sixteen_bytes_16", true);
    adds(&rt, &mut names, LONG, false);
    finds(&rt, &names, b"m1", Some(0));
    finds(&rt, &names, LONG, Some(1));
    finds(&rt, &names, b"sixteen_bytes_16", Some(2));
    finds(&rt, &names, OTHER, None);
    finds(&rt, &names, b"m", None);
}
