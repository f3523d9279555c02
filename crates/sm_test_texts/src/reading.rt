//! A text that is read and texts that are refused. What texts mean stands in the witnesses of `sm_reader`.

use crate::instances::are_worth;
use sm_instance::{Input, Instance, Kind};
use sm_reader::{Read, TextFault, read_instance};
use sm_text::RefusalKind;
use std::alloc::Global;
use std::process::Abort;

/// Why a text is refused, and at which line; `None` where it isn't.
fn refusal(alloc: Global, text: &[u8]) -> Option<(RefusalKind, u32)> {
    match read_instance(alloc, text) {
        Err(TextFault::Refused(kind, line)) => Some((kind, line)),
        _ => None,
    }
}

/// Makes sure why and at which line a text is refused.
fn is_refused(rt: &(impl Abort + AllocGlobal), text: &[u8], kind: RefusalKind, line: u32) {
    assert!(rt; refusal(rt.alloc(), text) == Some((kind, line)));
}

#[test]
fn texts_are_refused(rt: HostRuntime) {
    is_refused(&rt, b"\np a:\n", RefusalKind::BadHeader, 2);
    let repeated = b"stable 1 marriage\np a: x x\n;\n";
    is_refused(&rt, repeated, RefusalKind::RepeatedEntry, 2);
    let endless = b"stable 1 marriage\np a: x\n";
    is_refused(&rt, endless, RefusalKind::MissingEnd, 3);
    let unknown = b"stable 1 roommates\np a: x\nend\n";
    is_refused(&rt, unknown, RefusalKind::UnknownName, 2);
}

#[test]
fn an_instance_has_its_parts(rt: HostRuntime) {
    let text = b"# c
stable 1 hospitals
weight m1 h2 7
force m2 h1
p m1: h2 h1
r h1 [2]: m1
p m2: h1
r h2:
forbid m1 h1
end
;;
";
    match read_instance(rt.alloc(), text) {
        Ok(read) => is_read(&rt, &read),
        Err(_fault) => panic!(rt; "refused"),
    }
}

/// What is read has the header's line, the rest and the instance of the text above.
fn is_read(rt: &impl Abort, read: &Read) {
    assert!(rt; read.header_line == 2);
    assert!(rt; read.rest == 107);
    assert!(rt; read.rest_line == 11);
    has_parts(rt, &read.input);
}

/// The input is that instance.
fn has_parts(rt: &impl Abort, input: &Input) {
    assert!(rt; input.kind() == Kind::Hospitals);
    assert!(rt; input.find_left(b"m2") == Some(1));
    assert!(rt; input.find_right(b"m2").is_none());
    match input {
        Input::Two(instance) => {
            has_pairs(rt, instance);
            has_capacities(rt, instance);
        }
        Input::Room(_) => panic!(rt; "persons"),
    }
}

/// So are the weights and the conditions.
fn has_pairs(rt: &impl Abort, instance: &Instance) {
    assert!(rt; instance.weights() == [(0, 1, 7)].as_slice());
    assert!(rt; instance.forced() == [(1, 0)].as_slice());
    assert!(rt; instance.forbidden() == [(0, 0)].as_slice());
}

/// So are the capacities.
fn has_capacities(rt: &impl Abort, instance: &Instance) {
    assert!(rt; instance.reviewer_count() == 2);
    assert!(rt; instance.capacity(0) == 2);
    assert!(rt; instance.capacity(1) == 1);
}

/// The hospitals of `instances`, as a text.
const SMALL_HOSPITALS: &[u8] = b"stable 1 hospitals
p a: k h
p b: z h
p c: h k
r h [2]: c a b
r k [1]: a
r z [0]: b
weight a h 4
weight c h -10
force a h
forbid b h
end
";

#[test]
fn hospitals_that_keep_no_cross_places_are_worth_the_same(rt: HostRuntime) {
    let read = read_instance(rt.alloc(), SMALL_HOSPITALS).expect(&rt, "an instance");
    match &read.input {
        Input::Two(instance) => are_worth(&rt, instance),
        Input::Room(_) => panic!(&rt; "persons"),
    }
}
