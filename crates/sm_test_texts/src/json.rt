//! Instances in JSON, there and back for each kind, bytes that are no instance, and lines as items of an array. What values
//! mean stands in the witnesses of `sm_json`.

use crate::made::MEMORY;
use sm_json::{JsonFault, to_json, to_text, wrap};
use sm_reader::read_instance;
use sm_text::LineWriter;
use std::process::Abort;

/// Makes sure that an instance is this text and this JSON.
fn are_one(rt: &(impl Abort + AllocGlobal), text: &str, json: &str) {
    let read = read_instance(rt.alloc(), text.as_bytes()).expect(rt, "an instance");
    let written = to_json(rt.alloc(), &read.input).expect(rt, MEMORY);
    assert!(rt; written.as_slice() == json.as_bytes());
    let back = to_text(rt.alloc(), json.as_bytes()).expect(rt, MEMORY);
    assert!(rt; back.as_slice() == text.as_bytes());
}

#[test]
fn each_kind_there_and_back(rt: HostRuntime) {
    are_one(
        &rt,
        "stable 1 marriage\np m1: a b\np m2: b a\nr a: m2 m1\nr b: m1 m2\nend\n",
        r#"{"kind":"marriage","proposers":[{"list":["a","b"],"name":"m1"},{"list":["b","a"],"name":"m2"}],"reviewers":[{"list":["m2","m1"],"name":"a"},{"list":["m1","m2"],"name":"b"}]}"#,
    );
    are_one(
        &rt,
        "stable 1 hospitals\np a: h\nr h [12]: a\nweight a h -7\nforce a h\nforbid a h\nend\n",
        r#"{"forbidden":[["a","h"]],"forced":[["a","h"]],"kind":"hospitals","proposers":[{"list":["h"],"name":"a"}],"reviewers":[{"capacity":12,"list":["a"],"name":"h"}],"weights":[["a","h",-7]]}"#,
    );
    are_one(
        &rt,
        "stable 1 roommates\np x: z\np z:\nend\n",
        r#"{"kind":"roommates","persons":[{"list":["z"],"name":"x"},{"list":[],"name":"z"}]}"#,
    );
}

/// Makes sure that bytes are no instance.
fn is_none(rt: &(impl Abort + AllocGlobal), bytes: &[u8]) {
    let refused = to_text(rt.alloc(), bytes);
    assert!(rt; matches!(refused, Err(JsonFault::BadJson)));
}

#[test]
fn bytes_that_are_no_instance(rt: HostRuntime) {
    is_none(&rt, b"{}");
    is_none(&rt, b"[");
}

#[test]
fn lines_as_items(rt: HostRuntime) {
    let mut into = LineWriter::new(rt.alloc(), 1).expect(&rt, MEMORY);
    wrap(&mut into, true, b"pair m1 a").expect(&rt, MEMORY);
    wrap(&mut into, false, b"end").expect(&rt, MEMORY);
    assert!(rt; into.bytes() == b"[\"pair m1 a\",\"end\"".as_slice());
}
