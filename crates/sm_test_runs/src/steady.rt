//! A whole run over a source and a sink that never fail. All other runs are those of `sm_test_rows`.

use crate::made::{MEMORY, copy, words_in};
use sm_io::{SteadySink, SteadySource};
use sm_top::{Status, run};

#[test]
fn solves_over_a_steady_source_and_sink(rt: HostRuntime) {
    let words = words_in(&rt, "solve");
    let text = b"stable 1 marriage\np m1: a b\np m2: b a\nr a: m2 m1\nr b: m1 m2\nend\n";
    let mut source = SteadySource::new(copy(&rt, text), 3);
    let mut sink = SteadySink::new(rt.alloc(), 1000).expect(&rt, MEMORY);
    let status = run(
        rt.alloc(),
        &words,
        &mut source,
        &mut sink,
        Vec::new(rt.alloc()),
    );
    assert!(rt; status == Status::Done);
    assert!(rt; status.number() == 0);
    assert!(rt;
        sink.held() == Some(b"answer solve side=proposers\npair m1 a\npair m2 b\nend\n".as_slice())
    );
}
