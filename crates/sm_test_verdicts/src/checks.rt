//! Answers by hand, right ones and such as were changed, with their verdicts.

use sm_cert::{CertFault, check};
use sm_check_clauses::{Reason, Verdict};
use sm_instance::Input;
use sm_reader::read_instance;
use std::process::Abort;

const PAIR: &str = "stable 1 marriage\np m1: a b\np m2: b a\nr a: m2 m1\nr b: m1 m2\nend\n";

const CYCLE: &str = "stable 1 marriage\np m1: a b c\np m2: b c a\np m3: c a b\n\
    r a: m2 m3 m1\nr b: m3 m1 m2\nr c: m1 m2 m3\nend\n";

const WEIGHED: &str = "stable 1 marriage\np m1: a b c\np m2: b c a\np m3: c a b\n\
    r a: m2 m3 m1\nr b: m3 m1 m2\nr c: m1 m2 m3\nweight m1 b 4\nweight m1 c -10\nend\n";

const TWO_LEVELS: &str = "stable 2 marriage\np m1: a b c\np m2: b c a\np m3: c a b\n\
    r a: m2 m3 m1\nr b: m3 m1 m2\nr c: m1 m2 m3\nweight m1 b 4 1\nweight m2 a 0 -2\nend\n";

const RISING: &str = "stable 2 marriage\np m1: a b c\np m2: b c a\np m3: c a b\n\
    r a: m2 m3 m1\nr b: m3 m1 m2\nr c: m1 m2 m3\nweight m1 b 4 1\nweight m2 a 0 2\nend\n";

const EQUAL: &str = "stable 2 marriage\np m1: a b c\np m2: b c a\np m3: c a b\n\
    r a: m2 m3 m1\nr b: m3 m1 m2\nr c: m1 m2 m3\nweight m1 b 4 1\nend\n";

const FORCED: &str = "stable 1 marriage\np m1: a b\np m2: b a\np m3: c d\np m4: d c\n\
    r a: m2 m1\nr b: m1 m2\nr c: m4 m3\nr d: m3 m4\nforce m1 b\nend\n";

const PASSED: &str = "stable 1 marriage\np p1: a b\np p2: b a\np p3: c a d\np p4: d c\n\
    r a: p2 p3 p1\nr b: p1 p2\nr c: p4 p3\nr d: p3 p4\nend\n";

const HOSPITALS: &str =
    "stable 1 hospitals\np r0: h\np r1: h k\np r2: k h\nr h [2]: r2 r0 r1\nr k [1]: r1 r2\nend\n";

const ODD: &str = "stable 1 roommates\np 1: 2 3 4\np 2: 3 1 4\np 3: 1 2 4\np 4: 1 2 3\nend\n";

const EVEN: &str = "stable 1 roommates\np 1: 2 4\np 2: 3 1\np 3: 4 2\np 4: 1 3\nend\n";

/// What comes of a text, whose first line has the number 1.
#[derive(Clone, Copy, PartialEq, Eq)]
enum Found {
    Yes,
    No(u32, Reason),
    Bad(u32),
}

/// Makes sure of what comes of some answers over an instance.
fn come_to(rt: &(impl Abort + AllocGlobal), instance: &str, rows: &[(&str, Found)]) {
    match read_instance(rt.alloc(), instance.as_bytes()) {
        Ok(read) => {
            for (answer, found) in rows {
                assert!(rt; comes_to(rt, &read.input, answer, *found), "{answer:?}");
            }
        }
        Err(_) => assert!(rt; false, "{instance:?}"),
    }
}

/// Whether this comes of an answer.
fn comes_to(rt: &(impl Abort + AllocGlobal), input: &Input, answer: &str, found: Found) -> bool {
    let bytes = answer.as_bytes();
    assert!(rt; bytes.len() <= 1000, "{answer:?}");
    match check(rt.alloc(), input, bytes, 1) {
        Ok(Verdict::Yes) => found == Found::Yes,
        Ok(Verdict::No(line, why)) => found == Found::No(line, why),
        Err(CertFault::BadAnswer(line)) => found == Found::Bad(line),
        Err(CertFault::TooManySeats(_)) => false,
        Err(CertFault::OutOfMemory) => false,
    }
}

#[test]
fn marriages_are_checked(rt: HostRuntime) {
    come_to(
        &rt,
        PAIR,
        &[
            (
                "answer solve side=proposers\npair m1 a\npair m2 b\nend\n",
                Found::Yes,
            ),
            (
                "answer solve side=proposers\npair m2 b\npair m1 a\nend\n",
                Found::Yes,
            ),
            (
                "answer solve side=reviewers\npair m1 b\npair m2 a\nend\n",
                Found::Yes,
            ),
            (
                "answer reduced\nfirst m1 a\nfirst m2 b\nlast m1 b\nlast m2 a\nproposer m1 a b\nproposer m2 b a\n\
                 reviewer a m2 m1\nreviewer b m1 m2\nend\n",
                Found::Yes,
            ),
            (
                "answer rotations\nfirst m1 a\nfirst m2 b\nrotation 1 m1 a m2 b\nneeds 1 -\nend\n",
                Found::Yes,
            ),
            (
                "answer list limit=100\nvector 1,1\nvector 2,2\nend\n",
                Found::Yes,
            ),
            (
                "answer meet\nleft m1 a\nleft m2 b\nright m1 b\nright m2 a\npair m1 a\npair m2 b\nend\n",
                Found::Yes,
            ),
            (
                "answer join\nleft m1 a\nleft m2 b\nright m1 b\nright m2 a\npair m1 b\npair m2 a\nend\n",
                Found::Yes,
            ),
            (
                "answer solve side=proposers\npair m1 a\npair m2 a\nend\n",
                Found::No(3, Reason::NotAMatching),
            ),
            (
                "answer solve side=proposers\npair m1 a\nend\n",
                Found::No(3, Reason::Blocked),
            ),
            (
                "answer solve side=proposers\npair m1 b\npair m2 a\nend\n",
                Found::No(4, Reason::NotBest),
            ),
            (
                "answer reduced\nfirst m1 a\nfirst m2 b\nlast m1 b\nlast m2 a\nproposer m1 a b\nproposer m2 b a\n\
                 reviewer a m1 m2\nreviewer b m1 m2\nend\n",
                Found::No(8, Reason::WrongList),
            ),
            (
                "answer rotations\nfirst m1 a\nfirst m2 b\nrotation 1 m2 b m1 a\nneeds 1 -\nend\n",
                Found::No(4, Reason::NotExposed),
            ),
            (
                "answer rotations\nfirst m1 a\nfirst m2 b\nend\n",
                Found::No(4, Reason::RotationMissing),
            ),
            (
                "answer rotations\nfirst m1 b\nfirst m2 a\nend\n",
                Found::No(4, Reason::NotBest),
            ),
            (
                "answer meet\nleft m1 a\nleft m2 b\nright m1 b\nright m2 a\npair m1 b\npair m2 a\nend\n",
                Found::No(6, Reason::WrongPair),
            ),
        ],
    );
}

#[test]
fn texts_out_of_form_are_bad(rt: HostRuntime) {
    come_to(
        &rt,
        PAIR,
        &[
            ("", Found::Bad(1)),
            ("answer solve side=proposers\n", Found::Bad(2)),
            ("answer solve side=proposers\npair m1 a\n", Found::Bad(3)),
            (
                "answer solve side=proposers\npair m1 a\npair m2 b\n",
                Found::Bad(4),
            ),
            (
                "answer solve side=proposers\npair m1 a\npair m2 b\nend\nend\n",
                Found::Bad(5),
            ),
            (
                "answer solve side=proposers\npair m1 x\npair m2 b\nend\n",
                Found::Bad(2),
            ),
            (
                "answer rotations\nfirst m1 a\nfirst m2 b\nrotation 2 m1 a m2 b\n",
                Found::Bad(4),
            ),
            ("answer solve\npair m1 a\npair m2 b\nend\n", Found::Bad(1)),
            ("answer pairs\nend\n", Found::Bad(1)),
            ("answer regret\nnone\nend\n", Found::Bad(2)),
            ("answer list limit=100\nvector 1,1,1\nend\n", Found::Bad(2)),
        ],
    );
    come_to(
        &rt,
        HOSPITALS,
        &[("answer rotations\nfirst r0 h/3\n", Found::Bad(2))],
    );
    come_to(&rt, EVEN, &[("answer solve\npair 2 1\n", Found::Bad(2))]);
}

#[test]
fn other_answers_are_checked(rt: HostRuntime) {
    come_to(
        &rt,
        CYCLE,
        &[
            (
                "answer regret\nregret 2\npair m1 b\npair m2 c\npair m3 a\nend\n",
                Found::Yes,
            ),
            (
                "answer regret\nregret 3\npair m1 b\npair m2 c\npair m3 a\nend\n",
                Found::No(6, Reason::WrongRegret),
            ),
            (
                "answer list limit=100\nvector 1,1,1\nvector 3,3,3\nvector 2,2,2\nend\n",
                Found::No(4, Reason::NotRising),
            ),
            (
                "answer list limit=1\nvector 1,1,1\nvector 2,2,2\nmore 2,2,2\n",
                Found::No(3, Reason::OverLimit),
            ),
            (
                "answer list limit=2\nvector 1,1,1\nmore 1,1,1\n",
                Found::No(3, Reason::WrongTail),
            ),
        ],
    );
    come_to(
        &rt,
        FORCED,
        &[(
            "answer list limit=100\nvector 1,1,1,1\nend\n",
            Found::No(2, Reason::NotAllowed),
        )],
    );
    come_to(
        &rt,
        PASSED,
        &[(
            "answer rotations\nfirst p1 a\nfirst p2 b\nfirst p3 c\nfirst p4 d\nrotation 1 p1 a p2 b\nneeds 1 -\n\
             rotation 2 p3 c p4 d\nneeds 2 -\nend\n",
            Found::No(9, Reason::WrongNeeds),
        )],
    );
    come_to(
        &rt,
        HOSPITALS,
        &[(
            "answer rotations\nfirst r0 h/1\nfirst r1 h/2\nfirst r2 k/1\nrotation 1 r0 h/1 r1 h/2 r2 k/1\nneeds 1 -\nend\n",
            Found::Yes,
        )],
    );
    come_to(
        &rt,
        ODD,
        &[
            (
                "answer solve\nnone\nparty 1 2 3\nparty 4\nend\n",
                Found::Yes,
            ),
            (
                "answer solve\nnone\nparty 1 3 2\nparty 4\nend\n",
                Found::No(5, Reason::NotPartition),
            ),
        ],
    );
    come_to(
        &rt,
        EVEN,
        &[
            ("answer solve\npair 1 2\npair 3 4\nend\n", Found::Yes),
            ("answer solve\nend\n", Found::No(2, Reason::Blocked)),
            (
                "answer solve\nnone\nparty 1 2 3 4\nend\n",
                Found::No(4, Reason::NoOddParty),
            ),
        ],
    );
}

#[test]
fn lightest_matchings_are_checked(rt: HostRuntime) {
    come_to(
        &rt,
        WEIGHED,
        &[
            (
                "answer weight by=given\nfirst m1 a\nfirst m2 b\nfirst m3 c\nrotation 1 m1 a m2 b m3 c\n\
                 needs 1 -\ngain 1 4\nrotation 2 m1 b m2 c m3 a\nneeds 2 1\ngain 2 -14\nflow S 2 4\nflow 1 T 4\n\
                 flow 2 1 4\ntaken 1 2\nvalue 4\ncut 4\ntotal -10\npair m1 c\npair m2 a\npair m3 b\nend\n",
                Found::Yes,
            ),
            (
                "answer weight by=given\nfirst m1 a\nfirst m2 b\nfirst m3 c\nrotation 1 m1 a m2 b m3 c\n\
                 needs 1 -\ngain 1 4\nrotation 2 m1 b m2 c m3 a\nneeds 2 1\ngain 2 -13\nflow S 2 4\nflow 1 T 4\n\
                 flow 2 1 4\ntaken 1 2\nvalue 4\ncut 4\ntotal -10\npair m1 c\npair m2 a\npair m3 b\nend\n",
                Found::No(10, Reason::WrongGain),
            ),
            (
                "answer weight by=given\nfirst m1 a\nfirst m2 b\nfirst m3 c\nrotation 1 m1 a m2 b m3 c\n\
                 needs 1 -\ngain 1 4\nrotation 2 m1 b m2 c m3 a\nneeds 2 -\ngain 2 -14\nflow S 2 4\nflow 1 T 4\n\
                 flow 2 1 4\ntaken 1 2\nvalue 4\ncut 4\ntotal -10\npair m1 c\npair m2 a\npair m3 b\nend\n",
                Found::No(9, Reason::WrongNeeds),
            ),
            (
                "answer weight by=given\nfirst m1 a\nfirst m2 b\nfirst m3 c\nrotation 1 m1 a m2 b m3 c\n\
                 needs 1 -\ngain 1 4\nflow S 2 4\nflow 1 T 4\nflow 2 1 4\ntaken 1 2\nvalue 4\ncut 4\ntotal -10\n\
                 pair m1 c\npair m2 a\npair m3 b\nend\n",
                Found::No(8, Reason::RotationMissing),
            ),
            (
                "answer weight by=given\nfirst m1 a\nfirst m2 b\nfirst m3 c\nrotation 1 m1 a m2 b m3 c\n\
                 needs 1 -\ngain 1 4\nrotation 2 m1 b m2 c m3 a\nneeds 2 1\ngain 2 -14\nflow S 1 4\nflow 1 T 4\n\
                 flow 2 1 4\ntaken 1 2\nvalue 4\ncut 4\ntotal -10\npair m1 c\npair m2 a\npair m3 b\nend\n",
                Found::No(11, Reason::NoEdge),
            ),
            (
                "answer weight by=given\nfirst m1 a\nfirst m2 b\nfirst m3 c\nrotation 1 m1 a m2 b m3 c\n\
                 needs 1 -\ngain 1 4\nrotation 2 m1 b m2 c m3 a\nneeds 2 1\ngain 2 -14\nflow S 2 4\nflow 1 T 4\n\
                 flow 2 1 4\nflow S 2 1\ntaken 1 2\nvalue 4\ncut 4\ntotal -10\npair m1 c\npair m2 a\npair m3 b\n\
                 end\n",
                Found::No(14, Reason::NoEdge),
            ),
            (
                "answer weight by=given\nfirst m1 a\nfirst m2 b\nfirst m3 c\nrotation 1 m1 a m2 b m3 c\n\
                 needs 1 -\ngain 1 4\nrotation 2 m1 b m2 c m3 a\nneeds 2 1\ngain 2 -14\nflow S 2 4\nflow 1 T 4\n\
                 flow 3 1 4\ntaken 1 2\nvalue 4\ncut 4\ntotal -10\npair m1 c\npair m2 a\npair m3 b\nend\n",
                Found::No(13, Reason::NoEdge),
            ),
            (
                "answer weight by=given\nfirst m1 a\nfirst m2 b\nfirst m3 c\nrotation 1 m1 a m2 b m3 c\n\
                 needs 1 -\ngain 1 4\nrotation 2 m1 b m2 c m3 a\nneeds 2 1\ngain 2 -14\n\
                 flow S 2 18446744073709551615\nflow 1 T 4\nflow 2 1 4\ntaken 1 2\nvalue 4\ncut 4\ntotal -10\n\
                 pair m1 c\npair m2 a\npair m3 b\nend\n",
                Found::No(11, Reason::OverRoom),
            ),
            (
                "answer weight by=given\nfirst m1 a\nfirst m2 b\nfirst m3 c\nrotation 1 m1 a m2 b m3 c\n\
                 needs 1 -\ngain 1 4\nrotation 2 m1 b m2 c m3 a\nneeds 2 1\ngain 2 -14\nflow S 2 3\nflow 1 T 4\n\
                 flow 2 1 4\ntaken 1 2\nvalue 4\ncut 4\ntotal -10\npair m1 c\npair m2 a\npair m3 b\nend\n",
                Found::No(14, Reason::NotConserved),
            ),
            (
                "answer weight by=given\nfirst m1 a\nfirst m2 b\nfirst m3 c\nrotation 1 m1 a m2 b m3 c\n\
                 needs 1 -\ngain 1 4\nrotation 2 m1 b m2 c m3 a\nneeds 2 1\ngain 2 -14\nflow S 2 4\nflow 1 T 4\n\
                 flow 2 1 4\ntaken 2\nvalue 4\ncut 4\ntotal -10\npair m1 c\npair m2 a\npair m3 b\nend\n",
                Found::No(14, Reason::NotClosed),
            ),
            (
                "answer weight by=given\nfirst m1 a\nfirst m2 b\nfirst m3 c\nrotation 1 m1 a m2 b m3 c\n\
                 needs 1 -\ngain 1 4\nrotation 2 m1 b m2 c m3 a\nneeds 2 1\ngain 2 -14\nflow S 2 4\nflow 1 T 4\n\
                 flow 2 1 4\ntaken 1 2 3\nvalue 4\ncut 4\ntotal -10\npair m1 c\npair m2 a\npair m3 b\nend\n",
                Found::No(14, Reason::NotClosed),
            ),
            (
                "answer weight by=given\nfirst m1 a\nfirst m2 b\nfirst m3 c\nrotation 1 m1 a m2 b m3 c\n\
                 needs 1 -\ngain 1 4\nrotation 2 m1 b m2 c m3 a\nneeds 2 1\ngain 2 -14\nflow S 2 4\nflow 1 T 4\n\
                 flow 2 1 4\ntaken 1 2\nvalue 3\ncut 4\ntotal -10\npair m1 c\npair m2 a\npair m3 b\nend\n",
                Found::No(15, Reason::WrongValue),
            ),
            (
                "answer weight by=given\nfirst m1 a\nfirst m2 b\nfirst m3 c\nrotation 1 m1 a m2 b m3 c\n\
                 needs 1 -\ngain 1 4\nrotation 2 m1 b m2 c m3 a\nneeds 2 1\ngain 2 -14\nflow S 2 4\nflow 1 T 4\n\
                 flow 2 1 4\ntaken -\nvalue 4\ncut 4\ntotal -10\npair m1 c\npair m2 a\npair m3 b\nend\n",
                Found::No(16, Reason::WrongCut),
            ),
            (
                "answer weight by=given\nfirst m1 a\nfirst m2 b\nfirst m3 c\nrotation 1 m1 a m2 b m3 c\n\
                 needs 1 -\ngain 1 4\nrotation 2 m1 b m2 c m3 a\nneeds 2 1\ngain 2 -14\nflow S 2 3\nflow 1 T 3\n\
                 flow 2 1 3\ntaken 1 2\nvalue 3\ncut 4\ntotal -10\npair m1 c\npair m2 a\npair m3 b\nend\n",
                Found::No(16, Reason::CutDiffers),
            ),
            (
                "answer weight by=given\nfirst m1 a\nfirst m2 b\nfirst m3 c\nrotation 1 m1 a m2 b m3 c\n\
                 needs 1 -\ngain 1 4\nrotation 2 m1 b m2 c m3 a\nneeds 2 1\ngain 2 -14\nflow S 2 4\nflow 1 T 4\n\
                 flow 2 1 4\ntaken 1 2\nvalue 4\ncut 4\ntotal -9\npair m1 c\npair m2 a\npair m3 b\nend\n",
                Found::No(17, Reason::WrongTotal),
            ),
            (
                "answer weight by=given\nfirst m1 a\nfirst m2 b\nfirst m3 c\nrotation 1 m1 a m2 b m3 c\n\
                 needs 1 -\ngain 1 4\nrotation 2 m1 b m2 c m3 a\nneeds 2 1\ngain 2 -14\nflow S 2 4\nflow 1 T 4\n\
                 flow 2 1 4\ntaken 1 2\nvalue 4\ncut 4\ntotal -10\npair m1 c\npair m2 b\npair m3 b\nend\n",
                Found::No(19, Reason::WrongPair),
            ),
            (
                "answer weight by=given\nfirst m1 a\nfirst m2 b\nfirst m3 c\nrotation 1 m1 a m2 b m3 c\n\
                 needs 1 -\ngain 1 4\nrotation 2 m1 b m2 c m3 a\nneeds 2 1\ngain 2 -14\nflow S 2 4\nflow 1 T 4\n\
                 flow 2 1 4\ntaken 1 2\nvalue 4\ncut 4\ntotal -10\npair m1 c\npair m2 a\nend\n",
                Found::No(20, Reason::WrongPair),
            ),
            (
                "answer weight by=ranks\nfirst m1 a\nfirst m2 b\nfirst m3 c\nrotation 1 m1 a m2 b m3 c\n\
                 needs 1 -\ngain 1 0\nrotation 2 m1 b m2 c m3 a\nneeds 2 1\ngain 2 0\ntaken 1\nvalue 0\ncut 0\n\
                 total 12\npair m1 b\npair m2 c\npair m3 a\nend\n",
                Found::No(18, Reason::NotLeast),
            ),
        ],
    );
}

#[test]
fn lightest_matchings_of_two_levels_are_checked(rt: HostRuntime) {
    come_to(
        &rt,
        TWO_LEVELS,
        &[
            (
                "answer weight by=given\nfirst m1 a\nfirst m2 b\nfirst m3 c\nrotation 1 m1 a m2 b m3 c\n\
                 needs 1 -\ngain 1 4\ngain2 1 1\nrotation 2 m1 b m2 c m3 a\nneeds 2 1\ngain 2 -4\n\
                 gain2 2 -3\nflow S 2 4\nflow 1 T 4\nflow 2 1 4\nflow2 S 2 1\nflow2 1 T 1\nflow2 2 1 1\n\
                 taken 1 2\nvalue 4\ncut 4\ntotal 0\nvalue2 1\ncut2 1\ntotal2 -2\npair m1 c\npair m2 a\n\
                 pair m3 b\nend\n",
                Found::Yes,
            ),
            (
                "answer weight by=given\nfirst m1 a\nfirst m2 b\nfirst m3 c\nrotation 1 m1 a m2 b m3 c\n\
                 needs 1 -\ngain 1 4\ngain2 1 1\nrotation 2 m1 b m2 c m3 a\nneeds 2 1\ngain 2 -4\n\
                 gain2 2 -2\nflow S 2 4\nflow 1 T 4\nflow 2 1 4\nflow2 S 2 1\nflow2 1 T 1\nflow2 2 1 1\n\
                 taken 1 2\nvalue 4\ncut 4\ntotal 0\nvalue2 1\ncut2 1\ntotal2 -2\npair m1 c\npair m2 a\n\
                 pair m3 b\nend\n",
                Found::No(12, Reason::WrongGain),
            ),
            (
                "answer weight by=given\nfirst m1 a\nfirst m2 b\nfirst m3 c\nrotation 1 m1 a m2 b m3 c\n\
                 needs 1 -\ngain 1 4\ngain2 1 1\nrotation 2 m1 b m2 c m3 a\nneeds 2 1\ngain 2 -4\n\
                 gain2 2 -3\nflow S 2 4\nflow 1 T 4\nflow 2 1 4\nflow2 S 1 1\nflow2 1 T 1\nflow2 2 1 1\n\
                 taken 1 2\nvalue 4\ncut 4\ntotal 0\nvalue2 1\ncut2 1\ntotal2 -2\npair m1 c\npair m2 a\n\
                 pair m3 b\nend\n",
                Found::No(16, Reason::NoEdge),
            ),
            (
                "answer weight by=given\nfirst m1 a\nfirst m2 b\nfirst m3 c\nrotation 1 m1 a m2 b m3 c\n\
                 needs 1 -\ngain 1 4\ngain2 1 1\nrotation 2 m1 b m2 c m3 a\nneeds 2 1\ngain 2 -4\n\
                 gain2 2 -3\nflow S 2 4\nflow 1 T 4\nflow 2 1 4\nflow2 S 2 1\nflow2 1 T 1\nflow2 2 1 1\n\
                 flow2 2 1 1\ntaken 1 2\nvalue 4\ncut 4\ntotal 0\nvalue2 1\ncut2 1\ntotal2 -2\npair m1 c\n\
                 pair m2 a\npair m3 b\nend\n",
                Found::No(19, Reason::NoEdge),
            ),
            (
                "answer weight by=given\nfirst m1 a\nfirst m2 b\nfirst m3 c\nrotation 1 m1 a m2 b m3 c\n\
                 needs 1 -\ngain 1 4\ngain2 1 1\nrotation 2 m1 b m2 c m3 a\nneeds 2 1\ngain 2 -4\n\
                 gain2 2 -3\nflow S 2 4\nflow 1 T 4\nflow 2 1 4\nflow2 S 2 4\nflow2 1 T 1\nflow2 2 1 1\n\
                 taken 1 2\nvalue 4\ncut 4\ntotal 0\nvalue2 1\ncut2 1\ntotal2 -2\npair m1 c\npair m2 a\n\
                 pair m3 b\nend\n",
                Found::No(16, Reason::OverRoom),
            ),
            (
                "answer weight by=given\nfirst m1 a\nfirst m2 b\nfirst m3 c\nrotation 1 m1 a m2 b m3 c\n\
                 needs 1 -\ngain 1 4\ngain2 1 1\nrotation 2 m1 b m2 c m3 a\nneeds 2 1\ngain 2 -4\n\
                 gain2 2 -3\nflow S 2 4\nflow 1 T 4\nflow 2 1 4\nflow2 S 2 2\nflow2 1 T 1\nflow2 2 1 1\n\
                 taken 1 2\nvalue 4\ncut 4\ntotal 0\nvalue2 1\ncut2 1\ntotal2 -2\npair m1 c\npair m2 a\n\
                 pair m3 b\nend\n",
                Found::No(19, Reason::NotConserved),
            ),
            (
                "answer weight by=given\nfirst m1 a\nfirst m2 b\nfirst m3 c\nrotation 1 m1 a m2 b m3 c\n\
                 needs 1 -\ngain 1 4\ngain2 1 1\nrotation 2 m1 b m2 c m3 a\nneeds 2 1\ngain 2 -4\n\
                 gain2 2 -3\nflow S 2 3\nflow 1 T 4\nflow 2 1 4\nflow2 S 2 1\nflow2 1 T 1\nflow2 2 1 1\n\
                 taken 1 2\nvalue 4\ncut 4\ntotal 0\nvalue2 1\ncut2 1\ntotal2 -2\npair m1 c\npair m2 a\n\
                 pair m3 b\nend\n",
                Found::No(19, Reason::NotConserved),
            ),
            (
                "answer weight by=given\nfirst m1 a\nfirst m2 b\nfirst m3 c\nrotation 1 m1 a m2 b m3 c\n\
                 needs 1 -\ngain 1 4\ngain2 1 1\nrotation 2 m1 b m2 c m3 a\nneeds 2 1\ngain 2 -4\n\
                 gain2 2 -3\nflow S 2 4\nflow 1 T 4\nflow 2 1 4\nflow2 S 2 1\nflow2 1 T 1\nflow2 2 1 1\n\
                 taken 1 2\nvalue 4\ncut 4\ntotal 0\nvalue2 2\ncut2 1\ntotal2 -2\npair m1 c\npair m2 a\n\
                 pair m3 b\nend\n",
                Found::No(23, Reason::WrongValue),
            ),
            (
                "answer weight by=given\nfirst m1 a\nfirst m2 b\nfirst m3 c\nrotation 1 m1 a m2 b m3 c\n\
                 needs 1 -\ngain 1 4\ngain2 1 1\nrotation 2 m1 b m2 c m3 a\nneeds 2 1\ngain 2 -4\n\
                 gain2 2 -3\nflow S 2 4\nflow 1 T 4\nflow 2 1 4\nflow2 S 2 1\nflow2 1 T 1\nflow2 2 1 1\n\
                 taken 1 2\nvalue 4\ncut 4\ntotal 0\nvalue2 1\ncut2 0\ntotal2 -2\npair m1 c\npair m2 a\n\
                 pair m3 b\nend\n",
                Found::No(24, Reason::WrongCut),
            ),
            (
                "answer weight by=given\nfirst m1 a\nfirst m2 b\nfirst m3 c\nrotation 1 m1 a m2 b m3 c\n\
                 needs 1 -\ngain 1 4\ngain2 1 1\nrotation 2 m1 b m2 c m3 a\nneeds 2 1\ngain 2 -4\n\
                 gain2 2 -3\nflow S 2 4\nflow 1 T 4\nflow 2 1 4\nflow2 S 2 1\nflow2 1 T 1\nflow2 2 1 1\n\
                 taken -\nvalue 4\ncut 4\ntotal 0\nvalue2 1\ncut2 3\ntotal2 0\npair m1 a\npair m2 b\n\
                 pair m3 c\nend\n",
                Found::No(24, Reason::CutDiffers),
            ),
            (
                "answer weight by=given\nfirst m1 a\nfirst m2 b\nfirst m3 c\nrotation 1 m1 a m2 b m3 c\n\
                 needs 1 -\ngain 1 4\ngain2 1 1\nrotation 2 m1 b m2 c m3 a\nneeds 2 1\ngain 2 -4\n\
                 gain2 2 -3\nflow S 2 4\nflow 1 T 4\nflow 2 1 4\nflow2 S 2 1\nflow2 1 T 1\nflow2 2 1 1\n\
                 taken 1 2\nvalue 4\ncut 4\ntotal 0\nvalue2 1\ncut2 1\ntotal2 0\npair m1 c\npair m2 a\n\
                 pair m3 b\nend\n",
                Found::No(25, Reason::WrongTotal),
            ),
            (
                "answer weight by=given\nfirst m1 a\nfirst m2 b\nfirst m3 c\nrotation 1 m1 a m2 b m3 c\n\
                 needs 1 -\ngain 1 4\nrotation 2 m1 b m2 c m3 a\nneeds 2 1\ngain 2 -4\nflow S 2 4\n\
                 flow 1 T 4\nflow 2 1 4\nflow2 S 2 1\nflow2 1 T 1\nflow2 2 1 1\ntaken 1 2\nvalue 4\ncut 4\n\
                 total 0\nvalue2 1\ncut2 1\ntotal2 -2\npair m1 c\npair m2 a\npair m3 b\nend\n",
                Found::Bad(8),
            ),
            (
                "answer weight by=given\nfirst m1 a\nfirst m2 b\nfirst m3 c\nrotation 1 m1 a m2 b m3 c\n\
                 needs 1 -\ngain 1 4\ngain2 1 1\nrotation 2 m1 b m2 c m3 a\nneeds 2 1\ngain 2 -4\n\
                 gain2 2 -3\nflow S 2 4\nflow 1 T 4\nflow 2 1 4\nflow2 S 2 1\nflow2 1 T 1\nflow2 2 1 1\n\
                 taken 1 2\nvalue 4\ncut 4\ntotal 0\npair m1 c\npair m2 a\npair m3 b\nend\n",
                Found::Bad(23),
            ),
        ],
    );
    come_to(
        &rt,
        RISING,
        &[(
            "answer weight by=given\nfirst m1 a\nfirst m2 b\nfirst m3 c\nrotation 1 m1 a m2 b m3 c\n\
                 needs 1 -\ngain 1 4\ngain2 1 1\nrotation 2 m1 b m2 c m3 a\nneeds 2 1\ngain 2 -4\ngain2 2 1\n\
                 flow S 2 4\nflow 1 T 4\nflow 2 1 4\ntaken -\nvalue 4\ncut 4\ntotal 0\nvalue2 0\ncut2 0\n\
                 total2 0\npair m1 a\npair m2 b\npair m3 c\nend\n",
            Found::Yes,
        )],
    );
    come_to(
        &rt,
        EQUAL,
        &[
            (
                "answer weight by=given\nfirst m1 a\nfirst m2 b\nfirst m3 c\nrotation 1 m1 a m2 b m3 c\n\
                 needs 1 -\ngain 1 4\ngain2 1 1\nrotation 2 m1 b m2 c m3 a\nneeds 2 1\ngain 2 -4\n\
                 gain2 2 -1\nflow S 2 4\nflow 1 T 4\nflow 2 1 4\nflow2 S 2 1\nflow2 1 T 1\nflow2 2 1 1\n\
                 taken -\nvalue 4\ncut 4\ntotal 0\nvalue2 1\ncut2 1\ntotal2 0\npair m1 a\npair m2 b\n\
                 pair m3 c\nend\n",
                Found::Yes,
            ),
            (
                "answer weight by=given\nfirst m1 a\nfirst m2 b\nfirst m3 c\nrotation 1 m1 a m2 b m3 c\n\
                 needs 1 -\ngain 1 4\ngain2 1 1\nrotation 2 m1 b m2 c m3 a\nneeds 2 1\ngain 2 -4\n\
                 gain2 2 -1\nflow S 2 4\nflow 1 T 4\nflow 2 1 4\nflow2 S 2 1\nflow2 1 T 1\nflow2 2 1 1\n\
                 taken 1 2\nvalue 4\ncut 4\ntotal 0\nvalue2 1\ncut2 1\ntotal2 0\npair m1 c\npair m2 a\n\
                 pair m3 b\nend\n",
                Found::No(29, Reason::NotLeast),
            ),
        ],
    );
    come_to(
        &rt,
        WEIGHED,
        &[
            (
                "answer weight by=given\nfirst m1 a\nfirst m2 b\nfirst m3 c\nrotation 1 m1 a m2 b m3 c\n\
                 needs 1 -\ngain 1 4\ngain2 1 0\n",
                Found::Bad(8),
            ),
            (
                "answer weight by=ranks\nfirst m1 a\nfirst m2 b\nfirst m3 c\nrotation 1 m1 a m2 b m3 c\n\
                 needs 1 -\ngain 1 0\nrotation 2 m1 b m2 c m3 a\nneeds 2 1\ngain 2 0\nflow2 S 2 1\n",
                Found::Bad(11),
            ),
        ],
    );
}
