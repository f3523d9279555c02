//! Words that ask for a job, and words that are faulty.

use crate::made::{copy, words_in};
use sm_instance::{Measure, Side};
use sm_make::Shape;
use sm_words::{Form, Job, WordsFault, read_words};
use std::process::Abort;

/// Makes sure of what each of some words asks for, in this form.
fn ask(rt: &(impl Abort + AllocGlobal), form: Form, rows: &[(&str, Job)]) {
    for (text, job) in rows {
        let words = words_in(rt, text);
        match read_words(rt.alloc(), &words) {
            Ok((asked, its)) => assert!(rt; asked == *job && its == form, "{text:?}"),
            Err(_) => assert!(rt; false, "{text:?}"),
        }
    }
}

/// Makes sure of which word of each is faulty.
fn are_faulty(rt: &(impl Abort + AllocGlobal), rows: &[(&str, u32)]) {
    for (text, number) in rows {
        let words = words_in(rt, text);
        match read_words(rt.alloc(), &words) {
            Ok(_) => assert!(rt; false, "{text:?}"),
            Err(WordsFault::Usage(word)) => assert!(rt; word == *number, "{text:?}"),
            Err(WordsFault::OutOfMemory) => assert!(rt; false, "{text:?}"),
        }
    }
}

#[test]
fn words_ask_or_are_faulty(rt: HostRuntime) {
    ask(
        &rt,
        Form::Json,
        &[
            ("solve form=json", Job::Solve(None)),
            ("reduced form=json", Job::Reduced),
            ("rotations form=json", Job::Rotations),
            ("pairs form=json", Job::Pairs),
            ("list form=json limit=3", Job::List(None, 3)),
            ("regret form=json", Job::Regret),
            ("weight by=ranks form=json", Job::Weight(Measure::Ranks)),
            ("survey form=json", Job::Survey(100)),
        ],
    );
    ask(
        &rt,
        Form::Text,
        &[
            ("solve", Job::Solve(None)),
            ("reduced form=text", Job::Reduced),
            ("solve side=proposers", Job::Solve(Some(Side::Proposers))),
            ("solve side=reviewers", Job::Solve(Some(Side::Reviewers))),
            ("reduced", Job::Reduced),
            ("rotations", Job::Rotations),
            ("list", Job::List(None, 100)),
            (
                "list limit=1 after=-",
                Job::List(Some(Vec::new(rt.alloc())), 1),
            ),
            (
                "list after=0,4294967295,7 limit=1000000",
                Job::List(Some(copy(&rt, &[0, 4_294_967_295, 7])), 1_000_000),
            ),
            ("pairs", Job::Pairs),
            ("regret", Job::Regret),
            ("weight by=ranks", Job::Weight(Measure::Ranks)),
            ("weight by=given", Job::Weight(Measure::Given)),
            ("meet", Job::Meet),
            ("join", Job::Join),
            ("survey", Job::Survey(100)),
            ("survey limit=7", Job::Survey(7)),
            ("rest", Job::Rest),
            ("median", Job::Median),
            ("route", Job::Route),
            ("check", Job::Check),
            ("export", Job::Export),
            (
                "make shape=copies size=1 seed=0",
                Job::Make(Shape::Copies, 1, 0, false),
            ),
            (
                "make shape=rooms size=512 seed=18446744073709551615 show=summary",
                Job::Make(Shape::Rooms, 512, u64::MAX, true),
            ),
            (
                "make shape=copies size=2048 seed=1 show=text",
                Job::Make(Shape::Copies, 2_048, 1, false),
            ),
        ],
    );
    are_faulty(
        &rt,
        &[
            ("", 1),
            ("solves", 1),
            ("side=reviewers", 1),
            ("lists", 1),
            ("--help", 1),
            ("solve side=", 2),
            ("solve side", 2),
            ("solve sides=reviewers", 2),
            ("solve side=reviewers=", 2),
            ("solve side=reviewers side=reviewers", 3),
            ("solve side=reviewers side=both", 3),
            ("solve both side=both", 2),
            ("reduced side=proposers", 2),
            ("rotations rotations", 2),
            ("list side=proposers", 2),
            ("pair", 1),
            ("pairs limit=1", 2),
            ("regret side=proposers", 2),
            ("weight", 2),
            ("weight by=rank", 2),
            ("weight by=ranks by=given", 3),
            ("meet join", 2),
            ("check x", 2),
            ("list limit=0", 2),
            ("list limit=1000001", 2),
            ("list limit=1 limit=2", 3),
            ("list after=1 after=1", 3),
            ("list after=", 2),
            ("list after=1,", 2),
            ("list after=1,-", 2),
            ("list after=1,02", 2),
            ("list after=1,4294967296", 2),
            ("survey after=1", 2),
            ("survey limit=0", 2),
            ("solve form=", 2),
            ("solve form=xml", 2),
            ("solve form=json form=json", 3),
            ("meet form=json", 2),
            ("join form=text", 2),
            ("check form=json", 2),
            ("rest form=json", 2),
            ("median form=json", 2),
            ("route form=json", 2),
            ("export form=json", 2),
            ("make form=json", 2),
            ("make", 2),
            ("make shape=cycle size=600", 4),
            ("make size=600 shape=cycle seed=1", 2),
            ("make shape=cycle seed=1 size=513", 4),
            ("make shape=copies size=2049 seed=1", 3),
            ("make shape=copies size=0 seed=1", 3),
            ("make shape=round", 2),
            ("make shape=copies size=1 seed=18446744073709551616", 4),
            ("make shape=copies size=1 seed=1 show=all", 5),
            ("make shape=copies shape=copies", 3),
        ],
    );
}
