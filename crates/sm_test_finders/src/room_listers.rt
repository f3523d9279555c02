//! Listings of roommates that were worked out by hand. Lists are written as texts, one digit for each person and a stroke between
//! two lists; so are vectors.

use crate::made::MEMORY;
use crate::rooms::{list, roommates};
use sm_room_list::RoomLister;
use std::process::Abort;

/// Makes sure of the next vector.
fn comes_to(rt: &(impl Abort + AllocGlobal), lister: &mut RoomLister, digits: &str) {
    let found = lister.advance().expect(rt, MEMORY);
    assert!(rt; found, "{digits}");
    let vector = list(rt, digits);
    assert!(rt; lister.current() == vector.as_slice(), "{digits}");
}

/// A listing behind a cursor.
fn start(rt: &(impl Abort + AllocGlobal), text: &str, after: Option<&str>) -> RoomLister {
    let market = roommates(rt, text);
    let after = after.map(|digits| list(rt, digits));
    if let Some(vector) = &after {
        assert!(rt; vector.len() == market.persons() as usize, "{text}");
    }
    RoomLister::start(rt.alloc(), market, after).expect(rt, MEMORY)
}

/// Makes sure that no vector is left.
fn ends(rt: &(impl Abort + AllocGlobal), lister: &mut RoomLister, text: &str) {
    for _ in 0..2 {
        let found = lister.advance().expect(rt, MEMORY);
        assert!(rt; !found, "{text}");
    }
}

/// Makes sure of the vectors behind a cursor, and that none comes behind the last.
fn gives(rt: &(impl Abort + AllocGlobal), text: &str, after: Option<&str>, wanted: &str) {
    let mut lister = start(rt, text, after);
    for digits in wanted.split('/') {
        if !digits.is_empty() {
            comes_to(rt, &mut lister, digits);
        }
    }
    ends(rt, &mut lister, text);
}

/// Behind each stable matching of four, and behind cursors that are none.
fn gives_behind_cursors(rt: &(impl Abort + AllocGlobal), text: &str) {
    gives(rt, text, Some("1212"), "2121");
    gives(rt, text, Some("2121"), "");
    gives(rt, text, Some("0000"), "1212/2121");
    gives(rt, text, Some("1300"), "2121");
    gives(rt, text, Some("9000"), "");
}

#[test]
fn listings_of_roommates(rt: HostRuntime) {
    gives(&rt, "13/20/31/02", None, "1212/2121");
    gives_behind_cursors(&rt, "13/20/31/02");
    gives(&rt, "123/203/013/012", None, "");
    gives(
        &rt,
        "13/20/31/02/57/64/75/46/0",
        None,
        "121212122/121221212/212112122/212121212",
    );
}
