//! Roommates that were worked out by hand. Lists are written as texts, one digit for each person and a stroke between two
//! lists.

ghost use Rattle.std.specs.Prelude.{◌≡◌, ℕ, ◌<◌, length};
ghost use Rattle.sm_lists.specs.Rows.{rows_of};
ghost use Rattle.sm_lists.specs.Limits.{AreWithinLimits};
ghost use Rattle.sm_room.specs.Tables.{IsGood};

use crate::made::MEMORY;
use sm_room::{Partition, RoomFault, RoomMarket, Table, phase_one, phase_two, stable_partition};
use std::process::Abort;

/// The persons of one list.
pub fn list(rt: &(impl Abort + AllocGlobal), text: &str) -> Vec<u32>
    ensures { length result.items < 100 }
{
    let mut list = Vec::new(rt.alloc());
    for byte in text.as_bytes() {
        assert!(rt; list.len() < 99);
        list.push(u32::from(*byte).wrapping_sub(48))
            .expect(rt, MEMORY);
    }
    list
}

/// The lists of all persons.
fn lists(rt: &(impl Abort + AllocGlobal), text: &str) -> Vec<Vec<u32>>
    ensures { AreWithinLimits (rows_of result.items) }
{
    let mut lists = Vec::new(rt.alloc());
    for part in text.split('/') {
        assert!(rt; lists.len() < 99);
        lists.push(list(rt, part)).expect(rt, MEMORY);
    }
    lists
}

/// The roommates that have these lists.
pub fn roommates(rt: &(impl Abort + AllocGlobal), text: &str) -> RoomMarket {
    RoomMarket::build(rt.alloc(), lists(rt, text)).expect(rt, "roommates")
}

/// Persons, with `-` for nobody.
fn persons(rt: &(impl Abort + AllocGlobal), text: &str) -> Vec<Option<u32>> {
    let mut persons = Vec::new(rt.alloc());
    for byte in text.as_bytes() {
        let person = u32::from(*byte).wrapping_sub(48);
        persons
            .push((person < 10).then_some(person))
            .expect(rt, MEMORY);
    }
    persons
}

/// Makes sure of each person's successor and mate.
fn are_linked(
    rt: &impl Abort,
    market: &RoomMarket,
    partition: &Partition,
    wanted: &[u32],
    mates: &[Option<u32>],
    next: &str,
)
    requires partition { length partition.now.next ≡ length market.now }
    requires wanted { length wanted.now ≡ length market.now }
    requires mates { length mates.now ≡ length market.now }
{
    for x in 0..market.persons() {
        assert_eq!(rt; partition.next(x), wanted[x as usize], "{next}");
        assert_eq!(rt; partition.mate(x), mates[x as usize], "{next}");
    }
}

/// Makes sure of the successors, the mates and the lowest in an odd party.
fn is_partition(
    rt: &(impl Abort + AllocGlobal),
    market: &RoomMarket,
    partition: &Partition,
    next: &str,
    mates: &str,
    odd: Option<u32>,
)
    requires { length partition.now.next ≡ length market.now }
{
    let wanted = list(rt, next);
    let mates = persons(rt, mates);
    let rest = partition.rest_matching(rt.alloc()).expect(rt, MEMORY);
    assert!(rt; rest.as_slice() == mates.as_slice(), "{next}");
    assert_eq!(rt; partition.odd_party(), odd, "{next}");
    assert_eq!(rt; wanted.len(), market.persons() as usize, "{next}");
    assert_eq!(rt; rest.len(), market.persons() as usize, "{next}");
    are_linked(rt, market, partition, &wanted, &rest, next);
}

/// Makes sure of the stable partition by both phases.
fn parts_at_once(
    rt: &(impl Abort + AllocGlobal),
    market: &RoomMarket,
    next: &str,
    mates: &str,
    odd: Option<u32>,
) {
    let whole = stable_partition(rt.alloc(), market).expect(rt, MEMORY);
    is_partition(rt, market, &whole, next, mates, odd);
}

/// Makes sure of the stable partition by one phase after the other.
fn parts_by_phases(
    rt: &(impl Abort + AllocGlobal),
    market: &RoomMarket,
    next: &str,
    mates: &str,
    odd: Option<u32>,
) {
    let table = phase_one(rt.alloc(), market).expect(rt, MEMORY);
    let partition = phase_two(rt.alloc(), market, table).expect(rt, MEMORY);
    is_partition(rt, market, &partition, next, mates, odd);
}

/// Makes sure of the stable partition of these lists, once by both phases and once by one after the other.
fn parts(rt: &(impl Abort + AllocGlobal), text: &str, next: &str, mates: &str, odd: Option<u32>) {
    let market = roommates(rt, text);
    parts_at_once(rt, &market, next, mates, odd);
    parts_by_phases(rt, &market, next, mates, odd);
}

/// Makes sure of the lists of a table.
fn is_table(rt: &(impl Abort + AllocGlobal), market: &RoomMarket, table: &Table, text: &str)
    requires { IsGood market.now table.now }
{
    let wanted = lists(rt, text);
    assert_eq!(rt; wanted.len(), market.persons() as usize, "{text}");
    for x in 0..market.persons() {
        assert!(rt; table.list(x) == wanted[x as usize].as_slice(), "{text}");
    }
}

/// Makes sure that each of these lists makes no roommates, by the first fault.
fn refuses_lists(rt: &(impl Abort + AllocGlobal), rows: &[(&str, RoomFault)]) {
    for (text, fault) in rows {
        let refused = RoomMarket::build(rt.alloc(), lists(rt, text)).err();
        assert_eq!(rt; refused, Some(*fault), "{text}");
    }
}

#[test]
fn each_fault_of_lists(rt: HostRuntime) {
    refuses_lists(
        &rt,
        &[
            ("12/0", RoomFault::OutOfRange(0, 1)),
            ("1/0/011", RoomFault::Repeated(2, 2)),
            ("00/7", RoomFault::Repeated(0, 1)),
        ],
    );
}

#[test]
fn table_of_phase_one(rt: HostRuntime) {
    let market = roommates(&rt, "123/203/013/012");
    let table = phase_one(rt.alloc(), &market).expect(&rt, MEMORY);
    is_table(&rt, &market, &table, "12/20/01/");
}

#[test]
fn party_of_three(rt: HostRuntime) {
    parts(&rt, "123/203/013/012", "1203", "-21-", Some(0));
}

#[test]
fn party_of_four(rt: HostRuntime) {
    parts(&rt, "13/20/31/02", "1230", "1032", None);
}

#[test]
fn party_of_five_behind_a_cycle(rt: HostRuntime) {
    parts(&rt, "1234/2340/3401/4012/0123", "23401", "-3412", Some(0));
}

#[test]
fn alone_and_inert(rt: HostRuntime) {
    parts(&rt, "01/30//23", "1023", "10--", None);
    parts(&rt, "", "0", "-", None);
}
