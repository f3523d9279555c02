//! Instances and persons: each fault once, and what assignments of three residents are worth.

ghost use Rattle.std.specs.Prelude.{◌≡◌, ◌<◌, length};
ghost use Rattle.sm_instance.specs.Matching.{IsMatching};
ghost use Rattle.sm_holding.specs.Holding.{IsHolding};

use crate::made::{agent, copy, one, three, two};
use sm_holding::Holding;
use sm_instance::{Assignment, Input, Instance, InstanceFault, Kind, Measure, Persons, Side};
use std::process::Abort;

/// The residents a: k h, b: z h and c: h k, who doesn't stand on k's list; h has two places, k one and z none.
fn small_hospitals(rt: &(impl Abort + AllocGlobal)) -> Instance {
    let residents = three(
        rt,
        agent(rt, b'a', 1, &[1, 0]),
        agent(rt, b'b', 1, &[2, 0]),
        agent(rt, b'c', 1, &[0, 1]),
    );
    let hospitals = three(
        rt,
        agent(rt, b'h', 2, &[2, 0, 1]),
        agent(rt, b'k', 1, &[0]),
        agent(rt, b'z', 0, &[1]),
    );
    Instance::build(
        rt.alloc(),
        Kind::Hospitals,
        residents,
        hospitals,
        copy(rt, &[(0, 0, 4), (2, 0, -10)]),
        copy(rt, &[(0, 0)]),
        copy(rt, &[(1, 0)]),
    )
    .expect(rt, "an instance")
}

/// Places of the three residents, what is found of them, and what they are worth where they are a matching.
struct Row {
    places: [Option<u32>; 3],
    breach: Option<u32>,
    blocking: Option<(u32, u32)>,
    ranks: [u32; 3],
    regret: u32,
    weights: (i64, i64),
    allowed: bool,
}

/// Makes sure that there are three residents and three hospitals.
fn has_three_each(rt: &impl Abort, instance: &Instance)
    ensures proposers { length instance.now.proposers ≡ 3 }
    ensures reviewers { length instance.now.reviewers ≡ 3 }
{
    assert!(rt; instance.proposer_count() == 3);
    assert!(rt; instance.reviewer_count() == 3);
}

fn has_ranks(rt: &impl Abort, instance: &Instance, a: &Assignment, row: &Row)
    requires { IsMatching instance.now a.now.places.items }
{
    let mut ranks = [0; 3];
    assert!(rt; instance.proposer_count() == 3);
    instance.rank_vector(a, &mut ranks);
    assert!(rt; ranks == row.ranks);
    assert!(rt; instance.regret(a) == row.regret);
}

fn is_blocked(rt: &impl Abort, instance: &Instance, a: &Assignment, row: &Row)
    requires { IsMatching instance.now a.now.places.items }
{
    assert!(rt; instance.first_blocking(a) == row.blocking);
    has_three_each(rt, instance);
    assert!(rt; !instance.blocks(a, 1, 2));
}

fn weighs(rt: &impl Abort, instance: &Instance, a: &Assignment, row: &Row)
    requires { IsMatching instance.now a.now.places.items }
{
    assert!(rt; instance.weigh(a, Measure::Ranks) == row.weights.0);
    assert!(rt; instance.weigh(a, Measure::Given) == row.weights.1);
    assert!(rt; instance.weigh_second(a) == 0);
    assert!(rt; instance.allowed(a) == row.allowed);
}

fn matching_is_worth(rt: &impl Abort, instance: &Instance, a: &Assignment, row: &Row)
    requires { IsMatching instance.now a.now.places.items }
{
    has_ranks(rt, instance, a, row);
    is_blocked(rt, instance, a, row);
    weighs(rt, instance, a, row);
}

fn is_worth(rt: &(impl Abort + AllocGlobal), instance: &Instance, row: &Row) {
    let a = Assignment {
        places: copy(rt, &row.places),
    };
    assert!(rt; instance.is_assignment(&a));
    match instance.breach(&a) {
        None => matching_is_worth(rt, instance, &a, row),
        Some(p) => assert!(rt; row.breach == Some(p)),
    }
}

/// What resident c and the first two hospitals are to each other.
fn knows_its_pairs(rt: &impl Abort, instance: &Instance) {
    has_three_each(rt, instance);
    assert!(rt; !instance.acceptable(2, 1));
    assert!(rt; instance.acceptable(2, 0));
    assert!(rt; instance.place(2, 1) == Some(1));
}

/// How long the list of resident c is, and that an entry is inert.
fn knows_its_lists(rt: &impl Abort, instance: &Instance) {
    has_three_each(rt, instance);
    assert!(rt; instance.proposer_len(2) == 2);
    assert!(rt; instance.cross(2, 1).is_none());
}

/// A weight and a capacity.
fn knows_its_numbers(rt: &impl Abort, instance: &Instance) {
    has_three_each(rt, instance);
    assert!(rt; instance.weight(2, 0) == -10);
    assert!(rt; instance.capacity(2) == 0);
}

/// Makes sure where the first resident stands that can't be where it is.
fn breaks(rt: &(impl Abort + AllocGlobal), instance: &Instance, places: &[Option<u32>], p: u32) {
    let a = Assignment {
        places: copy(rt, places),
    };
    assert!(rt; instance.is_assignment(&a));
    assert!(rt; instance.breach(&a) == Some(p));
}

/// Adds a pair that can be held, and finds the first pair that blocks then.
fn adds(
    rt: &(impl Abort + AllocGlobal),
    instance: &Instance,
    holding: &mut Holding,
    pair: (u32, u32),
    blocking: Option<(u32, u32)>,
)
    requires held { IsHolding instance.now holding.old }
    requires proposer { pair.0 < length instance.now.proposers }
    requires reviewer { pair.1 < length instance.now.reviewers }
    ensures { IsHolding instance.now holding.new }
{
    if !holding.add(instance, pair.0, pair.1) {
        panic!(rt; "the pair can't be held");
    }
    assert!(rt; !holding.add(instance, pair.0, pair.1));
    blocks_first(rt, instance, holding, blocking);
}

/// Makes sure of the first pair that blocks what is held.
fn blocks_first(
    rt: &(impl Abort + AllocGlobal),
    instance: &Instance,
    holding: &Holding,
    blocking: Option<(u32, u32)>,
)
    requires { IsHolding instance.now holding.now }
{
    let found = holding
        .first_blocking(rt.alloc(), instance)
        .expect(rt, "memory");
    assert!(rt; found == blocking);
}

#[test]
fn pairs_that_are_held_block(rt: HostRuntime) {
    let instance = small_hospitals(&rt);
    has_three_each(&rt, &instance);
    let mut holding = Holding::none(rt.alloc(), &instance).expect(&rt, "memory");
    adds(&rt, &instance, &mut holding, (2, 0), Some((0, 1)));
    adds(&rt, &instance, &mut holding, (0, 1), Some((1, 0)));
    adds(&rt, &instance, &mut holding, (1, 0), None);
}

#[test]
fn small_hospitals_are_worth(rt: HostRuntime) {
    let instance = small_hospitals(&rt);
    knows_its_pairs(&rt, &instance);
    knows_its_lists(&rt, &instance);
    knows_its_numbers(&rt, &instance);
    are_worth(&rt, &instance);
    breaks(&rt, &instance, &[None, None, Some(1)], 2);
    breaks(&rt, &instance, &[Some(1), Some(1), Some(0)], 2);
    breaks(&rt, &instance, &[None, Some(0), None], 1);
}

/// What a stable matching and another one are worth.
pub(crate) fn are_worth(rt: &(impl Abort + AllocGlobal), instance: &Instance) {
    is_worth(
        rt,
        instance,
        &Row {
            places: [Some(0), Some(1), Some(0)],
            breach: None,
            blocking: None,
            ranks: [1, 2, 1],
            regret: 3,
            weights: (9, -10),
            allowed: false,
        },
    );
    is_worth(
        rt,
        instance,
        &Row {
            places: [Some(1), None, Some(0)],
            breach: None,
            blocking: Some((0, 1)),
            ranks: [2, 3, 1],
            regret: 2,
            weights: (6, -6),
            allowed: true,
        },
    );
}

/// A proposer m and the hospitals a and another: what may be wrong with them.
#[derive(Clone, Copy)]
struct Case {
    letter: u8,
    capacity: u32,
    list: [u32; 2],
    back: u32,
    weight: (u32, u32, i64),
    forbidden: (u32, u32),
}

const SOUND: Case = Case {
    letter: b'b',
    capacity: 1,
    list: [0, 1],
    back: 0,
    weight: (0, 1, 2),
    forbidden: (0, 1),
};

fn fault_of(rt: &(impl Abort + AllocGlobal), case: &Case) -> Option<InstanceFault> {
    let proposers = one(rt, agent(rt, b'm', 1, &case.list));
    let reviewers = two(
        rt,
        agent(rt, b'a', case.capacity, &[case.back]),
        agent(rt, case.letter, 1, &[0]),
    );
    Instance::build(
        rt.alloc(),
        Kind::Hospitals,
        proposers,
        reviewers,
        copy(rt, &[(0, 0, 1), case.weight]),
        copy(rt, &[(0, 0)]),
        copy(rt, &[case.forbidden]),
    )
    .err()
}

/// Makes sure what is wrong.
fn has_fault(rt: &(impl Abort + AllocGlobal), case: Case, fault: InstanceFault) {
    assert!(rt; fault_of(rt, &case) == Some(fault));
}

#[test]
fn each_fault_once(rt: HostRuntime) {
    assert!(rt; fault_of(&rt, &SOUND).is_none());
    agents_have_faults(&rt);
    entries_have_faults(&rt);
    pairs_have_faults(&rt);
}

fn agents_have_faults(rt: &(impl Abort + AllocGlobal)) {
    let twice = Case {
        letter: b'a',
        ..SOUND
    };
    has_fault(rt, twice, InstanceFault::BadAgent(Side::Reviewers, 1));
    let too_large = Case {
        capacity: 4_097,
        ..SOUND
    };
    has_fault(rt, too_large, InstanceFault::BadAgent(Side::Reviewers, 0));
}

fn entries_have_faults(rt: &(impl Abort + AllocGlobal)) {
    let bad_entry = InstanceFault::BadEntry(Side::Proposers, 0, 1);
    let twice = Case {
        list: [0, 0],
        ..SOUND
    };
    has_fault(rt, twice, bad_entry);
    let unknown = Case {
        list: [0, 2],
        ..SOUND
    };
    has_fault(rt, unknown, bad_entry);
    let back = Case { back: 1, ..SOUND };
    has_fault(rt, back, InstanceFault::BadEntry(Side::Reviewers, 0, 0));
}

fn pairs_have_faults(rt: &(impl Abort + AllocGlobal)) {
    let twice = Case {
        weight: (0, 0, 2),
        ..SOUND
    };
    has_fault(rt, twice, InstanceFault::BadPair(1));
    let too_heavy = Case {
        weight: (0, 1, 1_000_000_001),
        ..SOUND
    };
    has_fault(rt, too_heavy, InstanceFault::BadPair(1));
    let unknown = Case {
        forbidden: (0, 2),
        ..SOUND
    };
    has_fault(rt, unknown, InstanceFault::BadPair(3));
}

#[test]
fn an_order_and_second_weights(rt: HostRuntime) {
    let mut instance = small_hospitals(&rt);
    is_reordered(&rt, &mut instance);
    has_second_weights(&rt, &mut instance);
}

/// Makes sure that this is no order of the residents.
fn is_no_order(rt: &impl Abort, instance: &mut Instance, order: &[u32]) {
    assert!(rt; instance.reorder(order).err() == Some(InstanceFault::BadOrder));
}

fn is_reordered(rt: &impl Abort, instance: &mut Instance) {
    assert!(rt; instance.order() == [0, 1, 2].as_slice());
    is_no_order(rt, instance, &[2, 0]);
    is_no_order(rt, instance, &[2, 0, 2]);
    instance.reorder(&[2, 0, 1]).expect(rt, "an order");
    assert!(rt; instance.order() == [2, 0, 1].as_slice());
}

fn has_second_weights(rt: &(impl Abort + AllocGlobal), instance: &mut Instance) {
    assert!(rt; !instance.has_seconds());
    let unweighed = instance.add_seconds(copy(rt, &[(0, 1, 5)])).err();
    assert!(rt; unweighed == Some(InstanceFault::BadPair(0)));
    instance
        .add_seconds(copy(rt, &[(2, 0, 7)]))
        .expect(rt, "second weights");
    knows_second_weights(rt, instance);
}

fn knows_second_weights(rt: &impl Abort, instance: &Instance) {
    assert!(rt; instance.has_seconds());
    assert!(rt; instance.second(2, 0) == 7);
    assert!(rt; instance.second(0, 0) == 0);
}

/// Two persons, of whom the first lists itself.
fn persons(rt: &(impl Abort + AllocGlobal), second: u8) -> Result<Persons, InstanceFault> {
    let both = two(rt, agent(rt, b'x', 1, &[1, 0]), agent(rt, second, 1, &[0]));
    Persons::build(rt.alloc(), both)
}

/// Makes sure of the numbers of the left and of the right agent with this name.
fn finds(rt: &impl Abort, input: &Input, name: &[u8], left: Option<u32>, right: Option<u32>) {
    assert!(rt; input.find_left(name) == left);
    assert!(rt; input.find_right(name) == right);
}

#[test]
fn agents_are_found_by_name(rt: HostRuntime) {
    let twice = persons(&rt, b'x').err();
    assert!(rt; twice == Some(InstanceFault::BadAgent(Side::Proposers, 1)));
    persons_are_found(&rt);
    hospitals_are_found(&rt);
}

fn persons_are_found(rt: &(impl Abort + AllocGlobal)) {
    let input = Input::Room(persons(rt, b'y').expect(rt, "persons"));
    assert!(rt; input.kind() == Kind::Roommates);
    finds(rt, &input, b"y", Some(1), Some(1));
    finds(rt, &input, b"z", None, None);
}

fn hospitals_are_found(rt: &(impl Abort + AllocGlobal)) {
    let input = Input::Two(small_hospitals(rt));
    assert!(rt; input.kind() == Kind::Hospitals);
    finds(rt, &input, b"c", Some(2), None);
    finds(rt, &input, b"h", None, Some(0));
}
