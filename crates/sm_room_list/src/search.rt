//! The next rank vector behind one: the deepest person whose rank can be greater with all before it as they are, and then the
//! least ranks of those behind.

ghost use Rattle.std.specs.Prelude.{◌≡◌, ℕ, ◌+◌, ◌<◌, ◌≤◌, ◌⊎◌, true, false, List, length, slice_index, slice_index_or, IfOk, OnOk, MatchOption, IsTrue};
ghost use Rattle.sm_lists.specs.Rows.{row};
ghost use Rattle.sm_lists.specs.Orders.{AreAlikeBelow};
ghost use Rattle.sm_room_list.specs.RoomVectors.{IsRoomVector};
ghost use Rattle.sm_room_list.specs.Tops.{AreTops, IsVectorWithin};
ghost use Rattle.sm_room_list.specs.Search.{NoneAt, HoldAlike, HoldAbove, IsHeld, IsLeastWithin, IsSettledAt};

use crate::finding::vector_within;
use crate::tops::Tops;
use sm_room::RoomMarket;
use std::alloc::{AllocError, Global};

/// Tops, and the rank vector of a stable matching within them; the ranks of all persons before `from` are settled.
#[derive(Debug, Drop)]
pub(crate) struct Found {
    pub(crate) from: u32,
    pub(crate) tops: Tops,
    pub(crate) vector: Vec<u32>,
}

impl Found {
    /// A person's rank.
    fn rank(&self, x: u32) -> u32
        requires { x < length self.now.vector.items }
        ensures { result ≡ slice_index self.now.vector.items x }
    {
        self.vector[x as usize]
    }
}

/// The rank vector of a stable matching above a vector at the deepest person at which there is one.
pub(crate) fn find_above(
    alloc: Global,
    market: &RoomMarket,
    root: &Tops,
    last: &[u32],
) -> Result<Option<Found>, AllocError>
    requires vector { length last.now ≡ length market.now }
    requires tops { AreTops market.now root.now.tops.items root.now.passed.items }
    requires all { HoldAlike market.now last.now 0 root.now.tops.items }
    ensures { IfOk result (λ found. MatchOption found
        ((j : ℕ) → j < length market.now → NoneAt market.now last.now j)
        (λ f. (f.from < length market.now) × IsHeld market.now f.tops.tops.items f.tops.passed.items
        f.vector.items
        × HoldAbove market.now last.now f.from f.tops.tops.items × ((j : ℕ) → f.from < j → j
        < length market.now
        → NoneAt market.now last.now j))) }
{
    let persons = market.persons();
    let risers = find_risers(alloc, market, root, last)?;
    for back in 0..persons {
        let k = persons - 1 - back;
        let riser = is_riser(&risers, k);
        let Some(found) = find_at(alloc, market, root, last, k, riser)? else {
            continue;
        };
        return Ok(Some(found));
    }
    Ok(None)
}

/// The rank vector of a stable matching above a vector at a person. It isn't looked for where `riser` says that none can be.
fn find_at(
    alloc: Global,
    market: &RoomMarket,
    root: &Tops,
    last: &[u32],
    k: u32,
    riser: bool,
) -> Result<Option<Found>, AllocError>
    requires in_range { k < length market.now }
    requires vector { length last.now ≡ length market.now }
    requires tops { AreTops market.now root.now.tops.items root.now.passed.items }
    requires all { HoldAlike market.now last.now 0 root.now.tops.items }
    requires riser { riser ≡ false → NoneAt market.now last.now k }
    ensures { IfOk result (λ found. MatchOption found (NoneAt market.now last.now k)
        (λ f. (f.from ≡ k) × IsHeld market.now f.tops.tops.items f.tops.passed.items f.vector.items
        × HoldAbove market.now last.now f.from f.tops.tops.items)) }
{
    if !riser {
        return Ok(None);
    }
    let mut tops = root.copied(alloc)?;
    if !go_above(market, last, k, &mut tops) {
        return Ok(None);
    }
    let Some(vector) = vector_within(alloc, market, &tops)? else {
        return Ok(None);
    };
    Ok(Some(Found {
        from: k,
        tops,
        vector,
    }))
}

/// For each person whether its rank may be greater than in a vector, with all before it as they are.
fn find_risers(
    alloc: Global,
    market: &RoomMarket,
    root: &Tops,
    last: &[u32],
) -> Result<Vec<bool>, AllocError>
    requires vector { length last.now ≡ length market.now }
    requires tops { AreTops market.now root.now.tops.items root.now.passed.items }
    requires all { HoldAlike market.now last.now 0 root.now.tops.items }
    ensures one_each { IfOk result (λ risers. length risers.items ≡ length market.now) }
    ensures shut { IfOk result (λ risers. (j : ℕ) → j < length market.now
        → slice_index_or risers.items j false ≡ false → NoneAt market.now last.now j) }
{
    let mut tops = root.copied(alloc)?;
    let mut risers = vec![in alloc; false; market.persons() as usize]?;
    note_risers(market, last, &mut tops, risers.as_mut_slice());
    Ok(risers)
}

/// What was noted of a person.
fn is_riser(risers: &[bool], k: u32) -> bool
    requires { k < length risers.now }
    ensures { result ≡ slice_index_or risers.now k false }
{
    risers[k as usize]
}

/// Notes for each person whether its rank may be greater than in a vector, with all before it as they are.
fn note_risers(market: &RoomMarket, last: &[u32], tops: &mut Tops, risers: &mut [bool])
    requires vector { length last.now ≡ length market.now }
    requires tops { AreTops market.now tops.old.tops.items tops.old.passed.items }
    requires all { HoldAlike market.now last.now 0 tops.old.tops.items }
    requires one_each { length risers.old ≡ length market.now }
    ensures one_each { length risers.new ≡ length market.now }
    ensures shut { (j : ℕ) → j < length market.now → slice_index_or risers.new j false ≡ false
        → NoneAt market.now last.now j }
{
    for k in 0..market.persons() {
        let top = tops.top(k);
        let may = last[k as usize] < top;
        risers[k as usize] = may;
        if !follow(market, last, k, tops) {
            return;
        }
    }
}

/// Makes the tops hold those stable matchings whose rank vector is above a vector at a person; false where it finds that there
/// are none.
fn go_above(market: &RoomMarket, last: &[u32], k: u32, tops: &mut Tops) -> bool
    requires in_range { k < length market.now }
    requires vector { length last.now ≡ length market.now }
    requires tops { AreTops market.now tops.old.tops.items tops.old.passed.items }
    requires all { HoldAlike market.now last.now 0 tops.old.tops.items }
    ensures tops { AreTops market.now tops.new.tops.items tops.new.passed.items }
    ensures above { result ≡ true → HoldAbove market.now last.now k tops.new.tops.items }
    ensures none { result ≡ false → NoneAt market.now last.now k }
{
    for j in 0..k {
        if !follow(market, last, j, tops) {
            return false;
        }
    }
    let least = last[k as usize];
    let top = tops.top(k);
    if least >= top {
        return false;
    }
    tops.raise(market, k, least);
    true
}

/// Makes a person's rank that of a vector; false where it finds that it can't be that.
fn follow(market: &RoomMarket, last: &[u32], k: u32, tops: &mut Tops) -> bool
    requires in_range { k < length market.now }
    requires vector { length last.now ≡ length market.now }
    requires tops { AreTops market.now tops.old.tops.items tops.old.passed.items }
    requires alike { HoldAlike market.now last.now k tops.old.tops.items }
    ensures tops { AreTops market.now tops.new.tops.items tops.new.passed.items }
    ensures alike { result ≡ true → HoldAlike market.now last.now (k + 1) tops.new.tops.items }
    ensures none { result ≡ false → (w : List ℕ) → IsRoomVector market.now w
        → ¬ AreAlikeBelow (k + 1) last.now w }
{
    let rank = last[k as usize];
    let passed = tops.passed(k);
    if rank <= passed {
        return false;
    }
    let top = tops.top(k);
    if rank > top {
        return false;
    }
    tops.fix(market, k, rank);
    true
}

/// The least rank vector within tops, from one of them: persons before `from` have the same ranks in all.
pub(crate) fn least_within(
    alloc: Global,
    market: &RoomMarket,
    found: Found,
) -> Result<Vec<u32>, AllocError>
    requires in_range { found.from ≤ length market.now }
    requires held { IsHeld market.now found.tops.tops.items found.tops.passed.items
        found.vector.items }
    requires alike { (w : List ℕ) → IsVectorWithin market.now found.tops.tops.items w
        → AreAlikeBelow found.from found.vector.items w }
    ensures { IfOk result (λ v. IsLeastWithin market.now found.tops.tops.items v.items) }
{
    let mut held = found;
    for x in held.from..market.persons() {
        settle_rank(alloc, market, x, &mut held)?;
    }
    Ok(held.vector)
}

/// Makes a person's rank the least that it has in the stable matchings within the tops.
fn settle_rank(
    alloc: Global,
    market: &RoomMarket,
    x: u32,
    held: &mut Found,
) -> Result<(), AllocError>
    requires in_range { x < length market.now }
    requires held { IsHeld market.now held.old.tops.tops.items held.old.tops.passed.items
        held.old.vector.items }
    ensures held { OnOk result (IsHeld market.now held.new.tops.tops.items
        held.new.tops.passed.items
        held.new.vector.items) }
    ensures settled { OnOk result (IsSettledAt market.now x held.old.tops.tops.items
        held.new.tops.tops.items
        held.new.vector.items) }
{
    lower_rank(alloc, market, x, held)?;
    let rank = held.rank(x);
    held.tops.fix(market, x, rank);
    Ok(())
}

/// Finds a stable matching within the tops in which a person's rank is the least.
fn lower_rank(
    alloc: Global,
    market: &RoomMarket,
    x: u32,
    held: &mut Found,
) -> Result<(), AllocError>
    requires in_range { x < length market.now }
    requires held { IsHeld market.now held.old.tops.tops.items held.old.tops.passed.items
        held.old.vector.items }
    ensures held { OnOk result (IsHeld market.now held.new.tops.tops.items
        held.new.tops.passed.items
        held.new.vector.items) }
    ensures lower { OnOk result ((w : List ℕ)
        → IsVectorWithin market.now held.new.tops.tops.items w
        → IsVectorWithin market.now held.old.tops.tops.items w) }
    ensures all { OnOk result ((w : List ℕ) → IsVectorWithin market.now held.old.tops.tops.items w
        → IsVectorWithin market.now held.new.tops.tops.items w ⊎ (slice_index held.new.vector.items x
        < slice_index w x)) }
    ensures least { OnOk result ((w : List ℕ)
        → IsVectorWithin market.now held.new.tops.tops.items w → slice_index held.new.vector.items x
        ≤ slice_index w x) }
{
    let start = held.tops.passed(x);
    let mut known = start;
    'ranks: while held.rank(x) - known > 1 {
        let rank = held.rank(x);
        let top = guess(start, known, rank);
        let found = try_top(alloc, market, x, top, held)?;
        known = known_after(found, known, top);
    }
    Ok(())
}

/// The rank that is tried: the first that is open, and then whether there is a lower one at all.
fn guess(start: u32, known: u32, rank: u32) -> u32
    requires { known + 1 < rank }
    ensures above { known < result }
    ensures below { result < rank }
{
    if known == start {
        return known + 1;
    }
    rank - 1
}

/// Up to which rank there is none, once one up to `top` was looked for.
fn known_after(found: bool, known: u32, top: u32) -> u32
    ensures found { found ≡ true → result ≡ known }
    ensures none { found ≡ false → result ≡ top }
{
    if found {
        return known;
    }
    top
}

/// Looks for a stable matching within the tops in which a person's rank is at most `top`. Where there is none nothing changes.
fn try_top(
    alloc: Global,
    market: &RoomMarket,
    x: u32,
    top: u32,
    held: &mut Found,
) -> Result<bool, AllocError>
    requires in_range { x < length market.now }
    requires held { IsHeld market.now held.old.tops.tops.items held.old.tops.passed.items
        held.old.vector.items }
    ensures held { OnOk result (IsHeld market.now held.new.tops.tops.items
        held.new.tops.passed.items
        held.new.vector.items) }
    ensures lower { OnOk result ((w : List ℕ)
        → IsVectorWithin market.now held.new.tops.tops.items w
        → IsVectorWithin market.now held.old.tops.tops.items w) }
    ensures all { OnOk result ((w : List ℕ) → IsVectorWithin market.now held.old.tops.tops.items w
        → IsVectorWithin market.now held.new.tops.tops.items w ⊎ (top < slice_index w x)) }
    ensures found { IfOk result (λ found. found ≡ true → slice_index held.new.vector.items x
        ≤ top) }
    ensures none { IfOk result (λ found. found ≡ false → (held.new ≡ held.old) × ((w : List ℕ)
        → IsVectorWithin market.now held.old.tops.tops.items w → top < slice_index w x)) }
{
    let mut tops = held.tops.copied(alloc)?;
    tops.cap(market, x, top);
    let Some(vector) = vector_within(alloc, market, &tops)? else {
        return Ok(false);
    };
    held.tops = tops;
    held.vector = vector;
    Ok(true)
}
