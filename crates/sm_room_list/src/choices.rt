//! A rank vector that is tried before the test: those who choose have the first that they could have.
//!
//! Where persons fall into two sides within tops, as proposers and reviewers do, the ranks that one side chooses are those of a
//! stable matching. So the lowest person chooses; whom it chooses has who chose it, and all others that it could have choose too.
//! Elsewhere the ranks may be those of no stable matching, which is found by looking once through the lists.

ghost use Rattle.std.specs.Prelude.{◌≡◌, ℕ, ◌+◌, ◌<◌, ◌≤◌, length, slice_index, IfOk, OnOk, IfSome, IsTrue};
ghost use Rattle.sm_lists.specs.Rows.{row};
ghost use Rattle.sm_room_list.specs.Tops.{AreTops, IsVectorWithin};
ghost use Rattle.sm_room_list.specs.Choices.{AreChoices, HasFirstOpen};

use crate::tops::{Tops, is_open, open_tops};
use sm_room::RoomMarket;
use std::alloc::{AllocError, Global};

/// The ranks that are chosen, one more than the list is long for who has nobody yet; who has been met; and who has still to
/// choose.
#[derive(Drop)]
struct Choices {
    ranks: Vec<u32>,
    met: Vec<bool>,
    waiting: Vec<u32>,
}

impl Choices {
    /// Nobody has been met.
    fn start(alloc: Global, market: &RoomMarket) -> Result<Choices, AllocError>
        ensures { IfOk result (λ c. AreChoices market.now c.ranks.items c.met.items c.waiting.items) }
    {
        let persons = market.persons() as usize;
        let mut ranks = vec![in alloc; 0; persons]?;
        open_tops(market, ranks.as_mut_slice());
        let met = vec![in alloc; false; persons]?;
        let waiting = Vec::with_capacity(alloc, persons)?;
        Ok(Choices {
            ranks,
            met,
            waiting,
        })
    }

    /// Lets a person wait for its choice, unless it has been met.
    fn meet(&mut self, market: &RoomMarket, x: u32) -> Result<(), AllocError>
        requires in_range { x < length market.now }
        requires choices { AreChoices market.now self.old.ranks.items self.old.met.items
            self.old.waiting.items }
        ensures { OnOk result (AreChoices market.now self.new.ranks.items self.new.met.items
            self.new.waiting.items) }
    {
        if self.met[x as usize] {
            return Ok(());
        }
        self.met[x as usize] = true;
        self.waiting.push(x)?;
        Ok(())
    }

    /// Whoever came last of those who wait.
    fn next(&mut self, market: &RoomMarket) -> Option<u32>
        requires { AreChoices market.now self.old.ranks.items self.old.met.items
            self.old.waiting.items }
        ensures choices { AreChoices market.now self.new.ranks.items self.new.met.items
            self.new.waiting.items }
        ensures in_range { IfSome result (λ x. x < length market.now) }
    {
        let _persons = market.persons();
        self.waiting.pop()
    }

    /// Gives a person the first that it could have. Whom else that one could have waits for its own choice.
    fn choose(&mut self, market: &RoomMarket, tops: &Tops, x: u32) -> Result<(), AllocError>
        requires in_range { x < length market.now }
        requires tops { AreTops market.now tops.now.tops.items tops.now.passed.items }
        requires choices { AreChoices market.now self.old.ranks.items self.old.met.items
            self.old.waiting.items }
        ensures { OnOk result (AreChoices market.now self.new.ranks.items self.new.met.items
            self.new.waiting.items) }
    {
        let place = tops.passed(x);
        if place >= market.len(x) {
            return Ok(());
        }
        let y = market.at(x, place);
        let cross = market.cross(x, place);
        self.set(market, x, place);
        self.set(market, y, cross);
        self.meet_all(market, tops, y)?;
        Ok(())
    }

    /// Gives a person the rank of a place.
    fn set(&mut self, market: &RoomMarket, x: u32, place: u32)
        requires in_range { x < length market.now }
        requires on_list { place ≤ length (row market.now x) }
        requires choices { AreChoices market.now self.old.ranks.items self.old.met.items
            self.old.waiting.items }
        ensures { AreChoices market.now self.new.ranks.items self.new.met.items
            self.new.waiting.items }
    {
        let _len = market.len(x);
        self.ranks[x as usize] = place + 1;
        self.met[x as usize] = true;
    }

    /// Lets all wait that a person could have.
    fn meet_all(&mut self, market: &RoomMarket, tops: &Tops, y: u32) -> Result<(), AllocError>
        requires in_range { y < length market.now }
        requires tops { AreTops market.now tops.now.tops.items tops.now.passed.items }
        requires choices { AreChoices market.now self.old.ranks.items self.old.met.items
            self.old.waiting.items }
        ensures { OnOk result (AreChoices market.now self.new.ranks.items self.new.met.items
            self.new.waiting.items) }
    {
        for place in tops.passed(y)..market.len(y) {
            if is_open(market, y, place, &tops.tops) {
                self.meet(market, market.at(y, place))?;
            }
        }
        Ok(())
    }

    /// Lets all who wait choose.
    fn settle(&mut self, market: &RoomMarket, tops: &Tops) -> Result<(), AllocError>
        requires tops { AreTops market.now tops.now.tops.items tops.now.passed.items }
        requires choices { AreChoices market.now self.old.ranks.items self.old.met.items
            self.old.waiting.items }
        ensures { OnOk result (AreChoices market.now self.new.ranks.items self.new.met.items
            self.new.waiting.items) }
    {
        'turns: for _ in 0..market.persons() {
            let Some(x) = self.next(market) else {
                return Ok(());
            };
            self.choose(market, tops, x)?;
        }
        Ok(())
    }
}

/// The ranks that persons choose.
pub(crate) fn chosen(
    alloc: Global,
    market: &RoomMarket,
    tops: &Tops,
) -> Result<Vec<u32>, AllocError>
    requires { AreTops market.now tops.now.tops.items tops.now.passed.items }
    ensures { IfOk result (λ ranks. length ranks.items ≡ length market.now) }
{
    let mut choices = Choices::start(alloc, market)?;
    for x in 0..market.persons() {
        choices.meet(market, x)?;
        choices.settle(market, tops)?;
    }
    Ok(choices.ranks)
}

/// Whether ranks are those of a stable matching within tops: each person's is that of the first place that is open within the
/// ranks themselves.
pub(crate) fn are_ranks_within(market: &RoomMarket, tops: &[u32], ranks: &[u32]) -> bool
    requires top_each { length tops.now ≡ length market.now }
    requires one_each { length ranks.now ≡ length market.now }
    ensures { IsTrue result → IsVectorWithin market.now tops.now ranks.now }
{
    for x in 0..market.persons() {
        if ranks[x as usize] > tops[x as usize] || !has_first_open(market, ranks, x) {
            return false;
        }
    }
    true
}

/// Whether a person's rank is that of the first place that is open within ranks, or one more than the list is long where none
/// is.
fn has_first_open(market: &RoomMarket, ranks: &[u32], x: u32) -> bool
    requires in_range { x < length market.now }
    requires one_each { length ranks.now ≡ length market.now }
    ensures { IsTrue result → HasFirstOpen market.now ranks.now x }
{
    for place in 0..market.len(x) {
        if is_open(market, x, place, ranks) {
            return ranks[x as usize] == place + 1;
        }
    }
    ranks[x as usize] == market.len(x) + 1
}
