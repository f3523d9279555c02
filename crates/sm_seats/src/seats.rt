//! Seats, and matchings of them.

ghost use Rattle.std.specs.Prelude.{◌≡◌, ◌+◌, ◌<◌, length, slice_index_or, unwrap_or, IfOk, IfErr, OnOk, MatchOption};
ghost use Rattle.sm_agents.specs.Written.{Written, lists_of};
ghost use Rattle.sm_agents.specs.Sound.{IsInstance};
ghost use Rattle.std.specs.Option.{option_map};
ghost use Rattle.sm_instance.specs.Matching.{IsMatching};
ghost use Rattle.sm_instance.specs.Crosses.{AreCrossesOf, crosses_lent};
ghost use Rattle.sm_market.specs.Lists.{row};
ghost use Rattle.sm_market.specs.Matching.{held};
ghost use Rattle.sm_market.specs.Pairing.{IsPairingOf};
ghost use Rattle.sm_market.specs.Vectors.{rows_of};
ghost use Rattle.sm_seats.specs.SeatMarket.{seats_of};
ghost use Rattle.sm_seats.specs.SeatEntries.{AreFewSeats, IsSeatsFault};
ghost use Rattle.sm_seats.specs.Seating.{seating_of, written_place, written_of, levels_at, levels_of};
ghost use Rattle.sm_seats.specs.Taken.{places_taken};
ghost use Rattle.sm_seats.specs.Correspondence.{IsSeating};
ghost use Rattle.sm_seats.specs.Counted.{AreSeatCounts, AreEntryCounts, first_seats_of};
ghost use Rattle.sm_seats.specs.Plain.{IsPlain};
ghost use Rattle.sm_seats.specs.Tables.{seat_places_of};
ghost use Rattle.sm_seats.specs.ProposerRows.{seat_rows_of, cross_rows_of};
ghost use Rattle.sm_seats.specs.ReviewerRows.{seat_lists_before, seat_crosses_before};

use crate::counts::{SeatCounts, seat_counts};
use crate::crossed_instance::CrossedInstance;
use crate::entry_counts::{EntryCounts, entry_counts};
use crate::faults::SeatsFault;
use crate::levels::{levels_between, levels_up_to, place_on};
use crate::places::{mutual_places, seat_places, written_entries};
use crate::plain::{is_plain, plain_proposers, plain_seats};
use crate::proposer_rows::{ProposerRows, proposer_rows};
use crate::reviewer_rows::{ReviewerRows, reviewer_rows};
use crate::taking::taken_places;
use crate::written_lists::WrittenLists;
use sm_instance::{Assignment, Instance, LentCrosses};
use sm_lists::{CrossPlaces, Rows};
use sm_market::{Market, Pairing};
use std::alloc::{AllocError, Global};
use std::marker::Model;
use std::rc::Rc;
use std::snapshot::Snapshot;

/// The seats of an instance with the market of them.
///
/// A reviewer has as many seats as places, but no more than acceptable proposers; one without any has no seat. Each seat has
/// its reviewer's list without inert entries, and a proposer lists the seats of a reviewer in the reviewer's place, in their
/// order. Seats are numbered from 0 through all reviewers. It takes memory in proportion to the entries of the instance and
/// to the entries on the lists of the seats, and others may keep the market too.
///
/// Contracts also see in it the instance of which it was made, with all lists and capacities. Memory holds of these only what
/// the calls read.
#[derive(Drop)]
#[derive_where(Debug)]
pub struct Seats {
    #[derive_where(skip)]
    written: Snapshot<Instance>,
    lists: WrittenLists,
    /// Where the seats of each reviewer begin on the proposers' lists of seats, where these aren't the written lists.
    begins: Option<Rows>,
    market: Rc<Market>,
    seats: Vec<(u32, u32)>,
}

impl Model for Seats {
    ghost use Rattle.sm_seats.specs.Seating.{Seating};
    ghost use Rattle.sm_seats.specs.Kept.{IsKeptWith};

    ghost Value = { Seating };

    ghost view = { λ s. record { written = s.written.value; lists = s.lists; market = s.market.value; seats = s.seats.items } };

    ghost invariant = { λ s. IsKeptWith s.begins (record { written = s.written.value; lists = s.lists; market = s.market.value; seats = s.seats.items }) };
}

impl Seats {
    /// The seats of an instance, and the market of them.
    ///
    /// Takes time and memory in proportion to the entries of the instance and to those on the lists of the seats.
    ///
    /// # Errors
    ///
    /// `TooManySeats` with the first reviewer, numbered from 0 in the order of the file, with whom the lists of the seats
    /// have more than 1,048,576 entries, and only then: each reviewer adds the product of its seats and its acceptable
    /// proposers. `OutOfMemory` where memory ran out, and only then.
    pub fn of(alloc: Global, instance: &Instance) -> Result<Seats, SeatsFault>
        ensures instance { IsInstance instance.now }
        ensures seats { IfOk result (λ seats. seats ≡ seating_of instance.now) }
        ensures seating { IfOk result (λ seats. IsSeating instance.now seats) }
        ensures few { OnOk result (AreFewSeats instance.now) }
        ensures fault { IfErr result (λ f. IsSeatsFault instance.now f) }
    {
        let counts = seat_counts(alloc, instance)?;
        Ok(Seats::counted(alloc, instance, &counts)?)
    }

    /// The same, by what [`seat_counts`] counted of the instance. Takes time and memory as [`Seats::of`] does.
    ///
    /// # Errors
    ///
    /// `AllocError` where memory ran out, and only then.
    pub fn counted(
        alloc: Global,
        instance: &Instance,
        counts: &SeatCounts,
    ) -> Result<Seats, AllocError>
        requires counts { AreSeatCounts instance.now counts.now }
        requires few { AreFewSeats instance.now }
        ensures seats { IfOk result (λ seats. seats ≡ seating_of instance.now) }
        ensures seating { IfOk result (λ seats. IsSeating instance.now seats) }
    {
        let crosses = instance.crosses(alloc)?;
        let crossed = CrossedInstance::of(instance, crosses.get());
        match seats_unless_plain(alloc, &crossed, &counts.firsts) {
            Ok(None) => plain_market_seats(alloc, instance, crosses),
            Ok(Some(seats)) => {
                drop(crosses);
                Ok(seats)
            }
            Err(fault) => {
                drop(crosses);
                Err(fault)
            }
        }
    }

    /// The market of the seats: its proposers are those of the instance, and its reviewers the seats, both from 0. Its lists
    /// have acceptable entries alone. Takes constant time.
    pub fn market(&self) -> &Market
        ensures { result.now ≡ self.now.market }
    {
        self.market.as_ref()
    }

    /// The market of the seats for one more keeper: nothing is copied. Takes constant time.
    ///
    /// # Errors
    ///
    /// `AllocError` where there are too many keepers, and only then.
    pub fn shared_market(&self) -> Result<Rc<Market>, AllocError>
        ensures { IfOk result (λ market. market.value ≡ self.now.market) }
    {
        Ok(self.market.clone()?)
    }

    /// The reviewer, from 0, of a seat of the market, and the number of the seat there, from 1. Takes constant time.
    pub fn seat(&self, at: u32) -> (u32, u32)
        requires { at < length self.now.seats }
        ensures { result ≡ slice_index_or self.now.seats at (0, 0) }
    {
        self.seats[at as usize]
    }

    /// The level of a place, from 0, of a proposer's list of seats: the rank, from 1, of the seat's reviewer on the proposer's
    /// written list. Takes time in proportion to the rank.
    pub fn level(&self, p: u32, place: u32) -> u32
        requires in_range { p < length self.now.market.proposers }
        requires on_list { place < length (row self.now.market.proposers p) }
        ensures { result ≡ written_place self.now p place + 1 }
    {
        let (r, _) = self.seats[self.market.as_ref().reviewer_at(p, place) as usize];
        place_on(self.lists.at(p), r) + 1
    }

    /// For each proposer the levels of its places, followed by that of being unmatched, which is one more than the length
    /// of its written list. Takes time and memory in proportion to the entries on the proposers' written lists and to those
    /// on their lists of seats.
    ///
    /// # Errors
    ///
    /// `AllocError` where memory ran out, and only then.
    pub fn levels(&self, alloc: Global) -> Result<Vec<Vec<u32>>, AllocError>
        ensures { IfOk result (λ levels. rows_of levels.items ≡ levels_of self.now) }
    {
        let proposers = self.market.as_ref().proposers();
        let mut levels = Vec::with_capacity(alloc, proposers as usize)?;
        for p in 0..proposers {
            levels.push(self.levels_at(alloc, p)?)?;
        }
        Ok(levels)
    }

    /// The levels of one proposer.
    fn levels_at(&self, alloc: Global, p: u32) -> Result<Vec<u32>, AllocError>
        requires { p < length self.now.market.proposers }
        ensures { IfOk result (λ levels. levels.items ≡ levels_at self.now p) }
    {
        match &self.begins {
            Some(begins) => levels_between(alloc, begins.at(p)),
            None => levels_up_to(alloc, self.market.as_ref().proposer_len(p)),
        }
    }

    /// The assignment in which each proposer has the reviewer of its seat. Takes memory in proportion to the proposers, and
    /// time in proportion to them and the ranks of these reviewers.
    ///
    /// # Errors
    ///
    /// `AllocError` where memory ran out, and only then.
    pub fn to_hospitals(&self, alloc: Global, m: &Pairing) -> Result<Assignment, AllocError>
        requires { IsPairingOf self.now.market m.now }
        ensures { IfOk result (λ a. a.places.items ≡ written_of self.now m.now.places.proposers) }
    {
        let proposers = self.market.as_ref().proposers();
        let mut places = Vec::with_capacity(alloc, proposers as usize)?;
        for p in 0..proposers {
            places.push(self.written_place(m, p))?;
        }
        Ok(Assignment { places })
    }

    /// The place on its written list that a proposer holds by its seat.
    fn written_place(&self, m: &Pairing, p: u32) -> Option<u32>
        requires pairing { IsPairingOf self.now.market m.now }
        requires in_range { p < length self.now.market.proposers }
        ensures { result ≡ option_map (written_place self.now p) (held m.now.places.proposers p) }
    {
        match m.place(p) {
            Some(place) => Some(self.level(p, place) - 1),
            None => None,
        }
    }

    /// The pairing in which each reviewer's proposers sit in its order of preference, from its first seat on. The
    /// assignment has to be a matching of the instance of which these are the seats: one item for each proposer, each place on
    /// its written list, and no breach. Takes time and memory in proportion to the agents and entries of the market.
    ///
    /// # Errors
    ///
    /// `AllocError` where memory ran out, and only then.
    pub fn to_seats(&self, alloc: Global, a: &Assignment) -> Result<Pairing, AllocError>
        requires { IsMatching self.now.written a.now.places.items }
        ensures pairing { IfOk result (λ m. IsPairingOf self.now.market m) }
        ensures places { IfOk result (λ m. m.places.proposers
            ≡ places_taken self.now.written a.now.places.items) }
    {
        let market = self.market.as_ref();
        let places = self.places_taken(alloc, a)?;
        Pairing::held(alloc, market, &places)
    }

    /// The places that the proposers take so.
    fn places_taken(&self, alloc: Global, a: &Assignment) -> Result<Vec<Option<u32>>, AllocError>
        ghost written: { Written }
        requires instance { IsInstance written }
        requires seats { self.now ≡ seating_of written }
        requires matching { IsMatching written a.now.places.items }
        ensures { IfOk result (λ places. places.items ≡ places_taken written a.now.places.items) }
    {
        taken_places(alloc, &self.lists, self.market.as_ref(), &self.seats, a)
    }
}

/// The seats of an instance, by its first seats; `None` where each reviewer has one seat and no entry is inert.
fn seats_unless_plain(
    alloc: Global,
    instance: &CrossedInstance<'_>,
    firsts: &[u32],
) -> Result<Option<Seats>, AllocError>
    requires firsts { firsts.now ≡ first_seats_of instance.now }
    requires few { AreFewSeats instance.now }
    ensures seats { IfOk result (λ found. MatchOption found (IsPlain instance.now)
        (λ seats. seats ≡ seating_of instance.now)) }
    ensures seating { IfOk result (λ found. MatchOption found (Unit {0})
        (λ seats. IsSeating instance.now seats)) }
{
    let counts = entry_counts(alloc, instance, firsts)?;
    if is_plain(instance, &counts) {
        drop(counts);
        return Ok(None);
    }
    let seats = seats_of_counts(alloc, instance, &counts);
    drop(counts);
    Ok(Some(seats?))
}

/// The seats of an instance in which each reviewer has one seat and no entry is inert. The cross places are those of the
/// instance.
fn plain_market_seats(
    alloc: Global,
    instance: &Instance,
    crosses: LentCrosses<'_>,
) -> Result<Seats, AllocError>
    requires plain { IsPlain instance.now }
    requires few { AreFewSeats instance.now }
    requires crosses { AreCrossesOf instance.now.proposers instance.now.reviewers
        (crosses_lent crosses) }
    ensures seats { IfOk result (λ seats. seats ≡ seating_of instance.now) }
    ensures seating { IfOk result (λ seats. IsSeating instance.now seats) }
{
    let CrossPlaces { rows, others } = crosses.into_sides(alloc)?;
    let proposers = plain_proposers(alloc, instance, rows)?;
    let reviewers = plain_seats(alloc, instance, others)?;
    seats_held(alloc, instance, None, None, proposers, reviewers)
}

/// The seats of any instance, by what is counted of them.
fn seats_of_counts(
    alloc: Global,
    instance: &CrossedInstance<'_>,
    counts: &EntryCounts<'_>,
) -> Result<Seats, AllocError>
    requires counts { AreEntryCounts instance.now counts.now }
    requires few { AreFewSeats instance.now }
    ensures seats { IfOk result (λ seats. seats ≡ seating_of instance.now) }
    ensures seating { IfOk result (λ seats. IsSeating instance.now seats) }
{
    let places = mutual_places(alloc, instance, &counts.acceptable)?;
    let begins = seat_places(alloc, instance, counts.firsts)?;
    let proposers = proposer_rows(alloc, instance, counts, &places)?;
    let reviewers = reviewer_rows(alloc, instance, counts, &begins)?;
    let lists = written_lists(alloc, instance)?;
    seats_held(
        alloc,
        instance.instance(),
        Some(lists),
        Some(begins),
        proposers,
        reviewers,
    )
}

/// The seats with these lists, beside the lists that the proposers wrote, and where the seats of each reviewer begin, where these
/// differ from those of the market.
fn seats_held(
    alloc: Global,
    instance: &Instance,
    beside: Option<Rows>,
    begins: Option<Rows>,
    proposers: ProposerRows,
    reviewers: ReviewerRows,
) -> Result<Seats, AllocError>
    requires instance { IsInstance instance.now }
    requires few { AreFewSeats instance.now }
    requires begins { MatchOption begins (IsPlain instance.now) (λ begins. begins
        ≡ seat_places_of instance.now) }
    requires written { unwrap_or beside proposers.lists ≡ lists_of instance.now.proposers }
    requires proposers { proposers.lists
        ≡ seat_rows_of instance.now (length instance.now.proposers) }
    requires proposer_crosses { proposers.crosses
        ≡ cross_rows_of instance.now (length instance.now.proposers) }
    requires seats { reviewers.seats.items ≡ seats_of instance.now }
    requires reviewers { reviewers.lists
        ≡ seat_lists_before instance.now (length instance.now.reviewers) }
    requires reviewer_crosses { reviewers.crosses
        ≡ seat_crosses_before instance.now (length instance.now.reviewers) }
    ensures seats { IfOk result (λ seats. seats ≡ seating_of instance.now) }
    ensures seating { IfOk result (λ seats. IsSeating instance.now seats) }
{
    let market = Market::held(
        proposers.lists,
        reviewers.lists,
        proposers.crosses,
        reviewers.crosses,
    );
    let market = Rc::new(alloc, market)?;
    let lists = WrittenLists::of(beside, market.clone()?);
    Ok(Seats {
        written: Snapshot::of(instance),
        lists,
        begins,
        market,
        seats: reviewers.seats,
    })
}

/// The proposers' written lists.
fn written_lists(alloc: Global, instance: &CrossedInstance<'_>) -> Result<Rows, AllocError>
    ensures instance { IsInstance instance.now }
    ensures lists { IfOk result (λ lists. lists ≡ lists_of instance.now.proposers) }
{
    let proposers = instance.proposer_count();
    let mut lists = Rows::with_capacity(alloc, proposers as usize, written_entries(instance))?;
    for p in 0..proposers {
        lists.push(instance.proposer_list(p))?;
    }
    Ok(lists)
}
