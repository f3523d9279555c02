//! Sets of pairs of a market that lose pairs from the ends of the reviewers' lists.

ghost use Rattle.std.specs.Prelude.{◌≡◌, ℕ, ◌↔◌, IsTrue, ◌+◌, ◌-◌, ◌<◌, ◌≤◌, length, slice_index, slice_set, replicate, IfOk, MatchOption};
ghost use Rattle.sm_market.specs.Lists.{row};
ghost use Rattle.sm_accept.specs.Linking.{linking, HoldsPair, IsFirstHeld, IsHeldBehind, IsLinkedOf, AreStarts, AreLinkedBelow, link_at, all_ends, cut_ends};

use crate::lengths::write_lengths;
use sm_market::Market;
use std::alloc::{AllocError, Global};
use std::marker::Model;

/// A set of pairs of a market, from which the pairs at the end of a reviewer's list can be taken out.
///
/// So of each reviewer's list it holds a front. The places that it holds of each proposer's list are linked in both
/// directions (Gusfield and Irving 1989, section 1.2.4, holds reduced lists so).
#[derive(Debug, Drop)]
pub struct Linked {
    /// How many pairs are held of each reviewer's list.
    ends: Vec<u32>,
    /// Where each proposer's links begin, and behind the last of them.
    starts: Vec<u32>,
    links: Links,
}

/// How the held places of each proposer's list are linked.
#[derive(Debug, Drop)]
struct Links {
    /// For each number of each proposer's list, the next one that is in: number 0 stands in front of the list, `i + 1`
    /// for place `i`, and one more behind the list.
    next: Vec<u32>,
    /// For each number of each proposer's list, the last one before it that is in.
    before: Vec<u32>,
}

impl Model for Linked {
    ghost use Rattle.sm_accept.specs.Linking.{Linking, linking};

    ghost Value = { Linking };

    ghost view = { λ v. linking v.ends.items v.starts.items v.links.next.items
        v.links.before.items };
}

impl Linked {
    /// The set of all pairs of a market.
    ///
    /// Takes time and memory in proportion to the agents and entries.
    ///
    /// # Errors
    ///
    /// `AllocError` where memory ran out, and only then.
    pub fn of(alloc: Global, market: &Market) -> Result<Linked, AllocError>
        ensures made { IfOk result (λ v. IsLinkedOf market.now v) }
        ensures all { IfOk result (λ v. v.ends ≡ all_ends market.now) }
    {
        let mut ends = vec![in alloc; 0; market.reviewers() as usize]?;
        write_lengths(market, &mut ends);
        Linked::with_ends(alloc, market, ends)
    }

    /// The set with these ends.
    fn with_ends(alloc: Global, market: &Market, ends: Vec<u32>) -> Result<Linked, AllocError>
        requires ends_each { length ends.items ≡ length market.now.reviewers }
        requires ends_on_lists { (r : ℕ) → slice_index ends.items r
            ≤ length (row market.now.reviewers r) }
        ensures made { IfOk result (λ v. IsLinkedOf market.now v) }
        ensures ends { IfOk result (λ v. v.ends ≡ ends.items) }
    {
        let mut starts = vec![in alloc; 0; market.proposers() as usize + 1]?;
        let count = set_starts(market, &mut starts);
        let mut links = Links {
            next: vec![in alloc; 0; count as usize]?,
            before: vec![in alloc; 0; count as usize]?,
        };
        link_held(market, &starts, &ends, &mut links);
        Ok(Linked {
            ends,
            starts,
            links,
        })
    }

    /// A proposer's first held place. `None` exactly where none of its places is held.
    ///
    /// The set has to be made for a market of these lists. Takes the same time for all, and no memory.
    pub fn first(&self, market: &Market, p: u32) -> Option<u32>
        requires in_range { p < length market.now.proposers }
        requires made { IsLinkedOf market.now self.now }
        ensures { MatchOption result
            ((i : ℕ) → ¬ HoldsPair market.now self.now.ends p i)
            (λ i. IsFirstHeld market.now self.now.ends p i) }
    {
        let number = self.links.behind(&self.starts, p, 0);
        place_of_number(number, market.proposer_len(p))
    }

    /// A proposer's first held place behind one that is held. `None` exactly where none of those behind is held.
    ///
    /// The set has to be made for a market of these lists. Takes the same time for all, and no memory.
    pub fn behind(&self, market: &Market, p: u32, place: u32) -> Option<u32>
        requires in_range { p < length market.now.proposers }
        requires made { IsLinkedOf market.now self.now }
        requires held { HoldsPair market.now self.now.ends p place }
        ensures { MatchOption result
            ((i : ℕ) → place < i → ¬ HoldsPair market.now self.now.ends p i)
            (λ i. IsHeldBehind market.now self.now.ends p place i) }
    {
        let places = market.proposer_len(p);
        let number = self.links.behind(&self.starts, p, place + 1);
        place_of_number(number, places)
    }

    /// Takes out the pairs of `r` that stand behind a place of its list. All else stays, and nothing is taken out where
    /// the place is past all that is held.
    ///
    /// The set has to be made for a market of these lists. Takes time in proportion to the pairs that it takes out, and
    /// no memory.
    pub fn cut(&mut self, market: &Market, r: u32, place: u32)
        requires in_range { r < length market.now.reviewers }
        requires made { IsLinkedOf market.now self.old }
        ensures made { IsLinkedOf market.now self.new }
        ensures cut { self.new.ends ≡ cut_ends self.old.ends r place }
    {
        cut_links(
            market,
            &self.starts,
            &mut self.links,
            &mut self.ends,
            r,
            place,
        );
    }
}

impl Links {
    /// The next number of `p`'s list that is in, behind one that is.
    fn behind(&self, starts: &[u32], p: u32, number: u32) -> u32
        requires in_range { p < length starts.now }
        requires there { slice_index starts.now p + number < length self.now.next.items }
        ensures { result ≡ link_at starts.now self.now.next.items p number }
    {
        link_of(starts, &self.next, p, number)
    }

    /// The last number of `p`'s list that is in, ahead of one that is.
    fn ahead(&self, starts: &[u32], p: u32, number: u32) -> u32
        requires in_range { p < length starts.now }
        requires there { slice_index starts.now p + number < length self.now.before.items }
        ensures { result ≡ link_at starts.now self.now.before.items p number }
    {
        link_of(starts, &self.before, p, number)
    }

    /// Links a number of `p`'s list with one behind it, in both directions.
    fn join(&mut self, starts: &[u32], p: u32, number: u32, behind: u32)
        requires in_range { p < length starts.now }
        requires next { slice_index starts.now p + number < length self.old.next.items }
        requires before { slice_index starts.now p + behind < length self.old.before.items }
        ensures next { self.new.next.items ≡ slice_set self.old.next.items (slice_index starts.now p
            + number) behind }
        ensures before { self.new.before.items
            ≡ slice_set self.old.before.items (slice_index starts.now p + behind) number }
    {
        set_link(starts, &mut self.next, p, number, behind);
        set_link(starts, &mut self.before, p, behind, number);
    }
}

/// Takes out the pairs of `r` behind a place of its list, from the last one on.
fn cut_links(
    market: &Market,
    starts: &[u32],
    links: &mut Links,
    ends: &mut [u32],
    r: u32,
    place: u32,
)
    requires in_range { r < length market.now.reviewers }
    requires made { IsLinkedOf market.now (linking ends.old starts.now links.old.next.items
        links.old.before.items) }
    ensures made { IsLinkedOf market.now (linking ends.new starts.now links.new.next.items
        links.new.before.items) }
    ensures cut { ends.new ≡ cut_ends ends.old r place }
{
    let kept = place.saturating_add(1);
    let mut end = ends[r as usize];
    while kept < end {
        end -= 1;
        take_last(market, starts, links, ends, r, end);
    }
}

/// Takes out the last pair that is held of the list of `r`.
fn take_last(
    market: &Market,
    starts: &[u32],
    links: &mut Links,
    ends: &mut [u32],
    r: u32,
    last: u32,
)
    requires in_range { r < length market.now.reviewers }
    requires made { IsLinkedOf market.now (linking ends.old starts.now links.old.next.items
        links.old.before.items) }
    requires last { slice_index ends.old r ≡ last + 1 }
    ensures made { IsLinkedOf market.now (linking ends.new starts.now links.new.next.items
        links.new.before.items) }
    ensures taken { ends.new ≡ slice_set ends.old r last }
{
    let p = market.proposer_at(r, last);
    let number = market.reviewer_cross(r, last) + 1;
    let behind = links.behind(starts, p, number);
    let ahead = links.ahead(starts, p, number);
    links.join(starts, p, ahead, behind);
    ends[r as usize] = last;
}

/// The place with a number of a list, `None` for the number behind the list.
fn place_of_number(number: u32, places: u32) -> Option<u32>
    requires { 0 < number }
    ensures { MatchOption result (places < number) (λ place. (number ≤ places) × (number ≡ place
        + 1)) }
{
    (number <= places).then_some(number - 1)
}

/// The link of a number of `p`'s list.
fn link_of(starts: &[u32], links: &[u32], p: u32, number: u32) -> u32
    requires in_range { p < length starts.now }
    requires there { slice_index starts.now p + number < length links.now }
    ensures { result ≡ link_at starts.now links.now p number }
{
    links[starts[p as usize] as usize + number as usize]
}

/// Links a number of `p`'s list with another one.
fn set_link(starts: &[u32], links: &mut [u32], p: u32, number: u32, to: u32)
    requires in_range { p < length starts.now }
    requires there { slice_index starts.now p + number < length links.old }
    ensures { links.new ≡ slice_set links.old (slice_index starts.now p + number) to }
{
    links[starts[p as usize] as usize + number as usize] = to;
}

/// Says where each proposer's links begin, and returns how many links there are.
fn set_starts(market: &Market, starts: &mut [u32]) -> u32
    requires zeros { starts.old ≡ replicate (length market.now.proposers + 1) 0 }
    ensures starts { AreStarts market.now starts.new }
    ensures count { result ≡ slice_index starts.new (length market.now.proposers) }
{
    let mut links = 0;
    for p in 0..market.proposers() {
        links += market.proposer_len(p) + 2;
        starts[p as usize + 1] = links;
    }
    links
}

/// Links each number of each proposer's list that is in with the ones before and behind it.
fn link_held(market: &Market, starts: &[u32], ends: &[u32], links: &mut Links)
    requires starts { AreStarts market.now starts.now }
    requires ends_each { length ends.now ≡ length market.now.reviewers }
    requires next_each { length links.old.next.items
        ≡ slice_index starts.now (length market.now.proposers) }
    requires before_each { length links.old.before.items
        ≡ slice_index starts.now (length market.now.proposers) }
    ensures linked { AreLinkedBelow market.now ends.now starts.now (length market.now.proposers)
        links.new.next.items links.new.before.items }
    ensures next_each { length links.new.next.items ≡ length links.old.next.items }
    ensures before_each { length links.new.before.items ≡ length links.old.before.items }
{
    for p in 0..market.proposers() {
        link_row(market, starts, ends, links, p);
    }
}

/// Links each number of one more proposer's list that is in with the ones before and behind it.
fn link_row(market: &Market, starts: &[u32], ends: &[u32], links: &mut Links, p: u32)
    requires in_range { p < length market.now.proposers }
    requires starts { AreStarts market.now starts.now }
    requires ends_each { length ends.now ≡ length market.now.reviewers }
    requires next_each { length links.old.next.items
        ≡ slice_index starts.now (length market.now.proposers) }
    requires before_each { length links.old.before.items
        ≡ slice_index starts.now (length market.now.proposers) }
    requires before { AreLinkedBelow market.now ends.now starts.now p links.old.next.items
        links.old.before.items }
    ensures linked { AreLinkedBelow market.now ends.now starts.now (p + 1) links.new.next.items
        links.new.before.items }
    ensures next_each { length links.new.next.items ≡ length links.old.next.items }
    ensures before_each { length links.new.before.items ≡ length links.old.before.items }
{
    let places = market.proposer_len(p);
    let mut last = 0;
    for place in 0..places {
        if is_held(market, ends, p, place) {
            links.join(starts, p, last, place + 1);
            last = place + 1;
        }
    }
    links.join(starts, p, last, places + 1);
}

/// Does a set with these ends hold the pair at a place of `p`'s list?
fn is_held(market: &Market, ends: &[u32], p: u32, place: u32) -> bool
    requires in_range { p < length market.now.proposers }
    requires on_list { place < length (row market.now.proposers p) }
    requires ends_each { length ends.now ≡ length market.now.reviewers }
    ensures { IsTrue result ↔ HoldsPair market.now ends.now p place }
{
    let r = market.reviewer_at(p, place);
    market.cross(p, place) < ends[r as usize]
}
