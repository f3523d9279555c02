//! The lists that the proposers wrote, beside a market of seats.

ghost use Rattle.std.specs.Prelude.{◌≡◌, ◌<◌, length, unwrap_or};
ghost use Rattle.sm_lists.specs.Rows.{row, entry};

use sm_lists::Rows;
use sm_market::Market;
use std::marker::Model;
use std::rc::Rc;

/// The lists that the proposers wrote: kept beside the market of the seats where they differ from its lists, and else those of
/// the market, so that most marriages have their lists there once.
#[derive(Debug, Drop)]
pub(crate) struct WrittenLists {
    beside: Option<Rows>,
    market: Rc<Market>,
}

impl Model for WrittenLists {
    ghost use Rattle.std.specs.Prelude.{ℕ, List, unwrap_or};

    ghost Value = { List (List ℕ) };

    ghost view = { λ l. unwrap_or l.beside l.market.value.proposers };
}

impl WrittenLists {
    /// These lists, or those of the market's proposers where there are none.
    pub(crate) fn of(beside: Option<Rows>, market: Rc<Market>) -> WrittenLists
        ensures { result ≡ unwrap_or beside market.value.proposers }
    {
        WrittenLists { beside, market }
    }

    /// The list of a proposer.
    pub(crate) fn at(&self, p: u32) -> &[u32]
        requires { p < length self.now }
        ensures { result.now ≡ row self.now p }
    {
        match &self.beside {
            Some(lists) => lists.at(p),
            None => self.market.as_ref().proposer_list(p),
        }
    }

    /// Whom a proposer lists at a place.
    pub(crate) fn entry_at(&self, p: u32, place: u32) -> u32
        requires in_range { p < length self.now }
        requires on_list { place < length (row self.now p) }
        ensures { result ≡ entry self.now p place }
    {
        self.at(p)[place as usize]
    }
}
