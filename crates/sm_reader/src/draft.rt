//! What the lines so far say, with indexes in the place of names on lists.

ghost use Rattle.std.specs.Prelude.{◌≡◌, ℕ, ◌<◌, IfOk};
ghost use Rattle.sm_reader.specs.Draft.{said_of, IsDraft};
ghost use Rattle.sm_keys.specs.Tables.{no_names};
ghost use Rattle.sm_agents.specs.Named.{nothing};
ghost use Rattle.sm_agents.specs.declared.kinds.Kind.{Kind};

use indexmap::IndexMap;
use sm_keys::{Names, TextKey};
use sm_text::{MOST_AGENTS, TextHash};
use std::alloc::{AllocError, Global};
use std::hash::Hash;
use std::mem::swap;

/// An agent as its line declares it, with the indexes of the names on its list.
#[derive(Drop)]
pub(crate) struct Declared<'a> {
    pub(crate) name: &'a [u8],
    pub(crate) capacity: u32,
    pub(crate) line: u32,
    pub(crate) entries: Vec<u32>,
}

/// A proposer and a reviewer that a line names.
#[derive(Clone, Copy)]
pub(crate) struct Pair<'a> {
    pub(crate) proposer: &'a [u8],
    pub(crate) reviewer: &'a [u8],
    pub(crate) line: u32,
}

/// The weights that a line gives to a pair; the second is 0 where none is written. A weight within its limit fits four bytes.
#[derive(Clone, Copy)]
pub(crate) struct Weights {
    pub(crate) line: u32,
    pub(crate) weight: i32,
    pub(crate) second: i32,
}

/// The weights, by their pairs, in the order of their lines.
pub(crate) type Weighed<'a> = IndexMap<(TextKey<'a>, TextKey<'a>), Weights, TextHash>;

/// Where the names on a master list stand among those on all of them. A text may have over a million master lists, so one takes
/// eight bytes, and no memory of its own.
#[derive(Clone, Copy)]
pub(crate) struct MasterList {
    pub(crate) start: u32,
    pub(crate) stop: u32,
}

/// The master lists, by their names, in the order of their lines.
pub(crate) type Masters<'a> = IndexMap<TextKey<'a>, MasterList, TextHash>;

/// The proposers that come first, as a line says it: their names stand behind the first token of the line.
#[derive(Drop)]
pub(crate) struct Order<'a> {
    pub(crate) tokens: Vec<&'a [u8]>,
    pub(crate) line: u32,
}

/// What the lines so far say. In roommates the persons stand as proposers. Names on the lists of agents have indexes; all others
/// are kept as they stand, since a text may have far more of them than an instance has agents.
#[derive(Drop)]
pub(crate) struct Draft<'a> {
    /// The text.
    pub(crate) text: &'a [u8],
    pub(crate) proposer_names: Names<'a>,
    pub(crate) reviewer_names: Names<'a>,
    pub(crate) proposers: Vec<Declared<'a>>,
    pub(crate) reviewers: Vec<Declared<'a>>,
    /// How many entries all lists have together, master lists among them.
    pub(crate) entries: usize,
    /// The first one is put by hashes of the text.
    pub(crate) weights: Weighed<'a>,
    pub(crate) forced: Vec<Pair<'a>>,
    pub(crate) forbidden: Vec<Pair<'a>>,
    /// The first one is put by hashes of the text.
    pub(crate) masters: Masters<'a>,
    /// The names on all master lists, one list behind another.
    pub(crate) on_masters: Vec<&'a [u8]>,
    pub(crate) order: Option<Order<'a>>,
}

/// For each agent of one side a text mostly has at least so many bytes: its line, and that of an agent of the other side.
const BYTES_EACH: usize = 32;

/// Nothing is said yet by a text.
pub(crate) fn empty<'a>(alloc: Global, text: &'a [u8]) -> Result<Draft<'a>, AllocError>
    ensures said { IfOk result (λ d. (kind : Kind) → said_of kind d ≡ nothing) }
    ensures draft { IfOk result (λ d. (kind : Kind) (line : ℕ) → 1 < line → IsDraft kind line d) }
{
    // Room for the names of all agents spares the sets from growing, in which each name would be put anew.
    let room = (text.len() / BYTES_EACH).min(MOST_AGENTS);
    let proposer_names = Names::new(alloc, text, room)?;
    match Names::new(alloc, text, room) {
        Ok(reviewer_names) => Ok(empty_with(alloc, text, proposer_names, reviewer_names)),
        Err(error) => {
            drop(proposer_names);
            Err(error)
        }
    }
}

/// Nothing is said yet by a text; the tables of names are given.
fn empty_with<'a>(
    alloc: Global,
    text: &'a [u8],
    proposer_names: Names<'a>,
    reviewer_names: Names<'a>,
) -> Draft<'a>
    requires proposers { proposer_names ≡ no_names }
    requires reviewers { reviewer_names ≡ no_names }
    ensures said { (kind : Kind) → said_of kind result ≡ nothing }
    ensures draft { (kind : Kind) (line : ℕ) → 1 < line → IsDraft kind line result }
{
    Draft {
        text,
        proposer_names,
        reviewer_names,
        proposers: Vec::new(alloc),
        reviewers: Vec::new(alloc),
        entries: 0,
        weights: IndexMap::with_hasher(alloc, TextHash::of(&[])),
        forced: Vec::new(alloc),
        forbidden: Vec::new(alloc),
        masters: IndexMap::with_hasher(alloc, TextHash::of(&[])),
        on_masters: Vec::new(alloc),
        order: None,
    }
}

/// So many entries are more than most texts have. Room for all that may still come is made then.
const MANY: usize = 65_536;

/// A line that makes an entry mostly has at least so many bytes.
const BYTES_OF_LINE: usize = 13;

/// Makes a map ready for one more entry: the first is put by hashes that the text can't choose, which take time in the length of
/// the text. Where there are many, there is room for all that the text may have from then on: room that isn't used costs nothing,
/// and the map doesn't have to move.
pub(crate) fn make_ready<K: Eq + Hash + Drop, V: Drop>(
    map: &mut IndexMap<K, V, TextHash>,
    text: &[u8],
) -> Result<(), AllocError>
    ensures { IfOk result (λ _. map.new.entries ≡ map.old.entries) }
{
    if map.is_empty() {
        let mut anew = IndexMap::with_hasher(*map.allocator(), TextHash::of(text));
        swap(map, &mut anew);
    }
    if map.len() == MANY {
        map.reserve(text.len() / BYTES_OF_LINE)?;
    }
    Ok(())
}
