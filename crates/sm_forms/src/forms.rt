//! The forms of lines.

ghost use Rattle.std.specs.Prelude.{◌≡◌, IfSome};
ghost use Rattle.std.specs.Option.{option_map};
ghost use Rattle.std.specs.List.{list_all};
ghost use Rattle.sm_text.specs.Tokens.{begins_run};
ghost use Rattle.sm_forms.specs.Forms.{list_form, capacity_form, weight_form, pair_form, reviewer_form, two_sided_form, form_behind, is_end, header_of, format_named, are_brackets, master_form, use_form, capacity_use_form, reviewer_use_form, order_form, second_form, two_sided_added_form, added_form, form_under};
ghost use Rattle.sm_keys.specs.Tokens.{AreNamesAtEnd};
ghost use Rattle.sm_text.specs.Slices.{texts_of};
ghost use Rattle.sm_forms.specs.Forms.{form_of, IsOrderOf};

use sm_instance::{Kind, Side};
use sm_keys::is_run;
use sm_text::is;

/// What a line asks of a pair: to be held, or not to be.
#[derive(Clone, Copy)]
pub enum Condition {
    /// The pair has to be held.
    Force,
    /// The pair must not be held.
    Forbid,
}

/// A line by its form, with the runs that stand in the positions of names and numbers. A run may be no name and no number:
/// that is judged behind the form.
#[derive(Clone, Copy)]
pub enum Form<'a, 'b> {
    /// An agent with its list, and the capacity of a hospital where it is written.
    Agent {
        side: Side,
        name: &'a [u8],
        capacity: Option<&'a [u8]>,
        entries: &'b [&'a [u8]],
    },
    /// An agent whose list is a master list, which goes by its name.
    Use {
        side: Side,
        name: &'a [u8],
        capacity: Option<&'a [u8]>,
        master: &'a [u8],
    },
    /// A master list.
    Master {
        name: &'a [u8],
        entries: &'b [&'a [u8]],
    },
    /// The proposers that come first.
    Order {
        proposers: &'b [&'a [u8]],
    },
    /// The weight of a pair, and its second weight where it is written.
    Weight {
        proposer: &'a [u8],
        reviewer: &'a [u8],
        weight: &'a [u8],
        second: Option<&'a [u8]>,
    },
    /// A pair of which something is asked.
    Pair {
        condition: Condition,
        proposer: &'a [u8],
        reviewer: &'a [u8],
    },
}

/// The kind of instance and the format that a header names, `None` where the tokens make no header. Takes constant time.
#[tactic(auto, unfolding(crate::specs::Forms::header_of))]
pub fn header_of(tokens: &[&[u8]]) -> Option<(Kind, u32)>
    ensures { result ≡ header_of (texts_of tokens.now) }
{
    match tokens {
        [word, format, kind] if is(word, b"stable") => {
            let format = format_named(format)?;
            let kind = Kind::named(kind)?;
            Some((kind, format))
        }
        _ => None,
    }
}

/// The format that a word names.
fn format_named(word: &[u8]) -> Option<u32>
    ensures { result ≡ format_named word.now }
{
    if is(word, b"1") {
        Some(1)
    } else if is(word, b"2") {
        Some(2)
    } else {
        None
    }
}

/// Do the tokens make the line that ends an instance? Takes constant time.
#[tactic(auto, unfolding(crate::specs::Forms::is_end))]
pub fn is_end(tokens: &[&[u8]]) -> bool
    ensures { result ≡ is_end (texts_of tokens.now) }
{
    match tokens {
        [word] => is(word, b"end"),
        _ => false,
    }
}

/// The form of a line that begins with a word, under a header of this kind and format; `None` where it has none. The last
/// `names` tokens behind the word are names, and no more. Takes time in the number of the tokens before these.
#[tactic(auto, unfolding(crate::specs::Forms::form_under))]
pub fn form_under<'a, 'b>(
    kind: Kind,
    format: u32,
    word: &'a [u8],
    rest: &'b [&'a [u8]],
    names: usize,
) -> Option<Form<'a, 'b>>
    requires { AreNamesAtEnd names (texts_of rest.now) }
    ensures form { option_map form_of result ≡ form_under kind format word.now (texts_of rest.now) }
    ensures order { IfSome result (IsOrderOf (texts_of rest.now)) }
{
    match form_behind(kind, word, rest, names) {
        Some(form) => Some(form),
        None if format == 2 => added_form(kind, word, rest, names),
        None => None,
    }
}

/// The form of a line by format 1.
#[tactic(auto, unfolding(crate::specs::Forms::form_behind))]
fn form_behind<'a, 'b>(
    kind: Kind,
    word: &'a [u8],
    rest: &'b [&'a [u8]],
    names: usize,
) -> Option<Form<'a, 'b>>
    requires { AreNamesAtEnd names (texts_of rest.now) }
    ensures form { option_map form_of result ≡ form_behind kind word.now (texts_of rest.now) }
    ensures order { IfSome result (IsOrderOf (texts_of rest.now)) }
{
    if is(word, b"p") {
        return list_form(Side::Proposers, rest, names);
    }
    match kind {
        Kind::Roommates => None,
        _ => two_sided_form(kind, word, rest, names),
    }
}

/// The form of a line in a marriage or in hospitals, beside that of a proposer.
#[tactic(auto, unfolding(crate::specs::Forms::two_sided_form))]
fn two_sided_form<'a, 'b>(
    kind: Kind,
    word: &'a [u8],
    rest: &'b [&'a [u8]],
    names: usize,
) -> Option<Form<'a, 'b>>
    requires { AreNamesAtEnd names (texts_of rest.now) }
    ensures form { option_map form_of result ≡ two_sided_form kind word.now (texts_of rest.now) }
    ensures order { IfSome result (IsOrderOf (texts_of rest.now)) }
{
    if is(word, b"r") {
        reviewer_form(kind, rest, names)
    } else if is(word, b"weight") {
        weight_form(rest)
    } else if is(word, b"force") {
        pair_form(Condition::Force, rest)
    } else if is(word, b"forbid") {
        pair_form(Condition::Forbid, rest)
    } else {
        None
    }
}

/// A reviewer, whose capacity may be written in hospitals alone.
#[tactic(auto, unfolding(crate::specs::Forms::reviewer_form))]
fn reviewer_form<'a, 'b>(kind: Kind, rest: &'b [&'a [u8]], names: usize) -> Option<Form<'a, 'b>>
    requires { AreNamesAtEnd names (texts_of rest.now) }
    ensures form { option_map form_of result ≡ reviewer_form kind (texts_of rest.now) }
    ensures order { IfSome result (IsOrderOf (texts_of rest.now)) }
{
    match list_form(Side::Reviewers, rest, names) {
        Some(form) => Some(form),
        None if kind == Kind::Hospitals => capacity_form(rest, names),
        None => None,
    }
}

/// A name, a colon and a list.
#[tactic(auto, unfolding(crate::specs::Forms::list_form))]
fn list_form<'a, 'b>(side: Side, rest: &'b [&'a [u8]], names: usize) -> Option<Form<'a, 'b>>
    requires { AreNamesAtEnd names (texts_of rest.now) }
    ensures form { option_map form_of result ≡ list_form side (texts_of rest.now) }
    ensures order { IfSome result (IsOrderOf (texts_of rest.now)) }
{
    match rest {
        [name, colon, entries @ ..]
            if is_run(name) && is(colon, b":") && are_runs(entries, names) => {
            Some(Form::Agent {
                side,
                name: *name,
                capacity: None,
                entries,
            })
        }
        _ => None,
    }
}

/// A name, a number in brackets, a colon and a list.
#[tactic(auto, unfolding(crate::specs::Forms::capacity_form))]
fn capacity_form<'a, 'b>(rest: &'b [&'a [u8]], names: usize) -> Option<Form<'a, 'b>>
    requires { AreNamesAtEnd names (texts_of rest.now) }
    ensures form { option_map form_of result ≡ capacity_form (texts_of rest.now) }
    ensures order { IfSome result (IsOrderOf (texts_of rest.now)) }
{
    match rest {
        [name, opening, number, closing, colon, entries @ ..]
            if is_run(name)
                && is(opening, b"[")
                && is_run(number)
                && is(closing, b"]")
                && is(colon, b":")
                && are_runs(entries, names) => {
            Some(Form::Agent {
                side: Side::Reviewers,
                name: *name,
                capacity: Some(*number),
                entries,
            })
        }
        _ => None,
    }
}

/// Two names and a weight.
#[tactic(auto, unfolding(crate::specs::Forms::weight_form))]
fn weight_form<'a, 'b>(rest: &'b [&'a [u8]]) -> Option<Form<'a, 'b>>
    ensures form { option_map form_of result ≡ weight_form (texts_of rest.now) }
    ensures order { IfSome result (IsOrderOf (texts_of rest.now)) }
{
    match rest {
        [proposer, reviewer, weight] if is_run(proposer) && is_run(reviewer) && is_run(weight) => {
            Some(Form::Weight {
                proposer: *proposer,
                reviewer: *reviewer,
                weight: *weight,
                second: None,
            })
        }
        _ => None,
    }
}

/// Two names of a pair of which something is asked.
#[tactic(auto, unfolding(crate::specs::Forms::pair_form))]
fn pair_form<'a, 'b>(condition: Condition, rest: &'b [&'a [u8]]) -> Option<Form<'a, 'b>>
    ensures form { option_map form_of result ≡ pair_form condition (texts_of rest.now) }
    ensures order { IfSome result (IsOrderOf (texts_of rest.now)) }
{
    match rest {
        [proposer, reviewer] if is_run(proposer) && is_run(reviewer) => Some(Form::Pair {
            condition,
            proposer: *proposer,
            reviewer: *reviewer,
        }),
        _ => None,
    }
}

/// The form of a line that format 2 adds.
#[tactic(auto, unfolding(crate::specs::Forms::added_form))]
fn added_form<'a, 'b>(
    kind: Kind,
    word: &'a [u8],
    rest: &'b [&'a [u8]],
    names: usize,
) -> Option<Form<'a, 'b>>
    requires { AreNamesAtEnd names (texts_of rest.now) }
    ensures form { option_map form_of result ≡ added_form kind word.now (texts_of rest.now) }
    ensures order { IfSome result (IsOrderOf (texts_of rest.now)) }
{
    if is(word, b"p") {
        return use_form(Side::Proposers, rest);
    }
    if is(word, b"master") {
        return master_form(rest, names);
    }
    match kind {
        Kind::Roommates => None,
        _ => two_sided_added_form(kind, word, rest, names),
    }
}

/// The form that format 2 adds in a marriage or in hospitals, beside those of a proposer and of a master list.
#[tactic(auto, unfolding(crate::specs::Forms::two_sided_added_form))]
fn two_sided_added_form<'a, 'b>(
    kind: Kind,
    word: &'a [u8],
    rest: &'b [&'a [u8]],
    names: usize,
) -> Option<Form<'a, 'b>>
    requires { AreNamesAtEnd names (texts_of rest.now) }
    ensures form { option_map form_of result ≡ two_sided_added_form kind word.now (texts_of rest.now) }
    ensures order { IfSome result (IsOrderOf (texts_of rest.now)) }
{
    if is(word, b"r") {
        reviewer_use_form(kind, rest)
    } else if is(word, b"order") {
        order_form(rest, names)
    } else if is(word, b"weight") {
        second_form(rest)
    } else {
        None
    }
}

/// A master list: a name, a colon and a list.
#[tactic(auto, unfolding(crate::specs::Forms::master_form))]
fn master_form<'a, 'b>(rest: &'b [&'a [u8]], names: usize) -> Option<Form<'a, 'b>>
    requires { AreNamesAtEnd names (texts_of rest.now) }
    ensures form { option_map form_of result ≡ master_form (texts_of rest.now) }
    ensures order { IfSome result (IsOrderOf (texts_of rest.now)) }
{
    match rest {
        [name, colon, entries @ ..]
            if is_run(name) && is(colon, b":") && are_runs(entries, names) => {
            Some(Form::Master {
                name: *name,
                entries,
            })
        }
        _ => None,
    }
}

/// A name, a colon, and the name of a master list in brackets.
#[tactic(auto, unfolding(crate::specs::Forms::use_form))]
fn use_form<'a, 'b>(side: Side, rest: &'b [&'a [u8]]) -> Option<Form<'a, 'b>>
    ensures form { option_map form_of result ≡ use_form side (texts_of rest.now) }
    ensures order { IfSome result (IsOrderOf (texts_of rest.now)) }
{
    match rest {
        [name, colon, opening, master, closing]
            if is_run(name)
                && is(colon, b":")
                && are_brackets(opening, closing)
                && is_run(master) => {
            Some(Form::Use {
                side,
                name: *name,
                capacity: None,
                master: *master,
            })
        }
        _ => None,
    }
}

/// A name, a number in brackets, a colon, and the name of a master list in brackets.
#[tactic(auto, unfolding(crate::specs::Forms::capacity_use_form))]
fn capacity_use_form<'a, 'b>(rest: &'b [&'a [u8]]) -> Option<Form<'a, 'b>>
    ensures form { option_map form_of result ≡ capacity_use_form (texts_of rest.now) }
    ensures order { IfSome result (IsOrderOf (texts_of rest.now)) }
{
    match rest {
        [
            name,
            opening,
            number,
            closing,
            colon,
            before,
            master,
            behind,
        ] if is_run(name)
            && are_brackets(opening, closing)
            && is_run(number)
            && is(colon, b":")
            && are_brackets(before, behind)
            && is_run(master) => {
            Some(Form::Use {
                side: Side::Reviewers,
                name: *name,
                capacity: Some(*number),
                master: *master,
            })
        }
        _ => None,
    }
}

/// A reviewer with a master list, whose capacity may be written in hospitals alone.
#[tactic(auto, unfolding(crate::specs::Forms::reviewer_use_form))]
fn reviewer_use_form<'a, 'b>(kind: Kind, rest: &'b [&'a [u8]]) -> Option<Form<'a, 'b>>
    ensures form { option_map form_of result ≡ reviewer_use_form kind (texts_of rest.now) }
    ensures order { IfSome result (IsOrderOf (texts_of rest.now)) }
{
    match use_form(Side::Reviewers, rest) {
        Some(form) => Some(form),
        None if kind == Kind::Hospitals => capacity_use_form(rest),
        None => None,
    }
}

/// The names of the proposers that come first.
#[tactic(auto, unfolding(crate::specs::Forms::order_form))]
fn order_form<'a, 'b>(rest: &'b [&'a [u8]], names: usize) -> Option<Form<'a, 'b>>
    requires { AreNamesAtEnd names (texts_of rest.now) }
    ensures form { option_map form_of result ≡ order_form (texts_of rest.now) }
    ensures order { IfSome result (IsOrderOf (texts_of rest.now)) }
{
    if are_runs(rest, names) {
        Some(Form::Order { proposers: rest })
    } else {
        None
    }
}

/// Two names and two weights.
#[tactic(auto, unfolding(crate::specs::Forms::second_form))]
fn second_form<'a, 'b>(rest: &'b [&'a [u8]]) -> Option<Form<'a, 'b>>
    ensures form { option_map form_of result ≡ second_form (texts_of rest.now) }
    ensures order { IfSome result (IsOrderOf (texts_of rest.now)) }
{
    match rest {
        [proposer, reviewer, weight, second]
            if is_run(proposer) && is_run(reviewer) && is_run(weight) && is_run(second) => {
            Some(Form::Weight {
                proposer: *proposer,
                reviewer: *reviewer,
                weight: *weight,
                second: Some(*second),
            })
        }
        _ => None,
    }
}

/// Are the tokens an opening and a closing bracket?
fn are_brackets(opening: &[u8], closing: &[u8]) -> bool
    ensures { result ≡ are_brackets opening.now closing.now }
{
    is(opening, b"[") && is(closing, b"]")
}

/// Are all these tokens runs? The last `names` of them are names, and no more.
fn are_runs(tokens: &[&[u8]], names: usize) -> bool
    requires { AreNamesAtEnd names (texts_of tokens.now) }
    ensures { result ≡ list_all begins_run (texts_of tokens.now) }
{
    if tokens.len() <= names {
        return true;
    }
    'tokens: for token in tokens {
        if !is_run(token) {
            return false;
        }
    }
    true
}
