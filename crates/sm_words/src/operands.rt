//! The commands and their operands: a row for each name, and a reader for each value.

ghost use Rattle.std.specs.Prelude.{◌≡◌, [], Some, None, IfOk, option_map, if◌then◌else◌};
ghost use Rattle.sm_report.specs.Meanings.{look_up};
ghost use Rattle.sm_words.specs.Tables.{commands, operands_of, shapes, shows, forms, size_named, seed_named};
ghost use Rattle.sm_words.specs.Kept.{ValueData, value_of, value_named, given_of, kept_of, once, with_value, with_word};

use crate::jobs::Form;
use sm_instance::{Measure, Side};
use sm_make::Shape;
use sm_report::{limit_named, measure_named, number_within, side_named, vector};
use sm_text::number;
use std::alloc::{AllocError, Global};

/// The least size, and the greatest of any shape.
const LEAST_SIZE: u32 = 1;

pub(crate) const GREATEST_SIZE: u32 = 2_048;

/// What the first word asks for.
#[derive(Clone, Copy, Debug, PartialEq, Eq)]
pub(crate) enum Command {
    Solve,
    Reduced,
    Rotations,
    List,
    Pairs,
    Regret,
    Weight,
    Meet,
    Join,
    Survey,
    Check,
    Make,
    Rest,
    Median,
    Route,
    Export,
}

/// What stands before the `=` of a further word.
#[derive(Clone, Copy, Debug, PartialEq, Eq)]
enum Operand {
    Side,
    After,
    Limit,
    By,
    Shape,
    Size,
    Seed,
    Show,
    Form,
}

/// The value of an operand.
#[derive(Debug, Drop)]
enum Value {
    OfSide(Side),
    OfAfter(Vec<u32>),
    OfLimit(u32),
    OfBy(Measure),
    OfShape(Shape),
    OfSize(u32),
    OfSeed(u64),
    /// Whether the summary is shown.
    OfShow(bool),
    OfForm(Form),
}

/// The operands that were given: for each its value, if it stands.
#[derive(Debug, Drop)]
pub(crate) struct Given {
    pub(crate) side: Option<Side>,
    pub(crate) after: Option<Vec<u32>>,
    pub(crate) limit: Option<u32>,
    pub(crate) by: Option<Measure>,
    pub(crate) shape: Option<Shape>,
    pub(crate) size: Option<u32>,
    pub(crate) seed: Option<u64>,
    /// Whether the summary is shown.
    pub(crate) show: Option<bool>,
    pub(crate) form: Option<Form>,
}

/// The command of this name.
pub(crate) fn command_named(name: &str) -> Option<Command>
    ensures { result ≡ look_up commands name.now }
{
    match name {
        "solve" => Some(Command::Solve),
        "reduced" => Some(Command::Reduced),
        "rotations" => Some(Command::Rotations),
        "list" => Some(Command::List),
        "pairs" => Some(Command::Pairs),
        "regret" => Some(Command::Regret),
        "weight" => Some(Command::Weight),
        "meet" => Some(Command::Meet),
        "join" => Some(Command::Join),
        "survey" => Some(Command::Survey),
        "check" => Some(Command::Check),
        "make" => Some(Command::Make),
        "rest" => Some(Command::Rest),
        "median" => Some(Command::Median),
        "route" => Some(Command::Route),
        "export" => Some(Command::Export),
        _ => None,
    }
}

/// No operand is given yet.
pub(crate) fn nothing() -> Given
    ensures { given_of result ≡ kept_of [] }
{
    Given {
        side: None,
        after: None,
        limit: None,
        by: None,
        shape: None,
        size: None,
        seed: None,
        show: None,
        form: None,
    }
}

/// Takes a word as an operand of a command. Answers `false` where it is none with a right value, or repeats one.
pub(crate) fn take_word(
    alloc: Global,
    command: Command,
    word: &str,
    given: &mut Given,
) -> Result<bool, AllocError>
    ensures { IfOk result (λ fits. with_word command word.now (given_of given.old)
        ≡ (if fits then Some (given_of given.new) else None)) }
{
    let Some((name, text)) = word.split_once('=') else {
        return Ok(false);
    };
    match operand_named(command, name) {
        Some(operand) => match value_named(alloc, operand, text)? {
            Some(value) => Ok(put(given, value)),
            None => Ok(false),
        },
        None => Ok(false),
    }
}

/// The operand of this name that a command takes.
fn operand_named(command: Command, name: &str) -> Option<Operand>
    ensures { result ≡ look_up (operands_of command) name.now }
{
    match command {
        Command::Solve => match name {
            "side" => Some(Operand::Side),
            "form" => Some(Operand::Form),
            _ => None,
        },
        Command::Reduced | Command::Rotations | Command::Pairs | Command::Regret => match name {
            "form" => Some(Operand::Form),
            _ => None,
        },
        Command::List => match name {
            "after" => Some(Operand::After),
            "limit" => Some(Operand::Limit),
            "form" => Some(Operand::Form),
            _ => None,
        },
        Command::Weight => match name {
            "by" => Some(Operand::By),
            "form" => Some(Operand::Form),
            _ => None,
        },
        Command::Survey => match name {
            "limit" => Some(Operand::Limit),
            "form" => Some(Operand::Form),
            _ => None,
        },
        Command::Make => match name {
            "shape" => Some(Operand::Shape),
            "size" => Some(Operand::Size),
            "seed" => Some(Operand::Seed),
            "show" => Some(Operand::Show),
            _ => None,
        },
        Command::Meet | Command::Join | Command::Check | Command::Rest => None,
        Command::Median | Command::Route | Command::Export => None,
    }
}

/// The value that a text gives to an operand.
fn value_named(alloc: Global, operand: Operand, text: &str) -> Result<Option<Value>, AllocError>
    ensures { IfOk result (λ found. value_named operand text.now ≡ option_map value_of found) }
{
    match operand {
        Operand::Side => Ok(side_named(text.as_bytes()).map(Value::OfSide)),
        Operand::After => Ok(vector(alloc, text)?.map(Value::OfAfter)),
        Operand::Limit => Ok(limit_named(text.as_bytes()).map(Value::OfLimit)),
        Operand::By => Ok(measure_named(text.as_bytes()).map(Value::OfBy)),
        Operand::Shape => Ok(shape_named(text).map(Value::OfShape)),
        Operand::Size => Ok(size_named(text).map(Value::OfSize)),
        Operand::Seed => Ok(seed_named(text).map(Value::OfSeed)),
        Operand::Show => Ok(show_named(text).map(Value::OfShow)),
        Operand::Form => Ok(form_named(text).map(Value::OfForm)),
    }
}

/// The shape of this name.
fn shape_named(name: &str) -> Option<Shape>
    ensures { result ≡ look_up shapes name.now }
{
    match name {
        "copies" => Some(Shape::Copies),
        "cycle" => Some(Shape::Cycle),
        "random" => Some(Shape::Random),
        "hospitals" => Some(Shape::Hospitals),
        "rooms" => Some(Shape::Rooms),
        _ => None,
    }
}

/// The size that a text spells.
fn size_named(text: &str) -> Option<u32>
    ensures { result ≡ size_named text.now }
{
    number_within(text.as_bytes(), LEAST_SIZE, GREATEST_SIZE)
}

/// The seed that a text spells.
fn seed_named(text: &str) -> Option<u64>
    ensures { result ≡ seed_named text.now }
{
    number(text.as_bytes(), u64::MAX)
}

/// Whether the summary is shown, by the name of what is.
fn show_named(name: &str) -> Option<bool>
    ensures { result ≡ look_up shows name.now }
{
    match name {
        "text" => Some(false),
        "summary" => Some(true),
        _ => None,
    }
}

/// The form of this name.
fn form_named(name: &str) -> Option<Form>
    ensures { result ≡ look_up forms name.now }
{
    match name {
        "text" => Some(Form::Text),
        "json" => Some(Form::Json),
        _ => None,
    }
}

/// Keeps a value, unless its operand stands already.
fn put(given: &mut Given, value: Value) -> bool
    ensures { with_value (value_of value) (given_of given.old)
        ≡ (if result then Some (given_of given.new) else None) }
{
    match value {
        Value::OfSide(side) => put_once(&mut given.side, side),
        Value::OfAfter(after) => put_once(&mut given.after, after),
        Value::OfLimit(limit) => put_once(&mut given.limit, limit),
        Value::OfBy(by) => put_once(&mut given.by, by),
        Value::OfShape(shape) => put_once(&mut given.shape, shape),
        Value::OfSize(size) => put_once(&mut given.size, size),
        Value::OfSeed(seed) => put_once(&mut given.seed, seed),
        Value::OfShow(summary) => put_once(&mut given.show, summary),
        Value::OfForm(form) => put_once(&mut given.form, form),
    }
}

/// Fills a slot, unless it is full.
fn put_once<T: Drop>(slot: &mut Option<T>, value: T) -> bool
    ensures { once slot.old value ≡ (if result then Some slot.new else None) }
{
    if slot.is_some() {
        return false;
    }
    *slot = Some(value);
    true
}
