//! Reasons for a refusal.

ghost use Rattle.std.specs.Prelude.{◌≡◌};
ghost use Rattle.sm_text.specs.Refusal.{name_of_refusal};

/// Why an input is refused. The name that is printed is the variant's name.
#[derive(Clone, Copy, Debug, PartialEq, Eq)]
pub enum RefusalKind {
    /// The input has more bytes than are taken.
    TooLong,
    /// A line holds a byte, outside a comment, that no line of an instance can hold.
    BadByte,
    /// The first line that says something isn't a header, or there is no such line.
    BadHeader,
    /// A later line has none of the forms that its kind of instance has.
    BadLine,
    /// What stands in a name's position is no name.
    BadName,
    /// What stands in a number's position is no number, or is out of its limits.
    BadNumber,
    /// A second agent of one side is declared under the same name.
    Redeclared,
    /// A list holds one name twice.
    RepeatedEntry,
    /// A second weight is given to the same pair.
    RepeatedWeight,
    /// There is no `end` line.
    MissingEnd,
    /// There is text behind `end`, where the command takes none.
    AfterEnd,
    /// A side has more agents than are taken.
    TooManyAgents,
    /// The lists together have more entries than are taken.
    TooManyEntries,
    /// A line names an agent that isn't declared.
    UnknownName,
    /// The hospitals have more seat entries than are taken.
    TooManySeats,
    /// The command doesn't take this kind of instance.
    WrongKind,
    /// The text behind `end` isn't of its form.
    BadAnswer,
    /// The cursor hasn't one number for each proposer, or for each person of a roommates instance.
    BadCursor,
    /// A matching that was given is no stable matching.
    NotStable,
    /// There are more stable matchings than the command takes.
    TooMany,
    /// The program doesn't take this input yet.
    NotBuilt,
    /// The bytes aren't JSON, or the value isn't that of an instance.
    BadJson,
}

impl RefusalKind {
    /// The name that is printed, which is the variant's. Takes constant time.
    pub fn name(self) -> &'static str
        ensures { result.now ≡ name_of_refusal self }
    {
        match self {
            RefusalKind::TooLong => "TooLong",
            RefusalKind::BadByte => "BadByte",
            RefusalKind::BadHeader => "BadHeader",
            RefusalKind::BadLine => "BadLine",
            RefusalKind::BadName => "BadName",
            RefusalKind::BadNumber => "BadNumber",
            RefusalKind::Redeclared => "Redeclared",
            RefusalKind::RepeatedEntry => "RepeatedEntry",
            RefusalKind::RepeatedWeight => "RepeatedWeight",
            RefusalKind::MissingEnd => "MissingEnd",
            RefusalKind::AfterEnd => "AfterEnd",
            RefusalKind::TooManyAgents => "TooManyAgents",
            RefusalKind::TooManyEntries => "TooManyEntries",
            RefusalKind::UnknownName => "UnknownName",
            RefusalKind::TooManySeats => "TooManySeats",
            RefusalKind::WrongKind => "WrongKind",
            RefusalKind::BadAnswer => "BadAnswer",
            RefusalKind::BadCursor => "BadCursor",
            RefusalKind::NotStable => "NotStable",
            RefusalKind::TooMany => "TooMany",
            RefusalKind::NotBuilt => "NotBuilt",
            RefusalKind::BadJson => "BadJson",
        }
    }
}
