//! Lines of answers that are put and read. What the text of each line is stands in the witnesses of `sm_report`.

ghost use Rattle.std.specs.Prelude.{◌≡◌, ◌≢◌, length};
ghost use Rattle.sm_instance.specs.Inputs.{left_of, right_of};
ghost use Rattle.sm_report.specs.Lines.{line_of};
ghost use Rattle.sm_report.specs.Sound.{IsPrintable};

use crate::made::{MEMORY, agent, copy, one};
use sm_instance::{Input, Instance, Kind, Side};
use sm_report::{Head, Line, LineFault, Seat, put_line, put_text, read_line};
use sm_text::LineWriter;
use std::process::Abort;

/// The proposer `a`, and the reviewer `h` of three places.
fn hospitals(rt: &(impl Abort + AllocGlobal)) -> Input {
    let built = Instance::build(
        rt.alloc(),
        Kind::Hospitals,
        one(rt, agent(rt, b'a', 1, &[])),
        one(rt, agent(rt, b'h', 3, &[])),
        Vec::new(rt.alloc()),
        Vec::new(rt.alloc()),
        Vec::new(rt.alloc()),
    );
    Input::Two(built.expect(rt, "an instance"))
}

fn left_count(input: &Input) -> u32
    ensures { result ≡ length (left_of input.now) }
{
    match input {
        Input::Two(instance) => instance.proposer_count(),
        Input::Room(persons) => persons.persons().len() as u32,
    }
}

fn right_count(input: &Input) -> u32
    ensures { result ≡ length (right_of input.now) }
{
    match input {
        Input::Two(instance) => instance.reviewer_count(),
        Input::Room(persons) => persons.persons().len() as u32,
    }
}

/// Makes sure that a line puts this text.
fn puts(rt: &(impl Abort + AllocGlobal), input: &Input, line: &Line, text: &str)
    requires { IsPrintable input.now (line_of line.now) }
{
    let mut writer = LineWriter::new(rt.alloc(), 1).expect(rt, MEMORY);
    put_line(&mut writer, input, line).expect(rt, MEMORY);
    assert!(rt; writer.bytes() == text.as_bytes());
}

#[test]
fn lines_are_put(rt: HostRuntime) {
    let input = hospitals(&rt);
    puts_a_pair(&rt, &input);
    puts_numbers(&rt, &input);
}

/// Puts a line that names two agents.
fn puts_a_pair(rt: &(impl Abort + AllocGlobal), input: &Input) {
    assert!(rt; left_count(input) == 1);
    assert!(rt; right_count(input) == 1);
    let seat = Seat {
        reviewer: 0,
        number: 3,
    };
    puts(rt, input, &Line::First(0, seat), "first a h/3\n");
}

/// Puts lines that name none.
fn puts_numbers(rt: &(impl Abort + AllocGlobal), input: &Input) {
    let head = Head::Solve(Some(Side::Proposers));
    let answer = Line::Answer(head);
    puts(rt, input, &answer, "answer solve side=proposers\n");
    puts(rt, input, &Line::Total(-10), "total -10\n");
    let vector = Line::Vector(copy(rt, &[1, 2]));
    puts(rt, input, &vector, "vector 1,2\n");
}

/// Makes sure that a line is read from a text and has it.
fn reads(rt: &(impl Abort + AllocGlobal), input: &Input, text: &str) {
    let line = read_line(rt.alloc(), input, text.as_bytes()).expect(rt, "a line");
    let mut writer = LineWriter::new(rt.alloc(), 1).expect(rt, MEMORY);
    put_text(&mut writer, input, &line).expect(rt, MEMORY);
    assert!(rt; writer.bytes() == text.as_bytes());
}

#[test]
fn lines_are_read(rt: HostRuntime) {
    let input = hospitals(&rt);
    reads(&rt, &input, "pair a h");
    reads(&rt, &input, "proposer a h/3 h/1");
    reads(&rt, &input, "rotation 2 a h/1 a h/2");
    reads(&rt, &input, "needs 3 1 2");
    reads(&rt, &input, "taken -");
    reads(&rt, &input, "flow S 4294967294 18446744073709551615");
    reads(&rt, &input, "total -9223372036854775807");
    reads(&rt, &input, "tally 2 0 5");
    reads(&rt, &input, "no 24 NotConserved");
    reads(&rt, &input, "vector 1,2");
    reads(&rt, &input, "answer list after=- limit=100");
    let refused = read_line(rt.alloc(), &input, b"regret 00");
    assert!(rt; matches!(refused, Err(LineFault::BadAnswer)));
}
