//! Instances that are printed, line by line. What the lines of an instance are stands in the witnesses of `sm_instance_lines`.

ghost use Rattle.std.specs.Prelude.{◌≤◌};

use crate::made::MEMORY;
use sm_answer::Lines;
use sm_instance::Input;
use sm_instance_lines::{instance_lines, put_instance_line};
use sm_reader::read_instance;
use sm_text::LineWriter;
use std::process::Abort;

/// Makes sure that a line of a number is put, with its end.
fn puts(rt: &(impl Abort + AllocGlobal), input: &Input, at: u32, line: &str)
    requires { 1 ≤ at }
{
    let mut writer = LineWriter::new(rt.alloc(), 1).expect(rt, MEMORY);
    let put = put_instance_line(&mut writer, input, at).expect(rt, MEMORY);
    assert!(rt; put);
    assert!(rt; writer.bytes() == line.as_bytes());
}

#[test]
fn lines_are_printed(rt: HostRuntime) {
    let text = b"stable 1 hospitals\nforce a h\np a: h\nr h[12]: a\nend\n";
    match read_instance(rt.alloc(), text) {
        Ok(read) => has_lines(&rt, &read.input),
        Err(_fault) => panic!(rt; "refused"),
    }
}

/// The lines of the instance above.
fn has_lines(rt: &(impl Abort + AllocGlobal), input: &Input) {
    puts(rt, input, 1, "stable 1 hospitals\n");
    puts(rt, input, 3, "r h [12]: a\n");
    puts(rt, input, 5, "end\n");
    let mut writer = LineWriter::new(rt.alloc(), 1).expect(rt, MEMORY);
    let put = put_instance_line(&mut writer, input, 6).expect(rt, MEMORY);
    assert!(rt; !put);
    assert!(rt; writer.bytes().is_empty());
    let mut lines = instance_lines(input);
    let put = lines.put_next(rt.alloc(), &mut writer).expect(rt, MEMORY);
    assert!(rt; put);
    assert!(rt; writer.bytes() == b"stable 1 hospitals".as_slice());
}
