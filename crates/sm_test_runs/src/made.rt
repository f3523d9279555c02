//! What both files make: copies and words.

ghost use Rattle.std.specs.Prelude.{◌≡◌};

use std::process::Abort;

pub const MEMORY: &str = "memory";

/// A copy of a list.
pub fn copy<T: Copy>(rt: &(impl Abort + AllocGlobal), list: &[T]) -> Vec<T>
    ensures { result.items ≡ list.now }
{
    Vec::from_slice(rt.alloc(), list).expect(rt, MEMORY)
}

/// The words that stand in a text with a blank between each two.
pub fn words_in(rt: &(impl Abort + AllocGlobal), text: &str) -> Vec<String> {
    let mut words = Vec::new(rt.alloc());
    for word in text.split_whitespace() {
        let word = String::from_str(rt.alloc(), word).expect(rt, MEMORY);
        words.push(word).expect(rt, MEMORY);
    }
    words
}
