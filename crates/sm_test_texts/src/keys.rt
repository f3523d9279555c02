//! Names as keys, guesses at their indexes, and names that stand twice.

use crate::made::MEMORY;
use sm_keys::{Key, Recent, has_repeated};
use std::process::Abort;

/// Makes sure that a name has the key of the one with which a text begins.
fn begins(rt: &impl Abort, text: &[u8], name: &[u8]) {
    assert!(rt; text.len() >= name.len());
    assert!(rt; Key::of(&text[..name.len()]) == Key::of(name));
}

/// Makes sure that two names have keys of their own.
fn differ(rt: &impl Abort, a: &[u8], b: &[u8]) {
    assert!(rt; Key::of(a) != Key::of(b));
}

#[test]
fn keys_are_the_same_where_names_are(rt: HostRuntime) {
    begins(&rt, b"w m", b"w");
    begins(&rt, b"w12 w112", b"w12");
    differ(&rt, b"w12", b"w112");
    begins(&rt, b"hospital hospitaL", b"hospital");
    differ(&rt, b"hospital", b"hospitaL");
    begins(&rt, b"eleven_byte w", b"eleven_byte");
    differ(&rt, b"eleven_byte", b"eleven_bytE");
    differ(&rt, b"w", b"m");
}

/// Notes an index of the name of this key, and makes sure which one is guessed then.
fn note(rt: &impl Abort, recent: &mut Recent, key: Key<'_>, index: u32, guess: u32) {
    recent
        .note(key.word, key.text.len(), index)
        .expect(rt, MEMORY);
    assert!(rt; recent.guess(key.word, key.text.len()) == guess);
}

#[test]
fn two_indexes_are_guessed(rt: HostRuntime) {
    let mut recent = Recent::new(rt.alloc());
    let key = Key::of(b"w12");
    note(&rt, &mut recent, key, 7, 7);
    note(&rt, &mut recent, key, 9, 9);
    assert!(rt; recent.second_guess(key.word, key.text.len()) == 7);
    note(&rt, &mut recent, key, 65_536, 9);
}

/// Makes sure whether one of these names stands twice.
fn repeats(rt: &(impl Abort + AllocGlobal), text: &[u8], names: &[&[u8]], wanted: bool) {
    let found = has_repeated(rt.alloc(), text, names).expect(rt, MEMORY);
    assert!(rt; found == wanted);
}

#[test]
fn names_that_stand_twice_are_found(rt: HostRuntime) {
    repeats(&rt, b"", &[], false);
    repeats(&rt, b"w m", &[b"w", b"m"], false);
    repeats(&rt, b"w m w", &[b"w", b"m", b"w"], true);
}

/// The numbers below a limit, in four bytes each.
fn numbers(rt: &(impl Abort + AllocGlobal), limit: u32) -> Vec<u8> {
    let mut text = Vec::new(rt.alloc());
    for number in 0..limit {
        text.extend_from_slice(&number.to_le_bytes())
            .expect(rt, MEMORY);
    }
    text
}

/// More names than one class holds.
#[test]
fn names_of_two_classes_that_stand_twice_are_found(rt: HostRuntime) {
    let text = numbers(&rt, 70_000);
    let mut names: Vec<&[u8]> = text.chunks_exact(4).collect(rt.alloc()).expect(&rt, MEMORY);
    repeats(&rt, &text, &names, false);
    names.push(&[0, 0, 0, 0]).expect(&rt, MEMORY);
    repeats(&rt, &text, &names, true);
}
