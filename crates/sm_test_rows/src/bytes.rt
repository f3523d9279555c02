//! The bytes of inputs and outputs.

use crate::case::{Behind, Line};
use std::alloc::{AllocError, Global};

/// The bytes of lines.
pub fn bytes_of(alloc: Global, lines: &[Line]) -> Result<Vec<u8>, AllocError> {
    let mut into = Vec::new(alloc);
    for line in lines {
        match line {
            Line::One(text) => put_line(&mut into, text.as_bytes())?,
            Line::Each {
                line,
                times,
                name,
                names,
            } => {
                let behind = numbered(alloc, name.as_ref(), names.unwrap_or(0))?;
                for number in 0..*times {
                    put_numbered(alloc, &mut into, line.as_bytes(), number)?;
                    put_line(&mut into, &behind)?;
                }
            }
        }
    }
    Ok(into)
}

/// Puts bytes and the end of a line.
fn put_line(into: &mut Vec<u8>, line: &[u8]) -> Result<(), AllocError> {
    into.extend_from_slice(line)?;
    Ok(into.push(b'\n')?)
}

/// A blank and the name with each number from 1 on, so many.
fn numbered(alloc: Global, name: Option<&String>, names: u32) -> Result<Vec<u8>, AllocError> {
    let mut into = Vec::new(alloc);
    let Some(name) = name else { return Ok(into) };
    for number in 0..names {
        into.push(b' ')?;
        into.extend_from_slice(name.as_bytes())?;
        put_number(alloc, &mut into, number)?;
    }
    Ok(into)
}

/// Puts bytes, with a number one higher in the place of each `@`.
fn put_numbered(
    alloc: Global,
    into: &mut Vec<u8>,
    line: &[u8],
    number: u32,
) -> Result<(), AllocError> {
    for byte in line {
        match *byte {
            b'@' => put_number(alloc, into, number)?,
            byte => into.push(byte)?,
        }
    }
    Ok(())
}

/// Puts the number one higher.
fn put_number(alloc: Global, into: &mut Vec<u8>, number: u32) -> Result<(), AllocError> {
    let text = format!(in alloc; "{}", u64::from(number) + 1)?;
    into.extend_from_slice(text.as_bytes())
}

/// A text, so many times.
pub fn filled(alloc: Global, text: &str, times: u32) -> Result<Vec<u8>, AllocError> {
    let mut into = Vec::new(alloc);
    for _ in 0..times {
        into.extend_from_slice(text.as_bytes())?;
    }
    Ok(into)
}

/// Puts what follows an input, from an answer.
pub fn put_behind(into: &mut Vec<u8>, behind: Behind, answer: &[u8]) -> Result<(), AllocError> {
    match behind {
        Behind::Answer => into.extend_from_slice(answer),
        Behind::BothSides => {
            put_pairs(into, b"left", answer)?;
            put_pairs(into, b"right", answer)?;
            put_line(into, b"end")
        }
    }
}

/// Puts the pairs of an answer under another keyword.
fn put_pairs(into: &mut Vec<u8>, keyword: &[u8], answer: &[u8]) -> Result<(), AllocError> {
    for line in answer.split(|byte| *byte == b'\n') {
        if let Some(pair) = line.strip_prefix(b"pair") {
            into.extend_from_slice(keyword)?;
            put_line(into, pair)?;
        }
    }
    Ok(())
}

/// The first lines of a text, so many, or all that it has.
pub fn front_of(alloc: Global, text: &[u8], lines: usize) -> Result<Vec<u8>, AllocError> {
    cut_in_line(alloc, text, lines, 0)
}

/// The first lines of a text, so many, and behind them at most `most` bytes of the next one with its end.
pub fn cut_in_line(
    alloc: Global,
    text: &[u8],
    lines: usize,
    most: usize,
) -> Result<Vec<u8>, AllocError> {
    let mut into = Vec::new(alloc);
    for (number, line) in text.split_inclusive(|byte| *byte == b'\n').enumerate() {
        if number < lines {
            into.extend_from_slice(line)?;
        } else if number == lines {
            into.extend_from_slice(&line[..line.len().min(most)])?;
        }
    }
    Ok(into)
}
