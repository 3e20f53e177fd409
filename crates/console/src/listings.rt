// The listing program's text, of a row and of an input as it stands.
use crate::buffer::{Buffer, Text};
use crate::elements::MAX_LIST;
use crate::words::Words;
use std::fmt;
use std::fmt::Write;

// More than an input may have.
const INPUT_ROOM: usize = 45100;

type Input = Buffer<INPUT_ROOM>;

// What `listing_text` makes of an input. `serve` puts the last line feed, as it does after every answer.
fn listed(input: &Input, text: &mut Text) -> fmt::Result {
    let mut out = [0u8; listing_text::MAX_TEXT_BYTES];
    let size = listing_text::listing(input.bytes(), &mut out).unwrap_or(0);
    let lines = out.get(..size.saturating_sub(1)).unwrap_or(&[]);
    text.put(lines);
    Ok(())
}

// The lines of an input, a number each in ten columns, as far as there is room.
fn put_lines(input: &mut Input, order: u64, row: &[u32]) -> fmt::Result {
    writeln!(input, "{order:>10}")?;
    for n in row {
        writeln!(input, "{n:>10}")?;
    }
    Ok(())
}

// An order has at most ten digits.
pub fn of_row(mut words: Words, text: &mut Text) -> Option<fmt::Result> {
    let mut row = [0u32; MAX_LIST];
    let order = words.number().filter(|order| *order <= 9999999999)?;
    let row = words.list(&mut row)?;
    let mut input = Input::new();
    let _ = put_lines(&mut input, order, row);
    Some(listed(&input, text))
}

// The byte that a character stands for.
fn meant(b: u8) -> u8 {
    match b {
        b'$' => b'\n',
        b'^' => b'\r',
        b'~' => b'\t',
        _ => b,
    }
}

// A text so many times, as far as there is room; it stands behind the blank after the number.
pub fn of_text(mut words: Words, text: &mut Text) -> Option<fmt::Result> {
    let times: usize = words.number()?;
    let mut once = Input::new();
    for &b in words.text() {
        once.put(&[meant(b)]);
    }
    let mut input = Input::new();
    for _ in 0..times.min(INPUT_ROOM) {
        if once.is_empty() || !input.put(once.bytes()) {
            break;
        }
    }
    Some(listed(&input, text))
}
