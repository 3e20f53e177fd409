// What rows and bytes are made of, and how a list of them is written.
use crate::buffer::Text;
use crate::words;
use std::fmt;
use std::fmt::Write;

// The most bytes, or numbers, that a request may have, and the most bytes that it has room for: an encoding of the dense code has up to 102,400.
pub const MAX_LIST: usize = 102416;

// The most numbers that a request has room for.
pub const MAX_NUMBERS: usize = 4100;

// An encoding grows by a codeword of at most 47 bits.
pub const GROWN: usize = 6;

pub const MAX_BUFFER: usize = MAX_LIST + GROWN;

// The digits of a byte, one of which stands for four bits.
const DIGITS: [u8; 16] = *b"0123456789ABCDEF";

// A number of a row, in decimal, or a byte, in two hexadecimal digits.
pub trait Element: Copy + PartialEq {
    // What a fresh output is filled with, so that what a call leaves alone shows.
    const FRESH: Self;

    fn read(word: &[u8]) -> Option<Self>;

    fn say(self, text: &mut Text) -> fmt::Result;
}

impl Element for u32 {
    const FRESH: u32 = 7777777;

    fn read(word: &[u8]) -> Option<u32> {
        u32::try_from(words::decimal(word)?).ok()
    }

    fn say(self, text: &mut Text) -> fmt::Result {
        write!(text, "{self}")
    }
}

impl Element for u8 {
    const FRESH: u8 = 0xA5;

    fn read(word: &[u8]) -> Option<u8> {
        let [high, low] = word else {
            return None;
        };
        let high = char::from(*high).to_digit(16)?;
        let low = char::from(*low).to_digit(16)?;
        u8::try_from(16 * high + low).ok()
    }

    fn say(self, text: &mut Text) -> fmt::Result {
        text.push(DIGITS[usize::from(self / 16)])?;
        text.push(DIGITS[usize::from(self % 16)])
    }
}

// Elements that are equal, one after another: ten or more are abbreviated.
fn put_run<T: Element>(text: &mut Text, run: &[T]) -> fmt::Result {
    let times = run.len();
    if let [first, ..] = run
        && 10 <= times
    {
        text.push(b' ')?;
        first.say(text)?;
        return write!(text, "x{times}");
    }
    for element in run {
        text.push(b' ')?;
        element.say(text)?;
    }
    Ok(())
}

// A list, each element after a space.
pub fn put_list<T: Element>(text: &mut Text, list: &[T]) -> fmt::Result {
    if list.is_empty() {
        return write!(text, " none");
    }
    for equal in list.chunk_by(|a, b| a == b) {
        put_run(text, equal)?;
    }
    Ok(())
}

// The first bits of bytes.
pub fn put_bits(text: &mut Text, s: &[u8], count: usize) -> fmt::Result {
    for k in 0..count {
        text.push(if bits::bit(s, k) { b'1' } else { b'0' })?;
    }
    Ok(())
}
