// The codewords of a row, each beside its number.
use crate::buffer::Text;
use crate::elements;
use crate::elements::MAX_LIST;
use crate::operations::{Results, Told};
use crate::words::Words;
use answers::Answer;
use std::fmt;
use std::fmt::Write;

fn put_codeword(text: &mut Text, order: usize, n: u32) -> fmt::Result {
    let mut out = [0u8; 8];
    let answer = Answer::from(encoder::write(order, &[n], &mut out));
    write!(text, "{n} ")?;
    elements::put_bits(text, &out, answer.second as usize)
}

// The codewords of a row that writing accepts.
fn tell(text: &mut Text, order: usize, row: &[u32]) -> fmt::Result {
    let mut out = [0u8; calls::MAX_BYTES];
    let told = Told::new(Results::Encoding, encoder::write(order, row, &mut out));
    if told.is_refusal() {
        return write!(text, "{told}");
    }
    if row.is_empty() {
        return write!(text, "none");
    }
    for (i, &n) in row.iter().enumerate() {
        if 0 < i {
            write!(text, ", ")?;
        }
        put_codeword(text, order, n)?;
    }
    Ok(())
}

pub fn answer(mut words: Words, text: &mut Text) -> Option<fmt::Result> {
    let mut row = [0u32; MAX_LIST];
    let order = words.number()?;
    Some(tell(text, order, words.list(&mut row)?))
}
