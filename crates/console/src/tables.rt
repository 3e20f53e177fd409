// The table of the table decoder, a row at a time.
ghost use Rattle.std.specs.Prelude.{◌<◌, IfSome};

use crate::buffer::Text;
use crate::elements::MAX_LIST;
use crate::words::Words;
use byte_table::{Rest, Row};
use std::fmt;
use std::fmt::Write;

// The longest pending codeword whose value is moved.
const MAX_LENGTH: usize = 37;

// The row for a byte, which these words give, after so many ones.
fn looked_up(ones: usize, words: Words) -> Option<Row>
    ensures { IfSome result (λ r. (r.coef0 < 512) × (r.coef1 < 512) × (r.coef2 < 512)) }
{
    let mut bytes = [0u8; MAX_LIST];
    match words.list(&mut bytes)? {
        [b] if ones <= 2 => Some(byte_table::look_up(256 * ones + usize::from(*b))),
        _ => None,
    }
}

pub fn row(mut words: Words, text: &mut Text) -> Option<fmt::Result> {
    let ones = words.number()?;
    let row = looked_up(ones, words)?;
    let Row {
        count,
        len,
        coef0,
        coef1,
        coef2,
        second,
        third,
        rest,
    } = row;
    let Rest {
        len: bits,
        value,
        ones,
    } = rest;
    Some(write!(
        text,
        "ended {count}; finishing: bits {len}, values {coef0} {coef1} {coef2}; inside {second} {third}; remaining: bits {bits}, value {value}, ones {ones}"
    ))
}

// What the row's bits are worth after so many others.
pub fn value(mut words: Words, text: &mut Text) -> Option<fmt::Result> {
    let ones = words.number()?;
    let len = words.number()?;
    let row = looked_up(ones, words)?;
    if MAX_LENGTH < len {
        return None;
    }
    let value = row.moved(len);
    Some(write!(text, "value {value}"))
}
