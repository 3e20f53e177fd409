// What every call says: why it refuses, how many there are of something, and the limits that it checks; and how every reader answers.
#![tactic(auto)]

ghost use Rattle.std.specs.Prelude.{◌≡◌, length};
ghost use Rattle.calls.specs.Refusals.{reason};
ghost use Rattle.calls.specs.Calls.{buffer};
ghost use Rattle.calls.specs.Limits.{is_order, is_number};
ghost use Rattle.calls.specs.Reading.{counted};

use thiserror::Error;

// Why a call refuses, in words that are printed: a case for each meaning, of which several may have the same number in the papers.
#[derive(Clone, Copy, Debug, Error)]
pub enum Refusal {
    // 1: the order is not 2 to 6.
    #[error("the order is not 2 to 6")]
    BadOrder,
    // 2: an encoding has more bytes than one can have.
    #[error("more bytes than an encoding can have, or more in use than the buffer has")]
    TooManyBytes,
    // 2: more bytes are in use than the buffer has.
    #[error("more bytes than an encoding can have, or more in use than the buffer has")]
    PastBuffer,
    // 3: the number at this place is 0, or above the limit of a row.
    #[error("a number is 0")]
    BadNumber(usize),
    // 4: a row has more than 4,096 numbers.
    #[error("more than 4096 numbers")]
    TooManyNumbers,
    // 4: a 4,097th codeword ends in an encoding.
    #[error("more than 4096 numbers")]
    TooManyCodewords,
    // 4: a number more would make more than 4,096.
    #[error("more than 4096 numbers")]
    FullRow,
    // 4: the input of the listing program has more bytes than its lines can.
    #[error("more than 4096 numbers")]
    TooMuchInput,
    // 5: an output is too short, or an encoding would have more bits than one can have.
    #[error("the output is too short, or more than 192512 bits would be in use")]
    NoRoom,
    // 6: after the last codeword remain eight bits or more, or a one.
    #[error("8 bits or more, or a one, remain after the last codeword")]
    BadRest,
    // 7: the number at this place of an encoding is above the limit.
    #[error("a number is above 4294967295")]
    TooLarge(usize),
    // 8: the places of a span are not in their order, or not in the row.
    #[error("the place, the span or the use is not in the row")]
    BadSpan,
    // 8: the place is not in the row.
    #[error("the place, the span or the use is not in the row")]
    BadPlace,
    // 8: uses are counted from 1.
    #[error("the place, the span or the use is not in the row")]
    BadUse,
    // 9: the alphabet is not 1 to 4,096.
    #[error("the alphabet is not 1 to 4096")]
    BadAlphabet,
    // 10: the number at this place is 0 or above the alphabet.
    #[error("a number is 0 or above the alphabet")]
    OutsideAlphabet(usize),
    // 11: the bytes are not exactly as many as the bitmaps need, or the padding holds a one.
    #[error("the bytes are no index of so many numbers")]
    NotAnIndex,
    // 12: the number stands in the row fewer times.
    #[error("the number stands in the row fewer times")]
    TooFewUses,
    // 13: a line of the listing program's input has another form, or there is none.
    #[error("a line of the input has another form, or there is none")]
    BadLine,
    // 14: the repeats are not 1 to 10,000.
    #[error("the repeats are not 1 to 10000")]
    BadRepeats,
    // 15: more is shared than the row's total.
    #[error("more is shared than the row's total")]
    TooMuchShared,
    // 16: the stoppers of a dense code are not 1 to 254.
    #[error("the stoppers are not 1 to 254")]
    BadStoppers,
    // 17: the bytes end inside a codeword.
    #[error("the bytes end inside a codeword")]
    Unfinished,
    // 18: a header's bits are more than the buffer or an encoding can have, or its count or total more than a row can.
    #[error("the header has more bits, numbers or total than the buffer or a row can have")]
    BadHeader,
}

impl Refusal {
    // A refusal as the papers give it: its number, and a place, which is 0 where they name none.
    pub fn reason(self) -> (u64, usize)
        ensures { result ≡ reason self }
    {
        match self {
            Refusal::BadOrder => (1, 0),
            Refusal::TooManyBytes => (2, 0),
            Refusal::PastBuffer => (2, 0),
            Refusal::BadNumber(place) => (3, place),
            Refusal::TooManyNumbers => (4, 0),
            Refusal::TooManyCodewords => (4, 0),
            Refusal::FullRow => (4, 0),
            Refusal::TooMuchInput => (4, 0),
            Refusal::NoRoom => (5, 0),
            Refusal::BadRest => (6, 0),
            Refusal::TooLarge(place) => (7, place),
            Refusal::BadSpan => (8, 0),
            Refusal::BadPlace => (8, 0),
            Refusal::BadUse => (8, 0),
            Refusal::BadAlphabet => (9, 0),
            Refusal::OutsideAlphabet(place) => (10, place),
            Refusal::NotAnIndex => (11, 0),
            Refusal::TooFewUses => (12, 0),
            Refusal::BadLine => (13, 0),
            Refusal::BadRepeats => (14, 0),
            Refusal::TooMuchShared => (15, 0),
            Refusal::BadStoppers => (16, 0),
            Refusal::Unfinished => (17, 0),
            Refusal::BadHeader => (18, 0),
        }
    }
}

// The limits of paper 01: the largest number of a row, how many numbers a row has at most, and how many bytes their encoding has at most, in any order.
pub const MAX_NUMBER: u32 = u32::MAX;

pub const MAX_COUNT: usize = 4096;

pub const MAX_BYTES: usize = 24064;

// The check of an order.
#[tactic(auto, unfolding(crate::specs::Limits::is_order))]
pub fn is_order(order: usize) -> bool
    ensures { result ≡ is_order order }
{
    2 <= order && order <= 6
}

// The check of a number, in a row whose numbers go up to a limit.
#[tactic(auto, unfolding(crate::specs::Limits::is_number))]
pub fn is_number(n: u64, limit: u64) -> bool
    ensures { result ≡ is_number limit n }
{
    1 <= n && n <= limit
}

// The row that a reader's scan has stored in a list of its own goes to the output, if that has room.
pub fn deliver(row: &[u32], out: &mut [u32]) -> Result<usize, Refusal>
    ensures answer { result ≡ counted (length out.old) row.now }
    ensures output { out.new ≡ buffer result row.now out.old }
{
    let count = row.len();
    if out.len() < count {
        return Err(Refusal::NoRoom);
    }
    lists::copy(out, row, count);
    Ok(count)
}
