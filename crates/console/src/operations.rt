// The requests that an operation of the library answers, by what it is lent besides.
use crate::buffer::Text;
use crate::elements;
use crate::elements::{Element, GROWN, MAX_BUFFER, MAX_LIST, MAX_NUMBERS};
use crate::words::Words;
use answers::Answer;
use calls::Refusal;
use headers::Header;
use std::fmt;
use std::fmt::Write;

// ## What is answered

// What the results of an operation are.
#[derive(Clone, Copy)]
pub enum Results {
    // Bytes in use with their header, as they were written or would be.
    Encoding,
    Preview,
    Header,
    // How many numbers there are, in a row or in bytes, four each.
    Row,
    Fours,
    Bytes,
    Bits,
    Total,
    // What was asked for, and how many nodes were visited.
    Number,
    Uses,
    Place,
}

// What an operation answers: the six numbers, and what its results are, or the refusal, which has its words.
#[derive(Clone, Copy)]
pub struct Told {
    numbers: Answer,
    about: Result<Results, Refusal>,
}

impl Told {
    pub fn new<T>(results: Results, answer: Result<T, Refusal>) -> Told
    where
        T: Copy,
        Answer: From<Result<T, Refusal>>,
    {
        Told {
            numbers: Answer::from(answer),
            about: answer.map(|_| results),
        }
    }

    pub fn is_refusal(self) -> bool {
        self.about.is_err()
    }

    // How many elements of an output were written.
    fn written(self) -> Option<usize> {
        let n = usize::try_from(self.numbers.first).ok()?;
        match self.about.ok()? {
            Results::Encoding | Results::Row | Results::Bytes => Some(n),
            Results::Fours => n.checked_mul(4),
            Results::Bits => Some(n.div_ceil(8)),
            _ => None,
        }
    }
}

// The results by their names. Of a refusal its number, its place where paper 01 gives one, and its words.
impl fmt::Display for Told {
    fn fmt<W: fmt::Write>(&self, f: &mut fmt::Formatter<W>) -> fmt::Result {
        let Answer {
            number,
            place,
            first,
            second,
            third,
            fourth,
        } = self.numbers;
        match self.about {
            Ok(Results::Encoding | Results::Preview) => write!(
                f,
                "bytes {first}, bits {second}, count {third}, total {fourth}"
            ),
            Ok(Results::Header) => write!(f, "bits {first}, count {second}, total {third}"),
            Ok(Results::Row | Results::Fours) => write!(f, "count {first}"),
            Ok(Results::Bytes) => write!(f, "bytes {first}"),
            Ok(Results::Bits) => write!(f, "bits {first}"),
            Ok(Results::Total) => write!(f, "total {first}"),
            Ok(Results::Number) => write!(f, "number {first}, visits {second}"),
            Ok(Results::Uses) => write!(f, "count {first}, visits {second}"),
            Ok(Results::Place) => write!(f, "place {first}, visits {second}"),
            Err(r @ (Refusal::BadNumber(_) | Refusal::TooLarge(_) | Refusal::OutsideAlphabet(_))) =>
                write!(f, "NO {number}, place {place}: {r}"),
            Err(r) => write!(f, "NO {number}: {r}"),
        }
    }
}

// The answer, and behind a label the output: the whole where its room was named, else what was written.
fn tell_with<T: Element>(
    text: &mut Text,
    told: Told,
    label: &str,
    whole: bool,
    out: &[T],
) -> fmt::Result {
    write!(text, "{told}")?;
    let shown = if whole {
        Some(out)
    } else {
        told.written().and_then(|n| out.get(..n))
    };
    let Some(list) = shown else {
        return Ok(());
    };
    write!(text, "; {label}")?;
    elements::put_list(text, list)
}

// So much of an output as was named, or all of it. None where it has not so much.
fn sized<T>(out: &mut [T], room: Option<usize>) -> Option<&mut [T]> {
    match room {
        Some(n) => out.get_mut(..n),
        None => Some(out),
    }
}

// ## A fresh output of bytes

#[derive(Clone, Copy)]
pub enum Writing {
    Write,
    TableReadBytes,
    DenseWrite,
    Build,
}

impl Writing {
    // What stands before what was written.
    fn label(self) -> &'static str {
        match self {
            Writing::Write | Writing::DenseWrite => "encoding",
            Writing::TableReadBytes => "bytes",
            Writing::Build => "index",
        }
    }

    fn call(self, mut words: Words, out: &mut [u8]) -> Option<Told> {
        let mut row = [0u32; MAX_LIST];
        let mut bytes = [0u8; MAX_LIST];
        Some(match self {
            Writing::Write => {
                let order = words.number()?;
                let row = words.list(&mut row)?;
                Told::new(Results::Encoding, encoder::write(order, row, out))
            }
            Writing::TableReadBytes => {
                let s = words.list(&mut bytes)?;
                Told::new(Results::Fours, table_decoder::read_bytes(s, out))
            }
            Writing::DenseWrite => {
                let stoppers = words.number()?;
                let row = words.list(&mut row)?;
                Told::new(Results::Bytes, dense_encoder::write(stoppers, row, out))
            }
            Writing::Build => {
                let order = words.number()?;
                let alphabet = words.number()?;
                let row = words.list(&mut row)?;
                Told::new(
                    Results::Bits,
                    wavelet_build::build(order, alphabet, row, out),
                )
            }
        })
    }

    // Up to 64 bits of the bitmaps of an index are shown as bits too.
    fn tell(self, text: &mut Text, told: Told, whole: bool, out: &[u8]) -> fmt::Result {
        let label = if whole { "output" } else { self.label() };
        tell_with(text, told, label, whole, out)?;
        match (told.about, told.numbers.first) {
            (Ok(Results::Bits), bits @ 1..=64) => {
                write!(text, "; bitmaps ")?;
                elements::put_bits(text, out, bits as usize)
            }
            _ => Ok(()),
        }
    }

    pub fn answer(self, words: Words, room: Option<usize>, text: &mut Text) -> Option<fmt::Result> {
        let mut array = [u8::FRESH; MAX_LIST];
        let out = sized(&mut array, room)?;
        let told = self.call(words, out)?;
        Some(self.tell(text, told, room.is_some(), out))
    }
}

// ## A fresh output of numbers

#[derive(Clone, Copy)]
pub enum Reading {
    Read,
    TableRead,
    DenseRead,
}

impl Reading {
    fn call(self, mut words: Words, out: &mut [u32]) -> Option<Told> {
        let mut bytes = [0u8; MAX_LIST];
        let count = match self {
            Reading::Read => {
                let order = words.number()?;
                decoder::read(order, words.list(&mut bytes)?, out)
            }
            Reading::TableRead => table_decoder::read(words.list(&mut bytes)?, out),
            Reading::DenseRead => {
                let stoppers = words.number()?;
                dense_decoder::read(stoppers, words.list(&mut bytes)?, out)
            }
        };
        Some(Told::new(Results::Row, count))
    }

    pub fn answer(self, words: Words, room: Option<usize>, text: &mut Text) -> Option<fmt::Result> {
        let mut array = [u32::FRESH; MAX_NUMBERS];
        let out = sized(&mut array, room)?;
        let told = self.call(words, out)?;
        let label = if room.is_some() { "output" } else { "row" };
        Some(tell_with(text, told, label, room.is_some(), out))
    }
}

// ## A buffer that begins with the bytes that are given

#[derive(Clone, Copy)]
pub enum Changing {
    Append,
    Replace,
    Preview,
}

// The bytes that these words give, with room behind them: so much in all as was named, or enough; and how many bytes they are. None where the words have another
// form, or so much room cannot be named.
fn begun<'a>(
    words: Words,
    room: Option<usize>,
    buf: &'a mut [u8],
) -> Option<(&'a mut [u8], usize)> {
    let used = words.list(buf.get_mut(..MAX_LIST)?)?.len();
    let size = match room {
        None => used.checked_add(GROWN)?,
        Some(n) if n <= MAX_LIST => n,
        Some(_) => return None,
    };
    Some((buf.get_mut(..size)?, used))
}

impl Changing {
    // The answer, and how much of the buffer was lent.
    fn call(self, mut words: Words, room: Option<usize>, buf: &mut [u8]) -> Option<(Told, usize)> {
        let order = words.number()?;
        match self {
            Changing::Append => {
                let n = words.number()?;
                let bits = words.number()?;
                let count = words.number()?;
                let total = words.number()?;
                let header = Header { bits, count, total };
                let (out, _) = begun(words, room, buf)?;
                let answer = appender::append(order, out, header, n);
                Some((Told::new(Results::Encoding, answer), out.len()))
            }
            Changing::Replace => {
                let place = words.number()?;
                let n = words.number()?;
                let (out, used) = begun(words, room, buf)?;
                let answer = replacer::replace(order, out, used, place, n);
                Some((Told::new(Results::Encoding, answer), out.len()))
            }
            Changing::Preview => {
                let place = words.number()?;
                let n = words.number()?;
                let (out, used) = begun(words, room, buf)?;
                let answer = replacer::preview(order, out, used, place, n);
                Some((Told::new(Results::Preview, answer), out.len()))
            }
        }
    }

    pub fn answer(self, words: Words, room: Option<usize>, text: &mut Text) -> Option<fmt::Result> {
        let mut array = [u8::FRESH; MAX_BUFFER];
        let (told, size) = self.call(words, room, &mut array)?;
        let label = if room.is_some() { "buffer" } else { "encoding" };
        Some(tell_with(text, told, label, room.is_some(), array.get(..size)?))
    }
}

// ## Questions, which write nothing

#[derive(Clone, Copy)]
pub enum EncodingQuestion {
    Header,
    Total,
    RepeatedTotal,
}

impl EncodingQuestion {
    fn call(self, mut words: Words) -> Option<Told> {
        let mut bytes = [0u8; MAX_LIST];
        let order = words.number()?;
        match self {
            EncodingQuestion::Header => {
                let s = words.list(&mut bytes)?;
                Some(Told::new(Results::Header, header_reader::read(order, s)))
            }
            EncodingQuestion::Total => {
                let from = words.number()?;
                let to = words.number()?;
                let s = words.list(&mut bytes)?;
                Some(Told::new(Results::Total, totals::total(order, s, from, to)))
            }
            EncodingQuestion::RepeatedTotal => {
                let repeats = words.number()?;
                let shared = words.number()?;
                let s = words.list(&mut bytes)?;
                Some(Told::new(
                    Results::Total,
                    totals::repeated_total(order, s, repeats, shared),
                ))
            }
        }
    }

    pub fn answer(self, words: Words, text: &mut Text) -> Option<fmt::Result> {
        let told = self.call(words)?;
        Some(write!(text, "{told}"))
    }
}

#[derive(Clone, Copy)]
pub enum IndexQuestion {
    Extract,
    Rank,
    Select,
}

impl IndexQuestion {
    fn call(self, mut words: Words) -> Option<Told> {
        let mut bytes = [0u8; MAX_LIST];
        let order = words.number()?;
        let alphabet = words.number()?;
        let len = words.number()?;
        match self {
            IndexQuestion::Extract => {
                let place = words.number()?;
                let s = words.list(&mut bytes)?;
                let answer = wavelet_query::extract(order, alphabet, len, s, place);
                Some(Told::new(Results::Number, answer))
            }
            IndexQuestion::Rank => {
                let n = words.number()?;
                let place = words.number()?;
                let s = words.list(&mut bytes)?;
                let answer = wavelet_query::rank(order, alphabet, len, s, n, place);
                Some(Told::new(Results::Uses, answer))
            }
            IndexQuestion::Select => {
                let n = words.number()?;
                let nth = words.number()?;
                let s = words.list(&mut bytes)?;
                let answer = wavelet_query::select(order, alphabet, len, s, n, nth);
                Some(Told::new(Results::Place, answer))
            }
        }
    }

    pub fn answer(self, words: Words, text: &mut Text) -> Option<fmt::Result> {
        let told = self.call(words)?;
        Some(write!(text, "{told}"))
    }
}
