// Requests: what each takes, as the help has it, and what answers it.
use crate::buffer::Text;
use crate::operations::{Changing, EncodingQuestion, IndexQuestion, Reading, Writing};
use crate::words::Words;
use crate::{coded, listings, tables};
use std::fmt;
use std::fmt::Write;

#[derive(Clone, Copy)]
pub enum Request {
    Codewords,
    Writing(Writing),
    Reading(Reading),
    Encoding(EncodingQuestion),
    Index(IndexQuestion),
    Changing(Changing),
    Listing,
    ListingText,
    TableRow,
    TableValue,
    Help,
}

// A request, its name with what follows it, and an example.
type Entry = (Request, &'static str, &'static str);

// In the order of the help.
const REQUESTS: [Entry; 22] = [
    (
        Request::Codewords,
        "codewords ORDER ROW",
        "codewords 2 3 1 4 2 1",
    ),
    (
        Request::Writing(Writing::Write),
        "write ORDER ROW",
        "write 2 3 1 4 2 1",
    ),
    (
        Request::Reading(Reading::Read),
        "read ORDER BYTES",
        "read 2 3E DE",
    ),
    (
        Request::Reading(Reading::TableRead),
        "table-read BYTES",
        "table-read 6D B8",
    ),
    (
        Request::Writing(Writing::TableReadBytes),
        "table-read-bytes BYTES",
        "table-read-bytes 6D B8",
    ),
    (
        Request::Writing(Writing::DenseWrite),
        "dense-write STOPPERS ROW",
        "dense-write 128 129 16512",
    ),
    (
        Request::Reading(Reading::DenseRead),
        "dense-read STOPPERS BYTES",
        "dense-read 128 80 00 FF 7F",
    ),
    (
        Request::Encoding(EncodingQuestion::Header),
        "header ORDER BYTES",
        "header 2 3E DE",
    ),
    (
        Request::Changing(Changing::Append),
        "append ORDER NUMBER BITS COUNT TOTAL BYTES",
        "append 2 600 15 5 11 3E DE",
    ),
    (
        Request::Changing(Changing::Replace),
        "replace ORDER PLACE NUMBER BYTES",
        "replace 2 2 1 3E DE",
    ),
    (
        Request::Changing(Changing::Preview),
        "preview ORDER PLACE NUMBER BYTES",
        "preview 2 2 600 3E DE",
    ),
    (
        Request::Encoding(EncodingQuestion::Total),
        "total ORDER FROM TO BYTES",
        "total 2 0 5 3E DE",
    ),
    (
        Request::Encoding(EncodingQuestion::RepeatedTotal),
        "repeated-total ORDER REPEATS SHARED BYTES",
        "repeated-total 3 11 20 6D B8",
    ),
    (
        Request::Writing(Writing::Build),
        "build ORDER ALPHABET ROW",
        "build 2 4 3 1 4 2 1",
    ),
    (
        Request::Index(IndexQuestion::Extract),
        "extract ORDER ALPHABET LENGTH PLACE INDEX",
        "extract 2 4 5 2 6B 40",
    ),
    (
        Request::Index(IndexQuestion::Rank),
        "rank ORDER ALPHABET LENGTH NUMBER PLACE INDEX",
        "rank 2 4 5 1 3 6B 40",
    ),
    (
        Request::Index(IndexQuestion::Select),
        "select ORDER ALPHABET LENGTH NUMBER USE INDEX",
        "select 2 4 5 1 2 6B 40",
    ),
    (Request::Listing, "listing ORDER ROW", "listing 2 3 1 4 2 1"),
    (
        Request::ListingText,
        "listing-text TIMES TEXT",
        "listing-text 1          2$",
    ),
    (Request::TableRow, "table-row ONES BYTE", "table-row 1 B7"),
    (
        Request::TableValue,
        "table-value ONES LENGTH BYTE",
        "table-value 1 4 B7",
    ),
    (Request::Help, "help", "help"),
];

// What may stand before a request that writes, and an example.
pub const ROOM: (&str, &str) = ("room N REQUEST", "room 3 write 2 3 1 4 2 1");

const NOTES: &str = "\
ROW: numbers; 1x4096 is 4096 ones. BYTES, INDEX: two hexadecimal digits each; FFx1024 is 1024 times FF.
ORDER: 2 to 6. ALPHABET: the largest number of an index. FROM, TO, PLACE: from 0; USE: from 1.
BITS COUNT TOTAL: the header of BYTES: bits in use, how many numbers they hold, and their total.
STOPPERS: how many byte values, from 0 up, end a codeword of the dense code, 1 to 254.
REPEATS: 1 to 10000. SHARED: what each repeat has in common with the next, 0 up to the row's total.
table-..: by the table for order 3. TEXT: input of the listing program; $ is a line feed, ^ a carriage return, ~ a tab.
preview: what replace would answer; nothing is written. Its buffer begins with BYTES too.
room N: the output of a request that writes has N elements, and all are shown; that of append and replace begins with BYTES.
NO n: a refusal, with its number. A line that begins with # is passed over.";

impl Request {
    // The request that a word names, and its usage.
    pub fn named(name: &[u8]) -> Option<(Request, &'static str)> {
        for (request, usage, _) in REQUESTS {
            if Words::new(usage.as_bytes())
                .next()
                .is_some_and(|word| word == name)
            {
                return Some((request, usage));
            }
        }
        None
    }

    // The answer to a request whose name these words follow, and the room of whose output may be named. None where the words have another form, or a room is named
    // and there is no output, or none so large.
    pub fn answer(self, words: Words, room: Option<usize>, text: &mut Text) -> Option<fmt::Result> {
        match (self, room) {
            (Request::Writing(writing), _) => writing.answer(words, room, text),
            (Request::Reading(reading), _) => reading.answer(words, room, text),
            (Request::Changing(changing), _) => changing.answer(words, room, text),
            (_, Some(_)) => None,
            (Request::Encoding(question), None) => question.answer(words, text),
            (Request::Index(question), None) => question.answer(words, text),
            (Request::Codewords, None) => coded::answer(words, text),
            (Request::Listing, None) => listings::of_row(words, text),
            (Request::ListingText, None) => listings::of_text(words, text),
            (Request::TableRow, None) => tables::row(words, text),
            (Request::TableValue, None) => tables::value(words, text),
            (Request::Help, None) => help(words, text),
        }
    }
}

// The help without its last line feed, which follows every answer.
fn written(text: &mut Text) -> fmt::Result {
    writeln!(text, "A request is a line:")?;
    for (_, usage, example) in REQUESTS {
        writeln!(text, "    {usage:<48}{example}")?;
    }
    let (usage, example) = ROOM;
    writeln!(text, "    {usage:<48}{example}")?;
    write!(text, "{NOTES}")
}

fn help(mut words: Words, text: &mut Text) -> Option<fmt::Result> {
    if words.next().is_some() {
        return None;
    }
    Some(written(text))
}
