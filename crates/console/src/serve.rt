// The answer to a line.
use crate::buffer::Text;
use crate::requests;
use crate::requests::Request;
use crate::words::Words;
use std::fmt;
use std::fmt::Write;

fn expected(usage: &str, text: &mut Text) -> fmt::Result {
    write!(text, "expected: {usage}")
}

// The answer to the request that a word names.
fn requested(name: &[u8], words: Words, room: Option<usize>, text: &mut Text) -> fmt::Result {
    let Some((request, usage)) = Request::named(name) else {
        return write!(text, "expected a request: help lists them");
    };
    match request.answer(words, room, text) {
        Some(told) => told,
        None => expected(usage, text),
    }
}

// A number, and then a request.
fn with_room(mut words: Words, text: &mut Text) -> fmt::Result {
    let Some(room) = words.number() else {
        let (usage, _) = requests::ROOM;
        return expected(usage, text);
    };
    let name = words.next().unwrap_or(&[]);
    requested(name, words, Some(room), text)
}

// The answer without its last line feed; nothing for a line without words, and for a comment.
fn answer(line: &[u8], text: &mut Text) -> fmt::Result {
    let mut words = Words::new(line);
    match words.next() {
        None | Some([b'#', ..]) => Ok(()),
        Some(b"room") => with_room(words, text),
        Some(name) => requested(name, words, None, text),
    }
}

// No answer is longer than there is room for.
pub fn line(line: &[u8], text: &mut Text) {
    let _ = answer(line, text);
    if !text.is_empty() {
        text.put(b"\n");
    }
}
