// The console: reads requests from standard input, a line each, and prints the answer to each line before it reads on.
#![tactic(auto)]

mod buffer;
mod coded;
mod elements;
mod listings;
mod operations;
mod requests;
mod serve;
mod tables;
mod words;

use buffer::{Buffer, Text};
use std::io::Read;
use thiserror::Error;

// The most bytes of a line: the longest row, the largest index and the longest encoding fit. One of the dense code may have 102,400 bytes, of three characters
// each.
const MAX_LINE: usize = 327679;

// How many bytes a read asks for.
const CHUNK_BYTES: usize = 65536;

// Why the console ends before its input.
#[derive(Clone, Copy, Debug, Error)]
enum Trouble {
    #[error("leadginger: the input cannot be read")]
    Input,
    #[error("leadginger: the output cannot be written")]
    Output,
}

// The line that is being read: its bytes, as far as they fit, and whether it has more.
#[derive(Drop)]
struct Line {
    bytes: Buffer<MAX_LINE>,
    long: bool,
}

// The answer to a line, printed at once.
fn answer(rt: &impl Print, line: &Line, text: &mut Text) -> Result<(), Trouble> {
    text.clear();
    if line.long {
        text.put(b"expected a line of at most 327679 bytes\n");
    } else {
        serve::line(line.bytes.bytes(), text);
    }
    rt.write_all(text.bytes()).map_err(|_| Trouble::Output)
}

// More bytes of the input: each line feed among them ends a line, which is answered.
fn take(rt: &impl Print, bytes: &[u8], line: &mut Line, text: &mut Text) -> Result<(), Trouble> {
    for (i, piece) in bytes.split(|b| *b == b'\n').enumerate() {
        if 0 < i {
            answer(rt, line, text)?;
            line.bytes.clear();
            line.long = false;
        }
        if !line.bytes.put(piece) {
            line.long = true;
        }
    }
    Ok(())
}

// Answers each line of the input, of which the last may lack its line feed. A proved loop has to end, and nothing says that an input does: there are as many
// reads as no run uses up.
fn serve_all(rt: &impl Print, input: &mut impl Read) -> Result<(), Trouble> {
    let mut chunk = [0u8; CHUNK_BYTES];
    let mut text = Text::new();
    let mut line = Line {
        bytes: Buffer::new(),
        long: false,
    };
    for _ in 0..u64::MAX {
        let n = input.read(&mut chunk).map_err(|_| Trouble::Input)?;
        if n == 0 {
            break;
        }
        take(rt, &chunk[..n], &mut line, &mut text)?;
    }
    if line.bytes.is_empty() {
        return Ok(());
    }
    answer(rt, &line, &mut text)
}

fn main(rt: HostRuntime) {
    if let Err(trouble) = serve_all(&rt, &mut rt.stdin()) {
        // Where standard error takes nothing either, there is nobody to tell.
        let _ = rt.eprintln(trouble);
    }
}
