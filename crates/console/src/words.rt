// The words of a line, and what they say. Blanks stand between words.
ghost use Rattle.std.specs.Prelude.{◌≤◌, length};
ghost use Rattle.std.specs.Iterator.{at_most};

use crate::elements::Element;

fn is_blank(b: u8) -> bool {
    b == b' ' || b == b'\t' || b == b'\r'
}

// What is left of a line.
#[derive(Clone, Copy)]
pub struct Words<'a> {
    left: &'a [u8],
}

impl<'a> Iterator for Words<'a> {
    type Item = &'a [u8];

    ghost remaining = { λ s. at_most (length s.left.now) };

    fn next(&mut self) -> Option<&'a [u8]> {
        let left = self.left;
        let from = left.iter().position(|b| !is_blank(*b))?;
        let others = &left[from + 1..];
        let end = others
            .iter()
            .position(|b| is_blank(*b))
            .unwrap_or(others.len());
        self.left = &others[end..];
        Some(&left[from..from + 1 + end])
    }
}

impl<'a> Words<'a> {
    pub fn new(line: &'a [u8]) -> Words<'a> {
        Words { left: line }
    }

    // What stands behind the blank after the last word.
    pub fn text(self) -> &'a [u8] {
        self.left.get(1..).unwrap_or(&[])
    }

    // The next word as a decimal number.
    pub fn number<T: TryFrom<u64>>(&mut self) -> Option<T>
    where
        T::Error: Drop,
    {
        T::try_from(decimal(self.next()?)?).ok()
    }

    // All the words that are left, as a row or as bytes, as far as there is room: each `600` or `1x4096`, or `6B` or `FFx1024`.
    pub fn list<'b, T: Element>(self, list: &'b mut [T]) -> Option<&'b [T]> {
        let mut used: usize = 0;
        for word in self {
            let (element, times) = repeated(word)?;
            let end = used.checked_add(times)?;
            let value = T::read(element)?;
            for place in list.get_mut(used..end)? {
                *place = value;
            }
            used = end;
        }
        list.get(..used)
    }
}

// An element, and how often it stands there: the number after its x, and else once.
fn repeated(word: &[u8]) -> Option<(&[u8], usize)> {
    let Some(x) = word.iter().position(|b| *b == b'x') else {
        return Some((word, 1));
    };
    let times = usize::try_from(decimal(&word[x + 1..])?).ok()?;
    Some((&word[..x], times))
}

// A decimal number, of 64 bits at most.
pub fn decimal(word: &[u8]) -> Option<u64> {
    if word.is_empty() {
        return None;
    }
    let mut n: u64 = 0;
    for &b in word {
        let digit = char::from(b).to_digit(10)?;
        n = n.checked_mul(10)?.checked_add(u64::from(digit))?;
    }
    Some(n)
}
