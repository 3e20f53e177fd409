// Bytes, with room for so many: a line that is read, an answer that is made, an input that is put together.
ghost use Rattle.std.specs.Prelude.{◌≤◌};

use std::fmt;

// Room for every answer: 102,416 bytes, of three characters each, make the longest.
const MAX_ANSWER: usize = 393216;

// An answer.
pub type Text = Buffer<MAX_ANSWER>;

// The first bytes of an array, so many as are in use.
#[derive(Drop)]
pub struct Buffer<const N: usize> {
    array: [u8; N],
    len: usize,
    ghost within: { len ≤ N },
}

impl<const N: usize> Buffer<N> {
    pub fn new() -> Buffer<N> {
        Buffer {
            array: [0; N],
            len: 0,
        }
    }

    pub fn bytes(&self) -> &[u8] {
        &self.array[..self.len]
    }

    pub fn is_empty(&self) -> bool {
        self.len == 0
    }

    pub fn clear(&mut self) {
        self.len = 0;
    }

    // Puts bytes behind those in use, as far as there is room. The result is whether all of them were put.
    pub fn put(&mut self, more: &[u8]) -> bool {
        let n = more.len().min(N - self.len);
        let end = self.len + n;
        let all = &mut self.array[..];
        all[self.len..end].copy_from_slice(&more[..n]);
        self.len = end;
        n == more.len()
    }

    // A byte more: an error where there is no room.
    pub fn push(&mut self, b: u8) -> fmt::Result {
        if self.len == N {
            return Err(fmt::Error);
        }
        self.array[self.len] = b;
        self.len += 1;
        Ok(())
    }
}

impl<const N: usize> fmt::Write for Buffer<N> {
    fn write_str(&mut self, s: &str) -> fmt::Result {
        if self.put(s.as_bytes()) {
            Ok(())
        } else {
            Err(fmt::Error)
        }
    }
}
