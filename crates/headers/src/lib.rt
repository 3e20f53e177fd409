// What goes with an encoding: how many bits are in use, how many numbers they hold, and their total (paper 02, R-4: a head).
#![tactic(auto)]

ghost use Rattle.std.specs.Prelude.{◌≡◌};
ghost use Rattle.bits.specs.Bits.{byte_count};
ghost use Rattle.headers.specs.Headers.{capacity, is_bad_header};

#[derive(Clone, Copy)]
pub struct Header {
    pub bits: usize,
    pub count: usize,
    pub total: u64,
}

// The largest total of a row: 4,096 times 4,294,967,295.
pub const MAX_TOTAL: u64 = 17592186040320;

// How many bits an encoding may have in a buffer of so many bytes: as many as these have, and 192,512 at most.
#[tactic(auto, unfolding(crate::specs::Headers::capacity))]
pub fn capacity(room: usize) -> usize
    ensures { result ≡ capacity room }
{
    8 * room.min(calls::MAX_BYTES)
}

impl Header {
    // The check of a header that comes with a buffer of so many bytes.
    #[tactic(auto, unfolding(crate::specs::Headers::is_bad_header))]
    pub fn is_bad(self, room: usize) -> bool
        ensures { result ≡ is_bad_header room self }
    {
        self.bits > capacity(room) || (self.count > calls::MAX_COUNT || self.total > MAX_TOTAL)
    }

    // How many bytes the bits in use take.
    pub fn bytes(self) -> usize
        ensures { result ≡ byte_count self.bits }
    {
        self.bits.div_ceil(8)
    }
}
