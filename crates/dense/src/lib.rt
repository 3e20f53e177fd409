// The (s, c)-dense codes of bytes, s from 1 to 254 and c the rest: the limits that calls on them check.
#![tactic(auto)]

ghost use Rattle.std.specs.Prelude.{◌≡◌, ◌≤◌, true, false, MatchResult};
ghost use Rattle.calls.specs.declared.Refusal.TheVariants.{BadStoppers};
ghost use Rattle.dense.specs.Limits.{is_stoppers, continuers};

use calls::Refusal;

// The limit of paper 02 (R-2): how many bytes a dense encoding has at most.
pub const MAX_BYTES: usize = 102400;

// How many byte values are stoppers: s, from 1 to 254.
#[derive(Clone, Copy)]
pub struct Stoppers {
    s: u32,
    ghost legal: { (1 ≤ s) × (s ≤ 254) },
}

impl Stoppers {
    // The check of s, which both operations make first.
    #[tactic(auto, unfolding(crate::specs::Limits::is_stoppers))]
    pub fn new(stoppers: usize) -> Result<Stoppers, Refusal>
        ensures { MatchResult result (λ k. (k.s ≡ stoppers) × (is_stoppers stoppers ≡ true)) (λ r. (r ≡ BadStoppers) × (is_stoppers stoppers ≡ false)) }
    {
        if 1 <= stoppers && stoppers <= 254 {
            Ok(Stoppers { s: stoppers as u32 })
        } else {
            Err(Refusal::BadStoppers)
        }
    }

    // How many there are.
    pub fn s(self) -> u32
        ensures { result ≡ self.s }
    {
        self.s
    }

    // How many byte values are continuers: all others.
    pub fn continuers(self) -> u32
        ensures { result ≡ continuers self.s }
    {
        256 - self.s
    }
}
