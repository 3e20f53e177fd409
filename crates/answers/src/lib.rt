// What a call answers as six numbers: the papers' answer number, the place, and four results, which are zeros where there are none. The console and the
// probes go by it.
#![tactic(auto)]

ghost use Rattle.std.specs.Prelude.{◌≡◌, Ok, Err};
ghost use Rattle.answers.specs.Leaves.{six, single, pair, three, headed, values};

use calls::Refusal;
use headers::Header;

#[derive(Clone, Copy)]
pub struct Answer {
    pub number: u64,
    pub place: u64,
    pub first: u64,
    pub second: u64,
    pub third: u64,
    pub fourth: u64,
}

impl Answer {
    fn accepted(first: u64, second: u64, third: u64, fourth: u64) -> Answer
        ensures { values result ≡ six (Ok (first, second, third, fourth)) }
    {
        Answer {
            number: 0,
            place: 0,
            first,
            second,
            third,
            fourth,
        }
    }
}

impl From<Refusal> for Answer {
    ghost from_gives = { λ r a. values a ≡ six (Err r) };

    fn from(r: Refusal) -> Answer {
        let (number, place) = r.reason();
        Answer {
            number,
            place: place as u64,
            first: 0,
            second: 0,
            third: 0,
            fourth: 0,
        }
    }
}

// A count: of numbers, bits or bytes.
impl From<Result<usize, Refusal>> for Answer {
    ghost from_gives = { λ x a. values a ≡ six (single x) };

    fn from(x: Result<usize, Refusal>) -> Answer {
        match x {
            Ok(count) => Answer::accepted(count as u64, 0, 0, 0),
            Err(r) => Answer::from(r),
        }
    }
}

// A total.
impl From<Result<u64, Refusal>> for Answer {
    ghost from_gives = { λ x a. values a ≡ six (single x) };

    fn from(x: Result<u64, Refusal>) -> Answer {
        match x {
            Ok(total) => Answer::accepted(total, 0, 0, 0),
            Err(r) => Answer::from(r),
        }
    }
}

impl From<Result<Header, Refusal>> for Answer {
    ghost from_gives = { λ x a. values a ≡ six (three x) };

    fn from(x: Result<Header, Refusal>) -> Answer {
        match x {
            Ok(h) => Answer::accepted(h.bits as u64, h.count as u64, h.total, 0),
            Err(r) => Answer::from(r),
        }
    }
}

// How many bytes an encoding has, and its header.
impl From<Result<(usize, Header), Refusal>> for Answer {
    ghost from_gives = { λ x a. values a ≡ six (headed x) };

    fn from(x: Result<(usize, Header), Refusal>) -> Answer {
        match x {
            Ok((bytes, h)) => {
                Answer::accepted(bytes as u64, h.bits as u64, h.count as u64, h.total)
            }
            Err(r) => Answer::from(r),
        }
    }
}

// What a question asks for, and the visits.
impl From<Result<(usize, usize), Refusal>> for Answer {
    ghost from_gives = { λ x a. values a ≡ six (pair x) };

    fn from(x: Result<(usize, usize), Refusal>) -> Answer {
        match x {
            Ok((found, visits)) => Answer::accepted(found as u64, visits as u64, 0, 0),
            Err(r) => Answer::from(r),
        }
    }
}
