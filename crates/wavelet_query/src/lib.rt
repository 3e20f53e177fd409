// The three questions asked of an index, by one walk each.
#![tactic(auto)]

ghost use Rattle.std.specs.Prelude.{◌≡◌, ◌-◌, false, true, MatchResult};
ghost use Rattle.calls.specs.declared.Refusal.TheVariants.{OutsideAlphabet};
ghost use Rattle.calls.specs.Limits.{is_number};
ghost use Rattle.wavelet.specs.Questions.{extract, rank, select};

use calls::Refusal;
use wavelet_walk::Question;

// The check of the number that is asked for.
fn check_number(alphabet: u32, n: u32) -> Result<(), Refusal>
    ensures { MatchResult result (λ _. is_number alphabet n ≡ true) (λ r. (r ≡ OutsideAlphabet 0) × (is_number alphabet n ≡ false)) }
{
    if calls::is_number(u64::from(n), u64::from(alphabet)) {
        Ok(())
    } else {
        Err(Refusal::OutsideAlphabet(0))
    }
}

// How many uses stand before the j-th, j from 1.
fn skipped(j: usize) -> usize
    ensures { result ≡ j - 1 }
{
    j.saturating_sub(1)
}

// The number at place i of the row of `len` numbers up to `alphabet` whose index the bytes are.
#[tactic(auto, using(crate::proofs::Asking::extract_walked))]
pub fn extract(
    order: usize,
    alphabet: u32,
    len: usize,
    b: &[u8],
    i: usize,
) -> Result<(usize, usize), Refusal>
    ensures { result ≡ extract order alphabet len b.now i }
{
    let found = wavelet_walk::walk(order, alphabet, len, b, Question::Extract, 0, i)?;
    if i >= len {
        return Err(Refusal::BadPlace);
    }
    Ok(found)
}

// How often n stands among the first i numbers of that row.
#[tactic(auto, using(crate::proofs::Asking::rank_walked))]
pub fn rank(
    order: usize,
    alphabet: u32,
    len: usize,
    b: &[u8],
    n: u32,
    i: usize,
) -> Result<(usize, usize), Refusal>
    ensures { result ≡ rank order alphabet len b.now n i }
{
    let found = wavelet_walk::walk(order, alphabet, len, b, Question::Rank, n, i)?;
    check_number(alphabet, n)?;
    if i > len {
        return Err(Refusal::BadPlace);
    }
    Ok(found)
}

// The place of the j-th use of n in that row, j from 1: the use that j - 1 others stand before.
#[tactic(auto, using(crate::proofs::Asking::select_walked))]
pub fn select(
    order: usize,
    alphabet: u32,
    len: usize,
    b: &[u8],
    n: u32,
    j: usize,
) -> Result<(usize, usize), Refusal>
    ensures { result ≡ select order alphabet len b.now n j }
{
    let (place, visits) = wavelet_walk::walk(
        order,
        alphabet,
        len,
        b,
        Question::Select,
        n,
        skipped(j),
    )?;
    check_number(alphabet, n)?;
    if j == 0 {
        return Err(Refusal::BadUse);
    }
    if place >= len {
        return Err(Refusal::TooFewUses);
    }
    Ok((place, visits))
}
