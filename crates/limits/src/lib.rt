//! Refusal 4: the lowest limit that a set passes; and the answer over a set alone.
#![tactic(auto)]

ghost use Rattle.std.specs.Prelude.{◌≡◌, ◌+◌, ◌*◌, ◌≤◌, false, length, IsTrue, IfSome};
ghost use Rattle.descriptor.specs.Limits.{limit_passed};
ghost use Rattle.limits.specs.Answer.{number_or_none, read_set};
ghost use Rattle.limits.specs.Fits.{Held};
ghost use Rattle.limits.specs.Weights.{tally, passes, all_limits};
ghost use Rattle.std.specs.List.{find};

use base::refusal::Refusal;
use descriptor::bytes_in;
use descriptor::field_number::{NAME, SET_FILE};
use limit::{LIMITS, Limit, MAX_FILES, MAX_SET, Passed};
use sort::Sort;
use totals::Totals;
use wire::records::Records;

pub mod limit;
mod sort;
mod strings;
mod totals;

/// A set of at most so many bytes is short: it has at most half as many files, messages, fields and enums.
pub const SHORT: usize = 300;

/// The declarations that count for a limit, in the bytes of a message of a sort with levels left. Around them stands a
/// full name of a length.
// The length and the bytes each by itself, here and in `Sort`: the bound on the length falls with the levels left, so a
// struct of both would have the levels too, and be made anew for each declaration.
#[tactic(auto, using(crate::proofs::WalkLaws::tallies))]
fn count_below(part: &[u8], limit: Limit, sort: Sort, around: usize, left: usize) -> usize
    requires { (length part.now ≤ 32768) × (around + left * 32769 ≤ 655380) }
    ensures tally { result ≡ tally limit left sort around part.now }
    ensures bound { result ≤ length part.now }
{
    if left == 0 || sort.holds_none() {
        return 0;
    }
    let mut count: usize = 0;
    for record in Records::new(part, 0) {
        if let Ok(record) = record
            && let Some(below) = sort.below(left, record.number)
        {
            let bytes = bytes_in(record.value);
            count += usize::from(below.counts(limit, around, bytes));
            let around = below.around_below(around, bytes);
            count += count_below(bytes, limit, below, around, left - 1);
        }
    }
    count
}

/// Does a set pass a limit?
#[tactic(auto, unfolding(crate::specs::Weights::passes))]
fn passes(set: &[u8], limit: Limit) -> bool
    requires { length set.now ≤ 32768 }
    ensures { result ≡ passes limit set.now }
{
    count_below(set, limit, Sort::Set, 0, 19) > limit.most()
}

/// All that counts for the limits 3 to 10 in one walk over the bytes of a message of a sort with levels left; none where
/// one may be passed.
#[tactic(auto, using(crate::proofs::FitLaws::totals))]
fn totals_below(part: &[u8], sort: Sort, left: usize) -> Option<Totals>
    ensures { IfSome result (Held left sort part.now) }
{
    if left == 0 {
        return None;
    }
    let mut totals = Totals::none();
    let mut name = 0;
    for record in Records::new(part, 0) {
        if let Ok(record) = record {
            let bytes = bytes_in(record.value);
            if record.number == NAME {
                name = bytes.len();
            }
            if let Some(below) = sort.below(left, record.number) {
                let inner = if below.holds_none() {
                    Totals::none()
                } else {
                    totals_below(bytes, below, left - 1)?
                };
                let added = below.added_length(bytes, inner.name())?;
                totals = totals.joined(below, added, inner)?;
            }
        }
    }
    Some(totals.with_name(name))
}

/// Does a set pass none of the limits 3 to 10? One that passes none may be answered no, one that passes one never yes.
#[tactic(auto, using(crate::proofs::FitLaws::held_passes))]
fn passes_none(set: &[u8]) -> bool
    ensures { IsTrue result → (limit : Limit) → passes limit set.now ≡ false }
{
    totals_below(set, Sort::Set, 19).is_some()
}

/// The lowest of the limits 3 to 10 that a set passes.
fn first_passed(set: &[u8]) -> Option<Limit>
    requires { length set.now ≤ 32768 }
    ensures { result ≡ find (λ limit. passes limit set.now) all_limits }
{
    LIMITS.iter().copied().find(|&limit| passes(set, limit))
}

/// The lowest limit that a set passes.
#[tactic(auto, using(crate::proofs::AnswerLaws::answers))]
pub fn limit_passed(set: &[u8]) -> Option<Passed>
    ensures { number_or_none result ≡ limit_passed set.now }
{
    if set.len() > MAX_SET {
        return Some(Passed::Bytes);
    }
    if parts::count_parts(set, SET_FILE) > MAX_FILES {
        return Some(Passed::Files);
    }
    if passes_none(set) {
        return None;
    }
    Some(Passed::Declarations(first_passed(set)?))
}

/// Can a set be read, and does it pass no limit? Limit 1 comes before refusal 3, the other limits after it.
#[tactic(auto, using(crate::proofs::AnswerLaws::judged), unfolding(crate::specs::Answer::read_set, base::specs::Choose::choose, descriptor::specs::Limits::passes_1))]
pub fn read_set(set: &[u8]) -> Result<(), Refusal>
    ensures { result ≡ read_set set.now }
{
    if set.len() > MAX_SET {
        return Err(Refusal::Limit {
            limit: Passed::Bytes.number(),
        });
    }
    known_fields::check_set(set).map_err(|fault| Refusal::Unreadable { offset: fault.key })?;
    match limit_passed(set) {
        None => Ok(()),
        Some(limit) => Err(Refusal::Limit {
            limit: limit.number(),
        }),
    }
}
