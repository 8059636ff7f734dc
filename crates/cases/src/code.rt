//! A case's answer as a field number.
ghost use Rattle.std.specs.Prelude.{◌≡◌};
ghost use Rattle.cases.specs.Code.{code_of};

/// The field number by which a pack gives a case's answer: 16 times the place, and one more than the number; none for a number over 15
/// or a place over 65535, which no recorded answer has.
pub fn code_of(number: u32, place: usize) -> Option<u64>
    ensures { result ≡ code_of number place }
{
    if number > 15 || place > 65535 {
        return None;
    }
    // a cast: a `u64` has no `From` of a `usize`
    Some(place as u64 * 16 + u64::from(number) + 1)
}
