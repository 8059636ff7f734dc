//! What is judged of a set alone: refusals 3, 4, 6 and 7.
#![tactic(auto)]

ghost use Rattle.std.specs.Prelude.{◌≡◌, ◌≤◌, replicate};
ghost use Rattle.descriptor.specs.Decode.{decode_set};
ghost use Rattle.descriptor.specs.Limits.{limit_passed};
ghost use Rattle.name_rules.specs.Answer.{names};
ghost use Rattle.declarations.specs.Rows.{no_row};
ghost use Rattle.declarations.specs.declared.counts.Count.{Count};
ghost use Rattle.map_entries.specs.declared.Namers.TheVariants.{Nobody};
ghost use Rattle.set_rules.specs.Judge.{judge_set};
ghost use Rattle.set_rules.specs.Room.{Room, Declares};

use base::refusal::Refusal;
use declarations::{Declarations, NO_DECLARATION};
use descriptor::field_number::SET_FILE;
use limits::SHORT;
use map_entries::Namers;
use type_names::Names;

/// A row for each file and each declaration of a set within the limits, and one more.
pub const ROWS: usize = 545;

/// The same of a short set.
pub const SHORT_ROWS: usize = 151;

// Refusals 6 and 7 by the table of a set's declarations; who names each row goes into `who`.
fn judge_rows(full_names: &Names<'_>, who: &mut [Namers]) -> Result<(), Refusal>
    ensures { (count : Count) → full_names.now.declared.count ≡ count.rows → Declares full_names.now.declared.set.now full_names.now.declared.rows.now count who.old → result ≡ names (decode_set full_names.now.declared.set.now) }
{
    let set = full_names.declared.set;
    let files = parts::count_parts(set, SET_FILE);
    map_entries::note_set(full_names, who);
    let bad = file_names::first_bad_file(set);
    let unnamed = map_entries::first_unnamed(&full_names.declared, who);
    let six = bad.min(unnamed);
    if six < files {
        return Err(Refusal::Declaration { file: six });
    }
    let seven = declared_types::first_undeclared(full_names);
    if seven < files {
        return Err(Refusal::TypeName { file: seven });
    }
    Ok(())
}

// Refusals 6 and 7, with a table and columns for so many rows, which are to have room for the set's files and declarations.
fn judge_within<const SIZE: usize>(set: &[u8]) -> Result<(), Refusal>
    requires { SIZE ≤ 65536 }
    ensures { Room set.now (replicate SIZE no_row) (replicate SIZE Nobody) → result ≡ names (decode_set set.now) }
{
    let mut rows = [NO_DECLARATION; SIZE];
    let mut who = [Namers::Nobody; SIZE];
    let mut sums = [0u64; SIZE];
    let count = declarations::declare_set(set, &mut rows);
    let declared = Declarations {
        set,
        rows: &rows,
        count: count.rows,
    };
    judge_rows(&Names::new(declared, &mut sums), &mut who)
}

/// Has a set within the limits neither refusal 6 nor 7? If it has one, the first of 6, else of 7. Of another set the answer says
/// nothing.
pub fn judge_names(set: &[u8]) -> Result<(), Refusal>
    ensures { limit_passed set.now ≡ 0 → result ≡ names (decode_set set.now) }
{
    if set.len() <= SHORT {
        return judge_within::<SHORT_ROWS>(set);
    }
    judge_within::<ROWS>(set)
}

/// Has a set none of the refusals 3, 4, 6 and 7? If it has one, the first in document 01's order.
#[tactic(auto, unfolding(crate::specs::Judge::judge_set), using(limits::proofs::AnswerLaws::none_passed))]
pub fn judge_set(set: &[u8]) -> Result<(), Refusal>
    ensures { result ≡ judge_set set.now }
{
    limits::read_set(set)?;
    judge_names(set)
}
