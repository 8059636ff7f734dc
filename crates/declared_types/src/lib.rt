//! Refusal 7: the first file with a type name that the set doesn't declare, or with a full name declared before.
#![tactic(auto)]

ghost use Rattle.std.specs.Prelude.{◌≡◌};
ghost use Rattle.base.specs.Lists.{all};
ghost use Rattle.descriptor.specs.Decode.{entries, parts};
ghost use Rattle.declared_types.specs.Undeclared.{type_known, row_good, first_undeclared_row};

use declarations::Kind;
use descriptor::field_number::{MESSAGE_FIELD, SET_FILE};
use descriptor::{FieldDescriptor, TYPE_ENUM, TYPE_GROUP, TYPE_MESSAGE};
use parts::Parts;
use type_names::{Names, Sort};

// Is the type name of the field with these bytes declared, where it needs one: of a message or group as a message, of an enum
// as an enum?
#[tactic(auto, using(crate::proofs::FieldLaws::known_laws))]
fn type_good(part: &[u8], names: &Names<'_>) -> bool
    ensures { result ≡ type_known names.now.declared.set.now names.now.declared.rows.now names.now.declared.count part.now }
{
    let field = FieldDescriptor::new(part);
    let sort = match field.kind() {
        TYPE_MESSAGE | TYPE_GROUP => Sort::Message,
        TYPE_ENUM => Sort::Enum,
        // one test of several steps: by an Option of a sort it is no plainer
        _ => return true,
    };
    names.find(field.type_name(), sort).is_some()
}

// Those of all fields of the message with these bytes?
#[tactic(auto, unfolding(base::specs::Lists::all))]
fn types_good(message: &[u8], names: &Names<'_>) -> bool
    ensures { result ≡ all (type_known names.now.declared.set.now names.now.declared.rows.now names.now.declared.count) (parts 2 (entries message.now)) }
{
    Parts::new(message, MESSAGE_FIELD).all(|field| type_good(field, names))
}

// Is a row without refusal 7?
fn is_row_good(names: &Names<'_>, row: usize) -> bool
    ensures { result ≡ row_good names.now.declared.set.now names.now.declared.rows.now names.now.declared.count row }
{
    let declaration = names.declared.row(row);
    match declaration.kind {
        Kind::Package => true,
        Kind::Enum => !names.declared_before(row),
        Kind::Message(_) => {
            !names.declared_before(row) && types_good(names.declared.bytes_of(declaration), names)
        }
    }
}

/// The file of the first row with refusal 7, and the count of files where there is none: so the definition has it, and `set_rules`
/// compares it with that count.
pub fn first_undeclared(names: &Names<'_>) -> usize
    ensures { result ≡ first_undeclared_row names.now.declared.set.now names.now.declared.rows.now names.now.declared.count }
{
    for row in 0..names.declared.count {
        if !is_row_good(names, row) {
            return names.declared.row(row).file;
        }
    }
    parts::count_parts(names.declared.set, SET_FILE)
}
