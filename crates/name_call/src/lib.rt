//! The name check: a set and options give yes or no, or a refusal.
#![tactic(auto)]

ghost use Rattle.std.specs.Prelude.{◌≡◌, ◌||◌, length};
ghost use Rattle.descriptor.specs.Decode.{decode_set};
ghost use Rattle.code_generator.specs.Refusals.{overlap};
ghost use Rattle.name_rows.specs.Rows.{rows_in};
ghost use Rattle.package_names.specs.Packages.{packages_meet, packages_stand};
ghost use Rattle.name_check.specs.NameCheck.{name_check};
ghost use Rattle.calls.specs.NameCall.{name_answer};
ghost use Rattle.name_call.specs.Differ.{places_differ, names_differ};
ghost use Rattle.name_call.specs.Answer.{Accepted};

use base::refusal::Refusal;
use context::Context;
use limits::limit::{MAX_FIELDS, MAX_MESSAGES};
use options::Options;
use text_tables::{NO_FIELD, NO_MESSAGE};
use writer::Text;

// 384 bytes for each of 256 structs, 256 modules, 256 enums and 2,048 oneof enums.
const ROW_BYTES: usize = 1081344;

// Are two of the rows the same, or two modules of packages, or a row and a module?
fn places_meet(places: &[u8], set: &[u8]) -> bool
    ensures { result ≡ (overlap (rows_in (length places.now) places.now) || (packages_meet set.now || packages_stand (length places.now) places.now set.now)) }
{
    name_rows::rows_meet(places)
        || package_names::packages_meet(set)
        || package_names::packages_stand(places, set)
}

// Do the declared places differ, and the modules of packages from each other and from them?
fn places_differ(rows: &mut [u8], context: &Context<'_>) -> bool
    ensures { result ≡ places_differ context.now.options (length rows.old) context.now.set context.now.messages context.now.fields }
{
    let mut text = Text::new(rows);
    place_rows::put_places(&mut text, context);
    let end = text.place();
    !places_meet(&text.buffer[..end], context.set)
}

/// Do all names differ? rows: room for the rows.
pub fn names_differ(rows: &mut [u8], context: &Context<'_>) -> bool
    ensures { result ≡ names_differ context.now.options (length rows.old) context.now.set context.now.messages context.now.fields }
{
    places_differ(rows, context) && !member_rows::members_meet(rows, context)
}

// Do all names of a set without refusals differ?
fn set_names(set: &[u8], options: Options<'_>) -> bool
    requires { Accepted set.now }
    ensures { result ≡ name_check options.entry (decode_set set.now) }
{
    let mut messages = [NO_MESSAGE; MAX_MESSAGES];
    let mut fields = [NO_FIELD; MAX_FIELDS];
    set_tables::fill_tables(set, &options, &mut messages, &mut fields);
    let context = Context {
        options,
        set,
        messages: &messages,
        fields: &fields,
    };
    let mut rows = [0u8; ROW_BYTES];
    names_differ(&mut rows, &context)
}

/// The name check: do all names of a set differ?
#[tactic(auto, unfolding(calls::specs::NameCall::name_answer), using(limits::proofs::AnswerLaws::none_passed))]
pub fn check_names(set: &[u8], options: &[u8]) -> Result<bool, Refusal>
    ensures { result ≡ name_answer set.now options.now }
{
    options::check::check(options)?;
    let options = Options::new(options);
    extern_checks::check(&options)?;
    limits::read_set(set)?;
    set_rules::judge_names(set)?;
    Ok(set_names(set, options))
}
