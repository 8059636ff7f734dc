//! The text call: a set, options, a file index and a text buffer give a length, or a refusal.
#![tactic(auto)]

ghost use Rattle.std.specs.Prelude.{◌≡◌, ◌++◌, ◌^◌, ◌≤◌, ◌<◌, length, drop, true, []};
ghost use Rattle.descriptor.specs.Decode.{entries, parts, decode_set};
ghost use Rattle.options.specs.Settings.{settings};
ghost use Rattle.set_tables.specs.Filled.{field_count};
ghost use Rattle.message_text.specs.MessageText.{text_of_file};
ghost use Rattle.calls.specs.TextCall.{by_index, by_text, file_at, call_text, text_answer, text_left};
ghost use Rattle.text_call.specs.Answer.{Accepted, Roomy, Whole, Within, Answers};

use base::refusal::Refusal;
use context::Context;
use descriptor::field_number::{FILE_ENUM_TYPE, FILE_MESSAGE_TYPE, SET_FILE};
use limits::SHORT;
use limits::limit::{MAX_FIELDS, MAX_MESSAGES};
use options::Options;
use set_tables::SHORT_FIELDS;
use text_tables::{FieldRow, MessageRow, NO_FIELD, NO_MESSAGE};
use wire::records::Records;

/// No text is longer.
pub const MAX_TEXT: usize = 65536;

// The text of a short set is made in so many bytes first.
const SHORT_TEXT: usize = 2048;

// A set, options and a file's index that refusals 1 to 7 don't apply to.
#[derive(Clone, Copy)]
struct Call<'a> {
    set: &'a [u8],
    options: &'a [u8],
    file: usize,
    ghost accepted: { Accepted set.now options.now file },
}

// A text, at the buffer's start.
fn copy_front(buffer: &mut [u8], text: &[u8])
    requires { length text.now ≤ length buffer.old }
    ensures { buffer.new ≡ text.now ++ drop (length text.now) buffer.old }
{
    let needed = text.len();
    buffer[0..needed].copy_from_slice(text);
}

// A text is copied whole, or not at all where the buffer or the limit has no room for it.
fn copy_whole(buffer: &mut [u8], text: &[u8]) -> Result<usize, Refusal>
    ensures { Whole text.now buffer.old buffer.new result }
{
    let needed = text.len();
    let room = buffer.len().min(MAX_TEXT);
    if room < needed {
        return Err(Refusal::TextLength { needed });
    }
    copy_front(buffer, text);
    Ok(needed)
}

// The bound on the text's length is asked for here and in the two below: a struct of context, number and part for it would be
// opened at once by `append_file`.

// The text of a file, made in an array of so many bytes: it is copied whole, or not at all. Where the array has no room for it,
// its length.
fn put_within<const SIZE: usize>(
    buffer: &mut [u8],
    context: &Context<'_>,
    first: usize,
    part: &[u8],
) -> Result<Result<usize, Refusal>, usize>
    requires bound { SIZE ≤ 65536 }
    requires short { length (text_of_file context.now.options context.now.set context.now.messages context.now.fields first part.now) < 2 ^ 63 }
    ensures { Within SIZE (text_of_file context.now.options context.now.set context.now.messages context.now.fields first part.now) buffer.old buffer.new result }
{
    let mut text = [0u8; SIZE];
    let text = &mut text[..];
    let length = message_text::append_file(text, context, first, part);
    if length <= SIZE {
        return Ok(copy_whole(buffer, &text[0..length]));
    }
    Err(length)
}

// The same by the longest array: a text that it has no room for is refused.
#[tactic(auto, using(crate::proofs::RoomLaws::too_long))]
fn put_long(
    buffer: &mut [u8],
    context: &Context<'_>,
    first: usize,
    part: &[u8],
) -> Result<usize, Refusal>
    requires { length (text_of_file context.now.options context.now.set context.now.messages context.now.fields first part.now) < 2 ^ 63 }
    ensures { Whole (text_of_file context.now.options context.now.set context.now.messages context.now.fields first part.now) buffer.old buffer.new result }
{
    // a match, here and below: each side is a whole answer, and by `unwrap_or_else` the second would stand in a closure, which is no
    // plainer
    match put_within::<MAX_TEXT>(buffer, context, first, part) {
        Ok(answer) => answer,
        Err(needed) => Err(Refusal::TextLength { needed }),
    }
}

// The text of a file, whose first message has the number `first`: that of a short set is made in a short array first.
#[tactic(auto, using(crate::proofs::RoomLaws::after_no_change))]
fn put_whole(
    buffer: &mut [u8],
    context: &Context<'_>,
    first: usize,
    part: &[u8],
) -> Result<usize, Refusal>
    requires { length (text_of_file context.now.options context.now.set context.now.messages context.now.fields first part.now) < 2 ^ 63 }
    ensures { Whole (text_of_file context.now.options context.now.set context.now.messages context.now.fields first part.now) buffer.old buffer.new result }
{
    if SHORT < context.set.len() {
        return put_long(buffer, context, first, part);
    }
    match put_within::<SHORT_TEXT>(buffer, context, first, part) {
        Ok(answer) => answer,
        Err(_) => put_long(buffer, context, first, part),
    }
}

// 8, 9 and 10 of the file, by tables with room for the set.
fn answer_by(
    call: &Call<'_>,
    buffer: &mut [u8],
    messages: &mut [MessageRow],
    fields: &mut [FieldRow],
) -> Result<usize, Refusal>
    requires { Roomy call.now.set.now messages.old fields.old }
    ensures { Answers (by_text (settings call.now.options.now) (decode_set call.now.set.now) (length buffer.old) (file_at (decode_set call.now.set.now) call.now.file)) (call_text call.now.set.now call.now.options.now call.now.file) buffer.old buffer.new result }
{
    let set = call.set;
    let options = Options::new(call.options);
    set_tables::fill_tables(set, &options, messages, fields);
    let context = Context {
        options,
        set,
        messages,
        fields,
    };
    let first = file_parts::first_number(context.messages, set, call.file);
    let part = file_parts::file_part(set, call.file);
    let faults = file_faults::file_faults(&context, first, part);
    if faults.overlap {
        return Err(Refusal::Variants);
    }
    if faults.default {
        return Err(Refusal::BytesDefault);
    }
    put_whole(buffer, &context, first, part)
}

// Does a file hold neither messages nor enums?
#[tactic(auto, unfolding(descriptor::specs::Decode::parts, wire::specs::Message::fields_in, base::specs::Choose::choose), using(descriptor::proofs::EntriesLaws::entries_read))]
fn declares_none(part: &[u8]) -> bool
    ensures { result ≡ true → (parts 4 (entries part.now) ≡ []) × (parts 5 (entries part.now) ≡ []) }
{
    !Records::new(part, 0).any(
        |record| matches!(record, Ok(record) if record.number == FILE_MESSAGE_TYPE || record.number == FILE_ENUM_TYPE),
    )
}

// 8, 9 and 10 of the file, by tables as small as the set allows, of a set with at most so many fields.
// A const parameter has no invariant, so its bound is asked for.
fn answer_within<const SIZE: usize>(call: &Call<'_>, buffer: &mut [u8]) -> Result<usize, Refusal>
    requires bound { SIZE ≤ 65536 }
    requires fields_room { field_count call.now.set.now ≤ SIZE }
    ensures { Answers (by_text (settings call.now.options.now) (decode_set call.now.set.now) (length buffer.old) (file_at (decode_set call.now.set.now) call.now.file)) (call_text call.now.set.now call.now.options.now call.now.file) buffer.old buffer.new result }
{
    let mut messages = [NO_MESSAGE; MAX_MESSAGES];
    let mut fields = [NO_FIELD; SIZE];
    let count = (call.set.len() / 2).min(MAX_MESSAGES);
    let messages = &mut messages[0..count];
    answer_by(call, buffer, messages, &mut fields)
}

// The same of any set; the text of a file without declarations is empty.
fn file_answer(call: &Call<'_>, buffer: &mut [u8]) -> Result<usize, Refusal>
    ensures { Answers (by_text (settings call.now.options.now) (decode_set call.now.set.now) (length buffer.old) (file_at (decode_set call.now.set.now) call.now.file)) (call_text call.now.set.now call.now.options.now call.now.file) buffer.old buffer.new result }
{
    if declares_none(file_parts::file_part(call.set, call.file)) {
        return Ok(0);
    }
    if call.set.len() <= SHORT {
        return answer_within::<SHORT_FIELDS>(call, buffer);
    }
    answer_within::<MAX_FIELDS>(call, buffer)
}

// Refusal 5.
#[tactic(auto, unfolding(calls::specs::TextCall::by_index, base::specs::Choose::choose), using(crate::proofs::FileLaws::files_counted))]
fn check_index(set: &[u8], file: usize) -> Result<(), Refusal>
    ensures { result ≡ by_index file (length (decode_set set.now)) }
{
    let count = parts::count_parts(set, SET_FILE);
    if file < count {
        return Ok(());
    }
    Err(Refusal::FileIndex { count })
}

/// The text of the file with the index, in `t` from its start: its length. A refusal changes no byte of `t`.
#[tactic(auto, unfolding(calls::specs::TextCall::text_answer, calls::specs::TextCall::text_left), using(limits::proofs::AnswerLaws::none_passed))]
pub fn text(set: &[u8], options: &[u8], file: usize, t: &mut [u8]) -> Result<usize, Refusal>
    ensures result_value { result ≡ text_answer set.now options.now file (length t.old) }
    ensures t_after { t.new ≡ text_left set.now options.now file t.old }
{
    options::check::check(options)?;
    extern_checks::check(&Options::new(options))?;
    limits::read_set(set)?;
    check_index(set, file)?;
    set_rules::judge_names(set)?;
    file_answer(&Call { set, options, file }, t)
}
