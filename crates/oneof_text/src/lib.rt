//! code_generator.rs, append_oneof: the enums of a message's oneofs.
#![tactic(auto)]

ghost use Rattle.std.specs.Prelude.{◌≡◌};
ghost use Rattle.base.specs.Bytes.{b};
ghost use Rattle.base.specs.Lists.{all};
ghost use Rattle.writer.specs.Writing.{◌▻◌};
ghost use Rattle.joined.specs.Joined.{◌⊙◌};
ghost use Rattle.members.specs.Members.{oneof_members, can_derive};
ghost use Rattle.code_generator.specs.Piece.{◌⟫◌};
ghost use Rattle.code_generator.specs.Writing.{◌⊳◌, Declares};
ghost use Rattle.code_generator.specs.Attributes.{derive, append_type_attributes, append_enum_attributes, append_prost_path_attribute, append_skip_debug};
ghost use Rattle.oneof_text.specs.OneofText.{oneof_text, oneof_texts};

use attributes::{
    append_attributes, append_prost_path_attribute, append_skip_debug, derive, end, put_line,
};
use context::Context;
use derives::Derive;
use joined::Name;
use members::{Message, Oneof, all_derive};
use options::Kind;
use variants::append_variants;
use writer::Text;

// The lines before the enum. full: the message's full name; path: the oneof's.
#[tactic(auto, unfolding(code_generator::specs::Attributes::append_type_attributes, code_generator::specs::Attributes::append_enum_attributes))]
fn lines_before(
    text: &mut Text<'_>,
    context: &Context<'_>,
    depth: usize,
    full: &[u8],
    path: &[u8],
    copy: bool,
    eq: bool,
)
    ensures { text.new ≡ text.old ⊳ (append_type_attributes context.now.options depth path.now ⟫ append_enum_attributes context.now.options depth path.now ⟫ derive context.now.options depth copy eq (b "::Oneof)]\n") ⟫ append_prost_path_attribute context.now.options ⟫ append_skip_debug context.now.options depth full.now) }
{
    let options = &context.options;
    append_attributes(text, options, Kind::TypeAttribute, path, depth);
    append_attributes(text, options, Kind::EnumAttribute, path, depth);
    derive(text, options, depth, copy, eq, b"::Oneof)]\n");
    append_prost_path_attribute(text, options);
    append_skip_debug(text, options, depth, full);
}

// May the enum of a oneof derive the trait?
fn derives(context: &Context<'_>, oneof: &Oneof<'_>, derive: Derive) -> bool
    ensures { result ≡ all (can_derive derive context.now.fields) (oneof_members context.now.fields oneof.now) }
{
    all_derive(context.fields, derive, oneof)
}

// The full name of a oneof. full: the message's.
fn path_of(full: &[u8], oneof: &Oneof<'_>) -> Name
    ensures { result ≡ full.now ⊙ oneof.now.name }
{
    Name::new(full, oneof.name)
}

// The enum of a oneof. full: the message's full name.
fn put_enum(
    text: &mut Text<'_>,
    context: &Context<'_>,
    depth: usize,
    full: &[u8],
    oneof: &Oneof<'_>,
)
    ensures { text.new ≡ text.old ⊳ oneof_text context.now.options context.now.set context.now.messages context.now.fields depth full.now oneof.now.name oneof.now.conflict (oneof_members context.now.fields oneof.now) }
{
    let path = path_of(full, oneof);
    let copy = derives(context, oneof, Derive::Copy);
    let eq = derives(context, oneof, Derive::Eq);
    let inner = depth.saturating_add(1);
    lines_before(text, context, depth, full, path.as_bytes(), copy, eq);
    put_line(text, depth, b"pub enum ");
    oneof.put_type(text);
    text.put(b" {\n");
    append_variants(text, context, inner, full, path.as_bytes(), oneof);
    end(text, depth);
}

/// The enum of a oneof, into the lent buffer, and its length. full: the message's full name.
pub fn append_oneof(
    buffer: &mut [u8],
    context: &Context<'_>,
    depth: usize,
    full: &[u8],
    oneof: &Oneof<'_>,
) -> usize
    ensures { Declares buffer.old (oneof_text context.now.options context.now.set context.now.messages context.now.fields depth full.now oneof.now.name oneof.now.conflict (oneof_members context.now.fields oneof.now)) buffer.new result }
{
    let mut text = Text::new(buffer);
    put_enum(&mut text, context, depth, full, oneof);
    text.length
}

// The same in the rest of the text's buffer, which is lent, as enum_text's `lend_enum` says.
fn put_oneof(
    text: &mut Text<'_>,
    context: &Context<'_>,
    depth: usize,
    full: &[u8],
    oneof: &Oneof<'_>,
)
    ensures { text.new ≡ text.old ⊳ oneof_text context.now.options context.now.set context.now.messages context.now.fields depth full.now oneof.now.name oneof.now.conflict (oneof_members context.now.fields oneof.now) }
{
    let at = text.place();
    let length = append_oneof(&mut text.buffer[at..], context, depth, full, oneof);
    text.skip(length);
}

/// The enums of the oneofs of a message: one left without fields is left out.
pub fn append_oneofs(
    text: &mut Text<'_>,
    context: &Context<'_>,
    depth: usize,
    message: &Message<'_>,
)
    ensures { text.new ≡ text.old ▻ oneof_texts context.now.options context.now.set context.now.messages context.now.fields depth message.now.full message.now.nested message.now.number message.now.part }
{
    if !message.declares_oneofs() {
        return;
    }
    for oneof in message.oneofs(context) {
        put_oneof(text, context, depth, message.full, &oneof);
    }
}
