//! Can a message, or a field, derive Copy or Eq? From context.rs.
#![tactic(auto)]

ghost use Rattle.std.specs.Prelude.{◌≡◌, false, Some, None, ◌≤◌, ◌<◌, length, get_or};
ghost use Rattle.field_types.specs.Types.{type_eq};
ghost use Rattle.message_graph.specs.Limit.{messages};
ghost use Rattle.message_graph.specs.Boxes.{boxed_by_loop};
ghost use Rattle.message_graph.specs.Rows.{Place, message_of, fields_of};
ghost use Rattle.message_graph.specs.Tab.{tab};
ghost use Rattle.derives.specs.Rules.{can_field_derive_copy, can_field_derive_eq, rule, turn};
ghost use Rattle.derives.specs.Can.{answer_of, derived, row_can};
ghost use Rattle.derives.specs.Memo.{Memo, Kept, unknown};

use field_types::Sort;
use message_graph::{Field, Graph, LABEL_REPEATED, MESSAGES, TYPE_MESSAGE};

/// The trait that is asked for.
#[derive(Clone, Copy)]
pub enum Derive {
    Copy,
    Eq,
}

/// For each message, whether it can derive Copy, and Eq.
// Two columns: each is the answer of one search.
#[derive(Drop)]
pub struct Derives {
    pub copy: [bool; MESSAGES],
    pub eq: [bool; MESSAGES],
}

impl Derives {
    /// For each message, whether it can derive the trait.
    pub fn of(&self, derive: Derive) -> &[bool; MESSAGES]
        ensures { result.now ≡ derived self.now derive }
    {
        match derive {
            Derive::Copy => &self.copy,
            Derive::Eq => &self.eq,
        }
    }
}

// The answers that are known. While a message's is sought, it is held to be that it cannot: what asks for it then is in a loop.
type Memo = [Option<bool>; MESSAGES];

// May what is no message be Eq, by its type's number? As a field has it: it may be no type of descriptor.proto.
#[tactic(auto, unfolding(field_types::specs::Types::type_eq))]
fn type_eq(kind: u8) -> bool
    ensures { result ≡ type_eq kind }
{
    let sort = field_types::sort_of(u32::from(kind));
    matches!(
        sort,
        Some(Sort::Integer | Sort::Boolean | Sort::Enumerated | Sort::Text | Sort::Bytes)
    )
}

#[tactic(auto, unfolding(crate::specs::Rules::can_field_derive_copy, base::specs::Choose::choose))]
fn can_field_derive_copy(field: Field, looped: bool, can: bool) -> bool
    ensures { result ≡ can_field_derive_copy field.kind field.label looped field.boxed can }
{
    match field.kind {
        _ if field.label == LABEL_REPEATED => false,
        TYPE_MESSAGE => !looped && !field.boxed && can,
        kind => field_types::can_pack(u32::from(kind)),
    }
}

#[tactic(auto, unfolding(crate::specs::Rules::can_field_derive_eq, base::specs::Choose::choose))]
fn can_field_derive_eq(field: Field, looped: bool, can: bool) -> bool
    ensures { result ≡ can_field_derive_eq field.kind field.label looped can }
{
    match field.kind {
        TYPE_MESSAGE => field.label != LABEL_REPEATED && !looped && can,
        kind => type_eq(kind),
    }
}

/// Can the field derive it? `looped`: its type leads to its message; `can`: the answer of the message that is its type.
#[tactic(auto, unfolding(crate::specs::Rules::rule))]
pub fn can_field_derive(derive: Derive, field: Field, looped: bool, can: bool) -> bool
    ensures { result ≡ rule derive field.kind field.label looped field.boxed can }
{
    match derive {
        Derive::Copy => can_field_derive_copy(field, looped, can),
        Derive::Eq => can_field_derive_eq(field, looped, can),
    }
}

// The field's answer, where it doesn't turn on its type's message. A loop needs no test: in one, no message can.
#[tactic(auto, unfolding(crate::specs::Rules::turn, base::specs::Choose::choose))]
fn fixed_answer(derive: Derive, field: Field) -> Option<bool>
    ensures { result ≡ turn (rule derive field.kind field.label false field.boxed) }
{
    if !can_field_derive(derive, field, false, true) {
        return Some(false);
    }
    if can_field_derive(derive, field, false, false) {
        return Some(true);
    }
    None
}

// What is asked for, of which graph. The known answers are passed beside it: they alone change, and each clause would have to
// say that the rest of a struct does not. So are a message and its bound: each call is of another message.
#[derive(Clone, Copy)]
struct Search<'g, 'a> {
    derive: Derive,
    graph: &'g Graph<'a>,
}

impl Search<'_, '_> {
    // Can the message? `depth`: how many links may still be followed from it.
    #[cycle(field_can_fields_can_message_can)]
    fn message_can(&self, memo: &mut Memo, message: usize, depth: usize) -> bool
        requires memo { Memo self.now.derive self.now.graph.now memo.old message }
        requires message_bound { message < messages }
        requires sought { get_or memo.old message None ≡ Some false → answer_of self.now.derive self.now.graph.now message ≡ false }
        requires memo_bound { unknown memo.old ≤ depth }
        ensures value { result ≡ answer_of self.now.derive self.now.graph.now message }
        ensures kept { Kept self.now.derive self.now.graph.now memo.old memo.new }
    {
        if let Some(known) = memo[message] {
            return known;
        }
        memo[message] = Some(false);
        let can = self.fields_can(memo, message, depth);
        memo[message] = Some(can);
        can
    }

    // Can each field of the message?
    #[cycle(field_can_fields_can_message_can)]
    fn fields_can(&self, memo: &mut Memo, message: usize, depth: usize) -> bool
        requires memo { Memo self.now.derive self.now.graph.now memo.old message }
        requires message_bound { message < messages }
        requires memo_bound { unknown memo.old < depth }
        ensures value { result ≡ answer_of self.now.derive self.now.graph.now message }
        ensures kept { Kept self.now.derive self.now.graph.now memo.old memo.new }
    {
        let fields = self.graph.fields_of(message);
        // no `all`: a closure that calls `field_can` was tried, and its proof did not close
        for field in fields {
            if message_graph::place_of(field.owner) == message
                && !self.field_can(memo, *field, depth)
            {
                return false;
            }
        }
        true
    }

    // Can a field of the graph, by the message that is its type?
    #[cycle(field_can_fields_can_message_can)]
    fn field_can(&self, memo: &mut Memo, field: Field, depth: usize) -> bool
        requires place { Place self.now.graph.now field }
        requires memo { Memo self.now.derive self.now.graph.now memo.old (message_of field.owner) }
        requires memo_bound { unknown memo.old < depth }
        ensures value { result ≡ row_can self.now.derive self.now.graph.now field }
        ensures kept { Kept self.now.derive self.now.graph.now memo.old memo.new }
    {
        match fixed_answer(self.derive, field) {
            Some(can) => can,
            None => {
                let target = message_graph::place_of(field.target);
                self.message_can(memo, target, depth - 1)
            }
        }
    }
}

// For each message, whether it can. One without fields can, so only the fields' messages are asked for.
fn answers(derive: Derive, graph: &Graph<'_>) -> [bool; MESSAGES]
    ensures { result ≡ tab messages (answer_of derive graph.now) }
{
    let search = Search { derive, graph };
    let mut memo = [None; MESSAGES];
    let mut can = [true; MESSAGES];
    let fields = graph.fields();
    for field in fields {
        let owner = message_graph::place_of(field.owner);
        can[owner] = search.message_can(&mut memo, owner, MESSAGES);
    }
    can
}

/// For each place of `boxed`, whether the field there is boxed by a loop; and for each message, whether it can derive Copy, and
/// Eq.
pub fn can_derive(fields: &[Field], boxed: &mut [bool]) -> Derives
    ensures boxed_after { boxed.new ≡ tab (length boxed.old) (boxed_by_loop (fields_of fields.now)) }
    ensures copy_value { result.copy ≡ tab messages (answer_of Derive.Copy fields.now) }
    ensures eq_value { result.eq ≡ tab messages (answer_of Derive.Eq fields.now) }
{
    let graph = Graph::new(fields);
    graph.boxes(boxed);
    Derives {
        copy: answers(Derive::Copy, &graph),
        eq: answers(Derive::Eq, &graph),
    }
}
