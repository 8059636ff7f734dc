//! context.rs: what a set and its options say of a message and a field. The definitions stand in specs/.
#![tactic(auto)]

use options::Options;
use std::marker::Model;
use text_tables::{FieldRow, MessageRow};

/// What the text of each declaration is written from. A clause sees it as a record of lists.
#[derive(Drop)]
pub struct Context<'a> {
    /// The options file.
    pub options: Options<'a>,
    /// The bytes of the set.
    pub set: &'a [u8],
    /// Its messages, in declaration order.
    pub messages: &'a [MessageRow],
    /// Its fields, in declaration order.
    pub fields: &'a [FieldRow],
}

impl<'a> Model for Context<'a> {
    ghost use Rattle.context.specs.Given.{Given};

    ghost Value = { Given };

    ghost view = { λ c. record { options = c.options; set = c.set.now; messages = c.messages.now; fields = c.fields.now } };
}
