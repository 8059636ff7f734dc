//! How much a table of declarations has.
ghost use Rattle.std.specs.Prelude.{◌≡◌, ◌+◌, ◌<◌, ◌≤◌};

/// How many rows there are, and how many of them are messages.
#[derive(Clone, Copy)]
pub struct Count {
    pub rows: usize,
    pub messages: usize,
    pub ghost fewer: { messages ≤ rows },
}

impl Count {
    // Of a table with no rows. `Default` was tried: it isn't derived for a struct with a ghost field.
    pub(crate) fn none() -> Count
        ensures rows { result.rows ≡ 0 }
        ensures messages { result.messages ≡ 0 }
    {
        Count {
            rows: 0,
            messages: 0,
        }
    }

    // With one row more.
    pub(crate) fn with_row(self) -> Count
        requires { self.rows < 65536 }
        ensures rows { result.rows ≡ self.rows + 1 }
        ensures messages { result.messages ≡ self.messages }
    {
        Count {
            rows: self.rows + 1,
            messages: self.messages,
        }
    }

    // With one row more, of a message.
    pub(crate) fn with_message(self) -> Count
        requires { self.rows < 65536 }
        ensures rows { result.rows ≡ self.rows + 1 }
        ensures messages { result.messages ≡ self.messages + 1 }
    {
        Count {
            rows: self.rows + 1,
            messages: self.messages + 1,
        }
    }
}
