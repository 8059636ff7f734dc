//! The syntax of a file, or an error where it is none.

/// The syntax of a file.
#[derive(Clone, Copy, PartialEq, Eq)]
pub enum Syntax {
    Proto2,
    Proto3,
}

/// A file names a syntax that is neither, where the Rust panics. Refusal 6 is made of it.
#[derive(Clone, Copy, PartialEq, Eq)]
pub struct UnknownSyntax;

const PROTO2: &[u8] = b"proto2";

const PROTO3: &[u8] = b"proto3";

impl<'a> TryFrom<Option<&'a [u8]>> for Syntax {
    type Error = UnknownSyntax;

    ghost use Rattle.std.specs.Prelude.{◌≡◌};
    ghost use Rattle.base.specs.Given.{text_seen};
    ghost use Rattle.syntax.specs.Syntax.{known, syntax_of};

    ghost try_from_gives = { λ s r. r ≡ known (syntax_of (text_seen s)) };

    #[tactic(auto, unfolding(crate::specs::Syntax::syntax_of, base::specs::Bytes::same, base::specs::Choose::choose))]
    fn try_from(s: Option<&'a [u8]>) -> Result<Syntax, UnknownSyntax> {
        let Some(s) = s else {
            return Ok(Syntax::Proto2);
        };
        if s == PROTO2 {
            Ok(Syntax::Proto2)
        } else if s == PROTO3 {
            Ok(Syntax::Proto3)
        } else {
            Err(UnknownSyntax)
        }
    }
}
