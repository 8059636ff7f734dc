//! The names that are written for names of the set, and the convert call's names.
#![tactic(auto)]

ghost use Rattle.std.specs.Prelude.{◌≡◌};
ghost use Rattle.ident.specs.Convert.{convertible, spellings, answered, convert};

mod keywords;
pub mod names;
mod prefix;
pub mod text;

/// The most bytes of a name that the convert call takes.
// Its own, and not limits': the convert call reads no set.
pub const MAX_NAME: usize = 64;

/// The most bytes of the snake name of such a name.
pub const MAX_SNAKE: usize = 106;

/// The two names of a name, zeros behind them, and their lengths.
// Bytes with a length, twice: the convert call of the C interface gives them so.
#[derive(Drop)]
pub struct Spellings {
    pub snake: [u8; MAX_SNAKE],
    pub snakelen: usize,
    pub camel: [u8; MAX_NAME],
    pub camellen: usize,
}

/// The name is no identifier of at most 64 bytes with a letter or digit.
#[derive(Drop)]
pub struct NotConvertible;

/// An identifier of at most 64 bytes with a letter or digit.
#[tactic(auto, unfolding(crate::specs::Convert::convertible))]
fn convertible(name: &[u8]) -> bool
    ensures { result ≡ convertible name.now }
{
    names::is_name(name) && name.len() <= MAX_NAME && names::has_word(name)
}

/// Both names of one name.
#[tactic(auto, unfolding(crate::specs::Convert::spellings, base::specs::Choose::choose))]
pub fn convert_name(name: &[u8]) -> Result<Spellings, NotConvertible>
    ensures { result ≡ spellings name.now }
{
    if !convertible(name) {
        return Err(NotConvertible);
    }
    let mut snake = [0u8; MAX_SNAKE];
    let snakelen = text::fill_snake(&mut snake, name);
    let mut camel = [0u8; MAX_NAME];
    let camellen = text::fill_upper_camel(&mut camel, name);
    Ok(Spellings {
        snake,
        snakelen,
        camel,
        camellen,
    })
}

/// The convert call's answer, as the C interface has it: the refusal's number and place, 0 and 0 where there is none, and
/// the two names.
#[derive(Drop)]
pub struct Converted {
    pub number: u8,
    pub place: usize,
    pub snake: [u8; MAX_SNAKE],
    pub snakelen: usize,
    pub camel: [u8; MAX_NAME],
    pub camellen: usize,
}

/// Refusal 6 at place 0 where the name is not converted.
impl From<Result<Spellings, NotConvertible>> for Converted {
    ghost from_gives = { λ answer r. r ≡ answered answer };

    #[tactic(auto, unfolding(crate::specs::Convert::answered, crate::specs::Convert::refused, crate::specs::Convert::padded))]
    fn from(answer: Result<Spellings, NotConvertible>) -> Converted {
        match answer {
            // Two variables first: tried with `spelt.snake` in the literal, and with a pattern's names there; the proof closed
            // with neither, since an array may not go from a field straight into a literal.
            Ok(spelt) => {
                let snake = spelt.snake;
                let camel = spelt.camel;
                Converted {
                    number: 0,
                    place: 0,
                    snake,
                    snakelen: spelt.snakelen,
                    camel,
                    camellen: spelt.camellen,
                }
            }
            Err(NotConvertible) => Converted {
                number: 6,
                place: 0,
                snake: [0; MAX_SNAKE],
                snakelen: 0,
                camel: [0; MAX_NAME],
                camellen: 0,
            },
        }
    }
}

/// The same as the convert call's numbers: refusal 6 at place 0.
#[tactic(auto, using(crate::proofs::ConvertLaws::answered_convert))]
pub fn convert(name: &[u8]) -> Converted
    ensures { result ≡ convert name.now }
{
    Converted::from(convert_name(name))
}
