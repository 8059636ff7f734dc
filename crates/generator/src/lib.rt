// The calls for programs in C or Rust: include/cemilovash.h.
#![tactic(auto)]

ghost use Rattle.std.specs.Prelude.{◌≡◌, length};
ghost use Rattle.ident.specs.Convert.{convert};
ghost use Rattle.calls.specs.TextCall.{text_call, text_left};
ghost use Rattle.calls.specs.NameCall.{name_call};

use base::refusal::Returned;

// Numbers for refusals, and lengths beside arrays: document 01's C signatures.

// The text call: 0 or the refusal's number is returned, and the length or the place is left in `place`.
#[tactic(auto, unfolding(calls::specs::TextCall::text_call))]
#[unsafe(no_mangle)]
pub extern "C" fn cemilovash_text(
    set: &[u8],
    options: &[u8],
    file: usize,
    text: &mut [u8],
    place: &mut usize,
) -> u32
    ensures value { result ≡ (text_call set.now options.now file (length text.old)).number }
    ensures place_after { place.new ≡ (text_call set.now options.now file (length text.old)).place }
    ensures text_after { text.new ≡ text_left set.now options.now file text.old }
{
    let x = Returned::from(text_call::text(set, options, file, text));
    *place = x.place;
    x.number
}

// The name check: 0 or the refusal's number is returned, and 1 for yes, 0 for no or the place is left in `place`.
#[tactic(auto, unfolding(calls::specs::NameCall::name_call, calls::specs::NameCall::yes_or_no, base::specs::Choose::choose))]
#[unsafe(no_mangle)]
pub extern "C" fn cemilovash_names(set: &[u8], options: &[u8], place: &mut usize) -> u32
    ensures value { result ≡ (name_call set.now options.now).number }
    ensures place_after { place.new ≡ (name_call set.now options.now).place }
{
    let y = Returned::from(name_call::check_names(set, options).map(usize::from));
    *place = y.place;
    y.number
}

// The convert call: 0 or 6 is returned, and both names are left, zeros behind them, with their lengths.
#[unsafe(no_mangle)]
pub extern "C" fn cemilovash_convert(
    name: &[u8],
    snake: &mut [u8; 106],
    snakelen: &mut usize,
    camel: &mut [u8; 64],
    camellen: &mut usize,
) -> u8
    ensures value { result ≡ (convert name.now).number }
    ensures snake_after { snake.new ≡ (convert name.now).snake }
    ensures snakelen_after { snakelen.new ≡ (convert name.now).snakelen }
    ensures camel_after { camel.new ≡ (convert name.now).camel }
    ensures camellen_after { camellen.new ≡ (convert name.now).camellen }
{
    let c = ident::convert(name);
    let lower = c.snake;
    let upper = c.camel;
    *snake = lower;
    *snakelen = c.snakelen;
    *camel = upper;
    *camellen = c.camellen;
    c.number
}
