//! Names in their modules, each a row of 384 bytes, so that same names are found by their checksums.
#![tactic(auto)]

ghost use Rattle.std.specs.Prelude.{◌≡◌, length};
ghost use Rattle.base.specs.Bytes.{same};
ghost use Rattle.writer.specs.Draft.{Filled};
ghost use Rattle.writer.specs.Writing.{◌▻◌};
ghost use Rattle.path.specs.Forms.{among};
ghost use Rattle.code_generator.specs.Refusals.{overlap};
ghost use Rattle.name_rows.specs.Rows.{key_text, checksum, row, rows_in};
ghost use Rattle.name_rows.specs.Spelt.{spelt_by};

use writer::Text;

// The length of what a row says, without its checksum.
const KEY: usize = 380;

/// The length of a row.
pub const ROW: usize = 384;

/// The home, a byte 0, the name, zeros, and a checksum of all that in the last four bytes. Rows lie one behind the other in an array
/// of bytes: no call has a heap.
pub type Row = [u8; ROW];

/// How a name is spelt.
#[derive(Clone, Copy)]
pub enum Spelling {
    /// A module's, or a field's.
    Snake,
    /// A struct's, an enum's, or a variant's.
    UpperCamel,
    /// That of a oneof's enum, which ends in `OneOf` where another type has its name.
    OneofType(bool),
}

impl Spelling {
    // The name, spelt so.
    fn put(self, text: &mut Text<'_>, name: &[u8])
        ensures { text.new ≡ text.old ▻ spelt_by self name.now }
    {
        match self {
            Spelling::Snake => ident::text::put_snake(text, name),
            Spelling::UpperCamel => ident::text::put_upper_camel(text, name),
            Spelling::OneofType(conflict) => {
                ident::text::put_upper_camel(text, name);
                text.put_if(conflict, b"OneOf");
            }
        }
    }
}

// A checksum of the key. Not that of crate checksums: what a row is is defined with this factor.
fn checksum(key: &[u8]) -> u32
    ensures { result ≡ checksum 0 key.now }
{
    let mut sum: u64 = 0;
    for byte in key {
        sum = (sum * 31 + u64::from(*byte)) % (1 << 32);
    }
    // a cast: below 2^32, and a `u32` has no `From` of a `u64`
    sum as u32
}

// What a row says of its name.
fn put_key(text: &mut Text<'_>, home: &[u8], spelling: Spelling, name: &[u8])
    ensures { text.new ≡ text.old ▻ key_text home.now (spelt_by spelling name.now) }
{
    text.put(home);
    text.put_byte(0);
    spelling.put(text, name);
}

// A text is begun, written and measured, here and in `fill_row`: over a closure that is no shorter.
fn fill_key(buffer: &mut [u8], home: &[u8], spelling: Spelling, name: &[u8]) -> usize
    ensures { Filled buffer.old (key_text home.now (spelt_by spelling name.now)) buffer.new result }
{
    let mut text = Text::new(buffer);
    put_key(&mut text, home, spelling, name);
    text.length
}

/// The row of a name in a home.
pub fn put_row(text: &mut Text<'_>, home: &[u8], spelling: Spelling, name: &[u8])
    ensures { text.new ≡ text.old ▻ row home.now (spelt_by spelling name.now) }
{
    let mut key = [0u8; KEY];
    fill_key(&mut key, home, spelling, name);
    text.put(&key);
    text.put(&checksum(&key).to_le_bytes());
}

fn fill_row(buffer: &mut [u8], home: &[u8], spelling: Spelling, name: &[u8]) -> usize
    ensures { Filled buffer.old (row home.now (spelt_by spelling name.now)) buffer.new result }
{
    let mut text = Text::new(buffer);
    put_row(&mut text, home, spelling, name);
    text.length
}

/// The row of a name in a home, by itself.
pub fn row_of(home: &[u8], spelling: Spelling, name: &[u8]) -> Row
    ensures { result ≡ row home.now (spelt_by spelling name.now) }
{
    let mut row = [0u8; ROW];
    fill_row(&mut row, home, spelling, name);
    row
}

// Are these the same? Rows share long beginnings, and 1,700 oneofs have as many rows to compare two by two: the checksums come
// first.
#[tactic(auto, unfolding(base::specs::Bytes::same))]
fn same_row(x: &Row, y: &Row) -> bool
    ensures { result ≡ same x.now y.now }
{
    x[KEY..] == y[KEY..] && x[..KEY] == y[..KEY]
}

// Is it one of these rows?
fn is_among(rows: &[Row], wanted: &Row) -> bool
    ensures { result ≡ among wanted.now rows.now }
{
    rows.iter().any(|row| same_row(wanted, row))
}

/// Is it one of these rows, which stand one behind the other?
pub fn row_among(rows: &[u8], wanted: &Row) -> bool
    ensures { result ≡ among wanted.now (rows_in (length rows.now) rows.now) }
{
    is_among(rows.as_chunks::<ROW>().0, wanted)
}

/// Are two of these rows the same?
pub fn rows_meet(rows: &[u8]) -> bool
    ensures { result ≡ overlap (rows_in (length rows.now) rows.now) }
{
    let whole = rows.as_chunks::<ROW>().0;
    whole
        .iter()
        .enumerate()
        .any(|(n, row)| is_among(&whole[n + 1..], row))
}
