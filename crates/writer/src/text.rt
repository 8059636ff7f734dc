// Text that is written into a lent buffer, and measured past the buffer's end: so the same writers measure and write.
ghost use Rattle.std.specs.Prelude.{◌≡◌, [], ◌∷◌, take, drop};
ghost use Rattle.writer.specs.Text.{indent};
ghost use Rattle.writer.specs.Decimal.{decimal, signed};
ghost use Rattle.writer.specs.Draft.{skipped};

use itoa::Buffer;

/// A text in a buffer that it was lent. `length` is how many bytes were written, those counted too that lie past the
/// buffer's end and are left out; a length that comes to `usize::MAX` stays there.
#[derive(Drop)]
pub struct Text<'a> {
    pub buffer: &'a mut [u8],
    pub length: usize,
}

impl<'a> Text<'a> {
    ghost use Rattle.writer.specs.Writing.{◌▻◌, put_where, start, draft_of, with_draft, IsPlace};

    /// A text with nothing written yet.
    pub fn new(buffer: &'a mut [u8]) -> Text<'a>
        ensures { result ≡ start buffer.entry }
    {
        Text { buffer, length: 0 }
    }

    /// Where the rest of the buffer begins, which a declaration's writer is lent: `&mut text.buffer[text.place()..]`.
    pub fn place(&self) -> usize
        ensures { IsPlace self.now result }
    {
        self.length.min(self.buffer.len())
    }

    /// Goes on behind the `n` bytes that a declaration's writer has written into the rest of the buffer.
    pub fn skip(&mut self, n: usize)
        ensures { self.new ≡ with_draft self.old (skipped (draft_of self.old) n) }
    {
        self.length = self.length.saturating_add(n);
    }

    /// Bytes as they are.
    pub fn put(&mut self, bytes: &[u8])
        ensures { self.new ≡ self.old ▻ bytes.now }
    {
        let at = self.length;
        let room = self.buffer.len();
        let end = at.saturating_add(bytes.len());
        self.length = end;
        if end <= room {
            self.buffer[at..end].copy_from_slice(bytes);
        } else if at < room {
            self.buffer[at..].copy_from_slice(&bytes[..room - at]);
        }
    }

    /// One byte.
    pub fn put_byte(&mut self, byte: u8)
        ensures { self.new ≡ self.old ▻ (byte ∷ []) }
    {
        let at = self.length;
        self.length = at.saturating_add(1);
        if at < self.buffer.len() {
            self.buffer[at] = byte;
        }
    }

    /// The bytes where `on` holds, and else nothing.
    pub fn put_if(&mut self, on: bool, bytes: &[u8])
        ensures { self.new ≡ put_where on self.old bytes.now }
    {
        if on {
            self.put(bytes);
        }
    }

    /// A number in decimal.
    pub fn put_number(&mut self, n: u32)
        ensures { self.new ≡ self.old ▻ decimal n }
    {
        let mut digits = Buffer::new();
        self.put(digits.format(n).as_bytes());
    }

    /// A signed number in decimal, given as its two's complement.
    pub fn put_signed(&mut self, n: u32)
        ensures { self.new ≡ self.old ▻ signed n }
    {
        let mut digits = Buffer::new();
        self.put(digits.format(n.cast_signed()).as_bytes());
    }

    /// An indent of `levels` levels, of four spaces each.
    pub fn put_indent(&mut self, levels: usize)
        ensures { self.new ≡ self.old ▻ indent levels }
    {
        for _ in 0..levels {
            self.put(b"    ");
        }
    }

    /// `n` bytes from `from` on, as many as there are.
    // No code calls it now: it stands with its promise.
    pub fn put_part(&mut self, bytes: &[u8], from: usize, n: usize)
        ensures { self.new ≡ self.old ▻ take n (drop from bytes.now) }
    {
        let from = from.min(bytes.len());
        let n = n.min(bytes.len() - from);
        self.put(&bytes[from..from + n]);
    }
}
