//! Texts of 16 bytes, or the place of a longer one.
ghost use Rattle.std.specs.Prelude.{◌≡◌, ◌<◌, ◌≤◌, ◌+◌, ◌^◌, length, take};
ghost use Rattle.tb_view.specs.Promise.Layout.{long_view, short_view};
ghost use Rattle.tb_view.specs.Moved.{renumbered_view};
ghost use Rattle.tb_view.specs.View.{buffer_of, offset_of, view_text, IsInline, IsView};

use tb_value::Bytes;

/// A text of up to 12 bytes, which stands at the front of `rest` with 0 behind it, or the place of a
/// longer one: `rest` then holds its first four bytes, the number of its buffer and its offset there,
/// each of four bytes with the low one first.
#[derive(Clone, Copy, PartialEq, Eq, Debug)]
pub struct View {
    pub length: u32,
    pub rest: [u8; 12],
}

impl View {
    /// The number of the buffer of a long text.
    pub fn buffer(&self) -> u32
        ensures { result ≡ buffer_of self.now }
    {
        u32::from_le_bytes([self.rest[4], self.rest[5], self.rest[6], self.rest[7]])
    }

    /// Where a long text begins in its buffer.
    pub fn offset(&self) -> u32
        ensures { result ≡ offset_of self.now }
    {
        u32::from_le_bytes([self.rest[8], self.rest[9], self.rest[10], self.rest[11]])
    }

    /// The view of a short text.
    pub fn short(text: &[u8]) -> View
        requires { length text.now ≤ 12 }
        ensures length { result.length ≡ length text.now }
        ensures text { take (length text.now) result.rest ≡ text.now }
        ensures inline { IsInline result }
        ensures is { result ≡ short_view text.now }
    {
        let mut rest = [0; 12];
        rest[..text.len()].copy_from_slice(text);
        View {
            length: text.len() as u32,
            rest,
        }
    }

    /// The view of a long text at this place.
    pub fn long(text: &[u8], buffer: u32, offset: u32) -> View
        requires long { 12 < length text.now }
        requires fits { length text.now < 2 ^ 32 }
        ensures length { result.length ≡ length text.now }
        ensures front { take 4 result.rest ≡ take 4 text.now }
        ensures buffer { buffer_of result ≡ buffer }
        ensures offset { offset_of result ≡ offset }
        ensures is { result ≡ long_view text.now buffer offset }
    {
        let [b0, b1, b2, b3] = buffer.to_le_bytes();
        let [o0, o1, o2, o3] = offset.to_le_bytes();
        View {
            length: text.len() as u32,
            rest: [
                text[0], text[1], text[2], text[3], b0, b1, b2, b3, o0, o1, o2, o3,
            ],
        }
    }

    /// The same text, where its buffer has this number.
    pub fn renumbered(&self, buffer: u32) -> View
        ensures whole { result ≡ renumbered_view self.now buffer }
        ensures length { result.length ≡ self.now.length }
        ensures front { take 4 result.rest ≡ take 4 self.now.rest }
        ensures buffer { buffer_of result ≡ buffer }
        ensures offset { offset_of result ≡ offset_of self.now }
    {
        let [b0, b1, b2, b3] = buffer.to_le_bytes();
        let mut rest = self.rest;
        rest[4] = b0;
        rest[5] = b1;
        rest[6] = b2;
        rest[7] = b3;
        View {
            length: self.length,
            rest,
        }
    }

    /// The text, lent by the view or by its buffer.
    pub fn text<'a>(&'a self, buffers: &'a [Bytes]) -> &'a [u8]
        requires { IsView buffers.now self.now }
        ensures { result.now ≡ view_text self.now buffers.now }
    {
        let length = self.length as usize;
        if length <= 12 {
            return &self.rest[..length];
        }
        let offset = self.offset() as usize;
        &buffers[self.buffer() as usize].as_slice()[offset..offset + length]
    }
}
