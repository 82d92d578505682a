//! Fields that lie in a text.
ghost use Rattle.std.specs.Prelude.{◌≡◌, ◌<◌, [], length, map, slice_index_or};
ghost use Rattle.std.specs.List.{All};
ghost use Rattle.tb_csv.specs.Spans.{LiesIn, bytes_at};

/// Where a field lies in a text.
#[derive(Clone, Copy, Debug)]
pub(crate) struct Span {
    pub(crate) start: usize,
    pub(crate) end: usize,
}

/// The fields of rows, each where it lies in a text.
#[derive(Drop)]
pub(crate) struct PlainRows<'a> {
    pub(crate) text: &'a [u8],
    /// Where each field lies. They stand row by row.
    pub(crate) spans: Vec<Span>,
    /// How many rows there are.
    pub(crate) height: usize,
    ghost within: { All (LiesIn text.now) spans.items },
}

impl<'a> PlainRows<'a> {
    /// How many fields there are in all rows.
    pub(crate) fn len(&self) -> usize
        ensures { result ≡ length self.now.spans.items }
    {
        self.spans.len()
    }

    /// The bytes of the field at this place. The fields stand row by row.
    pub(crate) fn get(&self, place: usize) -> &'a [u8]
        requires { place < length self.now.spans.items }
        ensures { result.now
            ≡ slice_index_or (map (bytes_at self.now.text.now) self.now.spans.items) place [] }
    {
        let span = self.spans[place];
        &self.text[span.start..span.end]
    }
}
