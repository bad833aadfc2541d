// A pen on a page.
ghost use Rattle.std.specs.Prelude.{◌≡◌, ◌^◌, ◌<◌, length};

/// A page, and where the next bytes go. What does not fit is left out, so that the empty page measures.
#[derive(Drop)]
pub(crate) struct Pen<'a> {
    pub(crate) page: &'a mut [u8],
    pub(crate) at: usize,
    ghost countable: { length page.now < 2 ^ 64 },
    ghost in_range: { at < 2 ^ 64 },
}

impl<'a> Pen<'a> {
    ghost use Rattle.lines.specs.Pens.{Spells};

    pub(crate) fn new(page: &'a mut [u8], at: usize) -> Pen<'a>
        ensures same_reference { result.page.ghost_name ≡ page.entry.ghost_name }
        ensures page { result.page.now ≡ page.old }
        ensures at { result.at ≡ at }
    {
        Pen { page, at }
    }

    /// Spells bytes.
    pub(crate) fn put(&mut self, bytes: &[u8])
        ensures { Spells self.old bytes.now self.new }
    {
        let end = self.at.saturating_add(bytes.len());
        if end <= self.page.len() {
            self.page[self.at..end].copy_from_slice(bytes);
        }
        self.at = end;
    }
}
