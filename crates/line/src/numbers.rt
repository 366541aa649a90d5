// The numbers that a text was read as, in memory of a fixed size.
ghost use Rattle.std.specs.Prelude.{◌≡◌, ◌≤◌, length, take};

// `many` numbers at the front, and 0 at every place behind. A text that is no question has none.
// Kept: an array with a count beside it, since the project uses no heap; and none for a text that is no question, as `MeetsLine` has it.
#[derive(Drop)]
pub struct Numbers {
    pub many: usize,
    pub values: [u32; 128],
    pub ghost few: { many ≤ length values },
}

impl Numbers {
    // The numbers alone.
    pub fn all(&self) -> &[u32]
        ensures { result.now ≡ take self.now.many self.now.values }
    {
        &self.values[..self.many]
    }
}
