// The output: characters gathered one behind the other.
ghost use Rattle.std.specs.Prelude.{◌≡◌, ◌+◌, ◌≤◌, length};
ghost use Rattle.items.specs.Output.{Written};

// The characters that are gathered stand from the start on, up to the place of the next one. Memory is fixed, so the place stands beside
// it; each function asks for the room that its own text needs.
#[derive(Drop)]
pub struct Output<'a> {
    pub out: &'a mut [u8],
    pub at: usize,
}

impl<'a> Output<'a> {
    // The run, with what is gathered at its start.
    pub fn characters(&self) -> &[u8]
        ensures { result.now ≡ self.now.out.now }
    {
        &*self.out
    }

    // A text goes behind what is gathered.
    pub fn append(&mut self, text: &[u8])
        requires { self.old.at + length text.now ≤ length self.old.out.now }
        ensures { Written text.now (length text.now) self.old self.new }
    {
        numbers::copy(self.out, self.at, text);
        self.at += text.len();
    }
}
