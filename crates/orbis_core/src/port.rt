//! The port that the input instruction reads.
ghost use Rattle.std.specs.Prelude.{◌≡◌, ◌≤◌, length};
ghost use Rattle.orbis_core.specs.Secure.{port_word, port_read};

/// Input bytes, and how far they are read.
#[derive(Clone, Copy, Debug)]
pub struct Port<'a> {
    /// All bytes of the input.
    pub input: &'a [u8],
    /// How many of them were read, at most as many as there are.
    pub next: usize,
}

impl Port<'_> {
    /// The next byte, or -1 after the last one.
    pub(crate) fn read(&mut self) -> u32
        ensures word { result ≡ port_word self.old }
        ensures port { self.new ≡ port_read self.old }
        ensures within { self.old.next ≤ length self.old.input.now
            → self.new.next ≤ length self.new.input.now }
    {
        match self.input.get(self.next) {
            Some(byte) => {
                self.next += 1;
                *byte as u32
            }
            None => u32::MAX,
        }
    }
}
