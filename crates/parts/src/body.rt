// The bytes of an entry that is read, and where they stand.
ghost use Rattle.std.specs.Prelude.{◌≡◌, ◌+◌, ◌^◌, ◌<◌, length};

use reader::section::Body;

// The bytes behind an entry's length, which stand at `base` of the section.
#[derive(Clone, Copy)]
pub struct Placed<'a> {
    pub body: Body<'a>,
    pub base: u64,
    pub ghost fits: { base + length body.bytes.now < 2 ^ 64 },
}

impl Placed<'_> {
    // The place past them.
    pub fn end(&self) -> u64
        ensures { result ≡ self.now.base + length self.now.body.bytes.now }
    {
        self.base + self.body.bytes.len() as u64
    }
}
