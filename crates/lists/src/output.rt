// The lists that are lent for what is written.
ghost use Rattle.std.specs.Prelude.{◌≡◌};
ghost use Rattle.lists.specs.Lent.{lent_in};

use format::{Counts, Refusal};

// Header places (or markers), bytes, relocations, and call sites (or Windows info).
#[derive(Drop)]
pub struct Output<'a> {
    pub places: &'a mut [u64],
    pub bytes: &'a mut [u8],
    pub relocations: &'a mut [u64],
    pub sites: &'a mut [u8],
}

impl Output<'_> {
    // How many elements the lists have.
    pub fn lent(&self) -> Counts
        ensures { result ≡ lent_in self.now }
    {
        Counts {
            places: self.places.len() as u64,
            bytes: self.bytes.len() as u64,
            relocations: self.relocations.len() as u64,
            sites: self.sites.len() as u64,
        }
    }
}

// What a writer answered, and what was answered of what it wrote by the function that is called behind it.
#[derive(Clone, Copy)]
pub struct WrittenAnd<A> {
    pub outcome: Result<Option<Counts>, Refusal>,
    pub answer: A,
}
