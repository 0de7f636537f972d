//! The class of an ELF file: how wide its addresses and offsets are (gABI, "ELF Identification").

ghost use Rattle.std.specs.Prelude.{◌≡◌, if◌then◌else◌};
ghost use Rattle.elf.specs.Fields.{is_wide};

#[derive(Clone, Copy)]
pub enum Class {
    /// ELFCLASS32.
    Bits32,
    /// ELFCLASS64.
    Bits64,
}

impl Class {
    pub fn is_wide(self) -> bool
        ensures { result ≡ is_wide self }
    {
        match self {
            Class::Bits32 => false,
            Class::Bits64 => true,
        }
    }

    /// One of two sizes or places, by the class.
    pub fn pick(self, narrow: usize, wide: usize) -> usize
        ensures { result ≡ (if is_wide self then wide else narrow) }
    {
        if self.is_wide() { wide } else { narrow }
    }
}
