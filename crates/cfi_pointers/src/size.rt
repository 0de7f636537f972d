//! How many bytes an address of the target has.

ghost use Rattle.std.specs.Prelude.{◌≡◌, ◌%◌, ◌≤◌, ◌<◌};
ghost use Rattle.cfi_pointers.specs.Sizes.{size_of, bytes_of, modulus};

/// The size of an address: 2, 4 or 8 bytes.
#[derive(Clone, Copy, PartialEq, Eq, Debug)]
pub enum AddressSize {
    Two,
    Four,
    Eight,
}

impl AddressSize {
    /// The size of that many bytes.
    pub fn new(bytes: u64) -> Option<AddressSize>
        ensures { result ≡ size_of bytes }
    {
        match bytes {
            2 => Some(AddressSize::Two),
            4 => Some(AddressSize::Four),
            8 => Some(AddressSize::Eight),
            _ => None,
        }
    }

    /// How many bytes it is.
    pub fn bytes(self) -> usize
        ensures value { result ≡ bytes_of self }
        ensures low { 0 < result }
        ensures high { result ≤ 8 }
    {
        match self {
            AddressSize::Two => 2,
            AddressSize::Four => 4,
            AddressSize::Eight => 8,
        }
    }

    /// The low bytes of a number, as an address.
    pub fn cut(self, x: u64) -> u64
        ensures { result ≡ x % modulus self }
    {
        match self {
            AddressSize::Two => x % 0x1_0000,
            AddressSize::Four => x % 0x1_0000_0000,
            AddressSize::Eight => x,
        }
    }
}
