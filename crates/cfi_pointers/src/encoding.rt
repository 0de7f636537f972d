//! The byte that says how a pointer is encoded.

ghost use Rattle.std.specs.Prelude.{◌≡◌};
ghost use Rattle.cfi_pointers.specs.Encodings.{format_of, base_of, encoding_of, unsigned_format};

/// How the number is written: the low four bits.
#[derive(Clone, Copy, PartialEq, Eq, Debug)]
pub enum Format {
    /// An address of the target's size.
    Address,
    Uleb,
    Udata2,
    Udata4,
    Udata8,
    Sleb,
    Sdata2,
    Sdata4,
    Sdata8,
}

/// What is added to it: the next three bits.
#[derive(Clone, Copy, PartialEq, Eq, Debug)]
pub enum Base {
    Absolute,
    /// The address at which it stands itself.
    Place,
    /// Where the text starts.
    Text,
    /// Where the data starts, as the global offset table does.
    Data,
    /// Where the function starts.
    Function,
    /// Nothing; it stands at the next address that is a multiple of the address size.
    Aligned,
}

/// The encoding of a pointer.
#[derive(Clone, Copy, PartialEq, Eq, Debug)]
pub struct Encoding {
    pub format: Format,
    pub base: Base,
    /// Whether the address is that of the pointer: the high bit.
    pub indirect: bool,
}

/// DW_EH_PE_omit: there is no pointer. It is no encoding.
pub const DW_EH_PE_OMIT: u8 = 0xff;

fn format_with(low: u8) -> Option<Format>
    ensures { result ≡ format_of low }
{
    match low {
        0x0 => Some(Format::Address),
        0x1 => Some(Format::Uleb),
        0x2 => Some(Format::Udata2),
        0x3 => Some(Format::Udata4),
        0x4 => Some(Format::Udata8),
        0x9 => Some(Format::Sleb),
        0xa => Some(Format::Sdata2),
        0xb => Some(Format::Sdata4),
        0xc => Some(Format::Sdata8),
        _ => None,
    }
}

fn base_with(bits: u8) -> Option<Base>
    ensures { result ≡ base_of bits }
{
    match bits {
        0 => Some(Base::Absolute),
        1 => Some(Base::Place),
        2 => Some(Base::Text),
        3 => Some(Base::Data),
        4 => Some(Base::Function),
        5 => Some(Base::Aligned),
        _ => None,
    }
}

impl Encoding {
    /// What the byte says; none where it is no encoding.
    #[tactic(auto, unfolding(crate::specs::Encodings::encoding_of))]
    pub fn new(byte: u8) -> Option<Encoding>
        ensures { result ≡ encoding_of byte }
    {
        let Some(format) = format_with(byte % 16) else {
            return None;
        };
        let Some(base) = base_with(byte / 16 % 8) else {
            return None;
        };
        Some(Encoding {
            format,
            base,
            indirect: byte >= 128,
        })
    }
}

impl Format {
    /// The format of the same bytes without a sign.
    pub fn unsigned(self) -> Format
        ensures { result ≡ unsigned_format self }
    {
        match self {
            Format::Sleb => Format::Uleb,
            Format::Sdata2 => Format::Udata2,
            Format::Sdata4 => Format::Udata4,
            Format::Sdata8 => Format::Udata8,
            other => other,
        }
    }
}
