// The formats of object files by name. Their numbers are those of document 01 and of include/dekvoz.h.
ghost use Rattle.std.specs.Prelude.{◌≡◌};
ghost use Rattle.unwind.specs.Formats.{Named, format_number};

use format::Question;

#[derive(Clone, Copy, PartialEq, Eq)]
pub enum Format {
    Elf = 0,
    Coff = 1,
    MachO = 2,
    Wasm = 3,
    Plan9 = 4,
}

// A number that no format has is question 11's.
impl TryFrom<u64> for Format {
    type Error = Question;

    ghost try_from_gives = { Named };

    fn try_from(number: u64) -> Result<Format, Question> {
        match number {
            0 => Ok(Format::Elf),
            1 => Ok(Format::Coff),
            2 => Ok(Format::MachO),
            3 => Ok(Format::Wasm),
            4 => Ok(Format::Plan9),
            _ => Err(Question::Interface),
        }
    }
}

impl From<Format> for u64 {
    ghost from_gives = { λ f n. n ≡ format_number f };

    fn from(format: Format) -> u64 {
        format as u64
    }
}
