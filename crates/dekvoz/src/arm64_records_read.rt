// ARM64 unwind data read.
ghost use Rattle.std.specs.Prelude.{◌≡◌};
ghost use Rattle.arm64.specs.Reader.{read_arm64, reading_of, epilogues_after, codes_after};

use arm64::Arm64Reading;

// The second word of an entry, and the record at a place of the info bytes where the word is not packed: the function's length, and how many codes
// its prologue, epilogues and all of them have. At the front of the lent lists the epilogues, three numbers each (start, place of its first code,
// codes), and the codes, three each (kind, register, offset), the prologue's first. It refuses by 76, 77 and 54, and then both lists are unchanged.
#[unsafe(no_mangle)]
pub extern "C" fn unwind_read_arm64(
    word: u64,
    info: &[u8],
    place: u64,
    epilogues: &mut [u64],
    codes: &mut [u64],
) -> Arm64Reading
    ensures value { result ≡ reading_of (read_arm64 word info.now place epilogues.old codes.old) }
    ensures epilogues_after { epilogues.new ≡ epilogues_after epilogues.old (read_arm64 word info.now place epilogues.old codes.old) }
    ensures codes_after { codes.new ≡ codes_after codes.old (read_arm64 word info.now place epilogues.old codes.old) }
{
    arm64_reader::unwind_read_arm64(word, info, place, epilogues, codes)
}
