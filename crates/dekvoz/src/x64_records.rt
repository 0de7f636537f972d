// x64 records read.
ghost use Rattle.std.specs.Prelude.{◌≡◌, length};
ghost use Rattle.format.specs.X64Reader.{read_x64, info_numbers, codes_stored};
ghost use Rattle.x64_reader.specs.Reads.{read_numbers};

use x64_reader::X64Reading;

// The x64 record at a place of the info bytes: where the prologue ends, whether a code sets the frame register, the header's frame register
// and offset, and the codes in prologue order, five numbers each as `seh` takes them, at the front of a lent list. It refuses by 76, 77 and
// 54, and then the list is unchanged; else what lies past the codes is as it was.
#[unsafe(no_mangle)]
pub extern "C" fn unwind_read_x64(info: &[u8], place: u64, codes: &mut [u64]) -> X64Reading
    ensures result_value { read_numbers result ≡ info_numbers (read_x64 info.now place (length codes.old)) }
    ensures codes_after { codes.new ≡ codes_stored (read_x64 info.now place (length codes.old)) codes.old }
{
    x64_reader::unwind_read_x64(info, place, codes)
}
