// Relocations applied.
ghost use Rattle.std.specs.Prelude.{length};
ghost use Rattle.apply.specs.Apply.{apply, Applies};

// A section's bytes with its relocations applied, at the front of `out`: 0, or 52, 79 or 80, and `out` is then as it was. `section` is the
// address of the first byte; `addresses` are two numbers each, a symbol and its address.
#[unsafe(no_mangle)]
pub extern "C" fn unwind_apply(
    bytes: &[u8],
    relocations: &[u64],
    addresses: &[u64],
    section: u64,
    image: u64,
    out: &mut [u8],
) -> u64
    ensures { Applies (apply bytes.now relocations.now addresses.now section image (length out.old)) result out.old out.new }
{
    apply::unwind_apply(bytes, relocations, addresses, section, image, out)
}
