// The rules along a record.
ghost use Rattle.std.specs.Prelude.{length};
ghost use Rattle.listing.specs.Lines.{along, Lists};
ghost use Rattle.listing.specs.AtOffset.{Says};

use listing::Listed;
use reads::Located;

// The rules at every location of a record, in one run over its operations: a line of seven numbers each, at the front of a lent list.
#[unsafe(no_mangle)]
pub extern "C" fn unwind_rules_along(
    section: &[u8],
    located: Located,
    q: u16,
    lines: &mut [u64],
) -> Listed
    ensures lists { Lists q (along section.now located (length lines.old)) result lines.old lines.new }
    ensures says { Says section.now located q result lines.new }
{
    listing::unwind_rules_along(section, located, q, lines)
}
