// The check of a section that another tool wrote.
ghost use Rattle.std.specs.Prelude.{◌≡◌};
ghost use Rattle.section_check.specs.Check.{check_section, Means};

use section_check::Checked;

// Whether an eh_frame section tiles and the reader answers at every offset below each record's length, with this word.
#[unsafe(no_mangle)]
pub extern "C" fn unwind_check_section(section: &[u8], word: u64) -> Checked
    ensures value { result ≡ check_section section.now word }
    ensures means { Means section.now word result }
{
    section_check::unwind_check_section(section, word)
}
