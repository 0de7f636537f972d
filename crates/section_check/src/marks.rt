// A section that is gone over, and where the entries that were passed start.
ghost use Rattle.std.specs.Prelude.{◌≡◌, ◌<◌, false};
ghost use Rattle.section_check.specs.Places.{Marks};

use reader::section::Section;

// The stretches of `step` bytes of a section, each with a mark: the first entry that was passed and starts in it.
#[derive(Clone, Copy)]
pub struct Stretches<const N: usize> {
    pub marks: [usize; N],
    pub step: usize,
    pub ghost apart: { 0 < step },
}

// An eh_frame section, and what was passed of it.
#[derive(Clone, Copy)]
pub struct Passed<'a> {
    pub section: &'a Section<'a>,
    pub stretches: &'a Stretches<2048>,
    pub ghost eh: { section.now.layout.debug ≡ false },
    pub ghost ahead: { Marks section.now.bytes.now stretches.now.marks },
}
