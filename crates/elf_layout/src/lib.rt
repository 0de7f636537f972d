// What is read of an ELF file's tables, written as the gABI's structures, is what stands there: laws alone.
#![tactic(auto)]

ghost use Rattle.elf_layout.specs.Written.{SectionIsWritten, SegmentIsWritten, SymbolIsWritten};

/// The entry of a section, of a segment or of a symbol, written field by field in the order of its
/// structure, is what was read: no byte of an entry is read twice or left out.
pub fn layout_law()
    ensures section { SectionIsWritten }
    ensures segment { SegmentIsWritten }
    ensures symbol { SymbolIsWritten }
{}
