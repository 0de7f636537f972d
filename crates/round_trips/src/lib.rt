// Functions of the library one behind the other, whose contracts say what the one owes the other.
#![tactic(auto)]

pub mod entries;
pub mod indexed;
pub mod marked;

#[cfg(test)]
mod tests {
    use super::entries::list_entries;
    use super::indexed::read_by_index;
    use super::marked::write_and_read_marked;

    // The eh_frame of a function that keeps no frame, by gcc 12 for x86-64. What is expected of it is what
    // `readelf --debug-dump=frames` prints: a CIE at 0 and an FDE at 0x18, of 0x14 bytes each; the CFA is r7 plus 8, and
    // r16 is saved at CFA minus 8.
    static SECTION: [u8; 48] = [
        0x14, 0x00, 0x00, 0x00, 0x00, 0x00, 0x00, 0x00, 0x01, 0x7a, 0x52, 0x00, 0x01, 0x78, 0x10,
        0x01, 0x1b, 0x0c, 0x07, 0x08, 0x90, 0x01, 0x00, 0x00, 0x14, 0x00, 0x00, 0x00, 0x1c, 0x00,
        0x00, 0x00, 0x00, 0x00, 0x00, 0x00, 0x04, 0x00, 0x00, 0x00, 0x00, 0x00, 0x00, 0x00, 0x00,
        0x00, 0x00, 0x00,
    ];

    #[test]
    fn entries_of_a_section(rt: HostRuntime) {
        let mut out = [0; 6];
        assert!(rt; list_entries(&SECTION, 0, &mut out) == Ok(2));
        assert_eq!(rt; out, [1, 0, 0x14, 0, 0x18, 0x14]);
    }

    #[test]
    fn rules_by_the_index(rt: HostRuntime) {
        let mut places = [0; 2];
        let read = read_by_index(&SECTION, &[], 0, 8, &mut places, 0, 16, 3);
        assert_eq!(rt; read.indexed.records, 1);
        assert_eq!(rt; places, [0x18, 0]);
        let answer = read.answer;
        assert_eq!(rt; answer.number, 0);
        assert_eq!(rt;
            [answer.frame, answer.frame_register, answer.frame_offset],
            [1, 7, 8]
        );
        assert_eq!(rt; [answer.rule, answer.rule_value], [2, u64::MAX - 7]);
        assert_eq!(rt;
            read_by_index(&SECTION, &[], 0, 8, &mut places, 1, 16, 3)
                .answer
                .number,
            62
        );
    }

    // A function of 4 bytes without rows, for the ready machine: the rules are those at its entry, as gcc's above.
    #[test]
    fn written_shortest(rt: HostRuntime) {
        let mut machine = [0; 70];
        assert_eq!(rt; machines::unwind_machine_x86_64(&mut machine), 0);
        let functions = [16, 4, 0, 0, 0, 0, 0, 0, 0, 0, 0, 0, 0, 0, 0, 0, 0, 0];
        let mut bytes = [0; 64];
        let read = write_and_read_marked(
            false,
            &machine,
            0,
            &functions,
            &[],
            &[],
            &[],
            &mut [0; 4],
            &mut bytes,
            &mut [0; 10],
            &mut [0; 4],
            0,
            16,
            3,
        );
        assert_eq!(rt; unwind::Written::from(read.outcome).number, 0);
        assert_eq!(rt; [read.answer.number, read.answer.shortest], [0, 1]);
        assert_eq!(rt;
            [read.answer.frame_register, read.answer.rule_value],
            [7, u64::MAX - 7]
        );
    }
}
