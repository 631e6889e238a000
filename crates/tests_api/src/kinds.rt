use ang_kinds::Mask;

/// Masks of an entity and of a module, and whether they meet.
const MASKS: &[(u32, u32, bool)] = &[
    (0x8000_0001, 0x8000_0000, true),
    (0x0000_0003, 0x0000_0002, true),
    (0x0000_0003, 0x0000_0004, false),
    (0x0000_0000, 0xffff_ffff, false),
];

#[test]
fn masks_meet_at_a_common_bit(rt: HostRuntime) {
    for (entity, module, want) in MASKS {
        assert!(rt;
            Mask(*entity).meets(Mask(*module)) == *want,
            "{entity} and {module}"
        );
    }
}
