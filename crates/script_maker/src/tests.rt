use crate::make_script;
use std::test::Fail;
use term_core::AtomId;

#[test]
fn six_commands_of_seed_1(rt: HostRuntime) -> Result<(), Fail> {
    let script = make_script(rt.alloc(), 1, 6).expect(&rt, "a script");
    let atoms: [(u32, &[u8]); 3] = [(3, b"m0"), (5, b"ver"), (8, b"k1")];
    for (atom, wanted) in atoms {
        assert!(rt;
            script.names.text(AtomId(atom)) == Some(wanted),
            "at {atom}"
        );
    }
    assert_eq!(rt; script.modules.as_slice().len(), 16);
    let blocks = script.loaders.as_slice();
    assert_eq!(rt; blocks.len(), 2);
    let cases = [
        (
            0,
            0,
            "Load(Items { items: [ModRef { name: AtomId(3), version: 1 }] })",
        ),
        (0, 1, "Erase(AtomId(6))"),
        (
            0,
            2,
            "Trace { target: Mfa { module: AtomId(3), name: AtomId(5), arity: 0 }, on: true }",
        ),
        (
            1,
            0,
            "Load(Items { items: [ModRef { name: AtomId(7), version: 1 }] })",
        ),
        (1, 1, "Erase(AtomId(8))"),
        (
            1,
            2,
            "Trace { target: Mfa { module: AtomId(7), name: AtomId(5), arity: 0 }, on: true }",
        ),
    ];
    for (block, place, wanted) in cases {
        let commands = blocks.get(block).expect(&rt, "a block").as_slice();
        assert_eq!(rt; commands.len(), 3);
        let command = commands.get(place).expect(&rt, "a command");
        let shown = format!(in rt.alloc(); "{command:?}")?;
        assert_eq!(rt; shown.as_str(), wanted, "at {block} {place}");
    }
    Ok(())
}
