//! The mnemonics of opcodes that the profile leaves out (JVMS 6.5).

ghost use Rattle.std.specs.Prelude.{◌≡◌, map};
ghost use Rattle.jv_beyond.specs.Inside.Rows.{seen_row};
ghost use Rattle.jv_beyond.specs.Mnemonics.{mnemonic, name_in};

static MNEMONICS: [(u8, &str); 60] = [
    (11, "fconst_0"),
    (12, "fconst_1"),
    (13, "fconst_2"),
    (14, "dconst_0"),
    (15, "dconst_1"),
    (23, "fload"),
    (24, "dload"),
    (34, "fload_0"),
    (35, "fload_1"),
    (36, "fload_2"),
    (37, "fload_3"),
    (38, "dload_0"),
    (39, "dload_1"),
    (40, "dload_2"),
    (41, "dload_3"),
    (48, "faload"),
    (49, "daload"),
    (56, "fstore"),
    (57, "dstore"),
    (67, "fstore_0"),
    (68, "fstore_1"),
    (69, "fstore_2"),
    (70, "fstore_3"),
    (71, "dstore_0"),
    (72, "dstore_1"),
    (73, "dstore_2"),
    (74, "dstore_3"),
    (81, "fastore"),
    (82, "dastore"),
    (98, "fadd"),
    (99, "dadd"),
    (102, "fsub"),
    (103, "dsub"),
    (106, "fmul"),
    (107, "dmul"),
    (110, "fdiv"),
    (111, "ddiv"),
    (114, "frem"),
    (115, "drem"),
    (118, "fneg"),
    (119, "dneg"),
    (134, "i2f"),
    (135, "i2d"),
    (137, "l2f"),
    (138, "l2d"),
    (139, "f2i"),
    (140, "f2l"),
    (141, "f2d"),
    (142, "d2i"),
    (143, "d2l"),
    (144, "d2f"),
    (149, "fcmpl"),
    (150, "fcmpg"),
    (151, "dcmpl"),
    (152, "dcmpg"),
    (174, "freturn"),
    (175, "dreturn"),
    (186, "invokedynamic"),
    (194, "monitorenter"),
    (195, "monitorexit"),
];

/// The name of an opcode in a table; nothing where it has none there.
fn name_in(table: &[(u8, &'static str)], opcode: u8) -> &'static str
    ensures { result.now ≡ name_in (map seen_row table.now) opcode }
{
    for row in table {
        if row.0 == opcode {
            return row.1;
        }
    }
    ""
}

/// The mnemonic of an opcode that the profile leaves out; nothing of any other.
pub(crate) fn mnemonic(opcode: u8) -> &'static str
    ensures { result.now ≡ mnemonic opcode }
{
    name_in(&MNEMONICS, opcode)
}
