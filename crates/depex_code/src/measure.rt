//! How near an expression is to the limits.
ghost use Rattle.std.specs.Prelude.{◌≤◌};

/// How deep an expression nests, up to 65, and its opcodes, up to 4,097.
#[derive(Clone, Copy)]
pub(crate) struct Measure {
    pub deep: u32,
    pub count: u32,
    ghost low: { deep ≤ 65 },
    ghost few: { count ≤ 4097 },
}
