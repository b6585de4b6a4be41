//! Types whose values have an encoding.
ghost use Rattle.std.specs.Prelude.{◌≡◌, IfOk, OnOk};
ghost use Rattle.packed_values.specs.Encoding.{Encoding, Decodes, IsAppended};

use crate::input::Input;
use build_base::WantOfMemory;
use std::alloc::Global;

/// The encoding of the values of a type: of the type itself where it stands below this crate, else
/// of that which a type without values stands for.
pub trait Encode {
    type Value: Drop;

    /// How each value is encoded.
    ghost encoding: { Encoding Self.Value };

    /// Adds the encoding of a value.
    fn encode(value: &Self::Value, out: &mut Vec<u8>) -> Result<(), WantOfMemory>
        ensures { OnOk result (IsAppended encoding out.old.items value.now out.new.items) };

    /// Decodes the value whose encoding the input begins with; nothing exactly where it begins with
    /// none.
    fn decode(alloc: Global, input: &mut Input) -> Result<Option<Self::Value>, WantOfMemory>
        ensures { IfOk result (λ r. Decodes encoding input.old r input.new) };
}
