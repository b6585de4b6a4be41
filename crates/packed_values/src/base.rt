//! Places, faults and macros.
ghost use Rattle.std.specs.Prelude.{◌≡◌, ◌++◌};
ghost use Rattle.packed_values.specs.Encoding.{IsAppended, IsRead, IsUnread};
ghost use Rattle.packed_values.specs.Base.{place_encoding, fault_encoding, macro_encoding};

use crate::encode::Encode;
use crate::input::Input;
use crate::{decode_fields, encode_fields};
use build_base::{Fault, Macro, Path, Place, Text, WantOfMemory};
use std::alloc::Global;

impl Encode for Place {
    type Value = Place;

    ghost encoding = { place_encoding };

    #[tactic(auto, unfolding(crate::specs::Base::place_encoding, crate::specs::Parts::pair_encoding))]
    fn encode(value: &Place, out: &mut Vec<u8>) -> Result<(), WantOfMemory> {
        encode_fields!(value, out; path: Path, line: u64)
    }

    #[tactic(auto, unfolding(crate::specs::Base::place_encoding), using(crate::proofs::WhereLemmas::unread_by))]
    fn decode(alloc: Global, input: &mut Input) -> Result<Option<Place>, WantOfMemory> {
        decode_fields!(Place, alloc, input; path: Path, line: u64)
    }
}

impl Encode for Fault {
    type Value = Fault;

    ghost encoding = { fault_encoding };

    #[tactic(auto, unfolding(crate::specs::Base::fault_encoding, crate::specs::Parts::pair_encoding))]
    fn encode(value: &Fault, out: &mut Vec<u8>) -> Result<(), WantOfMemory> {
        encode_fields!(value, out; code: u16, place: Place, detail: Text)
    }

    #[tactic(auto, unfolding(crate::specs::Base::fault_encoding), using(crate::proofs::WhereLemmas::unread_by))]
    fn decode(alloc: Global, input: &mut Input) -> Result<Option<Fault>, WantOfMemory> {
        decode_fields!(Fault, alloc, input; code: u16, place: Place, detail: Text)
    }
}

impl Encode for Macro {
    type Value = Macro;

    ghost encoding = { macro_encoding };

    #[tactic(auto, unfolding(crate::specs::Base::macro_encoding, crate::specs::Parts::pair_encoding))]
    fn encode(value: &Macro, out: &mut Vec<u8>) -> Result<(), WantOfMemory> {
        encode_fields!(value, out; name: Text, value: Text)
    }

    #[tactic(auto, unfolding(crate::specs::Base::macro_encoding), using(crate::proofs::WhereLemmas::unread_by))]
    fn decode(alloc: Global, input: &mut Input) -> Result<Option<Macro>, WantOfMemory> {
        decode_fields!(Macro, alloc, input; name: Text, value: Text)
    }
}
