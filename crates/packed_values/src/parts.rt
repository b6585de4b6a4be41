//! Tuples, options, rows and shared values.
ghost use Rattle.std.specs.Prelude.{◌≡◌, ◌++◌, length};
ghost use Rattle.packed_values.specs.Encoding.{IsAppended, IsRead, IsUnread};
ghost use Rattle.packed_values.specs.Plain.{number_encoding, byte_encoding};
ghost use Rattle.packed_values.specs.Parts.{pair_encoding, triple_encoding, quadruple_encoding, option_encoding, rows_encoding, encodings};

use crate::encode::Encode;
use crate::fields::{encode_four, encode_three};
use crate::input::Input;
use build_base::{Rows, WantOfMemory};
use shared_value::Shared;
use std::alloc::Global;

#[tactic(auto, unfolding(crate::specs::Parts::pair_encoding))]
impl<A: Encode, B: Encode> Encode for (A, B) {
    type Value = (A::Value, B::Value);

    ghost encoding = { pair_encoding A.encoding B.encoding };

    fn encode(value: &(A::Value, B::Value), out: &mut Vec<u8>) -> Result<(), WantOfMemory> {
        A::encode(&value.0, out)?;
        B::encode(&value.1, out)
    }

    fn decode(
        alloc: Global,
        input: &mut Input,
    ) -> Result<Option<(A::Value, B::Value)>, WantOfMemory> {
        let first = match A::decode(alloc, input)? {
            None => return Ok(None),
            Some(first) => first,
        };
        match B::decode(alloc, input)? {
            None => Ok(None),
            Some(second) => Ok(Some((first, second))),
        }
    }
}

impl<A: Encode, B: Encode, C: Encode> Encode for (A, B, C) {
    type Value = (A::Value, B::Value, C::Value);

    ghost encoding = { triple_encoding A.encoding B.encoding C.encoding };

    #[tactic(auto, unfolding(crate::specs::Parts::triple_encoding, crate::specs::Parts::pair_encoding))]
    fn encode(
        value: &(A::Value, B::Value, C::Value),
        out: &mut Vec<u8>,
    ) -> Result<(), WantOfMemory> {
        encode_three::<A, B, C>(&value.0, &value.1, &value.2, out)
    }

    #[tactic(auto, unfolding(crate::specs::Parts::triple_encoding), using(crate::proofs::WhereLemmas::unread_by))]
    fn decode(
        alloc: Global,
        input: &mut Input,
    ) -> Result<Option<(A::Value, B::Value, C::Value)>, WantOfMemory> {
        match <(A, (B, C))>::decode(alloc, input)? {
            None => Ok(None),
            Some((a, (b, c))) => Ok(Some((a, b, c))),
        }
    }
}

impl<A: Encode, B: Encode, C: Encode, D: Encode> Encode for (A, B, C, D) {
    type Value = (A::Value, B::Value, C::Value, D::Value);

    ghost encoding = { quadruple_encoding A.encoding B.encoding C.encoding D.encoding };

    #[tactic(auto, unfolding(crate::specs::Parts::quadruple_encoding, crate::specs::Parts::pair_encoding))]
    fn encode(
        value: &(A::Value, B::Value, C::Value, D::Value),
        out: &mut Vec<u8>,
    ) -> Result<(), WantOfMemory> {
        encode_four::<A, B, C, D>(&value.0, &value.1, &value.2, &value.3, out)
    }

    #[tactic(auto, unfolding(crate::specs::Parts::quadruple_encoding), using(crate::proofs::WhereLemmas::unread_by))]
    fn decode(
        alloc: Global,
        input: &mut Input,
    ) -> Result<Option<(A::Value, B::Value, C::Value, D::Value)>, WantOfMemory> {
        match <(A, (B, (C, D)))>::decode(alloc, input)? {
            None => Ok(None),
            Some((a, (b, (c, d)))) => Ok(Some((a, b, c, d))),
        }
    }
}

#[tactic(auto, unfolding(crate::specs::Parts::option_encoding, crate::specs::Plain::byte_encoding))]
impl<T: Encode> Encode for Option<T> {
    type Value = Option<T::Value>;

    ghost encoding = { option_encoding T.encoding };

    fn encode(value: &Option<T::Value>, out: &mut Vec<u8>) -> Result<(), WantOfMemory> {
        match value {
            None => u8::encode(&0, out),
            Some(item) => {
                u8::encode(&1, out)?;
                T::encode(item, out)
            }
        }
    }

    fn decode(alloc: Global, input: &mut Input) -> Result<Option<Option<T::Value>>, WantOfMemory> {
        match input.byte() {
            Some(0) => Ok(Some(None)),
            Some(1) => match T::decode(alloc, input)? {
                None => Ok(None),
                Some(item) => Ok(Some(Some(item))),
            },
            _ => Ok(None),
        }
    }
}

#[tactic(auto, unfolding(crate::specs::Parts::rows_encoding, crate::specs::Plain::number_encoding))]
impl<T: Encode> Encode for Rows<T> {
    type Value = Rows<T::Value>;

    ghost encoding = { rows_encoding T.encoding };

    fn encode(value: &Rows<T::Value>, out: &mut Vec<u8>) -> Result<(), WantOfMemory> {
        u64::encode(&(value.items().len() as u64), out)?;
        for item in value.items() {
            T::encode(item, out)?;
        }
        Ok(())
    }

    fn decode(alloc: Global, input: &mut Input) -> Result<Option<Rows<T::Value>>, WantOfMemory> {
        let count = match u64::decode(alloc, input)? {
            None => return Ok(None),
            Some(count) => count,
        };
        let mut rows = Rows::new(alloc);
        for _at in 0..count {
            match T::decode(alloc, input)? {
                None => return Ok(None),
                Some(item) => rows.push(item)?,
            }
        }
        Ok(Some(rows))
    }
}

impl<T: Encode> Encode for Shared<T> {
    type Value = Shared<T::Value>;

    ghost encoding = { T.encoding };

    fn encode(value: &Shared<T::Value>, out: &mut Vec<u8>) -> Result<(), WantOfMemory> {
        T::encode(value.value(), out)
    }

    fn decode(alloc: Global, input: &mut Input) -> Result<Option<Shared<T::Value>>, WantOfMemory> {
        match T::decode(alloc, input)? {
            None => Ok(None),
            Some(value) => Ok(Some(Shared::new(alloc, value)?)),
        }
    }
}
