//! Records by their fields.
ghost use Rattle.std.specs.Prelude.{OnOk};
ghost use Rattle.packed_values.specs.Encoding.{IsAppended};
ghost use Rattle.packed_values.specs.Parts.{pair_encoding};

use crate::encode::Encode;
use build_base::WantOfMemory;

/// Adds the encodings of two values, the first in front.
#[tactic(auto, unfolding(crate::specs::Parts::pair_encoding))]
pub fn encode_two<A: Encode, B: Encode>(
    a: &A::Value,
    b: &B::Value,
    out: &mut Vec<u8>,
) -> Result<(), WantOfMemory>
    ensures { OnOk result
        (IsAppended (pair_encoding A.encoding B.encoding) out.old.items (a.now, b.now)
        out.new.items) }
{
    A::encode(a, out)?;
    B::encode(b, out)
}

/// Adds the encodings of three values, in order.
#[tactic(auto, unfolding(crate::specs::Parts::pair_encoding))]
pub fn encode_three<A: Encode, B: Encode, C: Encode>(
    a: &A::Value,
    b: &B::Value,
    c: &C::Value,
    out: &mut Vec<u8>,
) -> Result<(), WantOfMemory>
    ensures { OnOk result
        (IsAppended (pair_encoding A.encoding (pair_encoding B.encoding C.encoding)) out.old.items
        (a.now, (b.now, c.now)) out.new.items) }
{
    A::encode(a, out)?;
    encode_two::<B, C>(b, c, out)
}

/// Adds the encodings of four values, in order.
#[tactic(auto, unfolding(crate::specs::Parts::pair_encoding))]
pub fn encode_four<A: Encode, B: Encode, C: Encode, D: Encode>(
    a: &A::Value,
    b: &B::Value,
    c: &C::Value,
    d: &D::Value,
    out: &mut Vec<u8>,
) -> Result<(), WantOfMemory>
    ensures { OnOk result
        (IsAppended (pair_encoding A.encoding
        (pair_encoding B.encoding (pair_encoding C.encoding D.encoding))) out.old.items
        (a.now, (b.now, (c.now, d.now))) out.new.items) }
{
    A::encode(a, out)?;
    encode_three::<B, C, D>(b, c, d, out)
}

/// Adds the encodings of five values, in order.
#[tactic(auto, unfolding(crate::specs::Parts::pair_encoding))]
pub fn encode_five<A: Encode, B: Encode, C: Encode, D: Encode, E: Encode>(
    a: &A::Value,
    b: &B::Value,
    c: &C::Value,
    d: &D::Value,
    e: &E::Value,
    out: &mut Vec<u8>,
) -> Result<(), WantOfMemory>
    ensures { OnOk result
        (IsAppended (pair_encoding A.encoding
        (pair_encoding B.encoding (pair_encoding C.encoding (pair_encoding D.encoding E.encoding))))
        out.old.items (a.now, (b.now, (c.now, (d.now, e.now)))) out.new.items) }
{
    A::encode(a, out)?;
    encode_four::<B, C, D, E>(b, c, d, e, out)
}

/// Adds the encodings of these fields of a record, each in the encoding behind its name, in order.
#[macro_export]
macro_rules! encode_fields {
    ($value:expr, $out:expr; $a:ident: $A:ty) => {
        <$A as $crate::Encode>::encode(&$value.$a, $out)
    };
    ($value:expr, $out:expr; $a:ident: $A:ty, $b:ident: $B:ty) => {
        $crate::fields::encode_two::<$A, $B>(&$value.$a, &$value.$b, $out)
    };
    ($value:expr, $out:expr; $a:ident: $A:ty, $b:ident: $B:ty, $c:ident: $C:ty) => {
        $crate::fields::encode_three::<$A, $B, $C>(&$value.$a, &$value.$b, &$value.$c, $out)
    };
    ($value:expr, $out:expr; $a:ident: $A:ty, $b:ident: $B:ty, $c:ident: $C:ty, $d:ident: $D:ty) => {
        $crate::fields::encode_four::<$A, $B, $C, $D>(
            &$value.$a, &$value.$b, &$value.$c, &$value.$d, $out,
        )
    };
    ($value:expr, $out:expr; $a:ident: $A:ty, $b:ident: $B:ty, $c:ident: $C:ty, $d:ident: $D:ty, $e:ident: $E:ty) => {
        $crate::fields::encode_five::<$A, $B, $C, $D, $E>(
            &$value.$a, &$value.$b, &$value.$c, &$value.$d, &$value.$e, $out,
        )
    };
}

/// Decodes a record of these fields, each in the encoding behind its name, in order.
#[macro_export]
macro_rules! decode_fields {
    ($record:ident, $alloc:expr, $input:expr; $a:ident: $A:ty) => {
        match <$A as $crate::Encode>::decode($alloc, $input)? {
            None => Ok(None),
            Some($a) => Ok(Some($record { $a })),
        }
    };
    ($record:ident, $alloc:expr, $input:expr; $a:ident: $A:ty, $b:ident: $B:ty) => {
        match <($A, $B) as $crate::Encode>::decode($alloc, $input)? {
            None => Ok(None),
            Some(($a, $b)) => Ok(Some($record { $a, $b })),
        }
    };
    ($record:ident, $alloc:expr, $input:expr; $a:ident: $A:ty, $b:ident: $B:ty, $c:ident: $C:ty) => {
        match <($A, ($B, $C)) as $crate::Encode>::decode($alloc, $input)? {
            None => Ok(None),
            Some(($a, ($b, $c))) => Ok(Some($record { $a, $b, $c })),
        }
    };
    ($record:ident, $alloc:expr, $input:expr; $a:ident: $A:ty, $b:ident: $B:ty, $c:ident: $C:ty, $d:ident: $D:ty) => {
        match <($A, ($B, ($C, $D))) as $crate::Encode>::decode($alloc, $input)? {
            None => Ok(None),
            Some(($a, ($b, ($c, $d)))) => Ok(Some($record { $a, $b, $c, $d })),
        }
    };
    ($record:ident, $alloc:expr, $input:expr; $a:ident: $A:ty, $b:ident: $B:ty, $c:ident: $C:ty, $d:ident: $D:ty, $e:ident: $E:ty) => {
        match <($A, ($B, ($C, ($D, $E)))) as $crate::Encode>::decode($alloc, $input)? {
            None => Ok(None),
            Some(($a, ($b, ($c, ($d, $e))))) => Ok(Some($record { $a, $b, $c, $d, $e })),
        }
    };
}
