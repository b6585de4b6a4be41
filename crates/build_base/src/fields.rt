//! Copies and tests of records, field by field.

/// These fields once more, at most six, as a tuple or as a refusal. One that is refused ends it,
/// and all that were copied are let go.
#[macro_export]
macro_rules! copies {
    ($from:expr, $alloc:expr; $a:ident) => {
        $from.$a.copy($alloc)
    };
    ($from:expr, $alloc:expr; $a:ident, $b:ident) => {
        $crate::together::two(&$from.$a, &$from.$b, $alloc)
    };
    ($from:expr, $alloc:expr; $a:ident, $b:ident, $c:ident) => {
        $crate::together::three(&$from.$a, &$from.$b, &$from.$c, $alloc)
    };
    ($from:expr, $alloc:expr; $a:ident, $b:ident, $c:ident, $d:ident) => {
        $crate::together::four(&$from.$a, &$from.$b, &$from.$c, &$from.$d, $alloc)
    };
    ($from:expr, $alloc:expr; $a:ident, $b:ident, $c:ident, $d:ident, $e:ident) => {
        $crate::together::five(&$from.$a, &$from.$b, &$from.$c, &$from.$d, &$from.$e, $alloc)
    };
    ($from:expr, $alloc:expr; $a:ident, $b:ident, $c:ident, $d:ident, $e:ident, $f:ident) => {
        $crate::together::six(
            &$from.$a, &$from.$b, &$from.$c, &$from.$d, &$from.$e, &$from.$f, $alloc,
        )
    };
}

/// A record of these fields: those of the first list, at most six, are copied, and those of the
/// second, whose types are `Copy`, are taken as they are. It can be refused at one place alone.
#[macro_export]
macro_rules! copied {
    ($record:ident, $from:expr, $alloc:expr; $($field:ident),+ $(; $($plain:ident),+)?) => {{
        let ($($field),+) = $crate::copies!($from, $alloc; $($field),+)?;
        Ok($record { $($field),+ $(, $($plain: $from.$plain),+)? })
    }};
}

/// Whether these fields are the same.
#[macro_export]
macro_rules! all_same {
    ($ours:expr, $other:expr; $first:ident $(, $field:ident)*) => {
        $ours.$first.same(&$other.$first) $(&& $ours.$field.same(&$other.$field))*
    };
}
