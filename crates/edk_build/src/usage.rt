//! The answer to words or a script that aren't in the grammar.
ghost use Rattle.edk_build.specs.Statuses.{IsUsageTold};

use build_base::{Sink, Target};

/// Tells it to standard error; a failure there changes nothing.
pub(crate) fn tell_usage<S: Sink>(sink: &mut S)
    ensures { IsUsageTold (S.faults sink.old) (S.faults sink.new) (S.written sink.old)
        (S.written sink.new) }
{
    let _ = sink.emit(&Target::Err, b"usage\n".as_slice());
}
