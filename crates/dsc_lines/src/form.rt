//! Lines that are of no form.
ghost use Rattle.build_base.specs.Answer.{Finds};
ghost use Rattle.doc_reading.specs.Least.{least_of};
ghost use Rattle.dsc_lines.specs.Forms.{formless};

use build_base::{Refusal, Taken, Text, refuse};
use doc_reading::least_check::least_refusal;
use doc_reading::value_fields::undefined_macros;
use std::alloc::Global;

/// The refusal of a line of no form, with the code of its section.
pub(crate) fn refuse_form(alloc: Global, code: u16, line: &Taken, fields: &[Text]) -> Refusal
    ensures { Finds result (least_of (formless code line.now fields.now)) }
{
    least_refusal(
        undefined_macros(alloc, &line.at, fields),
        refuse(alloc, code, &line.at, line.text.bytes()),
    )
}
