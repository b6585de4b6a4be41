//! Outcomes.

use case_player::{Output, Page, Stop, file_of};
use packed_outcomes::{pack_outcome, unpack_outcome};
use step_engine::Outcome;
use step_pack::Out;

fn image_name(out: &Out) -> &'static [u8] {
    match out {
        Out::File(_file) => b"File\n",
        Out::Volume(_image) => b"Volume\n",
        Out::Device(_image) => b"Device\n",
        Out::Report(_text) => b"Report\n",
        Out::All(_outputs) => b"All\n",
        Out::Vpd(_image) => b"Vpd\n",
        _ => b"Depex\n",
    }
}

fn module_name(out: &Out) -> &'static [u8] {
    match out {
        Out::Choice(_choice) => b"Choice\n",
        Out::Values(_values) => b"Values\n",
        Out::Code(_texts) => b"Code\n",
        _ => image_name(out),
    }
}

fn out_name(out: &Out) -> &'static [u8] {
    match out {
        Out::Dec(_document) => b"Dec\n",
        Out::Inf(_document) => b"Inf\n",
        Out::Platform(_document) => b"Platform\n",
        Out::Flash(_document) => b"Flash\n",
        _ => module_name(out),
    }
}

fn tell_outcome(page: &mut Page, outcome: &Outcome<Out>) {
    match outcome {
        Outcome::Good(out) => page.put(out_name(out.value())),
        Outcome::Bad(fault) => page.put_fault(fault.value()),
    }
}

/// The outcome that a file is the packed form of, which is packed again as the file `packed`; or
/// `none`.
pub(crate) fn call_unpack_outcome(
    page: &mut Page,
    files: &[Output],
    path: &str,
) -> Result<(), Stop> {
    let alloc = page.alloc();
    match unpack_outcome(alloc, file_of(files, path)?)? {
        None => page.put(b"none\n"),
        Some(outcome) => {
            tell_outcome(page, &outcome);
            let text = pack_outcome(alloc, &outcome)?;
            page.file(b"packed", text.bytes());
        }
    }
    Ok(())
}
