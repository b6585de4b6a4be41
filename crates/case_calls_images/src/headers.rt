//! Calls of what reads PE32 and PE32+ images.

use case_player::{Output, Page, Stop, file_of};
use te_images::{PeFault, section_alignment, strip_at, te_header};

fn fail(page: &mut Page, fault: PeFault) -> Result<(), Stop> {
    let text = format!(in page.alloc(); "{fault:?}\n")?;
    page.fail(text.as_bytes());
    Ok(())
}

/// The header as the file `head`, and what follows it as the file `rest`.
pub(crate) fn call_te_header(page: &mut Page, files: &[Output], path: &str) -> Result<(), Stop> {
    let file = file_of(files, path)?;
    match te_header(file) {
        Ok(head) => {
            page.file(b"head", head.bytes().as_slice());
            page.file(b"rest", strip_at(file, &head));
            Ok(())
        }
        Err(fault) => fail(page, fault),
    }
}

/// The alignment as a line of standard output.
pub(crate) fn call_section_alignment(
    page: &mut Page,
    files: &[Output],
    path: &str,
) -> Result<(), Stop> {
    match section_alignment(file_of(files, path)?) {
        Ok(alignment) => {
            let text = format!(in page.alloc(); "{alignment}\n")?;
            page.put(text.as_bytes());
            Ok(())
        }
        Err(fault) => fail(page, fault),
    }
}
