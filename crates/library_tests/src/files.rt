//! Files byte for byte, and the faults of their parts.
use build_base::{Book, Guid, Path, Permit, Place, Refusal, Rows, Text};
use doc_types::image::{Body, ImagePlan, Part};
use ffs_sections::{body_sum, file_of, have_guids, header_sum};
use std::alloc::Global;

// A file's name, type, attribute CHECKSUM, alignment and sections by kind, and its bytes after the
// name. The kind 0 stands for a body that isn't made of sections.
struct Row {
    name: &'static [u8; 16],
    file_type: u8,
    checksum: bool,
    align: u32,
    sections: &'static [(u8, &'static [u8])],
    bytes: &'static [u8],
}

static ROWS: [Row; 7] = [
    Row {
        name: b"\x11\x11\x11\x11\x11\x11\x11\x11\x11\x11\x11\x11\x11\x11\x11\x11",
        file_type: 0x01,
        checksum: false,
        align: 1,
        sections: &[(0, b"ABCD")],
        bytes: b"\xD3\xAA\x01\x00\x1C\x00\x00\xF8ABCD",
    },
    Row {
        name: b"\x11\x11\x11\x11\x11\x11\x11\x11\x11\x11\x11\x11\x11\x11\x11\x11",
        file_type: 0x01,
        checksum: true,
        align: 1,
        sections: &[(0, b"ABCD")],
        bytes: b"\x93\xF6\x01\x40\x1C\x00\x00\xF8ABCD",
    },
    Row {
        name: b"\x22\x22\x22\x22\x22\x22\x22\x22\x22\x22\x22\x22\x22\x22\x22\x22",
        file_type: 0x01,
        checksum: false,
        align: 4096,
        sections: &[(0, b"\x00")],
        bytes: b"\x9E\xAA\x01\x28\x19\x00\x00\xF8\x00",
    },
    Row {
        name: b"\x2E\x06\xA0\x1B\x79\xC7\x82\x45\x85\x66\x33\x6A\xE8\xF7\x8F\x09",
        file_type: 0x01,
        checksum: false,
        align: 1,
        sections: &[(0, b"0123456789abcdef")],
        bytes: b"\xE2\xAA\x01\x00\x28\x00\x00\xF80123456789abcdef",
    },
    Row {
        name: b"\x0A\xCC\x45\x1B\x6A\x15\x8A\x42\xAF\x62\x49\x86\x4D\xA0\xE6\xE6",
        file_type: 0x02,
        checksum: false,
        align: 1,
        sections: &[(
            0x19,
            b"\x11\x11\x11\x11\x11\x11\x11\x11\x11\x11\x11\x11\x11\x11\x11\x11",
        )],
        bytes: b"\xB8\xAA\x02\x00\x2C\x00\x00\xF8\x14\x00\x00\x19\x11\x11\x11\x11\x11\x11\x11\x11\x11\x11\x11\x11\x11\x11\x11\x11",
    },
    Row {
        name: b"\x00\x00\x00\x00\x00\x00\x00\x00\x00\x01\x00\x00\x00\x00\x00\x00",
        file_type: 0x06,
        checksum: false,
        align: 1,
        sections: &[(0x1B, b"\x06\x08"), (0x15, b"m\x000\x00\x00\x00")],
        bytes: b"\xCF\xAA\x06\x00\x2A\x00\x00\xF8\x06\x00\x00\x1B\x06\x08\x00\x00\x0A\x00\x00\x15m\x000\x00\x00\x00",
    },
    Row {
        name: b"\x00\x00\x00\x00\x00\x00\x00\x00\x00\x00\x00\x00\x00\x00\x00\x00",
        file_type: 0x02,
        checksum: false,
        align: 1,
        sections: &[
            (0x14, b"\x00\x001\x00.\x000\x00\x00\x00"),
            (0x15, b"H\x00i\x00\x00\x00"),
        ],
        bytes: b"\xCC\xAA\x02\x00\x32\x00\x00\xF8\x0E\x00\x00\x14\x00\x001\x00.\x000\x00\x00\x00\x00\x00\x0A\x00\x00\x15H\x00i\x00\x00\x00",
    },
];

fn permit(alloc: Global) -> Option<Permit> {
    let mut book: Book<u8> = Book::new(alloc);
    book.grant(1).ok()
}

fn place(alloc: Global) -> Option<Place> {
    let path = Path::new(alloc, b"P.fdf").ok()?;
    Some(Place { path, line: 2 })
}

fn sections(alloc: Global, parts: &[(u8, &[u8])], align: u32, shift: u32) -> Option<Body> {
    let mut rows = Rows::new(alloc);
    for (kind, content) in parts {
        if *kind == 0 {
            return Some(Body::Whole(Text::of(alloc, content).ok()?));
        }
        let part = Part {
            kind: *kind,
            guid: None,
            align,
            shift,
            bytes: Text::of(alloc, content).ok()?,
        };
        rows.push(part).ok()?;
    }
    Some(Body::Sections(rows))
}

// The bytes of a row's file, or the fault's detail.
fn outcome(alloc: Global, row: &Row, align: u32, shift: u32) -> Option<Text> {
    let plan = ImagePlan {
        at: place(alloc)?,
        file_type: row.file_type,
        guid: Guid(*row.name),
        fixed: false,
        checksum: row.checksum,
        align: row.align,
        erase: 1,
        ffs3: false,
        body: sections(alloc, row.sections, align, shift)?,
    };
    if !have_guids(&plan.body) {
        return None;
    }
    match file_of(alloc, permit(alloc)?, &plan) {
        Ok(file) => Some(file.bytes),
        Err(Refusal::Bad(fault)) => Some(fault.detail),
        Err(Refusal::WantOfMemory) => None,
    }
}

#[test]
fn files(rt: HostRuntime) {
    let alloc = rt.alloc();
    for (i, row) in ROWS.iter().enumerate() {
        let bytes = outcome(alloc, row, 1, 0).expect(&rt, "memory");
        let name = row.name;
        let tail = row.bytes;
        assert!(rt; bytes.bytes().starts_with(name.as_slice()), "name of {i}");
        assert!(rt; bytes.bytes().ends_with(tail), "bytes of {i}");
        assert_eq!(rt; bytes.bytes().len(), 16 + tail.len(), "length of {i}");
    }
}

#[test]
fn refused_alignments(rt: HostRuntime) {
    let alloc = rt.alloc();
    for (align, shift, detail) in [(3, 0, b"3"), (8, 6, b"8")] {
        let bytes = outcome(alloc, &ROWS[5], align, shift).expect(&rt, "memory");
        assert_eq!(rt; bytes.bytes(), detail.as_slice());
    }
}

#[test]
fn sums(rt: HostRuntime) {
    let head =
        b"\x11\x11\x11\x11\x11\x11\x11\x11\x11\x11\x11\x11\x11\x11\x11\x11\xD3\xAA\x01\x00\x1C\x00\x00\xF8";
    assert_eq!(rt; header_sum(head), 0xD3);
    assert_eq!(rt; body_sum(b"ABCD"), 0xF6);
}
