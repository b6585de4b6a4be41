//! What is wrong with a file that should be a PE module.

/// Why no TE image can be made of a file.
#[derive(Clone, Copy, Debug, PartialEq, Eq)]
pub enum PeFault {
    /// A signature, the magic or the size of the optional header isn't that of PE32 or PE32+.
    NotPe,
    /// The headers or the section table reach past the end of the file.
    Truncated,
    /// FileAlignment isn't SectionAlignment, so the sections don't lie in the file as in memory.
    AlignmentsDiffer,
    /// NumberOfSections is over 255.
    TooManySections,
    /// The section table starts past 65,535.
    HeaderTooLong,
    /// Subsystem is over 255.
    SubsystemTooLarge,
}
