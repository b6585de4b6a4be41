//! What stands open below some lines.

/// What the body of a file has so far: nothing, sections, or the path of the whole.
#[derive(Clone, Copy, PartialEq, Eq)]
pub enum Body {
    Nothing,
    Sections,
    Whole,
}

/// Which braces are open.
#[derive(Clone, Copy, PartialEq, Eq)]
pub enum Open {
    Shut,
    InApriori,
    InFile(Body),
    InRule,
}

/// Whether a region waits for what fills it: none, one without its PCDs, or one with them.
#[derive(Clone, Copy, PartialEq, Eq)]
pub enum Waiting {
    NoRegion,
    Started,
    Named,
}

/// What the lines above leave: open braces, a region, whether a device's BlockSize waits for its
/// NumBlocks and a rule for its file.
#[derive(Clone, Copy, PartialEq, Eq)]
pub struct Marks {
    pub braces: Open,
    pub waiting: Waiting,
    pub pair: bool,
    pub unfiled: bool,
}
