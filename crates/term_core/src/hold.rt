/// How many areas a process holds at most; they are counted by their serials, whatever they are held for.
pub const MOST_AREAS: usize = 16;

/// What an area is held for.
#[derive(Clone, Copy, Debug, PartialEq, Eq)]
pub enum Kind {
    /// A frame runs code of the instance.
    Frame,
    /// A literal stands among its words.
    Literal,
}

/// As many other areas are held as can be.
#[derive(Clone, Copy, Debug, PartialEq, Eq)]
pub struct Full;
