/// A reference to an area: a loaded instance of a module, or a complex constant.
///
/// The serial says which area it is; definitions read it alone. The block says where its words stand.
#[derive(Clone, Copy, Debug, PartialEq, Eq)]
pub struct AreaRef {
    /// Numbered from 1 in the order of loading; never used again.
    pub serial: u64,
    pub block: u32,
}

/// A function of a loaded instance, by its place in the instance's function table, counted from 0.
#[derive(Clone, Copy, Debug, PartialEq, Eq)]
pub struct CodeRef {
    pub area: AreaRef,
    pub function: u32,
}

/// What a persistent term is found as under its key.
#[derive(Clone, Copy, Debug, PartialEq, Eq)]
pub enum Found {
    /// The key holds no term.
    Absent,
    /// The word of an integer or an atom.
    Word(u64),
    /// The area that has the image of a tuple or a list.
    Area(AreaRef),
}
