//! What a table is made for.

/// How many members and watchers a table is made for.
#[derive(Clone, Copy, Debug)]
pub struct Opening {
    pub members: u32,
    pub watchers: u32,
}
