/// The place of the name of the module in an image, behind the serial.
pub const MODULE_PLACE: u32 = 1;

/// The place of the table of functions in an image, behind serial, name, version and number of functions.
pub const TABLE_PLACE: u32 = 4;

/// How many words a function has in the table. The first is its name.
pub const HEAD_LEN: u32 = 4;

/// Which of these words tells its arity and whether it is exported.
pub const ARITY_WORD: u32 = 1;

/// Which of these words tells the place of its first instruction.
pub const PLACE_WORD: u32 = 3;
