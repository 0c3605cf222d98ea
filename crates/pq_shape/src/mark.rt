//! The marks by their codes: a mark's byte, or of two bytes 256 times the first and the second.

/// `(`
pub const OPEN: u16 = 40;
/// `)`
pub const CLOSE: u16 = 41;
/// `*`
pub const STAR: u16 = 42;
/// `,`
pub const COMMA: u16 = 44;
/// `.`
pub const POINT: u16 = 46;
/// `:`
pub const COLON: u16 = 58;
/// `;`
pub const SEMICOLON: u16 = 59;
/// `<`
pub const LESS: u16 = 60;
/// `=`
pub const EQUAL: u16 = 61;
/// `>`
pub const GREATER: u16 = 62;
/// `[`
pub const OPEN_SQUARE: u16 = 91;
/// `]`
pub const CLOSE_SQUARE: u16 = 93;
/// `<=`
pub const LESS_EQUAL: u16 = 15421;
/// `<>`
pub const UNEQUAL: u16 = 15422;
/// `>=`
pub const GREATER_EQUAL: u16 = 15933;
