// The kinds of entries, as they stand on a tape (document 01, module 9).
pub const OPEN_PAREN: u32 = 1;

pub const CLOSE_PAREN: u32 = 2;

pub const OPEN_BRACKET: u32 = 3;

pub const CLOSE_BRACKET: u32 = 4;

pub const OPEN_BRACE: u32 = 5;

pub const CLOSE_BRACE: u32 = 6;

pub const COMMA: u32 = 7;

pub const COLON: u32 = 8;

pub const NAME: u32 = 9;

pub const RAW_NAME: u32 = 10;

pub const INTEGER: u32 = 11;

pub const FLOAT: u32 = 12;

pub const CHAR: u32 = 13;

pub const STRING: u32 = 14;

pub const BYTE_STRING: u32 = 15;

pub const ATTRIBUTE: u32 = 16;
