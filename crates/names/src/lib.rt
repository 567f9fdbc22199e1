// Names (document 01, modules 1 and 9), after the crate's `identifier` and `skip_identifier`: names, raw names, and `inf` and `NaN` with their suffixes as
// floats. A letter above U+007F is one of XID_Start and XID_Continue (CR 5).
//
// All goes by characters, code point and width. `characters` passes those that are told without the table; at the first other one it builds the table, once for
// a name, and `table_chars` goes on with it.
#![tactic(auto)]

use text::Refusal;

pub mod characters;
pub mod classify;
pub mod identifiers;
pub mod starts;
pub mod table_chars;

// Which characters a run is made of: where the crate passes a function, a case.
#[derive(Clone, Copy)]
pub enum Class {
    First,
    Next,
    Raw,
}

// What stands where a name may stand, with its length; a raw name's `r#` counts.
#[derive(Clone, Copy)]
pub enum Identifier {
    Missing,
    Name(usize),
    RawName(usize),
}

// A token that begins as a name does, with its length, and of a float the suffix: 0, 32 or 64.
#[derive(Clone, Copy)]
pub enum Word {
    Plain(usize),
    Raw(usize),
    Float(usize, u8),
    Refused(Refusal),
}
