// The fields of ( ) (document 02, request 2): "Within one `( )` of fields no name may come again, and `r#width` and `width` are one name."
//
// `names` says which bytes an entry's name is, and which raw names fit the text (refusal 23); `comparing` compares two names; `again` finds the first of some
// fields that has the name of one before it; `naming` tells which entries name a field, by what the grammar wants there. Crate walk gathers them.
#![tactic(auto)]

pub mod again;
pub mod comparing;
pub mod names;
pub mod naming;
