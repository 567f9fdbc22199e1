// Plain names: letters, digits and `_` with a quiet byte behind. The read loop takes them without the general token reader (document 01, module 9), which
// stays their definition: proofs/PlainNames shows that it reads them as the same entry.
#![tactic(auto)]

pub mod plain;
