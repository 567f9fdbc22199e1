// Tokens (document 01, module 9): the token enum, the dispatch by first characters (`shape`), and the token of a part behind its gap
// (`following::next_token`).
//
// specs/Lexemes gives kinds and details, specs/Ron the token reader that the theory of readings is used with. That it meets the theory's laws is `laws` in
// proofs/RonLaws: all that is promised of repair rests on it.
#![tactic(auto)]

pub mod following;
pub mod lexeme;
pub mod shape;
pub mod token;
