// Circuits as tables of 16-byte records: the operators, the records and how they are read, the grounds on which work is
// turned down, and the definitions of the bench machine. What is here knows of no fact and of no service.
#![tactic(auto)]

pub mod checks;
pub mod number;
pub mod operator;
pub mod record;
pub mod refusal;
pub mod table;
pub mod width;
