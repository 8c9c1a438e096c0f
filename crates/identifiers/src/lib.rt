// The refusal numbers, the answer to what is done or refused, and the 29-bit identifier: read from a number, and written from its fields.
#![tactic(auto)]

mod answer;
mod identifier;
mod refusal;

pub use answer::AnswerTold;
pub use identifier::{Identifier, IdentifierReadTold, IdentifierWrittenTold, Target};
pub use refusal::Refusal;
