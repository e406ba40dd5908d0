// Replays a list of problems with their answers: decodes a case of the file, calls sizing and the
// assembly, and compares all that they answer and write with the case.
//
// No public function has a `requires`. A case that is not whole, or that is larger than the arrays
// here, does not agree; nothing is read past the end of what is at hand. Where the next case begins
// follows from the list's own numbers and never from what sizing or the assembly answered.
#![tactic(auto)]

mod arrays;
mod case;
mod compare;
mod decoded;
mod file;
mod input;
mod layout;
mod lent;

pub use case::{Replayed, replay_case};
pub use file::byte_at;
