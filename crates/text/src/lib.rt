// The texts that the programs `common` and `boxes` write: the pieces of a common region, a refusal, a
// refusal with the entry or the line that has the fault, or any text, as bytes in a lent slice.
#![tactic(auto)]

mod text;

pub use text::{write_pieces, write_refusal, write_refusal_at, write_refusal_at_line, write_text};
