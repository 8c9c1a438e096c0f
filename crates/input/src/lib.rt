// What a program is handed, standard input and the words behind its name, and where its lines go. Which bytes the operating
// system brings, which words were given and whether what is written arrives, no contract can say: they bound what is counted.
#![tactic(auto)]

mod arguments;
mod standard_input;
mod standard_output;

pub use arguments::{decimal_word, hex_word, word, words};
pub use standard_input::{CHUNK, MOST_CHUNKS, read_chunk, read_whole};
pub use standard_output::{say_lines, unread, usage, write};
