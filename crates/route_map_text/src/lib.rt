//! The text of route maps, and one line of it, read and written.
//!
//! A maps text differs from a configuration text in its words, its lists and the numbers of its entries. So a line of maps
//! (`MapLine`) is one of a list, a numbered entry or a line of a block, and the last two carry the line of a configuration
//! that says the same. What a line of a configuration keeps is then kept here, too, and is not said again.
//!
//! `read_map_line` reads one line, its form before its numbers, and takes no memory. `print_maps` writes maps, and no text
//! spells two of them. `lines_have_texts` and `texts_are_lines` say that a line has one text. Tags are written as large
//! communities are (RFC 8092). Entries are numbered 10, 20, 30, .., as one does on a router.
//!
//! A number of a list or an entry over 4,294,967,295 is read as no number, which is never the next one: so it is a fault of
//! the order and not of the number.
//!
//! `routemap`, `checkmap` and `maps` alone need it.
//!
//! It knows nothing of what comes before a line.
#![tactic(auto)]

mod blocks;
pub mod laws;
mod line;
mod lines;
mod print;
mod read;

pub use line::MapLine;
pub use print::print_maps;
pub use read::read_map_line;
