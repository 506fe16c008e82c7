//! The pages, all of one form: `usage: propane ..`, paragraphs, and the sections `reads`, `writes`, `status` and `example`,
//! each of lines with two blanks in front. No line is longer than 80 columns.

mod compiling;
mod judging;
mod program;
mod telling;

pub use compiling::{BETWEEN, COMPILE, EVIDENCE, MAPS, MIGRATE, RENEW, RENEWAL, ROUTEMAP, SAMPLE};
pub use judging::{AUDIT, CHECK, CHECKMAP, EXPLAIN, LINT};
pub use program::{COMMANDS, HELP, USAGE, VERSION, VERSION_PAGE};
pub use telling::{
    COMPARE, DRAIN, IMPACT, MULTIPATH, PROMISES, REPLAY, SETTLE, TRACE, WAITING, WHATIF,
};
