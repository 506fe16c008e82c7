//! The lines of a configuration class by class, each with its place; those that are about some prefixes; when two classes have the same
//! lines in every block; the tags that stand in both, and the preferences of one that aren't above those of the other.
//!
//! The lines of a class stand in the blocks of all routers. Here they are put together: each with its class, its place (the router's
//! block, and which neighbour's block in it) and what it says. So two classes have the same lines in every block exactly where their
//! lists are the same but for the number of the class.
//!
//! - `specs/ClassLines`: the lines of a configuration (`all_lines`), those of a class (`of_class`), those about some prefixes, which leave
//!   out the `originate` lines of others (`lines_about`), when two lists say the same (`same_lines`).
//! - `specs/Marks`: the tags and the preferences in lines; the tags that stand in both of two lists (`shared_tags`), and the preferences
//!   in the second that aren't above all in the first (`low_prefs`).
//!
//! A table sorts the lines by class once. Then a class is found by two searches, and comparing two classes takes no longer than the
//! shorter one.
//!
//! `between` alone needs it.
//!
//! It knows nothing of what classes have to do with each other, and of stages.
#![tactic(auto)]

mod about;
mod class_line;
mod class_table;
mod marks;
mod table;

pub use about::lines_about;
pub use class_line::{ClassLine, Says, lines_of_config, same_says};
pub use class_table::ClassTable;
pub use marks::{least_pref, least_tag, push_low_prefs, push_shared_tags};
pub use table::are_same;
