//! What a line of a maps text says.
use config_lines::Line;
use route_maps::ListLine;

/// A line of a maps text, without its line feed, but for the first line of the text.
#[derive(Drop)]
pub enum MapLine {
    /// `list`: the number of the list, None where it is over 4294967295, and its line.
    List(Option<u32>, ListLine),
    /// `in` or `out`: its number, None where it is over 4294967295, and the import or the export that says the same,
    /// with the number of the list as its class.
    Entry(Option<u32>, Line),
    /// `router`, `network`, `neighbor`, `peer` or `end`, as the line of a configuration that says the same, with the
    /// number of the list as the class of a `network` line.
    Block(Line),
}
