//! Nodes that step to the same classes.
ghost use Rattle.std.specs.Prelude.{◌≡◌, ◌<◌, ◌&&◌, All, length, not};
ghost use Rattle.std.specs.List.{find};
ghost use Rattle.node_quotient.specs.Alike.{AreInside, are_alike, are_in_step, has_class as is_class_in, lacks_class as is_class_lacked};

use bit_rows::NodeList;

// Whether a node of the list is of this class.
fn has_class(list: &[u32], least: &[u32], class: u32) -> bool
    requires { All (λ n. n < length least.now) list.now }
    ensures { result ≡ is_class_in least.now list.now class }
{
    for n in list {
        if least[*n as usize] == class {
            return true;
        }
    }
    false
}

// Whether some class of the one list isn't one of the other.
fn lacks_class(list: &[u32], other: &[u32], least: &[u32]) -> bool
    requires list { All (λ n. n < length least.now) list.now }
    requires other { All (λ n. n < length least.now) other.now }
    ensures { result ≡ is_class_lacked least.now list.now other.now }
{
    for n in list {
        if !has_class(other, least, least[*n as usize]) {
            return true;
        }
    }
    false
}

// Whether the nodes of two lists are of the same classes one after another.
fn is_in_step(list: &[u32], other: &[u32], least: &[u32]) -> bool
    requires list { All (λ n. n < length least.now) list.now }
    requires other { All (λ n. n < length least.now) other.now }
    ensures { result ≡ are_in_step least.now list.now other.now }
{
    if list.len() != other.len() {
        return false;
    }
    for i in 0..list.len() {
        if least[list[i] as usize] != least[other[i] as usize] {
            return false;
        }
    }
    true
}

// Whether the nodes of two lists are of the same classes. Where they are so one after another, that is seen at once.
fn is_same_classes(list: &[u32], other: &[u32], least: &[u32]) -> bool
    requires list { All (λ n. n < length least.now) list.now }
    requires other { All (λ n. n < length least.now) other.now }
    ensures { result ≡ (not (is_class_lacked least.now list.now other.now) && not (is_class_lacked least.now other.now list.now)) }
{
    is_in_step(list, other, least)
        || (!lacks_class(list, other, least) && !lacks_class(other, list, least))
}

// Whether two nodes are of one class and step to the same classes.
fn is_alike(lists: &[NodeList], least: &[u32], m: u32, n: u32) -> bool
    requires size { length lists.now ≡ length least.now }
    requires lists { AreInside lists.now (length least.now) }
    requires m { m < length least.now }
    requires n { n < length least.now }
    ensures { result ≡ are_alike lists.now least.now m n }
{
    least[m as usize] == least[n as usize]
        && is_same_classes(
            lists[m as usize].as_slice(),
            lists[n as usize].as_slice(),
            least,
        )
}

/// The first of these nodes that is alike.
pub fn first_alike(nodes: &[u32], lists: &[NodeList], least: &[u32], node: u32) -> Option<u32>
    requires size { length lists.now ≡ length least.now }
    requires lists { AreInside lists.now (length least.now) }
    requires nodes { All (λ m. m < length least.now) nodes.now }
    requires node { node < length least.now }
    ensures { result ≡ find (λ m. are_alike lists.now least.now m node) nodes.now }
{
    for m in nodes {
        if is_alike(lists, least, *m, node) {
            return Some(*m);
        }
    }
    None
}
