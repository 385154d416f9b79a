//! Rows of instances that are given nothing.

ghost use Rattle.std.specs.Prelude.{◌≡◌, ◌*◌, nat_lt};
ghost use Rattle.std.specs.List.{prefix_len};
ghost use Rattle.proto_expand.specs.Rows as rows;
ghost use Rattle.proto_expand.specs.Rows.{bare_in, bare_number, instance_number, is_bare_of};

use proto_flat::{ExpandFault, ExpandFaultKind};
use proto_meaning::{BodyTree, NodeTree, Word};

/// Returns the number of the prototype, if the word means an instance.
fn instance_of(word: Word) -> Option<usize>
    ensures { result ≡ instance_number word }
{
    match word {
        Word::Unknown => None,
        Word::Node(_node_type) => None,
        Word::Instance(number) => Some(number),
    }
}

/// Returns the number of the prototype, if the node is an instance that is given nothing.
fn bare_node(node: &NodeTree<'_>) -> Option<usize>
    ensures { result ≡ bare_in node.now }
{
    match node {
        NodeTree::Use(_, _) => None,
        NodeTree::Full(_, _, word, items) => {
            if items.is_empty() {
                instance_of(*word)
            } else {
                None
            }
        }
    }
}

/// Returns the number of the prototype, if the statement is an instance that is given nothing.
fn bare_proto(statement: &BodyTree<'_>) -> Option<usize>
    ensures { result ≡ bare_number statement.now }
{
    match statement {
        BodyTree::Node(node) => bare_node(node),
        BodyTree::Route(_) => None,
        BodyTree::Wrong(_) => None,
    }
}

/// Reports whether the statement is an instance of that prototype, and is given nothing.
fn is_bare(statement: &BodyTree<'_>, number: usize) -> bool
    ensures { result ≡ is_bare_of number statement.now }
{
    match bare_proto(statement) {
        Some(found) => found == number,
        None => false,
    }
}

/// Returns how many statements at the start are such instances of that prototype.
fn count_bare(statements: &[BodyTree<'_>], number: usize) -> usize
    ensures { result ≡ prefix_len (is_bare_of number) statements.now }
{
    statements
        .iter()
        .take_while(|statement| is_bare(*statement, number))
        .count()
}

/// Returns how many statements at the start are such instances of one prototype.
fn row_len(statements: &[BodyTree<'_>]) -> usize
    ensures { result ≡ rows.row_len statements.now }
{
    let [first, ..] = statements else {
        return 0;
    };
    match bare_proto(first) {
        Some(number) => count_bare(statements, number),
        None => 0,
    }
}

/// Reports whether `count` instances that take `each` are more than `left`.
fn is_too_much(each: u32, count: usize, left: u32) -> bool
    ensures { result ≡ nat_lt left (each * count) }
{
    u64::from(each).saturating_mul(count as u64) > u64::from(left)
}

/// Returns how many statements at the start are in a row of such instances. `before` is the room
/// that was left before the first of them was added, `left` the room after it. TooLarge (line 0) if
/// the others of the row don't fit into `left`.
pub fn look_along(statements: &[BodyTree<'_>], before: u32, left: u32) -> Result<usize, ExpandFault>
    ensures { result ≡ rows.look_along statements.now before left }
{
    let count = row_len(statements);
    if is_too_much(before.saturating_sub(left), count.saturating_sub(1), left) {
        return Err(ExpandFaultKind::TooLarge.on_line(0));
    }
    Ok(count)
}
