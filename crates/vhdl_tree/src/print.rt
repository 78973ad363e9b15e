//! A tree as lines, each node before its parts and two spaces to the left of them.

use std::alloc::{AllocError, Global};
use std::str;
use vv_base::fault::Span;
use vv_nodes::node::{Node, NodeKind};

/// The lines of a tree. A token is printed as it is written in the file.
pub fn lines(alloc: Global, tree: Node<'_>, bytes: &[u8]) -> Result<String, AllocError> {
    let mut text = String::new(alloc);
    let mut open = Vec::new(alloc);
    open.push((tree, 0usize))?;
    for _ in 0..u64::MAX {
        let Some((node, depth)) = open.pop() else {
            return Ok(text);
        };
        line(alloc, &mut text, depth, node, bytes)?;
        for part in parts(node).iter().rev() {
            open.push((*part, depth.saturating_add(1)))?;
        }
    }
    Ok(text)
}

/// The parts of a node.
fn parts<'n>(node: Node<'n>) -> &'n [Node<'n>] {
    match node.kind() {
        NodeKind::Made { parts, .. } => *parts,
        NodeKind::List(items) => *items,
        NodeKind::Leaf(_) | NodeKind::Absent => &[],
    }
}

fn line(
    alloc: Global,
    text: &mut String,
    depth: usize,
    node: Node<'_>,
    bytes: &[u8],
) -> Result<(), AllocError> {
    for _ in 0..depth {
        text.push_str("  ")?;
    }
    match node.kind() {
        NodeKind::Leaf(token) => text.push_str(written(bytes, token.span))?,
        NodeKind::Made { form, .. } => {
            let name = format!(in alloc; "{form:?}")?;
            text.push_str(name.as_str())?;
        }
        NodeKind::List(_) => text.push_str("list")?,
        NodeKind::Absent => text.push_str("none")?,
    }
    text.push_str("\n")
}

/// A token as it is written in the file.
fn written<'b>(bytes: &'b [u8], span: Span) -> &'b str {
    let start = span.at as usize;
    let end = start.saturating_add(span.len as usize);
    match bytes.get(start..end) {
        Some(part) => str::from_utf8(part).unwrap_or("?"),
        None => "?",
    }
}
