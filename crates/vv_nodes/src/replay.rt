//! The tree that the events of a reading make of its tokens.

ghost use Rattle.std.specs.Prelude.{◌≡◌, ◌∷◌, [], IfOk};
ghost use Rattle.vv_grammar.specs.Trees.{replay as spec_replay};
ghost use Rattle.vv_nodes.specs.Nodes.{node_tree, stack};

use crate::node::{Node, NodeKind};
use crate::values::{Value, Values, misfit};
use bumpalo::Bump;
use std::alloc::Global;
use vv_base::fault::{Memory, Span};
use vv_grammar::event::Event;
use vv_vlex::token::Token;

/// The values that stand when these events have come over these tokens. `last` is the place before the first token.
pub fn replay<'a>(
    alloc: Global,
    arena: &'a Bump<Global>,
    events: &[Event],
    tokens: &'a [Token],
    last: Span,
) -> Result<Values<'a>, Memory>
    ensures { IfOk result (λ values. stack values ≡ spec_replay events.now tokens.now last []) }
{
    let mut values = Values::new(alloc);
    let mut ahead = events;
    let mut rest = tokens;
    let mut before = last;
    'events: while let [event, later @ ..] = ahead {
        ahead = later;
        match event {
            Event::Make(form) => values.make(arena, *form, before)?,
            Event::Skip => {
                let [token, more @ ..] = rest else {
                    return Ok(values);
                };
                before = token.span;
                rest = more;
            }
            Event::Keep => {
                let [token, more @ ..] = rest else {
                    return Ok(values);
                };
                let leaf = NodeKind::Leaf(token).keep(arena)?;
                values.push(Value::One(leaf))?;
                before = token.span;
                rest = more;
            }
        }
    }
    Ok(values)
}

/// The tree that these events make of these tokens, which is the only value that stands then.
pub fn tree<'a>(
    alloc: Global,
    arena: &'a Bump<Global>,
    events: &[Event],
    tokens: &'a [Token],
    last: Span,
) -> Result<Node<'a>, Memory>
    ensures { IfOk result (λ node. spec_replay events.now tokens.now last [] ≡ node_tree node ∷ []) }
{
    let mut values = replay(alloc, arena, events, tokens, last)?;
    let node = values.pop_node(arena)?;
    if values.is_empty() {
        Ok(node)
    } else {
        Err(misfit())
    }
}
