//! The parts of a node, each of which lies deeper than the node.

ghost use Rattle.std.specs.Prelude.{◌≡◌, ◌<◌, All, IfOk};
ghost use Rattle.vv_grammar.specs.Trees as t;
ghost use Rattle.vv_nodes.specs.Nodes.{node_tree, nodes_trees};
ghost use Rattle.vv_nodes.specs.declared.node.Node.{size-Node};

use crate::node::{Node, NodeKind};
use crate::values::misfit;
use vv_base::fault::{Memory, Span};
use vv_grammar::form::Form;
use vv_vlex::token::Token;

#[tactic(auto, using(crate::proofs::NodeKinds::made_is, crate::proofs::NodeKinds::list_is))]
impl<'a> Node<'a> {
    /// The form that made it, if one did.
    pub fn form(self) -> Option<Form> {
        match self.kind() {
            NodeKind::Made { form, .. } => Some(*form),
            _ => None,
        }
    }

    /// The token that it is.
    pub fn token(self) -> Result<&'a Token, Memory>
        ensures { IfOk result (λ token. node_tree self.entry ≡ t.leaf token.now) }
    {
        match self.kind() {
            NodeKind::Leaf(token) => Ok(*token),
            _ => Err(misfit()),
        }
    }

    /// The parts of a list.
    pub fn items(self) -> Result<&'a [Node<'a>], Memory>
        ensures tree { IfOk result (λ items. node_tree self.entry ≡ t.list (nodes_trees items.now)) }
        ensures deeper { IfOk result (λ items. All (λ item. size-Node item < size-Node self.entry) items.now) }
    {
        match self.kind() {
            NodeKind::List(items) => Ok(*items),
            _ => Err(misfit()),
        }
    }

    /// The parts of what this form made, and its place.
    pub fn made(self, wanted: Form) -> Result<(&'a [Node<'a>], Span), Memory>
        ensures tree { IfOk result (λ r. node_tree self.entry ≡ t.node wanted (nodes_trees r.0.now) r.1) }
        ensures deeper { IfOk result (λ r. All (λ part. size-Node part < size-Node self.entry) r.0.now) }
    {
        let NodeKind::Made { form, parts, span } = self.kind() else {
            return Err(misfit());
        };
        if *form == wanted {
            return Ok((*parts, *span));
        }
        Err(misfit())
    }

    /// The place of what this form made of nothing.
    pub fn none(self, form: Form) -> Result<Span, Memory>
        ensures { IfOk result (λ span. node_tree self.entry ≡ t.node form t.none span) }
    {
        let (parts, span) = self.made(form)?;
        match parts {
            [] => Ok(span),
            _ => Err(misfit()),
        }
    }

    /// The part of what this form made, and its place.
    pub fn one(self, form: Form) -> Result<(Node<'a>, Span), Memory>
        ensures tree { IfOk result (λ r. node_tree self.entry ≡ t.node form (t.more (node_tree r.0) t.none) r.1) }
        ensures deeper { IfOk result (λ r. size-Node r.0 < size-Node self.entry) }
    {
        let (parts, span) = self.made(form)?;
        match parts {
            [first] => Ok((*first, span)),
            _ => Err(misfit()),
        }
    }

    /// The two parts of what this form made, and its place.
    pub fn two(self, form: Form) -> Result<(Node<'a>, Node<'a>, Span), Memory>
        ensures tree { IfOk result (λ r. node_tree self.entry ≡ t.node form (t.more (node_tree r.0) (t.more (node_tree r.1) t.none)) r.2) }
        ensures deeper { IfOk result (λ r. (size-Node r.0 < size-Node self.entry) × (size-Node r.1 < size-Node self.entry)) }
    {
        let (parts, span) = self.made(form)?;
        match parts {
            [first, second] => Ok((*first, *second, span)),
            _ => Err(misfit()),
        }
    }

    /// The three parts of what this form made, and its place.
    pub fn three(self, form: Form) -> Result<(Node<'a>, Node<'a>, Node<'a>, Span), Memory>
        ensures tree { IfOk result (λ r. node_tree self.entry ≡ t.node form (t.more (node_tree r.0) (t.more (node_tree r.1) (t.more (node_tree r.2) t.none))) r.3) }
        ensures deeper { IfOk result (λ r. (size-Node r.0 < size-Node self.entry) × (size-Node r.1 < size-Node self.entry) × (size-Node r.2 < size-Node self.entry)) }
    {
        let (parts, span) = self.made(form)?;
        match parts {
            [first, second, third] => Ok((*first, *second, *third, span)),
            _ => Err(misfit()),
        }
    }

    /// The four parts of what this form made, and its place.
    pub fn four(self, form: Form) -> Result<(Node<'a>, Node<'a>, Node<'a>, Node<'a>, Span), Memory>
        ensures tree { IfOk result (λ r. node_tree self.entry ≡ t.node form (t.more (node_tree r.0) (t.more (node_tree r.1) (t.more (node_tree r.2) (t.more (node_tree r.3) t.none)))) r.4) }
        ensures deeper { IfOk result (λ r. (size-Node r.0 < size-Node self.entry) × (size-Node r.1 < size-Node self.entry) × (size-Node r.2 < size-Node self.entry) × (size-Node r.3 < size-Node self.entry)) }
    {
        let (parts, span) = self.made(form)?;
        match parts {
            [first, second, third, fourth] => Ok((*first, *second, *third, *fourth, span)),
            _ => Err(misfit()),
        }
    }

    /// The five parts of what this form made, and its place.
    pub fn five(
        self,
        form: Form,
    ) -> Result<(Node<'a>, Node<'a>, Node<'a>, Node<'a>, Node<'a>, Span), Memory>
        ensures tree { IfOk result (λ r. node_tree self.entry ≡ t.node form (t.more (node_tree r.0) (t.more (node_tree r.1) (t.more (node_tree r.2) (t.more (node_tree r.3) (t.more (node_tree r.4) t.none))))) r.5) }
        ensures deeper { IfOk result (λ r. (size-Node r.0 < size-Node self.entry) × (size-Node r.1 < size-Node self.entry) × (size-Node r.2 < size-Node self.entry) × (size-Node r.3 < size-Node self.entry) × (size-Node r.4 < size-Node self.entry)) }
    {
        let (parts, span) = self.made(form)?;
        match parts {
            [first, second, third, fourth, fifth] => Ok((
                *first, *second, *third, *fourth, *fifth, span,
            )),
            _ => Err(misfit()),
        }
    }
}
