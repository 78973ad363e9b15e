//! How a form makes one value of the last ones.

ghost use Rattle.std.specs.Prelude.{◌≡◌};
ghost use Rattle.vv_grammar.specs.Trees.{shape_of};

use crate::form::Form;

/// What becomes of the values that were made last.
#[derive(Clone, Copy, Debug, PartialEq, Eq)]
pub enum Shape {
    /// Nothing is put on them.
    Absent,
    /// An empty list is put on them.
    Empty,
    /// The last one goes to the end of the list before it.
    Add,
    /// The last one becomes a list.
    One,
    /// They stay as they are.
    Same,
    /// A unit gets an empty list of contexts.
    Bare,
    /// So many become the parts of a node.
    Parts(usize),
    /// So many become the parts of a node, and the token before them is where it starts.
    Opened(usize),
}

impl Form {
    /// Its shape.
    pub fn shape(self) -> Shape
        ensures { result ≡ shape_of self }
    {
        match self {
            Form::Absent | Form::Unlisted => Shape::Absent,
            Form::Empty => Shape::Empty,
            Form::Add => Shape::Add,
            Form::One => Shape::One,
            Form::SelectedPart
            | Form::Positional
            | Form::Literal
            | Form::Element
            | Form::Single
            | Form::Only
            | Form::Discrete
            | Form::Bounded
            | Form::UseDeclaration
            | Form::UseContext
            | Form::Waveform
            | Form::ConcurrentAssertion
            | Form::SequentialAssertion
            | Form::Component
            | Form::Given
            | Form::PositionalAssociation => Shape::Same,
            Form::Bare => Shape::Bare,
            Form::IndexConstraint
            | Form::RangeConstraint
            | Form::Unbounded
            | Form::FunctionDeclaration
            | Form::Listed => Shape::Parts(1),
            Form::Name
            | Form::Mark
            | Form::Named
            | Form::BoundElement
            | Form::Power
            | Form::Operand
            | Form::Product
            | Form::Signed
            | Form::Sum
            | Form::Logic
            | Form::MarkRange
            | Form::Subtype
            | Form::Conditional
            | Form::ConditionalWaveform
            | Form::Selection
            | Form::NamedAssociation
            | Form::Labelled
            | Form::IfArm
            | Form::CaseArm
            | Form::LabelledStatement
            | Form::Unit => Shape::Parts(2),
            Form::Range
            | Form::Shift
            | Form::Relation
            | Form::ConstantInterface
            | Form::SelectedName
            | Form::Instance
            | Form::Assignment => Shape::Parts(3),
            Form::FunctionSpecification | Form::FunctionBody | Form::PortInterface => Shape::Parts(
                4,
            ),
            Form::RangeAttribute | Form::Others | Form::AllSignals | Form::Open | Form::Null =>
                Shape::Opened(0),
            Form::Arguments
            | Form::Attribute
            | Form::Qualified
            | Form::Parentheses
            | Form::Aggregate
            | Form::Abs
            | Form::Not
            | Form::Enumeration
            | Form::Use
            | Form::Library
            | Form::Return
            | Form::Wait => Shape::Opened(1),
            Form::Type
            | Form::Array
            | Form::SubtypeDeclaration
            | Form::AttributeDeclaration
            | Form::EntityInstance
            | Form::Loop
            | Form::Exit
            | Form::Next
            | Form::ReportStatement => Shape::Opened(2),
            Form::Constant
            | Form::Signal
            | Form::Variable
            | Form::Select
            | Form::Assertion
            | Form::If
            | Form::Case
            | Form::While
            | Form::Package
            | Form::PackageBody => Shape::Opened(3),
            Form::ComponentDeclaration
            | Form::AttributeSpecification
            | Form::Process
            | Form::IfGenerate
            | Form::For
            | Form::Entity => Shape::Opened(4),
            Form::ForGenerate | Form::Architecture => Shape::Opened(5),
        }
    }
}
