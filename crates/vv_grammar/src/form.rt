//! What is made of the parts that were read.

/// A production of the grammar or a piece of one. It is made of the parts that were read last, which its comment lists in their
/// order; a `?` marks a part that may be left out. What is made takes their place.
#[derive(Clone, Copy, Debug, PartialEq, Eq)]
pub enum Form {
    /// Nothing, where a part is left out.
    Absent,
    /// A list with nothing in it.
    Empty,
    /// The list with one part more. Of: list, part.
    Add,
    /// A list of one part. Of: part.
    One,
    /// A name. Of: identifier, name parts.
    Name,
    /// A part of a name behind a dot. Of: identifier.
    SelectedPart,
    /// The arguments of a name: indexes, a slice, or those of a call. Of: parenthesis, arguments.
    Arguments,
    /// An attribute. Of: tick, identifier.
    Attribute,
    /// The attribute `range`. Of: tick.
    RangeAttribute,
    /// The operand of a qualified expression. Of: tick, operand.
    Qualified,
    /// An argument without a formal name. Of: range.
    Positional,
    /// An argument with its formal name. Of: identifier, range.
    Named,
    /// A number, a character, a string or a bit string. Of: token.
    Literal,
    /// An expression in parentheses. Of: parenthesis, expression.
    Parentheses,
    /// An aggregate. Of: parenthesis, elements.
    Aggregate,
    /// An element without choices. Of: expression.
    Element,
    /// An element with its choices. Of: choices, expression.
    BoundElement,
    /// The choice `others`. Of: word.
    Others,
    /// A value or a range as a choice. Of: range.
    Single,
    /// One value where a range can stand. Of: expression.
    Only,
    /// A range. Of: expression, direction, expression.
    Range,
    /// A power. Of: expression, expression.
    Power,
    /// An absolute value. Of: word, expression.
    Abs,
    /// A negation. Of: word, expression.
    Not,
    /// An operator with its right operand. Of: operator, expression.
    Operand,
    /// Factors that multiplying operators join. Of: expression, operands.
    Product,
    /// A term with a sign. Of: sign, expression.
    Signed,
    /// Terms that adding operators join. Of: expression, operands.
    Sum,
    /// A shift or a rotation. Of: expression, operator, expression.
    Shift,
    /// A relation. Of: expression, operator, expression.
    Relation,
    /// Relations that a logical operator joins. Of: expression, operands.
    Logic,
    /// A type mark, or the mark of a unit. Of: identifier, identifiers.
    Mark,
    /// A discrete range by its bounds. Of: range.
    Discrete,
    /// A discrete range by a mark and its range. Of: mark, range.
    MarkRange,
    /// The index of an array subtype. Of: discrete range.
    IndexConstraint,
    /// The range of a scalar subtype. Of: range.
    RangeConstraint,
    /// A subtype indication. Of: mark, constraint?.
    Subtype,
    /// The declaration of a type. Of: word, identifier, definition.
    Type,
    /// The definition of an enumeration type. Of: parenthesis, literals.
    Enumeration,
    /// The definition of an array type. Of: word, index, subtype.
    Array,
    /// The index of an array type without bounds. Of: mark.
    Unbounded,
    /// The index of an array type with bounds. Of: discrete range.
    Bounded,
    /// The declaration of a subtype. Of: word, identifier, subtype.
    SubtypeDeclaration,
    /// The declaration of constants. Of: word, identifiers, subtype, expression?.
    Constant,
    /// The declaration of signals. Of: word, identifiers, subtype, expression?.
    Signal,
    /// The declaration of variables. Of: word, identifiers, subtype, expression?.
    Variable,
    /// What a function takes and gives. The word is `pure` or `function`. Of: word, designator, interfaces, mark.
    FunctionSpecification,
    /// The declaration of a function. Of: specification.
    FunctionDeclaration,
    /// The body of a function. Of: specification, declarations, statements, designator?.
    FunctionBody,
    /// Generics or parameters. Of: identifiers, subtype, expression?.
    ConstantInterface,
    /// Ports. Of: identifiers, mode?, subtype, expression?.
    PortInterface,
    /// The declaration of a component: its generics, then its ports. Of: word, identifier, interfaces, interfaces, identifier?.
    ComponentDeclaration,
    /// The declaration of an attribute. Of: word, identifier, mark.
    AttributeDeclaration,
    /// The value of an attribute for some named entities of a class. Of: word, identifier, designators, class, expression.
    AttributeSpecification,
    /// A name of a use clause. Of: identifier, identifier, suffix?.
    SelectedName,
    /// A use clause. Of: word, selected names.
    Use,
    /// A use clause among declarations. Of: use clause.
    UseDeclaration,
    /// A use clause of a context. Of: use clause.
    UseContext,
    /// A library clause. Of: word, identifiers.
    Library,
    /// A process. Of: word, sensitivity, declarations, statements, identifier?.
    Process,
    /// No sensitivity list.
    Unlisted,
    /// A sensitivity list. Of: names.
    Listed,
    /// The sensitivity list `all`. Of: word.
    AllSignals,
    /// A conditional signal assignment. Of: name, waveforms.
    Conditional,
    /// A value without a condition. Of: expression.
    Waveform,
    /// A value with its condition. Of: expression, expression.
    ConditionalWaveform,
    /// A selected signal assignment: its selector, its target and its values. Of: word, expression, name, selections.
    Select,
    /// A value with its choices. Of: expression, choices.
    Selection,
    /// An assertion: its condition, its report and its severity. Of: word, expression, expression?, expression?.
    Assertion,
    /// An assertion as a concurrent statement. Of: assertion.
    ConcurrentAssertion,
    /// An assertion as a sequential statement. Of: assertion.
    SequentialAssertion,
    /// What an instance is of: a component. Of: mark.
    Component,
    /// What an instance is of: an entity, and its architecture. Of: word, mark, identifier?.
    EntityInstance,
    /// An instance: what it is of, its generic map and its port map. Of: unit, associations, associations.
    Instance,
    /// No actual. Of: word.
    Open,
    /// An actual. Of: expression.
    Given,
    /// An association without a formal name. Of: actual.
    PositionalAssociation,
    /// An association with its formal name. Of: identifier, actual.
    NamedAssociation,
    /// A generate statement for each value of a range. Of: word, identifier, discrete range, declarations, concurrent statements, identifier?.
    ForGenerate,
    /// A generate statement under a condition. Of: word, expression, declarations, concurrent statements, identifier?.
    IfGenerate,
    /// A concurrent statement with its label. Of: identifier, statement.
    Labelled,
    /// An assignment to a signal or a variable, by its sign. Of: name, sign, expression.
    Assignment,
    /// An if statement. Of: word, arms, statements?, identifier?.
    If,
    /// A condition with its statements. Of: expression, statements.
    IfArm,
    /// A case statement. Of: word, expression, arms, identifier?.
    Case,
    /// Choices with their statements. Of: choices, statements.
    CaseArm,
    /// A loop for each value of a range. Of: word, identifier, discrete range, statements, identifier?.
    For,
    /// A loop while a condition holds. Of: word, expression, statements, identifier?.
    While,
    /// A loop without an end of its own. Of: word, statements, identifier?.
    Loop,
    /// An exit statement: the label of its loop and its condition. Of: word, identifier?, expression?.
    Exit,
    /// A next statement: the label of its loop and its condition. Of: word, identifier?, expression?.
    Next,
    /// A return statement. Of: word, expression.
    Return,
    /// A null statement. Of: word.
    Null,
    /// A wait statement. Of: word, expression.
    Wait,
    /// A report statement: its message and its severity. Of: word, expression, expression?.
    ReportStatement,
    /// A sequential statement with its label. Of: identifier, statement.
    LabelledStatement,
    /// An entity: its generics, then its ports. Of: word, identifier, interfaces, interfaces, identifier?.
    Entity,
    /// An architecture of an entity. Of: word, identifier, identifier, declarations, concurrent statements, identifier?.
    Architecture,
    /// A package. Of: word, identifier, declarations, identifier?.
    Package,
    /// The body of a package. Of: word, identifier, declarations, identifier?.
    PackageBody,
    /// A unit with its context clauses. Of: contexts, unit.
    Unit,
    /// A unit without context clauses. Of: unit.
    Bare,
}
