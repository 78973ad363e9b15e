//! The places of the grammar.

/// A place where the grammar can stand: what is wanted there.
#[derive(Clone, Copy, Debug, PartialEq, Eq)]
pub enum Place {
    /// An expression: relations that one logical operator joins (IEEE 1076-1993, clause 7.1).
    Expression,
    /// An expression whose first identifier was read, at what can follow that identifier.
    ExpressionBehindIdent,
    /// An expression that a name begins which was read as far as it can be a mark.
    ExpressionBehindMark,
    /// A logical operator and the relations behind it.
    Combined,
    MoreAnd,
    MoreOr,
    MoreXor,
    MoreXnor,
    /// A relation: one shift expression, or two that are compared.
    Relation,
    Compared,
    ShiftExpression,
    Shifted,
    /// A sum. A sign stands before its first term.
    SimpleExpression,
    /// The terms behind the first one.
    Terms,
    MoreTerms,
    Term,
    /// The factors behind the first one.
    Factors,
    MoreFactors,
    Factor,
    /// An exponent.
    Power,
    Primary,
    /// The parts of a name behind its first identifier.
    NameParts,
    /// The parts of a name behind what could be a mark: none of its own begins with a dot.
    NamePartsBehindMark,
    /// What stands behind a tick: an attribute, or the operand of a qualified expression.
    BehindTick,
    /// An argument, or the formal name that stands before one.
    Argument,
    ArgumentBehindIdent,
    MoreArguments,
    /// Behind an opening parenthesis: an expression in parentheses or an aggregate.
    Parenthesis,
    /// Behind the first expression in parentheses.
    BehindFirst,
    /// What is known to be an aggregate, behind its opening parenthesis.
    AggregateElements,
    BehindFirstElement,
    MoreElements,
    /// An element of an aggregate.
    Element,
    /// Behind an expression that is an element or its first choice.
    BehindElement,
    /// Behind the choices of an element.
    BehindChoices,
    Choice,
    MoreChoices,
    /// A range, or one value.
    Range,
    RangeEnd,
    /// A range by its bounds, or by a subtype with or without a range.
    DiscreteRange,
    /// A name was read as far as it can be a mark.
    DiscreteRangeBehindMark,
    /// A part of a mark behind its first identifier.
    MarkPart,
    MoreIdents,
    Constraint,
    /// A type mark: identifiers with dots between them.
    TypeMark,
    /// A name (IEEE 1076-1993, clause 6).
    Name,
    Choices,
    /// A subtype indication (IEEE 1076-1993, clause 4.2).
    SubtypeIndication,
    /// A declaration of an architecture or a generate statement.
    Declaration,
    /// A declaration of a package.
    PackageDeclaration,
    /// A declaration of a package body.
    BodyDeclaration,
    /// A declaration of a process or a function.
    ProcessDeclaration,
    /// Behind the specification of a function: its end, or its body.
    FunctionEnd,
    FunctionBody,
    Designator,
    EndFunction,
    EndDesignator,
    Parameters,
    /// A generic or a parameter.
    ConstantInterface,
    ConstantInterfaceRest,
    MoreConstantInterfaces,
    ModeIn,
    /// An initial value.
    Default,
    Generics,
    Ports,
    PortInterface,
    PortInterfaceRest,
    MorePortInterfaces,
    Mode,
    TypeDefinition,
    EnumerationLiteral,
    MoreEnumerationLiterals,
    /// The index of an array type.
    ArrayIndex,
    /// A name was read as far as it can be a mark.
    ArrayIndexBehindMark,
    ArrayIndexBehindRange,
    BehindAttribute,
    EntityDesignator,
    MoreEntityDesignators,
    EntityClass,
    /// A name of a use clause.
    SelectedName,
    MoreSelectedNames,
    SelectedSuffix,
    Suffix,
    TypeRest,
    SubtypeRest,
    /// The names, the subtype and the initial value of a declaration of objects.
    ObjectRest,
    /// A function behind its first word.
    FunctionRest,
    ComponentRest,
    AttributeRest,
    /// A concurrent statement, with or without a label.
    Concurrent,
    ConcurrentBehindIdent,
    LabelledConcurrent,
    /// Behind a label, a name was read as far as it can be a mark: a component or a target.
    ConcurrentBehindMark,
    /// Behind a value of a conditional assignment.
    BehindWaveform,
    BehindCondition,
    MoreSelections,
    Report,
    Severity,
    OptionalArchitecture,
    GenericMap,
    PortMap,
    /// An association, or the formal name that stands before one.
    Association,
    AssociationBehindIdent,
    ActualPart,
    MoreAssociations,
    /// The declarations of a generate statement, whose end is a begin.
    GenerateDeclarations,
    /// A sensitivity list.
    Sensitivity,
    SensitivityNames,
    MoreNames,
    OptionalIs,
    /// The name that may stand at an end.
    EndName,
    ProcessRest,
    SelectRest,
    /// A conditional assignment behind its target.
    ConditionalRest,
    AssertionRest,
    /// An instance behind what it is of.
    InstanceRest,
    GenerateRest,
    /// A sequential statement, with or without a label.
    Statement,
    StatementBehindIdent,
    LabelledStatement,
    MoreIfArms,
    ElseArm,
    MoreCaseArms,
    OptionalName,
    OptionalWhen,
    IfRest,
    CaseRest,
    /// A loop behind its range or condition.
    LoopRest,
    LoopBody,
    ExitRest,
    /// An assignment behind its target.
    AssignmentRest,
    /// A unit with its context clauses.
    Unit,
    UnitBehindContext,
    BehindPackage,
    EndPackage,
    EndBody,
    EndEntity,
    EndArchitecture,
    EntityRest,
    ArchitectureRest,
    LibraryRest,
    UseRest,
}
