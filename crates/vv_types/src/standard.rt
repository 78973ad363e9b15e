//! The operators of the packages `standard` and `std_logic_1164`.

/// An operator on one combination of operand kinds: the predefined ones whose result is no integer, and the logical ones of
/// `std_logic_1164`.
#[derive(Clone, Copy, Debug, PartialEq, Eq)]
pub enum StdFn {
    // Equality, for every type.
    EqualLogic,
    EqualBool,
    EqualInt,
    EqualEnum,
    EqualArray,
    NotEqualLogic,
    NotEqualBool,
    NotEqualInt,
    NotEqualEnum,
    NotEqualArray,
    // Order, of booleans, numbers and positions.
    LessBool,
    LessEqualBool,
    GreaterBool,
    GreaterEqualBool,
    LessInt,
    LessEqualInt,
    GreaterInt,
    GreaterEqualInt,
    LessEnum,
    LessEqualEnum,
    GreaterEnum,
    GreaterEqualEnum,
    // Logic of booleans.
    AndBool,
    OrBool,
    XorBool,
    NandBool,
    NorBool,
    XnorBool,
    NotBool,
    // Logic of `std_ulogic`.
    AndLogic,
    OrLogic,
    XorLogic,
    NandLogic,
    NorLogic,
    XnorLogic,
    NotLogic,
    // Logic of vectors of `std_ulogic`, element by element.
    AndVector,
    OrVector,
    XorVector,
    NandVector,
    NorVector,
    XnorVector,
    NotVector,
    // Concatenation.
    ConcatenateArrays,
    ConcatenateArrayElement,
    ConcatenateElementArray,
    ConcatenateElements,
}
