use bumpalo::Bump;
use std::alloc::Global;
use std::test::Fail;
use vv_base::fault::{Fault, Refusal, Rule};
use vv_base::names::Names;
use vv_grammar::edition::Edition;
use vv_pexpr::calls::{aggregate, expr, name};
use vv_pstmt::parse::parse;
use vv_tree::concurrent::{ConcKind, Sensitivity};
use vv_tree::expression::{Expr, ExprKind};
use vv_tree::statement::StmtKind;
use vv_tree::unit::{Unit, UnitKind};
use vv_vlex::token::{Token, TokenList};
use vv_vlex::tokens::lex;

/// The tokens of a text.
fn tokens(alloc: Global, text: &str) -> Result<TokenList, Fault> {
    let mut names = Names::new(alloc);
    lex(alloc, 0, text.as_bytes(), &mut names)
}

/// The longest expression at a token, if there is such a token.
fn expression_at<'a>(
    alloc: Global,
    arena: &'a Bump<Global>,
    tokens: &[Token],
    at: usize,
) -> Result<(Expr<'a>, usize), Fault> {
    if at < tokens.len() {
        return expr(alloc, arena, tokens, at, Edition::Vhdl93);
    }
    Err(Fault::Memory)
}

/// The longest name at a token, if there is such a token.
fn name_at<'a>(
    alloc: Global,
    arena: &'a Bump<Global>,
    tokens: &[Token],
    at: usize,
) -> Result<(Expr<'a>, usize), Fault> {
    if at < tokens.len() {
        return name(alloc, arena, tokens, at, Edition::Vhdl93);
    }
    Err(Fault::Memory)
}

/// The aggregate at a token, if there is such a token.
fn aggregate_at<'a>(
    alloc: Global,
    arena: &'a Bump<Global>,
    tokens: &[Token],
    at: usize,
) -> Result<(Expr<'a>, usize), Fault> {
    if at < tokens.len() {
        return aggregate(alloc, arena, tokens, at, Edition::Vhdl93);
    }
    Err(Fault::Memory)
}

/// A word for what an expression is.
fn word(expression: Expr<'_>) -> &'static str {
    match expression.kind() {
        ExprKind::Name { .. } => "name",
        ExprKind::Literal(_) => "literal",
        ExprKind::Parentheses { .. } => "parentheses",
        ExprKind::Aggregate { .. } => "aggregate",
        ExprKind::Power { .. } => "power",
        ExprKind::Abs { .. } => "abs",
        ExprKind::Not { .. } => "not",
        ExprKind::Product { .. } => "product",
        ExprKind::Signed { .. } => "signed",
        ExprKind::Sum { .. } => "sum",
        ExprKind::Shift { .. } => "shift",
        ExprKind::Relation { .. } => "relation",
        ExprKind::Logic { .. } => "logic",
    }
}

/// The rule that is broken and its offset, if one is.
fn broken<T: Drop>(read: Result<T, Fault>) -> Option<(Rule, u32)> {
    match read {
        Err(Fault::Refused(Refusal { rule, span })) => Some((rule, span.at)),
        _ => None,
    }
}

#[test]
fn expressions_go_as_far_as_they_can(rt: HostRuntime) -> Result<(), Fail> {
    let alloc = rt.alloc();
    for (text, kind, next) in [
        ("a", "name", 1usize),
        ("f(1, x => 2).g'length;", "name", 12),
        ("16#ff# then", "literal", 1),
        ("(a) + b", "sum", 5),
        ("(a, others => '0')", "aggregate", 7),
        ("((a))", "parentheses", 5),
        ("a ** 2 * b", "product", 5),
        ("2 ** n", "power", 3),
        ("abs a", "abs", 2),
        ("not a or b", "logic", 4),
        ("- a mod 2", "signed", 4),
        ("a sll 1 = b", "relation", 5),
        ("a rol 1", "shift", 3),
        ("a and b and c or", "logic", 5),
    ] {
        let arena = Bump::new(alloc);
        let tokens = tokens(alloc, text).ok().ok_or("no tokens")?;
        match expression_at(alloc, &arena, tokens.as_slice(), 0) {
            Ok((expression, behind)) => {
                assert_eq!(rt; (word(expression), behind), (kind, next), "{text}")
            }
            Err(_) => assert!(rt; false, "{text}"),
        }
    }
    Ok(())
}

#[test]
fn expressions_are_refused(rt: HostRuntime) -> Result<(), Fail> {
    let alloc = rt.alloc();
    for (text, at) in [
        ("a and or", 6u32),
        ("(a", 2),
        (")", 0),
        ("not not a", 4),
        ("a(", 2),
    ] {
        let arena = Bump::new(alloc);
        let tokens = tokens(alloc, text).ok().ok_or("no tokens")?;
        let read = expression_at(alloc, &arena, tokens.as_slice(), 0);
        assert_eq!(rt; broken(read), Some((Rule::Y1, at)), "{text}");
    }
    let mut deep = String::new(alloc);
    for _ in 0..129 {
        deep.push_str("(")?;
    }
    let arena = Bump::new(alloc);
    let tokens = tokens(alloc, deep.as_str()).ok().ok_or("no tokens")?;
    let read = expression_at(alloc, &arena, tokens.as_slice(), 0);
    assert_eq!(rt; broken(read), Some((Rule::Y2, 128)));
    Ok(())
}

#[test]
fn names_and_aggregates(rt: HostRuntime) -> Result<(), Fail> {
    let alloc = rt.alloc();
    let arena = Bump::new(alloc);
    let text = "x + a.b(1) & (others => c) d";
    let tokens = tokens(alloc, text).ok().ok_or("no tokens")?;
    match name_at(alloc, &arena, tokens.as_slice(), 2) {
        Ok((read, behind)) => assert_eq!(rt; (word(read), behind), ("name", 8)),
        Err(_) => assert!(rt; false),
    }
    match aggregate_at(alloc, &arena, tokens.as_slice(), 9) {
        Ok((read, behind)) => assert_eq!(rt; (word(read), behind), ("aggregate", 14)),
        Err(_) => assert!(rt; false),
    }
    let read = aggregate_at(alloc, &arena, tokens.as_slice(), 2);
    assert_eq!(rt; broken(read), Some((Rule::Y1, 4)));
    Ok(())
}

/// The concurrent statements of the last of some units, as words.
fn statements<'a>(units: &[Unit<'a>]) -> Option<(usize, &'static str)> {
    let unit = units.last()?;
    let UnitKind::Architecture { statements, .. } = unit.kind else {
        return None;
    };
    let first = statements.first()?;
    let word = match first.kind() {
        ConcKind::Process {
            sensitivity,
            statements,
            ..
        } => match (sensitivity, statements.first()?.kind()) {
            (Sensitivity::All(_), _) => "process of all",
            (Sensitivity::Listed(_, _), StmtKind::If { .. }) => "process with if",
            _ => "process",
        },
        ConcKind::Conditional { .. } => "conditional",
        ConcKind::Labelled { .. } => "labelled",
        _ => "other",
    };
    Some((statements.len(), word))
}

#[test]
fn files(rt: HostRuntime) -> Result<(), Fail> {
    let alloc = rt.alloc();
    for (body, edition, wanted) in [
        (
            "y <= a when b else c;",
            Edition::Vhdl93,
            (1usize, "conditional"),
        ),
        (
            "u : e port map (a); y <= a;",
            Edition::Vhdl93,
            (2, "labelled"),
        ),
        (
            "process (a) begin if a then y <= b; end if; end process;",
            Edition::Vhdl93,
            (1, "process with if"),
        ),
        (
            "process (all) begin y <= a; end process;",
            Edition::Vhdl08,
            (1, "process of all"),
        ),
    ] {
        let text = format!(in alloc;
            "library ieee; use ieee.std_logic_1164.all;\n\
             entity e is port (a : in std_logic); end;\n\
             architecture r of e is begin {body} end;"
        )?;
        let arena = Bump::new(alloc);
        let tokens = tokens(alloc, text.as_str()).ok().ok_or("no tokens")?;
        match parse(alloc, &arena, tokens.as_slice(), edition) {
            Ok(units) => {
                assert_eq!(rt; units.len(), 2usize, "{body}");
                assert_eq!(rt; statements(units), Some(wanted), "{body}");
            }
            Err(_) => assert!(rt; false, "{body}"),
        }
    }
    Ok(())
}

#[test]
fn files_are_refused(rt: HostRuntime) -> Result<(), Fail> {
    let alloc = rt.alloc();
    for (text, at) in [
        ("entity e is end", 15u32),
        ("entity e is end; end", 17),
        (
            "architecture r of e is begin process (all) begin end process; end;",
            38,
        ),
    ] {
        let arena = Bump::new(alloc);
        let tokens = tokens(alloc, text).ok().ok_or("no tokens")?;
        let read = parse(alloc, &arena, tokens.as_slice(), Edition::Vhdl93);
        assert_eq!(rt; broken(read), Some((Rule::Y1, at)), "{text}");
    }
    Ok(())
}
