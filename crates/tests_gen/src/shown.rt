//! Core trees as text.
use ang_core::{CoreBody, CoreExpression, CoreStatement};
use ang_kinds::{Comparison, EntityNo, Operator, Prim};
use ang_meaning::{Callee, Operation, Passing, Spot, Target, Update};
use itoa::Buffer;
use std::alloc::{AllocError, Global};

type Done = Result<(), AllocError>;

fn put(out: &mut String, text: &str) -> Done {
    out.push_str(text)
}

/// A number between two texts.
fn put_number(out: &mut String, before: &str, number: u64, after: &str) -> Done {
    put(out, before)?;
    let mut digits = Buffer::new();
    put(out, digits.format(number))?;
    put(out, after)
}

fn operator_name(operator: Operator) -> &'static str {
    match operator {
        Operator::Add => "Add",
        Operator::Subtract => "Subtract",
        Operator::Multiply => "Multiply",
        Operator::Divide => "Divide",
        Operator::Remainder => "Remainder",
        Operator::BitAnd => "BitAnd",
        Operator::BitOr => "BitOr",
        Operator::BitXor => "BitXor",
        Operator::ShiftLeft => "ShiftLeft",
        Operator::ShiftRight => "ShiftRight",
        Operator::ShiftRightArithmetic => "ShiftRightArithmetic",
    }
}

fn comparison_name(comparison: Comparison) -> &'static str {
    match comparison {
        Comparison::Equal => "Equal",
        Comparison::NotEqual => "NotEqual",
        Comparison::Less => "Less",
        Comparison::LessEqual => "LessEqual",
        Comparison::Greater => "Greater",
        Comparison::GreaterEqual => "GreaterEqual",
    }
}

fn type_name(ty: Prim) -> &'static str {
    match ty {
        Prim::Bool => "Bool",
        Prim::I8 => "I8",
        Prim::I16 => "I16",
        Prim::I32 => "I32",
        Prim::I64 => "I64",
        Prim::U8 => "U8",
        Prim::U16 => "U16",
        Prim::U32 => "U32",
        Prim::U64 => "U64",
    }
}

fn truth_name(truth: bool) -> &'static str {
    if truth { "true" } else { "false" }
}

fn passing_name(passing: Passing) -> &'static str {
    match passing {
        Passing::In => "In",
        Passing::Out => "Out",
        Passing::Object => "Object",
    }
}

/// Texts one after the other.
fn put_all(out: &mut String, texts: &[&str]) -> Done {
    for text in texts {
        put(out, text)?;
    }
    Ok(())
}

fn put_update(out: &mut String, by: Update) -> Done {
    put_all(
        out,
        &[
            "Update { operator: ",
            operator_name(by.operator),
            ", at: ",
            type_name(by.at),
            ", to: ",
            type_name(by.to),
            ", old: ",
            truth_name(by.old),
            " }",
        ],
    )
}

/// The word of an operation, with what opens behind it.
fn operation_word(operation: Operation) -> &'static str {
    match operation {
        Operation::Binary(_, _) => "Binary(",
        Operation::Compare(_, _) => "Compare(",
        Operation::Convert(_) => "Convert(",
        Operation::Negate(_) => "Negate(",
        Operation::Complement(_) => "Complement(",
        Operation::Not => "Not",
        Operation::Same => "Same",
        Operation::GlobalGet(_) => "GlobalGet(",
        Operation::GlobalSet(_) => "GlobalSet(",
        Operation::GlobalChange(_, _) => "GlobalChange(",
        Operation::Ask(_) => "Ask(",
        Operation::Read(_) => "Read(",
        Operation::Write(_) => "Write(",
        Operation::Alter(_, _) => "Alter(",
        Operation::Make(_) => "Make(",
        Operation::FieldGet(_) => "FieldGet(",
        Operation::FieldSet(_) => "FieldSet(",
        Operation::FieldChange(_, _) => "FieldChange(",
        Operation::Cast(_) => "Cast(",
    }
}

fn put_type(out: &mut String, ty: Prim) -> Done {
    put_all(out, &[type_name(ty), ")"])
}

fn put_entity(out: &mut String, entity: EntityNo) -> Done {
    put_number(out, "EntityNo(", u64::from(entity.0), "))")
}

fn put_change(out: &mut String, at: usize, by: Update) -> Done {
    put_number(out, "", at as u64, ", ")?;
    put_update(out, by)?;
    put(out, ")")
}

fn put_alteration(out: &mut String, entity: EntityNo, by: Update) -> Done {
    put_number(out, "EntityNo(", u64::from(entity.0), "), ")?;
    put_update(out, by)?;
    put(out, ")")
}

/// What stands behind an operation's word.
fn put_parts(out: &mut String, operation: Operation) -> Done {
    match operation {
        Operation::Binary(operator, at) => {
            put_all(out, &[operator_name(operator), ", ", type_name(at), ")"])
        }
        Operation::Compare(test, sign) => {
            put_all(out, &[comparison_name(test), ", ", truth_name(sign), ")"])
        }
        Operation::Convert(at) => put_type(out, at),
        Operation::Negate(at) => put_type(out, at),
        Operation::Complement(at) => put_type(out, at),
        Operation::Not => Ok(()),
        Operation::Same => Ok(()),
        Operation::GlobalGet(at) => put_number(out, "", at as u64, ")"),
        Operation::GlobalSet(at) => put_number(out, "", at as u64, ")"),
        Operation::GlobalChange(by, at) => put_change(out, at, by),
        Operation::Ask(entity) => put_entity(out, entity),
        Operation::Read(entity) => put_entity(out, entity),
        Operation::Write(entity) => put_entity(out, entity),
        Operation::Alter(entity, by) => put_alteration(out, entity, by),
        Operation::Make(class) => put_number(out, "", class as u64, ")"),
        Operation::FieldGet(at) => put_number(out, "", at as u64, ")"),
        Operation::FieldSet(at) => put_number(out, "", at as u64, ")"),
        Operation::FieldChange(by, at) => put_change(out, at, by),
        Operation::Cast(class) => put_number(out, "", class as u64, ")"),
    }
}

fn put_operation(out: &mut String, operation: Operation) -> Done {
    put_all(out, &["(", operation_word(operation)])?;
    put_parts(out, operation)?;
    put(out, ")")
}

fn put_callee(out: &mut String, callee: Callee) -> Done {
    match callee {
        Callee::Own(number) => put_number(out, "(Own(", number as u64, ") ["),
        Callee::Import(number) => put_number(out, "(Import(", number as u64, ") ["),
        Callee::Virtual(slot) => put_number(out, "(Virtual(", slot as u64, ") ["),
    }
}

fn put_spot(out: &mut String, spot: Spot) -> Done {
    match spot {
        Spot::Local(at) => put_number(out, "Local(", at as u64, ")"),
        Spot::Global(at) => put_number(out, "Global(", at as u64, ")"),
        Spot::Field { object, field } => {
            put_number(out, "Field { object: ", object as u64, ", field: ")?;
            put_number(out, "", field as u64, " }")
        }
    }
}

fn put_target(out: &mut String, target: Target) -> Done {
    put(out, "Target { spot: ")?;
    put_spot(out, target.spot)?;
    match target.to {
        Some(ty) => put_all(out, &[", to: Some(", type_name(ty), ") }"]),
        None => put(out, ", to: None }"),
    }
}

fn put_targets(out: &mut String, targets: &[Target]) -> Done {
    let mut comma = "";
    for target in targets {
        put(out, comma)?;
        put_target(out, *target)?;
        comma = ", ";
    }
    Ok(())
}

/// Operands, each after a space.
#[cycle(expression)]
fn show_operands(operands: &[CoreExpression], out: &mut String) -> Done {
    for operand in operands {
        put(out, " ")?;
        show(operand, out)?;
    }
    Ok(())
}

/// An expression: what stands in parentheses is done with the operands after it.
#[cycle(expression)]
fn show(e: &CoreExpression, out: &mut String) -> Done {
    match e {
        CoreExpression::Number(n) => put_number(out, "", *n, ""),
        CoreExpression::Null => put(out, "null"),
        CoreExpression::Local(i) => put_number(out, "l", *i as u64, ""),
        CoreExpression::Assign(i, value) => {
            put_number(out, "(l", *i as u64, " =) ")?;
            show(value, out)
        }
        CoreExpression::Update(i, by, value) => {
            put_number(out, "(l", *i as u64, " ")?;
            put_update(out, *by)?;
            put(out, ") ")?;
            show(value, out)
        }
        CoreExpression::Apply(operation, operands) => {
            put_operation(out, *operation)?;
            show_operands(operands.as_slice(), out)
        }
        CoreExpression::Call(callee, arguments, targets) => {
            put_callee(out, *callee)?;
            put_targets(out, targets.as_slice())?;
            put(out, "])")?;
            show_operands(arguments.as_slice(), out)
        }
        CoreExpression::Choose(test, one, two) => {
            put(out, "[")?;
            show(test, out)?;
            put(out, " ? ")?;
            show(one, out)?;
            put(out, " : ")?;
            show(two, out)?;
            put(out, "]")
        }
    }
}

/// Statements in turn.
#[cycle(statement)]
fn show_row(row: &[CoreStatement], out: &mut String) -> Done {
    for statement in row {
        show_statement(statement, out)?;
        put(out, " ")?;
    }
    Ok(())
}

/// A word and an expression.
fn show_with(word: &str, e: &CoreExpression, out: &mut String) -> Done {
    put(out, word)?;
    show(e, out)?;
    put(out, ";")
}

/// A statement.
#[cycle(statement)]
fn show_statement(statement: &CoreStatement, out: &mut String) -> Done {
    match statement {
        CoreStatement::Skip => put(out, "skip;"),
        CoreStatement::Evaluate(e) => show_with("", e, out),
        CoreStatement::Declare(e) => show_with("declare ", e, out),
        CoreStatement::Block(row) => {
            put(out, "{ ")?;
            show_row(row.as_slice(), out)?;
            put(out, "}")
        }
        CoreStatement::If(test, one, two) => {
            show_with("if ", test, out)?;
            show_statement(one, out)?;
            show_statement(two, out)
        }
        CoreStatement::While(test, body, step) => {
            show_with("while ", test, out)?;
            show_statement(body, out)?;
            show_statement(step, out)
        }
        CoreStatement::DoWhile(test, body) => {
            show_with("do while ", test, out)?;
            show_statement(body, out)
        }
        CoreStatement::Return(e) => show_with("return ", e, out),
        CoreStatement::Break => put(out, "break;"),
        CoreStatement::Continue => put(out, "continue;"),
    }
}

fn put_passings(out: &mut String, params: &[Passing]) -> Done {
    let mut before = "[";
    for passing in params {
        put_all(out, &[before, passing_name(*passing)])?;
        before = ", ";
    }
    put(out, if params.is_empty() { "[] " } else { "] " })
}

fn put_body(out: &mut String, body: &CoreBody) -> Done {
    put_passings(out, body.params.as_slice())?;
    show_statement(&body.statement, out)
}

/// Whether that is the text of a body: how its parameters take their arguments, and what it does.
///
/// # Errors
/// There is no memory.
pub fn is_shown(alloc: Global, body: &CoreBody, text: &str) -> Result<bool, AllocError> {
    let mut out = String::new(alloc);
    put_body(&mut out, body)?;
    Ok(out.as_str() == text)
}
