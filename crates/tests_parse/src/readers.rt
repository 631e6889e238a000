//! The readers of a whole expression, of a whole statement and of whole parameters, which no script is read by.

use ang_lex::{Token, lex};
use ang_parse_expr::parse_expression;
use ang_parse_read::ReadError;
use ang_parse_stmt::{parse_parameters, parse_statement};
use ang_tree::{Expression, Parameters, Statement};
use std::alloc::Global;

/// What is read.
#[derive(Clone, Copy, Debug)]
enum Reader {
    Expression,
    Statement,
    Parameters,
}

/// What a reader makes of tokens.
#[derive(Clone, Copy, PartialEq, Eq)]
enum Made {
    /// Two operands and an operator.
    Binary,
    /// A `while` loop.
    While,
    /// That number of parameters.
    List(usize),
    /// A fault, and how many tokens stand from it on.
    Fault(usize),
    Another,
}

fn fault(error: ReadError<'_>) -> Made {
    match error {
        ReadError::Syntax(rest) => Made::Fault(rest.len()),
        _ => Made::Another,
    }
}

fn of_expression(read: &Result<Expression, ReadError<'_>>) -> Made {
    match read {
        Ok(Expression::Binary { .. }) => Made::Binary,
        Ok(_) => Made::Another,
        Err(error) => fault(*error),
    }
}

fn of_statement(read: &Result<Statement, ReadError<'_>>) -> Made {
    match read {
        Ok(Statement::While { .. }) => Made::While,
        Ok(_) => Made::Another,
        Err(error) => fault(*error),
    }
}

fn of_parameters(read: &Result<Parameters, ReadError<'_>>) -> Made {
    match read {
        Ok(found) => Made::List(found.items.len()),
        Err(error) => fault(*error),
    }
}

fn made_of(alloc: Global, reader: Reader, tokens: &[Token]) -> Made {
    match reader {
        Reader::Expression => of_expression(&parse_expression(alloc, tokens)),
        Reader::Statement => of_statement(&parse_statement(alloc, tokens)),
        Reader::Parameters => of_parameters(&parse_parameters(alloc, tokens)),
    }
}

/// Whether a reader makes this of a text.
fn makes(alloc: Global, reader: Reader, text: &str, made: Made) -> bool {
    match lex(alloc, text.as_bytes(), 0) {
        Ok(tokens) => made_of(alloc, reader, &tokens) == made,
        Err(_) => false,
    }
}

/// A reader, a text, and what the reader makes of it.
const READ: &[(Reader, &str, Made)] = &[
    (Reader::Expression, "1 + 2", Made::Binary),
    (Reader::Expression, "1 + )", Made::Fault(1)),
    (Reader::Statement, "while (a) { b; }", Made::While),
    (Reader::Statement, "while (a) { b }", Made::Fault(1)),
    (Reader::Parameters, "(void, void)", Made::List(2)),
    // no parameters begin with `(int a b`, and a comma wants a parameter after it
    (Reader::Parameters, "(int a b)", Made::Fault(2)),
    (Reader::Parameters, "(int a,) {", Made::Fault(2)),
];

#[test]
fn readers_take_what_they_read(rt: HostRuntime) {
    for (reader, text, made) in READ {
        assert!(rt;
            makes(rt.alloc(), *reader, text, *made),
            "{reader:?} of {text}"
        );
    }
}
