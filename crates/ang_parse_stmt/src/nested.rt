//! Reading statements within statements: a function for each rule of the grammar, over the tokens that
//! are left.
//!
//! `limit` bounds the nested calls of expressions and the turns of each loop, `depth` the nested calls
//! of statements. `levels` is how many more statements the stack is taken to have room for, one inside
//! the other: a statement beyond them is want of memory (docs/SECURITY.md, "The stack").
//!
//! The stack has to do for all statements that stand inside one another. So what has no statement inside
//! is read by functions that are never inlined, and a part that waits for a statement inside is in a box,
//! which is let go by a call and not by a `?`: see `parts`.
ghost use Rattle.std.specs.Prelude.{◌≡◌, option_map, IfOk};
ghost use Rattle.ang_parse_read.specs.Gives.{Gives};
ghost use Rattle.ang_parse_read.specs.Read.{repeat};
ghost use Rattle.ang_tree.specs.View.{view_stmt, view_stmts, view_body, view_else, view_items};
ghost use Rattle.ang_parse_stmt.specs.Parts.{view_condition, view_ending, view_head, view_guarded};
ghost use Rattle.ang_parse_stmt.specs.ReadStmt as read;

use crate::parts::{Guarded, let_go_of_guard, let_go_of_guarded, let_go_of_head};
use crate::{build, ended, start};
use ang_lex::{Token, TokenKind};
use ang_parse_expr::{expression, expressions};
use ang_parse_read::{ReadError, a_left_paren, a_right_brace, a_right_paren, a_semicolon, a_while};
use ang_tree::{Argument, Block, Else, Ending, Guard, Head, Jump, Returned, Statement};
use std::alloc::Global;

/// Reads `"(" assign ")"` after the word, `if` or `while`, which the guard keeps.
#[tactic(auto, unfolding(crate::specs::ReadStmt::condition))]
#[inline(never)]
fn guard<'a>(
    alloc: Global,
    word: &Token,
    tokens: &'a [Token],
    limit: usize,
) -> Result<(Box<Guard>, &'a [Token]), ReadError<'a>>
    ensures reads { Gives (λ x. (view_condition x.0.value, x.1.now)) result
        (read.condition limit tokens.now) }
    ensures same { IfOk result (λ x. x.0.value.word ≡ word.now) }
{
    let (open, rest) = a_left_paren(tokens)?;
    let (condition, rest) = expression(alloc, rest, limit, 0)?;
    match a_right_paren(rest) {
        Ok((close, rest)) => {
            let guard = Guard {
                word: *word,
                open,
                condition,
                close,
            };
            Ok((Box::new(alloc, guard)?, rest))
        }
        Err(error) => {
            drop(condition);
            Err(error)
        }
    }
}

/// Reads `"while" "(" assign ")" ";"`, the end of a `do`. The word `do` is read already, and the ending
/// keeps it.
#[tactic(auto, unfolding(crate::specs::ReadStmt::ending))]
#[inline(never)]
fn ending<'a>(
    alloc: Global,
    word: &Token,
    tokens: &'a [Token],
    limit: usize,
) -> Result<(Box<Ending>, &'a [Token]), ReadError<'a>>
    ensures reads { Gives (λ x. (view_ending x.0.value, x.1.now)) result
        (read.ending limit tokens.now) }
    ensures same { IfOk result (λ x. x.0.value.word ≡ word.now) }
{
    let (while_word, rest) = a_while(tokens)?;
    let (guarded, rest) = guard(alloc, &while_word, rest, limit)?;
    let (semicolon, rest) = a_semicolon(rest)?;
    let Guard {
        word: _,
        open,
        condition,
        close,
    } = Box::into_inner(guarded);
    let found = Box::new(
        alloc,
        Ending {
            word: *word,
            while_word,
            open,
            condition,
            close,
            semicolon,
        },
    )?;
    Ok((found, rest))
}

/// Reads the steps of a `for`, at least one, and the right parenthesis.
#[tactic(auto, unfolding(crate::specs::ReadStmt::some_steps))]
fn some_steps(
    alloc: Global,
    tokens: &[Token],
    limit: usize,
) -> Result<((Vec<Argument>, Token), &[Token]), ReadError<'_>>
    ensures reads { Gives (λ x. ((view_items x.0.0.items, x.0.1), x.1.now)) result
        (read.some_steps limit tokens.now) }
{
    let (steps, rest) = expressions(alloc, tokens, limit)?;
    let (close, rest) = a_right_paren(rest)?;
    Ok(((steps, close), rest))
}

/// Reads the steps of a `for`, of which there may be none, and the right parenthesis.
#[tactic(auto, unfolding(crate::specs::ReadStmt::steps))]
fn steps(
    alloc: Global,
    tokens: &[Token],
    limit: usize,
) -> Result<((Vec<Argument>, Token), &[Token]), ReadError<'_>>
    ensures reads { Gives (λ x. ((view_items x.0.0.items, x.0.1), x.1.now)) result
        (read.steps limit tokens.now) }
{
    match tokens {
        [close, rest @ ..] if matches!(close.kind, TokenKind::RightParen) => {
            Ok(((Vec::new(alloc), *close), rest))
        }
        _ => some_steps(alloc, tokens, limit),
    }
}

/// Reads the head of a `for`, after the word, which the head keeps.
#[tactic(auto, unfolding(crate::specs::ReadStmt::head))]
#[inline(never)]
fn head<'a>(
    alloc: Global,
    word: &Token,
    tokens: &'a [Token],
    limit: usize,
) -> Result<(Box<Head>, &'a [Token]), ReadError<'a>>
    ensures reads { Gives (λ x. (view_head x.0.value, x.1.now)) result
        (read.head limit tokens.now) }
    ensures same { IfOk result (λ x. x.0.value.word ≡ word.now) }
{
    let (open, rest) = a_left_paren(tokens)?;
    let (start, rest) = start(alloc, rest, limit)?;
    let ((condition, semicolon), rest) = ended(alloc, rest, limit)?;
    let ((steps, close), rest) = steps(alloc, rest, limit)?;
    let found = Box::new(
        alloc,
        Head {
            word: *word,
            open,
            start,
            condition,
            semicolon,
            steps,
            close,
        },
    )?;
    Ok((found, rest))
}

/// Reads variables, or an expression for what it does, with the semicolon.
#[tactic(auto, unfolding(crate::specs::ReadStmt::simple))]
#[inline(never)]
fn simple(
    alloc: Global,
    tokens: &[Token],
    limit: usize,
) -> Result<(Statement, &[Token]), ReadError<'_>>
    ensures reads { Gives (λ x. (view_stmt x.0, x.1.now)) result (read.simple limit tokens.now) }
{
    let (start, rest) = start(alloc, tokens, limit)?;
    Ok((build::simple(alloc, start)?, rest))
}

/// Reads what stands after the word `break`.
#[tactic(auto, unfolding(crate::specs::ReadStmt::broken))]
#[inline(never)]
fn broken<'a>(
    alloc: Global,
    word: &Token,
    tokens: &'a [Token],
) -> Result<(Statement, &'a [Token]), ReadError<'a>>
    ensures reads { Gives (λ x. (view_stmt x.0, x.1.now)) result (read.broken word.now tokens.now) }
{
    let (semicolon, rest) = a_semicolon(tokens)?;
    let found = Box::new(
        alloc,
        Jump {
            word: *word,
            semicolon,
        },
    )?;
    Ok((Statement::Break(found), rest))
}

/// Reads what stands after the word `continue`.
#[tactic(auto, unfolding(crate::specs::ReadStmt::continued))]
#[inline(never)]
fn continued<'a>(
    alloc: Global,
    word: &Token,
    tokens: &'a [Token],
) -> Result<(Statement, &'a [Token]), ReadError<'a>>
    ensures reads { Gives (λ x. (view_stmt x.0, x.1.now)) result
        (read.continued word.now tokens.now) }
{
    let (semicolon, rest) = a_semicolon(tokens)?;
    let found = Box::new(
        alloc,
        Jump {
            word: *word,
            semicolon,
        },
    )?;
    Ok((Statement::Continue(found), rest))
}

/// Reads what stands after the word `return`.
#[tactic(auto, unfolding(crate::specs::ReadStmt::returned))]
#[inline(never)]
fn returned<'a>(
    alloc: Global,
    word: &Token,
    tokens: &'a [Token],
    limit: usize,
) -> Result<(Statement, &'a [Token]), ReadError<'a>>
    ensures reads { Gives (λ x. (view_stmt x.0, x.1.now)) result
        (read.returned limit word.now tokens.now) }
{
    let ((value, semicolon), rest) = ended(alloc, tokens, limit)?;
    let found = Box::new(
        alloc,
        Returned {
            word: *word,
            value,
            semicolon,
        },
    )?;
    Ok((Statement::Return(found), rest))
}

/// Reads one more statement, where no right brace stands.
#[cycle(statement)]
#[tactic(auto, unfolding(crate::specs::ReadStmt::other_statement, crate::specs::ReadStmt::next_statement))]
fn other_statement(
    alloc: Global,
    first: Vec<Statement>,
    tokens: &[Token],
    depth: usize,
    levels: usize,
    limit: usize,
) -> Result<((Vec<Statement>, bool), &[Token]), ReadError<'_>>
    ensures reads { Gives (λ x. ((view_stmts x.0.0.items, x.0.1), x.1.now)) result
        (read.other_statement (read.stmt depth limit) limit (view_stmts first.items) tokens.now) }
{
    if let [token, ..] = tokens
        && matches!(token.kind, TokenKind::RightBrace)
    {
        return Ok(((first, false), tokens));
    }
    let (next, rest) = statement(alloc, tokens, depth, levels, limit)?;
    let longer = build::with_statement(first, next)?;
    Ok(((longer, true), rest))
}

/// Reads statements, up to a right brace.
#[cycle(statement)]
#[tactic(auto, unfolding(crate::specs::ReadStmt::statements))]
pub(crate) fn statements(
    alloc: Global,
    tokens: &[Token],
    depth: usize,
    levels: usize,
    limit: usize,
) -> Result<(Vec<Statement>, &[Token]), ReadError<'_>>
    ensures reads { Gives (λ x. (view_stmts x.0.items, x.1.now)) result
        (read.statements (read.stmt depth limit) limit tokens.now) }
{
    let mut found = Vec::new(alloc);
    let mut rest = tokens;
    for _ in 0..limit {
        let ((longer, goes_on), after) = other_statement(alloc, found, rest, depth, levels, limit)?;
        if !goes_on {
            return Ok((longer, after));
        }
        found = longer;
        rest = after;
    }
    Err(ReadError::Deep)
}

/// Reads the statements of a block and the right brace, after the left one `open`.
#[cycle(statement)]
#[tactic(auto, unfolding(crate::specs::ReadStmt::a_body))]
pub(crate) fn block<'a>(
    alloc: Global,
    open: Token,
    tokens: &'a [Token],
    depth: usize,
    levels: usize,
    limit: usize,
) -> Result<(Block, &'a [Token]), ReadError<'a>>
    ensures reads { Gives (λ x. (view_body x.0, x.1.now)) result
        (read.a_body (read.stmt depth limit) limit «open» tokens.now) }
{
    let (statements, rest) = statements(alloc, tokens, depth, levels, limit)?;
    let (close, rest) = a_right_brace(rest)?;
    Ok((
        Block {
            open,
            statements,
            close,
        },
        rest,
    ))
}

/// Reads a statement to be a part of another, and puts it into its box.
#[cycle(statement)]
fn inner_statement(
    alloc: Global,
    tokens: &[Token],
    depth: usize,
    levels: usize,
    limit: usize,
) -> Result<(Box<Statement>, &[Token]), ReadError<'_>>
    ensures reads { Gives (λ x. (view_stmt x.0.value, x.1.now)) result
        (read.stmt depth limit tokens.now) }
{
    let (found, rest) = statement(alloc, tokens, depth, levels, limit)?;
    let found = Box::new(alloc, found)?;
    Ok((found, rest))
}

/// Reads `"(" assign ")" stmt` after the word, `if` or `while`, which the guard keeps.
#[cycle(statement)]
#[tactic(auto, unfolding(crate::specs::ReadStmt::guarded))]
fn guarded<'a>(
    alloc: Global,
    word: &Token,
    tokens: &'a [Token],
    depth: usize,
    levels: usize,
    limit: usize,
) -> Result<(Guarded, &'a [Token]), ReadError<'a>>
    ensures reads { Gives (λ x. (view_guarded x.0, x.1.now)) result
        (read.guarded (read.stmt depth limit) limit tokens.now) }
    ensures same { IfOk result (λ x. x.0.head.value.word ≡ word.now) }
{
    let (head, rest) = guard(alloc, word, tokens, limit)?;
    match inner_statement(alloc, rest, depth, levels, limit) {
        Ok((statement, rest)) => Ok((Guarded { head, statement }, rest)),
        Err(error) => {
            let_go_of_guard(head);
            Err(error)
        }
    }
}

/// Reads `"else" stmt`, where the word stands.
#[cycle(statement)]
#[tactic(auto, unfolding(crate::specs::ReadStmt::otherwise, crate::specs::ReadStmt::other_branch))]
fn otherwise(
    alloc: Global,
    tokens: &[Token],
    depth: usize,
    levels: usize,
    limit: usize,
) -> Result<(Option<Box<Else>>, &[Token]), ReadError<'_>>
    ensures reads { Gives (λ x. (option_map (λ e. view_else e.value) x.0, x.1.now)) result
        (read.otherwise (read.stmt depth limit) limit tokens.now) }
{
    match tokens {
        [word, rest @ ..] if matches!(word.kind, TokenKind::Else) => {
            let (branch, rest) = inner_statement(alloc, rest, depth, levels, limit)?;
            Ok((Some(build::other_branch(alloc, word, branch)?), rest))
        }
        _ => Ok((None, tokens)),
    }
}

/// Reads what stands after the word `if`.
#[cycle(statement)]
#[tactic(auto, unfolding(crate::specs::ReadStmt::conditional))]
fn conditional<'a>(
    alloc: Global,
    word: &Token,
    tokens: &'a [Token],
    depth: usize,
    levels: usize,
    limit: usize,
) -> Result<(Statement, &'a [Token]), ReadError<'a>>
    ensures reads { Gives (λ x. (view_stmt x.0, x.1.now)) result
        (read.conditional (read.stmt depth limit) limit word.now tokens.now) }
{
    let (guarded, rest) = guarded(alloc, word, tokens, depth, levels, limit)?;
    match otherwise(alloc, rest, depth, levels, limit) {
        Ok((otherwise, rest)) => Ok((
            build::conditional(guarded.head, guarded.statement, otherwise),
            rest,
        )),
        Err(error) => {
            let_go_of_guarded(guarded);
            Err(error)
        }
    }
}

/// Reads what stands after the word `while`.
#[cycle(statement)]
#[tactic(auto, unfolding(crate::specs::ReadStmt::while_loop))]
fn while_loop<'a>(
    alloc: Global,
    word: &Token,
    tokens: &'a [Token],
    depth: usize,
    levels: usize,
    limit: usize,
) -> Result<(Statement, &'a [Token]), ReadError<'a>>
    ensures reads { Gives (λ x. (view_stmt x.0, x.1.now)) result
        (read.while_loop (read.stmt depth limit) limit word.now tokens.now) }
{
    let (Guarded { head, statement }, rest) = guarded(alloc, word, tokens, depth, levels, limit)?;
    Ok((build::while_loop(head, statement), rest))
}

/// Reads what stands after the word `do`.
#[cycle(statement)]
#[tactic(auto, unfolding(crate::specs::ReadStmt::do_loop))]
fn do_loop<'a>(
    alloc: Global,
    word: &Token,
    tokens: &'a [Token],
    depth: usize,
    levels: usize,
    limit: usize,
) -> Result<(Statement, &'a [Token]), ReadError<'a>>
    ensures reads { Gives (λ x. (view_stmt x.0, x.1.now)) result
        (read.do_loop (read.stmt depth limit) limit word.now tokens.now) }
{
    let (body, rest) = inner_statement(alloc, tokens, depth, levels, limit)?;
    let (ending, rest) = ending(alloc, word, rest, limit)?;
    Ok((build::do_loop(body, ending), rest))
}

/// Reads what stands after the word `for`.
#[cycle(statement)]
#[tactic(auto, unfolding(crate::specs::ReadStmt::for_loop))]
fn for_loop<'a>(
    alloc: Global,
    word: &Token,
    tokens: &'a [Token],
    depth: usize,
    levels: usize,
    limit: usize,
) -> Result<(Statement, &'a [Token]), ReadError<'a>>
    ensures reads { Gives (λ x. (view_stmt x.0, x.1.now)) result
        (read.for_loop (read.stmt depth limit) limit word.now tokens.now) }
{
    let (head, rest) = head(alloc, word, tokens, limit)?;
    match inner_statement(alloc, rest, depth, levels, limit) {
        Ok((body, rest)) => Ok((build::for_loop(head, body), rest)),
        Err(error) => {
            let_go_of_head(head);
            Err(error)
        }
    }
}

/// Reads a block, after its left brace.
#[cycle(statement)]
#[tactic(auto, unfolding(crate::specs::ReadStmt::braced))]
fn braced<'a>(
    alloc: Global,
    open: &Token,
    tokens: &'a [Token],
    depth: usize,
    levels: usize,
    limit: usize,
) -> Result<(Statement, &'a [Token]), ReadError<'a>>
    ensures reads { Gives (λ x. (view_stmt x.0, x.1.now)) result
        (read.braced (read.stmt depth limit) limit open.now tokens.now) }
{
    let (whole, rest) = block(alloc, *open, tokens, depth, levels, limit)?;
    Ok((build::whole_block(alloc, whole)?, rest))
}

/// Reads a statement, by its first token.
#[cycle(statement)]
#[tactic(auto, unfolding(crate::specs::ReadStmt::statement))]
fn chosen<'a>(
    alloc: Global,
    tokens: &'a [Token],
    depth: usize,
    levels: usize,
    limit: usize,
) -> Result<(Statement, &'a [Token]), ReadError<'a>>
    ensures reads { Gives (λ x. (view_stmt x.0, x.1.now)) result
        (read.statement (read.stmt depth limit) limit tokens.now) }
{
    let [token, rest @ ..] = tokens else {
        return simple(alloc, tokens, limit);
    };
    match token.kind {
        TokenKind::LeftBrace => braced(alloc, token, rest, depth, levels, limit),
        TokenKind::If => conditional(alloc, token, rest, depth, levels, limit),
        TokenKind::While => while_loop(alloc, token, rest, depth, levels, limit),
        TokenKind::Do => do_loop(alloc, token, rest, depth, levels, limit),
        TokenKind::For => for_loop(alloc, token, rest, depth, levels, limit),
        TokenKind::Break => broken(alloc, token, rest),
        TokenKind::Continue => continued(alloc, token, rest),
        TokenKind::Return => returned(alloc, token, rest, limit),
        _ => simple(alloc, tokens, limit),
    }
}

/// Reads a statement.
#[cycle(statement)]
#[tactic(auto, unfolding(crate::specs::ReadStmt::stmt))]
pub(crate) fn statement(
    alloc: Global,
    tokens: &[Token],
    depth: usize,
    levels: usize,
    limit: usize,
) -> Result<(Statement, &[Token]), ReadError<'_>>
    ensures reads { Gives (λ x. (view_stmt x.0, x.1.now)) result
        (read.stmt depth limit tokens.now) }
{
    if depth == 0 {
        return Err(ReadError::Deep);
    }
    if levels == 0 {
        return Err(ReadError::Memory);
    }
    chosen(alloc, tokens, depth - 1, levels - 1, limit)
}
