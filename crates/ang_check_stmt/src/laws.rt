//! Laws on the definitions that the check of paths and the places of statements cite.
ghost use Rattle.std.specs.Prelude.{◌≡◌, true, List};
ghost use Rattle.ang_lex.specs.declared.token.Token.{Token};
ghost use Rattle.ang_tree.specs.Stmt.{Start, Stmt, Body, spelled_start, spelled_stmt};
ghost use Rattle.ang_check_stmt.specs.Paths.{body_ends};
ghost use Rattle.ang_check_stmt.specs.Positions.{start_token, stmt_token, token_position, positions_in, IsFirst};
ghost use Rattle.ang_check_stmt.specs.Ways.{LeavesBody, ahead};

/// A body that ends does so on each path: none leads through it to what stands after it. So a function with a
/// result whose body ends returns one, where it returns at all.
pub fn no_path_is_missed()
    ensures ends { (b : Body) → body_ends b ≡ true → ¬ LeavesBody ahead b }
{}

/// The token at which a statement stands, and what a `for` begins with, is the first of those that spell it, and of the
/// places in a statement its own is the first.
pub fn statements_begin()
    ensures tokens { (s : Stmt) (after : List Token) →
        IsFirst (stmt_token s) (spelled_stmt s after) }
    ensures starts { (b : Start) (after : List Token) →
        IsFirst (start_token b) (spelled_start b after) }
    ensures positions { (s : Stmt) → IsFirst (token_position (stmt_token s)) (positions_in s) }
{}
