//! Expressions that were typed.
ghost use Rattle.std.specs.Prelude.{◌≡◌, IfOk};
ghost use Rattle.ang_check_operators.specs.Operands as spec;
ghost use Rattle.ang_check_operators.specs.View.{view_operand};
ghost use Rattle.ang_typed.specs.View.{view_expr, view_site, view_tree};

use ang_kinds::Place;
use ang_lex::Token;
use ang_typed::{TypedExpression, TypedSite};
use ang_types::ArgType;
use std::alloc::{AllocError, Global};

/// How the site that an expression reads may be used.
#[derive(Clone, Copy, Drop)]
pub struct SiteUse {
    /// Whether it can't be assigned.
    pub read_only: bool,
    /// Whether it is a name that stands alone, without parentheses.
    pub bare: bool,
    /// The name by which it is called: of the variable or of the member.
    pub name: Token,
}

/// What `@` stands in front of, where that is a site.
#[derive(Clone, Copy, Drop)]
pub struct HandleSite {
    /// The site.
    pub target: SiteUse,
    /// Whether it is a variable that is an object, which can't be another one.
    pub is_object: bool,
}

/// An expression that was typed.
#[derive(Drop)]
pub struct Operand {
    /// The place of its first token.
    pub place: Place,
    /// Its type.
    pub ty: ArgType,
    /// Its resolved tree.
    pub tree: Box<TypedExpression>,
    /// How the site that its tree reads may be used, where it reads one.
    pub target: Option<SiteUse>,
    /// The site that `@` in front of it names, where it does.
    pub seat: Option<HandleSite>,
}

/// A tree in a box, into which it is put as soon as it is made.
///
/// # Errors
///
/// Want of memory alone.
pub fn boxed(alloc: Global, tree: TypedExpression) -> Result<Box<TypedExpression>, AllocError>
    ensures exact { IfOk result (λ b. view_tree b ≡ view_expr tree) }
{
    let tree = Box::new(alloc, tree)?;
    Ok(tree)
}

/// An expression that is no site.
pub fn plain_operand(place: Place, ty: ArgType, tree: Box<TypedExpression>) -> Operand
    ensures exact { view_operand result ≡ spec.operand place ty (view_tree tree) }
{
    Operand {
        place,
        ty,
        tree,
        target: None,
        seat: None,
    }
}

/// An expression that reads a site of this type, which may be used so.
///
/// # Errors
///
/// Want of memory alone.
pub fn reading(
    alloc: Global,
    place: Place,
    site: TypedSite,
    ty: ArgType,
    target: SiteUse,
) -> Result<Operand, AllocError>
    ensures exact { IfOk result
        (λ a. view_operand a ≡ spec.reading place (view_site site) ty target) }
{
    let tree = boxed(alloc, TypedExpression::Read { site, ty })?;
    Ok(Operand {
        place,
        ty,
        tree,
        target: Some(target),
        seat: None,
    })
}
