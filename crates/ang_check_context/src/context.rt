//! What the expressions of a body stand in.
ghost use Rattle.std.specs.Prelude.{◌≡◌, ◌≤◌, ◌<◌, bytes_eq, length, IfOk, IfSome};
ghost use Rattle.std.specs.List.{list_any};
ghost use Rattle.ang_check_operators.specs.Refusals.{Gives};
ghost use Rattle.ang_check_context.specs.Access as accesses;
ghost use Rattle.ang_check_context.specs.Casts as casts;
ghost use Rattle.ang_check_context.specs.Scope as scopes;
ghost use Rattle.ang_check_uses.specs.Uses as uses;
ghost use Rattle.ang_names_known.specs.Lookup as lookup;
ghost use Rattle.ang_lex.specs.Text.{text_of};

use crate::scope::{Locals, Within};
use ang_check_contest::{KnownView, Scope};
use ang_check_operators::{TypingError, refused, use_refused};
use ang_check_uses::{Resolution, maker_meant, resolution_of};
use ang_kinds::ErrorKind;
use ang_lex::{Token, text_of};
use ang_names_known::{Access, Family, Names, may_use};
use ang_types::{ArgType, Asks, Lineage};
use ang_view::View;
use std::alloc::{AllocError, Global};
use std::marker::Model;

/// What is the same for all of a body: what its module sees of the host, what the scripts declare,
/// what stands above each object type, the bytes of the body's section, and the class whose method
/// or constructor it is.
#[derive(Drop)]
pub struct BodyContext<'a> {
    view: &'a KnownView<'a>,
    names: &'a Names,
    lineage: &'a Lineage,
    text: &'a [u8],
    within: Option<Within>,
}

impl<'a> Model for BodyContext<'a> {
    ghost use Rattle.ang_check_context.specs.Scope as spec;

    ghost Value = { spec.BodyContext };

    ghost view = { λ s. record {
      view = s.view.now;
      names = s.names.now;
      ancestors = s.lineage.now;
      text = s.text.now;
      within = s.within;
    } };

    ghost invariant = { λ s. spec.IsWithin s.names.now s.within };
}

impl<'a> BodyContext<'a> {
    /// Borrows these for the typing of one body. `text` is the whole section in which the body
    /// stands. Nothing checks that they are of one build.
    pub fn new(
        view: &'a KnownView<'a>,
        names: &'a Names,
        lineage: &'a Lineage,
        text: &'a [u8],
        within: Option<Within>,
    ) -> BodyContext<'a>
        requires few { length names.now.families ≤ 256 }
        requires within { IfSome within (λ w. w.family < length names.now.families) }
        ensures view { result.view ≡ view.now }
        ensures names { result.names ≡ names.now }
        ensures ancestors { result.ancestors ≡ lineage.now }
        ensures text { result.text ≡ text.now }
        ensures within { result.within ≡ within }
    {
        BodyContext {
            view,
            names,
            lineage,
            text,
            within,
        }
    }

    /// What stands above each object type.
    pub fn lineage(&self) -> &'a Lineage
        ensures same { result.now ≡ self.now.ancestors }
    {
        self.lineage
    }

    /// What the module sees of the host.
    pub fn view(&self) -> &'a View
        ensures same { result.now ≡ self.now.view }
    {
        self.view.view()
    }

    /// What the scripts declare.
    pub fn names(&self) -> &'a Names
        ensures same { result.now ≡ self.now.names }
        ensures few { length result.now.families ≤ 256 }
    {
        self.names
    }

    /// The classes and interfaces of the scripts.
    pub fn families(&self) -> &'a [Family]
        ensures same { result.now ≡ self.now.names.families }
    {
        self.names.families()
    }

    /// The class whose method or constructor the body is.
    #[tactic(auto, using(crate::proofs::Classes::class_is_few))]
    pub fn within(&self) -> Option<Within>
        ensures same { result ≡ self.now.within }
        ensures few { IfSome result (λ w. w.family < 256) }
    {
        self.within
    }

    /// The whole section in which the body stands.
    pub fn text(&self) -> &'a [u8]
        ensures same { result.now ≡ self.now.text }
    {
        self.text
    }

    /// The bytes of a token.
    pub fn text_of(&self, token: &Token) -> &'a [u8]
        ensures exact { result.now ≡ text_of self.now.text token.now }
    {
        text_of(self.text, token)
    }

    /// What uses are asked over.
    fn scope(&self) -> Scope<'a>
        ensures exact { result ≡ scopes.scope_of self.now }
    {
        Scope::new(self.view, self.names, self.lineage)
    }
}

/// What a use of this name means, where no local and no member has it.
///
/// The only error is want of memory.
pub fn resolved(
    alloc: Global,
    context: &BodyContext<'_>,
    name: &Token,
    asks: &Asks,
) -> Result<Resolution, AllocError>
    ensures exact { IfOk result (λ r. r ≡ uses.resolution_of (scopes.scope_of context.now)
        (text_of context.now.text name.now) asks.now) }
{
    resolution_of(alloc, &context.scope(), context.text_of(name), asks)
}

/// The best of what makes an object of the type of this number for arguments of these types, or this kind of refusal where
/// nothing takes them.
///
/// The only error is want of memory.
pub fn best_maker(
    alloc: Global,
    context: &BodyContext<'_>,
    unviable: ErrorKind,
    number: u32,
    args: &[ArgType],
) -> Result<Resolution, AllocError>
    ensures exact { IfOk result (λ r. r ≡ uses.best_of_those context.now.ancestors unviable
        (uses.makers_of (scopes.scope_of context.now) number) args.now) }
{
    maker_meant(alloc, &context.scope(), unviable, number, args)
}

/// Why a member with this access can't be used from everywhere.
pub fn access_error(access: Access) -> ErrorKind
    ensures exact { result ≡ accesses.access_error access }
{
    match access {
        Access::Public | Access::Private => ErrorKind::Private,
        Access::Protected => ErrorKind::Protected,
    }
}

/// Whether the body may use a member of this family. It takes no memory.
pub fn may_reach(context: &BodyContext<'_>, owner: usize, access: Access) -> bool
    ensures exact { result ≡ lookup.may_use context.now.names.families
        (scopes.family_of context.now.within) owner access }
{
    may_use(
        context.families(),
        family_of(context.within()),
        owner,
        access,
    )
}

fn family_of(within: Option<Within>) -> Option<usize>
    ensures exact { result ≡ scopes.family_of within }
{
    match within {
        None => None,
        Some(within) => Some(within.family),
    }
}

/// Whether the class has a field or a method of the name.
fn has_within(context: &BodyContext<'_>, within: Option<Within>, name: &[u8]) -> bool
    ensures exact { result ≡ scopes.has_in context.now (scopes.family_of within) name.now }
{
    match within {
        None => false,
        Some(within) => context.names().has_member(within.family, name),
    }
}

/// Whether a local or a parameter has the name.
fn has_local(locals: &Locals<'_>, name: &[u8]) -> bool
    ensures exact { result ≡ list_any (λ p. bytes_eq p.name name.now) locals.now }
{
    locals.has_from(0, name)
}

/// Whether a local, a parameter, or a field or method of the class has the name. It takes no
/// memory.
pub fn is_there(context: &BodyContext<'_>, locals: &Locals<'_>, name: &[u8]) -> bool
    ensures exact { result ≡ scopes.is_there context.now locals.now name.now }
{
    has_local(locals, name) || has_within(context, context.within(), name)
}

/// A type that is written at this name, or its refusal: where it is unknown that of a use of the
/// name. It takes no memory.
pub fn type_or_refusal(
    context: &BodyContext<'_>,
    locals: &Locals<'_>,
    name: &Token,
    written: Result<ArgType, ErrorKind>,
) -> Result<ArgType, TypingError>
    ensures exact { Gives (λ ty. ty) result
        (casts.type_or_refusal context.now locals.now name.now written) }
{
    match written {
        Ok(ty) => Ok(ty),
        Err(ErrorKind::UnknownType) => {
            let is_there = is_there(context, locals, context.text_of(name));
            Err(use_refused(ErrorKind::UnknownType, name, Asks::Type, is_there))
        }
        Err(kind) => Err(refused(kind, name)),
    }
}
