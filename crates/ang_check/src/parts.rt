//! The bodies and initializers of declarations, one after the other.
ghost use Rattle.std.specs.Prelude.{◌≡◌, ◌≤◌, ◌-◌, ◌∷◌, [], length, option_copied, slice_get, OnOk, map as list_map};
ghost use Rattle.ang_tree.specs.Declarations.{globals};
ghost use Rattle.ang_tree.specs.View as trees;
ghost use Rattle.ang_names_known.specs.Spaces.{ancestors_of};
ghost use Rattle.ang_names_listed.specs.Sources.{source_of};
ghost use Rattle.ang_check.specs.Judging as spec;

use crate::found::{Found, note_function, note_global};
use crate::members::add_class;
use crate::{function_typing, global_typing};
use ang_check_contest::KnownView;
use ang_check_context::BodyContext;
use ang_names_known::{Family, Names, ScriptFunction, ScriptGlobal};
use ang_tree as written;
use ang_tree::{Declaration, Script, TypeName, Variable, Variables};
use ang_types::Lineage;
use std::alloc::{AllocError, Global};

/// What is the same for all parts of a build.
#[derive(Drop)]
pub struct Build<'a> {
    /// What the module sees of the host.
    pub view: &'a KnownView<'a>,
    /// What the scripts declare.
    pub names: &'a Names,
    /// What stands above each object type.
    pub lineage: &'a Lineage,
}

/// The names whose bodies and initializers come next.
#[derive(Drop)]
pub struct Left<'a> {
    /// The functions.
    pub functions: &'a [ScriptFunction],
    /// The globals.
    pub globals: &'a [ScriptGlobal],
    /// The classes and interfaces.
    pub families: &'a [Family],
}

fn add_function(
    alloc: Global,
    build: &Build<'_>,
    text: &[u8],
    written: &written::Function,
    left: &mut Left<'_>,
    found: &mut Found,
) -> Result<(), AllocError>
    requires few { length build.now.names.now.families ≤ 256 }
    requires ancestors { build.now.lineage.now ≡ ancestors_of build.now.names.now }
    ensures judged { OnOk result (spec.Judges build.now.view.now build.now.names.now
        left.old left.new found.old found.new
        ((text.now, trees.view_function written.now) ∷ [])) }
{
    let Some((function, rest)) = left.functions.split_first() else {
        return Ok(());
    };
    left.functions = rest;
    let context = BodyContext::new(build.view, build.names, build.lineage, text, None);
    let typed = function_typing(alloc, context, function, &written.name, &written.body);
    note_function(alloc, text, found, typed)
}

fn add_global(
    alloc: Global,
    build: &Build<'_>,
    text: &[u8],
    declared: &TypeName,
    variable: &Variable,
    left: &mut Left<'_>,
    found: &mut Found,
) -> Result<(), AllocError>
    requires few { length build.now.names.now.families ≤ 256 }
    requires ancestors { build.now.lineage.now ≡ ancestors_of build.now.names.now }
    ensures judged { OnOk result (spec.Initializes build.now.view.now build.now.names.now
        left.old left.new found.old found.new
        text.now declared.now (trees.view_var variable.now ∷ [])) }
{
    let Some((global, rest)) = left.globals.split_first() else {
        return Ok(());
    };
    left.globals = rest;
    let context = BodyContext::new(build.view, build.names, build.lineage, text, None);
    let typed = global_typing(alloc, &context, global, declared, &variable.initializer);
    note_global(alloc, text, found, typed)
}

fn add_initializers(
    alloc: Global,
    build: &Build<'_>,
    text: &[u8],
    written: &Variables,
    left: &mut Left<'_>,
    found: &mut Found,
) -> Result<(), AllocError>
    requires few { length build.now.names.now.families ≤ 256 }
    requires ancestors { build.now.lineage.now ≡ ancestors_of build.now.names.now }
    ensures judged { OnOk result (spec.Judges build.now.view.now build.now.names.now
        left.old left.new found.old found.new
        ((text.now, globals (trees.view_vars written.now)) ∷ [])) }
{
    for variable in &written.items {
        add_global(
            alloc,
            build,
            text,
            &written.declared_type,
            variable,
            left,
            found,
        )?;
    }
    Ok(())
}

/// The number of the next class or interface.
fn class_number(build: &Build<'_>, left: &Left<'_>) -> usize
    ensures exact { result
        ≡ length build.now.names.now.families - length left.now.families.now }
{
    let all = build.names.families();
    all.len().saturating_sub(left.families.len())
}

/// The class or interface of this number.
fn family_of(families: &[Family], number: usize) -> Option<&Family>
    ensures exact { option_copied result ≡ slice_get families.now number }
{
    families.get(number)
}

/// The members of the next class.
fn add_next_class(
    alloc: Global,
    build: &Build<'_>,
    text: &[u8],
    written: &written::Class,
    left: &mut Left<'_>,
    found: &mut Found,
) -> Result<(), AllocError>
    requires few { length build.now.names.now.families ≤ 256 }
    requires ancestors { build.now.lineage.now ≡ ancestors_of build.now.names.now }
    ensures judged { OnOk result (spec.Judges build.now.view.now build.now.names.now
        left.old left.new found.old found.new
        ((text.now, trees.view_class written.now) ∷ [])) }
{
    let number = class_number(build, left);
    let Some((_, rest)) = left.families.split_first() else {
        return Ok(());
    };
    left.families = rest;
    let Some(family) = family_of(build.names.families(), number) else {
        return Ok(());
    };
    add_class(alloc, build, text, number, family, written, found)
}

/// An interface has no bodies.
#[tactic(auto, using(crate::proofs::Lists::tail_none))]
fn skip_family(left: &mut Left<'_>)
    ensures families { left.new.families.now ≡ spec.tail left.old.families.now }
    ensures functions { left.new.functions.now ≡ left.old.functions.now }
    ensures globals { left.new.globals.now ≡ left.old.globals.now }
{
    if let Some((_, rest)) = left.families.split_first() {
        left.families = rest;
    }
}

fn add_declaration(
    alloc: Global,
    build: &Build<'_>,
    text: &[u8],
    declaration: &Declaration,
    left: &mut Left<'_>,
    found: &mut Found,
) -> Result<(), AllocError>
    requires few { length build.now.names.now.families ≤ 256 }
    requires ancestors { build.now.lineage.now ≡ ancestors_of build.now.names.now }
    ensures judged { OnOk result (spec.Judges build.now.view.now build.now.names.now
        left.old left.new found.old found.new
        ((text.now, trees.view_decl declaration.now) ∷ [])) }
{
    match declaration {
        Declaration::Function(written) => add_function(alloc, build, text, written, left, found),
        Declaration::Globals(written) => {
            add_initializers(alloc, build, text, written, left, found)
        }
        Declaration::Class(written) => add_next_class(alloc, build, text, written, left, found),
        Declaration::Interface(_) => {
            skip_family(left);
            Ok(())
        }
        Declaration::Import(_) | Declaration::Empty(_) => Ok(()),
    }
}

/// The bodies and initializers of declarations of a section with these bytes.
///
/// The only error is want of memory.
fn add_declarations(
    alloc: Global,
    build: &Build<'_>,
    text: &[u8],
    declarations: &[Declaration],
    left: &mut Left<'_>,
    found: &mut Found,
) -> Result<(), AllocError>
    requires few { length build.now.names.now.families ≤ 256 }
    requires ancestors { build.now.lineage.now ≡ ancestors_of build.now.names.now }
    ensures judged { OnOk result (spec.Judges build.now.view.now build.now.names.now
        left.old left.new found.old found.new
        (list_map (λ d. (text.now, d)) (list_map trees.view_decl declarations.now))) }
{
    for declaration in declarations {
        add_declaration(alloc, build, text, declaration, left, found)?;
    }
    Ok(())
}

/// The bodies and initializers of a section.
///
/// The only error is want of memory.
pub fn add_script(
    alloc: Global,
    build: &Build<'_>,
    script: &Script,
    left: &mut Left<'_>,
    found: &mut Found,
) -> Result<(), AllocError>
    requires few { length build.now.names.now.families ≤ 256 }
    requires ancestors { build.now.lineage.now ≡ ancestors_of build.now.names.now }
    ensures judged { OnOk result (spec.Judges build.now.view.now build.now.names.now
        left.old left.new found.old found.new (spec.section_of (source_of script.now))) }
{
    add_declarations(
        alloc,
        build,
        script.source.as_slice(),
        script.declarations.as_slice(),
        left,
        found,
    )
}
