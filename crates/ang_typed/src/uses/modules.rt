//! What modules use.
ghost use Rattle.std.specs.Prelude.{◌≡◌, map as list_map};
ghost use Rattle.ang_typed.specs.View.{view_function, view_global, view_typed};
ghost use Rattle.ang_typed.specs.Uses.{marked, parameter_uses, type_uses, uses};
ghost use Rattle.ang_typed.specs.Marked as spec;

use crate::program::{Global, Heading, Typed, TypedClass, TypedFunction, TypedParameter};
use crate::uses::expressions::mark_option;
use crate::uses::marks::mark_type;
use crate::uses::statements::mark_block;
use ang_types::ArgType;

/// Marks what types use.
fn mark_types(marks: &mut Vec<bool>, types: &[ArgType])
    ensures exact { marks.new.items
        ≡ spec.each_marks (λ ty. marked (type_uses ty)) types.now marks.old.items }
{
    for ty in types {
        mark_type(marks, *ty);
    }
}

/// Marks what parameters use.
fn mark_parameters(marks: &mut Vec<bool>, parameters: &[TypedParameter])
    ensures exact { marks.new.items
        ≡ spec.each_marks (λ p. marked (parameter_uses p)) parameters.now marks.old.items }
{
    for parameter in parameters {
        mark_type(marks, parameter.ty);
    }
}

/// Marks what a function uses.
fn mark_function(marks: &mut Vec<bool>, function: &TypedFunction)
    ensures exact { marks.new.items
        ≡ spec.function_marks (view_function function.now) marks.old.items }
{
    mark_parameters(marks, function.parameters.as_slice());
    mark_type(marks, function.result);
    mark_block(marks, &function.body);
}

/// Marks what functions use.
fn mark_functions(marks: &mut Vec<bool>, functions: &[TypedFunction])
    ensures exact { marks.new.items ≡ spec.each_marks spec.function_marks
        (list_map view_function functions.now) marks.old.items }
{
    for function in functions {
        mark_function(marks, function);
    }
}

/// Marks what a global uses.
fn mark_global(marks: &mut Vec<bool>, global: &Global)
    ensures exact { marks.new.items
        ≡ spec.global_marks (view_global global.now) marks.old.items }
{
    mark_type(marks, global.ty);
    mark_option(marks, &global.initializer);
}

/// Marks what globals use.
fn mark_globals(marks: &mut Vec<bool>, globals: &[Global])
    ensures exact { marks.new.items ≡ spec.each_marks spec.global_marks
        (list_map view_global globals.now) marks.old.items }
{
    for global in globals {
        mark_global(marks, global);
    }
}

/// Marks what classes use.
fn mark_classes(marks: &mut Vec<bool>, classes: &[TypedClass])
    ensures exact { marks.new.items
        ≡ spec.each_marks spec.class_marks classes.now marks.old.items }
{
    for class in classes {
        mark_types(marks, class.fields.as_slice());
    }
}

/// Marks what a heading uses.
fn mark_heading(marks: &mut Vec<bool>, heading: &Heading)
    ensures exact { marks.new.items
        ≡ spec.heading_marks heading.now marks.old.items }
{
    mark_parameters(marks, heading.parameters.as_slice());
    mark_type(marks, heading.result);
}

/// Marks what headings use.
fn mark_headings(marks: &mut Vec<bool>, headings: &[Heading])
    ensures exact { marks.new.items
        ≡ spec.each_marks spec.heading_marks headings.now marks.old.items }
{
    for heading in headings {
        mark_heading(marks, heading);
    }
}

/// Marks what a module uses, in turn.
fn mark_module(marks: &mut Vec<bool>, module: &Typed)
    ensures exact { marks.new.items ≡ spec.program_marks (view_typed module.now) marks.old.items }
{
    mark_functions(marks, module.functions.as_slice());
    mark_globals(marks, module.globals.as_slice());
    mark_classes(marks, module.classes.as_slice());
    mark_headings(marks, module.methods.as_slice());
    mark_headings(marks, module.imports.as_slice());
}

/// Marks the numbers of the entries that a module uses. It takes no memory, and goes through the tree once.
pub fn mark_uses(marks: &mut Vec<bool>, module: &Typed)
    ensures exact { marks.new.items ≡ marked (uses (view_typed module.now)) marks.old.items }
{
    mark_module(marks, module);
}
