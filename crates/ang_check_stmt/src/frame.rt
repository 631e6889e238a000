//! What is the same for all statements of a function.
ghost use Rattle.std.specs.Prelude.{◌≡◌};

use ang_check_context::BodyContext;
use ang_types::ArgType;
use std::marker::Model;

/// How a body ends.
#[derive(Clone, Copy)]
pub enum Returns {
    /// With a value of this type, or with none where it is `void`.
    Value(ArgType),
    /// With its own object of this type, as a constructor does; it returns as a `void` function.
    Own(ArgType),
}

/// What is the same for all statements of a function: what its names are looked up in, how it
/// returns, and how many locals it begins with, `this` and its parameters.
#[derive(Drop)]
pub struct FunctionContext<'a> {
    context: BodyContext<'a>,
    returns: Returns,
    parameters: usize,
}

impl<'a> Model for FunctionContext<'a> {
    ghost use Rattle.ang_check_stmt.specs.Typing as spec;

    ghost Value = { spec.FunctionContext };

    ghost view = { λ f. record {
      context = f.context;
      returns = f.returns;
      parameters = f.parameters;
    } };
}

impl<'a> FunctionContext<'a> {
    /// What stands in this context, returns so, and begins with `parameters` locals.
    pub fn new(context: BodyContext<'a>, returns: Returns, parameters: usize) -> FunctionContext<'a>
        ensures context { result.context ≡ context.entry }
        ensures returns { result.returns ≡ returns }
        ensures parameters { result.parameters ≡ parameters }
    {
        FunctionContext {
            context,
            returns,
            parameters,
        }
    }

    /// What the function's names are looked up in.
    pub fn context(&self) -> &BodyContext<'a>
        ensures same { result.now ≡ self.now.context }
    {
        &self.context
    }

    /// How the body ends.
    pub fn returns(&self) -> Returns
        ensures same { result ≡ self.now.returns }
    {
        self.returns
    }

    /// How many locals it begins with.
    pub fn parameters(&self) -> usize
        ensures same { result ≡ self.now.parameters }
    {
        self.parameters
    }
}
