//! Resolved trees as rows: each step makes a part of a tree of the parts that the steps before it left.
use ang_kinds::{Comparison, EntityNo, List, Operator, Position, Prim};
use ang_typed::{
    Global as GlobalVariable, HostEntity, Local, StepKind, Typed, TypedArgument, TypedBlock,
    TypedCallee, TypedChoice, TypedExpression, TypedFor, TypedFunction, TypedLoop, TypedMember,
    TypedParameter, TypedSite, TypedStatement, TypedVariable,
};
use ang_types::ArgType;
use std::alloc::{AllocError, Global};

pub const INT: ArgType = ArgType::Plain(Prim::I32);

/// What is made. Numbers, operators and functions are of the type `int`, if nothing else is said.
pub enum Step {
    // ---- expressions
    Number(u64),
    Truth(bool),
    Null,
    /// The value of the local of that number.
    Local(usize),
    /// Of one expression.
    One(One),
    /// Of two expressions.
    Two(Two),
    /// `c ? a : b`
    Choose,
    /// A variable, for one of the next four.
    At(TypedVariable),
    /// A member of an object, for one of the next four.
    Of(TypedMember),
    /// The value of a variable or member.
    Read,
    /// `++` or `--` of it.
    Count(StepKind),
    /// A value is stored in it.
    Assign,
    /// It is of the first type, and is changed by a value with the operator in the second type.
    Change(Prim, Operator, Prim),
    /// An argument by value.
    Value,
    /// A variable of the second type for an `&out` parameter of the first one.
    Out(TypedVariable, ArgType, ArgType),
    /// A call with the arguments.
    Call(TypedCallee),
    /// A host call with the arguments.
    Ask(HostEntity),
    /// A new object of a class, with the arguments for its constructor.
    Make(usize, Option<usize>),
    // ---- statements
    /// The statements after it are of a block within.
    Begin,
    Evaluate,
    /// `;`
    Nothing,
    Return,
    Continue,
    Break,
    /// `int x = initializer;`
    Declare,
    /// `int x, y;`
    DeclareTwo,
    Block,
    /// Of a condition and two blocks.
    If,
    /// Of a condition and a block.
    While,
    /// Of a block and a condition.
    DoWhile,
    /// Of a block with the start, a condition, a step, and a block.
    For,
}

/// What is made of one expression.
pub enum One {
    Negate(Prim),
    Complement(Prim),
    Not,
    Convert(Prim),
    /// A cast to the family of that number.
    Cast(usize),
    /// The entry of that number is named in it.
    Naming(u32),
}

/// What is made of two expressions.
pub enum Two {
    Operate(Operator),
    Compare(Comparison),
    And,
    Or,
    Same,
}

/// The parts that no step has taken yet.
#[derive(Drop)]
struct Parts {
    trees: Vec<Box<TypedExpression>>,
    sites: Vec<TypedSite>,
    arguments: Vec<TypedArgument>,
    blocks: Vec<Vec<TypedStatement>>,
}

type Done = Result<(), AllocError>;

// ---- expressions

fn put<T: Drop>(items: &mut Vec<T>, item: T) -> Done {
    Ok(items.push(item)?)
}

/// One item more in the last list.
fn put_last<T: Drop>(lists: &mut Vec<Vec<T>>, item: T) -> Done {
    match lists.last_mut() {
        Some(list) => put(list, item),
        None => Err(AllocError),
    }
}

fn take<T: Drop>(items: &mut Vec<T>) -> Result<T, AllocError> {
    match items.pop() {
        Some(item) => Ok(item),
        None => Err(AllocError),
    }
}

fn boxed<T: Drop>(alloc: Global, item: T) -> Result<Box<T>, AllocError> {
    Ok(Box::new(alloc, item)?)
}

fn push(alloc: Global, parts: &mut Parts, e: TypedExpression) -> Done {
    put(&mut parts.trees, boxed(alloc, e)?)
}

fn pop(parts: &mut Parts) -> Result<Box<TypedExpression>, AllocError> {
    take(&mut parts.trees)
}

fn of_one(by: &One, operand: Box<TypedExpression>) -> TypedExpression {
    match by {
        One::Negate(ty) => TypedExpression::Negate { ty: *ty, operand },
        One::Complement(ty) => TypedExpression::Complement { ty: *ty, operand },
        One::Not => TypedExpression::Not { operand },
        One::Convert(to) => TypedExpression::Convert {
            from: Prim::I32,
            to: *to,
            operand,
        },
        One::Cast(family) => TypedExpression::Cast {
            family: *family,
            operand,
        },
        One::Naming(number) => TypedExpression::Naming {
            entity: EntityNo(*number),
            operand,
        },
    }
}

type Tree = Box<TypedExpression>;

fn of_two(by: &Two, left: Tree, right: Tree) -> TypedExpression {
    match by {
        Two::Operate(operator) => TypedExpression::Operate {
            operator: *operator,
            ty: Prim::I32,
            left,
            right,
        },
        Two::Compare(comparison) => TypedExpression::Compare {
            comparison: *comparison,
            ty: Prim::I32,
            left,
            right,
        },
        Two::And => TypedExpression::And { left, right },
        Two::Or => TypedExpression::Or { left, right },
        Two::Same => TypedExpression::Same { left, right },
    }
}

fn push_one(alloc: Global, parts: &mut Parts, by: &One) -> Done {
    let operand = pop(parts)?;
    push(alloc, parts, of_one(by, operand))
}

fn push_two(alloc: Global, parts: &mut Parts, by: &Two) -> Done {
    let right = pop(parts)?;
    let left = pop(parts)?;
    push(alloc, parts, of_two(by, left, right))
}

fn push_choice(alloc: Global, parts: &mut Parts) -> Done {
    let otherwise = pop(parts)?;
    let then = pop(parts)?;
    let condition = pop(parts)?;
    push(
        alloc,
        parts,
        TypedExpression::Choose {
            condition,
            then,
            otherwise,
        },
    )
}

/// What is made of a variable or member alone.
fn push_use(alloc: Global, parts: &mut Parts, by: Option<StepKind>) -> Done {
    let site = take(&mut parts.sites)?;
    let e = match by {
        Some(step) => TypedExpression::Step {
            site,
            ty: Prim::I32,
            step,
        },
        None => TypedExpression::Read { site, ty: INT },
    };
    push(alloc, parts, e)
}

/// What is made of a variable or member and a value.
fn push_store(alloc: Global, parts: &mut Parts, by: Option<(Prim, Operator, Prim)>) -> Done {
    let value = pop(parts)?;
    let site = take(&mut parts.sites)?;
    let e = match by {
        Some((ty, operator, operating)) => TypedExpression::Compound {
            site,
            ty,
            operator,
            operating,
            value,
        },
        None => TypedExpression::Assign {
            ty: INT,
            site,
            value,
        },
    };
    push(alloc, parts, e)
}

/// A member of the object that was made last.
fn push_member(parts: &mut Parts, member: TypedMember) -> Done {
    let object = pop(parts)?;
    put(&mut parts.sites, TypedSite::Of { object, member })
}

/// An argument by value.
fn push_value(parts: &mut Parts) -> Done {
    let value = Box::into_inner(pop(parts)?);
    put(
        &mut parts.arguments,
        TypedArgument::Value { ty: INT, value },
    )
}

/// What is made of the arguments.
enum Taking {
    Script(TypedCallee),
    Host(HostEntity),
    Class(usize, Option<usize>),
}

fn of_arguments(by: Taking, arguments: Vec<TypedArgument>) -> TypedExpression {
    let result = INT;
    match by {
        Taking::Script(callee) => TypedExpression::Call {
            result,
            callee,
            arguments,
        },
        Taking::Host(host) => TypedExpression::HostCall {
            host,
            result,
            arguments,
        },
        Taking::Class(family, constructor) => TypedExpression::Make {
            family,
            constructor,
            arguments,
        },
    }
}

fn push_taking(alloc: Global, parts: &mut Parts, by: Taking) -> Done {
    let arguments = std::mem::replace(&mut parts.arguments, Vec::new(alloc));
    push(alloc, parts, of_arguments(by, arguments))
}

/// A step that makes an expression, or a part of one.
fn push_expression(alloc: Global, parts: &mut Parts, step: &Step) -> Done {
    match step {
        Step::Number(value) => {
            let (ty, value) = (Prim::I32, *value);
            push(alloc, parts, TypedExpression::Number { ty, value })
        }
        Step::Truth(value) => push(alloc, parts, TypedExpression::Truth(*value)),
        Step::Null => push(alloc, parts, TypedExpression::Null),
        Step::Local(number) => {
            let site = TypedSite::Named(TypedVariable::Local(*number));
            push(alloc, parts, TypedExpression::Read { site, ty: INT })
        }
        Step::One(by) => push_one(alloc, parts, by),
        Step::Two(by) => push_two(alloc, parts, by),
        Step::Choose => push_choice(alloc, parts),
        Step::At(variable) => put(&mut parts.sites, TypedSite::Named(*variable)),
        Step::Of(member) => push_member(parts, *member),
        Step::Read => push_use(alloc, parts, None),
        Step::Count(step) => push_use(alloc, parts, Some(*step)),
        Step::Assign => push_store(alloc, parts, None),
        Step::Change(ty, operator, at) => push_store(alloc, parts, Some((*ty, *operator, *at))),
        _ => push_call(alloc, parts, step),
    }
}

/// A step that makes an argument, or takes the arguments.
fn push_call(alloc: Global, parts: &mut Parts, step: &Step) -> Done {
    match step {
        Step::Value => push_value(parts),
        Step::Out(variable, from, to) => {
            put(
                &mut parts.arguments,
                TypedArgument::Out {
                    variable: *variable,
                    from: *from,
                    to: *to,
                },
            )
        }
        Step::Call(callee) => push_taking(alloc, parts, Taking::Script(*callee)),
        Step::Ask(host) => push_taking(alloc, parts, Taking::Host(*host)),
        Step::Make(family, constructor) => {
            push_taking(alloc, parts, Taking::Class(*family, *constructor))
        }
        _ => push_statement(alloc, parts, step),
    }
}

// ---- statements

/// One statement more in the innermost block.
fn add(parts: &mut Parts, statement: TypedStatement) -> Done {
    put_last(&mut parts.blocks, statement)
}

fn add_locals(alloc: Global, parts: &mut Parts, count: usize) -> Done {
    let mut locals = Vec::new(alloc);
    for _ in 0..count {
        let local = Local {
            ty: INT,
            initializer: None,
        };
        put(&mut locals, local)?;
    }
    add(parts, TypedStatement::Locals(locals))
}

fn add_local(alloc: Global, parts: &mut Parts) -> Done {
    let initializer = Some(pop(parts)?);
    let local = Local {
        ty: INT,
        initializer,
    };
    add(parts, TypedStatement::Locals(vec![in alloc; local]?))
}

fn add_choice(alloc: Global, parts: &mut Parts) -> Done {
    let otherwise = take(&mut parts.blocks)?;
    let then = take(&mut parts.blocks)?;
    let choice = TypedChoice {
        condition: pop(parts)?,
        then: TypedBlock { statements: then },
        otherwise: TypedBlock {
            statements: otherwise,
        },
    };
    add(parts, TypedStatement::If(boxed(alloc, choice)?))
}

fn pop_loop(alloc: Global, parts: &mut Parts) -> Result<Box<TypedLoop>, AllocError> {
    let statements = take(&mut parts.blocks)?;
    let body = TypedBlock { statements };
    let condition = pop(parts)?;
    boxed(alloc, TypedLoop { condition, body })
}

fn pop_for(alloc: Global, parts: &mut Parts) -> Result<Box<TypedFor>, AllocError> {
    let statements = take(&mut parts.blocks)?;
    let start = take(&mut parts.blocks)?;
    let steps = vec![in alloc; Box::into_inner(pop(parts)?)]?;
    let condition = Some(pop(parts)?);
    let body = TypedBlock { statements };
    boxed(
        alloc,
        TypedFor {
            start,
            condition,
            steps,
            body,
        },
    )
}

/// A step that makes a statement.
fn push_statement(alloc: Global, parts: &mut Parts, step: &Step) -> Done {
    match step {
        Step::Begin => put(&mut parts.blocks, Vec::new(alloc)),
        Step::Evaluate => {
            let e = Some(pop(parts)?);
            add(parts, TypedStatement::Expression(e))
        }
        Step::Nothing => add(parts, TypedStatement::Expression(None)),
        Step::Return => {
            let e = Some(pop(parts)?);
            add(parts, TypedStatement::Return(e))
        }
        Step::Continue => add(parts, TypedStatement::Continue),
        Step::Break => add(parts, TypedStatement::Break),
        Step::Declare => add_local(alloc, parts),
        Step::DeclareTwo => add_locals(alloc, parts, 2),
        Step::Block => {
            let statements = take(&mut parts.blocks)?;
            add(parts, TypedStatement::Block(TypedBlock { statements }))
        }
        Step::If => add_choice(alloc, parts),
        Step::While => {
            let turn = pop_loop(alloc, parts)?;
            add(parts, TypedStatement::While(turn))
        }
        Step::DoWhile => {
            let turn = pop_loop(alloc, parts)?;
            add(parts, TypedStatement::DoWhile(turn))
        }
        _ => {
            let turn = pop_for(alloc, parts)?;
            add(parts, TypedStatement::For(turn))
        }
    }
}

// ---- modules

fn push_all(alloc: Global, parts: &mut Parts, steps: &[Step]) -> Done {
    put(&mut parts.blocks, Vec::new(alloc))?;
    for step in steps {
        push_expression(alloc, parts, step)?;
    }
    Ok(())
}

/// What steps make, in an outermost block.
fn parts_of(alloc: Global, steps: &[Step]) -> Result<Parts, AllocError> {
    let mut parts = Parts {
        trees: Vec::new(alloc),
        sites: Vec::new(alloc),
        arguments: Vec::new(alloc),
        blocks: Vec::new(alloc),
    };
    match push_all(alloc, &mut parts, steps) {
        Ok(()) => Ok(parts),
        Err(error) => {
            drop(parts);
            Err(error)
        }
    }
}

fn statements(alloc: Global, steps: &[Step]) -> Result<Vec<TypedStatement>, AllocError> {
    let mut parts = parts_of(alloc, steps)?;
    let statements = take(&mut parts.blocks);
    drop(parts);
    statements
}

fn expression(alloc: Global, steps: &[Step]) -> Result<Box<TypedExpression>, AllocError> {
    let mut parts = parts_of(alloc, steps)?;
    let tree = pop(&mut parts);
    drop(parts);
    tree
}

/// A module of one function.
pub struct Written {
    pub parameters: &'static [TypedParameter],
    pub result: ArgType,
    pub statements: &'static [Step],
    /// Where the statements stand.
    pub positions: &'static [Position],
    /// The initializers of globals of the type `int`, of which an empty one is none.
    pub globals: &'static [&'static [Step]],
}

fn function(alloc: Global, written: &Written) -> Result<TypedFunction, AllocError> {
    let parameters = Vec::from_slice(alloc, written.parameters)?;
    let positions = Vec::from_slice(alloc, written.positions)?;
    let statements = statements(alloc, written.statements)?;
    Ok(TypedFunction {
        parameters: List::from_vec(parameters),
        result: written.result,
        body: TypedBlock { statements },
        positions: List::from_vec(positions),
    })
}

fn global(alloc: Global, steps: &[Step]) -> Result<GlobalVariable, AllocError> {
    let initializer = if steps.is_empty() {
        None
    } else {
        Some(expression(alloc, steps)?)
    };
    Ok(GlobalVariable {
        ty: INT,
        initializer,
    })
}

fn globals(alloc: Global, rows: &[&[Step]]) -> Result<Vec<GlobalVariable>, AllocError> {
    let mut globals = Vec::new(alloc);
    for steps in rows {
        put(&mut globals, global(alloc, steps)?)?;
    }
    Ok(globals)
}

/// The module that is written there.
pub fn module(alloc: Global, written: &Written) -> Result<Typed, AllocError> {
    let globals = globals(alloc, written.globals)?;
    let functions = vec![in alloc; function(alloc, written)?]?;
    Ok(Typed {
        functions: List::from_vec(functions),
        globals: List::from_vec(globals),
        classes: List::from_vec(Vec::new(alloc)),
        methods: List::from_vec(Vec::new(alloc)),
        imports: List::from_vec(Vec::new(alloc)),
    })
}
