//! Laws on what refusals ask, each the contract of a function that does nothing.
ghost use Rattle.std.specs.Prelude.{◌≡◌, ℕ, All, Contains, List, IfErr};
ghost use Rattle.ang_kinds.specs.declared.error.Denial.{Denial};
ghost use Rattle.ang_tree.specs.declared.type_name.TypeName.{TypeName};
ghost use Rattle.ang_tree.specs.Stmt.{Init};
ghost use Rattle.ang_tree.specs.Tree.{Tree};
ghost use Rattle.ang_types.specs.declared.arg_type.ArgType.{ArgType};
ghost use Rattle.ang_view.specs.Registration.{RegistrationList, seen};
ghost use Rattle.ang_names_listed.specs.Sources.{Source};
ghost use Rattle.ang_check_context.specs.declared.scope.LocalVariable.{LocalVariable};
ghost use Rattle.ang_check_context.specs.Scope.{BodyContext};
ghost use Rattle.ang_check_typing.specs.Typing.{typing_of};
ghost use Rattle.ang_check_stmt.specs.Typing.{local_type, initializer_typing};
ghost use Rattle.ang_check.specs.Denials.{denials_of, script_refusals, scope_over};
ghost use Rattle.ang_check_laws.specs.Asked.{IsAskedAgain, IsAskedThere, IsOfUse};
ghost use Rattle.ang_check_laws.specs.Beyond.{initializer_tried, tried, type_tried, IfSilentStays, IsHelpedOrBeyond, IsRegistered};
ghost use Rattle.ang_check_laws.specs.Registered.{RegistryCall, after_calls, nothing};
ghost use Rattle.ang_check_laws.specs.Rows.{TellsOfUse};

/// What a refusal of scripts asks of its name, if it asks anything, means nothing over the same view and the names of these
/// scripts, for just the reason that the error gives. So the report of denials, which asks it over a larger view, asks for
/// the use that was refused. Its error is one of six: `UnknownName`, `UnknownType`, `NoMatch`, `Ambiguous`, `NoDefault` and
/// `Const`.
#[tactic(auto, using(crate::proofs::Scripts::asked_again, crate::proofs::SixKinds::six_kinds))]
pub fn each_refusal_asks_again()
    ensures asked_again { (V : RegistrationList) (ss : List Source) →
        All (IsAskedAgain (scope_over V ss)) (script_refusals V ss) }
    ensures kinds { (V : RegistrationList) (ss : List Source) → All IsOfUse (script_refusals V ss) }
{}

/// Of an expression, where these parameters and locals are alive, the refusal of a use is one at its name; and it says of a
/// bare name whether one of these, or a field or a method of the body's class, has it, so that it stays the script's.
#[tactic(auto, using(crate::proofs::Expressions::each_use_asked))]
pub fn each_refused_use_is_asked()
    ensures asked { (s : BodyContext) (locals : List LocalVariable) (e : Tree) →
        IfErr (typing_of s locals e) (IsAskedThere s locals) }
{}

/// The same of the type of local variables, and of what a variable begins with: an object that is made of the type that is
/// named there.
#[tactic(auto, using(crate::proofs::Variables::each_type_asked, crate::proofs::Variables::each_initializer_asked))]
pub fn each_refused_variable_is_asked()
    ensures types { (s : BodyContext) (locals : List LocalVariable) (y : TypeName) →
        IfErr (local_type s locals y) (IsAskedThere s locals) }
    ensures initializers { (s : BodyContext) (locals : List LocalVariable) (y : TypeName)
        (ty : ArgType) (i : Init) →
        IfErr (initializer_typing s locals y ty i) (IsAskedThere s locals) }
{}

/// Each row of the report tells of a use that is refused over what the module's mask shows, and that would mean a hidden
/// entry if the module saw it too, with the types that its declaration names. The row is of this entry or of such a type, and
/// its own mask does not meet the module's.
#[tactic(auto, using(crate::proofs::Told::row_tells))]
pub fn each_row_tells_of_a_use()
    ensures told { (R : RegistrationList) (m : ℕ) (ss : List Source) (d : Denial)
        → Contains (denials_of R m ss) d → TellsOfUse R m ss d }
{}

/// Each other refusal of one of these six errors is beyond help: it is that of a body or an initializer of these scripts, and
/// stays just so, whatever hidden entry the module saw too, with the types that its declaration names. So the report of
/// denials has all hidden entries by which a refused use would have been resolved.
#[tactic(auto, using(crate::proofs::Beyond::beyond_help))]
pub fn each_other_refusal_is_beyond_help()
    ensures beyond { (R : RegistrationList) (m : ℕ) (ss : List Source) → IsRegistered R →
        All (IsHelpedOrBeyond R m ss) (script_refusals (seen R m) ss) }
{}

/// The same of an expression, of the type of local variables and of what a variable begins with, where these parameters and
/// locals are alive.
#[tactic(auto, using(crate::proofs::Beyond::expression_beyond, crate::proofs::Beyond::type_beyond, crate::proofs::Beyond::initializer_beyond))]
pub fn each_other_refused_use_stays()
    ensures expressions { (R : RegistrationList) (m : ℕ) (s : BodyContext)
        (locals : List LocalVariable) (e : Tree) → IsRegistered R → s.view ≡ seen R m →
        IfErr (typing_of s locals e) (IfSilentStays R m (λ W. tried s W locals e)) }
    ensures types { (R : RegistrationList) (m : ℕ) (s : BodyContext)
        (locals : List LocalVariable) (y : TypeName) → IsRegistered R → s.view ≡ seen R m →
        IfErr (local_type s locals y) (IfSilentStays R m (λ W. type_tried s W locals y)) }
    ensures initializers { (R : RegistrationList) (m : ℕ) (s : BodyContext)
        (locals : List LocalVariable) (y : TypeName) (ty : ArgType) (i : Init) →
        IsRegistered R → s.view ≡ seen R m →
        IfErr (initializer_typing s locals y ty i)
        (IfSilentStays R m (λ W. initializer_tried s W locals y ty i)) }
{}

/// And each list that a registry makes is as this law wants it, by whatever calls.
#[tactic(auto, using(crate::proofs::Registering::each_registered))]
pub fn each_registry_is_registered()
    ensures registered { (calls : List RegistryCall) →
        IsRegistered (after_calls nothing calls).entries }
{}
