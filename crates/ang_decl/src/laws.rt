//! Laws on the grammar of host declarations.
ghost use Rattle.std.specs.Prelude.{◌≡◌, ℕ, List};
ghost use Rattle.ang_lex.specs.declared.token.Token.{Token};
ghost use Rattle.ang_decl.specs.Grammar.{SpellsType, SpellsProperty, SpellsMethod, SpellsFunction, SpellsFactory};
ghost use Rattle.ang_decl.specs.Meaning.{IsAnswer};
ghost use Rattle.ang_decl.specs.Parsed.{declared_type_alone, declared_property, declared_method, declared_function, declared_factory};
ghost use Rattle.ang_decl.specs.Signatures as spec;
ghost use Rattle.ang_decl.specs.declared.tree.HostFunction.{HostFunction};
ghost use Rattle.ang_decl.specs.declared.tree.HostProperty.{HostProperty};
ghost use Rattle.ang_decl.specs.declared.tree.HostType.{HostType};

/// No tokens are spelled by two declarations of one form.
pub fn one_declaration()
    ensures types { (x y : HostType) (tokens : List Token) →
        SpellsType x tokens → SpellsType y tokens → x ≡ y }
    ensures properties { (x y : HostProperty) (tokens : List Token) →
        SpellsProperty x tokens → SpellsProperty y tokens → x ≡ y }
    ensures methods { (x y : HostFunction) (tokens : List Token) →
        SpellsMethod x tokens → SpellsMethod y tokens → x ≡ y }
    ensures functions { (x y : HostFunction) (tokens : List Token) →
        SpellsFunction x tokens → SpellsFunction y tokens → x ≡ y }
    ensures factories { (x y : HostFunction) (tokens : List Token) →
        SpellsFactory x tokens → SpellsFactory y tokens → x ≡ y }
{}

/// What the equations of the parsers compute is what the grammar says: the signature that the text
/// declares, or that the text is a declaration that is left out, or that it is none of the form.
pub fn one_answer()
    ensures types { (text : List ℕ) →
        IsAnswer SpellsType spec.is_type_left_out spec.type_signature text
        (declared_type_alone text) }
    ensures properties { (text : List ℕ) →
        IsAnswer SpellsProperty spec.is_property_left_out spec.property_signature text
        (declared_property text) }
    ensures methods { (text : List ℕ) →
        IsAnswer SpellsMethod spec.is_function_left_out spec.function_signature text
        (declared_method text) }
    ensures functions { (text : List ℕ) →
        IsAnswer SpellsFunction spec.is_function_left_out spec.function_signature text
        (declared_function text) }
    ensures factories { (text : List ℕ) →
        IsAnswer SpellsFactory spec.is_factory_left_out spec.function_signature text
        (declared_factory text) }
{}
