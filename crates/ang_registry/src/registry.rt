//! The registry.
ghost use Rattle.std.specs.Prelude.{◌≡◌, ◌≢◌, ◌≤◌, ◌<◌, false, true, [], length, None, Some, IfOk, IfErr, OnOk, OnErr, option_map, IfSome};
ghost use Rattle.std.specs.Option.{option_copied};
ghost use Rattle.ang_view.specs.Registration.{entry_at, seen, function_named, SeesFunction};
ghost use Rattle.ang_view.specs.Hidden.{hidden};
ghost use Rattle.ang_view.specs.Types.{type_named, enumeration_named};
ghost use Rattle.ang_view.specs.Values.{EntryTakesValues, TakesValues};
ghost use Rattle.ang_registry.specs.Declarations as spec;
ghost use Rattle.ang_registry.specs.Types.{is_misused};
ghost use Rattle.ang_registry.specs.Written.{DeclaresWritten, WritesValues};
ghost use Rattle.ang_registry.specs.Refusals.{refusal_of_type, with_type, refusal_of_factory, with_factory, refusal_of_method, with_method, refusal_of_property, with_property, refusal_of_function, with_function, refusal_of_global, with_global, refusal_of_enumeration, with_enumeration, refusal_of_value, with_value, refusal_of_blank, with_blank, refusal_of_declared, with_declared, refusal_of_own, with_own, refusal_of_declared_member, with_declared_member, refusal_of_member, with_member, refusal_of_entry, with_entry, with_last};

use crate::RegError;
use crate::declaration::{
    declared_factory, declared_function, declared_method, declared_property, declared_type,
};
use crate::lookup::{is_wrong_driver, names_unknown};
use crate::overload::is_duplicate;
use crate::refusal::{MOST_ENTRIES, check_room, gives_own, is_over_limit};
use crate::settle::{is_misused, mask_of, settled};
use ang_kinds::{EntityNo, Mask, Signature};
use ang_view::{Entry, EntryKind, Group, View, find_type, hidden_of, view_of, whole_of};
use std::alloc::{AllocError, Global};
use std::marker::Model;

/// What a host offers to scripts: a list of entries, numbered from 0 in the order of registration, the
/// mask that the next entry gets (docs/HOST.md, "Registration"), and groups of entries that go together
/// ("Groups").
///
/// It doesn't know which drivers there will be: `Engine::new` refuses an entry whose driver is not in the
/// list (`NoDriver`).
///
/// Time: a registration is compared only with the entries of its own name (a factory with the factories of
/// its type), and with those that have the name of a type that it belongs to or that its declaration names.
/// That of a type also goes through all entries, to see whether its driver has a type already.
#[derive(Drop)]
pub struct Registry {
    pub(crate) alloc: Global,
    default_mask: Mask,
    pub(crate) list: View,
    pub(crate) groups: Vec<Group>,
    pub(crate) is_open: bool,
}

impl Model for Registry {
    ghost use Rattle.std.specs.Prelude.{◌≤◌, length};
    ghost use Rattle.ang_registry.specs.Registrations.{Registrations, AreGroups};
    ghost use Rattle.ang_view.specs.Values.{TakesValues};

    ghost Value = { Registrations };

    ghost view = { λ r. record {
      default_mask = r.default_mask;
      entries = r.list;
      groups = r.groups.items;
      is_open = r.is_open;
    } };

    ghost invariant = { λ r. (length r.list ≤ 1024) × TakesValues r.list
        × AreGroups r.list r.groups.items };
}

impl Registry {
    /// A registry without entries, whose default mask has bit 0 alone. It takes no memory.
    pub fn new(alloc: Global) -> Registry
        ensures empty { result.entries ≡ [] }
        ensures mask { result.default_mask.0 ≡ 1 }
        ensures no_groups { result.groups ≡ [] }
        ensures none_open { result.is_open ≡ false }
    {
        Registry {
            alloc,
            default_mask: Mask(1),
            list: View::new(alloc),
            groups: Vec::new(alloc),
            is_open: false,
        }
    }

    /// Sets the mask that the entries registered from now on get, and answers the one before. A mask of 0 is
    /// taken too; while it is set no entry but values of enumerations is accepted (`EmptyMask`).
    pub fn set_default_mask(&mut self, mask: Mask) -> Mask
        ensures before { result ≡ self.old.default_mask }
        ensures set { self.new.default_mask ≡ mask }
        ensures kept { self.new.entries ≡ self.old.entries }
        ensures groups_kept { self.new.groups ≡ self.old.groups }
        ensures open_kept { self.new.is_open ≡ self.old.is_open }
    {
        let before = self.default_mask;
        self.default_mask = mask;
        before
    }

    /// Registers a type of host objects for a driver, and answers the entry's number. The driver keeps the
    /// type's objects, and counts their references.
    ///
    /// # Errors
    ///
    /// The first of these that applies: `Limit` where 1,024 entries are there; `EmptyMask` where the default
    /// mask is 0; `BadDeclaration` where the name is no identifier; `WrongDriver` where `driver` is above 63
    /// or has a type already; `Duplicate` where a type, an enumeration, a function or a global property has
    /// the name. `Memory`, where the allocator refused memory, may come instead of any other answer. After an
    /// error the registry is as it was.
    #[tactic(auto, using(crate::proofs::Values::type_values))]
    pub fn type_(&mut self, name: &[u8], driver: u32) -> Result<EntityNo, RegError>
        ensures accepted { OnOk result
            (refusal_of_type self.old driver (spec.declared_type name.now) ≡ None) }
        ensures number { IfOk result (λ number. number.0 ≡ length self.old.entries) }
        ensures added { OnOk result
            (self.new ≡ with_type self.old driver (spec.declared_type name.now)) }

        ensures first_refusal { IfErr result (λ why. why ≢ RegError.Memory
            → refusal_of_type self.old driver (spec.declared_type name.now) ≡ Some why) }
        ensures unchanged { OnErr result (self.new ≡ self.old) }
    {
        let declared = declared_type(self.alloc, name)?;
        self.add_declared(EntryKind::HostType, driver, 0, declared)
    }

    /// Registers a factory of a type, which makes objects of the type, and answers the entry's number. The
    /// type's driver is asked for it by `make`, with the number `f`. The declaration is `T@ NAME params`,
    /// where `T` is the type. Scripts call a factory by the type's name, as `T(5)`: `NAME` is for the host.
    ///
    /// # Errors
    ///
    /// The first of these that applies: `Limit` where 1,024 entries are there or the declaration has more
    /// than 32 parameters; `EmptyMask` where the default mask is 0; `BadDeclaration` where the text is of
    /// another form, is one that hosts can't use, or gives another type; `UnknownType` where the type or one
    /// that a parameter names is not registered; `WrongDriver` where a parameter names a type of another
    /// driver; `Duplicate` where the type has a factory with the same parameters. `Memory`, where the
    /// allocator refused memory, may come instead of any other answer. After an error the registry is as it
    /// was.
    #[tactic(auto, using(crate::proofs::Values::factory_values))]
    pub fn factory(&mut self, type_name: &[u8], f: u32, decl: &[u8]) -> Result<EntityNo, RegError>
        ensures accepted { OnOk result
            (refusal_of_factory self.old type_name.now (spec.declared_factory decl.now) ≡ None) }
        ensures number { IfOk result (λ number. number.0 ≡ length self.old.entries) }
        ensures added { OnOk result
            (self.new ≡ with_factory self.old type_name.now f (spec.declared_factory decl.now)) }

        ensures first_refusal { IfErr result (λ why. why ≢ RegError.Memory
            → refusal_of_factory self.old type_name.now (spec.declared_factory decl.now)
            ≡ Some why) }
        ensures unchanged { OnErr result (self.new ≡ self.old) }
    {
        let declared = declared_factory(self.alloc, decl)?;
        self.add_declared_member(EntryKind::Factory, type_name, f, declared)
    }

    /// Registers a method of a type, and answers the entry's number. The type's driver is asked for it by
    /// `call`, with the number `f`. The declaration is `type NAME params`, with `const` after it for a method
    /// that does not change its object.
    ///
    /// # Errors
    ///
    /// The first of these that applies: `Limit` where 1,024 entries are there or the declaration has more
    /// than 32 parameters; `EmptyMask` where the default mask is 0; `BadDeclaration` where the text is of
    /// another form or is one that hosts can't use; `UnknownType` where the type or one that the text names
    /// is not registered; `WrongDriver` where the text names a type of another driver; `Duplicate` where the
    /// type has a property of the name, or a method of the name with the same parameters and `const`.
    /// `Memory`, where the allocator refused memory, may come instead of any other answer. After an error the
    /// registry is as it was.
    #[tactic(auto, using(crate::proofs::Values::method_values))]
    pub fn method(&mut self, type_name: &[u8], f: u32, decl: &[u8]) -> Result<EntityNo, RegError>
        ensures accepted { OnOk result
            (refusal_of_method self.old type_name.now (spec.declared_method decl.now) ≡ None) }
        ensures number { IfOk result (λ number. number.0 ≡ length self.old.entries) }
        ensures added { OnOk result
            (self.new ≡ with_method self.old type_name.now f (spec.declared_method decl.now)) }

        ensures first_refusal { IfErr result (λ why. why ≢ RegError.Memory
            → refusal_of_method self.old type_name.now (spec.declared_method decl.now) ≡ Some why) }
        ensures unchanged { OnErr result (self.new ≡ self.old) }
    {
        let declared = declared_method(self.alloc, decl)?;
        self.add_declared_member(EntryKind::Method, type_name, f, declared)
    }

    /// Registers a property of a type's objects, and answers the entry's number. The type's driver is asked
    /// for it by `read` or `write`, with the number `f`. The declaration is `type NAME`, where the type is a
    /// primitive one or an enumeration; with `const` in front of it scripts can't write the property.
    ///
    /// # Errors
    ///
    /// The first of these that applies: `Limit` where 1,024 entries are there; `EmptyMask` where the default
    /// mask is 0; `BadDeclaration` where the text is of another form or its type is an object or a handle;
    /// `UnknownType` where the type of the objects or the one that the text names is not registered;
    /// `Duplicate` where that type has a method or a property of the name. `Memory`, where the allocator
    /// refused memory, may come instead of any other answer. After an error the registry is as it was.
    #[tactic(auto, using(crate::proofs::Values::property_values))]
    pub fn property(&mut self, type_name: &[u8], f: u32, decl: &[u8]) -> Result<EntityNo, RegError>
        ensures accepted { OnOk result
            (refusal_of_property self.old type_name.now (spec.declared_property decl.now) ≡ None) }
        ensures number { IfOk result (λ number. number.0 ≡ length self.old.entries) }
        ensures added { OnOk result
            (self.new ≡ with_property self.old type_name.now f (spec.declared_property decl.now)) }

        ensures first_refusal { IfErr result (λ why. why ≢ RegError.Memory
            → refusal_of_property self.old type_name.now (spec.declared_property decl.now)
            ≡ Some why) }
        ensures unchanged { OnErr result (self.new ≡ self.old) }
    {
        let declared = declared_property(self.alloc, decl)?;
        self.add_declared_member(EntryKind::Property, type_name, f, declared)
    }

    /// Registers a function of a driver, and answers the entry's number. The driver is asked for it by
    /// `call`, with the number `f` and without an object. The declaration is `type NAME params`.
    ///
    /// # Errors
    ///
    /// The first of these that applies: `Limit` where 1,024 entries are there or the declaration has more
    /// than 32 parameters; `EmptyMask` where the default mask is 0; `BadDeclaration` where the text is of
    /// another form or is one that hosts can't use; `UnknownType` where it names a type that is not
    /// registered; `WrongDriver` where `driver` is above 63 or the text names a type of another driver;
    /// `Duplicate` where a type, an enumeration or a global property has the name, or a function of the name
    /// has the same parameters. `Memory`, where the allocator refused memory, may come instead of any other
    /// answer. After an error the registry is as it was.
    #[tactic(auto, using(crate::proofs::Values::function_values))]
    pub fn function(&mut self, driver: u32, f: u32, decl: &[u8]) -> Result<EntityNo, RegError>
        ensures accepted { OnOk result
            (refusal_of_function self.old driver (spec.declared_function decl.now) ≡ None) }
        ensures number { IfOk result (λ number. number.0 ≡ length self.old.entries) }
        ensures added { OnOk result
            (self.new ≡ with_function self.old driver f (spec.declared_function decl.now)) }

        ensures first_refusal { IfErr result (λ why. why ≢ RegError.Memory
            → refusal_of_function self.old driver (spec.declared_function decl.now) ≡ Some why) }
        ensures unchanged { OnErr result (self.new ≡ self.old) }
    {
        let declared = declared_function(self.alloc, decl)?;
        self.add_declared(EntryKind::Function, driver, f, declared)
    }

    /// Registers a global property of a driver, and answers the entry's number. The driver is asked for it by
    /// `read` or `write`, with the number `f` and without an object. The declaration is `type NAME`, where
    /// the type is a primitive one or an enumeration; with `const` in front of it scripts can't write the
    /// property.
    ///
    /// # Errors
    ///
    /// The first of these that applies: `Limit` where 1,024 entries are there; `EmptyMask` where the default
    /// mask is 0; `BadDeclaration` where the text is of another form or its type is an object or a handle;
    /// `UnknownType` where it names a type that is not registered; `WrongDriver` where `driver` is above 63;
    /// `Duplicate` where a type, an enumeration, a function or a global property has the name. `Memory`,
    /// where the allocator refused memory, may come instead of any other answer. After an error the registry
    /// is as it was.
    #[tactic(auto, using(crate::proofs::Values::global_values))]
    pub fn global_property(
        &mut self,
        driver: u32,
        f: u32,
        decl: &[u8],
    ) -> Result<EntityNo, RegError>
        ensures accepted { OnOk result
            (refusal_of_global self.old driver (spec.declared_property decl.now) ≡ None) }
        ensures number { IfOk result (λ number. number.0 ≡ length self.old.entries) }
        ensures added { OnOk result
            (self.new ≡ with_global self.old driver f (spec.declared_property decl.now)) }

        ensures first_refusal { IfErr result (λ why. why ≢ RegError.Memory
            → refusal_of_global self.old driver (spec.declared_property decl.now) ≡ Some why) }
        ensures unchanged { OnErr result (self.new ≡ self.old) }
    {
        let declared = declared_property(self.alloc, decl)?;
        self.add_declared(EntryKind::Global, driver, f, declared)
    }

    /// Registers an enumeration, and answers the entry's number. Its name stands in later declarations as that
    /// of a primitive type does, and in scripts as `int`. It belongs to no driver: what is of it is a number
    /// of 32 bits with a sign, which drivers get and give as `Int`.
    ///
    /// # Errors
    ///
    /// The first of these that applies: `Limit` where 1,024 entries are there; `EmptyMask` where the default
    /// mask is 0; `BadDeclaration` where the name is no identifier; `Duplicate` where a type, an enumeration,
    /// a function or a global property has the name. `Memory`, where the allocator refused memory, may come
    /// instead of any other answer. After an error the registry is as it was.
    #[tactic(auto, using(crate::proofs::Values::enumeration_values))]
    pub fn enum_(&mut self, name: &[u8]) -> Result<EntityNo, RegError>
        ensures accepted { OnOk result
            (refusal_of_enumeration self.old (spec.declared_type name.now) ≡ None) }
        ensures number { IfOk result (λ number. number.0 ≡ length self.old.entries) }
        ensures added { OnOk result
            (self.new ≡ with_enumeration self.old (spec.declared_type name.now)) }

        ensures first_refusal { IfErr result (λ why. why ≢ RegError.Memory
            → refusal_of_enumeration self.old (spec.declared_type name.now) ≡ Some why) }
        ensures unchanged { OnErr result (self.new ≡ self.old) }
    {
        let declared = declared_type(self.alloc, name)?;
        self.add_declared(EntryKind::Enumeration, 0, 0, declared)
    }

    /// Registers a value of an enumeration, and answers the entry's number. It has the enumeration's mask,
    /// whatever the default one. Scripts write it as `ENUM::NAME`, or by its name alone where nothing else
    /// that the script sees has the name.
    ///
    /// # Errors
    ///
    /// The first of these that applies: `Limit` where 1,024 entries are there; `BadDeclaration` where the name
    /// is no identifier; `UnknownType` where no enumeration has the name `enum_name`; `Duplicate` where that
    /// enumeration has a value of the name. `Memory`, where the allocator refused memory, may come instead of
    /// any other answer. After an error the registry is as it was.
    #[tactic(auto, using(crate::proofs::Values::enum_value_values))]
    pub fn enum_value(
        &mut self,
        enum_name: &[u8],
        name: &[u8],
        value: i32,
    ) -> Result<EntityNo, RegError>
        ensures accepted { OnOk result
            (refusal_of_value self.old enum_name.now value (spec.declared_type name.now)
            ≡ None) }
        ensures number { IfOk result (λ number. number.0 ≡ length self.old.entries) }
        ensures added { OnOk result
            (self.new ≡ with_value self.old enum_name.now value (spec.declared_type name.now)) }

        ensures first_refusal { IfErr result (λ why. why ≢ RegError.Memory
            → refusal_of_value self.old enum_name.now value (spec.declared_type name.now)
            ≡ Some why) }
        ensures unchanged { OnErr result (self.new ≡ self.old) }
    {
        let declared = declared_type(self.alloc, name)?;
        self.add_value(enum_name, value, declared)
    }

    /// Adds a blank, which no mask sees, and answers its number. A host that leaves an entry out puts a blank
    /// there, so that the entries after it keep their numbers.
    ///
    /// # Errors
    ///
    /// `Limit` where 1,024 entries are there. `Memory`, where the allocator refused memory, may come instead
    /// of any other answer. After an error the registry is as it was.
    pub fn blank(&mut self) -> Result<EntityNo, RegError>
        ensures accepted { OnOk result (refusal_of_blank self.old ≡ None) }
        ensures number { IfOk result (λ number. number.0 ≡ length self.old.entries) }
        ensures added { OnOk result (self.new ≡ with_blank self.old) }

        ensures first_refusal { IfErr result (λ why. why ≢ RegError.Memory
            → refusal_of_blank self.old ≡ Some why) }
        ensures unchanged { OnErr result (self.new ≡ self.old) }
    {
        if self.len() >= MOST_ENTRIES {
            return Err(RegError::Limit);
        }
        self.push(None)
    }

    /// Adds an entry that belongs to no type.
    #[tactic(auto, using(crate::proofs::Values::settled_values))]
    fn add_declared(
        &mut self,
        kind: EntryKind,
        driver: u32,
        f: u32,
        declared: Option<Signature>,
    ) -> Result<EntityNo, RegError>
        requires values { DeclaresWritten kind declared }
        ensures accepted { OnOk result (refusal_of_declared kind self.old driver declared ≡ None) }
        ensures number { IfOk result (λ number. number.0 ≡ length self.old.entries) }
        ensures added { OnOk result (self.new ≡ with_declared kind self.old driver f declared) }
        ensures first_refusal { IfErr result (λ why. why ≢ RegError.Memory
            → refusal_of_declared kind self.old driver declared ≡ Some why) }
        ensures unchanged { OnErr result (self.new ≡ self.old) }
    {
        let declared = settled(self.alloc, &self.list, declared)?;
        self.add_own(kind, driver, f, declared)
    }

    /// Adds an entry that belongs to no type, of which this is declared over the whole list.
    fn add_own(
        &mut self,
        kind: EntryKind,
        driver: u32,
        f: u32,
        declared: Option<Signature>,
    ) -> Result<EntityNo, RegError>
        requires values { DeclaresWritten kind declared }
        ensures accepted { OnOk result (refusal_of_own kind self.old driver declared ≡ None) }
        ensures number { IfOk result (λ number. number.0 ≡ length self.old.entries) }
        ensures added { OnOk result (self.new ≡ with_own kind self.old driver f declared) }
        ensures first_refusal { IfErr result (λ why. why ≢ RegError.Memory
            → refusal_of_own kind self.old driver declared ≡ Some why) }
        ensures unchanged { OnErr result (self.new ≡ self.old) }
    {
        check_room(&self.list, self.default_mask, &declared)?;
        let Some(signature) = declared else {
            return Err(RegError::BadDeclaration);
        };
        if is_misused(&self.list, &signature) {
            return Err(RegError::BadDeclaration);
        }
        self.add(kind, None, driver, f, signature)
    }

    /// Adds an entry that belongs to the type of this name, and so to the type's driver.
    #[tactic(auto, using(crate::proofs::Values::settled_values))]
    fn add_declared_member(
        &mut self,
        kind: EntryKind,
        type_name: &[u8],
        f: u32,
        declared: Option<Signature>,
    ) -> Result<EntityNo, RegError>
        requires values { DeclaresWritten kind declared }
        ensures accepted { OnOk result
            (refusal_of_declared_member kind self.old type_name.now declared ≡ None) }
        ensures number { IfOk result (λ number. number.0 ≡ length self.old.entries) }
        ensures added { OnOk result
            (self.new ≡ with_declared_member kind self.old type_name.now f declared) }
        ensures first_refusal { IfErr result (λ why. why ≢ RegError.Memory
            → refusal_of_declared_member kind self.old type_name.now declared ≡ Some why) }
        ensures unchanged { OnErr result (self.new ≡ self.old) }
    {
        let declared = settled(self.alloc, &self.list, declared)?;
        self.add_member(kind, type_name, f, declared)
    }

    /// Adds an entry that belongs to the type of this name, of which this is declared over the whole list.
    fn add_member(
        &mut self,
        kind: EntryKind,
        type_name: &[u8],
        f: u32,
        declared: Option<Signature>,
    ) -> Result<EntityNo, RegError>
        requires values { DeclaresWritten kind declared }
        ensures accepted { OnOk result
            (refusal_of_member kind self.old type_name.now declared ≡ None) }
        ensures number { IfOk result (λ number. number.0 ≡ length self.old.entries) }
        ensures added { OnOk result
            (self.new ≡ with_member kind self.old type_name.now f declared) }
        ensures first_refusal { IfErr result (λ why. why ≢ RegError.Memory
            → refusal_of_member kind self.old type_name.now declared ≡ Some why) }
        ensures unchanged { OnErr result (self.new ≡ self.old) }
    {
        check_room(&self.list, self.default_mask, &declared)?;
        let Some(signature) = declared else {
            return Err(RegError::BadDeclaration);
        };
        if !gives_own(kind, type_name, &signature) {
            return Err(RegError::BadDeclaration);
        }
        if is_misused(&self.list, &signature) {
            return Err(RegError::BadDeclaration);
        }
        let Some(found) = find_type(&self.list, type_name) else {
            return Err(RegError::UnknownType);
        };
        self.add(kind, Some(found.number), found.driver, f, signature)
    }

    /// Adds an entry under the default mask, unless `UnknownType`, `WrongDriver` or `Duplicate` refuses it.
    #[tactic(auto, using(crate::proofs::Values::written_takes))]
    fn add(
        &mut self,
        kind: EntryKind,
        owner: Option<EntityNo>,
        driver: u32,
        f: u32,
        signature: Signature,
    ) -> Result<EntityNo, RegError>
        requires room { length self.old.entries < 1024 }
        requires values { WritesValues kind signature }
        requires used { is_misused self.old.entries signature ≡ false }
        ensures accepted { OnOk result
            (refusal_of_entry self.old.entries kind owner driver signature ≡ None) }
        ensures number { IfOk result (λ number. number.0 ≡ length self.old.entries) }
        ensures added { OnOk result
            (self.new ≡ with_entry self.old kind owner driver f signature) }
        ensures first_refusal { IfErr result (λ why. why ≢ RegError.Memory
            → refusal_of_entry self.old.entries kind owner driver signature ≡ Some why) }
        ensures unchanged { OnErr result (self.new ≡ self.old) }
    {
        let entry = Entry {
            kind,
            owner,
            driver,
            f,
            signature,
            mask: self.default_mask,
        };
        if names_unknown(&self.list, &entry.signature) {
            return Err(RegError::UnknownType);
        }
        if is_wrong_driver(&self.list, &entry) {
            return Err(RegError::WrongDriver);
        }
        if is_duplicate(&self.list, &entry) {
            return Err(RegError::Duplicate);
        }
        self.push(Some(entry))
    }

    /// Adds a value of the enumeration of this name, under the enumeration's mask.
    #[tactic(auto, unfolding(crate::specs::Refusals::refusal_of_value))]
    fn add_value(
        &mut self,
        enum_name: &[u8],
        value: i32,
        declared: Option<Signature>,
    ) -> Result<EntityNo, RegError>
        requires values { DeclaresWritten (EntryKind.EnumValue value) declared }
        ensures accepted { OnOk result
            (refusal_of_value self.old enum_name.now value declared ≡ None) }
        ensures number { IfOk result (λ number. number.0 ≡ length self.old.entries) }
        ensures added { OnOk result
            (self.new ≡ with_value self.old enum_name.now value declared) }
        ensures first_refusal { IfErr result (λ why. why ≢ RegError.Memory
            → refusal_of_value self.old enum_name.now value declared ≡ Some why) }
        ensures unchanged { OnErr result (self.new ≡ self.old) }
    {
        if is_over_limit(&self.list, &declared) {
            return Err(RegError::Limit);
        }
        let Some(signature) = declared else {
            return Err(RegError::BadDeclaration);
        };
        let Some(number) = self.list.find_enumeration(enum_name) else {
            return Err(RegError::UnknownType);
        };
        let entry = Entry {
            kind: EntryKind::EnumValue(value),
            owner: Some(number),
            driver: 0,
            f: 0,
            signature,
            mask: mask_of(&self.list, number),
        };
        let is_taken = is_duplicate(&self.list, &entry);
        if is_taken {
            return Err(RegError::Duplicate);
        }
        self.push(Some(entry))
    }

    /// Puts an entry or a blank last.
    fn push(&mut self, entry: Option<Entry>) -> Result<EntityNo, RegError>
        requires room { length self.old.entries < 1024 }
        requires values { EntryTakesValues entry }
        ensures number { IfOk result (λ number. number.0 ≡ length self.old.entries) }
        ensures added { OnOk result (self.new ≡ with_last self.old entry) }
        ensures memory { IfErr result (λ why. why ≡ RegError.Memory) }
        ensures unchanged { OnErr result (self.new ≡ self.old) }
    {
        let number = EntityNo(self.len() as u32);
        self.list.push(self.alloc, entry)?;
        Ok(number)
    }

    /// What a module of the mask sees of the list: a copy of the list in which each entry that it does not
    /// see is a blank. It has at most 1,024 entries, blanks included. The checker of scripts relies on
    /// `values`: no declaration in it has an `&out` parameter, and each property is of a primitive type or an
    /// enumeration.
    ///
    /// # Errors
    ///
    /// Want of memory alone. The registry stays as it was.
    pub fn seen(&self, alloc: Global, mask: Mask) -> Result<View, AllocError>
        ensures exact { IfOk result (λ view. view ≡ seen self.now.entries mask.0) }
        ensures values { IfOk result (λ view. TakesValues view) }
        ensures few { IfOk result (λ view. length view ≤ 1024) }
    {
        view_of(alloc, &self.list, mask)
    }

    /// What a module of the mask does not see of the list: a copy of the list in which each entry that it
    /// sees is a blank. A build looks there for its denials.
    ///
    /// # Errors
    ///
    /// Want of memory alone. The registry stays as it was.
    pub fn hidden(&self, alloc: Global, mask: Mask) -> Result<View, AllocError>
        ensures exact { IfOk result (λ view. view ≡ hidden self.now.entries mask.0) }
    {
        hidden_of(alloc, &self.list, mask)
    }

    /// A copy of the whole list, whatever the masks.
    ///
    /// # Errors
    ///
    /// Want of memory alone. The registry stays as it was.
    pub fn whole(&self, alloc: Global) -> Result<View, AllocError>
        ensures exact { IfOk result (λ view. view ≡ self.now.entries) }
    {
        whole_of(alloc, self.list.entries())
    }

    /// The number of entries, blanks included: at most 1,024.
    pub fn len(&self) -> usize
        ensures exact { result ≡ length self.now.entries }
        ensures most { result ≤ 1024 }
    {
        self.list.len()
    }

    /// The entry of a number, or none at a blank and past the end.
    pub fn get(&self, number: EntityNo) -> Option<&Entry>
        ensures exact { option_copied result ≡ entry_at self.now.entries number.0 }
    {
        self.list.get(number)
    }

    /// The number of the type of this name, whatever its mask, or none where there is none. It takes no
    /// memory.
    pub fn find_type(&self, name: &[u8]) -> Option<EntityNo>
        ensures exact { option_map (λ number. number.0) result
            ≡ type_named self.now.entries name.now }
    {
        self.list.find_type(name)
    }

    /// The number of the enumeration of this name, whatever its mask, or none where there is none. It takes
    /// no memory.
    pub fn find_enumeration(&self, name: &[u8]) -> Option<EntityNo>
        ensures exact { option_map (λ number. number.0) result
            ≡ enumeration_named self.now.entries name.now }
    {
        self.list.find_enumeration(name)
    }

    /// The number of the first function of the name that a module of the mask sees, or none where it sees
    /// none. It takes no memory.
    pub fn find_function(&self, mask: Mask, name: &[u8]) -> Option<EntityNo>
        ensures exact { option_map (λ number. number.0) result
            ≡ function_named (seen self.now.entries mask.0) name.now }
        ensures found { IfSome result
            (λ number. SeesFunction self.now.entries mask.0 name.now number.0) }
    {
        let number = self.list.find_function(mask, name)?;
        Some(number)
    }
}
