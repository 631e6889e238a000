//! Where imports lead.
ghost use Rattle.std.specs.Prelude.{◌≡◌, ◌<◌, length, slice_set, option_map, map as list_map};
ghost use Rattle.ang_engine_modules.specs.Modules.{unbound_link, unbound_links};
ghost use Rattle.ang_engine_modules.specs.Loaded.{with_link, linked_in, without_links, unbound_in};
ghost use Rattle.ang_engine_modules.specs.Relinked.{bounds_of, IsRelinked, HasLink, HasUnbound};

use crate::modules::LoadedModule;
use ang_kinds::List;
use ang_meaning::Routine;
use ang_vm_stack::table::{LinkedImport, ModuleCode};
use std::alloc::Global;
use std::mem;

/// Where an import leads once no import leads to a module of this number.
fn unbound_link(home: u32, link: Option<Routine>) -> Option<Routine>
    ensures exact { result ≡ unbound_link home link }
{
    match link {
        None => None,
        Some(function) => {
            if function.home == home {
                None
            } else {
                Some(function)
            }
        }
    }
}

/// Puts a link in the place of one, where there is one of that number.
fn put_link(alloc: Global, links: &mut List<Option<Routine>>, index: usize, link: Option<Routine>)
    ensures put { links.new ≡ slice_set links.old index link }
{
    let mut all = mem::replace(links, List::from_vec(Vec::new(alloc))).into_vec();
    if index < all.len() {
        all[index] = link;
    }
    *links = List::from_vec(all);
}

/// Unbinds those of these links that lead to the module `home`.
fn unbind_each(home: u32, links: &mut Vec<Option<Routine>>)
    ensures unbound { links.new.items ≡ unbound_links home links.old.items }
{
    for link in links.iter_mut() {
        *link = unbound_link(home, *link);
    }
}

/// Unbinds the imports of a module that lead to the module `home`.
fn unbind_links(alloc: Global, home: u32, links: &mut List<Option<Routine>>)
    ensures unbound { links.new ≡ unbound_links home links.old }
{
    let mut all = mem::replace(links, List::from_vec(Vec::new(alloc))).into_vec();
    unbind_each(home, &mut all);
    *links = List::from_vec(all);
}

/// Binds an import of a module's code, or unbinds it.
fn put_bound(imports: &mut Vec<LinkedImport>, index: usize, link: Option<Routine>)
    ensures bound { list_map (λ y. y.bound) imports.new.items
        ≡ slice_set (list_map (λ y. y.bound) imports.old.items) index link }
    ensures params { list_map (λ y. y.params.items) imports.new.items
        ≡ list_map (λ y. y.params.items) imports.old.items }
{
    if index < imports.len() {
        imports[index].bound = link;
    }
}

/// Unbinds the imports of a module's code that lead to the module `home`.
fn unbind_imports(home: u32, imports: &mut Vec<LinkedImport>)
    ensures bound { list_map (λ y. y.bound) imports.new.items
        ≡ unbound_links home (list_map (λ y. y.bound) imports.old.items) }
    ensures params { list_map (λ y. y.params.items) imports.new.items
        ≡ list_map (λ y. y.params.items) imports.old.items }
{
    for import in imports.iter_mut() {
        import.bound = unbound_link(home, import.bound);
    }
}

/// Binds an import in the code of a module, or unbinds it.
fn bind_code(code: &mut ModuleCode, index: usize, link: Option<Routine>)
    ensures linked { IsRelinked code.old (slice_set (bounds_of code.old) index link) code.new }
{
    put_bound(&mut code.imports, index, link);
}

/// The same of what the module is loaded with.
fn bind_loaded(alloc: Global, place: &mut Option<LoadedModule>, index: usize, link: Option<Routine>)
    ensures linked { place.new ≡ option_map (with_link index link) place.old }
{
    if let Some(loaded) = place {
        put_link(alloc, &mut loaded.links, index, link);
    }
}

/// Binds or unbinds an import of the module `home`, in its code and in what it is loaded with.
pub fn bind_import(
    alloc: Global,
    codes: &mut Vec<ModuleCode>,
    places: &mut Vec<Option<LoadedModule>>,
    home: u32,
    index: usize,
    link: Option<Routine>,
)
    requires code { home < length codes.old.items }
    requires place { home < length places.old.items }
    ensures code { HasLink codes.old.items home index link codes.new.items }
    ensures place { places.new.items ≡ linked_in home index link places.old.items }
{
    let home = home as usize;
    bind_code(&mut codes[home], index, link);
    bind_loaded(alloc, &mut places[home], index, link);
}

/// Unbinds the imports in the code of a module that lead to the module `home`.
fn unbind_code(home: u32, code: &mut ModuleCode)
    ensures unbound { IsRelinked code.old (unbound_links home (bounds_of code.old)) code.new }
{
    unbind_imports(home, &mut code.imports);
}

/// Unbinds every import in all code that leads to the module `home`.
pub fn unbind_codes(home: u32, codes: &mut Vec<ModuleCode>)
    ensures unbound { HasUnbound home codes.old.items codes.new.items }
{
    for code in codes.iter_mut() {
        unbind_code(home, code);
    }
}

/// The same of what one module is loaded with.
fn unbind_loaded(alloc: Global, home: u32, place: &mut Option<LoadedModule>)
    ensures unbound { place.new ≡ option_map (without_links home) place.old }
{
    if let Some(loaded) = place {
        unbind_links(alloc, home, &mut loaded.links);
    }
}

/// The same of what all modules are loaded with.
pub fn unbind_places(alloc: Global, home: u32, places: &mut Vec<Option<LoadedModule>>)
    ensures unbound { places.new.items ≡ unbound_in home places.old.items }
{
    for place in places.iter_mut() {
        unbind_loaded(alloc, home, place);
    }
}
