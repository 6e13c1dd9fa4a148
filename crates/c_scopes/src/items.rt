//! What items, locals and parameters declare.
ghost use Rattle.std.specs.Prelude.{◌≡◌};
ghost use Rattle.c_scopes.specs.Declarations.{class_of, declaration_of, entity_of, local, item_name, token_of};

use crate::declaration::{Binding, Declaration, Entity};
use aegis_num::Name;
use c_grammar::{Item, Kind3, Storage};
use regions::Class;

/// The class of a kept object.
pub fn class_of(storage: Storage) -> Class
    ensures { result ≡ class_of storage }
{
    match storage {
        Storage::Verified => Class::Verified,
        Storage::Private => Class::Private,
        Storage::Shared => Class::Open,
        Storage::Logged => Class::Logged,
    }
}

/// What an item stands for.
pub fn entity_of(item: &Item) -> Entity
    ensures { result ≡ entity_of item.now }
{
    match item {
        Item::Object {
            class,
            unsigned,
            length,
            ..
        } => Entity::Object {
            class: class_of(*class),
            unsigned: *unsigned,
            length: *length,
        },
        Item::Constant {
            unsigned,
            length,
            ..
        } => Entity::Object {
            class: Class::Constant,
            unsigned: *unsigned,
            length: *length,
        },
        Item::Untrusted { .. } => Entity::Function {
            result: Kind3::Void,
            untrusted: true,
            parameters: 0,
        },
        Item::Function { result, params, .. } => Entity::Function {
            result: *result,
            untrusted: false,
            parameters: params.len(),
        },
    }
}

/// The name of an item.
pub fn name_of(item: &Item) -> &Name
    ensures { result.now ≡ item_name item.now }
{
    match item {
        Item::Object { name, .. }
        | Item::Constant { name, .. }
        | Item::Untrusted { name, .. }
        | Item::Function { name, .. } => name,
    }
}

/// The token of the name of an item.
pub fn token_of(item: &Item) -> u32
    ensures { result ≡ token_of item.now }
{
    match item {
        Item::Object { token, .. }
        | Item::Constant { token, .. }
        | Item::Untrusted { token, .. }
        | Item::Function { token, .. } => *token,
    }
}

/// What an item declares.
pub fn declaration_of(item: &Item) -> Declaration
    ensures { result ≡ declaration_of item.now }
{
    Declaration {
        name: *name_of(item),
        binding: Binding {
            token: token_of(item),
            entity: entity_of(item),
        },
    }
}

/// What a local or a parameter declares.
pub fn local(unsigned: bool, name: &Name, token: u32) -> Declaration
    ensures { result ≡ local unsigned name.now token }
{
    Declaration {
        name: *name,
        binding: Binding {
            token,
            entity: Entity::Local { unsigned },
        },
    }
}
