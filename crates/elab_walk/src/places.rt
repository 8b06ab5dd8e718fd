//! The places of processes, up to the one that is one too many.

ghost use Rattle.std.specs.Prelude.{◌≡◌, [], ◌∷◌, map};
ghost use Rattle.std.specs.Option.{option_map};
ghost use Rattle.rtl_tree.specs.TreeExpr.{formula};
ghost use Rattle.rtl_tree.specs.TreeItem.{associated, association, module_item, instantiation, positional};
ghost use Rattle.elab_parts.specs.Items.{item_places};
ghost use Rattle.elab_walk.specs.Rooms.{argument_places, connection_places, link_places, named_places, ordered_places, instantiation_places, process_places, sought_on};

use elab_parts::places::{count_of, place_at};
use rtl_tree::tree::expr::Expr;
use rtl_tree::tree::item::{Arguments, Instance, Item, NamedArgument, OrderedArgument};

/// The search for the process that is one too many.
#[derive(Clone, Copy, PartialEq, Eq, Debug)]
pub enum Seek {
    /// Its place.
    Found(u32),
    /// So many processes may still come.
    Left(u16),
}

/// The processes of an item, but for connections.
#[tactic(auto, using(crate::proofs::Seeking::sought_found, crate::proofs::Seeking::sought_left))]
fn seek_item(item: &Item, seek: Seek) -> Seek
    ensures { result ≡ sought_on seek (item_places (module_item item.now)) }
{
    match seek {
        Seek::Found(at) => Seek::Found(at),
        Seek::Left(most) => match place_at(item, usize::from(most)) {
            Some(at) => Seek::Found(at),
            None => Seek::Left((usize::from(most) - count_of(item)) as u16),
        },
    }
}

/// One process more.
fn seek_one(at: u32, seek: Seek) -> Seek
    ensures { result ≡ sought_on seek (at ∷ []) }
{
    match seek {
        Seek::Found(at) => Seek::Found(at),
        Seek::Left(0) => Seek::Found(at),
        Seek::Left(most) => Seek::Left(most - 1),
    }
}

/// An empty argument connects nothing.
fn seek_argument(at: u32, value: &Option<Expr>, seek: Seek) -> Seek
    ensures { result ≡ sought_on seek (argument_places at (option_map formula value.now)) }
{
    match value {
        None => seek,
        Some(_) => seek_one(at, seek),
    }
}

#[tactic(auto, using(crate::proofs::Seeking::sought_append))]
fn seek_ordered(arguments: &[OrderedArgument], seek: Seek) -> Seek
    ensures { result ≡ sought_on seek (ordered_places (map positional arguments.now)) }
{
    let mut seek = seek;
    for argument in arguments {
        seek = seek_argument(argument.at, &argument.value, seek);
    }
    seek
}

#[tactic(auto, using(crate::proofs::Seeking::sought_append))]
fn seek_named(arguments: &[NamedArgument], seek: Seek) -> Seek
    ensures { result ≡ sought_on seek (named_places (map associated arguments.now)) }
{
    let mut seek = seek;
    for argument in arguments {
        seek = seek_argument(argument.at, &argument.value, seek);
    }
    seek
}

fn seek_connections(connections: &Arguments, seek: Seek) -> Seek
    ensures { result ≡ sought_on seek (connection_places (association connections.now)) }
{
    match connections {
        Arguments::Ordered(arguments) => seek_ordered(arguments, seek),
        Arguments::Named(arguments) => seek_named(arguments, seek),
    }
}

#[tactic(auto, using(crate::proofs::Seeking::sought_append))]
fn seek_instantiations(instances: &[Instance], seek: Seek) -> Seek
    ensures { result ≡ sought_on seek (instantiation_places (map instantiation instances.now)) }
{
    let mut seek = seek;
    for instance in instances {
        seek = seek_connections(&instance.connections, seek);
    }
    seek
}

fn seek_links(item: &Item, seek: Seek) -> Seek
    ensures { result ≡ sought_on seek (link_places (module_item item.now)) }
{
    match item {
        Item::Instances { instances, .. } => seek_instantiations(instances, seek),
        Item::Ports(_, _)
        | Item::Wires { .. }
        | Item::Regs { .. }
        | Item::Integers(_, _)
        | Item::Parameters { .. }
        | Item::Assigns(_, _, _)
        | Item::Gates { .. }
        | Item::Always(_, _, _) => seek,
    }
}

/// The processes of items, one after the other.
#[tactic(auto, using(crate::proofs::Seeking::sought_append))]
pub(crate) fn seek_all(items: &[Item], seek: Seek) -> Seek
    ensures { result ≡ sought_on seek (process_places (map module_item items.now)) }
{
    let mut seek = seek;
    for item in items {
        seek = seek_links(item, seek_item(item, seek));
    }
    seek
}
