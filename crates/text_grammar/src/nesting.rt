// How deep the expressions and statements of a module are nested.

ghost use Rattle.std.specs.Prelude.{◌≡◌, ◌-◌, ◌^◌, map, max, min};
ghost use Rattle.std.specs.Option.{option_map};
ghost use Rattle.text_grammar.specs.Depth.{depth, greatest, header_depth, header_parameter_depth, header_port_depth};
ghost use Rattle.rtl_tree.specs.TreeModule.{header, header_parameter, header_port, written_circuit};

use crate::nesting::exprs::{expr_depth, range_depth};
use crate::nesting::items::optional_head_depth;
use crate::nesting::written::items_depth;
use rtl_tree::tree::modules::{HeadParameter, HeadPort, PortList, WrittenModule};

/// How deep expressions and statements may be nested.
pub const MAX_NESTING: u32 = 200;

pub(crate) mod exprs;
pub(crate) mod gates;
pub(crate) mod items;
pub(crate) mod stmts;
pub(crate) mod written;

fn head_parameter_depth(parameter: &HeadParameter) -> u32
    ensures { result ≡ min (header_parameter_depth (header_parameter parameter.now)) (2 ^ 32 - 1) }
{
    let value = expr_depth(&parameter.value);
    match &parameter.head {
        Some(head) => range_depth(&head.range).max(value),
        None => value,
    }
}

fn head_parameters_depth(all: &[HeadParameter]) -> u32
    ensures { result ≡ min (greatest header_parameter_depth (map header_parameter all.now))
        (2 ^ 32 - 1) }
{
    let mut most = 0;
    for parameter in all {
        most = head_parameter_depth(parameter).max(most);
    }
    most
}

fn head_ports_depth(all: &[HeadPort]) -> u32
    ensures { result ≡ min (greatest header_port_depth (map header_port all.now)) (2 ^ 32 - 1) }
{
    let mut most = 0;
    for port in all {
        most = optional_head_depth(&port.head).max(most);
    }
    most
}

fn port_list_depth(ports: &PortList) -> u32
    ensures { result ≡ min (header_depth (header ports.now)) (2 ^ 32 - 1) }
{
    match ports {
        PortList::Absent | PortList::Empty | PortList::Named(_) => 0,
        PortList::Declared(all) => head_ports_depth(all),
    }
}

/// How deep the expressions and statements of the module are nested: one that stands directly in an item or in the
/// head has depth 1, and what stands in another is one deeper than it. Numbers stop at the greatest u32.
pub fn depth(m: &WrittenModule) -> u32
    ensures { result ≡ min (depth (written_circuit m.now)) (2 ^ 32 - 1) }
{
    let heads = head_parameters_depth(&m.parameters).max(port_list_depth(&m.ports));
    heads.max(items_depth(&m.items))
}
