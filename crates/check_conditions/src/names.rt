// The names that tools define.

ghost use Rattle.std.specs.Prelude.{◌≡◌};
ghost use Rattle.std.specs.List.{list_any};
ghost use Rattle.std.specs.Str.{bytes_eq};
ghost use Rattle.check_conditions.specs.ToolNames.{is_tool_name, seen_names, simulator_names, synthesis_names};

fn is_seen(name: &[u8]) -> bool
    ensures { result ≡ list_any (bytes_eq name.now) seen_names }
{
    name == b"__ICARUS__".as_slice()
        || name == b"__VAMS_ENABLE__".as_slice()
        || name == b"YOSYS".as_slice()
        || name == b"VERILATOR".as_slice()
        || name == b"verilator".as_slice()
        || name == b"verilator3".as_slice()
        || name == b"coverage_block_off".as_slice()
        || name == b"SYSTEMVERILOG".as_slice()
}

fn is_simulator(name: &[u8]) -> bool
    ensures { result ≡ list_any (bytes_eq name.now) simulator_names }
{
    name == b"MODEL_TECH".as_slice()
        || name == b"QUESTA".as_slice()
        || name == b"VCS".as_slice()
        || name == b"INCA".as_slice()
        || name == b"NCVERILOG".as_slice()
        || name == b"XCELIUM".as_slice()
        || name == b"_VCP".as_slice()
        || name == b"XILINX_ISIM".as_slice()
        || name == b"XILINX_SIMULATOR".as_slice()
}

fn is_synthesis(name: &[u8]) -> bool
    ensures { result ≡ list_any (bytes_eq name.now) synthesis_names }
{
    name == b"__XST__".as_slice()
        || name == b"ALTERA_RESERVED_QIS".as_slice()
        || name == b"DC".as_slice()
        || name == b"SYNPLIFY".as_slice()
}

/// Whether a tool defines the name.
pub(crate) fn is_tool_name(name: &[u8]) -> bool
    ensures { result ≡ is_tool_name name.now }
{
    is_seen(name) || is_simulator(name) || is_synthesis(name) || name.starts_with(b"SV_COV_")
}
