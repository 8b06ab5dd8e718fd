//! The rules and their table.

ghost use Rattle.std.specs.Prelude.{◌≡◌, true, false};
ghost use Rattle.rtl_rule.specs.Rows.{is_needed, row_of, rule_with};

/// A rule of the desk, in the order of the table.
#[derive(Clone, Copy, PartialEq, Eq, Debug)]
pub enum Rule {
    /// A process with a level list that leaves out a signal it reads.
    SenseMissing,
    /// A process with a level list that nothing can wake.
    NeverWakes,
    /// A process with an edge whose list has an item without one.
    MixedEdges,
    /// A blocking assignment to a variable of a clocked process that isn't a temporary.
    BlockingState,
    /// A nonblocking assignment in a process with a level list.
    NonblockingComb,
    /// A variable that a process assigns in both ways.
    MixedAssign,
    /// A signal with a bit that several processes drive.
    SeveralDrivers,
    /// A signal with a bit that nothing drives.
    Undriven,
    /// A process on a cycle without a register.
    CombLoop,
    /// An edge of a signal that isn't a top input passed on, or of one that has two roles.
    DerivedClock,
    /// A clock or reset that is read as data.
    ClockAsData,
    /// A variable with a bit that some path of a process with a level list leaves.
    LatchInferred,
    /// A literal with a z bit.
    Tristate,
    /// Several events over a body that isn't the chain of resets.
    ResetShape,
    /// A reset that is tested against its edge.
    ResetPolarity,
    /// A process with several asynchronous resets.
    AsyncPair,
    /// A reset branch that doesn't give each register one constant.
    ResetValue,
    /// A case that says `full_case` and isn't complete.
    FullCase,
    /// A case that says `parallel_case` and has items that aren't shown disjoint.
    ParallelCase,
    /// A label with a bit that never matches.
    UnknownItem,
    /// A literal with an x bit.
    UnknownLiteral,
    /// A bit-select that may lie outside its signal.
    SelectRange,
    /// A divisor that isn't a constant power of two.
    DivideVariable,
    /// `===` or `!==`.
    CaseEquality,
    /// A delay.
    DelayIgnored,
    /// An `initial`.
    InitialIgnored,
    /// A region that `translate_off` hides.
    TranslateOff,
    /// A condition, a selector, labels or an index that may read x.
    XOptimism,
    /// The selector or labels of a `casez` or `casex` that may read x.
    WildSelector,
    /// An expression whose parameters have another format or value by the standard.
    ParameterFormat,
    /// A constant expression that has another value by the standard.
    ConstantValue,
    /// An argument that is narrower than its port, and that is extended before or after it is worked out.
    PortContext,
    /// A case whose selector and labels are extended by one sign or another.
    CaseSigns,
    /// A part of a concatenated target with a computed index.
    TargetIndex,
    /// An item of a list, without an edge, with a computed index.
    ListIndex,
    /// A condition on a name that a tool defines, or another file.
    ToolMacro,
    /// A comment that is worded like a pragma and tells the desk nothing.
    PragmaWords,
    /// A number without a width where its width counts.
    UnsizedNumber,
    /// A port that is signed in one of its two declarations.
    PortSign,
    /// An argument that names a parameter which is declared behind it.
    LateParameter,
    /// A part-select of all bits of a signed signal that is an amount or an index.
    WholeSelect,
    /// The start or the step of a loop without a sign.
    LoopSign,
}

/// All rules, in the order of the table.
pub const RULES: [Rule; 42] = [
    Rule::SenseMissing,
    Rule::NeverWakes,
    Rule::MixedEdges,
    Rule::BlockingState,
    Rule::NonblockingComb,
    Rule::MixedAssign,
    Rule::SeveralDrivers,
    Rule::Undriven,
    Rule::CombLoop,
    Rule::DerivedClock,
    Rule::ClockAsData,
    Rule::LatchInferred,
    Rule::Tristate,
    Rule::ResetShape,
    Rule::ResetPolarity,
    Rule::AsyncPair,
    Rule::ResetValue,
    Rule::FullCase,
    Rule::ParallelCase,
    Rule::UnknownItem,
    Rule::UnknownLiteral,
    Rule::SelectRange,
    Rule::DivideVariable,
    Rule::CaseEquality,
    Rule::DelayIgnored,
    Rule::InitialIgnored,
    Rule::TranslateOff,
    Rule::XOptimism,
    Rule::WildSelector,
    Rule::ParameterFormat,
    Rule::ConstantValue,
    Rule::PortContext,
    Rule::CaseSigns,
    Rule::TargetIndex,
    Rule::ListIndex,
    Rule::ToolMacro,
    Rule::PragmaWords,
    Rule::UnsizedNumber,
    Rule::PortSign,
    Rule::LateParameter,
    Rule::WholeSelect,
    Rule::LoopSign,
];

/// What the table says of a rule.
#[derive(Clone, Copy, PartialEq, Eq, Debug)]
pub struct Row {
    /// By which reports name the rule first.
    pub code: &'static str,
    pub name: &'static str,
    /// A design with a finding of it isn't clean.
    pub first_grade: bool,
    /// A waiver may set a finding of it aside.
    pub waivable: bool,
    /// Agreement stands on it.
    pub needed: bool,
}

// A rule of the first grade, which may be waived, and on which agreement stands.
fn usual(code: &'static str, name: &'static str) -> Row
    ensures code { result.code.now ≡ code.now }
    ensures name { result.name.now ≡ name.now }
    ensures first_grade { result.first_grade ≡ true }
    ensures needed { result.needed ≡ true }
    ensures waivable { result.waivable ≡ true }
{
    Row {
        code,
        name,
        first_grade: true,
        waivable: true,
        needed: true,
    }
}

// Such a rule, which is never waived.
fn strict(code: &'static str, name: &'static str) -> Row
    ensures code { result.code.now ≡ code.now }
    ensures name { result.name.now ≡ name.now }
    ensures first_grade { result.first_grade ≡ true }
    ensures needed { result.needed ≡ true }
    ensures waivable { result.waivable ≡ false }
{
    Row {
        code,
        name,
        first_grade: true,
        waivable: false,
        needed: true,
    }
}

// A rule of the first grade, which may be waived, and on which agreement doesn't stand.
fn apart(code: &'static str, name: &'static str) -> Row
    ensures code { result.code.now ≡ code.now }
    ensures name { result.name.now ≡ name.now }
    ensures first_grade { result.first_grade ≡ true }
    ensures needed { result.needed ≡ false }
    ensures waivable { result.waivable ≡ true }
{
    Row {
        code,
        name,
        first_grade: true,
        waivable: true,
        needed: false,
    }
}

// A rule of the second grade, which may be waived.
fn second(code: &'static str, name: &'static str) -> Row
    ensures code { result.code.now ≡ code.now }
    ensures name { result.name.now ≡ name.now }
    ensures first_grade { result.first_grade ≡ false }
    ensures needed { result.needed ≡ false }
    ensures waivable { result.waivable ≡ true }
{
    Row {
        code,
        name,
        first_grade: false,
        waivable: true,
        needed: false,
    }
}

impl Rule {
    ghost use Rattle.rtl_rule.specs.Rows.{rule_number};

    /// The row of the rule.
    pub fn row(self) -> Row
        ensures code { result.code.now ≡ (row_of self).code }
        ensures name { result.name.now ≡ (row_of self).name }
        ensures first_grade { result.first_grade ≡ (row_of self).first_grade }
        ensures waivable { result.waivable ≡ (row_of self).waivable }
        ensures needed { result.needed ≡ (row_of self).needed }
    {
        match self {
            Rule::SenseMissing => usual("S1", "SenseMissing"),
            Rule::NeverWakes => usual("S2", "NeverWakes"),
            Rule::MixedEdges => usual("S3", "MixedEdges"),
            Rule::BlockingState => usual("A1", "BlockingState"),
            Rule::NonblockingComb => usual("A2", "NonblockingComb"),
            Rule::MixedAssign => usual("A3", "MixedAssign"),
            Rule::SeveralDrivers => strict("A4", "SeveralDrivers"),
            Rule::Undriven => usual("A5", "Undriven"),
            Rule::CombLoop => strict("A6", "CombLoop"),
            Rule::DerivedClock => usual("A7", "DerivedClock"),
            Rule::ClockAsData => usual("A8", "ClockAsData"),
            Rule::LatchInferred => usual("L1", "LatchInferred"),
            Rule::Tristate => usual("Z1", "Tristate"),
            Rule::ResetShape => usual("R1", "ResetShape"),
            Rule::ResetPolarity => usual("R2", "ResetPolarity"),
            Rule::AsyncPair => usual("R3", "AsyncPair"),
            Rule::ResetValue => usual("R4", "ResetValue"),
            Rule::FullCase => usual("C1", "FullCase"),
            Rule::ParallelCase => usual("C2", "ParallelCase"),
            Rule::UnknownItem => apart("C3", "UnknownItem"),
            Rule::UnknownLiteral => usual("X1", "UnknownLiteral"),
            Rule::SelectRange => usual("X2", "SelectRange"),
            Rule::DivideVariable => usual("X3", "DivideVariable"),
            Rule::CaseEquality => apart("X4", "CaseEquality"),
            Rule::DelayIgnored => apart("D1", "DelayIgnored"),
            Rule::InitialIgnored => apart("D2", "InitialIgnored"),
            Rule::TranslateOff => apart("D3", "TranslateOff"),
            Rule::XOptimism => second("U1", "XOptimism"),
            Rule::WildSelector => second("U2", "WildSelector"),
            Rule::ParameterFormat => apart("P1", "ParameterFormat"),
            Rule::ConstantValue => apart("P2", "ConstantValue"),
            Rule::PortContext => apart("P3", "PortContext"),
            Rule::CaseSigns => apart("P4", "CaseSigns"),
            Rule::TargetIndex => apart("P5", "TargetIndex"),
            Rule::ListIndex => apart("P6", "ListIndex"),
            Rule::ToolMacro => apart("P7", "ToolMacro"),
            Rule::PragmaWords => apart("P8", "PragmaWords"),
            Rule::UnsizedNumber => apart("P9", "UnsizedNumber"),
            Rule::PortSign => apart("P10", "PortSign"),
            Rule::LateParameter => apart("P11", "LateParameter"),
            Rule::WholeSelect => apart("P12", "WholeSelect"),
            Rule::LoopSign => apart("P13", "LoopSign"),
        }
    }

    // Its place among the rules.
    pub(crate) fn number(self) -> u32
        ensures { result ≡ rule_number self }
    {
        self as u32
    }
}

/// Whether a design with a finding of the rule isn't clean.
pub fn first_grade(rule: Rule) -> bool
    ensures { result ≡ (row_of rule).first_grade }
{
    rule.row().first_grade
}

/// Whether a waiver may set a finding of the rule aside.
pub fn waivable(rule: Rule) -> bool
    ensures { result ≡ (row_of rule).waivable }
{
    rule.row().waivable
}

/// Whether agreement stands on the rule.
pub fn needed(rule: Rule) -> bool
    ensures { result ≡ is_needed rule }
{
    rule.row().needed
}

/// The rule that has a code, as `A4`; None where none has it.
pub fn rule_of(code: &[u8]) -> Option<Rule>
    ensures { result ≡ rule_with code.now }
{
    for rule in RULES {
        if rule.row().code.as_bytes() == code {
            return Some(rule);
        }
    }
    None
}
