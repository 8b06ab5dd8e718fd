//! Laws of elaboration: in a scope whose names stand for signals of a design, what is without faults is lawful there.

ghost use Rattle.elab_laws.specs.Laws.{BodyLaw, CombLaw, ContinuousLaw, CountLaw, EdgeLaw, EventsLaw, InputLaw, LimitLaw, ListLaw, NodesLaw, OutputLaw, ProceduralLaw, ReadLaw, SignalsLaw, SizesLaw, TurnLaw};

/// Signals of a design have from 1 to 128 bits.
pub fn signals()
    ensures { SignalsLaw }
{}

/// An expression without faults has the sizes and the signs of the standard.
pub fn sizes()
    ensures { SizesLaw }
{}

/// The nodes that are counted of an expression are those that it has in the design.
pub fn nodes()
    ensures { NodesLaw }
{}

/// A continuous assignment without faults is a process of the design.
pub fn continuous()
    ensures { ContinuousLaw }
{}

/// An assignment in a statement, without faults, is an assignment to variables of the design.
pub fn procedural()
    ensures { ProceduralLaw }
{}

/// A sensitivity list without faults is lawful: one without edges, and one with an edge.
pub fn lists()
    ensures without_edges { ListLaw }
    ensures with_an_edge { EventsLaw }
{}

/// A body without faults is a body of the design, in each turn of its loops too.
pub fn bodies()
    ensures in_turns { TurnLaw }
    ensures lawful { BodyLaw }
{}

/// A body has no more statements than are counted, and where nothing is told, no more are counted than are allowed.
pub fn counts()
    ensures counted { CountLaw }
    ensures allowed { LimitLaw }
{}

/// An `always` without faults is a process of the design.
pub fn always()
    ensures without_edges { CombLaw }
    ensures with_an_edge { EdgeLaw }
{}

/// The connection of a port is a process of the design, where its argument is without faults.
pub fn connections()
    ensures reads { ReadLaw }
    ensures inputs { InputLaw }
    ensures outputs { OutputLaw }
{}
