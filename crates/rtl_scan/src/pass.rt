// The statements of a body, each read once.

ghost use Rattle.std.specs.Prelude.{◌≡◌, [], ◌∷◌, map, OnOk, IfOk};
ghost use Rattle.rtl_flat.specs.Signs.{width_in};
ghost use Rattle.rtl_flat.specs.Expression.{tree};
ghost use Rattle.rtl_flat.specs.Process.{action, body_of, Without};
ghost use Rattle.rtl_flat.specs.Paths.{End, Last, Fork, More};
ghost use Rattle.rtl_flat.specs.Flows.{action_then, body_flow, other_flow, ways, way_past, is_complete};
ghost use Rattle.rtl_scan.specs.Scan.{FlowScanned, WaysScanned, FlowAlso, ItemsAlso};
ghost use Rattle.rtl_scan.specs.Bodies.{branches_of, other_of};

use crate::bits::Row;
use crate::complete::is_complete;
use crate::scan::{Sets, common};
use crate::steps::{Pass, commit, restore};
use rtl_flat::act::{Act, CaseItem, CaseKind};
use rtl_flat::expr::SizedExpr;
use text_ground::memory::Memory;

impl<'d> Pass<'d> {
    /// Scans statements. The log gets what they surely write and none before them did.
    #[cycle(pass)]
    pub(crate) fn statements(
        &self,
        acts: &[Act],
        sets: &mut Sets,
        log: &mut Vec<Row>,
    ) -> Result<(), Memory>
        ensures { OnOk result (FlowScanned self.now.counted
            (body_flow (width_in self.now.widths.signals.now) (body_of (map action acts.now)))
            sets.old log.old.items sets.new log.new.items) }
    {
        for act in acts {
            self.statement(act, sets, log)?;
        }
        Ok(())
    }

    #[cycle(pass)]
    fn statement(&self, act: &Act, sets: &mut Sets, log: &mut Vec<Row>) -> Result<(), Memory>
        ensures { OnOk result (FlowScanned self.now.counted
            (action_then (width_in self.now.widths.signals.now) (action act.now) End) sets.old
            log.old.items sets.new log.new.items) }
    {
        match act {
            Act::Set {
                target,
                value,
                delayed,
                spot: _,
            } => { self.assign(&target.parts, value, *delayed, sets, log) }
            Act::If {
                test,
                yes,
                no,
                spot: _,
            } => {
                self.read(test, sets)?;
                let kept = self.branches(yes, no, sets)?;
                commit(&kept, sets, log)
            }
            Act::Case {
                kind,
                full,
                parallel: _,
                selector,
                items,
                fallback,
                spot: _,
            } => {
                self.read_case(selector, items, sets)?;
                let complete = self.completes(*kind, *full, selector, items, fallback)?;
                let kept = self.cases(complete, fallback, items, sets)?;
                commit(&kept, sets, log)
            }
            Act::Block(body) => self.statements(body, sets, log),
        }
    }

    /// What both branches of an `if` surely write.
    #[cycle(pass)]
    fn branches(
        &self,
        yes: &[Act],
        no: &Option<Vec<Act>>,
        sets: &mut Sets,
    ) -> Result<Vec<Row>, Memory>
        ensures { IfOk result (λ kept.
            WaysScanned self.now.counted (More
            (other_flow (width_in self.now.widths.signals.now) (other_of no.now))
            (Last (body_flow (width_in self.now.widths.signals.now)
            (body_of (map action yes.now))))) sets.old sets.new kept.items) }
    {
        let kept = self.other_way(no, sets)?;
        self.also_way(yes, &kept, sets)
    }

    #[cycle(pass)]
    fn other_way(&self, no: &Option<Vec<Act>>, sets: &mut Sets) -> Result<Vec<Row>, Memory>
        ensures { IfOk result (λ kept.
            WaysScanned self.now.counted (Last
            (other_flow (width_in self.now.widths.signals.now) (other_of no.now))) sets.old sets.new
            kept.items) }
    {
        match no {
            Some(body) => self.way(body, sets),
            None => Ok(Vec::new(self.alloc)),
        }
    }

    /// What all ways of a case surely write.
    #[cycle(pass)]
    fn cases(
        &self,
        complete: bool,
        fallback: &Option<Vec<Act>>,
        items: &[CaseItem],
        sets: &mut Sets,
    ) -> Result<Vec<Row>, Memory>
        ensures { IfOk result (λ kept.
            WaysScanned self.now.counted (ways (width_in self.now.widths.signals.now)
            (way_past (width_in self.now.widths.signals.now) complete (other_of fallback.now))
            (branches_of items.now)) sets.old sets.new kept.items) }
    {
        match fallback {
            Some(body) => {
                let kept = self.way(body, sets)?;
                self.also_items(items, kept, sets)
            }
            None => self.items_alone(complete, items, sets),
        }
    }

    /// What all ways of a case without `default` surely write.
    #[cycle(pass)]
    fn items_alone(
        &self,
        complete: bool,
        items: &[CaseItem],
        sets: &mut Sets,
    ) -> Result<Vec<Row>, Memory>
        ensures { IfOk result (λ kept.
            WaysScanned self.now.counted (ways (width_in self.now.widths.signals.now)
            (way_past (width_in self.now.widths.signals.now) complete Without)
            (branches_of items.now)) sets.old sets.new kept.items) }
    {
        if !complete {
            return self.also_items(items, Vec::new(self.alloc), sets);
        }
        match items.split_first() {
            Some((first, others)) => {
                let kept = self.way(&first.body, sets)?;
                self.also_items(others, kept, sets)
            }
            None => Ok(Vec::new(self.alloc)),
        }
    }

    /// What the items of a case surely write of what is kept.
    #[cycle(pass)]
    fn also_items(
        &self,
        items: &[CaseItem],
        mut kept: Vec<Row>,
        sets: &mut Sets,
    ) -> Result<Vec<Row>, Memory>
        ensures { IfOk result (λ left.
            ItemsAlso self.now.counted (width_in self.now.widths.signals.now)
            (branches_of items.now) sets.old kept.items sets.new left.items) }
    {
        for item in items {
            kept = self.also_way(&item.body, &kept, sets)?;
        }
        Ok(kept)
    }

    /// What a way of a fork surely writes. It isn't written on the other ways.
    #[cycle(pass)]
    fn way(&self, body: &[Act], sets: &mut Sets) -> Result<Vec<Row>, Memory>
        ensures { IfOk result (λ kept.
            WaysScanned self.now.counted (Last
            (body_flow (width_in self.now.widths.signals.now) (body_of (map action body.now))))
            sets.old sets.new kept.items) }
    {
        let mut log = Vec::new(self.alloc);
        self.statements(body, sets, &mut log)?;
        restore(&log, sets)?;
        Ok(log)
    }

    /// What a further way surely writes of what those before it do.
    #[cycle(pass)]
    fn also_way(&self, body: &[Act], kept: &[Row], sets: &mut Sets) -> Result<Vec<Row>, Memory>
        ensures { IfOk result (λ left.
            FlowAlso self.now.counted (body_flow (width_in self.now.widths.signals.now)
            (body_of (map action body.now))) sets.old kept.now sets.new left.items) }
    {
        let mut log = Vec::new(self.alloc);
        self.statements(body, sets, &mut log)?;
        let both = common(self.alloc, &sets.done, kept)?;
        restore(&log, sets)?;
        Ok(both)
    }

    /// Whether a case without `default` is complete.
    fn completes(
        &self,
        kind: CaseKind,
        full: bool,
        selector: &SizedExpr,
        items: &[CaseItem],
        fallback: &Option<Vec<Act>>,
    ) -> Result<bool, Memory>
        ensures { IfOk result (λ complete.
            way_past (width_in self.now.widths.signals.now) complete (other_of fallback.now)
            ≡ way_past (width_in self.now.widths.signals.now)
            (is_complete (width_in self.now.widths.signals.now) kind full (tree selector.now)
            (branches_of items.now)) (other_of fallback.now)) }
    {
        match fallback {
            Some(_) => Ok(true),
            None => is_complete(self.alloc, &self.widths, kind, full, selector, items),
        }
    }
}
