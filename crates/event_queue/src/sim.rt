//! The simulator.

ghost use Rattle.event_queue.specs.Holding.{IsSim};
ghost use Rattle.event_queue.specs.Propositions.{sim_one};

use crate::costs::{Costs, budget_of, costs_of};
use crate::offering::offer_all;
use crate::start::{Start, first_queue};
use crate::taking::{make_ready, take_event};
use event_model::law::policies_rest;
use event_model::policy::Policy;
use event_model::setting::Setting;
use event_tables::event_write::fanout::Fanout;
use event_tables::event_write::queue_state::QueueState;
use event_tables::fanout_of;
use event_tables::rtl_scan::levels;
use event_take::choice::Choice;
use event_take::places::{count, nth};
use event_take::policies::choose;
use rtl_bits::Vec4;
use rtl_flat::design::Design;
use rtl_flat::expr::SigId;
use std::alloc::Global;
use text_ground::memory::Memory;
use thiserror::Error;

/// The events of a step cost more than a step may cost, so it may be that it never settles.
#[derive(Clone, Copy, PartialEq, Eq, Debug, Error)]
#[error("the step did not settle")]
pub struct Unsettled;

/// A simulator of a design. Only `EventSim::new` and `EventSim::on` take memory, and an event costs time in what it changes and wakes.
#[derive(Drop)]
pub struct EventSim<'d> {
    fanout: Fanout<'d>,
    queue: QueueState,
    costs: Costs,
    /// What all events of one step may cost: each costs 1, and a run 1 more for each nonblocking assignment in its body.
    budget: u64,
    /// What is left of it.
    left: u64,
    /// Whether a step didn't settle.
    stuck: bool,
    ghost is_sim: { IsSim fanout queue costs budget left } by { sim_one fanout queue costs budget left },
}

impl<'d> EventSim<'d> {
    ghost use Rattle.std.specs.Prelude.{ℕ, ◌≡◌, ◌<◌, ◌≤◌, ◌+◌, [], false, true, length, map, slice_index_or, None, IfErr, IfOk, IsErr};
    ghost use Rattle.rtl_flat.specs.Levels.{IsLevel};
    ghost use Rattle.rtl_flat.specs.Process.{task};
    ghost use Rattle.event_model.specs.Order.{active, ready};
    ghost use Rattle.event_model.specs.Policies.{IsDone, IsTooDear, budget, cost};
    ghost use Rattle.event_model.specs.Queue.{IsAtRest, after, offer};
    ghost use Rattle.rtl_flat.specs.Flats.{flat};
    ghost use Rattle.event_take.specs.Taken.{IsAble, event_of};
    ghost use Rattle.event_queue.specs.Offers.{AreAllowed, set_of};
    ghost use Rattle.event_queue.specs.Starts.{IsStart, start_of};
    ghost use Rattle.event_queue.specs.Sims.{IsDearAt, IsSame, IsSimOf, IsTakenAt, Runs, flat_of, is_stuck, left_of, level_of, state_of, work};

    /// A simulator of a design that begins at a start. It fails only for want of memory.
    pub fn new(alloc: Global, design: &'d Design, start: &Start) -> Result<EventSim<'d>, Memory>
        requires { IsStart design.now start.now }
        ensures { IfOk result (λ sim. IsSimOf design.now (start_of (flat design.now) start.now)
            sim) }
    {
        let levels = levels(alloc, design)?;
        EventSim::on(alloc, design, &levels, start)
    }

    /// The same, where the levels of the design's processes are at hand: they serve many simulators.
    pub fn on(
        alloc: Global,
        design: &'d Design,
        levels: &[Option<u32>],
        start: &Start,
    ) -> Result<EventSim<'d>, Memory>
        requires start { IsStart design.now start.now }
        requires length { length levels.now ≡ length design.now.processes.items }
        requires each { (p : ℕ) → p < length design.now.processes.items
            → IsLevel design.now.signals.items (map task design.now.processes.items) p
            (slice_index_or levels.now p None) }
        ensures { IfOk result (λ sim. IsSimOf design.now (start_of (flat design.now) start.now)
            sim) }
    {
        let fanout = fanout_of(alloc, design)?;
        let costs = costs_of(alloc, design)?;
        let budget = budget_of(design, &costs);
        let levels = Vec::from_slice(alloc, levels)?;
        let room = (budget * costs.share) as usize;
        let queue = first_queue(alloc, design, start, &fanout.drivers, levels, room)?;
        Ok(EventSim {
            fanout,
            queue,
            costs,
            budget,
            left: budget,
            stuck: false,
        })
    }

    /// The value of a signal.
    pub fn value(&self, signal: SigId) -> Vec4
        requires there { signal.0 < length (flat_of self.now).signals }
        ensures { result ≡ (state_of self.now).value signal.0 }
    {
        self.queue.values[signal.0 as usize]
    }

    /// What an event costs.
    fn cost_of(&self, choice: Choice) -> u64
        requires able { IsAble (flat_of self.now) self.now.queue choice }
        ensures { result ≡ cost (flat_of self.now) (event_of choice) }
    {
        match choice {
            Choice::Input(_) => 1,
            Choice::Evaluate(_) => 1,
            Choice::Update(_) => 1,
            Choice::Run(process) => self.costs.runs[process.0 as usize],
            Choice::Delayed => 0,
        }
    }

    /// Takes an event that what is left pays for.
    fn take_paid(&mut self, choice: Choice)
        requires able { IsAble (flat_of self.old) self.old.queue choice }
        requires paid { cost (flat_of self.old) (event_of choice) ≤ left_of self.old }
        ensures state { state_of self.new
            ≡ ready (flat_of self.old) (after (flat_of self.old) (state_of self.old)
            (event_of choice)) }
        ensures left { left_of self.new + cost (flat_of self.old) (event_of choice)
            ≡ left_of self.old }
        ensures work { work self.new < work self.old }
        ensures same { IsSame self.old self.new }
        ensures stuck { is_stuck self.new ≡ is_stuck self.old }
    {
        let cost = self.cost_of(choice);
        self.left -= cost;
        take_event(&self.fanout, &mut self.queue, choice);
        make_ready(&self.fanout, &mut self.queue);
    }

    /// Takes the events that a policy takes, until none is active.
    fn settle(&mut self, policy: Policy) -> Result<(), Unsettled>
        requires free { is_stuck self.old ≡ false }
        ensures same { IsSame self.old self.new }
        ensures run { Runs policy (level_of self.old) (flat_of self.old) (state_of self.old)
            (left_of self.old) (state_of self.new) (left_of self.new) }
        ensures done { IfOk result (λ _.
            IsDone policy (level_of self.old) (flat_of self.old) (state_of self.new)) }
        ensures free { IfOk result (λ _. is_stuck self.new ≡ false) }
        ensures dear { IfErr result (λ _.
            IsTooDear policy (level_of self.old) (flat_of self.old) (state_of self.new)
            (left_of self.new)) }
        ensures stuck { IfErr result (λ _. is_stuck self.new ≡ true) }
    {
        while let Some(choice) = choose(policy, &self.fanout, &self.queue) {
            if self.cost_of(choice) > self.left {
                self.stuck = true;
                return Err(Unsettled);
            }
            self.take_paid(choice);
        }
        Ok(())
    }

    /// How many events are active.
    pub fn choices(&self) -> usize
        ensures { result ≡ length (active (flat_of self.now) (state_of self.now)) }
    {
        count(&self.fanout, &self.queue)
    }

    /// Takes the active event before which so many are. It answers `Unsettled` where that costs more than is left of the
    /// budget: then no later event is taken, and no step settles.
    pub fn take(&mut self, place: usize) -> Result<(), Unsettled>
        requires there { place < length (active (flat_of self.old) (state_of self.old)) }
        ensures same { IsSame self.old self.new }
        ensures free { IfOk result (λ _. (is_stuck self.old ≡ false)
            × (is_stuck self.new ≡ false)) }
        ensures taken { IfOk result (λ _. IsTakenAt place self.old self.new) }
        ensures stuck { IfErr result (λ _. is_stuck self.new ≡ true) }
        ensures dear { IfErr result (λ _. is_stuck self.old ≡ false → IsDearAt place self.old) }
        ensures stays { IfErr result (λ _. (state_of self.new ≡ state_of self.old)
            × (left_of self.new ≡ left_of self.old)) }
    {
        if self.stuck {
            return Err(Unsettled);
        }
        let choice = nth(&self.fanout, &self.queue, place);
        if self.cost_of(choice) > self.left {
            self.stuck = true;
            return Err(Unsettled);
        }
        self.take_paid(choice);
        Ok(())
    }

    /// Offers values to top inputs, each of which becomes the pending update of its input, and gives a step its budget.
    pub fn offer(&mut self, settings: &[Setting])
        requires allowed { AreAllowed (flat_of self.old) settings.now }
        requires activated { (state_of self.old).activated ≡ [] }
        requires delayed { (state_of self.old).delayed ≡ [] }
        ensures state { state_of self.new ≡ offer (state_of self.old) (map set_of settings.now) }
        ensures left { left_of self.new ≡ budget (flat_of self.old) }
        ensures same { IsSame self.old self.new }
        ensures stuck { is_stuck self.new ≡ is_stuck self.old }
    {
        offer_all(&self.fanout, &mut self.queue, settings);
        self.left = self.budget;
    }

    /// Offers values to top inputs, and takes the events that a policy takes until none is active. It answers `Unsettled`
    /// where the next one costs more than is left of the budget: then no later step settles, and nothing changes.
    pub fn step(&mut self, settings: &[Setting], policy: Policy) -> Result<(), Unsettled>
        requires allowed { AreAllowed (flat_of self.old) settings.now }
        requires settled { is_stuck self.old ≡ false → ((state_of self.old).activated ≡ [])
            × ((state_of self.old).delayed ≡ []) }
        ensures same { IsSame self.old self.new }
        ensures run { is_stuck self.old ≡ false
            → Runs policy (level_of self.old) (flat_of self.old)
            (offer (state_of self.old) (map set_of settings.now)) (budget (flat_of self.old))
            (state_of self.new) (left_of self.new) }
        ensures done { IfOk result (λ _.
            IsDone policy (level_of self.old) (flat_of self.old) (state_of self.new)) }
        ensures rest { IfOk result (λ _. IsAtRest (flat_of self.old) (state_of self.new)) }
        ensures free { IfOk result (λ _. (is_stuck self.old ≡ false)
            × (is_stuck self.new ≡ false)) }
        ensures dear { IfErr result (λ _. is_stuck self.old ≡ false
            → IsTooDear policy (level_of self.old) (flat_of self.old) (state_of self.new)
            (left_of self.new)) }
        ensures stuck { IfErr result (λ _. is_stuck self.new ≡ true) }
        ensures stays { is_stuck self.old ≡ true → IsErr result × (self.new ≡ self.old) }
    {
        if self.stuck {
            return Err(Unsettled);
        }
        self.offer(settings);
        policies_rest();
        self.settle(policy)
    }
}
