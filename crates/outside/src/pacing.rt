//! How much background work is done between commands.

ghost use Rattle.std.specs.Prelude.{◌≡◌, Some, None, map, drop, List, [], ℕ, false, true};
ghost use Rattle.outside.specs.Pacing.{PacerSeen, tuned, cut, Paces, SaysSpent, Conducts, following};

/// How many steps of each kind of background work are to be done.
#[derive(Clone, Copy, Debug, PartialEq, Eq)]
pub struct Plan {
    pub rehash: u32,
    pub defrag: u32,
    pub expire: u32,
}

impl Plan {
    /// No steps.
    const NONE: Plan = Plan {
        rehash: 0,
        defrag: 0,
        expire: 0,
    };

    // The plan with each number cut at 1,000.
    fn cut(self) -> Plan
        ensures { result ≡ cut self }
    {
        Plan {
            rehash: self.rehash.min(1_000),
            defrag: self.defrag.min(1_000),
            expire: self.expire.min(1_000),
        }
    }
}

/// What plans background work.
pub trait Pacer: Drop {
    // What is told of it.
    ghost pacing: { Self → PacerSeen };

    /// Sets the effort that its plans may follow.
    fn tune(&mut self, effort: u32)
        ensures { pacing self.new ≡ tuned (pacing self.old) effort };

    /// The next plan: three zeros where it is spent.
    fn plan(&mut self) -> Plan
        ensures { Paces (pacing self.old) result (pacing self.new) };

    /// Whether no plan follows.
    fn spent(&self) -> bool
        ensures { SaysSpent (pacing self.now).plans result };
}

/// A pacer of a list of plans.
#[derive(Drop)]
pub struct ListPacer {
    plans: Vec<Plan>,
    at: usize,
    effort: u32,
}

impl ListPacer {
    /// A pacer of these plans, with an effort of 0.
    pub fn new(plans: Vec<Plan>) -> ListPacer
        ensures { ⟦<ListPacer as Pacer>⟧.pacing result ≡ record { effort = 0; plans = Some (record { left = plans.items; goes_on = false }) } }
    {
        ListPacer {
            plans,
            at: 0,
            effort: 0,
        }
    }
}

impl Pacer for ListPacer {
    ghost pacing = { λ p. record { effort = p.effort; plans = Some (record { left = drop p.at p.plans.items; goes_on = false }) } };

    fn tune(&mut self, effort: u32) {
        self.effort = effort;
    }

    fn plan(&mut self) -> Plan {
        match self.plans.get(self.at) {
            Some(plan) => {
                self.at += 1;
                *plan
            }
            None => Plan::NONE,
        }
    }

    fn spent(&self) -> bool {
        self.plans.get(self.at).is_none()
    }
}

/// A pacer that is never spent, and plans as many steps of each kind as its effort.
#[derive(Drop)]
pub struct SteadyPacer {
    effort: u32,
}

impl SteadyPacer {
    /// A pacer with an effort of 0.
    pub fn new() -> SteadyPacer
        ensures { ⟦<SteadyPacer as Pacer>⟧.pacing result ≡ record { effort = 0; plans = Some (record { left = []; goes_on = true }) } }
    {
        SteadyPacer { effort: 0 }
    }
}

impl Pacer for SteadyPacer {
    ghost pacing = { λ p. record { effort = p.effort; plans = Some (record { left = []; goes_on = true }) } };

    fn tune(&mut self, effort: u32) {
        self.effort = effort;
    }

    fn plan(&mut self) -> Plan {
        Plan {
            rehash: self.effort,
            defrag: self.effort,
            expire: self.effort,
        }
    }

    fn spent(&self) -> bool {
        false
    }
}

// Sets a pacer's effort.
fn tune_one(pacer: &mut Box<dyn Pacer>, effort: u32)
    ensures { pacing pacer.new ≡ tuned (pacing pacer.old) effort }
{
    pacer.tune(effort);
}

// Whether no plan of a pacer follows.
fn is_spent(pacer: &Box<dyn Pacer>) -> bool
    ensures { SaysSpent (pacing pacer.now).plans result }
{
    pacer.spent()
}

// The next plan of a pacer.
fn plan_of(pacer: &mut Box<dyn Pacer>) -> Plan
    ensures { Paces (pacing pacer.old) result (pacing pacer.new) }
{
    pacer.plan()
}

/// Pacers that are asked one after the other.
#[derive(Drop)]
pub struct Conductor {
    pacers: Vec<Box<dyn Pacer>>,
    front: usize,
}

impl Conductor {
    /// A conductor over these pacers, each of which is tuned to this effort.
    pub fn new(pacers: Vec<Box<dyn Pacer>>, effort: u32) -> Conductor
        ensures { following (λ p. pacing p) result ≡ map (λ p. tuned (pacing p) effort) pacers.items }
    {
        let mut pacers = pacers;
        for at in 0..pacers.len() {
            tune_one(&mut pacers[at], effort);
        }
        Conductor { pacers, front: 0 }
    }

    /// The next plan: that of the first pacer which isn't spent, each number cut at 1,000. Three zeros where there is none.
    pub fn next(&mut self) -> Plan
        ensures { Conducts (following (λ p. pacing p) self.old) result (following (λ p. pacing p) self.new) }
    {
        'pacers: while self.front < self.pacers.len() {
            if !is_spent(&self.pacers[self.front]) {
                return plan_of(&mut self.pacers[self.front]).cut();
            }
            self.front += 1;
        }
        Plan::NONE
    }
}
