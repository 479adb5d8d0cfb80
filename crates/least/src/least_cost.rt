// What is shown of the plan: each function's contract is one theorem, and the function does nothing else.
// `C` is what costs are counted in: the theorems hold of every cost that keeps the laws.
ghost use Rattle.least.specs.Theorems.{PlanIsLeast, PlanReaches, NoneLeads, LowestFound, StepsAreCycles, FewestIsLawful, WritesAnswered};
ghost use Rattle.least.specs.Worked.{WorkedWrites};
ghost use Rattle.least.specs.Ties.{WorkedTies};

// No accepted list of cycles that leads to the wanted image costs less than the plan.
pub fn least<C>()
    ensures { PlanIsLeast C }
{}

// Where no byte of a protected sector would have to change, the plan is accepted, leads to the wanted image and costs what is said.
pub fn reached<C>()
    ensures { PlanReaches C }
{}

// Where one would, no accepted list leads there; and the lowest such byte is found.
pub fn blocked()
    ensures none_leads { NoneLeads }
    ensures lowest { LowestFound }
{}

// A plan's steps with its data are its cycles, and there are as many steps and data bytes as its cost says.
pub fn stepped()
    ensures { StepsAreCycles }
{}

// Cycles first and then data bytes is a cost that keeps the laws.
pub fn lawful()
    ensures { FewestIsLawful }
{}

// Planning a write answers what holds: a refusal whose cause is so, or steps and data that write the bytes at the least cost.
pub fn answered()
    ensures { WritesAnswered }
{}

// Eight worked writes on the bench's memory.
pub fn worked_writes()
    ensures { WorkedWrites }
{}

// Six more: which way a tie goes, and the order of steps and data.
pub fn worked_ties()
    ensures { WorkedTies }
{}
