// Laws of the definitions over runs of calls, each the contract of a function that does nothing.
ghost use Rattle.bridge_laws.specs.LogRuns.{LogKeepsTheFirst};
ghost use Rattle.bridge_laws.specs.RowRuns.{RowsInRuns};
ghost use Rattle.bridge_laws.specs.Witness.{PremiseMet};

// The log keeps the first fault since the last clear, and says whether others came after it.
pub fn log_keeps_the_first_fault()
    ensures { LogKeepsTheFirst }
{}

// A row serves until register 32 is written or it is refilled, whatever is stored into its table; an entry that is not
// valid is never in a row.
pub fn rows_last_until_refilled()
    ensures { RowsInRuns }
{}

// The premise of the isolation theorem holds of a concrete list of calls, with a hidden page, a mapped and a plain window,
// two reads and a write of a card.
pub fn premise_can_be_met()
    ensures { PremiseMet }
{}
