// Laws of the definitions, each the contract of a function that does nothing.
ghost use Rattle.bridge_laws.specs.AddressBits.{AddressBits};
ghost use Rattle.bridge_laws.specs.BurstResults.{ResultsTold};
ghost use Rattle.bridge_laws.specs.Cuts.{CutAtLines};
ghost use Rattle.bridge_laws.specs.Decodes.{Decoding};
ghost use Rattle.bridge_laws.specs.Reads.{Reads};
ghost use Rattle.bridge_laws.specs.Refusals.{Refusals};
ghost use Rattle.bridge_laws.specs.Translated.{Translates};
ghost use Rattle.bridge_laws.specs.RegisterMap.{RegisterMap};
ghost use Rattle.bridge_laws.specs.WorkedAddresses.{WorkedAddresses};
ghost use Rattle.bridge_laws.specs.Writes.{Writes};

// What the definitions make of some addresses.
pub fn worked_addresses()
    ensures { WorkedAddresses }
{}

// Which addresses a window holds, and what each bit of a translated and of a decoded address is.
pub fn addresses_by_bits()
    ensures { AddressBits }
{}

// Where an address leads: by the first window that holds it, by the first row that answers, or by the table.
pub fn addresses_lead_by_cases()
    ensures { Translates }
{}

// The pieces of a burst: in order, each within one line, together every longword once.
pub fn bursts_are_cut_at_lines()
    ensures { CutAtLines }
{}

// A card read: what it moves, what it leaves, and where it ends.
pub fn reads_move_longwords()
    ensures { Reads }
{}

// A card write: what it stores, what it dismisses, what it counts, and where it ends.
pub fn writes_store_lines()
    ensures { Writes }
{}

// When a burst is refused with 1, 2 or 3, and that 4 comes after a longword at least.
pub fn bursts_are_refused_in_order()
    ensures { Refusals }
{}

// The decoding of a processor address: which answer each address gets.
pub fn decodes_by_region()
    ensures { Decoding }
{}

// The registers: what each reads, what reads back after a write, what a write leaves, and which numbers are refused.
pub fn register_map()
    ensures { RegisterMap }
{}

// What a burst's code returns is told by the number and the values of its answer.
pub fn answers_tell_results()
    ensures { ResultsTold }
{}
