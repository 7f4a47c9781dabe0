//! The law about what a bank's records look at. The function has an empty body: its contract is the law.

ghost use Rattle.lf_replay.specs.WholeMemory.{BankPartsRunAlike, BankPartsBreakAlike};

/// A bank's records are a run of the bank over its own blocks of the memory, of which `Step` speaks,
/// exactly where they are one over the memory of the whole trace; and what breaks a rule breaks it in
/// both.
pub fn bank_parts_are_alike()
    ensures run { BankPartsRunAlike }
    ensures broken { BankPartsBreakAlike }
{}
