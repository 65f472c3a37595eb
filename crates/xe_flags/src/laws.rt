//! Laws of the definitions, for the crates above.

ghost use Rattle.std.specs.Prelude.{◌≡◌, ℕ, Bool, ◌<◌, ◌^◌};
ghost use Rattle.xe_base.specs.Calm.{fixed_flags};
ghost use Rattle.xe_flags.specs.Arithmetic.{alu_flags};
ghost use Rattle.xe_flags.specs.Bits.{bit_flags};
ghost use Rattle.xe_flags.specs.Decimals.{bcd_flags};
ghost use Rattle.xe_flags.specs.DoubleShifts.{double_flags};
ghost use Rattle.xe_flags.specs.OneOperand.{unary_flags};
ghost use Rattle.xe_flags.specs.Products.{mul_flags};
ghost use Rattle.xe_flags.specs.Scans.{scan_flags};
ghost use Rattle.xe_flags.specs.Shifts.{shift_flags};
ghost use Rattle.xe_flags.specs.Status.{flag, with_status, SameOthers};
ghost use Rattle.xe_flags.specs.declared.arithmetic.AluOp.{AluOp};
ghost use Rattle.xe_flags.specs.declared.decimals.BcdOp.{BcdOp};
ghost use Rattle.xe_flags.specs.declared.one_operand.UnOp.{UnOp};
ghost use Rattle.xe_flags.specs.declared.scans.ScanOp.{ScanOp};
ghost use Rattle.xe_flags.specs.declared.shifts.ShiftOp.{ShiftOp};
ghost use Rattle.xe_flags.specs.declared.status.Status.{Status};

/// Each of the six flags is read as it was written, the others stay, and the whole has 64 bits.
#[tactic(auto, using(crate::proofs::FlagSet::flag_reads, crate::proofs::FlagSet::flags_kept, crate::proofs::FlagSet::flags_bound))]
pub fn flags_are_read_back()
    ensures carry { (flags : ℕ) → (s : Status) → flag (with_status flags s) 0 ≡ s.carry }
    ensures parity { (flags : ℕ) → (s : Status) → flag (with_status flags s) 2 ≡ s.parity }
    ensures adjust { (flags : ℕ) → (s : Status) → flag (with_status flags s) 4 ≡ s.adjust }
    ensures zero { (flags : ℕ) → (s : Status) → flag (with_status flags s) 6 ≡ s.zero }
    ensures sign { (flags : ℕ) → (s : Status) → flag (with_status flags s) 7 ≡ s.sign }
    ensures overflow { (flags : ℕ) → (s : Status) → flag (with_status flags s) 11 ≡ s.overflow }
    ensures others { (flags : ℕ) → (s : Status) → SameOthers flags (with_status flags s) }
    ensures bound { (flags : ℕ) → (s : Status) → with_status flags s < 2 ^ 64 }
{}

/// No instruction changes a bit of the flags but the six.
#[tactic(auto, using(crate::proofs::FlagSet::flags_kept))]
pub fn other_flags_stay()
    ensures alu { (W : ℕ) → (op : AluOp) → (a : ℕ) → (b : ℕ) → (flags : ℕ) → SameOthers flags (alu_flags W op a b flags) }
    ensures unary { (W : ℕ) → (op : UnOp) → (a : ℕ) → (flags : ℕ) → SameOthers flags (unary_flags W op a flags) }
    ensures shift { (W : ℕ) → (op : ShiftOp) → (a : ℕ) → (count : ℕ) → (flags : ℕ) → SameOthers flags (shift_flags W op a count flags) }
    ensures double_shift { (W : ℕ) → (left : Bool) → (a : ℕ) → (b : ℕ) → (count : ℕ) → (flags : ℕ) → SameOthers flags (double_flags W left a b count flags) }
    ensures mul { (W : ℕ) → (signed : Bool) → (a : ℕ) → (b : ℕ) → (flags : ℕ) → SameOthers flags (mul_flags W signed a b flags) }
    ensures bcd { (op : BcdOp) → (ax : ℕ) → (imm : ℕ) → (flags : ℕ) → SameOthers flags (bcd_flags op ax imm flags) }
    ensures bit { (W : ℕ) → (a : ℕ) → (index : ℕ) → (flags : ℕ) → SameOthers flags (bit_flags W a index flags) }
    ensures scan { (op : ScanOp) → (a : ℕ) → (flags : ℕ) → SameOthers flags (scan_flags op a flags) }
{}

/// To change the six alone is a calm change of the flags.
#[tactic(auto, using(crate::proofs::FlagSet::fixed_kept))]
pub fn status_changes_are_calm()
    ensures { (old : ℕ) → (new : ℕ) → SameOthers old new → fixed_flags new ≡ fixed_flags old }
{}
