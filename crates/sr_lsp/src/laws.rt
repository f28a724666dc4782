//! What reading and writing a link-state PDU say together, and what the table of kinds says.

ghost use Rattle.std.specs.Prelude.{◌≡◌, ◌↔◌, ℕ, ◌<◌, ◌++◌, [], List, length, take};
ghost use Rattle.sr_wire.specs.declared.fault.Check.{Check};
ghost use Rattle.sr_wire.specs.declared.fault.Check.TheVariants.{FieldExtent};
ghost use Rattle.sr_wire.specs.declared.fault.Malformed.{Malformed};
ghost use Rattle.sr_wire.specs.declared.registry.TheConstants.{EXTENDED_PREFIX, EXTENDED_REACH, ROUTER_CAPABILITY, SHARED_RISK};
ghost use Rattle.sr_wire.specs.Format.{NoRow, TlvSays, ValueFault};
ghost use Rattle.sr_wire.specs.Run.{RunFault};
ghost use Rattle.sr_wire.specs.Tlv.{Tlv};
ghost use Rattle.sr_lsp.specs.declared.lsp.Lsp.{Lsp};
ghost use Rattle.sr_lsp.specs.declared.table.Part.{Part};
ghost use Rattle.sr_lsp.specs.Capability.{CapabilityFault};
ghost use Rattle.sr_lsp.specs.InRange.{HasWidths, FitsLsp};
ghost use Rattle.sr_lsp.specs.Layouts.{SaysAllPrefixes, SaysAllReaches, SaysOneRisk, SaysOneRouter};
ghost use Rattle.sr_lsp.specs.Lsp.{IsBroken, Reads};
ghost use Rattle.sr_lsp.specs.Prefix.{prefix_layout};
ghost use Rattle.sr_lsp.specs.Reach.{entry_layout};
ghost use Rattle.sr_lsp.specs.Risk.{CutField};
ghost use Rattle.sr_lsp.specs.Table.{rows};
ghost use Rattle.sr_lsp.specs.Text.{HasSpelling, lsp_text};
ghost use Rattle.sr_lsp.specs.Truncation.{truncation_fault};

/// What octets are read as a value fail no check.
pub fn what_is_read_is_not_broken()
    ensures { (octets : List ℕ) (lsp : Lsp) (malformed : Malformed) → Reads octets lsp
        → IsBroken octets malformed → ⊥ }
{}

/// What octets are read as is one value.
pub fn what_is_read_is_determined()
    ensures { (octets : List ℕ) (a b : Lsp) → Reads octets a → Reads octets b → a ≡ b }
{}

/// The first check that octets fail is one, at one place.
pub fn the_fault_is_determined()
    ensures { (octets : List ℕ) (a b : Malformed) → IsBroken octets a → IsBroken octets b → a ≡ b }
{}

/// What is written of a PDU is read as that PDU, whatever octets follow.
pub fn what_is_written_is_read_again()
    ensures { (lsp : Lsp) (rest : List ℕ) → HasWidths lsp → FitsLsp lsp → HasSpelling lsp
        → Reads (lsp_text lsp ++ rest) lsp }
{}

/// Of the encoding of a PDU the first octets, where others behind them are missing, fail one check: at their end where they
/// hold no whole header, else at the PDU length, which they don't reach.
pub fn what_is_cut_short_is_broken()
    ensures { (lsp : Lsp) (count : ℕ) (malformed : Malformed) → HasSpelling lsp
        → count < length (lsp_text lsp)
        → (IsBroken (take count (lsp_text lsp)) malformed ↔ (malformed ≡ truncation_fault count)) }
{}

/// What the table of kinds says of a TLV is what the layout of its type says, written out field by field; a TLV of a type
/// without a row says nothing.
pub fn each_type_says_its_layout()
    ensures reach { (tlv : Tlv) (parts : List Part) → tlv.kind ≡ EXTENDED_REACH
        → (TlvSays rows tlv parts ↔ SaysAllReaches tlv.value parts) }
    ensures prefix { (tlv : Tlv) (parts : List Part) → tlv.kind ≡ EXTENDED_PREFIX
        → (TlvSays rows tlv parts ↔ SaysAllPrefixes tlv.value parts) }
    ensures risk { (tlv : Tlv) (parts : List Part) → tlv.kind ≡ SHARED_RISK
        → (TlvSays rows tlv parts ↔ SaysOneRisk tlv.value parts) }
    ensures capability { (tlv : Tlv) (parts : List Part) → tlv.kind ≡ ROUTER_CAPABILITY
        → (TlvSays rows tlv parts ↔ SaysOneRouter tlv.value parts) }
    ensures unknown { (tlv : Tlv) (parts : List Part) → NoRow rows tlv.kind
        → (TlvSays rows tlv parts ↔ (parts ≡ [])) }
{}

/// The faults inside a TLV's value by the table of kinds are those of the layout of its type; a TLV of a type without a
/// row has none.
pub fn each_type_has_its_faults()
    ensures reach { (tlv : Tlv) (at : ℕ) (check : Check) → tlv.kind ≡ EXTENDED_REACH
        → (ValueFault rows tlv at check ↔ RunFault entry_layout FieldExtent tlv.value at check) }
    ensures prefix { (tlv : Tlv) (at : ℕ) (check : Check) → tlv.kind ≡ EXTENDED_PREFIX
        → (ValueFault rows tlv at check ↔ RunFault prefix_layout FieldExtent tlv.value at check) }
    ensures risk { (tlv : Tlv) (at : ℕ) (check : Check) → tlv.kind ≡ SHARED_RISK
        → (ValueFault rows tlv at check ↔ CutField (length tlv.value) at × (check ≡ FieldExtent)) }
    ensures capability { (tlv : Tlv) (at : ℕ) (check : Check) → tlv.kind ≡ ROUTER_CAPABILITY
        → (ValueFault rows tlv at check ↔ CapabilityFault tlv.value at check) }
    ensures unknown { (tlv : Tlv) (at : ℕ) (check : Check) → NoRow rows tlv.kind
        → ValueFault rows tlv at check → ⊥ }
{}
