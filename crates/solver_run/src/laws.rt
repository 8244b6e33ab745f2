ghost use Rattle.std.specs.Prelude.{◌≡◌, ℕ, Bool, false, List, slice_range};
ghost use Rattle.cnf.specs.declared.lit.Lit.{Lit as AnyLit};
ghost use Rattle.cnf.specs.Clauses.{Formula, HasNoModel, IsModel};
ghost use Rattle.certificates.specs.declared.derivation.Item.{Item as AnyItem};
ghost use Rattle.certificates.specs.Reading.{Reads};
ghost use Rattle.certificates.specs.Text.{certificate_text};
ghost use Rattle.proof_check.specs.Derivations.{IsAccepted};
ghost use Rattle.sat_core.specs.Solving.{IsRefutation};
ghost use Rattle.ios_acl.specs.declared.entry.Entry.{Entry as AnyEntry};
ghost use Rattle.ios_acl.specs.declared.packet.Packet.{Packet as AnyPacket};
ghost use Rattle.ios_config.specs.Request.{IsRequest};
ghost use Rattle.frame.specs.declared.comparison.Comparison.{Comparison as AnyComparison};
ghost use Rattle.frame.specs.Bits.{IsPacketOf};
ghost use Rattle.frame.specs.Comparing.{AreClausesOfTwo, IsShown, compared};
ghost use Rattle.frame.specs.Scenario.{request_of};
ghost use Rattle.solver_run.specs.Run.{certificate_of};

/// Clauses of which a run says that they have no model have none, and what it stores is read as a derivation that a run
/// accepts; clauses for which a run accepts one have no model either.
pub fn answers_are_right()
    ensures no_model { (vars : ℕ) (clauses : List (List AnyLit)) (items : List AnyItem)
        → IsRefutation vars clauses items → HasNoModel vars clauses }
    ensures read { (vars : ℕ) (clauses : List (List AnyLit)) (items : List AnyItem)
        → IsRefutation vars clauses items
        → Reads (certificate_text (certificate_of items)) (certificate_of items)
        × IsAccepted vars clauses items }
    ensures accepted { (vars : ℕ) (clauses : List (List AnyLit)) (items : List AnyItem)
        → IsAccepted vars clauses items → HasNoModel vars clauses }
{}

/// Each model of the clauses of a question about two lists has the bits of a packet, and where it has those of one the
/// lists decide that packet as was asked and as the model's first two values say. Clauses of which a run says that they
/// have no model are those of lists that decide no packet so.
pub fn comparisons_are_right()
    ensures packet { (asked : AnyComparison) (first second : List AnyEntry) (f : Formula)
        (values : List Bool) → AreClausesOfTwo asked first second f
        → IsModel f.vars f.clauses values
        → (packet : AnyPacket) × IsPacketOf (slice_range values 2 128) packet }
    ensures shown { (asked : AnyComparison) (first second : List AnyEntry) (f : Formula)
        (values : List Bool) (packet : AnyPacket) → AreClausesOfTwo asked first second f
        → IsModel f.vars f.clauses values → IsPacketOf (slice_range values 2 128) packet
        → IsShown asked first second values packet }
    ensures none { (asked : AnyComparison) (first second : List AnyEntry) (f : Formula)
        (items : List AnyItem) → AreClausesOfTwo asked first second f
        → IsRefutation f.vars f.clauses items → (packet : AnyPacket)
        → IsRequest (request_of packet) → compared asked first second packet ≡ false }
{}
