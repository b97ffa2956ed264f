ghost use Rattle.std.specs.Prelude.{ℕ, List};
ghost use Rattle.irr_algebra.specs.Fin.{Fin};
ghost use Rattle.irr_space.specs.Operation.{Operation, WaveVector};
ghost use Rattle.irr_space.specs.Reciprocal.{Sign};
ghost use Rattle.irr_space.specs.SpaceGroup.{Generated};
ghost use Rattle.irr_space.specs.PhaseTable.{PhaseTable, IsTableOf};
ghost use Rattle.irr_rep.specs.Table.{IsGroup, HasInverses, IsFactorSystem, IsListed, entry};

/// The lists of a table of phases meet the conditions of `Twisted::new`, and tables with the same lists
/// are tables of the same operations.
pub fn lists_of_tables()
    ensures group { (h order : ℕ) (products exponents : List ℕ) (T : PhaseTable h)
        → IsListed T order products exponents → IsGroup h (entry h products) }
    ensures inverses { (h order : ℕ) (products exponents : List ℕ) (T : PhaseTable h)
        → IsListed T order products exponents → HasInverses h (entry h products) }
    ensures factors { (h order : ℕ) (products exponents : List ℕ) (T : PhaseTable h)
        → IsListed T order products exponents → IsFactorSystem order h (entry h products) (entry h exponents) }
    ensures same { (h order : ℕ) (products exponents : List ℕ) (T U : PhaseTable h)
        → IsListed T order products exponents → IsListed U order products exponents
        → (s : Sign) (generators : List Operation) (k : WaveVector) (ops : Fin h → Operation)
        → IsTableOf s (Generated generators) k ops T → IsTableOf s (Generated generators) k ops U }
{}
