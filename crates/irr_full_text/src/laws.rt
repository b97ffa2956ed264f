// Laws of the contents of the text.
ghost use Rattle.std.specs.Prelude.{List, ◌↔◌};
ghost use Rattle.std.specs.Int.{◌∣◌};
ghost use Rattle.irr_algebra.specs.Fin.{Fin};
ghost use Rattle.irr_algebra.specs.Pair.{times};
ghost use Rattle.irr_theory.specs.Representations.{Representations};
ghost use Rattle.irr_space.specs.Operation.{Operation, WaveVector};
ghost use Rattle.irr_space.specs.CanonicalOperation.{IsNumbering};
ghost use Rattle.irr_space.specs.Reciprocal.{IsReduced, Sign};
ghost use Rattle.irr_space.specs.SpaceGroup.{Generated};
ghost use Rattle.irr_space.specs.PhaseTable.{phases_at};
ghost use Rattle.irr_space.specs.CompleteList.{IsCompleteList, IsInOrder, over};
ghost use Rattle.irr_seitz.specs.PhaseMeaning.{sign_of};
ghost use Rattle.irr_seitz.specs.declared.op.Op.{Op};
ghost use Rattle.irr_rep.specs.Twisted.{operation_places, phase_table};
ghost use Rattle.irr_rep.specs.declared.table.Twisted.{Twisted};
ghost use Rattle.irr_close.specs.Canonical.{numbered};
ghost use Rattle.irr_close.specs.StandsFor.{stands_for};
ghost use Rattle.irr_close.specs.declared.group.Group.{Group};
ghost use Rattle.irr_little.specs.Arms.{AreArms};
ghost use Rattle.irr_little.specs.Table.{IsLittleTable};
ghost use Rattle.irr_little.specs.declared.arms.Arm.{Arm};
ghost use Rattle.irr_full.specs.Star.{Star};
ghost use Rattle.irr_full.specs.Full.{IsFullOf};
ghost use Rattle.irr_star.specs.Stars.{IsStarOf, star_of};
ghost use Rattle.irr_full_text.specs.FullText.{AreGeneratorsOf, FullContent, IsFullContent, full_content};
ghost use Rattle.irr_full_text.specs.Printed.{Matrices, IsPrintedStar};

/// The star of a reduced wave vector, with the table of its little group, is one that is printed.
pub fn printed_stars()
    ensures { (group : Group) (k : WaveVector) (arms : List Arm) (t : Twisted) (d : Op) (a : Arm)
        (canonical : IsNumbering (stands_for group) (λ _. Unit {0}) (numbered group.ops.items d))
        (are_arms : AreArms group k arms) (little : IsLittleTable group k (operation_places t) (phase_table t))
        → IsReduced (stands_for group) k k
        → IsStarOf group arms t (star_of group k arms t d a canonical are_arms little)
        → IsPrintedStar group arms t (star_of group k arms t d a canonical are_arms little) }
{}

/// The members of a list of small representations have full ones over the order of the table.
pub fn full_representations_of_lists()
    ensures { (group : Group) (k : WaveVector) (U : Star (sign_of group.phase) (stands_for group) k)
        (L : Representations (phases_at U.table))
        → (A : Matrices group U L) × ((v : U.table.order ∣ U.table.order) (m : Fin L.count)
        → IsFullOf U U.table.order v (over U.table U.table.order v (L.member m)) (A m)) }
{}

/// The full representations of a complete list in canonical order at a reduced wave vector are a content of the text.
pub fn contents_of_complete_lists()
    ensures { (group : Group) (k : WaveVector) (U : Star (sign_of group.phase) (stands_for group) k)
        → IsReduced (stands_for group) k k
        → (L : Representations (phases_at U.table)) → IsCompleteList U.table L → IsInOrder U.table L
        → (A : Matrices group U L)
        → (v : U.table.order ∣ U.table.order)
        → ((m : Fin L.count) → IsFullOf U U.table.order v (over U.table U.table.order v (L.member m)) (A m))
        → (generators : List Operation) → AreGeneratorsOf (stands_for group) U.canonical generators
        → IsFullContent (sign_of group.phase) (stands_for group) k
        (full_content k U generators (λ m. times U.arms (L.size m)) A) }
{}

/// A content for a group in the program is one for each generated group with the same operations.
pub fn contents_of_generated_groups()
    ensures { (group : Group) (generators : List Operation)
        → ((g : Operation) → stands_for group g ↔ Generated generators g)
        → (s : Sign) (k : WaveVector) (c : FullContent) → IsFullContent s (stands_for group) k c
        → IsFullContent s (Generated generators) k c }
{}
