// From a group to the operations that generators generate.
ghost use Rattle.std.specs.Prelude.{ℕ, ◌≡◌, ◌↔◌, List, unsigned_abs};
ghost use Rattle.std.specs.List.{All};
ghost use Rattle.irr_algebra.specs.Fin.{Fin};
ghost use Rattle.irr_space.specs.Operation.{Operation};
ghost use Rattle.irr_space.specs.SpaceGroup.{Generated, IsExponent};
ghost use Rattle.irr_space.specs.CanonicalOperation.{IsNumbering};
ghost use Rattle.irr_rat.specs.declared.vec3.Vec3.{Vec3};
ghost use Rattle.irr_seitz.specs.declared.op.Op.{Op};
ghost use Rattle.irr_seitz.specs.OperationMeaning.{operation};
ghost use Rattle.irr_seitz.specs.Rotation.{determinant};
ghost use Rattle.irr_kvec.specs.Centrings.{AreCentrings};
ghost use Rattle.irr_cocycle.specs.SpaceGroupLaws.{IsGroup, HasCanonical};
ghost use Rattle.irr_close.specs.Limits.{operations};
ghost use Rattle.irr_close.specs.StandsFor.{stands_for};
ghost use Rattle.irr_close.specs.declared.group.Group.{Group};

/// What operations with rotations of determinant 1 or -1 generate is a group.
pub fn generated_groups()
    ensures { (gs : List Op) → All (λ s. unsigned_abs (determinant (operation s).rotation) ≡ 1) gs → IsGroup (Generated (operations gs)) }
{}

/// Where a group stands for the operations that generators generate, each rotation that is generated has its
/// canonical operation, and numbering, centrings and exponent of the group are those of what is generated.
pub fn groups_of_generators()
    ensures canonical { (group : Group) (generators : List Operation) → ((g : Operation) → stands_for group g ↔ Generated generators g) → HasCanonical (Generated generators) }
    ensures numbering { (group : Group) (generators : List Operation) → ((g : Operation) → stands_for group g ↔ Generated generators g)
        → (h : ℕ) (ops : Fin h → Operation) → IsNumbering (stands_for group) (λ _. Unit {0}) ops → IsNumbering (Generated generators) (λ _. Unit {0}) ops }
    ensures centrings { (group : Group) (generators : List Operation) → ((g : Operation) → stands_for group g ↔ Generated generators g)
        → (cs : List Vec3) → AreCentrings (stands_for group) cs → AreCentrings (Generated generators) cs }
    ensures exponent { (group : Group) (generators : List Operation) → ((g : Operation) → stands_for group g ↔ Generated generators g)
        → (n : ℕ) → IsExponent (stands_for group) n → IsExponent (Generated generators) n }
{}
