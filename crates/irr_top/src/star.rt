// `star`: the star of a wave vector.
ghost use Rattle.std.specs.Prelude.{ℕ, ◌≡◌, ◌<◌, ◌++◌, List, length, slice_index, slice_index_or, IfOk, IfErr, OnOk};
ghost use Rattle.irr_algebra.specs.Fin.{Fin, to_nat};
ghost use Rattle.irr_space.specs.Operation.{WaveVector};
ghost use Rattle.irr_text.specs.ReportText.{pieces};
ghost use Rattle.irr_text.specs.StarText.{star_text};
ghost use Rattle.irr_seitz.specs.PhaseMeaning.{sign_of};
ghost use Rattle.irr_seitz.specs.OperationMeaning.{operation};
ghost use Rattle.irr_seitz.specs.declared.op.Op.{Op};
ghost use Rattle.irr_kvec.specs.Centrings.{IsWithinLimits};
ghost use Rattle.irr_kvec.specs.WaveMeaning.{wave_vector};
ghost use Rattle.irr_close.specs.StandsFor.{stands_for};
ghost use Rattle.irr_close.specs.declared.group.Group.{Group};
ghost use Rattle.irr_rep.specs.Twisted.{phase_table, place_count, operation_places};
ghost use Rattle.irr_little.specs.Arms.{AreArms};
ghost use Rattle.irr_little.specs.Table.{IsLittleTable};
ghost use Rattle.irr_little.specs.declared.arms.Arm.{Arm};
ghost use Rattle.irr_report.specs.Printed.{numbered};
ghost use Rattle.irr_top.specs.GroupOf.{IsGroupOf, group_of};
ghost use Rattle.irr_top.specs.Question.Question.{star as asked};
ghost use Rattle.irr_top.specs.Answer.{IsReplied, IsNoReply};
ghost use Rattle.irr_top.specs.StarCommand.{IsStarText};
ghost use Rattle.irr_top.specs.StarText.{AreInList, head_text, arm_words, arm_text, factor, factors, listed_content};

use crate::reply::{NoReply, Reply};
use crate::report::operations;
use crate::status::Status;
use irr_close::Group;
use irr_kvec::Wave;
use irr_little::{Arm, Arms, LittleError, little, star};
use irr_memory::Memory;
use irr_rep::Twisted;
use irr_report::push_operations;
use irr_seitz::Op;
use irr_triplet::print_triplet;
use std::alloc::Global;

/// Replies to `star` at a wave vector, with this group.
pub(crate) fn star_reply(alloc: Global, group: &Group, k: &Wave) -> Result<Reply, NoReply>
    requires group { (gens : List Op) × IsGroupOf group.now gens }
    requires limits { IsWithinLimits k.now }
    ensures reply { (gens : List Op) → IsGroupOf group.now gens
        → IfOk result (IsReplied (asked (wave_vector k.now)) (group_of gens)) }
    ensures none { (gens : List Op) → IsGroupOf group.now gens
        → IfErr result (IsNoReply (asked (wave_vector k.now)) (group_of gens)) }
{
    match little(alloc, group, k) {
        Ok(t) => {
            let arms = star(alloc, group, k)?;
            let text = text_star(alloc, group, &arms, &t)?;
            let status = Status::Done;
            Ok(Reply { status, text })
        }
        Err(LittleError::OrderTooLarge(order)) => Err(NoReply::OrderTooLarge(order)),
        Err(LittleError::Memory) => Err(NoReply::Memory),
    }
}

/// The text of a star and of the table of its little group, as `star` and `little` of irr_little give them for
/// one wave vector of the group: the reduced wave vector, the order, the arms with the operations that carry
/// the wave vector to them, the operations of the little group, and the factor system. Arms and operations
/// count from 1. The error is want of memory.
pub fn text_star(alloc: Global, group: &Group, star: &Arms, t: &Twisted) -> Result<Vec<u8>, Memory>
    requires { (k : WaveVector) × AreArms group.now k star.now.arms.items
        × IsLittleTable group.now k (operation_places t.now) (phase_table t.now) }
    ensures { (k : WaveVector) → AreArms group.now k star.now.arms.items
        → IsLittleTable group.now k (operation_places t.now) (phase_table t.now)
        → IfOk result (λ text. IsStarText (sign_of group.now.phase) (stands_for group.now) k text.items) }
{
    let ops = operations(alloc, group, t)?;
    let text = lines(alloc, group, &star.arms, &ops, t)?;
    Ok(text)
}

// The lines of the arms, of the operations of the little group, and of their table.
fn lines(
    alloc: Global,
    group: &Group,
    arms: &[Arm],
    ops: &[Op],
    t: &Twisted,
) -> Result<Vec<u8>, Memory>
    requires some { 0 < length arms.now }
    requires numbers { AreInList group.now.ops.items arms.now }
    requires count { length ops.now ≡ place_count t.now }
    ensures { (d : Op) (a : Arm) → ((p : ℕ) (e : Op) → p < place_count t.now
        → slice_index_or ops.now p e ≡ slice_index_or group.now.ops.items (slice_index (operation_places t.now) p) e)
        → IfOk result (λ text. text.items
        ≡ star_text (listed_content group.now arms.now (operation_places t.now) (phase_table t.now) d a)) }
{
    let mut text = head(alloc, &arms[0].wave, t.order(), arms.len())?;
    push_arms(alloc, &mut text, group.ops(), arms)?;
    let count = ops.len();
    text.extend_from_slice(format!(in alloc; "ops {count}\n")?.as_bytes())?;
    push_operations(alloc, &mut text, ops)?;
    push_factors(alloc, &mut text, t)?;
    text.extend_from_slice(b"end\n")?;
    Ok(text)
}

// The lines before those of the arms.
fn head(alloc: Global, wave: &Wave, order: u32, count: usize) -> Result<Vec<u8>, Memory>
    ensures { IfOk result (λ text. text.items ≡ head_text (wave_vector wave.now) order count) }
{
    let text = format!(in alloc; "star 1\nwave {wave}\norder {order}\narms {count}\n")?;
    Ok(text.into_bytes())
}

// Appends the lines of arms, whose operations are those with their numbers.
fn push_arms(alloc: Global, text: &mut Vec<u8>, ops: &[Op], arms: &[Arm]) -> Result<(), Memory>
    requires { AreInList ops.now arms.now }
    ensures { (d : Op) → OnOk result (text.new.items ≡ text.old.items ++ numbered (arm_text ops.now d) 1 arms.now) }
{
    for (i, arm) in arms.iter().enumerate() {
        push_arm(alloc, text, i + 1, &arm.wave, &ops[arm.op as usize])?;
    }
    Ok(())
}

// Appends the line of an arm.
fn push_arm(
    alloc: Global,
    text: &mut Vec<u8>,
    number: usize,
    wave: &Wave,
    op: &Op,
) -> Result<(), Memory>
    ensures { OnOk result (text.new.items
        ≡ text.old.items ++ arm_words number (wave_vector wave.now) (operation op.now)) }
{
    text.extend_from_slice(format!(in alloc; "arm {number} {wave} ")?.as_bytes())?;
    let triplet = print_triplet(alloc, op)?;
    text.extend_from_slice(&triplet)?;
    text.push(b'\n')?;
    Ok(())
}

// Appends the rows of the factor system.
fn push_factors(alloc: Global, text: &mut Vec<u8>, t: &Twisted) -> Result<(), Memory>
    ensures { OnOk result (text.new.items
        ≡ text.old.items ++ pieces (place_count t.now) (factors (phase_table t.now))) }
{
    for i in 0..t.len() {
        push_row(alloc, text, t, i)?;
    }
    Ok(())
}

// Appends the row of an operation: for each operation the number of their product, and the exponent of its
// phase.
fn push_row(alloc: Global, text: &mut Vec<u8>, t: &Twisted, i: u32) -> Result<(), Memory>
    requires { i < place_count t.now }
    ensures { (p : Fin (place_count t.now)) → to_nat p ≡ i
        → OnOk result (text.new.items ≡ text.old.items ++ factors (phase_table t.now) p) }
{
    let number = i + 1;
    text.extend_from_slice(format!(in alloc; "factor {number}")?.as_bytes())?;
    for j in 0..t.len() {
        push_factor(alloc, text, t, i, j)?;
    }
    text.push(b'\n')?;
    Ok(())
}

// Appends the number of a product, and the exponent of its phase.
fn push_factor(alloc: Global, text: &mut Vec<u8>, t: &Twisted, i: u32, j: u32) -> Result<(), Memory>
    requires row { i < place_count t.now }
    requires column { j < place_count t.now }
    ensures { (p q : Fin (place_count t.now)) → to_nat p ≡ i → to_nat q ≡ j
        → OnOk result (text.new.items ≡ text.old.items ++ factor (phase_table t.now) p q) }
{
    let number = t.table(i, j) + 1;
    let exponent = t.phase(i, j);
    text.extend_from_slice(format!(in alloc; " {number}:{exponent}")?.as_bytes())?;
    Ok(())
}
