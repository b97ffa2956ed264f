// The operations of a report beside those of a little group.
ghost use Rattle.std.specs.Prelude.{ℕ, ◌≡◌, ◌<◌, ◌≤◌, ◌↔◌, Contains, length, slice_index, slice_index_or, IfSome, IsTrue};
ghost use Rattle.irr_seitz.specs.OperationMeaning.{operation};
ghost use Rattle.irr_seitz.specs.declared.op.Op.{Op};
ghost use Rattle.irr_rep.specs.Twisted.{operation_places, place_count};
ghost use Rattle.irr_check.specs.Operations.{IsFirstOther};

use irr_close::Group;
use irr_rep::Twisted;
use irr_seitz::Op;
use std::cmp::Ordering;

/// The first number at which a list of operations differs from that of a little group, or one has ended.
pub(crate) fn first_other(group: &Group, t: &Twisted, ops: &[Op]) -> Option<u32>
    requires places { (p : ℕ) → Contains (operation_places t.now) p → p < length group.now.ops.items }
    requires few { length ops.now ≤ 48 }
    ensures within { IfSome result (λ i. i ≤ 48) }
    ensures first { IsFirstOther group.now.ops.items (operation_places t.now) ops.now result }
{
    let all = group.ops();
    for i in 0..t.len() {
        if i as usize == ops.len() {
            return Some(i);
        }
        if !is_same(&all[t.place(i) as usize], &ops[i as usize]) {
            return Some(i);
        }
    }
    if t.len() as usize != ops.len() {
        return Some(t.len());
    }
    None
}

// Whether two operations are the same.
fn is_same(g: &Op, h: &Op) -> bool
    ensures { IsTrue result ↔ (operation g.now ≡ operation h.now) }
{
    g.cmp(h) == Ordering::Equal
}
