ghost use Rattle.std.specs.Prelude.{◌<◌};

use super::*;
use irr_cyc::{Dense, ORDER_LIMIT, Order};
use std::test::Fail;

// The number c z^j.
fn multiple_of_power(alloc: Global, order: &Order, j: u32, c: i64) -> Result<Dense, Memory>
    requires { j < order.now.n }
{
    Dense::from_terms(alloc, order, 1, &[(j, c)])
}

// Characters of P2_12_12_1 at 1/2,1/2,0, and those of Pm-3m at 0,0,0 at its first four operations: each entry is
// a multiple c z^j, as (j, c). The rows are shuffled; the places are those of S1, S2, ..
#[test]
fn characters_of_little_groups(rt: HostRuntime) -> Result<(), Fail> {
    let cases: [(u32, &[[(u32, i64); 4]], &[u32]); 2] = [
        (
            4,
            &[
                [(0, 1), (0, -1), (1, 1), (1, 1)],
                [(0, 1), (0, 1), (1, 1), (1, -1)],
                [(0, 1), (0, -1), (1, -1), (1, -1)],
                [(0, 1), (0, 1), (1, -1), (1, 1)],
            ],
            &[1, 3, 0, 2],
        ),
        (
            12,
            &[
                [(0, 3), (0, 3), (0, -1), (0, 1)],
                [(0, 2), (0, 2), (0, 2), (0, 0)],
                [(0, 3), (0, -3), (0, -1), (0, -1)],
                [(0, 1), (0, 1), (0, 1), (0, 1)],
                [(0, 1), (0, -1), (0, 1), (0, 1)],
                [(0, 3), (0, -3), (0, -1), (0, 1)],
                [(0, 1), (0, 1), (0, 1), (0, -1)],
                [(0, 2), (0, -2), (0, 2), (0, 0)],
                [(0, 3), (0, 3), (0, -1), (0, -1)],
                [(0, 1), (0, -1), (0, 1), (0, -1)],
            ],
            &[3, 6, 4, 9, 1, 7, 0, 8, 5, 2],
        ),
    ];
    for (n, characters, places) in cases {
        assert!(rt; 0 < n && n <= ORDER_LIMIT);
        let order = Order::new(rt.alloc(), n)?;
        let mut rows = Vec::new(rt.alloc());
        for character in characters {
            let mut row = Vec::new(rt.alloc());
            for (j, c) in character {
                assert!(rt; *j < order.n());
                row.push(multiple_of_power(rt.alloc(), &order, *j, *c)?)?;
            }
            rows.push(row)?;
        }
        assert!(rt; rows.len() < 100);
        let ordered = order_rows(rt.alloc(), rows.as_slice())?;
        assert!(rt; ordered.as_slice() == places, "at {n}");
    }
    Ok(())
}
