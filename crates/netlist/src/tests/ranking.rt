//! The order of small netlists and their loops, worked out by hand.
ghost use Rattle.std.specs.Prelude.{IsTrue};
ghost use Rattle.netlist.specs.Nodes.{IsNodeWithin};

use crate::loops::{Loop, gate_order};
use crate::rank_laws;
use crate::wiring::{Node, Wiring};
use sr_model::{Kind, Sig};
use std::alloc::Global;
use std::process::Abort;
use std::test::Fail;

/// What drives each signal: a kind, none for an input, and its pins.
type Drivers<'t> = &'t [(Option<Kind>, &'t [u32])];

const AND: Option<Kind> = Some(Kind::And);

const NOT: Option<Kind> = Some(Kind::Not);

const DFF: Option<Kind> = Some(Kind::Dff);

fn wiring_of(rt: &impl Abort, alloc: Global, drivers: Drivers) -> Result<Wiring, Fail> {
    let mut nodes = Vec::new(alloc);
    let mut pins: Vec<Sig> = Vec::new(alloc);
    for (kind, of_signal) in drivers {
        assert!(rt; pins.len() <= 1000 && of_signal.len() <= 1000);
        nodes.push(Node {
            kind: *kind,
            first_pin: pins.len() as u32,
            pin_count: of_signal.len() as u32,
        })?;
        for pin in *of_signal {
            pins.push(Sig(*pin))?;
        }
    }
    let pins_within = pins.iter().all(|pin| (pin.0 as usize) < nodes.len());
    let nodes_within = nodes.iter().all(|node| is_within(node, pins.len()));
    assert!(rt; pins_within && nodes_within && nodes.len() <= 65536);
    Ok(Wiring::new(alloc, nodes, pins)?)
}

fn is_within(node: &Node, pin_total: usize) -> bool
    ensures { IsTrue result → IsNodeWithin pin_total node.now }
{
    node.first_pin as usize + node.pin_count as usize <= pin_total
        && (node.kind.is_some() || node.pin_count == 0)
}

fn found(name: u32, length: u32) -> Result<&'static [u32], Loop> {
    Err(Loop {
        name: Sig(name),
        length,
    })
}

#[test]
fn orders_and_loops(rt: HostRuntime) -> Result<(), Fail> {
    let cases: [(Drivers, Result<&[u32], Loop>); 10] = [
        (&[], Ok(&[])),
        (&[(None, &[])], Ok(&[])),
        // a chain from the highest number down
        (
            &[(NOT, &[1]), (NOT, &[2]), (NOT, &[3]), (None, &[])],
            Ok(&[2, 1, 0]),
        ),
        // diamonds with repeated pins
        (
            &[
                (None, &[]),
                (AND, &[0, 0]),
                (AND, &[1, 1, 0]),
                (NOT, &[0]),
                (AND, &[2, 3, 2]),
                (AND, &[3, 3]),
            ],
            Ok(&[1, 3, 2, 5, 4]),
        ),
        // a loop of one
        (&[(None, &[]), (AND, &[0, 1])], found(1, 1)),
        // a loop of one with a tail that leads into it, and a gate that it does not feed
        (
            &[
                (NOT, &[1]),
                (AND, &[3, 2]),
                (AND, &[3, 2]),
                (None, &[]),
                (NOT, &[3]),
            ],
            found(2, 1),
        ),
        // a loop of two
        (
            &[(NOT, &[1]), (NOT, &[2]), (AND, &[3, 1]), (None, &[])],
            found(1, 2),
        ),
        // a loop of five behind a tail of two; the first pin that is fed is taken
        (
            &[
                (AND, &[7, 1]),
                (NOT, &[2]),
                (AND, &[3, 2]),
                (NOT, &[4]),
                (NOT, &[5]),
                (AND, &[7, 6]),
                (AND, &[2, 6]),
                (None, &[]),
            ],
            found(2, 5),
        ),
        // a loop through a flip-flop is none
        (&[(DFF, &[1]), (NOT, &[0])], Ok(&[1])),
        // a flip-flop that reads itself, between two gates
        (&[(NOT, &[2]), (NOT, &[0]), (DFF, &[1])], Ok(&[0, 1])),
    ];
    for (drivers, want) in &cases {
        let wiring = wiring_of(&rt, rt.alloc(), drivers)?;
        match (gate_order(rt.alloc(), &wiring)?, want) {
            (Ok(order), Ok(want)) => {
                let order = order.iter().map(|s| s.0).collect::<Vec<u32>>(rt.alloc())?;
                assert_eq!(rt; order.as_slice(), *want);
            }
            (Err(found), Err(want)) => assert_eq!(rt; found, *want),
            _ => assert!(rt;
                false,
                "an order where a loop was wanted, or a loop where an order was"
            ),
        }
    }
    rank_laws();
    Ok(())
}
