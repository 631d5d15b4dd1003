//! Deals whose draws were worked out by hand, and one whose sides draw in threads of their own.
ghost use Rattle.std.specs.Prelude.{◌≡◌, true, Some, length};
ghost use Rattle.std.specs.List.{All};

use crate::{Dealer, Queue, Thief, deal, gather};
use sr_model::NoMemory;
use std::process::Abort;
use std::test::Fail;
use std::thread::join;

/// The first draws of a deal, in order: each by a side, of which 0 is the dealer, and what it is answered. And what the last thief has at the end.
struct Case {
    chunks: u32,
    thieves: u32,
    draws: &'static [(usize, Option<u32>)],
    last: &'static [u32],
}

const CASES: [Case; 4] = [
    Case {
        chunks: 5,
        thieves: 2,
        draws: &[
            (0, Some(0)),
            (2, Some(1)),
            (1, Some(2)),
            (0, Some(3)),
            (2, Some(4)),
            (1, None),
            (1, None),
            (0, None),
            (2, None),
        ],
        last: &[1, 4],
    },
    Case {
        chunks: 0,
        thieves: 1,
        draws: &[(0, None), (1, None), (0, None)],
        last: &[],
    },
    Case {
        chunks: 3,
        thieves: 1,
        draws: &[(0, Some(0)), (0, Some(1))],
        last: &[],
    },
    Case {
        chunks: 65536,
        thieves: 15,
        draws: &[(15, Some(0)), (0, Some(1)), (15, Some(2)), (14, Some(3))],
        last: &[0, 2],
    },
];

/// One draw by a side.
fn draw(
    rt: &impl Abort,
    q: &Queue,
    dealer: &mut Dealer,
    thieves: &mut [Thief],
    side: usize,
) -> Option<u32>
    requires dealer { dealer.old.deal ≡ Some q.now.deal }
    requires thieves { All (λ t. t.deal ≡ Some q.now.deal) thieves.old }
    ensures dealer { dealer.new.deal ≡ Some q.now.deal }
    ensures thieves { All (λ t. t.deal ≡ Some q.now.deal) thieves.new }
    ensures length { length thieves.new ≡ length thieves.old }
{
    let Some(i) = side.checked_sub(1) else {
        return dealer.take(q);
    };
    assert!(rt; i < thieves.len());
    thieves[i].steal(q)
}

/// Draws by these sides, which are answered so.
fn draw_each(
    rt: &impl Abort,
    q: &Queue,
    dealer: &mut Dealer,
    thieves: &mut [Thief],
    draws: &[(usize, Option<u32>)],
)
    requires dealer { dealer.old.deal ≡ Some q.now.deal }
    requires thieves { All (λ t. t.deal ≡ Some q.now.deal) thieves.old }
    ensures dealer { dealer.new.deal ≡ Some q.now.deal }
    ensures thieves { All (λ t. t.deal ≡ Some q.now.deal) thieves.new }
    ensures length { length thieves.new ≡ length thieves.old }
{
    for (side, wanted) in draws {
        let found = draw(rt, q, dealer, thieves, *side);
        assert_eq!(rt; found, *wanted, "side {side}");
    }
}

/// The sum of numbers.
fn sum(numbers: &[u32]) -> u64 {
    numbers
        .iter()
        .fold(0, |sum: u64, number| sum.wrapping_add(u64::from(*number)))
}

/// Draws until the queue is empty.
fn take_all(q: &Queue, mut dealer: Dealer) -> Dealer
    requires { dealer.deal ≡ Some q.now.deal }
    ensures deal { result.deal ≡ Some q.now.deal }
    ensures done { result.is_done ≡ true }
{
    while let Some(_) = dealer.take(q) {}
    dealer
}

fn steal_all(q: &Queue, mut thief: Thief) -> Thief
    requires { thief.deal ≡ Some q.now.deal }
    ensures { result.deal ≡ Some q.now.deal }
{
    while let Some(_) = thief.steal(q) {}
    thief
}

#[test]
fn numbers_come_in_order(rt: HostRuntime) -> Result<(), Fail> {
    for case in &CASES {
        assert!(rt; case.chunks <= 65536 && case.thieves <= 15);
        let (queue, mut dealer, mut thieves) = deal(rt.alloc(), case.chunks, case.thieves)?;
        draw_each(&rt, &queue, &mut dealer, thieves.as_mut_slice(), case.draws);
        let dealer = take_all(&queue, dealer);
        let mut taken = gather(queue, dealer, thieves);
        let last = taken.thieves.pop().expect(&rt, "a thief");
        assert_eq!(rt; last.took(), case.last);
    }
    Ok(())
}

/// Each number is one of the dealer's or one of the thief's, whichever of them draws it.
#[test]
fn sides_draw_at_once(rt: HostRuntime) -> Result<(), Fail> {
    let (queue, dealer, mut thieves) = deal(rt.alloc(), 20000, 1)?;
    let thief = thieves.pop().expect(&rt, "a thief");
    let (dealer, thief) = join(
        &rt,
        || take_all(&queue, dealer),
        || steal_all(&queue, thief),
    );
    thieves.push(thief).map_err(|_| NoMemory)?;
    let taken = gather(queue, dealer, thieves);
    let first = taken.dealer.took();
    let second = taken.thieves[0].took();
    assert_eq!(rt; first.len() + second.len(), 20000);
    assert_eq!(rt; sum(first).wrapping_add(sum(second)), 199990000);
    Ok(())
}
