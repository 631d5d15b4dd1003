//! The sides of a deal: one dealer, and thieves.
ghost use Rattle.std.specs.Prelude.{◌≡◌, true, IfSome, IsNone, None, Some};
ghost use Rattle.steal_queue.specs.Sides.{Takes, done_side};

use crate::draws::Draws;
use crate::queue::Queue;
use std::marker::Model;

/// The side that goes on until the queue is empty.
#[derive(Drop)]
pub struct Dealer {
    pub(crate) draws: Draws,
}

impl Model for Dealer {
    ghost use Rattle.steal_queue.specs.Sides.{Side};

    ghost Value = { Side };

    ghost view = { λ d. d.draws };
}

impl Dealer {
    /// The first number of the queue, which it holds no longer. None where it is empty, and then at each call. It makes one atomic step.
    pub fn take(&mut self, q: &Queue) -> Option<u32>
        requires deal { self.old.deal ≡ Some q.now.deal }
        ensures some { IfSome result (λ x. Takes q.now.deal.chunks x self.old self.new) }
        ensures none { IsNone result → self.new ≡ done_side self.old }
        ensures again { self.old.is_done ≡ true → result ≡ None }
    {
        self.draws.draw(q)
    }

    /// The numbers that it took, in order.
    pub fn took(&self) -> &[u32]
        ensures { result.now ≡ self.now.took }
    {
        self.draws.took()
    }
}

/// A side that may end at any time.
#[derive(Drop)]
pub struct Thief {
    pub(crate) draws: Draws,
}

impl Model for Thief {
    ghost use Rattle.steal_queue.specs.Sides.{Side};

    ghost Value = { Side };

    ghost view = { λ t. t.draws };
}

impl Thief {
    /// The first number of the queue, which it holds no longer. None where it is empty, and then at each call. It makes one atomic step.
    pub fn steal(&mut self, q: &Queue) -> Option<u32>
        requires deal { self.old.deal ≡ Some q.now.deal }
        ensures some { IfSome result (λ x. Takes q.now.deal.chunks x self.old self.new) }
        ensures none { IsNone result → self.new ≡ done_side self.old }
        ensures again { self.old.is_done ≡ true → result ≡ None }
    {
        self.draws.draw(q)
    }

    /// The numbers that it took, in order.
    pub fn took(&self) -> &[u32]
        ensures { result.now ≡ self.now.took }
    {
        self.draws.took()
    }
}
