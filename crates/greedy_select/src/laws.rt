//! The laws of greedy picks: a function that does nothing, with the laws as its contract.
ghost use Rattle.greedy_select.specs.Laws.{PicksExist, PicksAgree, PicksAreFlipFlops, PicksAreSignals};

/// For each run of a netlist and each width up to the number of its flip-flops there are so many greedy picks. They depend on the bits of the run alone, and no other list of
/// picks of that length is greedy. Each pick is a flip-flop, and so a signal, of the netlist.
pub fn pick_laws()
    ensures exist { PicksExist }
    ensures one { PicksAgree }
    ensures flip_flops { PicksAreFlipFlops }
    ensures signals { PicksAreSignals }
{}
