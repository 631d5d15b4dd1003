//! The laws of simulated executions and of load netlists: functions that do nothing, with the laws as their contracts.
ghost use Rattle.cycle_sim.specs.Laws.{SimulationExists, SimulationsAgree, SimulationHasWhatFollows, TraceMatches, TracesAgree, LoadsAreNetlists, LinesDeclare};

/// Whatever bits are given for the inputs of a netlist over so many cycles, there is an execution with these bits and 0 on each flip-flop in cycle 0, and any two
/// have the same bits, and the same trace. What is known of one, as from its trace, forces nothing that is not so in it.
pub fn simulation_laws()
    ensures exists { SimulationExists }
    ensures one { SimulationsAgree }
    ensures follows { SimulationHasWhatFollows }
    ensures trace { TraceMatches }
    ensures one_trace { TracesAgree }
{}

/// What is drawn from a number stands for a netlist, and statements that have it line by line declare it.
pub fn load_laws()
    ensures netlist { LoadsAreNetlists }
    ensures lines { LinesDeclare }
{}
