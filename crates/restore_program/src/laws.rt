//! The laws of what words ask for and of what a run answers: functions that do nothing, with the laws as their contracts.
ghost use Rattle.restore_program.specs.AnswerLaws.{AnswerExists, CertifiedIsAccepted, HasOneAnswer, AcceptedIsCompleted, TraceIsSimulated};
ghost use Rattle.restore_program.specs.WordLaws.{WordsAreDecided};

/// Words have an answer wherever the inputs that are come to are held, and one at most. Where what is asked for is accepted, each answer completes it: a
/// restoration with a table or a contradiction, `select` with the lines of its picks, `simulate` with the dump of the run, `print` with the netlist's text, `load` with its line,
/// `certify` with a certificate, and `check` with the number of its facts, both with a contradiction or without. What is certified is accepted by a check. From the dump of a run only bits of the run are known, so its table has no other and there is no contradiction.
pub fn answer_laws()
    ensures exists { AnswerExists }
    ensures one_answer { HasOneAnswer }
    ensures completed { AcceptedIsCompleted }
    ensures certified { CertifiedIsAccepted }
    ensures simulated { TraceIsSimulated }
{}

/// What words say is decided. Either they have the shape of no command; or they have that of one, and there is a first number that its key may not have;
/// or they ask for a restoration, a ranking, a run, a netlist's text, a load, a certificate or a check.
pub fn word_laws()
    ensures decided { WordsAreDecided }
{}
