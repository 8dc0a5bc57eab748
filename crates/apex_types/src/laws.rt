// The law of requests: the contract of a function without code.

ghost use Rattle.apex_types.specs.Arguments.{DirectionAndDisciplineAreOneNumber};

/// The third number of CREATE_QUEUING_PORT is the direction that is read from it, 0 or 1, plus twice the discipline.
pub fn direction_and_discipline_are_one_number()
    ensures { DirectionAndDisciplineAreOneNumber }
{}
