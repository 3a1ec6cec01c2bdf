// What is proved of the search, for every kind of cost: see specs/Promise.antt.
ghost use Rattle.theory.specs.Examples.{Worked};
ghost use Rattle.theory.specs.Promise.{QueuesKeepPromises, OnlySumCounts, EveryCallAnswered, EveryMakeDecided};

use costs::Tally;

// Plans are cheapest, ends are honest and come in time, floors are below every good list and rise.
pub fn queues_keep_promises<V: Tally>()
    ensures { QueuesKeepPromises V.Tally }
{}

// Queues with equal grant sums have equal records, and answer a further run alike.
pub fn only_the_sum_counts<V: Tally>()
    ensures { OnlySumCounts V.Tally }
{}

// Every call has an answer, refused ones included, and only one.
pub fn every_call_has_one_answer<V: Tally>()
    ensures { EveryCallAnswered V.Tally }
{}

// Every make has an outcome, refused ones included, and only one.
pub fn every_make_has_one_outcome<V: Tally>()
    ensures { EveryMakeDecided V.Tally }
{}

// A small task worked through by the rules: see specs/Examples.antt.
pub fn small_task_worked_through()
    ensures { Worked }
{}
