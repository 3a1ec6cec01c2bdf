// What searching backwards rests on.
ghost use Rattle.tasks.specs.Lists.{ChainsAreGoodLists, GoodListsHaveChains};

// Every chain of regressions from the goal to a set within the start is, read backwards, a good list.
pub fn chains_are_good_lists()
    ensures { ChainsAreGoodLists }
{}

// For every good list of a checked task there is such a chain, by some of the list's moves in reverse order.
pub fn good_lists_have_chains()
    ensures { GoodListsHaveChains }
{}
