// Worked examples, computed.
ghost use Rattle.pairing.specs.Worked.{Worked};

// Words 5 and 10 join to 15, and 5 and 4 clash; a cell full with 0 joins an empty one, and two such cells clash.
// Seed 1 shuffles 0, 1, 2, 3 into 0, 2, 3, 1. On the masks 1, 2, 1, 2 Greedy proposes (0, 1) and (2, 3), and SplitMesher
// with seed 1 and one try (0, 3) and (2, 1).
#[tactic(auto, unfolding(draws::specs::Draws::next))]
pub fn worked_examples()
    ensures { Worked }
{}
