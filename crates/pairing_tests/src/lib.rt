// Joining and pairing on examples, and a pairing of another kind.
#![tactic(auto)]

ghost use Rattle.std.specs.Prelude.{[]};
ghost use Rattle.std.proofs.Common.{rules};

use pairing::{MOST_MASKS, Pair, Pairing};
use refusal::Refusal;

// A pairing that never pairs. It keeps the law of every pairing, which asks no pair of it.
#[derive(Clone, Copy, PartialEq, Eq, Debug)]
pub struct Never;

impl Pairing for Never {
    ghost pairs = { λ _ _. [] };

    ghost next = { λ s _. s };

    ghost lawful = { Prim.search rules };

    fn propose(&mut self, masks: &[u64], buffer: &mut [Pair]) -> Result<usize, Refusal> {
        if masks.len() > MOST_MASKS || masks.len() / 2 > buffer.len() {
            return Err(Refusal::Row);
        }
        Ok(0)
    }
}

#[cfg(test)]
mod tests {
    use super::*;
    use draws::{Draws, shuffle};
    use joining::{Cell, Join, Word, join_rows};
    use pairing::{Greedy, SplitMesher};
    use std::array;
    use std::fmt::Debug;
    use std::process::Abort;

    // What a buffer holds where nothing is written.
    const BLANK: Pair = Pair {
        left: 99,
        right: 99,
    };

    fn pair(left: u8, right: u8) -> Pair {
        Pair { left, right }
    }

    // The pairing proposes these pairs in a buffer for `room` pairs, and leaves the remainder as it was.
    fn proposes<P: Pairing>(
        rt: &impl Abort,
        pairing: &mut P,
        masks: &[u64],
        room: usize,
        pairs: &[Pair],
    ) {
        let mut buffer = [BLANK; 40];
        assert!(rt; room <= buffer.len());
        assert_eq!(rt;
            pairing.propose(masks, &mut buffer[..room]),
            Ok(pairs.len())
        );
        let (written, rest) = buffer.split_at(pairs.len());
        assert_eq!(rt; written, pairs);
        assert!(rt; rest.iter().all(|pair| *pair == BLANK));
    }

    // The pairing refuses a buffer for `room` pairs, and leaves it as it was.
    fn refuses<P: Pairing>(rt: &impl Abort, pairing: &mut P, masks: &[u64], room: usize) {
        let mut buffer = [BLANK; 40];
        assert!(rt; room <= buffer.len());
        assert_eq!(rt;
            pairing.propose(masks, &mut buffer[..room]),
            Err(Refusal::Row)
        );
        assert_eq!(rt; buffer, [BLANK; 40]);
    }

    // The rows join, or are refused, and this is then in the first.
    fn joins<T: Join + Copy + PartialEq + Debug, const N: usize>(
        rt: &impl Abort,
        mut first: [T; N],
        second: &[T],
        answer: Result<(), Refusal>,
        after: [T; N],
    ) {
        assert_eq!(rt; join_rows(&mut first, second), answer);
        assert_eq!(rt; first, after);
    }

    #[test]
    fn words_and_cells_join(rt: HostRuntime) {
        let five = Word { bits: 5 };
        joins(
            &rt,
            [five],
            &[Word { bits: 10 }],
            Ok(()),
            [Word { bits: 15 }],
        );
        joins(
            &rt,
            [five],
            &[Word { bits: 4 }],
            Err(Refusal::Clash),
            [five],
        );
        joins(
            &rt,
            [Cell::Full(0)],
            &[Cell::Empty],
            Ok(()),
            [Cell::Full(0)],
        );
        joins(
            &rt,
            [Cell::Full(0)],
            &[Cell::Full(0)],
            Err(Refusal::Clash),
            [Cell::Full(0)],
        );
    }

    #[test]
    fn refused_rows_stay(rt: HostRuntime) {
        let row = [Cell::Full(1), Cell::Empty, Cell::Full(3)];
        joins(
            &rt,
            row,
            &[Cell::Empty, Cell::Full(2)],
            Err(Refusal::Row),
            row,
        );
        joins(
            &rt,
            row,
            &[Cell::Empty, Cell::Full(2), Cell::Full(3)],
            Err(Refusal::Clash),
            row,
        );
        joins(
            &rt,
            row,
            &[Cell::Empty, Cell::Full(2), Cell::Empty],
            Ok(()),
            [Cell::Full(1), Cell::Full(2), Cell::Full(3)],
        );
    }

    #[test]
    fn shuffles(rt: HostRuntime) {
        let mut row = [0u8, 1, 2, 3];
        shuffle(&mut row, &mut Draws::new(1));
        assert_eq!(rt; row, [0, 2, 3, 1]);
    }

    #[test]
    fn greedy(rt: HostRuntime) {
        let masks = [1, 2, 1, 2];
        let expected = [pair(0, 1), pair(2, 3)];
        proposes(&rt, &mut Greedy, &masks, 2, &expected);
        proposes(&rt, &mut Greedy, &masks, 5, &expected);
        refuses(&rt, &mut Greedy, &masks, 1);
        proposes(
            &rt,
            &mut Greedy,
            &[3, 1, 2, 4],
            2,
            &[pair(0, 3), pair(1, 2)],
        );
        proposes(&rt, &mut Greedy, &[], 0, &[]);
        proposes(&rt, &mut Greedy, &[0], 0, &[]);
        proposes(&rt, &mut Greedy, &[1; 64], 32, &[]);
        refuses(&rt, &mut Greedy, &[0; 64], 31);
        refuses(&rt, &mut Greedy, &[0; 65], 40);
    }

    // (0, 1), (2, 3) and so on.
    fn neighbours() -> [Pair; 32] {
        array::from_fn(|i| pair(2 * i as u8, 2 * i as u8 + 1))
    }

    #[test]
    fn sixty_four_masks(rt: HostRuntime) {
        proposes(&rt, &mut Greedy, &[0; 64], 32, &neighbours());
    }

    #[test]
    fn split_mesher(rt: HostRuntime) {
        let masks = [1, 2, 1, 2];
        let mut mesher = SplitMesher::new(1, 1);
        refuses(&rt, &mut mesher, &[0; 65], 40);
        refuses(&rt, &mut mesher, &masks, 1);
        proposes(&rt, &mut mesher, &masks, 2, &[pair(0, 3), pair(2, 1)]);
        proposes(&rt, &mut mesher, &masks, 4, &[pair(1, 2), pair(0, 3)]);
        let mut idle = SplitMesher::new(0, 0);
        proposes(&rt, &mut idle, &masks, 2, &[]);
        proposes(&rt, &mut idle, &[], 0, &[]);
        proposes(&rt, &mut idle, &[0], 0, &[]);
        let mut twice = SplitMesher::new(2, 2);
        proposes(
            &rt,
            &mut twice,
            &[1, 3, 2, 4, 1, 6],
            3,
            &[pair(3, 2), pair(4, 5)],
        );
        proposes(
            &rt,
            &mut twice,
            &[1, 3, 2, 4, 1, 6],
            3,
            &[pair(4, 2), pair(5, 0), pair(3, 1)],
        );
    }

    #[test]
    fn never(rt: HostRuntime) {
        proposes(&rt, &mut Never, &[0; 64], 32, &[]);
        refuses(&rt, &mut Never, &[0; 64], 31);
    }
}
