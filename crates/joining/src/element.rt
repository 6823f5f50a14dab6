// What an element is that may join or clash.
ghost use Rattle.std.specs.Prelude.{◌≡◌, Option};
ghost use Rattle.joining.specs.Laws.{Commutes, Groups, Leaves};

// Elements of which any two join or clash. `joined` is the join of two elements, or none where they clash, and
// `empty` the element that leaves every other as it is.
pub trait Join: Sized {
    ghost joined: { Self → Self → Option Self };

    ghost empty: { Self };

    // The join of the two elements, or none where they clash.
    fn join(self, other: Self) -> Option<Self>
        ensures { result ≡ joined self other };

    ghost commuting: { Commutes joined };

    ghost grouping: { Groups joined };

    ghost leaving: { Leaves joined empty };
}
