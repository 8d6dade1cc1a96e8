// Kinds of summary of a stretch of gaps, and the three kinds of this crate.
ghost use Rattle.std.specs.Prelude.{◌≡◌, ℕ, ◌+◌, ◌*◌, ◌<◌, ◌≤◌};
ghost use Rattle.summaries.specs.Algebra.{Algebra, Laws, Small, ups, summary, Fit};
ghost use Rattle.summaries.specs.Kinds.{peak, peak_fits, load, load_fits, both, both_fits};
ghost use Rattle.summaries.specs.KindLaws.{peak_laws, peak_fit, load_laws, load_fit, both_laws, both_fit};

// A kind of summary. `alg` gives its value for no gaps, its value for one gap of occupancy 0, the join of two neighbouring stretches and the raise
// of every gap of a stretch by one. Numbers of the logic have no limit; `fits` says which values the machine's numbers can hold.
pub trait Kind: Copy {
    ghost alg: { Algebra Self };

    ghost fits: { Self → Type 0 };

    fn empty() -> Self
        ensures { result ≡ alg.none };

    fn single() -> Self
        ensures { result ≡ alg.one };

    fn join(self, other: Self) -> Self
        requires { fits (alg.join self other) }
        ensures { result ≡ alg.join self other };

    fn raise_by(self, times: u8) -> Self
        requires { fits (ups alg times self) }
        ensures { result ≡ ups alg times self };

    // The join is associative, no gaps are neutral, and a raise goes through the join.
    ghost lawful: { Laws alg };

    // Every summary of at most 2^20 gaps of occupancy at most 16 fits.
    ghost fit: { Fit alg fits };
}

// The summary of a plain row of occupancies.
pub fn summary_of<K: Kind>(occupancies: &[u8]) -> K
    requires { Small occupancies.now }
    ensures { result ≡ summary K.alg occupancies.now }
{
    let mut whole = K::empty();
    // no `fold`, since a closure is proved for whatever was joined before, and not each join of that fits
    for occupancy in occupancies {
        whole = whole.join(K::single().raise_by(*occupancy));
    }
    whole
}

// The highest occupancy of a stretch; there is none where there are no gaps.
#[derive(Clone, Copy, PartialEq, Eq, Debug)]
pub struct Peak {
    highest: Option<u8>,
}

impl Peak {
    pub fn highest(self) -> Option<u8>
        ensures { result ≡ self.highest }
    {
        self.highest
    }
}

impl Kind for Peak {
    ghost alg = { peak };

    ghost fits = { peak_fits };

    ghost lawful = { peak_laws };

    ghost fit = { peak_fit };

    fn empty() -> Peak {
        Peak { highest: None }
    }

    fn single() -> Peak {
        Peak { highest: Some(0) }
    }

    // As a `match`, since `max` of two `Option`s took more than twice the time.
    fn join(self, other: Peak) -> Peak {
        match (self.highest, other.highest) {
            (None, _) => other,
            (Some(_), None) => self,
            (Some(a), Some(b)) => Peak {
                highest: Some(a.max(b)),
            },
        }
    }

    #[tactic(auto, using(crate::proofs::Raises::peak_room, crate::proofs::Raises::raised_peak, crate::proofs::Raises::raised_nothing))]
    fn raise_by(self, times: u8) -> Peak {
        Peak {
            highest: self.highest.map(|highest| highest + times),
        }
    }
}

// How many gaps a stretch has, and the sum of their occupancies.
#[derive(Clone, Copy, PartialEq, Eq, Debug)]
pub struct Load {
    gaps: u32,
    sum: u32,
}

impl Load {
    pub fn gaps(self) -> u32
        ensures { result ≡ self.gaps }
    {
        self.gaps
    }

    pub fn sum(self) -> u32
        ensures { result ≡ self.sum }
    {
        self.sum
    }
}

impl Kind for Load {
    ghost alg = { load };

    ghost fits = { load_fits };

    ghost lawful = { load_laws };

    ghost fit = { load_fit };

    fn empty() -> Load {
        Load { gaps: 0, sum: 0 }
    }

    fn single() -> Load {
        Load { gaps: 1, sum: 0 }
    }

    fn join(self, other: Load) -> Load {
        Load {
            gaps: self.gaps + other.gaps,
            sum: self.sum + other.sum,
        }
    }

    #[tactic(auto, using(crate::proofs::Raises::load_room, crate::specs::KindLaws::load_ups))]
    fn raise_by(self, times: u8) -> Load {
        Load {
            gaps: self.gaps,
            sum: self.sum + u32::from(times) * self.gaps,
        }
    }
}

// Two kinds side by side.
#[derive(Clone, Copy, PartialEq, Eq, Debug)]
pub struct Both<A, B> {
    first: A,
    second: B,
}

impl<A: Copy, B: Copy> Both<A, B> {
    pub fn first(self) -> A
        ensures { result ≡ self.first }
    {
        self.first
    }

    pub fn second(self) -> B
        ensures { result ≡ self.second }
    {
        self.second
    }
}

impl<A: Kind, B: Kind> Kind for Both<A, B> {
    ghost alg = { both A.Kind.alg B.Kind.alg };

    ghost fits = { both_fits A.Kind.fits B.Kind.fits };

    ghost lawful = { both_laws A.Kind.lawful B.Kind.lawful };

    ghost fit = { both_fit A.Kind.alg B.Kind.alg A.Kind.fits B.Kind.fits A.Kind.fit B.Kind.fit };

    fn empty() -> Both<A, B> {
        Both {
            first: A::empty(),
            second: B::empty(),
        }
    }

    fn single() -> Both<A, B> {
        Both {
            first: A::single(),
            second: B::single(),
        }
    }

    fn join(self, other: Both<A, B>) -> Both<A, B> {
        Both {
            first: self.first.join(other.first),
            second: self.second.join(other.second),
        }
    }

    #[tactic(auto, using(crate::specs::KindLaws::both_ups))]
    fn raise_by(self, times: u8) -> Both<A, B> {
        Both {
            first: self.first.raise_by(times),
            second: self.second.raise_by(times),
        }
    }
}
