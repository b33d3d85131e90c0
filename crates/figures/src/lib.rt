// Figures of a fragment of a script: what is to be known of it to join it to others, each run capped at 4,097.
#![tactic(auto)]

ghost use Rattle.std.specs.Prelude.{◌≡◌};
ghost use Rattle.figures.specs.Figures.{capped, joined_capped, one_statement, one_rest, empty, copies_capped, looped};

use crate::runs::{OVER, held, meet, product};

pub mod runs;

/// Whether a fragment rests, whether it ever ends, and its first, last and longest runs; the default never ends and has no run.
#[derive(Clone, Copy, PartialEq, Eq, Debug, Default)]
pub struct Figures {
    /// Whether a sure rest is reached.
    pub rests: bool,
    /// Whether the end is reached.
    pub ends: bool,
    /// The run before the first sure rest.
    pub first: u32,
    /// The run after the last sure rest.
    pub last: u32,
    /// The longest run with no sure rest between.
    pub longest: u32,
}

impl Figures {
    /// The figures of one statement that is no sure rest.
    pub fn plain() -> Figures
        ensures { result ≡ one_statement }
    {
        Figures {
            first: 1,
            last: 1,
            longest: 1,
            ..Figures::nothing()
        }
    }

    /// The figures of a sure rest.
    pub fn sure_rest() -> Figures
        ensures { result ≡ one_rest }
    {
        Figures {
            rests: true,
            ..Figures::nothing()
        }
    }

    /// The figures of the empty fragment.
    pub fn nothing() -> Figures
        ensures { result ≡ empty }
    {
        Figures {
            ends: true,
            ..Figures::default()
        }
    }

    // The same figures with each run capped.
    fn hold(self) -> Figures
        ensures { result ≡ capped self }
    {
        Figures {
            first: held(self.first),
            last: held(self.last),
            longest: held(self.longest),
            ..self
        }
    }

    /// The figures of this fragment with the next one joined to its end.
    pub fn join(self, next: Figures) -> Figures
        ensures { result ≡ joined_capped self next }
    {
        if !self.ends {
            return self.hold();
        }
        let last = if self.rests { self.last } else { self.first };
        let seam = meet(last, next.first);
        Figures {
            rests: self.rests || next.rests,
            ends: next.ends,
            first: if self.rests {
                held(self.first)
            } else {
                meet(self.first, next.first)
            },
            last: if next.rests { held(next.last) } else { seam },
            longest: held(self.longest).max(held(next.longest)).max(seam),
        }
    }

    /// The figures of n copies of this fragment, end to end.
    pub fn repeat(self, n: u32) -> Figures
        ensures { result ≡ copies_capped n self }
    {
        if n == 0 {
            return Figures::nothing();
        }
        if !self.ends {
            return self.hold();
        }
        if self.rests {
            let seam = meet(self.last, if n == 1 { 0 } else { self.first });
            let held = self.hold();
            return Figures {
                longest: held.longest.max(seam),
                ..held
            };
        }
        let all = product(n, self.first);
        Figures {
            first: all,
            last: all,
            longest: held(self.longest).max(all),
            ..self
        }
    }

    /// The figures of all passes of LOOP n, 0 being forever, with this fragment as its body.
    pub fn passes(self, n: u32) -> Figures
        ensures { result ≡ looped n self }
    {
        let pass = self.join(Figures::plain());
        if n == 0 {
            // Nothing counts after a forever loop: the default never ends.
            pass.repeat(OVER).join(Figures::default())
        } else {
            pass.repeat(n)
        }
    }
}
