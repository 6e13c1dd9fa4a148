//! The latest moments of changes.
ghost use Rattle.std.specs.Prelude.{◌≡◌};
ghost use Rattle.adversary_script.specs.LatestMoments.{reaches};

use crate::change::When;

/// The latest numbers of changes, of those at events and of those at suspensions.
#[derive(Clone, Copy)]
pub struct Latest {
    pub at: Option<u32>,
    pub suspend: Option<u32>,
}

/// Whether the last number, if there is one, is not above this one.
fn reaches(last: Option<u32>, n: u32) -> bool
    ensures { result ≡ reaches last n }
{
    match last {
        None => true,
        Some(m) => m <= n,
    }
}

impl Latest {
    ghost use Rattle.std.specs.Prelude.{◌≡◌};
    ghost use Rattle.adversary_script.specs.LatestMoments.{allows, latest_with};

    /// Whether a change at this moment is in order after the latest ones.
    pub fn allows(self, when: When) -> bool
        ensures { result ≡ allows self when }
    {
        match when {
            When::Start => self.at.is_none() && self.suspend.is_none(),
            When::At(n) => reaches(self.at, n),
            When::Suspend(k) => reaches(self.suspend, k),
        }
    }

    /// The latest moments once this one is among them.
    pub fn with(self, when: When) -> Latest
        ensures { result ≡ latest_with self when }
    {
        match when {
            When::Start => self,
            When::At(n) => Latest {
                at: Some(n),
                ..self
            },
            When::Suspend(k) => Latest {
                suspend: Some(k),
                ..self
            },
        }
    }
}
