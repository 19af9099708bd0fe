//! What the modes are strong enough for.
ghost use Rattle.std.specs.Prelude.{◌≡◌};
ghost use Rattle.lang.specs.Strengths.{is_release, is_acquire, is_sc};

use super::syntax::Mode;

impl Mode {
    /// If it is on the release side.
    pub fn is_release(self) -> bool
        ensures { result ≡ is_release self }
    {
        matches!(self, Mode::Release | Mode::AcquireRelease | Mode::SeqCst)
    }

    /// If it is on the acquire side.
    pub fn is_acquire(self) -> bool
        ensures { result ≡ is_acquire self }
    {
        matches!(self, Mode::Acquire | Mode::AcquireRelease | Mode::SeqCst)
    }

    /// If it is in the order of sc.
    pub fn is_sc(self) -> bool
        ensures { result ≡ is_sc self }
    {
        self == Mode::SeqCst
    }
}
