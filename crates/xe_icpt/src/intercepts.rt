//! What a set of intercepts is, and the set that has none.

ghost use Rattle.std.specs.Prelude.{◌≡◌, Option, None};
ghost use Rattle.xe_icpt.specs.declared.point.Point.{Point};
ghost use Rattle.xe_icpt.specs.declared.exit.Exit.{Exit};
ghost use Rattle.xe_icpt.specs.Points.{IsPoint};

use crate::exit::Exit;
use crate::point::Point;

/// A set of intercepts: for each well-formed point an exit or none, always the same.
pub trait Intercepts {
    ghost hits: { Self → Point → Option Exit };

    /// The exit that is taken at this point, if there is one.
    fn check(&self, p: &Point) -> Option<Exit>
        requires { IsPoint p.now }
        ensures { result ≡ hits self.now p.now };
}

/// The set that intercepts nothing.
#[derive(Clone, Copy, PartialEq, Eq, Debug, Default)]
pub struct NoHits;

impl Intercepts for NoHits {
    ghost hits = { λ _ _. None };

    fn check(&self, _p: &Point) -> Option<Exit> {
        None
    }
}
