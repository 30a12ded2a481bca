//! Lists of numbered lines, however they are kept.

use crate::line::Numbered;

/// A list of the lines of a file, each with its number. What takes lines by this trait knows nothing of how they are kept.
pub trait LineList<L> {
    ghost use Rattle.std.specs.Prelude.{◌≡◌, ◌<◌, List, length, slice_get, Some};
    ghost use Rattle.ck_script.specs.declared.line.Numbered.{Numbered};
    ghost use Rattle.ck_script.specs.Script.{said_of};

    /// The lines, in order.
    ghost items: { Self → List (Numbered L) };

    /// How many lines there are.
    fn len(&self) -> usize
        ensures { result ≡ length (items self.now) };

    /// What the line at place i says.
    fn what(&self, i: usize) -> L
        requires { i < length (items self.now) }
        ensures { slice_get (said_of (items self.now)) i ≡ Some result };

    /// The line at place i.
    fn get(&self, i: usize) -> Numbered<L>
        requires { i < length (items self.now) }
        ensures { slice_get (items self.now) i ≡ Some result };
}
