//! The answers that a suspended step keeps.

ghost use Rattle.xe_ctx.specs.Kept.{IsKept};

use arrayvec::ArrayVec;
use xe_base::{Access, Made};

/// What a suspended step keeps: the accesses that were answered, with their answers, and the access
/// that was asked and has none yet. A later call takes its first answers from it.
#[derive(Drop)]
pub struct Record {
    pub(crate) answers: ArrayVec<Made, 255>,
    pub(crate) asked: Option<Access>,
    ghost kept: { IsKept (answers.items) asked },
}

impl Record {
    ghost use Rattle.std.specs.Prelude.{◌≡◌, ◌<◌, ◌≤◌, All, Some, None, IfSome, IfNone, length, slice_index_or, false};
    ghost use Rattle.xe_base.specs.Access.{IsWellFormed, IsWellMade};
    ghost use Rattle.xe_base.specs.declared.access.Access.{Access};
    ghost use Rattle.xe_base.specs.declared.access.Made.{Made};
    ghost use Rattle.xe_ctx.specs.Kept.{nothing, expected, same_access};
    ghost use Rattle.xe_ctx.specs.Recorded.{kept_of};

    /// A record that keeps nothing.
    pub fn new() -> Record
        ensures { kept_of result ≡ nothing }
    {
        Record {
            answers: ArrayVec::new(),
            asked: None,
        }
    }

    /// A record of these answers, and of the access that was asked behind them.
    pub fn of(answers: &[Made], asked: Access) -> Record
        requires few { length answers.now ≤ 255 }
        requires well_made { All IsWellMade answers.now }
        requires well_formed { IsWellFormed asked }
        ensures { kept_of result ≡ record { answers = answers.now; asked = Some asked } }
    {
        let mut record = Record::new();
        record.keep(answers, asked);
        record
    }

    /// The answers that it keeps, in the order of the step.
    pub fn answers(&self) -> &[Made]
        ensures value { result.now ≡ (kept_of self.now).answers }
        ensures few { length result.now ≤ 255 }
        ensures well_made { All IsWellMade result.now }
    {
        self.answers.as_slice()
    }

    /// The access that was asked and has no answer yet; None exactly where nothing is kept.
    pub fn asked(&self) -> Option<Access>
        ensures value { result ≡ (kept_of self.now).asked }
    {
        self.asked
    }

    /// The kept answer at a place of the step, counted from 0; None behind the last one.
    pub(crate) fn kept_at(&self, at: usize) -> Option<Made>
        ensures below { IfSome result (λ m. at < length (kept_of self.now).answers) }
        ensures value { IfSome result (λ m. (d : Made) → slice_index_or (kept_of self.now).answers at d ≡ m) }
        ensures well_made { IfSome result IsWellMade }
        ensures none { IfNone result (length (kept_of self.now).answers ≤ at) }
    {
        let answers = self.answers.as_slice();
        if at < answers.len() {
            return Some(answers[at]);
        }
        None
    }

    /// The access that is expected at a place of the step: that of a kept answer, or behind these the
    /// asked one.
    pub(crate) fn expected_at(&self, at: usize) -> Option<Access>
        ensures { result ≡ expected (kept_of self.now) at }
    {
        let answers = self.answers.as_slice();
        if at < answers.len() {
            return Some(answers[at].access);
        }
        if at > answers.len() {
            return None;
        }
        self.asked
    }

    /// The access that is expected at a place of the step, where it isn't this one.
    pub(crate) fn differs_at(&self, at: usize, a: Access) -> Option<Access>
        ensures some { IfSome result (λ k. expected (kept_of self.now) at ≡ Some k) }
        ensures differs { IfSome result (λ k. same_access a k ≡ false) }
        ensures none { IfNone result ((b : Access) → expected (kept_of self.now) at ≡ Some b → b ≡ a) }
    {
        match self.expected_at(at) {
            Some(kept) => {
                if kept != a {
                    return Some(kept);
                }
                None
            }
            None => None,
        }
    }

    /// Forgets what it keeps.
    pub fn abandon(&mut self)
        ensures { kept_of self.new ≡ nothing }
    {
        self.answers.clear();
        self.asked = None;
    }

    /// Keeps these answers, and the access that was asked behind them.
    pub(crate) fn keep(&mut self, made: &[Made], asked: Access)
        requires few { length made.now ≤ 255 }
        requires well_made { All IsWellMade made.now }
        requires well_formed { IsWellFormed asked }
        ensures { kept_of self.new ≡ record { answers = made.now; asked = Some asked } }
    {
        self.answers.clear();
        self.asked = Some(asked);
        for m in made {
            self.answers.push(*m);
        }
    }
}
