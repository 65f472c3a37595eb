//! A bus that has at most one answer, for the access that was asked.

ghost use Rattle.std.specs.Prelude.{IsTrue};
ghost use Rattle.x86emu_c.specs.Posted.{is_fitting};

use xe_base::{Access, Answer, Made};
use xe_ctx::{Bus, Reply};

/// An answer that came from C and that no step has taken yet, with the access that it is for.
#[derive(Drop)]
pub struct Mailbox {
    pub post: Option<Made>,
    /// How often it had no answer.
    pub unready: u64,
    /// The answer is one that the access can have.
    ghost fits: { IsTrue (is_fitting post) },
}

impl Mailbox {
    ghost use Rattle.xe_base.specs.Access.{answers_to};
    ghost use Rattle.std.specs.Prelude.{◌≡◌, ◌≤◌, ◌<◌, ◌-◌, ◌^◌, Some, None};
    ghost use Rattle.xe_base.specs.declared.access.Answer.{Answer};
    ghost use Rattle.xe_ctx.specs.Bus.{Rose};
    ghost use Rattle.xe_ctx.specs.declared.bus.Reply.TheVariants.{Ready, NotYet, Failed};

    /// No answer.
    pub(crate) fn new() -> Mailbox
        ensures { result.post ≡ None }
    {
        Mailbox {
            post: None,
            unready: 0,
        }
    }

    /// Puts the answer to an access in.
    pub(crate) fn put(&mut self, access: Access, answer: Answer)
        requires { IsTrue (answers_to access answer) }
        ensures { self.new.post ≡ Some (record { access = access; answer = answer }) }
    {
        self.post = Some(Made { access, answer });
    }

    /// Forgets the answer, where there is one: most steps ask no device, and to look costs less than to
    /// write the whole of it.
    #[inline(always)]
    pub(crate) fn clear(&mut self)
        ensures { self.new.post ≡ None }
    {
        if self.post.is_some() {
            self.post = None;
        }
    }

    /// Gives the answer to the access that it is for, once; and is not ready for every other.
    fn reply(&mut self, a: Access) -> Reply
        ensures only { (r : Answer) → result ≡ Ready r → (self.old.post ≡ Some (record { access = a; answer = r })) × (self.new.post ≡ None) }
        ensures gives { (r : Answer) → self.old.post ≡ Some (record { access = a; answer = r }) → result ≡ Ready r }
        ensures stays { result ≡ NotYet → self.new.post ≡ self.old.post }
        ensures never { result ≡ Failed → ⊥ }
        ensures rose { result ≡ NotYet → Rose self.old.unready self.new.unready }
        ensures counts { self.old.unready ≤ self.new.unready }
    {
        if let Some(made) = self.post {
            if made.access == a {
                self.post = None;
                return Reply::Ready(made.answer);
            }
        }
        self.unready = self.unready.saturating_add(1);
        Reply::NotYet
    }
}

impl Bus for Mailbox {
    ghost use Rattle.std.specs.Prelude.{None};

    ghost sight = { λ m. record { tape = None; room = 0; spare = λ _. 0; unready = m.unready; faults = 0 } };

    fn access(&mut self, a: Access) -> Reply {
        self.reply(a)
    }
}
